ghost use Rattle.std.specs.Prelude.{◌≡◌, ◌-◌, ◌^◌, ◌<◌, Some};
ghost use Rattle.sheet.specs.Borrowed.{entry_of};
ghost use Rattle.sheet_text.specs.Counting.{counts_after, total};
ghost use Rattle.sheet_text.specs.Lines.{counts_text};

use sheet::field::Field;
use std::fmt;

// How many records of each sort stand before a place in a sheet.
#[derive(Clone, Copy, Default)]
pub struct Counts {
    pub names: usize,
    pub modules: usize,
    pub stars: usize,
    pub imports: usize,
    pub exports: usize,
}

impl Counts {
    // The counts behind one record more.
    pub(crate) fn with(mut self, field: Field) -> Self
        requires { total self < 2 ^ 64 - 1 }
        ensures { result ≡ counts_after self (entry_of field.entry) }
    {
        match field {
            Field::Name { .. } => self.names += 1,
            Field::Module { .. } => self.modules += 1,
            Field::Star { .. } => self.stars += 1,
            Field::Import { .. } => self.imports += 1,
            Field::Export { .. } => self.exports += 1,
        }
        self
    }
}

// All counts, as the first line of a text shows them.
impl fmt::Display for Counts {
    ghost output = { λ all. Some (counts_text all) };

    fn fmt<W: fmt::Write>(&self, f: &mut fmt::Formatter<W>) -> fmt::Result {
        let Counts {
            names,
            modules,
            stars,
            imports,
            exports,
        } = *self;
        write!(
            f,
            "{names} names, {modules} modules, {stars} star records, {imports} imports, {exports} exports"
        )
    }
}
