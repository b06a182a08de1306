ghost use Rattle.std.specs.Prelude.{Some};
ghost use Rattle.sheet.specs.Borrowed.{entry_of};
ghost use Rattle.sheet.specs.Opening.{entries};
ghost use Rattle.sheet_text.specs.Counting.{no_counts};
ghost use Rattle.sheet_text.specs.Lines.{record_text, lines};

use super::counts::Counts;
use super::escape::Escaped;
use sheet::field::Field;
use sheet::records::Records;
use std::fmt;

// A record as its line shows it. `before` counts the records before it.
#[derive(Clone, Copy)]
struct Line<'a> {
    before: Counts,
    field: Field<'a>,
}

impl fmt::Display for Line<'_> {
    ghost output = { λ l. Some (record_text l.before (entry_of l.field)) };

    fn fmt<W: fmt::Write>(&self, f: &mut fmt::Formatter<W>) -> fmt::Result {
        let Counts {
            names,
            modules,
            stars,
            imports,
            exports,
        } = self.before;
        let owner = modules.saturating_sub(1);
        match self.field {
            Field::Name { bytes, .. } => write!(f, "name {names}: {}", Escaped(bytes)),
            Field::Module { kind, id, .. } => {
                write!(f, "module {modules}, {kind}: {}", Escaped(id))
            }
            Field::Star { target } => {
                write!(f, "star record {stars} of module {owner}: module {target}")
            }
            Field::Import {
                symbol,
                target,
                wanted,
            } => write!(
                f,
                "import {imports} of module {owner}: {wanted} of module {target} as symbol {symbol}"
            ),
            Field::Export { name, symbol } => write!(
                f,
                "export {exports} of module {owner}: symbol {symbol} as name {name}"
            ),
        }
    }
}

// The lines of the records that can be read.
#[derive(Clone, Copy)]
pub(crate) struct Lines<'a>(pub(crate) &'a [u8]);

impl fmt::Display for Lines<'_> {
    ghost output = { λ l. Some (lines no_counts (entries l.0.now)) };

    fn fmt<W: fmt::Write>(&self, f: &mut fmt::Formatter<W>) -> fmt::Result {
        let mut before = Counts::default();
        for record in Records::of(self.0) {
            let field = record.field;
            writeln!(f, "{}", Line { before, field })?;
            before = before.with(field);
        }
        Ok(())
    }
}
