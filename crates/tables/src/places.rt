ghost use Rattle.std.specs.Prelude.{◌≡◌};
ghost use Rattle.tables.specs.Rows.{module_place, star_place, import_place, export_place, record_count};
ghost use Rattle.tables.specs.Borrowed.{held};

use super::lists::Lists;

// How many records stand before each list, and how many there are.
impl Lists<'_> {
    pub(crate) fn module_place(self) -> usize
        ensures { result ≡ module_place (held self.entry) }
    {
        self.names.len()
    }

    pub(crate) fn star_place(self) -> usize
        ensures { result ≡ star_place (held self.entry) }
    {
        self.module_place() + self.modules.len()
    }

    pub(crate) fn import_place(self) -> usize
        ensures { result ≡ import_place (held self.entry) }
    {
        self.star_place() + self.stars.len()
    }

    pub(crate) fn export_place(self) -> usize
        ensures { result ≡ export_place (held self.entry) }
    {
        self.import_place() + self.imports.len()
    }

    pub(crate) fn record_count(self) -> usize
        ensures { result ≡ record_count (held self.entry) }
    {
        self.export_place() + self.exports.len()
    }
}
