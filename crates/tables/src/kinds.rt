ghost use Rattle.std.specs.Prelude.{◌≡◌, ℕ, List, map};
ghost use Rattle.graph.specs.Lookups.{kind_in};
ghost use Rattle.tables.specs.Rows.{row_kind, module_of};

use super::lists::ModuleRow;
use graph::records::Kind;

impl ModuleRow {
    // The kind of the module. A number that is no kind's is refused by opening, and counts as an empty module here. Not a
    // `From`, whose name would not say what becomes of such a number.
    pub fn kind_or_empty(self) -> Kind
        ensures { result ≡ row_kind self }
    {
        Kind::try_from(self.kind).unwrap_or(Kind::Empty)
    }
}

// The kind of module `m`.
pub fn kind_at(modules: &[ModuleRow], m: usize) -> Option<Kind>
    ensures { (run : List ℕ) → result ≡ kind_in (map (module_of run) modules.now) m }
{
    modules.get(m).copied().map(ModuleRow::kind_or_empty)
}
