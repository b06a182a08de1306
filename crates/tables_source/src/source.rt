ghost use Rattle.std.specs.Prelude.{◌≡◌, Err, MatchResult};
ghost use Rattle.tables.specs.Opening.{opened, graph_of};
ghost use Rattle.tables.specs.Borrowed.{held};
ghost use Rattle.tables.proofs.Opened.{graph_sound};

use super::opened::Tables;
use graph::fault::Fault;
use graph::lookups::{Keyed, Owned, find_of, nth_of};
use graph::records::{Export, Import, Kind};
use graph::source::ModuleSource;
use tables::kinds::kind_at;
use tables::lists::{Lists, Span};
use tables::open;

// The lists with the name `default` alone.
const DEFAULT_ALONE: Lists<'static> = Lists {
    bytes: b"default",
    names: &[Span { offset: 0, len: 7 }],
    modules: &[],
    stars: &[],
    imports: &[],
    exports: &[],
};

impl<'a> Tables<'a> {
    // The tables of these lists, or their first fault.
    pub fn open(lists: Lists<'a>) -> Result<Self, Fault>
        ensures { MatchResult result (λ tables. held tables.lists ≡ held lists.entry) (λ fault. opened (held lists.entry) ≡ Err fault) }
    {
        open(lists)?;
        Ok(Tables { lists })
    }

    // Tables for any lists: where these are refused, those with the name `default` and no module. Not a `From`, whose name
    // would not say so.
    pub fn of(lists: Lists<'a>) -> Self
        ensures { graph_of (held result.lists) ≡ graph_of (held lists.entry) }
    {
        Tables::open(lists).unwrap_or(Tables {
            lists: DEFAULT_ALONE,
        })
    }
}

impl ModuleSource for Tables<'_> {
    ghost graph = { λ t. graph_of (held t.lists) };

    ghost sound = { λ t. graph_sound (held t.lists) };

    fn module_count(&self) -> usize {
        self.lists.modules.len()
    }

    fn import_count(&self) -> usize {
        self.lists.imports.len()
    }

    fn kind(&self, m: usize) -> Option<Kind> {
        kind_at(self.lists.modules, m)
    }

    fn star(&self, m: usize, k: usize) -> Option<u16> {
        nth_of(self.lists.stars, m, k).map(|star| star.target)
    }

    fn export(&self, m: usize, k: usize) -> Option<Export> {
        nth_of(self.lists.exports, m, k)
    }

    fn import(&self, i: usize) -> Option<Import> {
        self.lists.imports.get(i).copied().map(Import::from)
    }

    fn exported_symbol(&self, m: usize, n: usize) -> Option<u16> {
        find_of(self.lists.exports, m, n).map(|export| export.symbol)
    }

    fn import_behind(&self, m: usize, s: usize) -> Option<Import> {
        find_of(self.lists.imports, m, s).map(Import::from)
    }
}
