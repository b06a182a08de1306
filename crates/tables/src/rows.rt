ghost use Rattle.std.specs.Prelude.{◌≡◌, ◌||◌, map, length, nat_le, is_some};
ghost use Rattle.graph.specs.Lookups.{kind_in, first_keyed};
ghost use Rattle.graph.specs.Rules.{owned_refusal, is_es};
ghost use Rattle.graph.specs.Opening.{falls_behind};
ghost use Rattle.graph.specs.Soundness.{Rising};
ghost use Rattle.tables.specs.Borrowed.{held};
ghost use Rattle.tables.specs.Rows.{module_of, no_owner, star_writes, import_writes, export_writes, module_content, star_content, import_content, export_content, with_modules, with_stars, with_imports, with_exports};
ghost use Rattle.tables.specs.Growing.{modules_grow, imports_grow};
ghost use Rattle.std.proofs.Common.{rules};

use super::kinds::kind_at;
use super::lists::{ImportRow, Lists, ModuleRow};
use super::owners::falls_behind;
use super::row::Row;
use graph::fault::Reason;
use graph::limits::{LONGEST_ID, MOST_MODULES};
use graph::lookups::{Keyed, Owned, find_of};
use graph::records::{Export, Kind, Star, Wanted};
use graph::rules::{is_es, owned_refusal};

// Why a row is refused behind `before`: whether its name has no record, and whether it is given twice, is told already.
fn refusal_behind<T: Owned>(
    row: &T,
    lists: Lists,
    before: &[T],
    nameless: bool,
    twice: bool,
) -> Option<Reason>
    ensures { Rising T.belongs before.now → result ≡ owned_refusal (falls_behind T.belongs before.now (T.belongs row.now)) (length before.now) (nat_le (length (held lists.entry).modules) (T.belongs row.now) || nameless) twice (is_es (kind_in (map (module_of (held lists.entry).bytes) (held lists.entry).modules) (T.belongs row.now))) }
{
    let falls = falls_behind(before, row.owner());
    let owner = usize::from(row.owner());
    let unknown = owner >= lists.modules.len() || nameless;
    let es = is_es(kind_at(lists.modules, owner));
    owned_refusal(falls, before.len(), unknown, twice, es)
}

// Whether a row before this one has its owner and its key.
fn is_given_twice<T: Owned + Keyed>(row: &T, before: &[T]) -> bool
    ensures { Rising T.belongs before.now → result ≡ is_some (first_keyed T.belongs T.keyed before.now (T.belongs row.now) (T.keyed row.now)) }
{
    let owner = usize::from(row.owner());
    let key = usize::from(row.key());
    find_of(before, owner, key).is_some()
}

// The same for a row that is known by its key: it is given twice where a row before it has its owner and its key.
fn keyed_refusal<T: Owned + Keyed>(
    row: &T,
    lists: Lists,
    before: &[T],
    nameless: bool,
) -> Option<Reason>
    ensures { Rising T.belongs before.now → result ≡ owned_refusal (falls_behind T.belongs before.now (T.belongs row.now)) (length before.now) (nat_le (length (held lists.entry).modules) (T.belongs row.now) || nameless) (is_some (first_keyed T.belongs T.keyed before.now (T.belongs row.now) (T.keyed row.now))) (is_es (kind_in (map (module_of (held lists.entry).bytes) (held lists.entry).modules) (T.belongs row.now))) }
{
    refusal_behind(row, lists, before, nameless, is_given_twice(row, before))
}

impl Row for ModuleRow {
    ghost writes = { no_owner };

    ghost content = { module_content };

    ghost stage = { with_modules };

    ghost grows = { modules_grow };

    fn refusal(&self, lists: Lists, before: &[ModuleRow]) -> Option<Reason> {
        let id = self.id.read(lists.bytes, LONGEST_ID);
        if id.is_none() || Kind::try_from(self.kind).is_err() {
            return Some(Reason::Malformed);
        }
        if before.len() >= MOST_MODULES {
            return Some(Reason::OverLimit);
        }
        None
    }
}

impl Row for Star {
    ghost writes = { star_writes };

    ghost content = { star_content };

    ghost stage = { with_stars };

    ghost grows = { Prim.search rules };

    fn refusal(&self, lists: Lists, before: &[Star]) -> Option<Reason> {
        refusal_behind(self, lists, before, false, false)
    }
}

impl Row for ImportRow {
    ghost writes = { import_writes };

    ghost content = { import_content };

    ghost stage = { with_imports };

    ghost grows = { imports_grow };

    fn refusal(&self, lists: Lists, before: &[ImportRow]) -> Option<Reason> {
        let nameless = Wanted::from(self.name).is_unknown(lists.names.len());
        keyed_refusal(self, lists, before, nameless)
    }
}

impl Row for Export {
    ghost writes = { export_writes };

    ghost content = { export_content };

    ghost stage = { with_exports };

    ghost grows = { Prim.search rules };

    fn refusal(&self, lists: Lists, before: &[Export]) -> Option<Reason> {
        let nameless = usize::from(self.name) >= lists.names.len();
        keyed_refusal(self, lists, before, nameless)
    }
}
