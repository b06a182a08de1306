ghost use Rattle.std.specs.Prelude.{◌≡◌, true, is_ok, IfOk};
ghost use Rattle.sheet.specs.Opening.{graph_of as sheet_graph};
ghost use Rattle.tables.specs.Opening.{opened as tables_opened, graph_of as tables_graph};
ghost use Rattle.tables.specs.Owned.{kept};

use super::add::add;
use sheet::records::Records;
use sheet_source::sheets::Sheet;
use std::alloc::{AllocError, Global};
use tables::owned::OwnedLists;

// Reads a sheet into tables, in one pass. Names and ids stay where they are in the sheet's bytes. The tables open, and
// have the sheet's graph.
pub fn tables_of<'a>(heap: Global, sheet: &Sheet<'a>) -> Result<OwnedLists<'a>, AllocError>
    ensures { IfOk result (λ t. (is_ok (tables_opened (kept t)) ≡ true) × (tables_graph (kept t) ≡ sheet_graph sheet.now.bytes.now)) }
{
    let bytes = sheet.bytes;
    let mut lists = OwnedLists {
        bytes,
        names: Vec::new(heap),
        modules: Vec::new(heap),
        stars: Vec::new(heap),
        imports: Vec::new(heap),
        exports: Vec::new(heap),
    };
    for record in Records::of(bytes) {
        add(&mut lists, record)?;
    }
    Ok(lists)
}
