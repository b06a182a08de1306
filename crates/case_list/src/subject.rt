ghost use Rattle.std.specs.Prelude.{ℕ, List, Result, IfOk};
ghost use Rattle.graph.specs.declared.fault.Fault.{Fault};
ghost use Rattle.case_list.specs.Subjects.{SheetGives, SheetOrTablesGive};

use crate::items::read_list;
use crate::table_parts::TableParts;
use graph::fault::Fault;
use std::alloc::Global;

// What the subjects of a list are.
pub trait Subject {
    // What opening the text of a subject may give.
    ghost gives: { List ℕ → Result Unit Fault → Type 0 };

    // Opens what the text of a subject says, if it can be read.
    fn open(heap: Global, text: &str) -> anyhow::Result<Result<(), Fault>>
        ensures { IfOk result (gives text.now) };
}

// A sheet.
pub struct SheetAlone;

impl Subject for SheetAlone {
    ghost gives = { SheetGives };

    fn open(heap: Global, text: &str) -> anyhow::Result<Result<(), Fault>> {
        let sheet = read_list::<u8>(heap, text)?;
        Ok(sheet::open(sheet.as_slice()))
    }
}

// A sheet, or `tables` and then tables.
pub struct SheetOrTables;

impl Subject for SheetOrTables {
    ghost gives = { SheetOrTablesGive };

    fn open(heap: Global, text: &str) -> anyhow::Result<Result<(), Fault>> {
        match text.strip_prefix("tables") {
            Some(text) => TableParts::parse(heap, text)?.open(heap),
            None => SheetAlone::open(heap, text),
        }
    }
}
