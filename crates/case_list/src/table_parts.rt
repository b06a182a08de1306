ghost use Rattle.std.specs.Prelude.{◌≡◌, [], ◌∷◌, IfOk};
ghost use Rattle.case_list.specs.Subjects.{table_parts, PartsGive};

use crate::items::read_list;
use crate::parts::parts_between;
use anyhow::anyhow;
use graph::fault::Fault;
use std::alloc::Global;
use tables::owned::OwnedLists;

// The parts of a text of tables.
#[derive(Clone, Copy)]
pub(crate) struct TableParts<'a> {
    run: &'a str,
    names: &'a str,
    modules: &'a str,
    stars: &'a str,
    imports: &'a str,
    exports: &'a str,
}

impl<'a> TableParts<'a> {
    // Reads `RUN | NAMES | MODULES | STARS | IMPORTS | EXPORTS`.
    pub(crate) fn parse(heap: Global, text: &'a str) -> anyhow::Result<TableParts<'a>>
        ensures { IfOk result (λ p. table_parts text.now ≡ p.run.now ∷ p.names.now ∷ p.modules.now ∷ p.stars.now ∷ p.imports.now ∷ p.exports.now ∷ []) }
    {
        let parts = parts_between(heap, text, '|')?;
        let [run, names, modules, stars, imports, exports] = parts.as_slice() else {
            return Err(anyhow!("not six parts"));
        };
        Ok(TableParts {
            run,
            names,
            modules,
            stars,
            imports,
            exports,
        })
    }

    // Opens the tables that the parts spell, if they can be read.
    pub(crate) fn open(self, heap: Global) -> anyhow::Result<Result<(), Fault>>
        ensures { IfOk result (PartsGive (self.entry.run.now ∷ self.entry.names.now ∷ self.entry.modules.now ∷ self.entry.stars.now ∷ self.entry.imports.now ∷ self.entry.exports.now ∷ [])) }
    {
        let bytes = read_list::<u8>(heap, self.run)?;
        let lists = OwnedLists {
            bytes: bytes.as_slice(),
            names: read_list(heap, self.names)?,
            modules: read_list(heap, self.modules)?,
            stars: read_list(heap, self.stars)?,
            imports: read_list(heap, self.imports)?,
            exports: read_list(heap, self.exports)?,
        };
        Ok(tables::open(lists.lend()))
    }
}
