ghost use Rattle.std.specs.Prelude.{◌≡◌, OnOk};
ghost use Rattle.tables.specs.Owned.{kept};
ghost use Rattle.sheet_tables.specs.Adding.{added};

use graph::records::{Export, Star};
use sheet::field::Field;
use sheet::records::Record;
use std::alloc::AllocError;
use tables::lists::{ImportRow, ModuleRow, Span};
use tables::owned::OwnedLists;

// Adds a record at the end of its list.
pub(crate) fn add(lists: &mut OwnedLists, record: Record) -> Result<(), AllocError>
    ensures { OnOk result (kept lists.new ≡ added (kept lists.old) «record».entry.owner «record».entry.field) }
{
    let Record { owner, field } = record;
    match field {
        Field::Name { bytes, offset } => {
            let len = bytes.len();
            lists.names.push(Span { offset, len })?;
        }
        Field::Module { kind, id, offset } => {
            let kind = u8::from(kind);
            let len = id.len();
            let id = Span { offset, len };
            lists.modules.push(ModuleRow { kind, id })?;
        }
        Field::Star { target } => {
            lists.stars.push(Star { owner, target })?;
        }
        Field::Import {
            symbol,
            target,
            wanted,
        } => {
            let name = u16::from(wanted);
            lists.imports.push(ImportRow {
                owner,
                symbol,
                target,
                name,
            })?;
        }
        Field::Export { name, symbol } => {
            lists.exports.push(Export {
                owner,
                name,
                symbol,
            })?;
        }
    }
    Ok(())
}
