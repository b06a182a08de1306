ghost use Rattle.std.specs.Prelude.{◌≡◌};
ghost use Rattle.std.specs.Iterator.{item_count};
ghost use Rattle.sheet.specs.Borrowed.{entry_of};
ghost use Rattle.sheet.specs.Opening.{fields_at, entries};
ghost use Rattle.sheet.specs.Owning.{modules_after, owned, records_left, record_steps, entry_kind, entry_star, entry_import, entry_export};
ghost use Rattle.sheet.specs.Reading.{readable, fields_left};

use super::field::Field;
use super::fields::Fields;
use graph::records::{Export, Import, Kind, Star};

// A record of a sheet, and the module that owns it: the latest one before it.
#[derive(Clone, Copy)]
pub struct Record<'a> {
    pub owner: u16,
    pub field: Field<'a>,
}

impl Record<'_> {
    // A module's kind.
    pub fn kind(self) -> Option<Kind>
        ensures { result ≡ entry_kind (entry_of self.entry.field) }
    {
        match self.field {
            Field::Module { kind, .. } => Some(kind),
            _ => None,
        }
    }

    pub fn star(self) -> Option<Star>
        ensures { result ≡ entry_star self.entry.owner (entry_of self.entry.field) }
    {
        let owner = self.owner;
        match self.field {
            Field::Star { target } => Some(Star { owner, target }),
            _ => None,
        }
    }

    pub fn import(self) -> Option<Import>
        ensures { result ≡ entry_import self.entry.owner (entry_of self.entry.field) }
    {
        let owner = self.owner;
        match self.field {
            Field::Import {
                symbol,
                target,
                wanted,
            } => Some(Import {
                owner,
                symbol,
                target,
                wanted,
            }),
            _ => None,
        }
    }

    pub fn export(self) -> Option<Export>
        ensures { result ≡ entry_export self.entry.owner (entry_of self.entry.field) }
    {
        let owner = self.owner;
        match self.field {
            Field::Export { name, symbol } => Some(Export {
                owner,
                name,
                symbol,
            }),
            _ => None,
        }
    }
}

// The records of a sheet in their order, up to the first field that cannot be read.
#[derive(Clone, Copy)]
pub struct Records<'a> {
    pub fields: Fields<'a>,
    // how many modules came so far
    pub modules: u16,
}

// The number of modules behind a field.
fn modules_after(modules: u16, field: Field) -> u16
    ensures { result ≡ modules_after modules (entry_of field.entry) }
{
    match field {
        Field::Module { .. } => modules.saturating_add(1),
        _ => modules,
    }
}

impl<'a> Records<'a> {
    // All records of a sheet.
    pub fn of(bytes: &'a [u8]) -> Self
        ensures { (records_left result ≡ owned 0 (entries bytes.now)) × (fields_left result.fields ≡ readable (fields_at bytes.now 0)) }
    {
        Records {
            fields: Fields::of(bytes),
            modules: 0,
        }
    }
}

impl<'a> Iterator for Records<'a> {
    type Item = Record<'a>;

    ghost next_gives = { record_steps };

    ghost remaining = { item_count records_left };

    fn next(&mut self) -> Option<Record<'a>> {
        let field = self.fields.next()?.content.ok()?;
        let owner = self.modules.saturating_sub(1);
        self.modules = modules_after(self.modules, field);
        Some(Record { owner, field })
    }
}
