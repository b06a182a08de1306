ghost use Rattle.std.specs.Prelude.{◌≡◌};
ghost use Rattle.std.specs.Iterator.{YieldsFirstBy, item_count};
ghost use Rattle.sheet.specs.Opening.{fields_at};
ghost use Rattle.sheet.specs.Reading.{placed_of, readable, fields_left};

use super::field::{FieldAt, Read, read_field};
use graph::fault::Fault;

// The fields of a sheet from a place on, one by one, up to the first that cannot be read.
#[derive(Clone, Copy)]
pub struct Fields<'a> {
    pub bytes: &'a [u8],
    pub at: usize,
}

impl<'a> Fields<'a> {
    // All fields of a sheet.
    pub fn of(bytes: &'a [u8]) -> Self
        ensures { fields_left result ≡ readable (fields_at bytes.now 0) }
    {
        Fields { bytes, at: 0 }
    }
}

impl<'a> Iterator for Fields<'a> {
    type Item = FieldAt<'a>;

    ghost next_gives = { YieldsFirstBy placed_of fields_left };

    ghost remaining = { item_count fields_left };

    // Inlined, as what it calls: a loop over fields then makes no field that it does not look at.
    #[inline(always)]
    fn next(&mut self) -> Option<FieldAt<'a>> {
        let place = self.at;
        if place >= self.bytes.len() {
            return None;
        }
        match read_field(self.bytes, place) {
            Ok(Read { field, next }) => {
                self.at = next;
                let content = Ok(field);
                Some(FieldAt { place, content })
            }
            Err(Fault { reason, .. }) => {
                self.at = self.bytes.len();
                let content = Err(reason);
                Some(FieldAt { place, content })
            }
        }
    }
}
