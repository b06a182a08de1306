ghost use Rattle.std.specs.Prelude.{◌≡◌, ◌^◌, ◌<◌, IfOk};
ghost use Rattle.sheet.specs.Fields.{content};
ghost use Rattle.sheet.specs.Borrowed.{Begins, content_of};

use super::field::{Field, two_bytes};
use graph::fault::Reason;
use graph::limits::{LONGEST_ID, LONGEST_NAME};
use graph::records::{Kind, Wanted};

// The bytes of a field behind its header, and where they begin in the sheet.
#[derive(Clone, Copy)]
pub struct Payload<'a> {
    pub bytes: &'a [u8],
    pub offset: usize,
    ghost within: { offset < 2 ^ 63 },
}

impl<'a> Payload<'a> {
    // What it says in a field of this tag.
    pub fn content(self, tag: u8) -> Result<Field<'a>, Reason>
        ensures content { content_of result ≡ content tag self.entry.bytes.now }
        ensures begins { IfOk result (λ f. Begins f self.entry.offset) }
    {
        let bytes = self.bytes;
        match tag {
            1 => self.name(),
            2 => self.module(),
            3 if bytes.len() == 2 => Ok(Field::Star {
                target: two_bytes(bytes, 0),
            }),
            4 if bytes.len() == 6 => Ok(Field::Import {
                symbol: two_bytes(bytes, 0),
                target: two_bytes(bytes, 2),
                wanted: Wanted::from(two_bytes(bytes, 4)),
            }),
            5 if bytes.len() == 4 => Ok(Field::Export {
                name: two_bytes(bytes, 0),
                symbol: two_bytes(bytes, 2),
            }),
            _ => Err(Reason::Malformed),
        }
    }

    fn name(self) -> Result<Field<'a>, Reason>
        ensures content { content_of result ≡ content 1 self.entry.bytes.now }
        ensures begins { IfOk result (λ f. Begins f self.entry.offset) }
    {
        let Payload { bytes, offset } = self;
        if bytes.is_empty() || bytes.len() > LONGEST_NAME {
            return Err(Reason::Malformed);
        }
        Ok(Field::Name { bytes, offset })
    }

    fn module(self) -> Result<Field<'a>, Reason>
        ensures content { content_of result ≡ content 2 self.entry.bytes.now }
        ensures begins { IfOk result (λ f. Begins f self.entry.offset) }
    {
        let [number, id @ ..] = self.bytes else {
            return Err(Reason::Malformed);
        };
        let kind = Kind::try_from(*number).map_err(|_| Reason::Malformed)?;
        if id.is_empty() || id.len() > LONGEST_ID {
            return Err(Reason::Malformed);
        }
        let offset = self.offset + 1;
        Ok(Field::Module { kind, id, offset })
    }
}
