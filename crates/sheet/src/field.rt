ghost use Rattle.std.specs.Prelude.{◌≡◌, ◌+◌, ◌<◌, ◌≤◌, length, Ok, Err, MatchResult};
ghost use Rattle.sheet.specs.Fields.{two, next_at, field_at, fault_at};
ghost use Rattle.sheet.specs.Borrowed.{entry_of, Begins, offset_in, offset_from};

use super::payload::Payload;
use graph::fault::{Fault, Layer, Reason};
use graph::records::{Kind, Wanted};

// One field of a sheet. The bytes of a name or an id are a part of the sheet that begins at `offset`.
#[derive(Clone, Copy)]
pub enum Field<'a> {
    Name {
        bytes: &'a [u8],
        offset: usize,
    },
    Module {
        kind: Kind,
        id: &'a [u8],
        offset: usize,
    },
    Star {
        target: u16,
    },
    Import {
        symbol: u16,
        target: u16,
        wanted: Wanted,
    },
    Export {
        name: u16,
        symbol: u16,
    },
}

// A field, and where the next one begins.
#[derive(Clone, Copy)]
pub struct Read<'a> {
    pub field: Field<'a>,
    pub next: usize,
}

// A field of a sheet: where it begins, and what it says or why it cannot be read.
#[derive(Clone, Copy)]
pub struct FieldAt<'a> {
    pub place: usize,
    pub content: Result<Field<'a>, Reason>,
    ghost begins: { offset_in content ≡ offset_from content (place + 3) },
}

impl<'a> FieldAt<'a> {
    // What the field says, or the fault of a field that cannot be read.
    pub fn field(self) -> Result<Field<'a>, Fault>
        ensures { MatchResult result (λ f. self.entry.content ≡ Ok f) (λ e. (self.entry.content ≡ Err e.reason) × (e ≡ fault_at e.reason self.entry.place)) }
    {
        match self.content {
            Ok(field) => Ok(field),
            Err(reason) => Err(self.fault(reason)),
        }
    }

    // The fault of this field for a reason.
    pub(crate) fn fault(self, reason: Reason) -> Fault
        ensures { result ≡ fault_at reason self.entry.place }
    {
        Layer::Sheet.fault(reason, self.place)
    }
}

// The number in the two bytes from `at`, the higher byte first. The format tells numbers by their places in a payload,
// and a pattern of six bytes with their names would be no plainer.
pub(crate) fn two_bytes(bytes: &[u8], at: usize) -> u16
    requires { at + 1 < length bytes.now }
    ensures { result ≡ two bytes.now at }
{
    u16::from_be_bytes([bytes[at], bytes[at + 1]])
}

// The field that begins at `at`. What is promised speaks of the bytes and of the place, so both are parameters here.
#[inline(always)]
pub fn read_field(bytes: &[u8], at: usize) -> Result<Read<'_>, Fault>
    ensures { MatchResult result (λ (f : Read). (field_at bytes.now at ≡ Ok (entry_of f.field)) × (f.next ≡ next_at bytes.now at) × (f.next ≤ length bytes.now) × Begins f.field (at + 3)) (λ (e : Fault). (field_at bytes.now at ≡ Err e.reason) × (e ≡ fault_at e.reason at)) }
{
    if at > bytes.len() || bytes.len() - at < 3 {
        return Err(Layer::Sheet.fault(Reason::BadLength, at));
    }
    let size = usize::from(two_bytes(bytes, at + 1));
    let start = at + 3;
    if bytes.len() - start < size {
        return Err(Layer::Sheet.fault(Reason::BadLength, at));
    }
    let next = start + size;
    let payload = Payload {
        bytes: &bytes[start..next],
        offset: start,
    };
    match payload.content(bytes[at]) {
        Ok(field) => Ok(Read { field, next }),
        Err(reason) => Err(Layer::Sheet.fault(reason, at)),
    }
}
