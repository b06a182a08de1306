ghost use Rattle.std.specs.Prelude.{◌≡◌, Some};
ghost use Rattle.graph.specs.Faults.{reason_number, layer_name, fault_text};
ghost use Rattle.graph.specs.Opening.{fault_in};

use std::fmt;

// Why a sheet or tables are refused, with the number by which a refusal is known.
#[derive(Clone, Copy, PartialEq, Eq, Debug)]
pub enum Reason {
    // the sheet is too long, or a field is cut short
    BadLength = 10,
    // a tag, length or kind that the format does not have
    Malformed = 11,
    // a name behind a module, or a record before every module
    OutOfOrder = 12,
    // no name, a first name other than `default`, or a name given twice
    BadName = 13,
    // a record over its limit
    OverLimit = 14,
    // a name or module number with no record
    NoRecord = 15,
    // two exports of one name or two imports of one symbol in a module
    Duplicate = 16,
    // an owner that is no ES module, or a star record aiming at an external one
    WrongKind = 17,
}

impl From<Reason> for u8 {
    ghost from_gives = { λ reason n. n ≡ reason_number reason };

    fn from(reason: Reason) -> u8 {
        reason as u8
    }
}

// Who found a fault.
#[derive(Clone, Copy, PartialEq, Eq, Debug)]
pub enum Layer {
    Sheet,
    Tables,
    Link,
    Listing,
}

impl Layer {
    // The layer's name.
    pub fn name(self) -> &'static str
        ensures { result.now ≡ layer_name self }
    {
        match self {
            Layer::Sheet => "sheet",
            Layer::Tables => "tables",
            Layer::Link => "link",
            Layer::Listing => "listing",
        }
    }

    // A fault that this layer found.
    pub fn fault(self, reason: Reason, place: usize) -> Fault
        ensures { result ≡ fault_in self reason place }
    {
        Fault {
            reason,
            place,
            layer: self,
        }
    }
}

// A layer is shown by its name.
impl fmt::Display for Layer {
    ghost output = { λ layer. Some (layer_name layer) };

    fn fmt<W: fmt::Write>(&self, f: &mut fmt::Formatter<W>) -> fmt::Result {
        f.write_str(self.name())
    }
}

// A refusal: why, where, and who says so.
#[derive(Clone, Copy, PartialEq, Eq, Debug)]
pub struct Fault {
    pub reason: Reason,
    pub place: usize,
    pub layer: Layer,
}

// A fault as programs print it, such as `refused 13 at 0 in sheet`.
impl fmt::Display for Fault {
    ghost output = { λ f. Some (fault_text f) };

    fn fmt<W: fmt::Write>(&self, f: &mut fmt::Formatter<W>) -> fmt::Result {
        let number = u8::from(self.reason);
        let place = self.place;
        let layer = self.layer;
        write!(f, "refused {number} at {place} in {layer}")
    }
}
