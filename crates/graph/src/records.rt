ghost use Rattle.std.specs.Prelude.{◌≡◌, Some};
ghost use Rattle.graph.specs.Rules.{KindNumbered, kind_number, wanted_numbered, wanted_number};
ghost use Rattle.graph.specs.Texts.{kind_name, unknown_kind_text, wanted_text};

use std::error::Error;
use std::fmt;

// What a module is, with the number by which it is written.
#[derive(Clone, Copy, PartialEq, Eq, Debug, Default)]
pub enum Kind {
    #[default]
    Es = 0,
    External = 1,
    Empty = 2,
}

// A kind as it is shown.
impl fmt::Display for Kind {
    ghost output = { λ kind. Some (kind_name kind) };

    fn fmt<W: fmt::Write>(&self, f: &mut fmt::Formatter<W>) -> fmt::Result {
        f.write_str(match self {
            Kind::Es => "ES",
            Kind::External => "external",
            Kind::Empty => "empty",
        })
    }
}

// A number that no kind has.
#[derive(Clone, Copy, PartialEq, Eq, Debug)]
pub struct UnknownKind(pub u8);

impl fmt::Display for UnknownKind {
    ghost output = { λ e. Some (unknown_kind_text e) };

    fn fmt<W: fmt::Write>(&self, f: &mut fmt::Formatter<W>) -> fmt::Result {
        let number = self.0;
        write!(f, "no kind has number {number}")
    }
}

impl Error for UnknownKind {}

// The kind that is written by a number.
impl TryFrom<u8> for Kind {
    type Error = UnknownKind;

    ghost try_from_gives = { KindNumbered };

    fn try_from(number: u8) -> Result<Kind, UnknownKind> {
        match number {
            0 => Ok(Kind::Es),
            1 => Ok(Kind::External),
            2 => Ok(Kind::Empty),
            _ => Err(UnknownKind(number)),
        }
    }
}

impl From<Kind> for u8 {
    ghost from_gives = { λ kind n. n ≡ kind_number kind };

    fn from(kind: Kind) -> u8 {
        kind as u8
    }
}

// `export * from target`, written in module `owner`.
#[derive(Clone, Copy, PartialEq, Eq, Debug)]
pub struct Star {
    pub owner: u16,
    pub target: u16,
}

// What an import takes of its target: one name, by its number, or the whole namespace. No Option, which could not have
// the conversions and the text below.
#[derive(Clone, Copy, PartialEq, Eq, Debug)]
pub enum Wanted {
    Name(u16),
    Whole,
}

// The name number of an import that stands for the whole namespace.
const WHOLE_NAMESPACE: u16 = 65535;

// What an import with a name number wants.
impl From<u16> for Wanted {
    ghost from_gives = { λ n wanted. wanted ≡ wanted_numbered n };

    fn from(number: u16) -> Wanted {
        if number == WHOLE_NAMESPACE {
            Wanted::Whole
        } else {
            Wanted::Name(number)
        }
    }
}

// The name number of an import that wants something.
impl From<Wanted> for u16 {
    ghost from_gives = { λ wanted n. n ≡ wanted_number wanted };

    fn from(wanted: Wanted) -> u16 {
        match wanted {
            Wanted::Name(number) => number,
            Wanted::Whole => WHOLE_NAMESPACE,
        }
    }
}

// What an import wants, as it is shown: `name` and the number, or `all`.
impl fmt::Display for Wanted {
    ghost output = { λ wanted. Some (wanted_text wanted) };

    fn fmt<W: fmt::Write>(&self, f: &mut fmt::Formatter<W>) -> fmt::Result {
        match self {
            Wanted::Name(number) => write!(f, "name {number}"),
            Wanted::Whole => f.write_str("all"),
        }
    }
}

// An import of module `owner`, bound there to `symbol`.
#[derive(Clone, Copy, PartialEq, Eq, Debug)]
pub struct Import {
    pub owner: u16,
    pub symbol: u16,
    pub target: u16,
    pub wanted: Wanted,
}

// An export of module `owner`: its symbol under a name.
#[derive(Clone, Copy, PartialEq, Eq, Debug)]
pub struct Export {
    pub owner: u16,
    pub name: u16,
    pub symbol: u16,
}
