ghost use Rattle.std.specs.Prelude.{◌≡◌, not, ◌&&◌, ◌==◌};
ghost use Rattle.std.specs.Str.{bytes_eq};
ghost use Rattle.graph.specs.Graphs.{default_name};
ghost use Rattle.graph.specs.Rules.{wants_unknown, is_es, owned_refusal, star_aim};

use super::fault::Reason;
use super::limits::MOST_RECORDS;
use super::records::{Kind, Wanted};

impl Wanted {
    // Whether this is a name that has no record among so many.
    pub fn is_unknown(self, names: usize) -> bool
        ensures { result ≡ wants_unknown names self }
    {
        match self {
            Wanted::Name(number) => usize::from(number) >= names,
            Wanted::Whole => false,
        }
    }
}

// Whether a module is there, and an ES module.
pub fn is_es(kind: Option<Kind>) -> bool
    ensures { result ≡ is_es kind }
{
    matches!(kind, Some(Kind::Es))
}

// Why a star record, an import or an export is refused, where there are `count` of its sort.
pub fn owned_refusal(
    misplaced: bool,
    count: usize,
    unknown: bool,
    twice: bool,
    es: bool,
) -> Option<Reason>
    ensures { result ≡ owned_refusal misplaced count unknown twice es }
{
    if misplaced {
        return Some(Reason::OutOfOrder);
    }
    if count >= MOST_RECORDS {
        return Some(Reason::OverLimit);
    }
    if unknown {
        return Some(Reason::NoRecord);
    }
    if twice {
        return Some(Reason::Duplicate);
    }
    if !es {
        return Some(Reason::WrongKind);
    }
    None
}

// Why a star record is refused that aims at a module of this kind, or at none.
pub fn star_aim(target: Option<Kind>) -> Option<Reason>
    ensures { result ≡ star_aim target }
{
    match target {
        None => Some(Reason::NoRecord),
        Some(Kind::External) => Some(Reason::WrongKind),
        Some(Kind::Es) => None,
        Some(Kind::Empty) => None,
    }
}

// Whether a name that must be `default`, since it is the first, is another.
pub fn is_wrong_first(count: usize, name: &[u8]) -> bool
    ensures { result ≡ (count == 0 && not (bytes_eq name.now default_name)) }
{
    count == 0 && name != b"default".as_slice()
}
