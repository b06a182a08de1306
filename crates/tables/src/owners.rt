ghost use Rattle.std.specs.Prelude.{◌≡◌};
ghost use Rattle.graph.specs.Opening.{falls_behind};
ghost use Rattle.graph.specs.Soundness.{Rising};

use super::lists::ImportRow;
use graph::lookups::{Keyed, Owned};

// The impls are written out, as the gate refuses those that a macro of this repository writes.
impl Owned for ImportRow {
    ghost belongs = { λ i. i.owner };

    fn owner(&self) -> u16 {
        self.owner
    }
}

// An import is known by its symbol.
impl Keyed for ImportRow {
    ghost keyed = { λ i. i.symbol };

    fn key(&self) -> u16 {
        self.symbol
    }
}

// Whether owners fall behind these records, in which they do not.
pub(crate) fn falls_behind<T: Owned>(before: &[T], owner: u16) -> bool
    ensures { Rising T.belongs before.now → result ≡ falls_behind T.belongs before.now owner }
{
    before.last().is_some_and(|last| owner < last.owner())
}
