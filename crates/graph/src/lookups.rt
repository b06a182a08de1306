ghost use Rattle.std.specs.Prelude.{◌≡◌, ℕ};
ghost use Rattle.std.specs.List.{slice_get};
ghost use Rattle.graph.specs.Lookups.{owned_by, first_keyed};
ghost use Rattle.graph.specs.Soundness.{Rising};

use super::records::{Export, Import, Star};

// A record that belongs to a module. Its impls and those of `Keyed` are written out, since the gate refuses impls
// by a macro of our own.
pub trait Owned: Copy {
    ghost belongs: { Self → ℕ };

    fn owner(&self) -> u16
        ensures { result ≡ belongs self.now };
}

// A record that is known in its module by a number.
pub trait Keyed: Copy {
    ghost keyed: { Self → ℕ };

    fn key(&self) -> u16
        ensures { result ≡ keyed self.now };
}

impl Owned for Star {
    ghost belongs = { λ s. s.owner };

    fn owner(&self) -> u16 {
        self.owner
    }
}

impl Owned for Import {
    ghost belongs = { λ i. i.owner };

    fn owner(&self) -> u16 {
        self.owner
    }
}

// An import is known by its symbol.
impl Keyed for Import {
    ghost keyed = { λ i. i.symbol };

    fn key(&self) -> u16 {
        self.symbol
    }
}

impl Owned for Export {
    ghost belongs = { λ e. e.owner };

    fn owner(&self) -> u16 {
        self.owner
    }
}

// An export is known by its name.
impl Keyed for Export {
    ghost keyed = { λ e. e.name };

    fn key(&self) -> u16 {
        self.name
    }
}

// The records of module `m`, which stand together where owners do not fall.
pub fn records_of<T: Owned>(records: &[T], m: usize) -> &[T]
    ensures { Rising T.belongs records.now → result.now ≡ owned_by T.belongs records.now m }
{
    let from = records.partition_point(|r| usize::from(r.owner()) < m);
    let rest = &records[from..];
    let to = rest.partition_point(|r| usize::from(r.owner()) <= m);
    &rest[..to]
}

// Record `k` of module `m`, where owners do not fall.
pub fn nth_of<T: Owned>(records: &[T], m: usize, k: usize) -> Option<T>
    ensures { Rising T.belongs records.now → result ≡ slice_get (owned_by T.belongs records.now m) k }
{
    records_of(records, m).get(k).copied()
}

// The first record of module `m` with this key, where owners do not fall.
pub fn find_of<T: Owned + Keyed>(records: &[T], m: usize, key: usize) -> Option<T>
    ensures { Rising T.belongs records.now → result ≡ first_keyed T.belongs T.keyed records.now m key }
{
    let run = records_of(records, m);
    run.iter().find(|r| usize::from(r.key()) == key).copied()
}
