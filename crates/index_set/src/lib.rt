#![tactic(auto)]

ghost use Rattle.std.specs.Prelude.{◌≡◌, ◌≤◌, true, [], length, take, ◌≢◌};
ghost use Rattle.index_set.specs.Adding.{Adds, Puts, written};
ghost use Rattle.index_set.specs.Sameness.{Distinct, FirstSame, OnlyPlace, held};

// The first place whose element is the same as `x`.
pub fn find<T: Eq>(xs: &[T], x: &T) -> Option<usize>
    ensures { FirstSame T.eq xs.now x.now result }
{
    xs.iter().position(|y| y == x)
}

// What came of adding an element. Three answers: as an Option or a Result one of them would need a second type inside.
#[derive(Clone, Copy, PartialEq, Eq, Debug)]
pub enum Added {
    // It stands at this place now.
    New(usize),
    // One that is the same stands at this place already.
    Present(usize),
    // None is the same, and every place is taken.
    Full,
}

// A set that keeps its elements in the order in which they came, at the front of places that it was lent.
#[derive(Drop)]
pub struct IndexSet<'a, T: Eq> {
    // a lent slice is a rule here: its owner takes all memory once, and chooses how many places there are
    places: &'a mut [T],
    len: usize,
    ghost fits: { len ≤ length places.now },
    pub ghost distinct: { Distinct T.eq (take len places.now) },
}

// `lender` says that a set holds on to the places it was lent, so what it writes is the lender's afterwards.
impl<'a, T: Eq + Copy> IndexSet<'a, T> {
    ghost use Rattle.index_set.specs.Elements.{elements};

    // The empty set over these places.
    pub fn new(places: &'a mut [T]) -> Self
        ensures elements { elements result ≡ [] }
        ensures places { result.places.now ≡ places.old }
        ensures lender { result.places.ghost_name ≡ places.entry.ghost_name }
    {
        IndexSet { places, len: 0 }
    }

    // How many elements there are.
    pub fn len(&self) -> usize
        ensures { result ≡ length (elements self.now) }
    {
        self.elements().len()
    }

    // The elements, in the order in which they came.
    pub fn elements(&self) -> &[T]
        ensures { result.now ≡ elements self.now }
    {
        &self.places[..self.len]
    }

    // The first place whose element is the same as `x`: the only one, where the elements are distinct.
    pub fn place_of(&self, x: &T) -> Option<usize>
        ensures first { FirstSame T.eq (elements self.now) x.now result }
        ensures only { OnlyPlace T.eq (elements self.now) x.now result }
    {
        find(self.elements(), x)
    }

    // Adds `x` behind the elements, unless one is the same or every place is taken: then nothing changes.
    pub fn add(&mut self, x: T) -> Added
        ensures adds { Adds T.eq (length self.old.places.now) (elements self.old) x result (elements self.new) }
        ensures places { self.new.places.now ≡ written self.old.places.now x result }
        ensures lender { self.new.places.ghost_name ≡ self.old.places.ghost_name }
        ensures room { length self.new.places.now ≡ length self.old.places.now }
        ensures holds { (result ≢ Added.Full) → held T.eq x (elements self.new) ≡ true }
    {
        let added = put(self.places, self.len, x);
        if let Added::New(_) = added {
            self.len += 1;
        }
        added
    }
}

// The set hands its lent slice to a function, a form that is kept here (docs/DECISIONS.md).
// Writes `x` behind the first `used` places, unless one of them holds the same or every place is taken: then nothing changes.
fn put<T: Eq + Copy>(places: &mut [T], used: usize, x: T) -> Added
    requires { used ≤ length places.old }
    ensures answer { Puts T.eq places.old used x result }
    ensures places { places.new ≡ written places.old x result }
{
    if let Some(i) = find(&places[..used], &x) {
        return Added::Present(i);
    }
    if used >= places.len() {
        return Added::Full;
    }
    places[used] = x;
    Added::New(used)
}

#[cfg(test)]
mod tests {
    use super::*;

    #[test]
    fn keeps_first_come_order(rt: HostRuntime) {
        let mut places = [0u16; 3];
        let mut set = IndexSet::new(&mut places);
        assert_eq!(rt; set.add(7), Added::New(0));
        assert_eq!(rt; set.add(5), Added::New(1));
        assert_eq!(rt; set.add(7), Added::Present(0));
        assert_eq!(rt; set.place_of(&5), Some(1));
        assert_eq!(rt; set.elements(), [7, 5].as_slice());
    }

    #[test]
    fn refuses_when_full(rt: HostRuntime) {
        let mut places = [0u16; 3];
        let mut set = IndexSet::new(&mut places);
        for x in 1..4 {
            assert_ne!(rt; set.add(x), Added::Full);
        }
        assert_eq!(rt; set.add(4), Added::Full);
        assert_eq!(rt; set.add(3), Added::Present(2));
        assert_eq!(rt; set.elements(), [1, 2, 3].as_slice());
    }

    #[test]
    fn leaves_the_places_behind(rt: HostRuntime) {
        let mut places = [9u16; 3];
        let mut set = IndexSet::new(&mut places);
        let _ = set.add(1);
        assert_eq!(rt; set.len(), 1);
        assert_eq!(rt; places, [1, 9, 9]);
    }

    #[test]
    fn finds_the_first(rt: HostRuntime) {
        assert_eq!(rt; find(&[4u16, 6, 6], &6), Some(1));
        assert_eq!(rt; find(&[4u16, 6, 6], &5), None);
    }
}
