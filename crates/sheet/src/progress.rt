ghost use Rattle.std.specs.Prelude.{◌≤◌, ◌+◌};

use super::fields::Fields;
use arrayvec::ArrayVec;
use graph::limits::MOST_MODULES;
use graph::records::Kind;

// What the fields so far have come to.
#[derive(Drop)]
pub struct Progress<'a> {
    pub names: usize,
    pub stars: usize,
    pub imports: usize,
    pub exports: usize,
    // of the modules; opening takes no memory from the heap
    pub kinds: ArrayVec<Kind, MOST_MODULES>,
    // the fields behind the latest module, and how many of them were its records; a type for the two would have one
    // method, `take`, which the iterator has
    pub own: Fields<'a>,
    pub owned: usize,
    ghost few_stars: { stars ≤ 1024 },
    ghost few_imports: { imports ≤ 1024 },
    ghost few_exports: { exports ≤ 1024 },
    ghost within: { owned ≤ stars + imports + exports },
}
