ghost use Rattle.std.specs.Prelude.{◌≡◌, ◌+◌, ◌-◌, ◌^◌, ◌<◌, ◌≤◌, Some, if◌then◌else◌};

use std::fmt;

// How many cases there were, and how many of them came out wrong.
#[derive(Clone, Copy, PartialEq, Eq, Debug)]
pub struct Tally {
    cases: u64,
    wrong: u64,
    ghost within: { wrong ≤ cases },
}

impl Tally {
    // Before the first case.
    pub(crate) fn new() -> Tally
        ensures cases { result.cases ≡ 0 }
        ensures wrong { result.wrong ≡ 0 }
    {
        Tally { cases: 0, wrong: 0 }
    }

    // Counts a case.
    pub(crate) fn count(&mut self, is_wrong: bool)
        requires { self.old.cases < 2 ^ 64 - 1 }
        ensures cases { self.new.cases ≡ self.old.cases + 1 }
        ensures wrong { self.new.wrong ≡ self.old.wrong + (if is_wrong then 1 else 0) }
    {
        self.cases += 1;
        self.wrong += u64::from(is_wrong);
    }
}

impl fmt::Display for Tally {
    ghost use Rattle.case_list.specs.Tallies.{tally_text};

    ghost output = { λ t. Some (tally_text t) };

    fn fmt<W: fmt::Write>(&self, f: &mut fmt::Formatter<W>) -> fmt::Result {
        let cases = self.cases;
        let wrong = self.wrong;
        write!(f, "{cases} cases, {wrong} wrong")
    }
}
