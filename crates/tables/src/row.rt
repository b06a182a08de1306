ghost use Rattle.std.specs.Prelude.{◌≡◌, ℕ, List, Option, Result};
ghost use Rattle.graph.specs.declared.fault.Reason.{Reason as Why};
ghost use Rattle.graph.specs.Graphs.{Graph};
ghost use Rattle.graph.specs.Entries.{Entry};
ghost use Rattle.graph.specs.Opening.{content_refusal};
ghost use Rattle.tables.specs.Rows.{Held};
ghost use Rattle.tables.specs.Staging.{Grows, Passed};
ghost use Rattle.tables.specs.Borrowed.{held};

use super::lists::Lists;
use graph::fault::Reason;

// A record of one of the lists, which is checked behind those before it.
pub trait Row: Copy {
    // The owner that is written in it.
    ghost writes: { Self → Option ℕ };

    // What it says, over the byte run.
    ghost content: { List ℕ → Self → Result Entry Why };

    // The graph up to these records of the list.
    ghost stage: { Held → List Self → Graph };

    // Why it is refused behind `before`, the records before it in its list, which pass.
    fn refusal(&self, lists: Lists, before: &[Self]) -> Option<Reason>
        ensures { (first : ℕ) → Passed writes (content (held lists.entry).bytes) (stage (held lists.entry)) first before.now → result ≡ content_refusal (stage (held lists.entry) before.now) (writes self.now) (content (held lists.entry).bytes self.now) };

    ghost grows: { (h : Held) → Grows writes (content h.bytes) (stage h) };
}
