ghost use Rattle.std.specs.Prelude.{IfNone};
ghost use Rattle.case_list.specs.Replaying.{IsRight};

use crate::answer::Answer;
use crate::case::Case;
use crate::subject::Subject;
use std::alloc::Global;
use std::fmt;

// What is wrong with a line: another answer came, or it cannot be read.
#[derive(Drop)]
pub(crate) enum Complaint {
    Came(Answer),
    Unreadable(anyhow::Error),
}

impl fmt::Display for Complaint {
    fn fmt<W: fmt::Write>(&self, f: &mut fmt::Formatter<W>) -> fmt::Result {
        match self {
            Complaint::Came(answer) => write!(f, "came: {answer}"),
            Complaint::Unreadable(trouble) => write!(f, "cannot be read: {trouble}"),
        }
    }
}

// What is wrong with a line, if anything is.
pub(crate) fn check_line<S: Subject>(heap: Global, line: &str) -> Option<Complaint>
    ensures { IfNone result (IsRight S.gives line.now) }
{
    match Case::parse(line).and_then(|case| case.mismatch::<S>(heap)) {
        Ok(answer) => answer.map(Complaint::Came),
        Err(trouble) => Some(Complaint::Unreadable(trouble)),
    }
}
