ghost use Rattle.std.specs.Prelude.{Some};
ghost use Rattle.case_list.specs.Answers.{answer_text};

use graph::fault::Fault;
use std::fmt;

// What opening gives, as a list writes it.
#[derive(Clone, Copy, PartialEq, Eq, Debug)]
pub(crate) struct Answer(pub(crate) Result<(), Fault>);

impl fmt::Display for Answer {
    ghost output = { λ a. Some (answer_text a.0) };

    fn fmt<W: fmt::Write>(&self, f: &mut fmt::Formatter<W>) -> fmt::Result {
        match self.0 {
            Ok(()) => write!(f, "opens"),
            Err(fault) => write!(f, "{fault}"),
        }
    }
}
