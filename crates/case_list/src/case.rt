ghost use Rattle.std.specs.Prelude.{◌≡◌, ◌<◌, length, IfOk, IfNone};
ghost use Rattle.std.specs.List.{position_or_len};
ghost use Rattle.case_list.specs.Replaying.{is_equals, subject_of, expected_of};
ghost use Rattle.case_list.specs.Answers.{answer_text};

use crate::answer::Answer;
use crate::subject::Subject;
use anyhow::Context;
use std::alloc::Global;

// A line of a list, `SUBJECT = EXPECTED`.
#[derive(Clone, Copy)]
pub(crate) struct Case<'a> {
    subject: &'a str,
    expected: &'a str,
}

impl<'a> Case<'a> {
    pub(crate) fn parse(line: &'a str) -> anyhow::Result<Case<'a>>
        ensures divided { IfOk result (λ _. position_or_len is_equals line.now < length line.now) }
        ensures subject { IfOk result (λ case. case.subject.now ≡ subject_of line.now) }
        ensures expected { IfOk result (λ case. case.expected.now ≡ expected_of line.now) }
    {
        let (subject, expected) = line.split_once('=').context("no `=`")?;
        let expected = expected.trim();
        Ok(Case { subject, expected })
    }

    // What opening the subject gives, if that is not what the line expects.
    pub(crate) fn mismatch<S: Subject>(self, heap: Global) -> anyhow::Result<Option<Answer>>
        ensures { IfOk result (λ came. IfNone came ((answer : _) × S.gives self.entry.subject.now answer × (answer_text answer ≡ self.entry.expected.now))) }
    {
        let answer = Answer(S::open(heap, self.subject)?);
        let text = answer.to_string(heap)?;
        Ok((text.as_str() != self.expected).then_some(answer))
    }
}
