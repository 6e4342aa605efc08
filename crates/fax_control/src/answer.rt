//! The line that answers a control word.
use crate::refusal::Refusal;
use std::fmt;

/// The answer to a control word, told in one line.
#[derive(Clone, Copy, PartialEq, Eq)]
pub enum Answer<'a> {
    /// `ok`.
    Done,
    /// `ok CALL`: the number of the call that was rung.
    Rung(u32),
    /// `ok LINE CALL`: the line that was rung, where any was to be, and the number of its call.
    RungOn(&'a str, u32),
    /// `refused NUMBER NAME`.
    Refused(Refusal),
}

impl fmt::Display for Answer<'_> {
    ghost use Rattle.std.specs.Prelude.{Some};
    ghost use Rattle.fax_control.specs.Answers.{answer_text};

    ghost output = { λ answer. Some (answer_text answer) };

    fn fmt<W: fmt::Write>(&self, f: &mut fmt::Formatter<W>) -> fmt::Result {
        match self {
            Answer::Done => write!(f, "ok"),
            Answer::Rung(call) => write!(f, "ok {call}"),
            Answer::RungOn(line, call) => write!(f, "ok {line} {call}"),
            Answer::Refused(refusal) => write!(f, "refused {refusal}"),
        }
    }
}
