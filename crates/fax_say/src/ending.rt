//! How it ended that a word was said.
ghost use Rattle.std.specs.Prelude.{◌≡◌};
ghost use Rattle.fax_say.specs.Hearings.{status_of_ending};

use crate::last::Last;
use fax_command::Status;

/// How it ended that a word was said.
#[derive(Clone, Copy, PartialEq, Eq)]
pub enum Ending {
    /// It was answered.
    Answered(Last),
    /// The server closed its stream before the end of an answer.
    Unanswered,
    /// The word could not be written.
    Unsaid,
    /// The answer could not be read.
    Unread,
    /// The answer could not be printed.
    Unprinted,
}

impl Ending {
    /// The exit status: 0 where the word was done, 1 where it was refused, and 4 where there is no answer.
    pub fn status(self) -> Status
        ensures { result ≡ status_of_ending self }
    {
        match self {
            Ending::Answered(Last::Done) => Status::Done,
            Ending::Answered(Last::Refused) => Status::Fault,
            _ => Status::Stream,
        }
    }
}
