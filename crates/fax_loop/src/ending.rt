//! How a run of a call through a gateway ended.
ghost use Rattle.std.specs.Prelude.{◌≡◌};

use fax_command::Status;
use fax_jobs::Outcome;
use std::io;

/// How a run of a call through a gateway ended.
#[derive(Clone, Copy)]
pub enum Ending {
    /// The gateway reported the job, with this outcome.
    Reported(Outcome),
    /// It reported none: the last round was played, or no more could be received.
    Unreported,
    /// Something is wrong with the input, and its line was written.
    Fault,
    /// Memory was wanted and refused, and its line was written.
    NoMemory,
    /// A read or a write failed, or the input went past its bound. The streams tell which.
    Stream,
    /// A socket could not be made.
    Socket(io::Error),
}

impl Ending {
    ghost use Rattle.fax_command.specs.Statuses.{status_code};
    ghost use Rattle.fax_loop.specs.Answers.{ending_status};

    /// The exit status.
    pub fn status(self) -> Status
        ensures { status_code result ≡ ending_status self }
    {
        match self {
            Ending::Reported(outcome) if outcome == Outcome::Delivered => Status::Done,
            Ending::Reported(_) | Ending::Unreported => Status::Undelivered,
            Ending::Fault => Status::Fault,
            Ending::NoMemory => Status::NoMemory,
            Ending::Stream | Ending::Socket(_) => Status::Stream,
        }
    }
}
