//! Why no try begins.
use fax_bits::NoMemory;
use thiserror::Error;

/// Why no try of a job begins (this project's profile). Where several causes hold, the first of these is told.
#[derive(Clone, Copy, PartialEq, Eq, Debug, Error)]
pub enum BeginFault {
    #[error("no such redial line")]
    NoLine,
    /// The redial line has a try.
    #[error("a try is on")]
    Busy,
    /// The job is tried already, on this redial line or another one.
    #[error("the job is tried already")]
    UnderWay,
    /// A page of the job waits on the queue of its own line, which will send it.
    #[error("its line owes the job")]
    Owed,
    /// No page waits on the line.
    #[error("no page waits")]
    NoPage,
    #[error("out of memory")]
    NoMemory,
}

impl From<NoMemory> for BeginFault {
    ghost use Rattle.std.specs.Prelude.{◌≡◌};
    ghost use Rattle.fax_redial.specs.declared.fault.BeginFault.TheVariants as faults;

    ghost from_gives = { λ _ e. e ≡ faults.NoMemory };

    fn from(_: NoMemory) -> Self {
        BeginFault::NoMemory
    }
}
