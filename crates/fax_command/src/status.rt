//! Exit statuses.
ghost use Rattle.std.specs.Prelude.{◌≡◌};

/// How a run ended.
#[derive(Clone, Copy, PartialEq, Eq)]
pub enum Status {
    Done,
    /// The input has a fault, and its line was written.
    Fault,
    /// The command line was refused.
    Usage,
    /// Memory was wanted and refused, and its line was written.
    NoMemory,
    /// A read or a write failed, the input went past its bound, or a socket could not be made.
    Stream,
    /// A job was not delivered.
    Undelivered,
}

impl Status {
    ghost use Rattle.fax_command.specs.Statuses.{status_code};

    /// The exit status, from 0 to 5.
    pub fn code(self) -> u8
        ensures { result ≡ status_code self }
    {
        match self {
            Status::Done => 0,
            Status::Fault => 1,
            Status::Usage => 2,
            Status::NoMemory => 3,
            Status::Stream => 4,
            Status::Undelivered => 5,
        }
    }
}
