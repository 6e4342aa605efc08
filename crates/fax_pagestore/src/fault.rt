//! Why no page could be read.
ghost use Rattle.std.specs.Prelude.{◌≡◌};

use fax_bits::NoMemory;
use thiserror::Error;

/// Why no page could be read (this project's profile). Where two faults are met at one place, `NoRtc`
/// goes first.
#[derive(Clone, Copy, PartialEq, Eq, Debug, Error)]
pub enum PageFault {
    /// There is no EOL.
    #[error("no EOL")]
    NoEol,
    /// The line after so many rows cannot be read, or a 1 comes after it before 11 zeros.
    #[error("line {0} cannot be read")]
    BadLine(u32),
    /// The text ends before six EOLs in a row, or a line begins after two to five in a row.
    #[error("no return to control")]
    NoRtc,
    /// Six EOLs in a row and no line before them.
    #[error("no line")]
    Empty,
    /// A line begins after 65,535 rows.
    #[error("more than 65,535 rows")]
    TooManyRows,
    #[error("out of memory")]
    NoMemory,
}

impl PageFault {
    ghost use Rattle.fax_pagestore.specs.FaultNumbers.{page_fault_number};

    /// The fault's number, from 1 to 6.
    pub fn number(self) -> u8
        ensures { result ≡ page_fault_number self }
    {
        match self {
            PageFault::NoEol => 1,
            PageFault::BadLine(_) => 2,
            PageFault::NoRtc => 3,
            PageFault::Empty => 4,
            PageFault::TooManyRows => 5,
            PageFault::NoMemory => 6,
        }
    }
}

impl From<NoMemory> for PageFault {
    ghost use Rattle.std.specs.Prelude.{◌≡◌};
    ghost use Rattle.fax_pagestore.specs.declared.fault.PageFault.TheVariants as page_faults;

    ghost from_gives = { λ _ e. e ≡ page_faults.NoMemory };

    fn from(_: NoMemory) -> Self {
        PageFault::NoMemory
    }
}
