//! Why no line could be read.
ghost use Rattle.std.specs.Prelude.{◌≡◌};

use fax_bits::NoMemory;
use fax_runcodes::RunFault;
use thiserror::Error;

/// Why no line could be read.
#[derive(Clone, Copy, PartialEq, Eq, Debug, Error)]
pub enum LineFault {
    /// A run could not be read.
    #[error("{0}")]
    Run(RunFault),
    /// A run goes past the width.
    #[error("a run past the width")]
    PastWidth,
    /// No mode word begins the bits (two-dimensional lines only).
    #[error("no mode word")]
    NoMode,
    /// A mode leads to no place (two-dimensional lines only).
    #[error("a mode that leads to no place")]
    BadPlace,
    #[error("out of memory")]
    NoMemory,
}

impl LineFault {
    ghost use Rattle.fax_mhcode.specs.FaultNumbers.{line_fault_number};

    /// The fault's number, from 1 to 5. That of the run's fault is `RunFault::number`.
    pub fn number(self) -> u8
        ensures { result ≡ line_fault_number self }
    {
        match self {
            LineFault::Run(_) => 1,
            LineFault::PastWidth => 2,
            LineFault::NoMode => 3,
            LineFault::BadPlace => 4,
            LineFault::NoMemory => 5,
        }
    }
}

impl From<RunFault> for LineFault {
    ghost use Rattle.std.specs.Prelude.{◌≡◌};
    ghost use Rattle.fax_mhcode.specs.declared.fault.LineFault.TheVariants.{Run};

    ghost from_gives = { λ f e. e ≡ Run f };

    fn from(fault: RunFault) -> Self {
        LineFault::Run(fault)
    }
}

impl From<NoMemory> for LineFault {
    ghost use Rattle.std.specs.Prelude.{◌≡◌};
    ghost use Rattle.fax_mhcode.specs.declared.fault.LineFault.TheVariants as line_faults;

    ghost from_gives = { λ _ e. e ≡ line_faults.NoMemory };

    fn from(_: NoMemory) -> Self {
        LineFault::NoMemory
    }
}
