//! Why a ring is refused, and why a call is not placed.
ghost use Rattle.std.specs.Prelude.{◌≡◌};

use fax_bits::NoMemory;
use thiserror::Error;

/// Why a ring is refused (this project's profile). Where several causes hold, the first of these is told.
#[derive(Clone, Copy, PartialEq, Eq, Debug, Error)]
pub enum RingFault {
    /// A call is on.
    #[error("a call is on")]
    Busy,
    /// The number 4,294,967,295 was given, after which there is none.
    #[error("no number is left")]
    NoNumber,
    #[error("out of memory")]
    NoMemory,
}

impl RingFault {
    ghost use Rattle.fax_gateway.specs.FaultNumbers.{ring_fault_number};

    /// The fault's number, from 1 to 3.
    pub fn number(self) -> u8
        ensures { result ≡ ring_fault_number self }
    {
        match self {
            RingFault::Busy => 1,
            RingFault::NoNumber => 2,
            RingFault::NoMemory => 3,
        }
    }
}

/// Why the call of a job is not placed (this project's profile). Where both causes hold, the first is told.
#[derive(Clone, Copy, PartialEq, Eq, Debug, Error)]
pub enum PlaceFault {
    /// No call is asked for.
    #[error("no call is asked for")]
    NotAsked,
    #[error("out of memory")]
    NoMemory,
}

impl From<NoMemory> for PlaceFault {
    ghost use Rattle.std.specs.Prelude.{◌≡◌};
    ghost use Rattle.fax_gateway.specs.declared.fault.PlaceFault.TheVariants as place_faults;

    ghost from_gives = { λ _ e. e ≡ place_faults.NoMemory };

    fn from(_: NoMemory) -> Self {
        PlaceFault::NoMemory
    }
}

impl From<NoMemory> for RingFault {
    ghost use Rattle.std.specs.Prelude.{◌≡◌};
    ghost use Rattle.fax_gateway.specs.declared.fault.RingFault.TheVariants as ring_faults;

    ghost from_gives = { λ _ e. e ≡ ring_faults.NoMemory };

    fn from(_: NoMemory) -> Self {
        RingFault::NoMemory
    }
}
