//! Why octets are no packet that can be read.
ghost use Rattle.std.specs.Prelude.{◌≡◌};

use fax_bits::NoMemory;
use std::alloc::{AllocError, AllocFailed};
use thiserror::Error;

/// Why octets are no packet that can be read (this project's profile). They are looked for in this
/// order; octets that run out after the first one are found where they run out.
#[derive(Clone, Copy, PartialEq, Eq, Debug, Error)]
pub enum IfpFault {
    /// The octets end before the packet does.
    #[error("the packet is cut short")]
    Short,
    /// The packet is marked as one of a later version.
    #[error("an extension")]
    Extension,
    /// The type of the data is above 8.
    #[error("no type of data")]
    BadValue,
    /// The count of fields is above 127, or a length word is all ones.
    #[error("a count out of range")]
    BadCount,
    /// A packet of more than 8 fields, and memory was wanted and refused.
    #[error("out of memory")]
    NoMemory,
}

impl IfpFault {
    ghost use Rattle.fax_ifp.specs.FaultNumbers.{ifp_fault_number};

    /// The fault's number, from 1 to 5.
    pub fn number(self) -> u8
        ensures { result ≡ ifp_fault_number self }
    {
        match self {
            IfpFault::Short => 1,
            IfpFault::Extension => 2,
            IfpFault::BadValue => 3,
            IfpFault::BadCount => 4,
            IfpFault::NoMemory => 5,
        }
    }
}

impl From<NoMemory> for IfpFault {
    ghost use Rattle.std.specs.Prelude.{◌≡◌};
    ghost use Rattle.fax_ifp.specs.declared.fault.IfpFault.TheVariants as ifp_faults;

    ghost from_gives = { λ _ e. e ≡ ifp_faults.NoMemory };

    fn from(_: NoMemory) -> Self {
        IfpFault::NoMemory
    }
}

impl From<AllocError> for IfpFault {
    ghost use Rattle.std.specs.Prelude.{◌≡◌};
    ghost use Rattle.fax_ifp.specs.declared.fault.IfpFault.TheVariants as ifp_faults;

    ghost from_gives = { λ _ e. e ≡ ifp_faults.NoMemory };

    fn from(_: AllocError) -> Self {
        IfpFault::NoMemory
    }
}

impl<T: Drop> From<AllocFailed<T>> for IfpFault {
    ghost use Rattle.std.specs.Prelude.{◌≡◌};
    ghost use Rattle.fax_ifp.specs.declared.fault.IfpFault.TheVariants as ifp_faults;

    ghost from_gives = { λ _ e. e ≡ ifp_faults.NoMemory };

    fn from(_: AllocFailed<T>) -> Self {
        IfpFault::NoMemory
    }
}
