//! Why no run could be read, and why no row could be made.
ghost use Rattle.std.specs.Prelude.{◌≡◌};

use fax_bits::NoMemory;
use std::alloc::{AllocError, AllocFailed};
use thiserror::Error;

/// Why no run could be read.
#[derive(Clone, Copy, PartialEq, Eq, Debug, Error)]
pub enum RunFault {
    /// No word of the colour begins the bits.
    #[error("no code word of the colour")]
    NoWord,
    /// The words so far add to more than 2432 elements.
    #[error("a run of more than 2432 elements")]
    TooLong,
    /// The bits end inside a word.
    #[error("the end inside a code word")]
    End,
}

impl RunFault {
    ghost use Rattle.fax_runcodes.specs.FaultNumbers.{run_fault_number};

    /// The fault's number: 1, 2 or 3.
    pub fn number(self) -> u8
        ensures { result ≡ run_fault_number self }
    {
        match self {
            RunFault::NoWord => 1,
            RunFault::TooLong => 2,
            RunFault::End => 3,
        }
    }
}

/// Why no row could be made of runs.
#[derive(Clone, Copy, PartialEq, Eq, Debug, Error)]
pub enum RowFault {
    /// They add to no width, or one after the first is 0.
    #[error("no run lengths of a row")]
    BadRuns,
    #[error("out of memory")]
    NoMemory,
}

impl RowFault {
    ghost use Rattle.fax_runcodes.specs.FaultNumbers.{row_fault_number};

    /// The fault's number: 1 or 2.
    pub fn number(self) -> u8
        ensures { result ≡ row_fault_number self }
    {
        match self {
            RowFault::BadRuns => 1,
            RowFault::NoMemory => 2,
        }
    }
}

impl From<NoMemory> for RowFault {
    ghost use Rattle.std.specs.Prelude.{◌≡◌};
    ghost use Rattle.fax_runcodes.specs.declared.fault.RowFault.TheVariants as row_faults;

    ghost from_gives = { λ _ e. e ≡ row_faults.NoMemory };

    fn from(_: NoMemory) -> Self {
        RowFault::NoMemory
    }
}

impl From<AllocError> for RowFault {
    ghost use Rattle.std.specs.Prelude.{◌≡◌};
    ghost use Rattle.fax_runcodes.specs.declared.fault.RowFault.TheVariants as row_faults;

    ghost from_gives = { λ _ e. e ≡ row_faults.NoMemory };

    fn from(_: AllocError) -> Self {
        RowFault::NoMemory
    }
}

impl<T: Drop> From<AllocFailed<T>> for RowFault {
    ghost use Rattle.std.specs.Prelude.{◌≡◌};
    ghost use Rattle.fax_runcodes.specs.declared.fault.RowFault.TheVariants as row_faults;

    ghost from_gives = { λ _ e. e ≡ row_faults.NoMemory };

    fn from(_: AllocFailed<T>) -> Self {
        RowFault::NoMemory
    }
}
