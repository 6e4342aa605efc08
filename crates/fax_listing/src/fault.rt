//! Why a spool was not looked at to its end.
use crate::picture_files::FileFault;
use fax_bits::NoMemory;
use std::alloc::AllocError;

/// Why a spool was not looked at to its end.
#[derive(Clone, Copy, Debug)]
pub enum LookFault {
    NoMemory,
    /// A read failed, or a picture or a TIFF could not be written.
    Stream,
}

impl From<AllocError> for LookFault {
    ghost use Rattle.std.specs.Prelude.{◌≡◌};
    ghost use Rattle.fax_listing.specs.declared.fault.LookFault.TheVariants as faults;

    ghost from_gives = { λ _ fault. fault ≡ faults.NoMemory };

    fn from(_: AllocError) -> Self {
        LookFault::NoMemory
    }
}

impl From<FileFault> for LookFault {
    ghost use Rattle.std.specs.Prelude.{◌≡◌};
    ghost use Rattle.fax_listing.specs.declared.fault.LookFault.TheVariants as faults;

    ghost from_gives = { λ _ fault. fault ≡ faults.Stream };

    fn from(_: FileFault) -> Self {
        LookFault::Stream
    }
}

impl From<NoMemory> for LookFault {
    ghost use Rattle.std.specs.Prelude.{◌≡◌};
    ghost use Rattle.fax_listing.specs.declared.fault.LookFault.TheVariants as faults;

    ghost from_gives = { λ _ fault. fault ≡ faults.NoMemory };

    fn from(_: NoMemory) -> Self {
        LookFault::NoMemory
    }
}
