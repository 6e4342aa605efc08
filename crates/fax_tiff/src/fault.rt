//! What is wrong with a TIFF, or keeps one from being written.
use fax_bits::NoMemory;
use fax_pagestore::PageFault;
use std::alloc::{AllocError, AllocFailed};
use thiserror::Error;

/// Why pages are not written as a TIFF.
#[derive(Clone, Copy, PartialEq, Eq, Debug, Error)]
pub enum TiffWriteFault {
    /// There is no page, and a TIFF has one at least (TIFF 6.0, section 2).
    #[error("no page")]
    NoPages,
    /// There are more than 65,535 pages, or 4,294,967,295 octets: their numbers would not fit.
    #[error("too long for a TIFF")]
    TooLong,
    #[error("no memory")]
    NoMemory,
}

impl From<AllocError> for TiffWriteFault {
    ghost use Rattle.std.specs.Prelude.{◌≡◌};
    ghost use Rattle.fax_tiff.specs.declared.fault.TiffWriteFault.TheVariants as faults;

    ghost from_gives = { λ _ fault. fault ≡ faults.NoMemory };

    fn from(_: AllocError) -> Self {
        TiffWriteFault::NoMemory
    }
}

impl From<NoMemory> for TiffWriteFault {
    ghost use Rattle.std.specs.Prelude.{◌≡◌};
    ghost use Rattle.fax_tiff.specs.declared.fault.TiffWriteFault.TheVariants as faults;

    ghost from_gives = { λ _ fault. fault ≡ faults.NoMemory };

    fn from(_: NoMemory) -> Self {
        TiffWriteFault::NoMemory
    }
}

/// Why octets are no TIFF of class F (RFC 2306).
#[derive(Clone, Copy, PartialEq, Eq, Debug, Error)]
pub enum TiffFault {
    /// They do not begin as a TIFF does: `II` or `MM`, and 42 in that order of octets (TIFF 6.0, section 2).
    #[error("no TIFF")]
    NoTiff,
    /// A directory, a value or a strip stands outside of them.
    #[error("a TIFF that is cut")]
    Cut,
    /// Directories and strips have more octets than there are: they overlap, or the chain of directories leads back.
    #[error("a TIFF whose parts overlap")]
    Overlap,
    /// A page lacks the field of this tag.
    #[error("a page without the field {0}")]
    Lacks(u16),
    /// The field of this tag has a value that no page of class F has, or none that is read.
    #[error("a page whose field {0} is not of class F")]
    BadField(u16),
    /// There is no directory (TIFF 6.0, section 2).
    #[error("a TIFF without a page")]
    NoPages,
    /// There are more than 65,535 pages.
    #[error("a TIFF of too many pages")]
    TooManyPages,
    /// The strips of a page mean none (ITU-T T.4).
    #[error("{0}")]
    BadPage(PageFault),
    /// A page has more rows than it is said to have, or fewer.
    #[error("a page of another height than it says")]
    BadHeight,
    #[error("no memory")]
    NoMemory,
}

impl From<AllocError> for TiffFault {
    ghost use Rattle.std.specs.Prelude.{◌≡◌};
    ghost use Rattle.fax_tiff.specs.declared.fault.TiffFault.TheVariants as faults;

    ghost from_gives = { λ _ fault. fault ≡ faults.NoMemory };

    fn from(_: AllocError) -> Self {
        TiffFault::NoMemory
    }
}

impl<T: Drop> From<AllocFailed<T>> for TiffFault {
    ghost use Rattle.std.specs.Prelude.{◌≡◌};
    ghost use Rattle.fax_tiff.specs.declared.fault.TiffFault.TheVariants as faults;

    ghost from_gives = { λ _ fault. fault ≡ faults.NoMemory };

    fn from(_: AllocFailed<T>) -> Self {
        TiffFault::NoMemory
    }
}

impl From<NoMemory> for TiffFault {
    ghost use Rattle.std.specs.Prelude.{◌≡◌};
    ghost use Rattle.fax_tiff.specs.declared.fault.TiffFault.TheVariants as faults;

    ghost from_gives = { λ _ fault. fault ≡ faults.NoMemory };

    fn from(_: NoMemory) -> Self {
        TiffFault::NoMemory
    }
}
