//! What is wrong with a picture.
use fax_bits::NoMemory;
use thiserror::Error;

/// Why octets are no picture of a page.
#[derive(Clone, Copy, PartialEq, Eq, Debug, Error)]
pub enum PbmFault {
    /// They do not begin as a P4 picture does: `P4`, the width and the height in decimal, and one white space.
    #[error("no P4 picture")]
    NoHead,
    /// Its rows have neither 1728 nor 2048 nor 2432 elements (ITU-T T.4, 2).
    #[error("a width that no page has")]
    BadWidth,
    /// It has no rows, or more than 65,535 (this project's profile).
    #[error("no rows, or too many")]
    BadHeight,
    /// It ends inside its rows.
    #[error("a picture that is cut")]
    Cut,
    /// There are octets after its rows, as of a second picture.
    #[error("more than one picture")]
    Longer,
    #[error("no memory")]
    NoMemory,
}

impl From<NoMemory> for PbmFault {
    ghost use Rattle.std.specs.Prelude.{◌≡◌};
    ghost use Rattle.fax_pbm.specs.declared.fault.PbmFault.TheVariants as faults;

    ghost from_gives = { λ _ e. e ≡ faults.NoMemory };

    fn from(_: NoMemory) -> Self {
        PbmFault::NoMemory
    }
}
