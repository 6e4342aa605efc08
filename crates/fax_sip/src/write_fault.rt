//! Why a message is not written.
use crate::name::Name;
use std::alloc::AllocError;

/// Why a request or an answer is not written.
#[derive(Clone, Copy, PartialEq, Eq, Debug)]
pub enum WriteFault {
    /// Memory was refused.
    NoMemory,
    /// The status is below 100, or above 699.
    BadStatus,
    /// The reason has a control character that is no tab.
    BadReason,
    /// The method is no token.
    BadMethod,
    /// An address is empty, or has an octet that may not stand in one.
    BadAddress,
    /// Who sends it is empty, or has an octet that may not stand in a host and a port.
    BadSender,
    /// The branch is no token, or does not begin with `z9hG4bK`.
    BadBranch,
    /// A tag is no token.
    BadTag,
    /// The name of the call is empty, or has an octet that may not stand in one.
    BadCallId,
    /// The number is not below 2^31.
    BadNumber,
    /// A header line of this name is not told: its value has a control character that is no tab, or it is a line that is written of itself.
    BadField(Name),
}

impl From<AllocError> for WriteFault {
    ghost use Rattle.std.specs.Prelude.{◌≡◌};
    ghost use Rattle.fax_sip.specs.declared.write_fault.WriteFault.TheVariants as faults;

    ghost from_gives = { λ _ e. e ≡ faults.NoMemory };

    fn from(_: AllocError) -> Self {
        WriteFault::NoMemory
    }
}
