//! Why a terminal goes no further.
use crate::store::StoreFault;
use fax_bits::NoMemory;
use thiserror::Error;

/// Why a terminal goes no further in a call.
#[derive(Clone, Copy, PartialEq, Eq, Debug, Error)]
pub enum TerminalFault {
    #[error("no memory")]
    NoMemory,
    /// There is no time any more.
    #[error("no clock")]
    Clock,
    /// A page that was to be confirmed was not kept.
    #[error("a page was not kept")]
    Storing,
}

impl From<NoMemory> for TerminalFault {
    ghost use Rattle.std.specs.Prelude.{◌≡◌};
    ghost use Rattle.fax_terminal.specs.declared.fault.TerminalFault.TheVariants as faults;

    ghost from_gives = { λ _ fault. fault ≡ faults.NoMemory };

    fn from(_: NoMemory) -> Self {
        TerminalFault::NoMemory
    }
}

impl From<StoreFault> for TerminalFault {
    ghost use Rattle.std.specs.Prelude.{◌≡◌};
    ghost use Rattle.fax_terminal.specs.declared.fault.TerminalFault.TheVariants as faults;

    ghost from_gives = { λ _ fault. fault ≡ faults.Storing };

    fn from(_: StoreFault) -> Self {
        TerminalFault::Storing
    }
}
