//! Why a call is not played to its end.
use fax_bits::NoMemory;
use std::io;

/// Why a call is not played to its end.
#[derive(Clone, Copy, Debug)]
pub(crate) enum LoopError {
    /// A socket could not be made.
    Socket(io::Error),
    NoMemory,
}

impl From<NoMemory> for LoopError {
    ghost use Rattle.std.specs.Prelude.{◌≡◌};
    ghost use Rattle.fax_loop.specs.declared.loop_error.LoopError.TheVariants as loop_errors;

    ghost from_gives = { λ _ e. e ≡ loop_errors.NoMemory };

    fn from(_: NoMemory) -> Self {
        LoopError::NoMemory
    }
}

impl From<io::Error> for LoopError {
    ghost use Rattle.std.specs.Prelude.{◌≡◌};
    ghost use Rattle.fax_loop.specs.declared.loop_error.LoopError.TheVariants as loop_errors;

    ghost from_gives = { λ error e. e ≡ loop_errors.Socket error };

    fn from(error: io::Error) -> Self {
        LoopError::Socket(error)
    }
}
