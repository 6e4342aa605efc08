//! Why no script was made of a source.
use crate::script_fault::ScriptFault;
use fax_bits::NoMemory;
use std::alloc::AllocError;

/// Why no script was made of a source.
#[derive(Clone, Copy, PartialEq, Eq)]
pub(crate) enum ReadingFault {
    /// A read failed.
    Stream,
    /// What was read has none.
    Script(ScriptFault),
}

impl From<ScriptFault> for ReadingFault {
    ghost use Rattle.std.specs.Prelude.{◌≡◌};
    ghost use Rattle.fax_capture.specs.declared.reading_fault.ReadingFault.TheVariants as reading_faults;

    ghost from_gives = { λ fault e. e ≡ reading_faults.Script fault };

    fn from(fault: ScriptFault) -> Self {
        ReadingFault::Script(fault)
    }
}

impl From<NoMemory> for ReadingFault {
    ghost use Rattle.std.specs.Prelude.{◌≡◌};
    ghost use Rattle.fax_capture.specs.Faults.{no_memory};
    ghost use Rattle.fax_capture.specs.declared.reading_fault.ReadingFault.TheVariants as reading_faults;

    ghost from_gives = { λ _ e. e ≡ reading_faults.Script no_memory };

    fn from(_: NoMemory) -> Self {
        ReadingFault::Script(NoMemory.into())
    }
}

impl From<AllocError> for ReadingFault {
    ghost use Rattle.std.specs.Prelude.{◌≡◌};
    ghost use Rattle.fax_capture.specs.Faults.{no_memory};
    ghost use Rattle.fax_capture.specs.declared.reading_fault.ReadingFault.TheVariants as reading_faults;

    ghost from_gives = { λ _ e. e ≡ reading_faults.Script no_memory };

    fn from(_: AllocError) -> Self {
        ReadingFault::Script(NoMemory.into())
    }
}
