//! Why the playing of a script ends before its end.
use fax_bits::NoMemory;

/// Why the playing of a script ends before its end.
#[derive(Clone, Copy, PartialEq, Eq, Debug)]
pub enum ScriptFault {
    /// The line of this number, counted from 1, tells no event.
    Line(usize),
    /// Memory was wanted and refused.
    NoMemory,
}

impl From<NoMemory> for ScriptFault {
    ghost use Rattle.std.specs.Prelude.{◌≡◌};
    ghost use Rattle.fax_trace.specs.declared.script_fault.ScriptFault.TheVariants as script_faults;

    ghost from_gives = { λ _ e. e ≡ script_faults.NoMemory };

    fn from(_: NoMemory) -> Self {
        ScriptFault::NoMemory
    }
}
