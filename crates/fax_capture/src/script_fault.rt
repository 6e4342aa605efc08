//! Why a capture gives no script, and the line that tells it.
ghost use Rattle.std.specs.Prelude.{◌≡◌};
ghost use Rattle.fax_command.specs.Statuses.{status_code};
ghost use Rattle.fax_capture.specs.Answers.{capture_fault_line, fault_counts, fault_line, fault_status};

use crate::counts::Counts;
use crate::pcap::CaptureFault;
use fax_bits::NoMemory;
use fax_command::{MEMORY_LINE, Status};

/// Why a capture gives no script.
#[derive(Clone, Copy, PartialEq, Eq)]
pub(crate) enum ScriptFault {
    /// What is wrong with the capture, or want of memory.
    Capture(CaptureFault),
    /// Of the datagrams, so many, none was sent by one of the two machines, or to one.
    NoAddress(Counts),
    /// Of the datagrams, so many, none is in the call that is asked for.
    NoCall(Counts),
    /// The script has more octets than are read of one.
    TooLong,
}

impl ScriptFault {
    /// The line that tells the fault, and its line feed.
    pub fn line(self) -> &'static [u8]
        ensures { result.now ≡ fault_line self }
    {
        match self {
            ScriptFault::Capture(fault) => line_of_capture_fault(fault),
            ScriptFault::NoAddress(_) => b"fault 4 NoAddress\n",
            ScriptFault::NoCall(_) => b"fault 6 NoCall\n",
            ScriptFault::TooLong => b"fault 5 TooLong\n",
        }
    }

    /// The exit status.
    pub fn status(self) -> Status
        ensures { status_code result ≡ fault_status self }
    {
        match self {
            ScriptFault::Capture(CaptureFault::NoMemory) => Status::NoMemory,
            _ => Status::Fault,
        }
    }

    /// How many datagrams came from whom, where the capture was read to its end.
    pub fn counts(self) -> Option<Counts>
        ensures { result ≡ fault_counts self }
    {
        match self {
            ScriptFault::NoAddress(counts) | ScriptFault::NoCall(counts) => Some(counts),
            ScriptFault::Capture(_) | ScriptFault::TooLong => None,
        }
    }
}

/// The line that tells what is wrong with a capture.
fn line_of_capture_fault(fault: CaptureFault) -> &'static [u8]
    ensures { result.now ≡ capture_fault_line fault }
{
    match fault {
        CaptureFault::NoCapture => b"fault 1 NoCapture\n",
        CaptureFault::Cut | CaptureFault::Snapped => b"fault 2 Cut\n",
        CaptureFault::Damaged => b"fault 3 Damaged\n",
        CaptureFault::NoMemory => MEMORY_LINE,
    }
}

impl From<NoMemory> for ScriptFault {
    ghost use Rattle.std.specs.Prelude.{◌≡◌};
    ghost use Rattle.fax_capture.specs.Faults.{no_memory};

    ghost from_gives = { λ _ e. e ≡ no_memory };

    fn from(_: NoMemory) -> Self {
        ScriptFault::Capture(CaptureFault::NoMemory)
    }
}

impl From<CaptureFault> for ScriptFault {
    ghost use Rattle.std.specs.Prelude.{◌≡◌};
    ghost use Rattle.fax_capture.specs.declared.script_fault.ScriptFault.TheVariants as script_faults;

    ghost from_gives = { λ fault e. e ≡ script_faults.Capture fault };

    fn from(fault: CaptureFault) -> Self {
        ScriptFault::Capture(fault)
    }
}
