//! What is answered to a capture.
ghost use Rattle.std.specs.Prelude.{◌≡◌, ◌≢◌, ◌⊎◌, true, false, IfSome, OnOk, None};
ghost use Rattle.std.specs.Io.KnownBytes.{Appends};
ghost use Rattle.fax_command.specs.Statuses.{status_code};
ghost use Rattle.fax_command.specs.Streams.{failed_after_write, greatest_count};
ghost use Rattle.fax_capture.specs.Answers.{Answers};
ghost use Rattle.fax_capture.specs.Rep.{counts_of_answer, status_of_answer, text_of_answer};

use crate::counts::Counts;
use crate::options::CaptureOptions;
use crate::reading::script_of;
use crate::reading_fault::ReadingFault;
use crate::script::Made;
use crate::script_fault::ScriptFault;
use fax_command::{Sink, Source, Status, WriteFault, write_text};
use std::alloc::Global;

/// A script, or what is wrong.
#[derive(Drop)]
pub(crate) enum Answer {
    Script(Made),
    Fault(ScriptFault),
}

impl Answer {
    /// Writes the text, and hands it on. It takes no memory.
    pub fn write<O: Sink>(&self, sink: &mut O) -> Result<(), WriteFault>
        ensures text { OnOk result (Appends (O.contents sink.old)
            (O.contents sink.new) (text_of_answer self.now)) }
        ensures failed { O.failed sink.new ≡ failed_after_write (O.failed sink.old) result }
        ensures handed_on { OnOk result (O.held_back sink.new ≡ false) }
    {
        match self {
            Answer::Script(made) => write_text(sink, made.text.as_slice()),
            Answer::Fault(fault) => write_text(sink, fault.line()),
        }
    }

    /// The exit status.
    pub fn status(&self) -> Status
        ensures { status_code result ≡ status_of_answer self.now }
    {
        match self {
            Answer::Script(_) => Status::Done,
            Answer::Fault(fault) => fault.status(),
        }
    }

    /// How many datagrams came from whom, where the capture was read to its end.
    pub fn counts(&self) -> Option<Counts>
        ensures { result ≡ counts_of_answer self.now }
    {
        match self {
            Answer::Script(made) => Some(made.counts),
            Answer::Fault(fault) => fault.counts(),
        }
    }
}

/// The answer to the capture that a source gives, for these options; None where a read
/// failed.
pub(crate) fn answer_to<I: Source>(
    alloc: Global,
    source: &mut I,
    options: &CaptureOptions,
) -> Option<Answer>
    ensures answers { IfSome result (λ answer. IfSome (I.remaining source.old)
        (λ input. Answers options.now input (status_of_answer answer)
        (counts_of_answer answer) (text_of_answer answer))) }
    ensures failed { result ≡ None → I.reads source.old ≡ 0
        → (I.failed source.new ≡ true) ⊎ (I.reads source.new ≡ greatest_count) }
    ensures unfailed { result ≢ None → I.failed source.new ≡ I.failed source.old }
{
    match script_of(alloc, source, options) {
        Ok(made) => Some(Answer::Script(made)),
        Err(ReadingFault::Script(fault)) => Some(Answer::Fault(fault)),
        Err(ReadingFault::Stream) => None,
    }
}
