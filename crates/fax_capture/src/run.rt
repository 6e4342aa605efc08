//! A run of `faxgate capture`, over any streams.
ghost use Rattle.std.specs.Prelude.{ℕ, List, ◌≡◌, ◌≢◌, IfSome, None};
ghost use Rattle.std.specs.Io.KnownBytes.{Appends};
ghost use Rattle.fax_capture.specs.Answers.{Answers};
ghost use Rattle.fax_capture.specs.Runs.{IsLongRun};

use crate::answer::answer_to;
use crate::counts::Counts;
use crate::options::CaptureOptions;
use fax_command::{Sink, Source, Status, WriteFault};
use std::alloc::Global;

/// What a run comes to.
#[derive(Clone, Copy, PartialEq, Eq)]
pub struct CaptureRun {
    /// The exit status.
    pub status: u8,
    /// How many datagrams came from whom, where the capture was read to its end and its answer was written.
    pub counts: Option<Counts>,
}

/// Reads a capture to its end, whatever its size, or up to a fault, writes the script of its datagrams and nothing else, or the
/// one line of what is wrong, and says with which exit status the process ends and how many datagrams came from whom. Of the
/// capture a record and a piece of 65,536 octets are kept at once.
pub fn run_capture<I: Source, O: Sink>(
    alloc: Global,
    source: &mut I,
    sink: &mut O,
    options: &CaptureOptions,
) -> CaptureRun
    // Where the input is known, what is written is the answer to it, unless a read or a write failed; in which pieces it came is
    // all one.
    ensures answers { result.status ≢ 4 → IfSome (I.remaining source.old)
        (λ input. (text : List ℕ) × Answers options.now input result.status result.counts text
        × Appends (O.contents sink.old) (O.contents sink.new) text) }
    ensures run { IsLongRun record {
      remaining = I.remaining;
      reads = I.reads;
      given = I.given;
      failed = I.failed;
    } record {
      contents = O.contents;
      failed = O.failed;
      held_back = O.held_back;
    } source.old source.new sink.old sink.new result.status }
{
    let Some(answer) = answer_to(alloc, source, options) else {
        return failed();
    };
    match answer.write(sink) {
        Ok(()) => CaptureRun {
            status: answer.status().code(),
            counts: answer.counts(),
        },
        Err(WriteFault) => failed(),
    }
}

/// A run that a stream failed.
fn failed() -> CaptureRun
    ensures status { result.status ≡ 4 }
    ensures counts { result.counts ≡ None }
{
    CaptureRun {
        status: Status::Stream.code(),
        counts: None,
    }
}
