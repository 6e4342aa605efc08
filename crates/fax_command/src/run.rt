//! A run of `faxgate page`, over any streams.
ghost use Rattle.std.specs.Prelude.{ℕ, List, ◌≢◌, IfSome};
ghost use Rattle.std.specs.Io.KnownBytes.{Appends};
ghost use Rattle.fax_command.specs.Answers.{Answers};
ghost use Rattle.fax_command.specs.Runs.{IsRun};

use crate::answer::{Answer, answer_to, write_answer};
use crate::input::{InputError, read_input};
use crate::options::PageOptions;
use crate::status::Status;
use crate::stream::{Sink, Source, WriteFault};
use std::alloc::Global;

/// Reads the input whole, writes the answer to it and nothing else, and says with which exit status the
/// process ends.
pub fn run_page<I: Source, O: Sink>(
    alloc: Global,
    source: &mut I,
    sink: &mut O,
    options: PageOptions,
) -> u8
    // Where the input is known, what is written is the answer to it, unless a read or a write failed or
    // the input went past its bound.
    ensures answers { result ≢ 4 → IfSome (I.remaining source.old)
        (λ input. (text : List ℕ) × Answers options input result text
        × Appends (O.contents sink.old) (O.contents sink.new) text) }
    ensures run { IsRun record {
      remaining = I.remaining;
      reads = I.reads;
      given = I.given;
      failed = I.failed;
    } record {
      contents = O.contents;
      failed = O.failed;
      held_back = O.held_back;
    } source.old source.new sink.old sink.new result }
{
    let answer = match read_input(alloc, source) {
        Ok(input) => answer_to(alloc, input, options),
        Err(InputError::NoMemory) => Answer::NoMemory,
        Err(InputError::Failed | InputError::TooLong) => return Status::Stream.code(),
    };
    match write_answer(alloc, sink, &answer) {
        Ok(()) => answer.status().code(),
        Err(WriteFault) => Status::Stream.code(),
    }
}
