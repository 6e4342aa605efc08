//! A run of `faxgate trace`, over any streams.
ghost use Rattle.std.specs.Prelude.{ℕ, List, ◌≢◌, IfSome};
ghost use Rattle.std.specs.Io.KnownBytes.{Appends};
ghost use Rattle.fax_gateway.specs.Setups.{AreAllowed};
ghost use Rattle.fax_command.specs.Runs.{IsRun};
ghost use Rattle.fax_command.specs.Statuses.{status_code};
ghost use Rattle.fax_trace.specs.Answers.{Answers, AnswersAfter};

use crate::answer::{Answer, PlayedScript, play};
use crate::ending::Ending;
use fax_command::{InputError, Sink, Source, Status, WriteFault, read_input};
use fax_gateway::Settings;
use std::alloc::Global;

/// Reads a script whole, plays it on a new gateway with these settings, of which the redundancy is at most 8, writes what is
/// told of it and nothing else, and says with which exit status the process ends.
pub fn run_trace<I: Source, O: Sink>(
    alloc: Global,
    source: &mut I,
    sink: &mut O,
    settings: Settings,
) -> u8
    requires { AreAllowed settings }

    // Where the input is known, what is written is the answer to it, unless a read or a write failed or the input went past
    // its bound.
    ensures answers { result ≢ 4 → IfSome (I.remaining source.old)
        (λ input. (text : List ℕ) × Answers settings input result text
        × Appends (O.contents sink.old) (O.contents sink.new) text) }
    ensures run { IsRun record {
      remaining = I.remaining;
      reads = I.reads;
      given = I.given;
      failed = I.failed;
    } record {
      contents = O.contents;
      failed = O.failed;
      held_back = O.held_back;
    } source.old source.new sink.old sink.new result }
{
    play_script(alloc, source, sink, settings).status.code()
}

/// What [`run_trace`] does, which is the status of how it ended. It tells how many lines of the script were played besides.
pub fn play_script<I: Source, O: Sink>(
    alloc: Global,
    source: &mut I,
    sink: &mut O,
    settings: Settings,
) -> Ending
    requires { AreAllowed settings }

    // Where the input is known, what is written is the answer to it, unless a read or a write failed or the input went past
    // its bound.
    ensures answers { status_code result.status ≢ 4
        → IfSome (I.remaining source.old) (λ input. (text : List ℕ)
        × AnswersAfter settings input result.played (status_code result.status) text
        × Appends (O.contents sink.old) (O.contents sink.new) text) }
    ensures run { IsRun record {
      remaining = I.remaining;
      reads = I.reads;
      given = I.given;
      failed = I.failed;
    }
        record { contents = O.contents; failed = O.failed; held_back = O.held_back }
        source.old source.new sink.old sink.new (status_code result.status) }
{
    let played = match read_input(alloc, source) {
        Ok(script) => play(alloc, script.as_slice(), settings),
        Err(InputError::NoMemory) => PlayedScript {
            answer: Answer::NoMemory(Vec::new(alloc)),
            lines: 0,
        },
        Err(InputError::Failed | InputError::TooLong) => {
            return Ending {
                status: Status::Stream,
                played: 0,
            };
        }
    };
    match played.answer.write(sink) {
        Ok(()) => Ending {
            status: played.answer.status(),
            played: played.lines,
        },
        Err(WriteFault) => Ending {
            status: Status::Stream,
            played: played.lines,
        },
    }
}
