//! A run of `faxgate loop`, over any streams.
ghost use Rattle.std.specs.Prelude.{ℕ, List, ◌≡◌, ◌≢◌, ◌<◌, ◌⊎◌, true, IfSome};
ghost use Rattle.std.specs.Io.KnownBytes.{Appends};
ghost use Rattle.fax_command.specs.Runs.{RunsOver};
ghost use Rattle.fax_gateway.specs.Setups.{AreAllowed};
ghost use Rattle.fax_loop.specs.Answers.{Answers, EndsSo, ending_status};
ghost use Rattle.fax_loop.specs.Opened.{IsSent, told_lines};

use crate::answer::{Answer, answer_to};
use crate::ending::Ending;
use crate::opens_lines::OpensLines;
use fax_command::{InputError, MOST_OCTETS, MOST_READS, Sink, Source, WriteFault, read_input};
use fax_gateway::Settings;
use std::alloc::Global;

/// Reads a page as hex text, sends it from one machine over a gateway to another, over lines that are opened so, writes the
/// line of the job and the rows that the called machine confirmed, and says with which exit status the process ends. The
/// gateway and both machines have these settings, within their limits.
pub fn run_loop<L: OpensLines, I: Source, O: Sink>(
    opener: &L,
    alloc: Global,
    source: &mut I,
    sink: &mut O,
    settings: Settings,
) -> u8
    requires { AreAllowed settings }

    // Where the input is known, what is written is an answer to it, of lines that were opened so, unless a read or a write failed,
    // the input went past its bound, or no lines could be opened.
    ensures answers { result ≢ 4 → IfSome (I.remaining source.old) (λ input. (text : List ℕ)
        × Answers (IsSent (told_lines L.End.told L.Wire.known) (L.opened opener.now) settings)
        input result text × Appends (O.contents sink.old) (O.contents sink.new) text) }
    ensures run { RunsOver record {
      remaining = I.remaining;
      reads = I.reads;
      given = I.given;
      failed = I.failed;
    } record {
      contents = O.contents;
      failed = O.failed;
      held_back = O.held_back;
    } source.old source.new sink.old sink.new result }
{
    play_loop(opener, alloc, source, sink, settings)
        .status()
        .code()
}

/// What [`run_loop`] does, which says how it ended in place of the exit status.
pub fn play_loop<L: OpensLines, I: Source, O: Sink>(
    opener: &L,
    alloc: Global,
    source: &mut I,
    sink: &mut O,
    settings: Settings,
) -> Ending
    requires { AreAllowed settings }

    // Where the input is known, what is written is an answer to it, of lines that were opened so, unless a read or a write failed,
    // the input went past its bound, or no lines could be opened.
    ensures answers { ending_status result ≢ 4
        → IfSome (I.remaining source.old) (λ input. (text : List ℕ)
        × EndsSo (IsSent (told_lines L.End.told L.Wire.known) (L.opened opener.now) settings)
        input result text × Appends (O.contents sink.old) (O.contents sink.new) text) }
    ensures run { RunsOver record {
      remaining = I.remaining;
      reads = I.reads;
      given = I.given;
      failed = I.failed;
    } record {
      contents = O.contents;
      failed = O.failed;
      held_back = O.held_back;
    } source.old source.new sink.old sink.new (ending_status result) }

    // A source that was not read is fresh: its counts are 0, and it has not failed.
    ensures stream { I.reads source.old ≡ 0 → I.given source.old ≡ 0
        → result ≡ Ending.Stream → (I.failed source.new ≡ true) ⊎ (O.failed sink.new ≡ true)
        ⊎ (MOST_OCTETS < I.given source.new) ⊎ (I.reads source.new ≡ MOST_READS) }
{
    let answer = match read_input(alloc, source) {
        Ok(input) => match answer_to(opener, alloc, input, settings) {
            Ok(answer) => answer,
            Err(error) => return Ending::Socket(error),
        },
        Err(InputError::NoMemory) => Answer::NoMemory,
        Err(InputError::Failed | InputError::TooLong) => return Ending::Stream,
    };
    match answer.write(alloc, sink) {
        Ok(()) => answer.ending(),
        Err(WriteFault) => Ending::Stream,
    }
}
