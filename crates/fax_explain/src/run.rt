//! A run of `faxgate explain`, over any streams.
ghost use Rattle.std.specs.Prelude.{ℕ, List, ◌≡◌, ◌≢◌, ◌<◌, ◌⊎◌, true, false, IfSome};
ghost use Rattle.std.specs.Io.KnownBytes.{Appends};
ghost use Rattle.fax_gateway.specs.Setups.{AreAllowed};
ghost use Rattle.fax_command.specs.Runs.{RunsOver};
ghost use Rattle.fax_command.specs.Streams.{failed_after_write};
ghost use Rattle.fax_trace.specs.Rep.{status_of_answer, text_of_answer};
ghost use Rattle.fax_explain.specs.Explained.{Explains};

use crate::answer::explain;
use crate::stage::FoundPage;
use crate::store::{PageStore, StoreFault};
use fax_command::{
    InputError, MOST_OCTETS, MOST_READS, Sink, Source, Status, WriteFault, read_input,
};
use fax_gateway::Settings;
use fax_trace::Answer;
use std::alloc::Global;

/// Reads a script whole, plays it on a new gateway with these settings, of which the redundancy is at most 8, hands the pages
/// that were confirmed or sent to a store, writes what happened and nothing else, and says with which exit status the process
/// ends. Nothing is written where a page is not stored.
pub fn run_explain<I: Source, O: Sink, K: PageStore>(
    alloc: Global,
    source: &mut I,
    sink: &mut O,
    store: &mut K,
    settings: Settings,
) -> u8
    requires { AreAllowed settings }

    // Where the input is known, what is written explains it, unless a read, a write or a page failed or the input went past
    // its bound.
    ensures answers { result ≢ 4 → IfSome (I.remaining source.old)
        (λ input. (text : List ℕ) × Explains settings input result text
        × Appends (O.contents sink.old) (O.contents sink.new) text) }
    ensures run { RunsOver record {
      remaining = I.remaining;
      reads = I.reads;
      given = I.given;
      failed = I.failed;
    } record {
      contents = O.contents;
      failed = O.failed;
      held_back = O.held_back;
    } source.old source.new sink.old sink.new result }

    // Nothing but a stream or a page that is not stored gives status 4. A source that was not read is fresh: its counts are 0, and
    // it has not failed.
    ensures stream { I.reads source.old ≡ 0 → I.given source.old ≡ 0 → result ≡ 4
        → (I.failed source.new ≡ true) ⊎ (O.failed sink.new ≡ true) ⊎ (K.failed store.new ≡ true)
        ⊎ (MOST_OCTETS < I.given source.new) ⊎ (I.reads source.new ≡ MOST_READS) }
    ensures failed_page { K.failed store.old ≡ false → K.failed store.new ≡ true → result ≡ 4 }
{
    let script = match read_input(alloc, source) {
        Ok(script) => script,
        Err(InputError::NoMemory) => return written(&Answer::NoMemory(Vec::new(alloc)), sink),
        Err(InputError::Failed | InputError::TooLong) => return Status::Stream.code(),
    };
    let explanation = explain(alloc, script.as_slice(), settings);
    if hand_out(store, explanation.pages.as_slice()).is_err() {
        return Status::Stream.code();
    }
    written(&explanation.answer, sink)
}

/// Hands pages to a store, up to the first that is not kept.
fn hand_out<K: PageStore>(store: &mut K, pages: &[FoundPage]) -> Result<(), StoreFault>
    ensures { K.failed store.new ≡ failed_after_write (K.failed store.old) result }
{
    for found in pages {
        store.keep(found.place, &found.page)?;
    }
    Ok(())
}

/// Writes an answer, and says the exit status.
fn written<O: Sink>(answer: &Answer, sink: &mut O) -> u8
    ensures text { result ≢ 4
        → Appends (O.contents sink.old) (O.contents sink.new) (text_of_answer answer.now) }
    ensures status { result ≢ 4 → result ≡ status_of_answer answer.now }
    ensures handed_on { result ≢ 4 → O.held_back sink.new ≡ false }
    ensures failed { result ≡ 4 → O.failed sink.new ≡ true }
    ensures unfailed { result ≢ 4 → O.failed sink.new ≡ O.failed sink.old }
{
    match answer.write(sink) {
        Ok(()) => answer.status().code(),
        Err(WriteFault) => Status::Stream.code(),
    }
}
