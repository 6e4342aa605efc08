//! A word that is said over streams, and its answer printed as it comes.
ghost use Rattle.std.specs.Prelude.{◌≡◌, ◌≢◌, ◌≤◌, ◌⊎◌, ◌++◌, ℕ, List, [], None, false, true, IfOk, OnErr, OnOk};
ghost use Rattle.std.specs.Io.KnownBytes.{Appends};
ghost use Rattle.fax_command.specs.Streams.{failed_after_write, greatest_count};
ghost use Rattle.fax_say.specs.Hearings.{HasPrinted, HasPrintedAll, HearsMore, over};
ghost use Rattle.fax_say.specs.Sayings.{ended, waits_after};

use crate::ending::Ending;
use crate::hearing::Hearing;
use crate::last::Last;
use crate::saying::Saying;
use fax_command::{ReadFault, Sink, Source, WriteFault, write_text};

/// The most octets of an answer that are read at once.
const ROOM: usize = 4_096;

/// Says a word to a server, and prints its answer as it comes: up to its last line, or, where more is waited for after it (`stop`,
/// `events`), all that comes until the server closes the stream.
pub fn say<I: Source, S: Sink, O: Sink>(
    source: &mut I,
    server: &mut S,
    output: &mut O,
    saying: &Saying,
) -> Ending
    // The word is said, once.
    ensures said { result ≢ Ending.Unsaid
        → Appends (S.contents server.old) (S.contents server.new) (ended saying.now) }
    ensures handed_on { result ≢ Ending.Unsaid → S.held_back server.new ≡ false }

    // What is printed is its answer.
    ensures answered { (last : Last) → result ≡ Ending.Answered last
        → HasPrinted (waits_after saying.now) last (I.remaining source.old)
        (I.remaining source.new) (O.contents output.old) (O.contents output.new) }
    ensures unanswered { result ≡ Ending.Unanswered → HasPrintedAll (I.remaining source.old)
        (I.remaining source.new) (O.contents output.old) (O.contents output.new) }

    // Each failure is that of a stream.
    ensures unsaid { result ≡ Ending.Unsaid → S.failed server.new ≡ true }
    ensures unread { result ≡ Ending.Unread
        → (I.failed source.new ≡ true) ⊎ (greatest_count ≤ I.reads source.new) }
    ensures unprinted { result ≡ Ending.Unprinted → O.failed output.new ≡ true }
{
    match send(server, saying) {
        Ok(()) => hear(source, output, saying.stays()),
        Err(WriteFault) => Ending::Unsaid,
    }
}

/// Writes the line of a word, and hands it on.
fn send<S: Sink>(server: &mut S, saying: &Saying) -> Result<(), WriteFault>
    ensures said { OnOk result (Appends (S.contents server.old)
        (S.contents server.new) (ended saying.now)) }
    ensures handed_on { OnOk result (S.held_back server.new ≡ false) }
    ensures failed { S.failed server.new ≡ failed_after_write (S.failed server.old) result }
{
    server.write_all(saying.as_bytes())?;
    write_text(server, b"\n")
}

/// Prints an answer as it comes.
fn hear<I: Source, O: Sink>(source: &mut I, output: &mut O, stays: bool) -> Ending
    ensures answered { (last : Last)
        → result ≡ Ending.Answered last → HasPrinted stays last (I.remaining source.old)
        (I.remaining source.new) (O.contents output.old) (O.contents output.new) }
    ensures unanswered { result ≡ Ending.Unanswered → HasPrintedAll (I.remaining source.old)
        (I.remaining source.new) (O.contents output.old) (O.contents output.new) }
    ensures said { result ≢ Ending.Unsaid }
    ensures unread { result ≡ Ending.Unread
        → (I.failed source.new ≡ true) ⊎ (greatest_count ≤ I.reads source.new) }
    ensures unprinted { result ≡ Ending.Unprinted → O.failed output.new ≡ true }
{
    let mut room = [0; ROOM];
    let mut hearing = Hearing::new(stays);
    for _ in 0..u64::MAX {
        match source.read(&mut room) {
            Ok(0) => return hearing.ending(),
            Ok(count) => match print(output, &mut hearing, &room[..count]) {
                Ok(None) => {}
                Ok(Some(last)) => return Ending::Answered(last),
                Err(WriteFault) => return Ending::Unprinted,
            },
            Err(ReadFault::Interrupted) => {}
            Err(ReadFault::Failed) => return Ending::Unread,
        }
    }
    Ending::Unread
}

/// Prints what belongs to an answer of the octets that came, and gives what its last line said, once nothing more is waited for.
fn print<O: Sink>(
    output: &mut O,
    hearing: &mut Hearing,
    octets: &[u8],
) -> Result<Option<Last>, WriteFault>
    ensures heard { OnOk result ((front dropped : List ℕ) × (octets.now ≡ front ++ dropped)
        × Appends (O.contents output.old) (O.contents output.new) front
        × HearsMore front hearing.old hearing.new
        × (over hearing.new.stays hearing.new.last ≡ None → dropped ≡ [])) }
    ensures over { IfOk result (λ last. last ≡ over hearing.new.stays hearing.new.last) }
    ensures stays { hearing.new.stays ≡ hearing.old.stays }
    ensures failed { OnErr result (O.failed output.new ≡ true) }
{
    let front = hearing.take(octets);
    write_text(output, front)?;
    Ok(hearing.over())
}
