//! A run of `faxgate spool`, over any streams and files.
ghost use Rattle.std.specs.Prelude.{◌≡◌, ◌≢◌, ◌≤◌, ◌⊎◌, true, false, codes, string_bytes, IfOk, Err};
ghost use Rattle.std.specs.Io.KnownBytes.{Appends};
ghost use Rattle.fax_command.specs.Streams.{greatest_count};
ghost use Rattle.fax_listing.specs.Looks.{AreKnown, Looks};
ghost use Rattle.fax_listing.specs.Pictures.{failed_after_look};

use crate::fault::LookFault;
use crate::looking::{Seen, SpoolOptions, look};
use crate::picture_files::PictureFiles;
use crate::reading::read_whole;
use fax_command::{MEMORY_LINE, Sink, Source, Status, WriteFault, write_text};
use std::alloc::Global;

/// How a run ended.
#[derive(Drop)]
pub struct Looked {
    pub status: Status,
    /// Lines for the standard error.
    pub told: String,
}

/// Reads the files `pages` and `pages-wal` of a spool whole, and `undelivered` and `undelivered-wal`, one after the other, makes pictures of
/// the pages that are chosen, or one TIFF, where they are wanted, and writes the lines of their jobs and nothing else; where a file cannot
/// be made, nothing is written.
pub fn run_spool<I: Source, O: Sink, F: PictureFiles>(
    alloc: Global,
    one: &mut I,
    other: &mut I,
    kept_one: &mut I,
    kept_other: &mut I,
    sink: &mut O,
    files: &mut F,
    options: SpoolOptions<'_>,
) -> Looked
    // Where the files are known, what is written, made and told is what they tell.
    ensures answers { result.status ≢ Status.Stream
        → result.status ≢ Status.NoMemory → AreKnown (I.remaining one.old) (I.remaining other.old)
        (I.remaining kept_one.old) (I.remaining kept_other.old) (λ a b c d. (seen : Seen)
        × Looks options.entry a b c d (F.made files.old) (F.made files.new) seen
        × (result.status ≡ seen.status) × (string_bytes result.told ≡ string_bytes seen.told)
        × Appends (O.contents sink.old) (O.contents sink.new) seen.text.items) }
    ensures memory { result.status ≡ Status.NoMemory
        → Appends (O.contents sink.old) (O.contents sink.new) (codes "fault memory\n") }
    ensures handed_on { result.status ≢ Status.Stream → O.held_back sink.new ≡ false }

    // Nothing but a stream or a file that cannot be made gives status 4, and each of them does.
    ensures stream { result.status ≡ Status.Stream
        → (I.failed one.new ≡ true) ⊎ (greatest_count ≤ I.reads one.new)
        ⊎ (I.failed other.new ≡ true) ⊎ (greatest_count ≤ I.reads other.new)
        ⊎ (I.failed kept_one.new ≡ true) ⊎ (greatest_count ≤ I.reads kept_one.new)
        ⊎ (I.failed kept_other.new ≡ true) ⊎ (greatest_count ≤ I.reads kept_other.new)
        ⊎ (F.failed files.new ≡ true) ⊎ (O.failed sink.new ≡ true) }
    ensures unfailed { result.status ≢ Status.Stream
        → (I.failed one.new ≡ I.failed one.old) × (I.failed other.new ≡ I.failed other.old)
        × (I.failed kept_one.new ≡ I.failed kept_one.old)
        × (I.failed kept_other.new ≡ I.failed kept_other.old)
        × (F.failed files.new ≡ F.failed files.old) × (O.failed sink.new ≡ O.failed sink.old) }
{
    match look_into(alloc, one, other, kept_one, kept_other, files, options) {
        Ok(seen) => print(sink, seen),
        Err(LookFault::NoMemory) => Looked {
            status: print_no_memory(sink),
            told: String::new(alloc),
        },
        Err(LookFault::Stream) => Looked {
            status: Status::Stream,
            told: String::new(alloc),
        },
    }
}

/// Reads all files, and looks at them.
fn look_into<I: Source, F: PictureFiles>(
    alloc: Global,
    one: &mut I,
    other: &mut I,
    kept_one: &mut I,
    kept_other: &mut I,
    files: &mut F,
    options: SpoolOptions<'_>,
) -> Result<Seen, LookFault>
    ensures seen { IfOk result (λ seen. AreKnown (I.remaining one.old)
        (I.remaining other.old) (I.remaining kept_one.old) (I.remaining kept_other.old)
        (λ a b c d. Looks options.entry a b c d (F.made files.old) (F.made files.new) seen)) }
    ensures status { IfOk result
        (λ seen. (seen.status ≡ Status.Done) ⊎ (seen.status ≡ Status.Fault)) }
    ensures stream { result ≡ Err LookFault.Stream → (I.failed one.new ≡ true)
        ⊎ (greatest_count ≤ I.reads one.new) ⊎ (I.failed other.new ≡ true)
        ⊎ (greatest_count ≤ I.reads other.new) ⊎ (I.failed kept_one.new ≡ true)
        ⊎ (greatest_count ≤ I.reads kept_one.new) ⊎ (I.failed kept_other.new ≡ true)
        ⊎ (greatest_count ≤ I.reads kept_other.new) ⊎ (F.failed files.new ≡ true) }
    ensures unfailed { result ≢ Err LookFault.Stream
        → (I.failed one.new ≡ I.failed one.old) × (I.failed other.new ≡ I.failed other.old)
        × (I.failed kept_one.new ≡ I.failed kept_one.old)
        × (I.failed kept_other.new ≡ I.failed kept_other.old)
        × (F.failed files.new ≡ F.failed files.old) }
{
    let octets = read_whole(alloc, one)?;
    let others = read_whole(alloc, other)?;
    let kept = read_whole(alloc, kept_one)?;
    let kept_others = read_whole(alloc, kept_other)?;
    look(
        alloc,
        octets.as_slice(),
        others.as_slice(),
        kept.as_slice(),
        kept_others.as_slice(),
        files,
        options,
    )
}

/// Writes the lines of a look.
fn print<O: Sink>(sink: &mut O, seen: Seen) -> Looked
    ensures text { result.status ≢ Status.Stream
        → Appends (O.contents sink.old) (O.contents sink.new) seen.text.items }
    ensures status { result.status ≢ Status.Stream → result.status ≡ seen.status }
    ensures told { string_bytes result.told ≡ string_bytes seen.told }
    ensures handed_on { result.status ≢ Status.Stream → O.held_back sink.new ≡ false }
    ensures failed { result.status ≡ Status.Stream
        → seen.status ≢ Status.Stream → O.failed sink.new ≡ true }
    ensures unfailed { result.status ≢ Status.Stream → O.failed sink.new ≡ O.failed sink.old }
{
    let Seen { text, told, status } = seen;
    match write_text(sink, text.as_slice()) {
        Ok(()) => Looked { status, told },
        Err(WriteFault) => Looked {
            status: Status::Stream,
            told,
        },
    }
}

/// Writes that memory was wanted and refused.
fn print_no_memory<O: Sink>(sink: &mut O) -> Status
    ensures text { result ≡ Status.NoMemory
        → Appends (O.contents sink.old) (O.contents sink.new) (codes "fault memory\n") }
    ensures cases { (result ≡ Status.NoMemory) ⊎ (result ≡ Status.Stream) }
    ensures handed_on { result ≢ Status.Stream → O.held_back sink.new ≡ false }
    ensures failed { result ≡ Status.Stream → O.failed sink.new ≡ true }
    ensures unfailed { result ≢ Status.Stream → O.failed sink.new ≡ O.failed sink.old }
{
    match write_text(sink, MEMORY_LINE) {
        Ok(()) => Status::NoMemory,
        Err(WriteFault) => Status::Stream,
    }
}
