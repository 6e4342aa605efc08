//! Streams of octets that keep count: how much a source gave, in how many reads, whether a read or a write
//! failed, and whether what was written was handed on.
ghost use Rattle.std.specs.Prelude.{ℕ, ◌≡◌, ◌+◌, ◌<◌, ◌≤◌, ◌⊎◌, ◌↔◌, Bool, true, false, List, Option, length, min, is_some, IfOk, IfSome, IsSome, OnOk, IsOk};
ghost use Rattle.std.specs.Io.KnownBytes.{Appends, Keeps, ReadConsumes};
ghost use Rattle.fax_command.specs.Streams.{failed_after_read, failed_after_write, given_after_read, greatest_count};
ghost use Rattle.fax_command.specs.StreamFaults.{IsFaultOf};

use crate::stream_fault::StreamFault;
use std::io;
use std::io::{ErrorKind, Read, Write};

/// The most reads of a source.
pub const MOST_READS: u32 = 1_048_576;

/// The most octets of an input. A source is not read once it gave more.
pub const MOST_OCTETS: u32 = 16_777_216;

/// The most octets of a read.
pub const MOST_AT_ONCE: usize = 65_536;

/// Why a read gave nothing.
#[derive(Clone, Copy, PartialEq, Eq, Debug)]
pub enum ReadFault {
    /// A signal came first. The next read may give more.
    Interrupted,
    Failed,
}

/// A write failed. What was written of its octets is open.
#[derive(Clone, Copy, PartialEq, Eq, Debug)]
pub struct WriteFault;

/// What octets are read from.
pub trait Source {
    /// The octets that it will give, where they are known.
    ghost remaining: { Self → Option (List ℕ) };

    /// How many reads were made. The count stops at the greatest `u64`.
    ghost reads: { Self → ℕ };

    /// How many octets they gave. The count stops there too.
    ghost given: { Self → ℕ };

    /// Whether one of them failed.
    ghost failed: { Self → Bool };

    /// Reads some octets into the front of the buffer, and says how many. None are left at 0.
    fn read(&mut self, buffer: &mut [u8]) -> Result<usize, ReadFault>
        ensures bound { IfOk result (λ n. n ≤ length buffer.new) }
        ensures octets { ReadConsumes (remaining self.old) (remaining self.new) result buffer.new }
        ensures counted { reads self.new ≡ min (reads self.old + 1) greatest_count }
        ensures given { given self.new ≡ given_after_read (given self.old) result }
        ensures failed { failed self.new ≡ failed_after_read (failed self.old) result };
}

/// What octets are written to.
pub trait Sink {
    /// The octets that it holds, where they are known.
    ghost contents: { Self → Option (List ℕ) };

    /// Whether a write failed.
    ghost failed: { Self → Bool };

    /// Whether what was written may be held back.
    ghost held_back: { Self → Bool };

    /// Writes all octets.
    fn write_all(&mut self, octets: &[u8]) -> Result<(), WriteFault>
        ensures octets { OnOk result (Appends (contents self.old) (contents self.new) octets.now) }
        ensures failed { failed self.new ≡ failed_after_write (failed self.old) result }
        ensures held_back { held_back self.new ≡ true };

    /// Hands on what is held back.
    fn flush(&mut self) -> Result<(), WriteFault>
        ensures octets { OnOk result (Keeps (contents self.old) (contents self.new)) }
        ensures failed { failed self.new ≡ failed_after_write (failed self.old) result }
        ensures handed_on { OnOk result (held_back self.new ≡ false) };
}

/// Writes a text, and hands it on.
pub fn write_text<O: Sink>(sink: &mut O, text: &[u8]) -> Result<(), WriteFault>
    ensures text { OnOk result (Appends (O.contents sink.old) (O.contents sink.new) text.now) }
    ensures failed { O.failed sink.new ≡ failed_after_write (O.failed sink.old) result }
    ensures handed_on { OnOk result (O.held_back sink.new ≡ false) }
{
    sink.write_all(text)?;
    sink.flush()
}

/// A source of std's. Its counts stop at the greatest `u64`.
#[derive(Drop)]
pub struct StdSource<R> {
    reader: R,
    reads: u64,
    given: u64,
    failure: Option<io::Error>,
}

impl<R: Read> StdSource<R> {
    /// A source that was not read.
    pub fn new(reader: R) -> Self
        ensures same { ⟦<StdSource<R> as Source>⟧.remaining result ≡ R.remaining reader }
        ensures unread { (⟦<StdSource<R> as Source>⟧.reads result ≡ 0)
            × (⟦<StdSource<R> as Source>⟧.given result ≡ 0) }
        ensures unfailed { ⟦<StdSource<R> as Source>⟧.failed result ≡ false }
    {
        StdSource {
            reader,
            reads: 0,
            given: 0,
            failure: None,
        }
    }
}

impl<R: Read> Source for StdSource<R> {
    ghost remaining = { λ source. R.remaining source.reader };

    ghost reads = { λ source. source.reads };

    ghost given = { λ source. source.given };

    ghost failed = { λ source. is_some source.failure };

    fn read(&mut self, buffer: &mut [u8]) -> Result<usize, ReadFault> {
        self.reads = self.reads.saturating_add(1);
        match self.reader.read(buffer) {
            Ok(count) => {
                self.given = self.given.saturating_add(count as u64);
                Ok(count)
            }
            Err(error) if error.kind() == ErrorKind::Interrupted => Err(ReadFault::Interrupted),
            Err(error) => {
                self.failure = Some(error);
                Err(ReadFault::Failed)
            }
        }
    }
}

/// A sink of std's.
#[derive(Drop)]
pub struct StdSink<W> {
    writer: W,
    failure: Option<io::Error>,
    held_back: bool,
}

impl<W: Write> StdSink<W> {
    /// A sink to which nothing was written.
    pub fn new(writer: W) -> Self
        ensures same { ⟦<StdSink<W> as Sink>⟧.contents result ≡ W.contents writer }
        ensures unfailed { ⟦<StdSink<W> as Sink>⟧.failed result ≡ false }
        ensures unwritten { ⟦<StdSink<W> as Sink>⟧.held_back result ≡ false }
    {
        StdSink {
            writer,
            failure: None,
            held_back: false,
        }
    }

    /// Keeps in mind why a write failed.
    fn noted(&mut self, written: io::Result<()>) -> Result<(), WriteFault>
        ensures same { (self.new.writer ≡ self.old.writer)
            × (self.new.held_back ≡ self.old.held_back) }
        ensures failed { is_some self.new.failure
            ≡ failed_after_write (is_some self.old.failure) result }
        ensures ok { IsOk result ↔ IsOk written }
    {
        match written {
            Ok(()) => Ok(()),
            Err(error) => {
                self.failure = Some(error);
                Err(WriteFault)
            }
        }
    }
}

impl<W: Write> Sink for StdSink<W> {
    ghost contents = { λ sink. W.contents sink.writer };

    ghost failed = { λ sink. is_some sink.failure };

    ghost held_back = { λ sink. sink.held_back };

    fn write_all(&mut self, octets: &[u8]) -> Result<(), WriteFault> {
        self.held_back = true;
        let written = self.writer.write_all(octets);
        self.noted(written)
    }

    fn flush(&mut self) -> Result<(), WriteFault> {
        let written = self.writer.flush();
        if written.is_ok() {
            self.held_back = false;
        }
        self.noted(written)
    }
}

/// Why a run that ended with status 4 did, by the streams that it had to itself. `None`: they tell no fault.
pub fn fault_of_streams<R: Read, W: Write>(
    source: &StdSource<R>,
    sink: &StdSink<W>,
) -> Option<StreamFault>
    ensures is { IfSome result (IsFaultOf (⟦<StdSource<R> as Source>⟧.failed source.now)
        (⟦<StdSink<W> as Sink>⟧.failed sink.now) (⟦<StdSource<R> as Source>⟧.given source.now)
        (⟦<StdSource<R> as Source>⟧.reads source.now)) }

    // It tells one wherever a run ends so.
    ensures told { (⟦<StdSource<R> as Source>⟧.failed source.now ≡ true)
        ⊎ (⟦<StdSink<W> as Sink>⟧.failed sink.now ≡ true)
        ⊎ (MOST_OCTETS < ⟦<StdSource<R> as Source>⟧.given source.now)
        ⊎ (⟦<StdSource<R> as Source>⟧.reads source.now ≡ MOST_READS) → IsSome result }
{
    if let Some(error) = source.failure {
        return Some(StreamFault::Unread(error));
    }
    if let Some(error) = sink.failure {
        return Some(StreamFault::Unwritten(error));
    }
    if source.given > u64::from(MOST_OCTETS) {
        return Some(StreamFault::TooLong);
    }
    if source.reads >= u64::from(MOST_READS) {
        return Some(StreamFault::TooManyReads);
    }
    None
}
