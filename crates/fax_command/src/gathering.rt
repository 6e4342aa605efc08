//! Texts on their way to a sink: octets wait until they are many, and are written together.
ghost use Rattle.std.specs.Prelude.{[], ◌≡◌, ◌++◌, ◌∷◌, decimal, OnOk};
ghost use Rattle.fax_bits.specs.Laws.{AreOctets};
ghost use Rattle.fax_command.specs.Streams.{Puts, failed_after_write};

use crate::stream::{Sink, WriteFault};
use itoa::Buffer;

/// How many octets wait at most, but for those that were put last.
const MOST_WAITING: usize = 65_536;

/// Puts octets after those that wait. Where there is no memory for them they are written at once.
#[inline]
pub fn put<O: Sink>(sink: &mut O, waiting: &mut Vec<u8>, octets: &[u8]) -> Result<(), WriteFault>
    ensures text { OnOk result (Puts (O.contents sink.old)
        waiting.old.items (O.contents sink.new) waiting.new.items octets.now) }
    ensures octets { AreOctets octets.now }
    ensures failed { O.failed sink.new ≡ failed_after_write (O.failed sink.old) result }
{
    write_many(sink, waiting)?;
    if waiting.extend_from_slice(octets).is_ok() {
        return Ok(());
    }
    write_waiting(sink, waiting)?;
    sink.write_all(octets)
}

/// Puts a number in decimal, and an octet after it.
#[inline]
pub fn put_number<O: Sink>(
    sink: &mut O,
    waiting: &mut Vec<u8>,
    number: u32,
    after: u8,
) -> Result<(), WriteFault>
    ensures text { OnOk result (Puts (O.contents sink.old)
        waiting.old.items (O.contents sink.new) waiting.new.items (decimal number ++ after ∷ [])) }
    ensures failed { O.failed sink.new ≡ failed_after_write (O.failed sink.old) result }
{
    put(sink, waiting, Buffer::new().format(number).as_bytes())?;
    put_octet(sink, waiting, after)
}

/// Puts one octet as [`put`] does, but looks not whether much waits.
#[inline]
fn put_octet<O: Sink>(sink: &mut O, waiting: &mut Vec<u8>, octet: u8) -> Result<(), WriteFault>
    ensures text { OnOk result (Puts (O.contents sink.old)
        waiting.old.items (O.contents sink.new) waiting.new.items (octet ∷ [])) }
    ensures failed { O.failed sink.new ≡ failed_after_write (O.failed sink.old) result }
{
    if waiting.push(octet).is_ok() {
        return Ok(());
    }
    write_waiting(sink, waiting)?;
    sink.write_all(&[octet])
}

/// Writes what waits, where that is much.
#[inline]
fn write_many<O: Sink>(sink: &mut O, waiting: &mut Vec<u8>) -> Result<(), WriteFault>
    ensures text { OnOk result
        (Puts (O.contents sink.old) waiting.old.items (O.contents sink.new) waiting.new.items []) }
    ensures failed { O.failed sink.new ≡ failed_after_write (O.failed sink.old) result }
{
    if waiting.len() >= MOST_WAITING {
        write_waiting(sink, waiting)
    } else {
        Ok(())
    }
}

/// Writes what waits.
#[inline(never)]
pub fn write_waiting<O: Sink>(sink: &mut O, waiting: &mut Vec<u8>) -> Result<(), WriteFault>
    ensures text { OnOk result
        (Puts (O.contents sink.old) waiting.old.items (O.contents sink.new) waiting.new.items []) }
    ensures none { OnOk result (waiting.new.items ≡ []) }
    ensures failed { O.failed sink.new ≡ failed_after_write (O.failed sink.old) result }
{
    sink.write_all(waiting.as_slice())?;
    waiting.clear();
    Ok(())
}
