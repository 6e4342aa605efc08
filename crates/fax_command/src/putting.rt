//! The texts of pages: lines of run lengths, pictures, and hex text.
ghost use Rattle.std.specs.Io.KnownBytes.{Appends};
ghost use Rattle.std.specs.Prelude.{ℕ, List, [], ◌≡◌, ◌≤◌, ◌++◌, ◌∷◌, map, length, OnOk};
ghost use Rattle.hex.specs.Hex.{encode_lower};
ghost use Rattle.fax_bits.specs.Laws.{AreOctets};
ghost use Rattle.fax_bits.specs.Writing.{IsPadded};
ghost use Rattle.fax_runcodes.specs.Pixels.{pixel};
ghost use Rattle.fax_runcodes.specs.Widths.{elements_of};
ghost use Rattle.fax_command.specs.Pictures.{IsPicture, AreRowsOctets, picture_head};
ghost use Rattle.fax_command.specs.RowLines.{TellRows, TellsRow, text_of_lines};
ghost use Rattle.fax_command.specs.Streams.{Puts, failed_after_write};

use crate::gathering::{put, put_number, write_waiting};
use crate::stream::{Sink, WriteFault};
use fax_pagestore::{Page, RowStore};
use fax_runcodes::RowRef;
use std::alloc::Global;

/// How many octets the picture elements of the longest row fill, which has 2432.
const MOST_OCTETS_OF_ROW: usize = 304;

/// How many octets are made hex text at once.
const HEX_AT_ONCE: usize = 512;

/// Writes the lines of rows: of each row the lengths of its runs in elements, white first. It takes memory for them while
/// they wait to be written together, where there is any.
pub fn write_rows<O: Sink, S: RowStore>(
    alloc: Global,
    sink: &mut O,
    rows: &S,
) -> Result<(), WriteFault>
    ensures text { OnOk result ((lines : List (List ℕ)) × TellRows lines (S.rows rows.now)
        × Appends (O.contents sink.old) (O.contents sink.new) (text_of_lines lines)) }
    ensures failed { O.failed sink.new ≡ failed_after_write (O.failed sink.old) result }
{
    let mut waiting = Vec::new(alloc);
    put_lines(sink, &mut waiting, rows)?;
    write_waiting(sink, &mut waiting)
}

/// Puts the lines of rows.
pub fn put_lines<O: Sink, S: RowStore>(
    sink: &mut O,
    waiting: &mut Vec<u8>,
    rows: &S,
) -> Result<(), WriteFault>
    ensures text { OnOk result ((lines : List (List ℕ))
        × TellRows lines (S.rows rows.now) × Puts (O.contents sink.old)
        waiting.old.items (O.contents sink.new) waiting.new.items (text_of_lines lines)) }
    ensures failed { O.failed sink.new ≡ failed_after_write (O.failed sink.old) result }
{
    for i in 0..rows.len() {
        put_line(sink, waiting, &rows.lend(i))?;
    }
    Ok(())
}

/// Puts the line of a row, and its line feed.
fn put_line<O: Sink>(
    sink: &mut O,
    waiting: &mut Vec<u8>,
    row: &RowRef<'_>,
) -> Result<(), WriteFault>
    ensures text { OnOk result ((line : List ℕ) × TellsRow line row.now
        × Puts (O.contents sink.old) waiting.old.items (O.contents sink.new) waiting.new.items (line
        ++ 10 ∷ [])) }
    ensures failed { O.failed sink.new ≡ failed_after_write (O.failed sink.old) result }
{
    let places = row.changes();
    let mut from = 0;
    for place in places {
        put_number(sink, waiting, u32::from(*place - from), b' ')?;
        from = *place;
    }
    put_number(sink, waiting, u32::from(row.width() - from), b'\n')
}

/// Puts the picture of a page.
pub fn put_picture<O: Sink, S: RowStore>(
    sink: &mut O,
    waiting: &mut Vec<u8>,
    page: &Page<S>,
) -> Result<(), WriteFault>
    ensures text { OnOk result ((text : List ℕ)
        × IsPicture (elements_of page.now.format.width) page.now.rows text
        × Puts (O.contents sink.old)
        waiting.old.items (O.contents sink.new) waiting.new.items text) }
    ensures failed { O.failed sink.new ≡ failed_after_write (O.failed sink.old) result }
{
    let rows = page.rows();
    let width = page.format().width.elements();
    put(sink, waiting, b"P4\n")?;
    put_number(sink, waiting, u32::from(width), b' ')?;
    put_number(sink, waiting, rows.len(), b'\n')?;
    put_pixels(sink, waiting, rows)
}

/// Puts the picture elements of rows.
fn put_pixels<O: Sink, S: RowStore>(
    sink: &mut O,
    waiting: &mut Vec<u8>,
    rows: &S,
) -> Result<(), WriteFault>
    ensures text { OnOk result ((octets : List ℕ)
        × AreRowsOctets octets (S.rows rows.now) × AreOctets octets × Puts (O.contents sink.old)
        waiting.old.items (O.contents sink.new) waiting.new.items octets) }
    ensures failed { O.failed sink.new ≡ failed_after_write (O.failed sink.old) result }
{
    for i in 0..rows.len() {
        put_row(sink, waiting, &rows.lend(i))?;
    }
    Ok(())
}

/// Puts the picture elements of a row.
fn put_row<O: Sink>(sink: &mut O, waiting: &mut Vec<u8>, row: &RowRef<'_>) -> Result<(), WriteFault>
    ensures text { OnOk result ((octets : List ℕ)
        × IsPadded octets (map pixel row.now) × AreOctets octets × Puts (O.contents sink.old)
        waiting.old.items (O.contents sink.new) waiting.new.items octets) }
    ensures failed { O.failed sink.new ≡ failed_after_write (O.failed sink.old) result }
{
    let mut room = [0; MOST_OCTETS_OF_ROW];
    let octets = &mut room[..usize::from(row.width() / 8)];
    row.put_pixels(octets);
    put(sink, waiting, octets)
}

/// Puts the hex text of octets, in lower case, and a line feed.
pub fn put_hex_line<O: Sink>(
    sink: &mut O,
    waiting: &mut Vec<u8>,
    octets: &[u8],
) -> Result<(), WriteFault>
    ensures text { OnOk result (Puts (O.contents sink.old) waiting.old.items
        (O.contents sink.new) waiting.new.items (encode_lower octets.now ++ 10 ∷ [])) }
    ensures octets { AreOctets octets.now }
    ensures failed { O.failed sink.new ≡ failed_after_write (O.failed sink.old) result }
{
    let mut rest = octets;
    while !rest.is_empty() {
        let (front, after) = rest.split_at(rest.len().min(HEX_AT_ONCE));
        put_hex(sink, waiting, front)?;
        rest = after;
    }
    put(sink, waiting, b"\n")
}

/// Puts the hex text of a few octets.
fn put_hex<O: Sink>(sink: &mut O, waiting: &mut Vec<u8>, octets: &[u8]) -> Result<(), WriteFault>
    requires { length octets.now ≤ HEX_AT_ONCE }
    ensures text { OnOk result (Puts (O.contents sink.old)
        waiting.old.items (O.contents sink.new) waiting.new.items (encode_lower octets.now)) }
    ensures failed { O.failed sink.new ≡ failed_after_write (O.failed sink.old) result }
{
    let mut room = [0; 2 * HEX_AT_ONCE];
    let digits = &mut room[..2 * octets.len()];
    // It fails only where there are not twice as many digits as octets.
    let _ = hex::encode_to_slice(octets, digits);
    put(sink, waiting, digits)
}
