//! Two-dimensional lines, written.
ghost use Rattle.std.specs.Prelude.{List, Bool, true, ℕ, ◌⊎◌, ◌++◌, ◌+◌, ◌-◌, ◌*◌, ◌^◌, ◌≡◌, ◌<◌, ◌≤◌, length, max, replicate, slice_index_or, IfSome, IsNone, OnOk, OnErr};
ghost use Rattle.fax_bits.specs.Bits.{word_bits};
ghost use Rattle.fax_runcodes.specs.Painted.{colour_after_changes};
ghost use Rattle.fax_mrcode.specs.declared.mode.Offset.{Offset};
ghost use Rattle.fax_mrcode.specs.Modes.{IsAt, mode_word};
ghost use Rattle.fax_mrcode.specs.Written.{WritesLine};

mod alike;

use crate::places::place_at;
use crate::{Mode, Offset};
use alike::places_alike;
use fax_bits::{BitWriter, NoMemory, RoomyWriter};
use fax_runcodes::{Colour, Row, RowRef, put_two_runs};

/// Writes the line of a row against the row before it: pass wherever b2 lies left of a1, else vertical
/// wherever a1 lies at most three elements from b1, else horizontal (ITU-T T.4, 4.2.1.3.3). An `Err`
/// changes nothing.
pub fn write_line_2d(writer: &mut BitWriter, reference: &Row, row: &Row) -> Result<(), NoMemory>
    requires { length row.now ≡ length reference.now }
    ensures ok { OnOk result ((text : List Bool)
        × WritesLine reference.now row.now text × (writer.new ≡ writer.old ++ text)) }
    ensures err { OnErr result (writer.new ≡ writer.old) }
{
    write_lent_line_2d(writer, &reference.lend(), &row.lend())
}

/// Writes the line of a row that is lent against the row before it, as [`write_line_2d`] does. An `Err`
/// changes nothing.
pub fn write_lent_line_2d(
    writer: &mut BitWriter,
    reference: &RowRef<'_>,
    row: &RowRef<'_>,
) -> Result<(), NoMemory>
    requires { length row.now ≡ length reference.now }
    ensures ok { OnOk result ((text : List Bool)
        × WritesLine reference.now row.now text × (writer.new ≡ writer.old ++ text)) }
    ensures err { OnErr result (writer.new ≡ writer.old) }
{
    let room = 8 * (usize::from(row.width()) + 1);
    let mut roomy = writer.take_with_room(room)?;
    put_steps(&mut roomy, reference, row);
    *writer = roomy.into_writer();
    Ok(())
}

/// Writes the coding steps of a line, each of which takes at most 57 bits and goes on by one element at
/// least. The changing places of both rows are walked from left to right, those of the reference with one
/// step back where the place before b1 lies right of a1. Where both rows have the next places alike, as
/// many steps are written at once. It takes no memory.
#[inline(always)]
fn put_steps(writer: &mut RoomyWriter, reference: &RowRef<'_>, row: &RowRef<'_>)
    requires same_width { length row.now ≡ length reference.now }
    requires room { 57 * (length row.now + 1) ≤ writer.old.room }
    ensures { (text : List Bool)
        × WritesLine reference.now row.now text × (writer.new.bits ≡ writer.old.bits ++ text) }
{
    let width = row.width();
    let (changes, above) = (row.changes(), reference.changes());
    // a0 + 1, and where a1 and b1 stand among the changing places
    let mut from = 0;
    let (mut index, mut index_above) = (0, 0);
    while from <= width {
        let (over, b1) = first_from(above, index_above, from, width);
        let a1 = place_at(changes, index, width);
        let b2 = place_at(above, over + 1, width);
        if b2 < a1 {
            put_mode(writer, Mode::Pass);
            from = b2 + 1;
            index_above = over + 2;
        } else if let Some(offset) = offset_of(a1, b1) {
            let zeros = places_alike(changes, index, above, over);
            if zeros > 0 {
                put_zeros(writer, zeros as u32);
                from = place_at(changes, index + zeros - 1, width) + 1;
                index += zeros;
                index_above = over + zeros;
            } else {
                put_mode(writer, Mode::Vertical(offset));
                from = a1 + 1;
                index += 1;
                index_above = index_after(above, over, a1, width);
            }
        } else {
            let a2 = place_at(changes, index + 1, width);
            let (word, bits) = word_of(Mode::Horizontal);
            let colour = Colour::after_changes(index);
            let first = u32::from(a1 - from.saturating_sub(1));
            put_two_runs(writer, word, bits, colour, first, u32::from(a2 - a1));
            from = a2 + 1;
            index += 2;
            index_above = over;
        }
    }
}

/// The index of the first changing place, from an index on, that changes to the same colour as the one
/// there and doesn't lie left of a place, and that changing place; the width stands for those past the
/// last. Every other index changes to the same colour.
#[inline]
fn first_from(changes: &[u16], mut index: usize, from: u16, width: u16) -> (usize, u16)
    requires { from ≤ width }
    ensures later { index ≤ result.0 }
    ensures near { result.0 ≤ max index (length changes.now + 1) }
    ensures turns { colour_after_changes result.0 ≡ colour_after_changes index }
    ensures passed { (k : ℕ)
        → index ≤ k → k < result.0 → colour_after_changes k ≡ colour_after_changes index
        → slice_index_or changes.now k width < from }
    ensures place { result.1 ≡ slice_index_or changes.now result.0 width }
    ensures found { from ≤ result.1 }
{
    let mut place = place_at(changes, index, width);
    while place < from {
        index += 2;
        place = place_at(changes, index, width);
    }
    (index, place)
}

/// From where on b1 is looked for after a vertical mode: from the changing place before b1 on, where it
/// lies right of a1, else from the one after b1.
#[inline]
fn index_after(above: &[u16], over: usize, a1: u16, width: u16) -> usize
    requires { over < 2 ^ 64 - 1 }
    ensures { (result ≡ over - 1) × (0 < over) × (a1 < slice_index_or above.now (over - 1) width)
        ⊎ (result ≡ over + 1) × ((over ≡ 0) ⊎ (slice_index_or above.now (over - 1) width ≤ a1)) }
{
    if over > 0 && place_at(above, over - 1, width) > a1 {
        over - 1
    } else {
        over + 1
    }
}

/// How far a1 lies from b1, where it is no more than three elements.
#[inline]
fn offset_of(a1: u16, b1: u16) -> Option<Offset>
    requires a1 { a1 ≤ 2432 }
    requires b1 { b1 ≤ 2432 }
    ensures some { IfSome result (λ offset. IsAt offset a1 b1) }
    ensures none { IsNone result → (offset : Offset) → IsAt offset a1 b1 → ⊥ }
{
    match i32::from(a1) - i32::from(b1) {
        -3 => Some(Offset::Left3),
        -2 => Some(Offset::Left2),
        -1 => Some(Offset::Left1),
        0 => Some(Offset::Zero),
        1 => Some(Offset::Right1),
        2 => Some(Offset::Right2),
        3 => Some(Offset::Right3),
        _ => None,
    }
}

/// Writes the word of a mode. It takes no memory.
#[inline(always)]
fn put_mode(writer: &mut RoomyWriter, mode: Mode)
    requires { 7 ≤ writer.old.room }
    ensures bits { writer.new.bits ≡ writer.old.bits ++ mode_word mode }
    ensures room { writer.old.room ≤ writer.new.room + 7 }
{
    let (word, bits) = word_of(mode);
    writer.put(word, bits);
}

/// Writes the words of so many vertical modes with a1 at b1, a 1 each. It takes no memory.
#[inline(always)]
fn put_zeros(writer: &mut RoomyWriter, steps: u32)
    requires few { steps ≤ 28 }
    requires room { steps ≤ writer.old.room }
    ensures bits { writer.new.bits ≡ writer.old.bits ++ replicate steps true }
    ensures room { writer.old.room ≤ writer.new.room + steps }
{
    writer.put((1 << steps) - 1, steps);
}

/// The word of a mode (ITU-T T.4, table 4/T.4), and how many bits it has.
#[inline]
#[tactic(auto, unfolding(fax_bits::specs::Bits::word_bits, fax_bits::specs::Bits::bit))]
fn word_of(mode: Mode) -> (u32, u32)
    ensures bits { word_bits result.1 result.0 ≡ mode_word mode }
    ensures below { result.0 < 2 ^ result.1 }
    ensures few { result.1 ≤ 7 }
    ensures horizontal { mode ≡ Mode.Horizontal → result.1 ≡ 3 }
{
    match mode {
        Mode::Pass => (0b0001, 4),
        Mode::Horizontal => (0b001, 3),
        Mode::Vertical(Offset::Zero) => (0b1, 1),
        Mode::Vertical(Offset::Right1) => (0b011, 3),
        Mode::Vertical(Offset::Right2) => (0b000011, 6),
        Mode::Vertical(Offset::Right3) => (0b0000011, 7),
        Mode::Vertical(Offset::Left1) => (0b010, 3),
        Mode::Vertical(Offset::Left2) => (0b000010, 6),
        Mode::Vertical(Offset::Left3) => (0b0000010, 7),
    }
}
