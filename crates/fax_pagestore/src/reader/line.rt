//! A one-dimensional line under way, of whose runs so far only the elements are kept.
ghost use Rattle.std.specs.Prelude.{◌≡◌, ◌⊎◌, ◌<◌, ◌≤◌, ◌+◌, ◌*◌, ◌++◌, true, Some, None, drop, length, replicate, sum, IfOk, IfSome, IsTrue, OnOk, OnErr};
ghost use Rattle.fax_bits.specs.Bits.{bits_of};
ghost use Rattle.fax_runcodes.specs.declared.Colour.TheVariants.{White};
ghost use Rattle.fax_runcodes.specs.Rows.{IsWidth, other, stretches};
ghost use Rattle.fax_runcodes.specs.Widths.{elements_of};
ghost use Rattle.fax_mhcode.specs.Lines.{written_runs};
ghost use Rattle.fax_mhcode.specs.LineFaults.{colour_after};
ghost use Rattle.fax_mhcode.specs.Pairs.{RunsSoFar};
ghost use Rattle.fax_pagestore.specs.LinesUnderWay.{AreKept, BeginSameLine};
ghost use Rattle.fax_pagestore.specs.Readers.{most_octets};

use super::rows::Reached;
use crate::ends::LONG;
use crate::front::drop_front;
use fax_bits::{BitReader, BitWriter, NoMemory};
use fax_runcodes::{Colour, Width, read_run, write_run};
use std::alloc::Global;

/// Octets in which a line under way stands, and how many bits of the first are not its.
#[derive(Drop)]
struct Line {
    octets: Vec<u8>,
    used: u32,
}

/// The most octets that are kept beside the rows.
pub(super) const MOST_KEPT: usize = 8192;

/// Keeps of octets what is not read of them, and answers how many bits of the first that is kept are not of it. A long line
/// under way in one dimension is written anew where that makes it shorter: of its runs without elements, which may be any
/// number, no two are kept side by side then after the first run. An `Err` changes nothing.
pub(super) fn keep_unread(
    alloc: Global,
    octets: &mut Vec<u8>,
    reached: Reached,
    width: Width,
) -> Result<u32, NoMemory>
    requires { reached.place ≤ 8 * length octets.old.items }
    ensures kept { IfOk result (λ used. AreKept (elements_of width) reached.tag reached.settled
        (drop reached.place (bits_of octets.old.items)) (drop used (bits_of octets.new.items))) }
    ensures no_more { IfOk result (λ used. length (drop used (bits_of octets.new.items))
        ≤ length (drop reached.place (bits_of octets.old.items))) }
    ensures used { IfOk result (λ used. used < 8) }
    ensures within { IfOk result (λ used. used ≤ 8 * length octets.new.items) }
    ensures few { OnOk result (length octets.new.items ≤ most_octets) }
    ensures err { OnErr result (octets.new.items ≡ octets.old.items) }
{
    if is_one_dimensional(reached) {
        return keep_line(alloc, octets, reached.place, width);
    }
    keep_from(octets, reached.place)
}

/// Whether a line is under way in one dimension.
fn is_one_dimensional(reached: Reached) -> bool
    ensures { IsTrue result → (reached.tag ≡ Some true) × (reached.settled ≡ None) }
{
    match reached.settled {
        Some(_) => false,
        None => match reached.tag {
            Some(tag) => tag,
            None => false,
        },
    }
}

/// Keeps the line that begins at a bit of octets, as fewer octets where it is long and can be written so.
fn keep_line(
    alloc: Global,
    octets: &mut Vec<u8>,
    place: u128,
    width: Width,
) -> Result<u32, NoMemory>
    requires { place ≤ 8 * length octets.old.items }
    ensures kept { IfOk result
        (λ used. (drop used (bits_of octets.new.items) ≡ drop place (bits_of octets.old.items))
        ⊎ BeginSameLine (elements_of width)
        (drop place (bits_of octets.old.items)) (drop used (bits_of octets.new.items))) }
    ensures no_more { IfOk result (λ used. length (drop used (bits_of octets.new.items))
        ≤ length (drop place (bits_of octets.old.items))) }
    ensures used { IfOk result (λ used. used < 8) }
    ensures within { IfOk result (λ used. used ≤ 8 * length octets.new.items) }
    ensures few { OnOk result (length octets.new.items ≤ most_octets) }
    ensures err { OnErr result (octets.new.items ≡ octets.old.items) }
{
    let found = shorter_line(
        alloc,
        &octets[(place / 8) as usize..],
        (place % 8) as u32,
        width,
    )?;
    let Some(line) = found else {
        return keep_from(octets, place);
    };
    let Line {
        octets: fewer,
        used,
    } = line;
    *octets = fewer;
    Ok(used)
}

/// Keeps the octets from the one on in which this bit stands. It takes no memory. More than are kept at most count as those
/// for which there is none: of no text of a page so many are left, where what can be settled is, and a line is written anew.
fn keep_from(octets: &mut Vec<u8>, place: u128) -> Result<u32, NoMemory>
    requires { place ≤ 8 * length octets.old.items }
    ensures kept { IfOk result
        (λ used. drop used (bits_of octets.new.items) ≡ drop place (bits_of octets.old.items)) }
    ensures used { IfOk result (λ used. used < 8) }
    ensures within { IfOk result (λ used. used ≤ 8 * length octets.new.items) }
    ensures few { OnOk result (length octets.new.items ≤ most_octets) }
    ensures err { OnErr result (octets.new.items ≡ octets.old.items) }
{
    let front = (place / 8) as usize;
    if octets.len() - front > MOST_KEPT {
        return Err(NoMemory);
    }
    drop_front(octets, front);
    Ok((place % 8) as u32)
}

/// The line that begins after so many bits of octets, as fewer octets, where it is a long one and can be written so.
fn shorter_line(
    alloc: Global,
    octets: &[u8],
    used: u32,
    width: Width,
) -> Result<Option<Line>, NoMemory>
    requires used { used ≤ 8 * length octets.now }
    ensures same { IfOk result (λ line. IfSome line (λ l. BeginSameLine (elements_of width)
        (drop used (bits_of octets.now)) (drop l.used (bits_of l.octets.items)))) }
    ensures used { IfOk result (λ line. IfSome line (λ l. l.used < 8)) }
    ensures within { IfOk result (λ line. IfSome line (λ l. l.used ≤ 8 * length l.octets.items)) }
    ensures shorter { IfOk result
        (λ line. IfSome line (λ l. length l.octets.items < length octets.now)) }
    ensures few { IfOk result (λ line. IfSome line (λ l. length l.octets.items ≤ most_octets)) }
{
    if octets.len() < LONG {
        return Ok(None);
    }
    let mut reader = BitReader::new(octets);
    reader.skip(used);
    let runs = read_runs(alloc, &mut reader, width.elements())?;
    if runs.is_empty() {
        return Ok(None);
    }
    let line = write_line(alloc, runs.as_slice(), &mut reader)?;
    if line.octets.len() >= octets.len() || line.octets.len() > MOST_KEPT {
        return Ok(None);
    }
    Ok(Some(line))
}

/// Reads the runs of a line as long as they don't reach the width, and answers them less those without elements of which two
/// stand side by side after the first run.
fn read_runs(alloc: Global, reader: &mut BitReader, width: u16) -> Result<Vec<u16>, NoMemory>
    requires { IsWidth width }
    ensures line { IfOk result (λ runs. RunsSoFar width
        reader.old reader.new (stretches White runs.items) (colour_after runs.items)) }
    ensures within { IfOk result (λ runs. sum runs.items < width) }
    ensures some { IfOk result
        (λ runs. 0 < length runs.items → reader.old.passed < reader.new.passed) }
{
    let mut runs = Vec::new(alloc);
    let mut colour = Colour::White;
    let mut left = width;
    loop {
        let mut ahead = reader.copy();
        let Ok(run) = read_run(&mut ahead, colour) else {
            return Ok(runs);
        };
        if run >= left {
            return Ok(runs);
        }
        add_run(&mut runs, run)?;
        *reader = ahead;
        left -= run;
        colour = colour.other();
    }
}

/// Adds a run to those of a line. Where it has no elements, nor the last one before it, both are left out, but for the first
/// run of the line.
fn add_run(runs: &mut Vec<u16>, run: u16) -> Result<(), NoMemory>
    ensures row { OnOk result (stretches White runs.new.items
        ≡ stretches White runs.old.items ++ replicate run (colour_after runs.old.items)) }
    ensures colour { OnOk result (colour_after runs.new.items
        ≡ other (colour_after runs.old.items)) }
    ensures sum { OnOk result (sum runs.new.items ≡ sum runs.old.items + run) }
{
    let len = runs.len();
    if run == 0 && len >= 2 && runs[len - 1] == 0 {
        runs.truncate(len - 1);
        return Ok(());
    }
    runs.push(run)?;
    Ok(())
}

/// The runs, and the bits that are left of a reader after them, in octets of which the last ends with the last of the bits.
fn write_line(alloc: Global, runs: &[u16], reader: &mut BitReader) -> Result<Line, NoMemory>
    requires { sum runs.now ≤ 2432 }
    ensures bits { IfOk result (λ line. drop line.used (bits_of line.octets.items)
        ≡ written_runs White runs.now ++ reader.old.left) }
    ensures used { IfOk result (λ line. line.used < 8) }
    ensures within { IfOk result (λ line. line.used ≤ 8 * length line.octets.items) }
{
    let mut writer = BitWriter::new(alloc);
    write_runs(&mut writer, runs)?;
    let over = (writer.bits() % 8 + reader.left() % 8) as u32;
    let used = (16 - over) % 8;
    let mut writer = BitWriter::new(alloc);
    writer.zeros(used)?;
    write_runs(&mut writer, runs)?;
    write_rest(&mut writer, reader)?;
    Ok(Line {
        octets: writer.finish().into_vec(),
        used,
    })
}

/// Writes runs, white first, each in its one written form.
fn write_runs(writer: &mut BitWriter, runs: &[u16]) -> Result<(), NoMemory>
    requires { sum runs.now ≤ 2432 }
    ensures { OnOk result (writer.new ≡ writer.old ++ written_runs White runs.now) }
{
    let mut colour = Colour::White;
    for run in runs {
        write_run(writer, colour, *run)?;
        colour = colour.other();
    }
    Ok(())
}

/// The most bits that are copied at once.
const MOST_COPIED: u32 = 24;

/// Writes the bits that are left of a reader.
fn write_rest(writer: &mut BitWriter, reader: &mut BitReader) -> Result<(), NoMemory>
    ensures { OnOk result (writer.new ≡ writer.old ++ reader.old.left) }
{
    while reader.has(1) {
        let n = reader.known().min(MOST_COPIED);
        let Some(word) = reader.peek(n) else {
            return Ok(());
        };
        writer.put(word, n)?;
        reader.skip(n);
    }
    Ok(())
}
