//! Why the octets that came are no page, where no more come.
ghost use Rattle.std.specs.Prelude.{ℕ, Bool, List, ◌≡◌, ◌≢◌, ◌<◌, ◌≤◌, ◌*◌, ◌++◌, ◌↔◌, All, drop, length, IfErr, IsNone, IsOk};
ghost use Rattle.fax_bits.specs.Bits.{bits_of};
ghost use Rattle.fax_bits.specs.Reading.{Passes};
ghost use Rattle.fax_runcodes.specs.Rows.{Elements};
ghost use Rattle.fax_runcodes.specs.Widths.{elements_of};
ghost use Rattle.fax_pagestore.specs.PageRows.{most_rows};
ghost use Rattle.fax_pagestore.specs.PageTexts.{SpellsRow};
ghost use Rattle.fax_pagestore.specs.PageFaults.{FailsRow, LineBegins, Stops, last_of};
ghost use Rattle.fax_pagestore.specs.Readers.{BeginsRow, IsReadUpTo, NoMoreIsWhole, AreJudged, StaysBad};

use super::settled::pass_end;
use crate::reading::{Ahead, Ending, MOST_ROWS, line_begins, pass_separator};
use crate::{Coding, PageFault, RowStore};
use fax_bits::BitReader;
use fax_mhcode::{LineFault, pass_line_1d};
use fax_mrcode::pass_line_2d;
use fax_runcodes::{RunFault, Width};

/// Why the octets of a page are none, if they are none, where these rows were read of them, and of the bits
/// that are not used nothing more can be.
pub(super) fn judge<S: RowStore>(
    rows: &S,
    octets: &[u8],
    used: u32,
    width: Width,
    coding: Coding,
    tag: Option<bool>,
) -> Option<PageFault>
    requires used { used ≤ 8 * length octets.now }
    requires few { length (S.rows rows.now) ≤ most_rows }
    requires each { All (λ row. length row ≡ elements_of width) (S.rows rows.now) }
    ensures judged { (all : List ℕ) → IsReadUpTo coding (elements_of width) all (S.rows rows.now)
        tag (drop used (bits_of octets.now)) → NoMoreIsWhole coding (elements_of width)
        (S.rows rows.now) tag (drop used (bits_of octets.now))
        → AreJudged coding (elements_of width) all (S.rows rows.now) result }
    ensures some { IsNone result → 0 < length (S.rows rows.now) }
{
    let Some(tag) = tag else {
        return Some(PageFault::NoEol);
    };
    let mut reader = BitReader::new(octets);
    reader.skip(used);
    let count = rows.len();
    if !line_begins(&reader) {
        return match pass_end(&mut reader, coding, tag, count) {
            Some(settled) => settled.fault(),
            None => Some(PageFault::NoRtc),
        };
    }
    if count == MOST_ROWS {
        return Some(PageFault::TooManyRows);
    }
    Some(judge_line(rows, &mut reader, width, coding, tag))
}

/// Why the line after this tag, of which the separator is not whole, is none.
fn judge_line<S: RowStore>(
    rows: &S,
    reader: &mut BitReader,
    width: Width,
    coding: Coding,
    tag: bool,
) -> PageFault
    requires each { All (λ row. length row ≡ elements_of width) (S.rows rows.now) }
    requires begins { LineBegins reader.old.left }
    requires few { length (S.rows rows.now) < most_rows }
    ensures { (BeginsRow coding (elements_of width) tag (last_of (S.rows rows.now)) reader.old.left
        → ⊥) → Stops coding (elements_of width) (S.rows rows.now) 0 tag reader.old.left result }
{
    match pass_line(rows, reader, width, tag) {
        Ending::Whole => {}
        Ending::Broken | Ending::BreaksOff => return PageFault::BadLine(rows.len()),
    }
    match pass_separator(reader, coding) {
        Ok(Ahead::Line) => PageFault::BadLine(rows.len()),
        // not whole, as was told
        Ok(Ahead::Separator(_)) => PageFault::NoRtc,
        Err(fault) => fault,
    }
}

/// The bits of the longest mode word (ITU-T T.4, table 4/T.4).
const LONGEST_MODE: u32 = 7;

/// Passes the line after this tag and these rows, if it can be read. Else the reader stands anywhere.
pub(super) fn pass_line<S: RowStore>(
    rows: &S,
    reader: &mut BitReader,
    width: Width,
    tag: bool,
) -> Ending
    requires { All (λ row. length row ≡ elements_of width) (S.rows rows.now) }
    ensures line { result ≡ Ending.Whole → (row : Elements) × (text : List Bool)
        × SpellsRow (elements_of width) tag (last_of (S.rows rows.now)) text row
        × Passes reader.old reader.new text }
    ensures fails { result ≢ Ending.Whole
        → FailsRow (elements_of width) tag (last_of (S.rows rows.now)) reader.old.left }
    ensures stays { result ≡ Ending.Broken → (more : List Bool)
        → FailsRow (elements_of width) tag (last_of (S.rows rows.now)) (reader.old.left ++ more) }
{
    if tag {
        let passed = pass_line_1d(reader, width);
        return ending_of(passed, reader);
    }
    let count = rows.len();
    if count == 0 {
        return Ending::Broken;
    }
    let passed = pass_line_2d(reader, &rows.lend(count - 1));
    ending_of(passed, reader)
}

/// How a line ends that was to be passed. The reader stands at the step that cannot be taken, if there is one.
fn ending_of(passed: Result<(), LineFault>, reader: &BitReader) -> Ending
    ensures line { result ≡ Ending.Whole ↔ IsOk passed }
    ensures stays { result ≡ Ending.Broken
        → IfErr passed (λ fault. StaysBad fault reader.now.left) }
{
    match passed {
        Ok(()) => Ending::Whole,
        Err(LineFault::Run(RunFault::End)) => Ending::BreaksOff,
        Err(LineFault::NoMode) if !reader.has(LONGEST_MODE) => Ending::BreaksOff,
        Err(_) => Ending::Broken,
    }
}
