//! Rows read of the octets that came, as far as they are whole.
ghost use Rattle.std.specs.Prelude.{ℕ, Bool, List, ◌≡◌, ◌<◌, ◌≤◌, ◌*◌, ◌++◌, Some, None, All, drop, length, IfOk, OnOk, OnErr, IfSome, IsSome, IsNone, Ok, Err, false};
ghost use Rattle.fax_bits.specs.Bits.{bits_of};
ghost use Rattle.fax_bits.specs.Reading.{Passes};
ghost use Rattle.fax_runcodes.specs.Rows.{Elements, IsWidth};
ghost use Rattle.fax_runcodes.specs.Widths.{elements_of};
ghost use Rattle.fax_pagestore.specs.PageRows.{most_rows};
ghost use Rattle.fax_pagestore.specs.PageTexts.{IsSeparator, ReadSoFar, SpellsRow};
ghost use Rattle.fax_pagestore.specs.PageFaults.{LineBegins, Stops, WantsLine, last_of, row_before};
ghost use Rattle.fax_pagestore.specs.Ends.{HoldsEol, HoldsNoTaggedEol};
ghost use Rattle.fax_pagestore.specs.Readers.{ReadsOne, IsReadUpTo, NoMoreIsWhole, AreJudged, fault_of};

use super::settled::{Settled, settle};
use crate::ends::bits_before_eol;
use crate::reading::{MOST_ROWS, line_ahead, pass_front, read_row, read_row_alone};
use crate::white::pass_white_row;
use crate::{Coding, PageFault, RowStore};
use fax_bits::{BitReader, NoMemory};
use fax_runcodes::{Colour, RowBuilder, Width};
use std::alloc::Global;
use std::mem;

/// How many octets are kept before the first EOL: one whose tag is not there yet begins in the last two (ITU-T
/// T.4, 4.1.2 and 4.2.2).
const BEFORE_EOL: usize = 2;

/// How far octets were read, after a piece: how many of their bits, or all where it is settled what they are; the tag of
/// the last separator; and what they are, where that is settled.
#[derive(Clone, Copy)]
pub(super) struct Reached {
    pub(super) place: u128,
    pub(super) tag: Option<bool>,
    pub(super) settled: Option<Settled>,
}

/// Reads on from the bits of octets that are not used, as long as an EOL stands before this octet.
pub(super) fn read_up_to<S: RowStore>(
    alloc: Global,
    rows: &mut S,
    octets: &[u8],
    used: u32,
    width: Width,
    coding: Coding,
    tag: Option<bool>,
    end: usize,
) -> Result<Reached, NoMemory>
    requires used { used ≤ 8 * length octets.now }
    requires few { length (S.rows rows.old) ≤ most_rows }
    requires each { All (λ row. length row ≡ elements_of width) (S.rows rows.old) }
    requires within { end ≤ length octets.now }
    requires end { HoldsEol (drop (8 * end) (bits_of octets.now)) → ⊥ }
    ensures same { (more : List Elements) × (S.rows rows.new ≡ S.rows rows.old ++ more) }
    ensures few { length (S.rows rows.new) ≤ most_rows }
    ensures each { All (λ row. length row ≡ elements_of width) (S.rows rows.new) }
    ensures place { IfOk result (λ reached. reached.place ≤ 8 * length octets.now) }
    ensures on { IfOk result (λ reached. used ≤ reached.place) }
    ensures some { IfOk result
        (λ reached. reached.settled ≡ Some Settled.Page → 0 < length (S.rows rows.new)) }
    ensures read { IfOk result (λ reached. reached.settled ≡ None
        → (all : List ℕ) → IsReadUpTo coding (elements_of width) all (S.rows rows.old)
        tag (drop used (bits_of octets.now)) → IsReadUpTo coding (elements_of width)
        all (S.rows rows.new) reached.tag (drop reached.place (bits_of octets.now))) }
    ensures waits { IfOk result
        (λ reached. reached.settled ≡ None → NoMoreIsWhole coding (elements_of width)
        (S.rows rows.new) reached.tag (drop reached.place (bits_of octets.now))) }
    ensures all { IfOk result
        (λ reached. IsSome reached.settled → reached.place ≡ 8 * length octets.now) }
    ensures settled { IfOk result (λ reached. (what : Settled)
        → reached.settled ≡ Some what → (all more : List ℕ) → IsReadUpTo coding
        (elements_of width) all (S.rows rows.old) tag (drop used (bits_of octets.now))
        → AreJudged coding (elements_of width) (all ++ more) (S.rows rows.new) (fault_of what)) }
{
    let mut reader = BitReader::new(octets);
    reader.skip(used);
    let Some(first) = begin(&mut reader, coding, tag) else {
        let unused = 8 * octets.len().saturating_sub(BEFORE_EOL) as u128;
        return Ok(Reached {
            place: unused.max(u128::from(used)),
            tag: None,
            settled: None,
        });
    };
    let halt = read_rows_on(
        alloc,
        rows,
        &mut reader,
        width,
        coding,
        first,
        8 * end as u128,
    )?;
    let place = reader.place();
    let settled = settle(rows, &mut reader, width, coding, &halt);
    if settled.is_some() {
        return Ok(Reached {
            place: 8 * octets.len() as u128,
            tag: Some(halt.tag),
            settled,
        });
    }
    Ok(Reached {
        place,
        tag: Some(halt.tag),
        settled: None,
    })
}

/// From which bit on octets are read of which so many are used: before the first EOL those are passed before which none begins.
pub(super) fn unread_from(octets: &[u8], used: u32, tag: Option<bool>) -> u32
    requires { used ≤ 8 * length octets.now }
    ensures within { result ≤ 8 * length octets.now }
    ensures on { used ≤ result }
    ensures read { (coding : Coding) (width : ℕ) (all : List ℕ) (rows : List Elements)
        → IsReadUpTo coding width all rows tag (drop used (bits_of octets.now))
        → IsReadUpTo coding width all rows tag (drop result (bits_of octets.now)) }
{
    match tag {
        Some(_) => used,
        None => used.max(bits_before_eol(octets)),
    }
}

/// The tag of the last separator: that of the front, which is passed where none was.
fn begin(reader: &mut BitReader, coding: Coding, tag: Option<bool>) -> Option<bool>
    ensures passes { IsSome result → (text : List Bool) × Passes reader.old reader.new text }
    ensures read { IfSome result (λ first. (width : ℕ) (octets : List ℕ) (rows : List Elements)
        → IsReadUpTo coding width octets rows tag reader.old.left
        → ReadSoFar coding width octets rows 0 first reader.new.left) }
    ensures none { IsNone result → tag ≡ None }
    ensures no_eol { IsNone result → HoldsNoTaggedEol coding reader.old.left }
{
    match tag {
        Some(first) => Some(first),
        None => pass_front(reader, coding),
    }
}

/// Why no row is read after a separator.
#[derive(Clone, Copy)]
pub(super) enum Stop {
    /// No EOL stands ahead.
    NoEols,
    /// No line begins.
    NoLine,
    /// A line begins, and no row can be read, at least where no more octets come.
    Fault(PageFault),
}

/// Where no further row of a piece is read: after this tag, and why.
#[derive(Clone, Copy)]
pub(super) struct Halt {
    pub(super) tag: bool,
    pub(super) stop: Stop,
}

/// Reads the rows after this tag of which the lines and the separators are whole, up to this place.
fn read_rows_on<S: RowStore>(
    alloc: Global,
    rows: &mut S,
    reader: &mut BitReader,
    width: Width,
    coding: Coding,
    first: bool,
    end: u128,
) -> Result<Halt, NoMemory>
    requires few { length (S.rows rows.old) ≤ most_rows }
    requires each { All (λ row. length row ≡ elements_of width) (S.rows rows.old) }
    ensures same { (more : List Elements) × (S.rows rows.new ≡ S.rows rows.old ++ more) }
    ensures few { length (S.rows rows.new) ≤ most_rows }
    ensures each { All (λ row. length row ≡ elements_of width) (S.rows rows.new) }
    ensures read { IfOk result (λ halt. (octets : List ℕ)
        → ReadSoFar coding (elements_of width) octets (S.rows rows.old) 0 first reader.old.left
        → ReadSoFar coding
        (elements_of width) octets (S.rows rows.new) 0 halt.tag reader.new.left) }
    ensures passes { OnOk result ((text : List Bool) × Passes reader.old reader.new text) }
    ensures stops { IfOk result (λ halt. (fault : PageFault) → halt.stop ≡ Stop.Fault fault
        → Stops coding (elements_of width) (S.rows rows.new) 0 halt.tag reader.new.left fault) }
    ensures no_line { IfOk result
        (λ halt. halt.stop ≡ Stop.NoLine → LineBegins reader.new.left → ⊥) }
    ensures no_eol { IfOk result (λ halt. halt.stop ≡ Stop.NoEols → end ≤ reader.new.passed) }
{
    // the row before, where the next line is two-dimensional
    let mut kept = RowBuilder::new(alloc)?;
    keep_last(&mut kept, rows, width, first);
    let mut spare = None;
    let mut tag = first;
    loop {
        match read_next(
            alloc, rows, &mut kept, &mut spare, reader, width, coding, tag, end,
        )? {
            Ok(next) => tag = next,
            Err(stop) => return Ok(Halt { tag, stop }),
        }
    }
}

/// Reads the next row after this tag, and the separator after it, where an EOL stands before this place, and answers the
/// separator's tag. The last row is kept where that is 0. Where none is read the reader stays.
fn read_next<S: RowStore>(
    alloc: Global,
    rows: &mut S,
    kept: &mut RowBuilder,
    spare: &mut Option<RowBuilder>,
    reader: &mut BitReader,
    width: Width,
    coding: Coding,
    tag: bool,
    end: u128,
) -> Result<Result<bool, Stop>, NoMemory>
    requires few { length (S.rows rows.old) ≤ most_rows }
    requires each { All (λ row. length row ≡ elements_of width) (S.rows rows.old) }
    requires kept { tag ≡ false
        → 0 < length (S.rows rows.old) → last_of (S.rows rows.old) ≡ Some kept.old }
    ensures row { (next : Bool)
        → result ≡ Ok (Ok next) → ReadsOne coding (elements_of width) tag next (S.rows rows.old)
        (S.rows rows.new) reader.old reader.new }
    ensures room { (next : Bool) → result ≡ Ok (Ok next) → length (S.rows rows.old) < most_rows }
    ensures kept { (next : Bool)
        → result ≡ Ok (Ok next) → next ≡ false → last_of (S.rows rows.new) ≡ Some kept.new }
    ensures no_line { result ≡ Ok (Err Stop.NoLine) → LineBegins reader.old.left → ⊥ }
    ensures no_eol { result ≡ Ok (Err Stop.NoEols) → end ≤ reader.old.passed }
    ensures fault { (fault : PageFault) → result ≡ Ok (Err (Stop.Fault fault))
        → Stops coding (elements_of width) (S.rows rows.old) 0 tag reader.old.left fault }
    ensures stays { (stop : Stop) → result ≡ Ok (Err stop)
        → (S.rows rows.new ≡ S.rows rows.old) × (reader.new ≡ reader.old) }
    ensures err { OnErr result (S.rows rows.new ≡ S.rows rows.old) }
{
    if reader.place() >= end {
        return Ok(Err(Stop::NoEols));
    }
    let Some(window) = line_ahead(reader) else {
        return Ok(Err(Stop::NoLine));
    };
    let n = rows.len();
    if n == MOST_ROWS {
        return Ok(Err(Stop::Fault(PageFault::TooManyRows)));
    }
    if let Some(next) = pass_white_row(kept, reader, window, width, coding, tag, n) {
        rows.push_lent(&kept.lend())?;
        return Ok(Ok(next));
    }
    let mut ahead = reader.copy();
    match read_over(alloc, kept, spare, &mut ahead, width, coding, tag, n)? {
        Ok(next) => {
            rows.push_lent(&kept.lend())?;
            *reader = ahead;
            Ok(Ok(next))
        }
        Err(fault) => Ok(Err(Stop::Fault(fault))),
    }
}

/// Reads the line after n rows and this tag in place of the last of the rows, which is kept where the tag is 0, passes the
/// separator after the line, and answers its tag. A two-dimensional line is read beside the row before it, whose builder is
/// spare then. An `Err` leaves the reader.
fn read_over(
    alloc: Global,
    kept: &mut RowBuilder,
    spare: &mut Option<RowBuilder>,
    reader: &mut BitReader,
    width: Width,
    coding: Coding,
    tag: bool,
    n: u32,
) -> Result<Result<bool, PageFault>, NoMemory>
    requires { tag ≡ false → 0 < n → IsWidth (length kept.old) }
    ensures ok { (next : Bool) → result ≡ Ok (Ok next) → (text separator : List Bool)
        × SpellsRow (elements_of width) tag (row_before n kept.old) text kept.new
        × IsSeparator coding next separator × Passes reader.old reader.new (text ++ separator) }
    ensures fault { (fault : PageFault)
        → result ≡ Ok (Err fault) → (rows : List Elements) → length rows ≡ n
        → (tag ≡ false → row_before n kept.old ≡ last_of rows) → WantsLine rows 0 reader.old.left
        → Stops coding (elements_of width) rows 0 tag reader.old.left fault }
{
    if tag {
        return Ok(read_row_alone(kept, reader, width, coding, n));
    }
    let mut line = match spare.take() {
        Some(line) => line,
        None => RowBuilder::new(alloc)?,
    };
    let read = read_row(&mut line, reader, width, coding, tag, kept, n);
    mem::swap(&mut line, kept);
    *spare = Some(line);
    Ok(read)
}

/// Keeps the last of rows, if there is one, where this tag says that the next line is two-dimensional.
fn keep_last<S: RowStore>(kept: &mut RowBuilder, rows: &S, width: Width, tag: bool)
    requires { All (λ row. length row ≡ elements_of width) (S.rows rows.now) }
    ensures { tag ≡ false
        → 0 < length (S.rows rows.now) → last_of (S.rows rows.now) ≡ Some kept.new }
{
    let count = rows.len();
    if !tag && count > 0 {
        let last = rows.lend(count - 1);
        kept.clear();
        kept.paint(Colour::White, width.elements());
        kept.turn_at_all(last.changes());
    }
}
