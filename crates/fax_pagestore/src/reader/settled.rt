//! What octets are whatever follows them.
ghost use Rattle.std.specs.Prelude.{ℕ, Bool, List, ◌≡◌, ◌≢◌, ◌<◌, ◌≤◌, ◌++◌, Some, All, length, IfSome, IsTrue, IsNone, false};
ghost use Rattle.fax_runcodes.specs.Rows.{Elements};
ghost use Rattle.fax_runcodes.specs.Widths.{elements_of};
ghost use Rattle.fax_pagestore.specs.PageRows.{most_rows};
ghost use Rattle.fax_pagestore.specs.PageTexts.{ReadSoFar};
ghost use Rattle.fax_pagestore.specs.PageFaults.{FailsPage, LineBegins, Stops, WantsLine};
ghost use Rattle.fax_pagestore.specs.Readers.{AreJudged, fault_of};

use super::judging::pass_line;
use super::rows::{Halt, Stop};
use crate::reading::{Ahead, Ending, pass_return_to_control, pass_separator};
use crate::{Coding, PageFault, RowStore};
use fax_bits::BitReader;
use fax_runcodes::Width;

/// What octets are, whatever follows them.
#[derive(Clone, Copy)]
pub(super) enum Settled {
    /// A page, since its end was read.
    Page,
    /// No page, for this fault, which no octets mend.
    NoPage(PageFault),
}

impl Settled {
    /// Why the octets are no page, if they are none.
    pub fn fault(self) -> Option<PageFault>
        ensures { result ≡ fault_of self }
    {
        match self {
            Settled::Page => None,
            Settled::NoPage(fault) => Some(fault),
        }
    }
}

/// What octets are whatever follows them, where that is settled at the end of what is read of them. The reader
/// stands anywhere then.
pub(super) fn settle<S: RowStore>(
    rows: &S,
    reader: &mut BitReader,
    width: Width,
    coding: Coding,
    halt: &Halt,
) -> Option<Settled>
    requires few { length (S.rows rows.now) ≤ most_rows }
    requires each { All (λ row. length row ≡ elements_of width) (S.rows rows.now) }
    requires no_line { halt.now.stop ≡ Stop.NoLine → LineBegins reader.old.left → ⊥ }
    requires stops { (fault : PageFault) → halt.now.stop ≡ Stop.Fault fault
        → Stops coding (elements_of width) (S.rows rows.now) 0 halt.now.tag reader.old.left fault }
    ensures settled { IfSome result (λ what. (octets more : List ℕ)
        → ReadSoFar coding (elements_of width) octets (S.rows rows.now)
        0 halt.now.tag reader.old.left → AreJudged coding (elements_of width) (octets
        ++ more) (S.rows rows.now) (fault_of what)) }
    ensures some { result ≡ Some Settled.Page → 0 < length (S.rows rows.now) }
    ensures open { IsNone result → halt.now.stop ≢ Stop.Fault PageFault.TooManyRows }
{
    match halt.stop {
        Stop::NoEols => None,
        Stop::NoLine => pass_end(reader, coding, halt.tag, rows.len()),
        Stop::Fault(fault) if stays(rows, reader, width, coding, halt.tag, fault) => {
            Some(Settled::NoPage(fault))
        }
        Stop::Fault(_) => None,
    }
}

/// Whether a fault that is met after this tag stays, whatever follows.
fn stays<S: RowStore>(
    rows: &S,
    reader: &mut BitReader,
    width: Width,
    coding: Coding,
    tag: bool,
    fault: PageFault,
) -> bool
    requires each { All (λ row. length row ≡ elements_of width) (S.rows rows.now) }
    requires stops { Stops coding (elements_of width)
        (S.rows rows.now) 0 tag reader.old.left fault }
    ensures stays { IsTrue result → (more : List Bool)
        → Stops coding (elements_of width) (S.rows rows.now) 0 tag (reader.old.left
        ++ more) fault }
    ensures many { result ≡ false → fault ≢ PageFault.TooManyRows }
{
    match fault {
        PageFault::TooManyRows => true,
        PageFault::BadLine(_) => stays_bad(rows, reader, width, coding, tag),
        _ => false,
    }
}

/// Whether the line after this tag, or what comes after it before 11 zeros, is bad whatever follows.
fn stays_bad<S: RowStore>(
    rows: &S,
    reader: &mut BitReader,
    width: Width,
    coding: Coding,
    tag: bool,
) -> bool
    requires each { All (λ row. length row ≡ elements_of width) (S.rows rows.now) }
    requires wants { WantsLine (S.rows rows.now) 0 reader.old.left }
    ensures { IsTrue result → (more : List Bool)
        → Stops coding (elements_of width) (S.rows rows.now) 0 tag (reader.old.left
        ++ more) (PageFault.BadLine (length (S.rows rows.now))) }
{
    match pass_line(rows, reader, width, tag) {
        Ending::Whole => match pass_separator(reader, coding) {
            Ok(Ahead::Line) => true,
            // an EOL that is not whole may become so
            _ => false,
        },
        Ending::Broken => true,
        Ending::BreaksOff => false,
    }
}

/// Passes the end of a page after this tag and so many rows, and tells what the octets are; `None` where an EOL
/// is not whole.
pub(super) fn pass_end(
    reader: &mut BitReader,
    coding: Coding,
    tag: bool,
    count: u32,
) -> Option<Settled>
    requires no_line { LineBegins reader.old.left → ⊥ }
    ensures settled { IfSome result
        (λ what. (width : ℕ) (octets more : List ℕ) (rows : List Elements) → count ≡ length rows
        → length rows ≤ most_rows → ReadSoFar coding width octets rows 0 tag reader.old.left
        → AreJudged coding width (octets ++ more) rows (fault_of what)) }
    ensures some { result ≡ Some Settled.Page → 0 < count }
    ensures none { IsNone result
        → (width : ℕ) (octets : List ℕ) (rows : List Elements) → count ≡ length rows
        → length rows ≤ most_rows → ReadSoFar coding width octets rows 0 tag reader.old.left
        → FailsPage width coding octets PageFault.NoRtc }
{
    match pass_return_to_control(reader, coding, tag) {
        Ending::Whole if count == 0 => Some(Settled::NoPage(PageFault::Empty)),
        Ending::Whole => Some(Settled::Page),
        Ending::Broken => Some(Settled::NoPage(PageFault::NoRtc)),
        Ending::BreaksOff => None,
    }
}
