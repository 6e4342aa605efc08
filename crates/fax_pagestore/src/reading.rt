//! Pages read from their texts.
ghost use Rattle.std.specs.Prelude.{◌≡◌, ◌≢◌, ◌<◌, ◌≤◌, ◌⊎◌, ◌++◌, ◌↔◌, ℕ, Bool, List, [], length, IfOk, IfErr, IfSome, IsSome, IsNone, None, Some, OnOk, Ok, Err, IsTrue, true, false, ◌∷◌, replicate, take};
ghost use Rattle.fax_bits.specs.Bits.{word_bits};
ghost use Rattle.fax_bits.specs.Reading.{Passes, padded};
ghost use Rattle.fax_runcodes.specs.declared.format.Coding.{Coding};
ghost use Rattle.fax_runcodes.specs.Rows.{Elements, IsWidth};
ghost use Rattle.fax_runcodes.specs.Widths.{elements_of};
ghost use Rattle.fax_pagestore.specs.declared.fault.PageFault.{PageFault};
ghost use Rattle.fax_pagestore.specs.Pages.{PageValue};
ghost use Rattle.fax_pagestore.specs.PageTexts.{IsTag, IsFront, IsSeparator, InARow, SpellsRow, ReadSoFar, MeansRows, MeansPage};
ghost use Rattle.fax_pagestore.specs.Ends.{HoldsNoTaggedEol};
ghost use Rattle.fax_pagestore.specs.PageFaults.{RunsOut, LineBegins, BreaksReturn, BreaksOff, StopsInReturn, FailsRow, WantsLine, Stops, FailsAfterFront, HasNoEol, FailsPage, last_of, row_before};

use crate::ends::bits_before_eol;
use crate::white::pass_white_row;
use crate::{Coding, Format, Page, PageFault, RowStore};
use fax_bits::BitReader;
use fax_mhcode::read_line_1d_into;
use fax_mrcode::read_line_2d_into;
use fax_runcodes::{RowBuilder, Width};
use std::alloc::Global;
use std::mem;

/// The most rows of a page (this project's profile).
pub const MOST_ROWS: u32 = 65_535;

/// The fewest zeros before the 1 of an EOL (ITU-T T.4, 4.1.2).
pub(crate) const EOL_ZEROS: u32 = 11;

/// The bits of a reader's window.
pub(crate) const WINDOW_BITS: u32 = 56;

/// The EOLs of a return to control after its first (ITU-T T.4, 4.1.4 and 4.2.4).
const FURTHER_EOLS: u32 = 5;

/// Reads the page that octets mean.
pub fn read_page<S: RowStore>(
    alloc: Global,
    octets: &[u8],
    format: Format,
    coding: Coding,
) -> Result<Page<S>, PageFault>
    ensures ok { IfOk result (λ page. MeansPage format coding octets.now page) }
    ensures fault { IfErr result (λ fault. fault ≢ PageFault.NoMemory
        → FailsPage (elements_of format.width) coding octets.now fault) }

    // Memory aside, octets that mean a page are read, and a fault comes wherever it is met.
    ensures reads { (page : PageValue) → MeansPage format coding octets.now page
        → (result ≡ Ok page) ⊎ (result ≡ Err PageFault.NoMemory) }
    ensures fails { (fault : PageFault)
        → FailsPage (elements_of format.width) coding octets.now fault
        → (result ≡ Err fault) ⊎ (result ≡ Err PageFault.NoMemory) }

    // That there is no EOL is told before memory is taken.
    ensures no_eol { HasNoEol coding octets.now → result ≡ Err PageFault.NoEol }
{
    let mut reader = BitReader::new(octets);
    reader.skip(bits_before_eol(octets));
    let Some(tag) = pass_front(&mut reader, coding) else {
        return Err(PageFault::NoEol);
    };
    let rows = read_rows(alloc, &mut reader, format.width, coding, tag)?;
    Ok(Page::new(format, rows))
}

/// Passes the tag after an EOL, and answers it: `true` for a one-dimensional line, `false` for a
/// two-dimensional one (ITU-T T.4, 4.2.2). One-dimensional coding has no tag bit, and each of its lines
/// counts as tagged 1. `None` says that the tag bit is missing.
#[inline]
fn pass_tag(reader: &mut BitReader, coding: Coding) -> Option<bool>
    ensures found { IfSome result
        (λ tag. (text : List Bool) × IsTag coding tag text × Passes reader.old reader.new text) }
    ensures none { IsNone result → (coding ≡ Coding.Mr) × (reader.old.left ≡ []) }
{
    match coding {
        Coding::Mh => Some(true),
        Coding::Mr => {
            let tag = next_bit(reader)?;
            reader.skip(1);
            Some(tag == 1)
        }
    }
}

/// The next bit as a number, or `None` where none is left.
#[inline]
fn next_bit(reader: &BitReader) -> Option<u64>
    ensures found { IsSome result ↔ (1 ≤ length reader.now.left) }
    ensures bit { IfSome result (λ bit. word_bits 1 bit ≡ take 1 reader.now.left) }
    ensures word { IfSome result (λ bit. bit < 2) }
{
    let bit = reader.window() >> (WINDOW_BITS - 1);
    reader.has(1).then_some(bit)
}

/// Passes any bits up to the first EOL, the EOL and its tag, and answers the tag. `None` says that there
/// is no EOL with its tag.
pub(crate) fn pass_front(reader: &mut BitReader, coding: Coding) -> Option<bool>
    ensures found { IfSome result (λ tag. (front : List Bool)
        × IsFront coding tag front × Passes reader.old reader.new front) }
    ensures none { IsNone result → HoldsNoTaggedEol coding reader.old.left }
{
    loop {
        let zeros = reader.skip_zeros();
        if !reader.has(1) {
            return None;
        }
        reader.skip(1);
        if zeros >= u128::from(EOL_ZEROS) {
            return pass_tag(reader, coding);
        }
    }
}

/// What stands after a separator or a line.
#[derive(Clone, Copy)]
pub(crate) enum Ahead {
    /// Fill and an EOL, that is at least 11 zeros and a 1, and this tag after them (ITU-T T.4, 4.1.2,
    /// 4.1.3 and 4.2.2).
    Separator(bool),
    /// A line, or at least no separator: a 1 comes before 11 zeros.
    Line,
}

/// How many zeros stand before the first 1 of a reader's window, which has zeros past the end; 56 where
/// there is no 1 in it.
#[inline]
fn zeros_in_window(reader: &BitReader) -> u32
    ensures one { result < 56
        → (rest : List Bool) × (reader.now.left ≡ replicate result false ++ true ∷ rest) }
    ensures none { 56 ≤ result → LineBegins reader.now.left → ⊥ }
{
    reader.window().leading_zeros() - (u64::BITS - WINDOW_BITS)
}

/// Passes a separator, or tells that a line begins. Where only zeros are left, or an EOL without its
/// tag, no return to control can follow.
#[inline(always)]
pub(crate) fn pass_separator(reader: &mut BitReader, coding: Coding) -> Result<Ahead, PageFault>
    ensures separator { (tag : Bool) → result ≡ Ok (Ahead.Separator tag)
        → (text : List Bool) × IsSeparator coding tag text × Passes reader.old reader.new text }
    ensures line { result ≡ Ok Ahead.Line → LineBegins reader.old.left }
    ensures fault { IfErr result
        (λ fault. (fault ≡ PageFault.NoRtc) × RunsOut coding reader.old.left) }
{
    let zeros = zeros_in_window(reader);
    if zeros < EOL_ZEROS {
        return Ok(Ahead::Line);
    }
    if zeros >= WINDOW_BITS {
        let tag = pass_filled_eol(reader, coding)?;
        return Ok(Ahead::Separator(tag));
    }
    reader.skip(zeros + 1);
    let tag = pass_tag(reader, coding).ok_or(PageFault::NoRtc)?;
    Ok(Ahead::Separator(tag))
}

/// Passes a separator that may have any number of zeros, and answers its tag.
#[cold]
fn pass_filled_eol(reader: &mut BitReader, coding: Coding) -> Result<bool, PageFault>
    requires { LineBegins reader.old.left → ⊥ }
    ensures ok { IfOk result (λ tag. (text : List Bool)
        × IsSeparator coding tag text × Passes reader.old reader.new text) }
    ensures fault { IfErr result
        (λ fault. (fault ≡ PageFault.NoRtc) × RunsOut coding reader.old.left) }
{
    reader.skip_zeros();
    if !reader.has(1) {
        return Err(PageFault::NoRtc);
    }
    reader.skip(1);
    pass_tag(reader, coding).ok_or(PageFault::NoRtc)
}

/// Whether a line begins: a 1 comes before 11 zeros.
#[inline]
pub(crate) fn line_begins(reader: &BitReader) -> bool
    ensures { IsTrue result ↔ LineBegins reader.now.left }
{
    zeros_in_window(reader) < EOL_ZEROS
}

/// The window of a reader, where a line begins there.
#[inline]
pub(crate) fn line_ahead(reader: &BitReader) -> Option<u64>
    ensures begins { IsSome result ↔ LineBegins reader.now.left }
    ensures window { IfSome result (λ window. word_bits 56 window ≡ padded 56 reader.now.left) }
{
    let window = reader.window();
    line_begins(reader).then_some(window)
}

/// How a line or a return to control ends that was to be passed.
#[derive(Clone, Copy)]
pub(crate) enum Ending {
    /// It was passed: a line with its last run, a return to control with its sixth EOL.
    Whole,
    /// It is none, whatever follows.
    Broken,
    /// It breaks off, in a code word or an EOL: it is none, at least where no more octets come.
    BreaksOff,
}

/// Passes the last five of the six EOLs that end a page, after the first and its tag. Each of the six
/// has tag 1 (ITU-T T.4, 4.1.4 and 4.2.4).
#[cold]
pub(crate) fn pass_return_to_control(reader: &mut BitReader, coding: Coding, first: bool) -> Ending
    requires { LineBegins reader.old.left → ⊥ }
    ensures whole { result ≡ Ending.Whole → (text : List Bool)
        × InARow coding first 5 text true × Passes reader.old reader.new text }
    ensures broken { result ≡ Ending.Broken
        → StopsInReturn coding first reader.old.left (BreaksReturn coding) }
    ensures breaks_off { result ≡ Ending.BreaksOff
        → StopsInReturn coding first reader.old.left (BreaksOff coding) }
{
    let mut tag = first;
    for _ in 0..FURTHER_EOLS {
        match pass_separator(reader, coding) {
            Ok(Ahead::Separator(next)) if tag => tag = next,
            Ok(_) => return Ending::Broken,
            // there is one fault here alone: the bits run out
            Err(_) => return Ending::BreaksOff,
        }
    }
    if tag { Ending::Whole } else { Ending::Broken }
}

/// Reads the line after n rows, of which the last is kept, into the builder, in place of what is there,
/// and answers whether it could be read. A two-dimensional line is read against the row before, and
/// without one it cannot be.
fn read_line(
    line: &mut RowBuilder,
    reader: &mut BitReader,
    width: Width,
    one_dimensional: bool,
    kept: &RowBuilder,
    n: u32,
) -> bool
    requires { one_dimensional ≡ false → 0 < n → IsWidth (length kept.now) }
    ensures read { IsTrue result → (text : List Bool)
        × SpellsRow (elements_of width) one_dimensional (row_before n kept.now) text line.new
        × Passes reader.old reader.new text }
    ensures fails { result ≡ false
        → FailsRow (elements_of width) one_dimensional (row_before n kept.now) reader.old.left }
{
    line.clear();
    if one_dimensional {
        return read_line_1d_into(line, reader, width).is_ok();
    }
    if n == 0 {
        return false;
    }
    read_line_2d_into(line, reader, &kept.lend()).is_ok()
}

/// Reads the line after n rows and this tag into the builder, in place of what is there, passes the
/// separator after the line, and answers its tag. Where the tag is 0 the last of the rows is kept.
#[inline(always)]
pub(crate) fn read_row(
    line: &mut RowBuilder,
    reader: &mut BitReader,
    width: Width,
    coding: Coding,
    tag: bool,
    kept: &RowBuilder,
    n: u32,
) -> Result<bool, PageFault>
    requires { tag ≡ false → 0 < n → IsWidth (length kept.now) }
    ensures ok { IfOk result (λ next. (text separator : List Bool)
        × SpellsRow (elements_of width) tag (row_before n kept.now) text line.new
        × IsSeparator coding next separator × Passes reader.old reader.new (text ++ separator)) }
    ensures fault { IfErr result (λ fault. (rows : List Elements) → length rows ≡ n
        → (tag ≡ false → row_before n kept.now ≡ last_of rows) → WantsLine rows 0 reader.old.left
        → Stops coding (elements_of width) rows 0 tag reader.old.left fault) }
{
    if !read_line(line, reader, width, tag, kept, n) {
        return Err(PageFault::BadLine(n));
    }
    match pass_separator(reader, coding)? {
        Ahead::Separator(next) => Ok(next),
        Ahead::Line => Err(PageFault::BadLine(n)),
    }
}

/// Reads the one-dimensional line after n rows into the builder, in place of what is there, passes the separator after
/// the line, and answers its tag.
#[inline]
pub(crate) fn read_row_alone(
    line: &mut RowBuilder,
    reader: &mut BitReader,
    width: Width,
    coding: Coding,
    n: u32,
) -> Result<bool, PageFault>
    ensures ok { IfOk result (λ next. (text separator : List Bool)
        × SpellsRow (elements_of width) true None text line.new
        × IsSeparator coding next separator × Passes reader.old reader.new (text ++ separator)) }
    ensures fault { IfErr result
        (λ fault. (rows : List Elements) → length rows ≡ n → WantsLine rows 0 reader.old.left
        → Stops coding (elements_of width) rows 0 true reader.old.left fault) }
{
    line.clear();
    if read_line_1d_into(line, reader, width).is_err() {
        return Err(PageFault::BadLine(n));
    }
    match pass_separator(reader, coding)? {
        Ahead::Separator(next) => Ok(next),
        Ahead::Line => Err(PageFault::BadLine(n)),
    }
}

/// Reads the lines of a page after its first EOL and the tag of that, and passes the return to control.
fn read_rows<S: RowStore>(
    alloc: Global,
    reader: &mut BitReader,
    width: Width,
    coding: Coding,
    first: bool,
) -> Result<S, PageFault>
    ensures ok { IfOk result (λ rows. (octets : List ℕ)
        → ReadSoFar coding (elements_of width) octets [] 0 first reader.old.left
        → MeansRows (elements_of width) coding octets (S.rows rows)) }
    ensures fault { IfErr result (λ fault. fault ≢ PageFault.NoMemory
        → (octets : List ℕ) → ReadSoFar coding (elements_of width) octets [] 0 first reader.old.left
        → FailsAfterFront coding (elements_of width) octets fault) }
{
    let mut rows = S::empty(alloc);
    let mut line = RowBuilder::new(alloc)?;
    // the row before, where the next line is two-dimensional
    let mut kept = RowBuilder::new(alloc)?;
    let mut tag = first;
    while let Some(window) = line_ahead(reader) {
        let n = rows.len();
        if n == MOST_ROWS {
            return Err(PageFault::TooManyRows);
        }
        if let Some(next) = pass_white_row(&mut kept, reader, window, width, coding, tag, n) {
            rows.push_lent(&kept.lend())?;
            tag = next;
            continue;
        }
        tag = read_row(&mut line, reader, width, coding, tag, &kept, n)?;
        rows.push_lent(&line.lend())?;
        if !tag {
            mem::swap(&mut line, &mut kept);
        }
    }
    match pass_return_to_control(reader, coding, tag) {
        Ending::Whole => {}
        Ending::Broken | Ending::BreaksOff => return Err(PageFault::NoRtc),
    }
    if rows.len() == 0 {
        return Err(PageFault::Empty);
    }
    Ok(rows)
}
