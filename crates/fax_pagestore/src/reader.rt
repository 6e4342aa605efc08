//! Pages read as their octets come.
ghost use Rattle.std.specs.Prelude.{ℕ, List, [], ◌≡◌, ◌<◌, ◌≤◌, ◌+◌, ◌*◌, ◌/◌, ◌^◌, ◌++◌, drop, take, length, replicate, is_some, IfOk, IfErr, OnOk, OnErr, IsSome, IsNone, IsOk, Ok, Err};
ghost use Rattle.fax_runcodes.specs.Rows.{Elements};
ghost use Rattle.fax_runcodes.specs.Widths.{elements_of};
ghost use Rattle.fax_pagestore.specs.Pages.{PageValue};
ghost use Rattle.fax_pagestore.specs.PageTexts.{MeansRows, MeansPage};
ghost use Rattle.fax_pagestore.specs.PageFaults.{FailsPage};
ghost use Rattle.fax_pagestore.specs.Octets.{octets_of_reader};
ghost use Rattle.fax_pagestore.specs.Readers.{AreJudged};

mod fill;
mod judging;
mod line;
mod mark;
mod rows;
mod settled;

use crate::ends::after_eols;
use crate::{Coding, Format, Page, PageFault, RowStore};
use fax_bits::NoMemory;
use fill::append;
use judging::judge;
use line::{MOST_KEPT, keep_unread};
pub use mark::Mark;
use rows::{read_up_to, unread_from};
use settled::Settled;
use std::alloc::Global;
use std::marker::Model;
use std::mem;

/// Reads a page whose octets come in pieces, as [`crate::read_page`] reads them at once. It keeps the rows
/// that are read, and the octets after the last separator, until it is settled what they all are; before the
/// first EOL two octets at most, and no octet of zeros after four others, since the zeros of fill mean nothing by
/// their number (ITU-T T.4, 4.1.3). A line is read once the EOL after it is there, and room for lines is taken only while some
/// are read. Of a long line in one dimension, which may have any number of empty runs, the runs so far are written anew, so
/// that at most 8,192 octets are kept.
pub struct PageReader<S: RowStore> {
    format: Format,
    coding: Coding,
    rows: S,
    /// The octets from the one on in which the first bit stands that is not used, and how many bits of it
    /// were used.
    octets: Vec<u8>,
    used: u32,
    /// The tag of the last separator, and none before the first EOL.
    tag: Option<bool>,
    /// How many octets of zeros came last, of which four are counted and kept.
    zeros: u32,
    /// What the octets are, where that stays so whatever follows.
    settled: Option<Settled>,
}

impl<S: RowStore> Drop for PageReader<S> {
    fn drop(self) {
        let PageReader {
            format: _format,
            coding: _coding,
            rows: _rows,
            octets: _octets,
            used: _used,
            tag: _tag,
            zeros: _zeros,
            settled: _settled,
        } = self;
    }
}

impl<S: RowStore> Model for PageReader<S> {
    ghost use Rattle.std.specs.Prelude.{◌≡◌, ◌<◌, ◌≤◌, ◌*◌, All, Some, drop, length};
    ghost use Rattle.fax_bits.specs.Bits.{bits_of};
    ghost use Rattle.fax_runcodes.specs.Widths.{elements_of};
    ghost use Rattle.fax_pagestore.specs.declared.reader.settled.Settled.TheVariants.{Page};
    ghost use Rattle.fax_pagestore.specs.PageRows.{most_rows};
    ghost use Rattle.fax_pagestore.specs.Readers.{ReaderValue, most_octets};

    ghost Value = { ReaderValue };

    ghost view = { λ r.
        record {
          format = r.format;
          coding = r.coding;
          rows = S.rows r.rows;
          tag = r.tag;
          left = drop r.used (bits_of r.octets.items);
          zeros = r.zeros;
          settled = r.settled;
        } };

    ghost invariant = { λ r. (r.used ≤ 8 * length r.octets.items)
        × (length (S.rows r.rows) ≤ most_rows)
        × All (λ row. length row ≡ elements_of r.format.width) (S.rows r.rows)
        × (r.settled ≡ Some Page → 0 < length (S.rows r.rows))
        × (r.used < 8) × (length r.octets.items ≤ most_octets) };
}

impl<S: RowStore> PageReader<S> {
    ghost use Rattle.fax_pagestore.specs.Readers.{HasRead, AreJudged, new_reader, mark_of, reader_at, most_kept, most_octets};

    /// A reader to which nothing came. It takes no memory.
    pub fn new(alloc: Global, format: Format, coding: Coding) -> Self
        ensures value { result ≡ new_reader format coding }
        ensures read { HasRead [] result }
    {
        PageReader {
            format,
            coding,
            rows: S::empty(alloc),
            octets: Vec::new(alloc),
            used: 0,
            tag: None,
            zeros: 0,
            settled: None,
        }
    }

    /// Takes the next octets, and reads each row of which the line and the separator are there. After the end
    /// of a page, and after a fault that no octets mend, it takes nothing and no memory. An `Err` is that of
    /// memory, and changes nothing.
    pub fn feed(&mut self, piece: &[u8]) -> Result<(), PageFault>
        ensures read { OnOk result ((octets : List ℕ)
            → HasRead octets self.old → HasRead (octets ++ piece.now) self.new) }
        ensures rows { OnOk result ((more : List Elements)
            × (self.new.rows ≡ self.old.rows ++ more)) }
        ensures same { OnOk result ((self.new.format ≡ self.old.format)
            × (self.new.coding ≡ self.old.coding)) }
        ensures settled { IsSome self.old.settled → IsOk result × (self.new ≡ self.old) }
        ensures fault { IfErr result (λ fault. fault ≡ PageFault.NoMemory) }
        ensures err { OnErr result (self.new ≡ self.old) }

        // What is kept beside the rows is bounded, and while only fill comes it does not grow.
        ensures kept { OnOk result (length self.new.left ≤ 8 * most_octets) }
        ensures fill { OnOk result ((n : ℕ)
            → piece.now ≡ replicate n 0 → most_kept self.new ≤ most_kept self.old) }
    {
        if self.settled.is_some() {
            return Ok(());
        }
        let (alloc, len, count) = (*self.octets.allocator(), self.octets.len(), self.rows.len());
        let zeros = append(&mut self.octets, self.zeros, piece)?;
        // an EOL that ends in the piece begins at most two octets before it
        let from = len.saturating_sub(2);
        let end = after_eols(self.octets.as_slice(), from);
        if self.octets.len() <= MOST_KEPT && self.tag.is_some() && end == from {
            self.zeros = zeros;
            return Ok(());
        }
        let Ok(reached) = read_up_to(
            alloc,
            &mut self.rows,
            self.octets.as_slice(),
            unread_from(self.octets.as_slice(), self.used, self.tag),
            self.format.width,
            self.coding,
            self.tag,
            end,
        ) else {
            self.octets.truncate(len);
            self.rows.cut(count);
            return Err(PageFault::NoMemory);
        };
        let Ok(passed) = keep_unread(alloc, &mut self.octets, reached, self.format.width) else {
            take_back(&mut self.rows, count, &mut self.octets, len);
            return Err(PageFault::NoMemory);
        };
        self.used = passed;
        self.tag = reached.tag;
        self.zeros = zeros;
        self.settled = reached.settled;
        Ok(())
    }

    /// Whether it is settled what the octets are, whatever follows them.
    pub fn is_settled(&self) -> bool
        ensures { result ≡ is_some self.now.settled }
    {
        self.settled.is_some()
    }

    /// How many octets are kept beside the rows: those in which the bits stand that are not read.
    pub fn pending(&self) -> usize
        ensures octets { result ≡ (length self.now.left + 7) / 8 }
        ensures few { result ≤ most_octets }
    {
        self.octets.len()
    }

    /// How many octets it holds in memory: those of its rows, as [`RowStore::held`] says it, and those that are kept beside
    /// them, as far as their lengths say. It takes no memory.
    pub fn held(&self) -> u64
        ensures octets { result ≡ octets_of_reader self.now }
        ensures few { result < 2 ^ 29 }
    {
        self.rows.held() + self.pending() as u64
    }

    /// Why the octets so far are no page, if they are none. It takes no memory.
    fn fault(&self) -> Option<PageFault>
        ensures judged { (octets : List ℕ) → HasRead octets self.now → AreJudged self.now.coding
            (elements_of self.now.format.width) octets self.now.rows result }
        ensures some { IsNone result → 0 < length self.now.rows }
    {
        match self.settled {
            Some(settled) => settled.fault(),
            None => judge(
                &self.rows,
                self.octets.as_slice(),
                self.used,
                self.format.width,
                self.coding,
                self.tag,
            ),
        }
    }

    /// What [`PageReader::finish`] would answer, without the page. It takes no memory. A line that is not whole
    /// is looked at anew by each call.
    pub fn check(&self) -> Result<(), PageFault>
        ensures ok { OnOk result ((octets : List ℕ) → HasRead octets self.now
            → MeansRows (elements_of self.now.format.width) self.now.coding octets self.now.rows) }
        ensures fault { IfErr result (λ fault. (octets : List ℕ) → HasRead octets self.now
            → FailsPage (elements_of self.now.format.width) self.now.coding octets fault) }

        // So octets that mean a page are judged so, and a fault comes wherever it is met.
        ensures reads { (octets : List ℕ) (page : PageValue) → HasRead octets self.now
            → MeansPage self.now.format self.now.coding octets page → IsOk result }
        ensures fails { (octets : List ℕ) (fault : PageFault) → HasRead octets self.now
            → FailsPage (elements_of self.now.format.width) self.now.coding octets fault
            → result ≡ Err fault }
    {
        match self.fault() {
            None => Ok(()),
            Some(fault) => Err(fault),
        }
    }

    /// The page that all octets so far mean. The reader is then as a new one. It takes no memory.
    pub fn finish(&mut self) -> Result<Page<S>, PageFault>
        ensures ok { IfOk result (λ page. (octets : List ℕ)
            → HasRead octets self.old → MeansPage self.old.format self.old.coding octets page) }
        ensures fault { IfErr result (λ fault. (octets : List ℕ) → HasRead octets self.old
            → FailsPage (elements_of self.old.format.width) self.old.coding octets fault) }
        ensures new { self.new ≡ new_reader self.old.format self.old.coding }
        ensures rows { IfOk result (λ page. page.rows ≡ self.old.rows) }

        // So octets that mean a page are read, and a fault comes wherever it is met.
        ensures reads { (octets : List ℕ) (page : PageValue) → HasRead octets self.old
            → MeansPage self.old.format self.old.coding octets page → result ≡ Ok page }
        ensures fails { (octets : List ℕ) (fault : PageFault) → HasRead octets self.old
            → FailsPage (elements_of self.old.format.width) self.old.coding octets fault
            → result ≡ Err fault }
    {
        let fault = self.fault();
        let format = self.format;
        let fresh = PageReader::new(*self.octets.allocator(), format, self.coding);
        let rows = mem::replace(self, fresh).into_rows();
        match fault {
            None => Ok(Page::new(format, rows)),
            Some(fault) => Err(fault),
        }
    }

    /// The rows that are read.
    fn into_rows(self) -> S
        ensures { S.rows result ≡ self.rows }
    {
        let PageReader {
            format: _format,
            coding: _coding,
            rows,
            octets: _octets,
            used: _used,
            tag: _tag,
            zeros: _zeros,
            settled: _settled,
        } = self;
        rows
    }

    /// A mark of what came so far.
    pub fn mark(&self) -> Result<Mark, NoMemory>
        ensures { IfOk result (λ mark. mark ≡ mark_of self.now) }
    {
        Ok(Mark {
            format: self.format,
            coding: self.coding,
            count: self.rows.len(),
            octets: Vec::from_slice(*self.octets.allocator(), self.octets.as_slice())?,
            used: self.used,
            tag: self.tag,
            zeros: self.zeros,
            settled: self.settled,
        })
    }

    /// Goes back to a mark, whose rows are the first of those here. It takes no memory.
    pub fn back(&mut self, mark: Mark)
        requires format { mark.format ≡ self.old.format }
        requires coding { mark.coding ≡ self.old.coding }
        requires rows { mark.count ≤ length self.old.rows }
        ensures { self.new ≡ reader_at mark self.old.rows }
    {
        let Mark {
            count,
            octets,
            used,
            tag,
            zeros,
            settled,
            ..
        } = mark;
        self.rows.cut(count);
        self.octets = octets;
        self.used = used;
        self.tag = tag;
        self.zeros = zeros;
        self.settled = settled;
    }
}

/// Takes back what a piece added: the rows after so many, and the octets after so many.
fn take_back<S: RowStore>(rows: &mut S, count: u32, octets: &mut Vec<u8>, len: usize)
    requires { count ≤ length (S.rows rows.old) }
    ensures rows { S.rows rows.new ≡ take count (S.rows rows.old) }
    ensures octets { octets.new.items ≡ take len octets.old.items }
{
    rows.cut(count);
    octets.truncate(len);
}
