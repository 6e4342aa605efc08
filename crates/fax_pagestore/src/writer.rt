//! Pages written as their octets are due.
ghost use Rattle.std.specs.Prelude.{ℕ, List, Bool, false, [], ◌≡◌, ◌<◌, ◌≤◌, ◌+◌, ◌*◌, ◌⊎◌, ◌↔◌, ◌≢◌, ◌++◌, take, drop, length, IfOk, OnOk, OnErr, IsTrue};
ghost use Rattle.fax_bits.specs.Laws.{AreOctets};
ghost use Rattle.fax_bits.specs.Writing.{IsPadded};
ghost use Rattle.fax_pagestore.specs.Pages.{PageValue};
ghost use Rattle.fax_pagestore.specs.Writers.{IsTextOf, HasLeft, HasMore, WritesOn};

mod waiting;

use crate::writing::{
    FURTHER_ENDS, is_one_dimensional, write_end_of_line, write_ends_of_line, write_filled_line,
};
use crate::{Coding, Format, Page, RowStore};
use fax_bits::{BitWriter, NoMemory, Octets};
use std::alloc::Global;
use std::marker::Model;
use waiting::Waiting;

/// Up to where the text of a page is written.
#[derive(Clone, Copy)]
enum Place {
    /// Nothing is.
    Front,
    /// The first EOL is, and the lines of so many rows, each with its fill and the EOL after it.
    Row(u32),
    /// All of it is.
    End,
}

/// Writes the text of a page piece by piece, as [`crate::write_page`] writes it at once. It keeps a place in
/// the page, and what it has written of a line and not given yet.
pub struct PageWriter {
    format: Format,
    coding: Coding,
    least_bits: u32,
    place: Place,
    waiting: Waiting,
}

impl Drop for PageWriter {
    fn drop(self) {
        let PageWriter {
            format: _format,
            coding: _coding,
            least_bits: _least_bits,
            place: _place,
            waiting: _waiting,
        } = self;
    }
}

impl Model for PageWriter {
    ghost use Rattle.fax_pagestore.specs.Writers.{WriterValue};

    ghost Value = { WriterValue };

    ghost view = { λ w. record {
      format = w.format;
      coding = w.coding;
      least = w.least_bits;
      place = w.place;
      waiting = w.waiting;
    } };
}

impl PageWriter {
    /// A writer of a page of this format, of which nothing is given. The least number of bits is that of a
    /// line with its fill and its EOL.
    pub fn new(alloc: Global, format: Format, coding: Coding, least_bits: u32) -> Self
        ensures left { (page : PageValue) (octets : List ℕ) → page.format ≡ format
            → IsTextOf page coding least_bits octets → HasLeft page octets result }
        ensures more { HasMore result }
    {
        PageWriter {
            format,
            coding,
            least_bits,
            place: Place::Front,
            waiting: Waiting::none(alloc),
        }
    }

    /// The next n octets of the page's text, fewer at its end, and one at least where it has not ended. The page is the
    /// same each time: of another page nothing else is said. An `Err` changes nothing.
    pub fn next<S: RowStore>(&mut self, page: &Page<S>, n: usize) -> Result<Octets, NoMemory>
        ensures given { IfOk result (λ given. (octets : List ℕ)
            → HasLeft page.now octets self.old → given ≡ take n octets) }
        ensures left { OnOk result ((octets : List ℕ)
            → HasLeft page.now octets self.old → HasLeft page.now (drop n octets) self.new) }
        ensures few { IfOk result (λ given. length given ≤ n) }
        ensures some { IfOk result (λ given. 1 ≤ n → HasMore self.old → 1 ≤ length given) }
        ensures err { OnErr result (self.new ≡ self.old) }
    {
        let wanted = 8 * n as u128;
        if self.waiting.bits() < wanted {
            return self.write_and_give(page, n);
        }
        let given = self.waiting.front(n)?;
        self.waiting.pass(n);
        Ok(given)
    }

    /// Whether no octet of the text is left.
    pub fn ended(&self) -> bool
        ensures left { (page : PageValue) (octets : List ℕ)
            → HasLeft page octets self.now → IsTrue result ↔ (octets ≡ []) }
        ensures more { result ≡ false → HasMore self.now }
    {
        matches!(self.place, Place::End) && self.waiting.bits() == 0
    }

    /// Writes on until there are n octets to give, and gives them.
    fn write_and_give<S: RowStore>(&mut self, page: &Page<S>, n: usize) -> Result<Octets, NoMemory>
        ensures given { IfOk result (λ given. (octets : List ℕ)
            → HasLeft page.now octets self.old → given ≡ take n octets) }
        ensures left { OnOk result ((octets : List ℕ)
            → HasLeft page.now octets self.old → HasLeft page.now (drop n octets) self.new) }
        ensures few { IfOk result (λ given. length given ≤ n) }
        ensures some { IfOk result (λ given. 1 ≤ n → HasMore self.old → 1 ≤ length given) }
        ensures err { OnErr result (self.new ≡ self.old) }
    {
        let bits = self.waiting.bits();
        let mut writer = self.waiting.take().into_writer();
        let written = self.write_up_to(&mut writer, page, 8 * n as u128);
        let mut waiting = Waiting::of(writer);
        let Ok(place) = written else {
            self.keep(waiting, bits);
            return Err(NoMemory);
        };
        let Ok(given) = waiting.front(n) else {
            self.keep(waiting, bits);
            return Err(NoMemory);
        };
        waiting.pass(n);
        self.place = place;
        self.waiting = waiting;
        Ok(given)
    }

    /// Lets the first n of these bits wait, and no more. It takes no memory.
    fn keep(&mut self, mut waiting: Waiting, n: u128)
        requires { n ≤ length waiting }
        ensures { self.new ≡ record self.old { waiting = take n waiting } }
    {
        waiting.cut(n);
        self.waiting = waiting;
    }

    /// Writes on until the writer has so many bits or all is written, and answers the place.
    fn write_up_to<S: RowStore>(
        &self,
        writer: &mut BitWriter,
        page: &Page<S>,
        wanted: u128,
    ) -> Result<Place, NoMemory>
        ensures on { IfOk result (λ place. WritesOn self.now.coding
            self.now.least page.now self.now.place place writer.old writer.new) }
        ensures enough { IfOk result (λ place. (wanted ≤ length writer.new) ⊎ (place ≡ Place.End)) }
        ensures more { IfOk result (λ place. (self.now.place ≡ Place.End → writer.old ≢ [])
            → place ≡ Place.End → writer.new ≢ []) }
        ensures err { OnErr result ((bits : List Bool) × (writer.new ≡ writer.old ++ bits)) }
    {
        let mut place = self.place;
        while writer.bits() < wanted {
            if let Place::End = place {
                return Ok(place);
            }
            place = write_step(writer, page, self.coding, self.least_bits, place)?;
        }
        Ok(place)
    }
}

/// Writes the next part of a page's text: the first EOL, a line with its fill and EOL, or the last EOLs.
fn write_step<S: RowStore>(
    writer: &mut BitWriter,
    page: &Page<S>,
    coding: Coding,
    least_bits: u32,
    place: Place,
) -> Result<Place, NoMemory>
    ensures on { IfOk result
        (λ next. WritesOn coding least_bits page.now place next writer.old writer.new) }
    ensures more { OnOk result (place ≢ Place.End → length writer.old < length writer.new) }
    ensures err { OnErr result ((bits : List Bool) × (writer.new ≡ writer.old ++ bits)) }
{
    match place {
        Place::Front => {
            write_end_of_line(writer, coding, true)?;
            Ok(Place::Row(0))
        }
        Place::Row(n) => {
            if n < page.rows().len() {
                write_row(writer, page, coding, least_bits, n)?;
                Ok(Place::Row(n + 1))
            } else {
                write_ends_of_line(writer, coding, FURTHER_ENDS)?;
                Ok(Place::End)
            }
        }
        Place::End => Ok(Place::End),
    }
}

/// Writes the line of a row with its fill, and the EOL after it.
fn write_row<S: RowStore>(
    writer: &mut BitWriter,
    page: &Page<S>,
    coding: Coding,
    least_bits: u32,
    n: u32,
) -> Result<(), NoMemory>
    requires { n < length page.now.rows }
    ensures on { OnOk result (WritesOn coding least_bits page.now (Place.Row n)
        (Place.Row (n + 1)) writer.old writer.new) }
    ensures more { OnOk result (length writer.old < length writer.new) }
    ensures err { OnErr result ((bits : List Bool) × (writer.new ≡ writer.old ++ bits)) }
{
    let (rows, fine) = (page.rows(), page.format().fine);
    let (row, count) = (rows.lend(n), rows.len());
    let alone = is_one_dimensional(coding, fine, n);
    let mut reference = None;
    if !alone {
        reference = Some(rows.lend(n - 1));
    }
    write_filled_line(writer, reference.as_ref(), &row, least_bits)?;
    let next = n + 1;
    let tag = next == count || is_one_dimensional(coding, fine, next);
    write_end_of_line(writer, coding, tag)
}
