//! The images of a call: what is read of them, and their zero octets.
ghost use Rattle.std.specs.Prelude.{◌≡◌, ◌+◌, ◌-◌, ◌^◌, ◌++◌, ◌∷◌, ◌<◌, ◌≤◌, ℕ, List, [], Some, None, take, drop, get_or, length, IfOk, IfErr, OnOk, OnErr, IsTrue, is_some, if◌then◌else◌};
ghost use Rattle.fax_runcodes.specs.Widths.{elements_of};
ghost use Rattle.fax_frames.specs.Capabilities.{format_of, coding_of};
ghost use Rattle.fax_pagestore.specs.Pages.{PageValue};
ghost use Rattle.fax_pagestore.specs.PageTexts.{MeansPage};
ghost use Rattle.fax_pagestore.specs.PageFaults.{FailsPage};
ghost use Rattle.fax_pagestore.specs.Readers.{new_reader};
ghost use Rattle.fax_answer.specs.Images.{ImageValue, HasEnded, MeansAt, Feeds, GoesOn, IsMarkOf, longest_after, run_after, run_with};
ghost use Rattle.fax_answer.specs.Octets.{octets_confirmed, octets_of_readers};
ghost use Rattle.fax_answer.specs.Shown.{confirmed_shown};

use crate::step::Confirmed;
use fax_bits::NoMemory;
use fax_frames::Dcs;
use fax_pagestore::{Mark as ReaderMark, PageFault, PageReader, RowStore};
use std::alloc::Global;
use std::marker::Model;

/// How many readers are kept after a datagram at most.
const MOST_KEPT: usize = 2;

/// The images of a call. In Page each octet goes to a reader; else the runs of zero octets alone are counted.
#[derive(Drop)]
pub(crate) struct Image<S: RowStore> {
    /// The readers of images in Page, in the order in which these began; the last one is that of the image under way.
    readers: Vec<PageReader<S>>,
    /// The image of the page that an MCF confirms, while its reader still has the page.
    accepted: Option<Accepted>,
    zeros: Zeros,
}

/// An image whose page is confirmed: its place among the readers, and whether no page follows.
#[derive(Clone, Copy)]
pub(crate) struct Accepted {
    pub place: usize,
    pub closes: bool,
}

/// How many zero octets the image under way has, of which 65,535 are counted.
#[derive(Clone, Copy)]
struct Zeros {
    /// At its end.
    run: u16,
    /// In a row at most.
    longest: u16,
}

/// Where the images stood: what [`Image::back`] goes back to.
#[derive(Drop)]
pub(crate) struct Mark {
    count: usize,
    under_way: Option<ReaderMark>,
    accepted: Option<Accepted>,
    zeros: Zeros,
}

impl<S: RowStore> Model for Image<S> {
    ghost use Rattle.std.specs.Prelude.{reverse};
    ghost use Rattle.fax_answer.specs.Images.{ImageValue};

    ghost Value = { ImageValue };

    ghost view = { λ i. record {
      readers = reverse i.readers.items;
      accepted = i.accepted;
      run = i.zeros.run;
      longest = i.zeros.longest;
    } };
}

impl<S: RowStore> Image<S> {
    /// No image. It takes no memory.
    pub fn new(alloc: Global) -> Self
        ensures { result ≡ record { readers = []; accepted = None; run = 0; longest = 0 } }
    {
        Image {
            readers: Vec::new(alloc),
            accepted: None,
            zeros: Zeros { run: 0, longest: 0 },
        }
    }

    /// A signal begins, or one has ended: no octet came of what follows.
    pub fn restart(&mut self)
        ensures { self.new ≡ record self.old { run = 0; longest = 0 } }
    {
        self.zeros = Zeros { run: 0, longest: 0 };
    }

    /// In Page: what follows is read under this DCS. An `Err` changes nothing.
    pub fn begin(&mut self, dcs: Dcs) -> Result<(), NoMemory>
        ensures begun { OnOk result (self.new ≡ record self.old
            { readers = new_reader (format_of dcs) (coding_of dcs) ∷ self.old.readers }) }
        ensures err { OnErr result (self.new ≡ self.old) }
    {
        let alloc = *self.readers.allocator();
        let reader = PageReader::new(alloc, dcs.format(), dcs.coding());
        if self.readers.len() < MOST_KEPT {
            self.readers.reserve_exact(1)?;
        }
        self.readers.push(reader)?;
        Ok(())
    }

    /// More octets of the image under way come, in Page. An `Err` changes nothing.
    pub fn feed(&mut self, octets: &[u8]) -> Result<(), NoMemory>
        ensures fed { OnOk result (Feeds octets.now self.old.readers self.new.readers) }
        ensures rest { self.new ≡ record self.old { readers = self.new.readers } }
        ensures err { OnErr result (self.new ≡ self.old) }
    {
        let Some(mut under_way) = self.readers.pop() else {
            return Ok(());
        };
        let fed = under_way.feed(octets);
        self.readers.push_reserved(under_way);
        fed.map_err(|_| NoMemory)
    }

    /// Counts the zero octets of more octets of the image under way.
    pub fn count(&mut self, octets: &[u8])
        ensures { self.new ≡ record self.old {
          run = run_after self.old.run octets.now;
          longest = longest_after self.old.run self.old.longest octets.now;
        } }
    {
        self.zeros.count(octets);
    }

    /// How many zero octets the image under way has in a row at most.
    pub fn longest_run(&self) -> u16
        ensures { result ≡ self.now.longest }
    {
        self.zeros.longest
    }

    /// The place of the image before the one under way where it means a page, and else the fault that it meets. Where there is
    /// none, nothing was read, and so no EOL. It takes no memory.
    pub fn page_ended(&self) -> Result<usize, PageFault>
        ensures page { IfOk result
            (λ place. (dcs : Dcs) (octets : List ℕ) → HasEnded dcs octets self.now.readers
            → (page : PageValue) × MeansAt self.now.readers place page
            × MeansPage (format_of dcs) (coding_of dcs) octets page) }
        ensures fault { IfErr result
            (λ fault. (dcs : Dcs) (octets : List ℕ) → HasEnded dcs octets self.now.readers
            → FailsPage (elements_of (format_of dcs).width) (coding_of dcs) octets fault) }
    {
        let len = self.readers.len();
        if len < 2 {
            return Err(PageFault::NoEol);
        }
        let place = len - 2;
        match self.readers[place].check() {
            Ok(()) => Ok(place),
            Err(fault) => Err(fault),
        }
    }

    /// Notes the image of a page that an MCF confirms, where there is one.
    pub fn accept(&mut self, found: Option<Accepted>)
        ensures { self.new
            ≡ record self.old { accepted = if is_some found then found else self.old.accepted } }
    {
        if found.is_some() {
            self.accepted = found;
        }
    }

    /// The page that is accepted, out of its reader, which is let go. It takes no memory.
    pub fn finish(&mut self) -> Option<Confirmed<S>>
        ensures none { self.old.accepted ≡ None
            → (result ≡ None) × (self.new.readers ≡ self.old.readers) }
        ensures page { (accepted : Accepted) (page : PageValue) → self.old.accepted ≡ Some accepted
            → (at : MeansAt self.old.readers accepted.place page)
            → (confirmed_shown result ≡ Some (record { page = page; closes = accepted.closes }))
            × (self.new.readers ≡ at.under_way ∷ (at.later ++ at.before)) }
        ensures settled { self.new.accepted ≡ None }
        ensures run { self.new.run ≡ self.old.run }
        ensures longest { self.new.longest ≡ self.old.longest }
        ensures held { octets_of_readers self.new.readers
            + octets_confirmed (confirmed_shown result) ≤ octets_of_readers self.old.readers }
    {
        let Some(accepted) = self.accepted.take() else {
            return None;
        };
        if accepted.place >= self.readers.len() {
            return None;
        }
        let mut reader = self.readers.remove(accepted.place);
        match reader.finish() {
            Ok(page) => Some(Confirmed {
                page,
                closes: accepted.closes,
            }),
            Err(_) => None,
        }
    }

    /// Lets go of all readers but this many of the newest. It takes no memory.
    pub fn keep(&mut self, count: usize)
        ensures { self.new ≡ record self.old { readers = take count self.old.readers } }
    {
        let surplus = self.readers.len().saturating_sub(count);
        // What is drained is not wanted any more.
        let _ = self.readers.drain(..surplus);
    }

    /// How many octets its readers hold in memory, as [`PageReader::held`] says it. It goes over the readers, of which a
    /// datagram leaves two at most.
    pub fn held(&self) -> u128
        ensures octets { result ≡ octets_of_readers self.now.readers }
        ensures few { result < 2 ^ 93 }
    {
        let mut held = 0;
        for reader in &self.readers {
            held += u128::from(reader.held());
        }
        held
    }

    /// Where the images stand.
    pub fn mark(&self) -> Result<Mark, NoMemory>
        ensures { IfOk result (λ mark. IsMarkOf self.now mark) }
    {
        let count = self.readers.len();
        let mut under_way = None;
        if count > 0 {
            under_way = Some(self.readers[count - 1].mark()?);
        }
        Ok(Mark {
            count,
            under_way,
            accepted: self.accepted,
            zeros: self.zeros,
        })
    }

    /// Goes back to a mark. It takes no memory.
    pub fn back(&mut self, mark: Mark)
        requires { (old : ImageValue) × IsMarkOf old mark × GoesOn old.readers self.old.readers }
        ensures { (old : ImageValue)
            → IsMarkOf old mark → GoesOn old.readers self.old.readers → self.new ≡ old }
    {
        let Mark {
            count,
            under_way,
            accepted,
            zeros,
        } = mark;
        self.readers.truncate(count);
        if let Some(under_way) = under_way {
            if let Some(mut reader) = self.readers.pop() {
                reader.back(under_way);
                self.readers.push_reserved(reader);
            }
        }
        self.accepted = accepted;
        self.zeros = zeros;
    }
}

/// How many octets are looked at side by side.
const BLOCK: usize = 8;

impl Zeros {
    /// Counts the zero octets of more octets, of those that stand in whole blocks block by block.
    fn count(&mut self, octets: &[u8])
        ensures { self.new ≡ record self.old {
          run = run_after self.old.run octets.now;
          longest = longest_after self.old.run self.old.longest octets.now;
        } }
    {
        let mut place = 0;
        while octets.len() - place >= BLOCK {
            self.count_block(octets, place);
            place += BLOCK;
        }
        self.count_each(&octets[place..]);
    }

    /// Counts the zero octets of the block that begins here: none, all, or some.
    #[inline]
    fn count_block(&mut self, octets: &[u8], first: usize)
        requires { first + 8 ≤ length octets.now }
        ensures { let block = take 8 (drop first octets.now)
            in self.new ≡ record self.old {
              run = run_after self.old.run block;
              longest = longest_after self.old.run self.old.longest block;
            } }
    {
        if has_no_zero(octets, first) {
            self.run = 0;
        } else if has_zeros_alone(octets, first) {
            self.run = self.run.saturating_add(BLOCK as u16);
            self.longest = self.longest.max(self.run);
        } else {
            self.count_each(&octets[first..first + BLOCK]);
        }
    }

    /// Counts the zero octets of more octets, octet by octet.
    fn count_each(&mut self, octets: &[u8])
        ensures { self.new ≡ record self.old {
          run = run_after self.old.run octets.now;
          longest = longest_after self.old.run self.old.longest octets.now;
        } }
    {
        for octet in octets {
            self.run = run_with(self.run, *octet);
            self.longest = self.longest.max(self.run);
        }
    }
}

/// Whether none of the octets of the block that begins here is 0, all looked at side by side.
#[inline]
fn has_no_zero(octets: &[u8], first: usize) -> bool
    requires { first + 8 ≤ length octets.now }
    ensures { IsTrue result → (i : ℕ) → first ≤ i → i < first + 8 → 0 < get_or octets.now i 0 }
{
    let mut found = false;
    for place in first..first + BLOCK {
        found |= octets[place] == 0;
    }
    !found
}

/// Whether each of the octets of the block that begins here is 0, all looked at side by side.
#[inline]
fn has_zeros_alone(octets: &[u8], first: usize) -> bool
    requires { first + 8 ≤ length octets.now }
    ensures { IsTrue result → (i : ℕ) → first ≤ i → i < first + 8 → get_or octets.now i 0 ≡ 0 }
{
    let mut found = false;
    for place in first..first + BLOCK {
        found |= octets[place] != 0;
    }
    !found
}

/// How many zero octets stand at the end with one more octet.
fn run_with(run: u16, octet: u8) -> u16
    ensures { result ≡ run_with run octet }
{
    if octet == 0 { run.saturating_add(1) } else { 0 }
}
