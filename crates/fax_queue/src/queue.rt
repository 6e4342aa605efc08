//! The pages of a line that wait, as a spool knows them.
ghost use Rattle.std.specs.Prelude.{◌≡◌, ◌⊎◌, ◌↔◌, [], ◌∷◌, ◌++◌, ◌-◌, take, drop, count_by, true, false, not, nat_eq, None, Some, IsTrue, IfOk, IfNone, IfSome, MatchOption, OnOk, OnErr};
ghost use Rattle.fax_queue.specs.Queues.{AreInOrder, BeginsAt, IsAfter, IsFirstJob, IsQueued, NamesFirst, NamesLeft, first_tag, is_of_earlier_life, stored_count, next_number, tag_in};

use fax_bits::NoMemory;
use std::alloc::{AllocError, Global};
use std::marker::Model;

/// A page that waits: in which life and call it was confirmed, and as which page of the call.
#[derive(Clone, Copy, PartialEq, Eq)]
pub struct QueuedPage {
    pub life: u32,
    pub call: u32,
    /// From 1 on.
    pub number: u32,
    /// Whether it is on the disk.
    pub is_stored: bool,
}

/// A page of an earlier life that means none, and is not restored: in which life and call it was confirmed, and as which page of the
/// call.
#[derive(Clone, Copy, PartialEq, Eq)]
pub struct Aside {
    pub life: u32,
    pub call: u32,
    /// From 1 on.
    pub number: u32,
}

/// The pages of a job that ended.
#[derive(Clone, Copy, PartialEq, Eq)]
pub struct EndedJob {
    pub life: u32,
    pub call: u32,
    /// The number of its first page.
    pub first: u32,
    /// How many numbers there are from that one on to the number of its last page, with both.
    pub pages: u32,
    /// How many of its pages are on the disk.
    pub stored: u64,
}

/// The tag of a restored call.
struct RestoredTag {
    life: u32,
    call: u32,
    tag: String,
}

impl Drop for RestoredTag {
    fn drop(self) {
        let RestoredTag {
            life: _life,
            call: _call,
            tag: _tag,
        } = self;
    }
}

impl Model for RestoredTag {
    ghost use Rattle.std.specs.String.{string_bytes};
    ghost use Rattle.fax_queue.specs.Queues.{TagValue};

    ghost Value = { TagValue };

    ghost view = { λ t. record { life = t.life; call = t.call; tag = string_bytes t.tag } };
}

/// The pages of a line that wait, in the order of their jobs.
pub struct Queue {
    line: String,
    waits: Vec<QueuedPage>,
    tags: Vec<RestoredTag>,
    /// The pages that mean none.
    aside: Vec<Aside>,
    /// The page that came last, whether it waits still or not.
    newest: Option<QueuedPage>,
    /// Whether each page was noted, and came after those before it.
    is_whole: bool,
}

impl Drop for Queue {
    fn drop(self) {
        let Queue {
            line: _line,
            waits: _waits,
            tags: _tags,
            aside: _aside,
            newest: _newest,
            is_whole: _is_whole,
        } = self;
    }
}

impl Model for Queue {
    ghost use Rattle.std.specs.Prelude.{◌≡◌, true};
    ghost use Rattle.std.specs.String.{string_bytes};
    ghost use Rattle.fax_queue.specs.Queues.{AreInOrder, QueueValue};

    ghost Value = { QueueValue };

    ghost view = { λ s. record {
      line = string_bytes s.line;
      waits = s.waits.items;
      is_whole = s.is_whole;
      tags = s.tags.items;
      aside = s.aside.items;
      newest = s.newest;
    } };

    ghost invariant = { λ s. s.is_whole ≡ true → AreInOrder s.waits.items };
}

impl Queue {
    /// None of the line of this name waits.
    pub fn new(alloc: Global, line: &str) -> Result<Self, NoMemory>
        ensures { IfOk result (λ queue. queue ≡ record {
          line = line.now;
          waits = [];
          is_whole = true;
          tags = [];
          aside = [];
          newest = None;
        }) }
    {
        Ok(Queue {
            line: String::from_str(alloc, line)?,
            waits: Vec::new(alloc),
            tags: Vec::new(alloc),
            aside: Vec::new(alloc),
            newest: None,
            is_whole: true,
        })
    }

    /// The name of the line.
    pub fn line(&self) -> &str
        ensures { result.now ≡ self.now.line }
    {
        self.line.as_str()
    }

    /// Its pages that wait.
    pub fn waits(&self) -> &[QueuedPage]
        ensures { result.now ≡ self.now.waits }
    {
        self.waits.as_slice()
    }

    /// The pages of earlier lives that mean none.
    pub fn aside(&self) -> &[Aside]
        ensures { result.now ≡ self.now.aside }
    {
        self.aside.as_slice()
    }

    /// How many pages that are on the disk wait.
    pub fn stored(&self) -> u64
        ensures { result ≡ stored_count self.now.waits }
    {
        self.waits.iter().filter(|page| page.is_stored).count() as u64
    }

    /// Whether the job that is first in turn was confirmed in a life before this one.
    pub fn is_restored(&self, life: u32) -> bool
        ensures { result ≡ is_of_earlier_life life self.now.waits }
    {
        match self.waits.first() {
            Some(page) => page.life != life,
            None => false,
        }
    }

    /// The tag of the job that is first in turn, where that was confirmed in an earlier life.
    pub fn restored_tag(&self) -> Option<&str>
        ensures { MatchOption result (first_tag self.now ≡ None)
            (λ tag. first_tag self.now ≡ Some tag.now) }
    {
        match self.waits.first() {
            Some(page) => tag_in(self.tags.as_slice(), page.life, page.call),
            None => None,
        }
    }

    /// Where a page is confirmed next in this call of this life: which page of the call it is, from 1 on.
    pub fn next_number(&self, life: u32, call: u32) -> u32
        ensures { result ≡ next_number self.now.newest life call }
    {
        let Some(page) = self.newest else {
            return 1;
        };
        if page.life == life && page.call == call {
            page.number.saturating_add(1)
        } else {
            1
        }
    }

    /// A page of an earlier life means none.
    pub fn set_aside(&mut self, page: Aside) -> Result<(), NoMemory>
        ensures aside { OnOk result (self.new.aside ≡ self.old.aside ++ page ∷ []) }
        ensures same { self.new ≡ record self.old { aside = self.new.aside } }
        ensures none { OnErr result (self.new ≡ self.old) }
    {
        Ok(self.aside.push(page)?)
    }

    /// A call of an earlier life had this tag.
    pub fn set_tag(
        &mut self,
        alloc: Global,
        life: u32,
        call: u32,
        tag: &str,
    ) -> Result<(), NoMemory>
        ensures tags { OnOk result (self.new.tags
            ≡ self.old.tags ++ record { life = life; call = call; tag = tag.now } ∷ []) }
        ensures same { self.new ≡ record self.old { tags = self.new.tags } }
        ensures none { OnErr result (self.new ≡ self.old) }
    {
        let tag = String::from_str(alloc, tag)?;
        Ok(self.tags.push(RestoredTag { life, call, tag })?)
    }

    /// One more page waits, after the others. Without memory it is not noted, and from then on no job of the line is told to
    /// have ended: its pages are restored at the next start, and sent again.
    pub fn add(&mut self, page: QueuedPage)
        ensures { IsQueued page self.old self.new }
    {
        if self.push(page).is_err() {
            self.newest = Some(page);
            self.is_whole = false;
        }
    }

    /// The same, where an `Err` tells that it is not noted.
    pub fn push(&mut self, page: QueuedPage) -> Result<(), AllocError>
        ensures line { self.new.line ≡ self.old.line }
        ensures waits { OnOk result (self.new.waits ≡ self.old.waits ++ page ∷ []) }
        ensures whole { self.new.is_whole ≡ true → self.old.is_whole ≡ true }
        ensures stays { OnOk result (self.old.is_whole ≡ true
            → AreInOrder (self.old.waits ++ page ∷ []) → self.new.is_whole ≡ true) }
        ensures tags { self.new.tags ≡ self.old.tags }
        ensures aside { self.new.aside ≡ self.old.aside }
        ensures newest { OnOk result (self.new.newest ≡ Some page) }
        ensures none { OnErr result (self.new ≡ self.old) }
    {
        let is_after = comes_after(&page, self.waits.as_slice());
        self.waits.push(page)?;
        self.newest = Some(page);
        if !is_after {
            self.is_whole = false;
        }
        Ok(())
    }

    /// Pages of a job that ended may be on the disk: from then on no job of the line is told to have ended.
    pub(crate) fn mark_unsure(&mut self)
        ensures { self.new ≡ record self.old { is_whole = false } }
    {
        self.is_whole = false;
    }

    /// The job that is first in turn ended: so many pages wait no more. `None`: which ones they are is not known, and from then on
    /// that is so of each job of the line.
    pub fn end(&mut self, pages: u32) -> Option<EndedJob>
        ensures line { self.new.line ≡ self.old.line }
        ensures tags { self.new.tags ≡ self.old.tags }
        ensures aside { self.new.aside ≡ self.old.aside }
        ensures newest { self.new.newest ≡ self.old.newest }
        ensures sure { IfSome result (λ _. self.old.is_whole ≡ true) }
        ensures names { IfSome result (λ ended. NamesFirst pages ended self.old.waits) }
        ensures left { IfSome result (λ _. self.new.waits ≡ drop pages self.old.waits) }
        ensures whole { IfSome result (λ _. self.new.is_whole ≡ true) }
        ensures unsure { result ≡ None
            → (self.new.waits ≡ self.old.waits) × (self.new.is_whole ≡ false) }
        ensures why { IfNone result ((self.old.is_whole ≡ false)
            ⊎ (¬ IsFirstJob pages self.old.waits)) }
    {
        if !self.is_whole {
            return None;
        }
        let Some(ended) = first_job(self.waits.as_slice(), pages) else {
            self.is_whole = false;
            return None;
        };
        let _ = self.waits.drain(..pages as usize);
        Some(ended)
    }

    /// Of the job that is first in turn, which has so many pages, those after the first so many, which were delivered. `None`: which
    /// ones they are is not known, or there is none.
    pub fn job_left(&self, pages: u32, delivered: u32) -> Option<EndedJob>
        ensures some { IfSome result (λ left. NamesLeft pages delivered left self.now.waits) }
        ensures none { IfNone result ((self.now.is_whole ≡ false)
            ⊎ (¬ IsFirstJob (pages - delivered) (drop delivered self.now.waits))) }
    {
        if !self.is_whole {
            return None;
        }
        let waits = self.waits.as_slice();
        let from = delivered as usize;
        if from > waits.len() {
            return None;
        }
        let count = pages.checked_sub(delivered)?;
        first_job(&waits[from..], count)
    }
}

/// The tag of a call of an earlier life, where one of these is.
fn tag_in(tags: &[RestoredTag], life: u32, call: u32) -> Option<&str>
    ensures { MatchOption result (tag_in tags.now life call ≡ None)
        (λ tag. tag_in tags.now life call ≡ Some tag.now) }
{
    for it in tags {
        if it.life == life && it.call == call {
            return Some(it.tag.as_str());
        }
    }
    None
}

/// Whether a page came after these.
fn comes_after(page: &QueuedPage, waits: &[QueuedPage]) -> bool
    ensures after { result ≡ true → AreInOrder waits.now → AreInOrder (waits.now ++ page.now ∷ []) }
    ensures not_after { result ≡ false → ¬ AreInOrder (waits.now ++ page.now ∷ []) }
{
    match waits.last() {
        Some(last) => is_after(page, last),
        None => true,
    }
}

/// Whether a page came after another.
fn is_after(page: &QueuedPage, other: &QueuedPage) -> bool
    ensures { IsTrue result ↔ IsAfter page.now other.now }
{
    if other.life != page.life {
        return other.life < page.life;
    }
    if other.call != page.call {
        return other.call < page.call;
    }
    other.number < page.number
}

/// The job of so many pages that is first in turn. `None`: so many do not wait, or they did not come in one call.
fn first_job(waits: &[QueuedPage], pages: u32) -> Option<EndedJob>
    requires { AreInOrder waits.now }
    ensures names { IfSome result (λ ended. NamesFirst pages ended waits.now) }
    ensures begins { IfSome result (λ ended. BeginsAt ended waits.now) }
    ensures none { IfNone result (¬ IsFirstJob pages waits.now) }
{
    let first = waits.first()?;
    let last = waits.get((pages as usize).checked_sub(1)?)?;
    if first.life != last.life || first.call != last.call {
        return None;
    }
    Some(EndedJob {
        life: first.life,
        call: first.call,
        first: first.number,
        pages: last.number.checked_sub(first.number)?.checked_add(1)?,
        stored: count_stored(waits, pages),
    })
}

/// How many of the first pages are on the disk, of so many.
fn count_stored(waits: &[QueuedPage], pages: u32) -> u64
    ensures { result ≡ count_by (λ page. page.is_stored) (take pages waits.now) }
{
    waits
        .iter()
        .take(pages as usize)
        .filter(|page| page.is_stored)
        .count() as u64
}
