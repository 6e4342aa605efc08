//! The pages of a line that wait, with their texts.
ghost use Rattle.std.specs.Prelude.{◌≡◌, ◌-◌, ◌++◌, ◌∷◌, [], true, false, drop, IfOk};
ghost use Rattle.std.specs.Bool.{MatchBool};
ghost use Rattle.fax_undelivered.specs.held.Held.{HoldsPage, IsPut, IsNotPut, PutsLast, NotesPage, held_as, last_of, texts_after};
ghost use Rattle.fax_undelivered.specs.StoredEnds.{PutsPages, card_for};

use crate::{Card, Undelivered};
use fax_jobs::{Outcome, Report};
use fax_line::PageToStore;
use fax_queue::{EndedJob, Queue, QueuedPage};
use fax_spool::WaitingPage;
use sqlite_disk::Disk;
use std::alloc::{AllocError, Global};
use std::marker::Model;

/// The number of the life of a process that has no spool.
const LIFE: u32 = 1;

/// How a job ended.
#[derive(Clone, Copy)]
pub struct JobEnd<'a> {
    pub report: Report,
    /// For what cause its call was not placed: no octets where that was not told.
    pub cause: &'a [u8],
    /// In seconds since 1970.
    pub day: u64,
}

/// The pages of a line that wait and whose texts are there, in the order in which they were confirmed; beside them the queue tells which
/// pages of the line wait.
pub struct HeldTexts {
    pages: Vec<WaitingPage>,
}

impl Drop for HeldTexts {
    fn drop(self) {
        let HeldTexts { pages: _pages } = self;
    }
}

impl Model for HeldTexts {
    ghost use Rattle.std.specs.Prelude.{List};
    ghost use Rattle.fax_spool.specs.RecordOctets.{PageValue};

    ghost Value = { List PageValue };

    ghost view = { λ t. t.pages.items };
}

impl HeldTexts {
    /// None waits.
    pub fn new(alloc: Global) -> Self
        ensures { result ≡ [] }
    {
        HeldTexts {
            pages: Vec::new(alloc),
        }
    }

    /// A page was confirmed, in a call of this tag: it waits, after the others. Where memory is refused for its text it waits without it.
    pub fn confirm(&mut self, alloc: Global, queue: &mut Queue, page: PageToStore, tag: &[u8])
        ensures { HoldsPage page tag.now queue.old queue.new self.old self.new }
    {
        let call = page.kept.call;
        let number = queue.next_number(LIFE, call);
        let is_stored = self.push(alloc, queue.line(), number, page, tag);
        queue.add(QueuedPage {
            life: LIFE,
            call,
            number,
            is_stored,
        });
    }

    /// The page of this number of the line of this name is held, where memory is there for its text.
    fn push(
        &mut self,
        alloc: Global,
        line: &str,
        number: u32,
        page: PageToStore,
        tag: &[u8],
    ) -> bool
        ensures { MatchBool result (self.new
            ≡ self.old ++ held_as line.now number page tag.now ∷ []) (self.new ≡ self.old) }
    {
        let Ok(waits) = waiting_page(alloc, line.as_bytes(), number, page, tag) else {
            return false;
        };
        match self.pages.push(waits) {
            Ok(()) => true,
            Err(_) => false,
        }
    }

    /// A page was confirmed in this call, and memory was refused for its text: it waits without it.
    pub fn note(&mut self, queue: &mut Queue, call: u32)
        ensures { NotesPage call queue.old queue.new self.old self.new }
    {
        let number = queue.next_number(LIFE, call);
        queue.add(QueuedPage {
            life: LIFE,
            call,
            number,
            is_stored: false,
        });
    }

    /// The job that was first in turn ended so: its pages wait no more. Where it failed, those that were not delivered are kept, and `true`
    /// tells that: not where the text of one of them is not there, or memory is refused. Where it is not known which pages it had, as memory
    /// was refused before, the texts of all pages are dropped.
    pub fn end_job<U: Disk>(
        &mut self,
        alloc: Global,
        queue: &mut Queue,
        undelivered: &mut Undelivered<U>,
        end: &JobEnd<'_>,
    ) -> bool
        ensures kept { result ≡ true
            → IsPut U.seen U.may_leave U.is_usable end.now.report (card_for end.now.report
            end.now.cause.now end.now.day) queue.old self.old undelivered.old undelivered.new }
        ensures not_put { result ≡ false
            → IsNotPut U.seen U.may_leave U.is_usable undelivered.old undelivered.new }
        ensures texts { self.new
            ≡ texts_after end.now.report.pages queue.new.is_whole queue.old self.old }
        ensures waits { MatchBool queue.new.is_whole (queue.new.waits
            ≡ drop end.now.report.pages queue.old.waits) (queue.new.waits ≡ queue.old.waits) }
    {
        let report = end.report;
        let left = queue.job_left(report.pages, report.delivered);
        let Some(ended) = queue.end(report.pages) else {
            self.pages.clear();
            return false;
        };
        let count = (ended.stored as usize).min(self.pages.len());
        let is_put = keep_left(alloc, undelivered, &self.pages[..count], left, end);
        let _ = self.pages.drain(..count);
        is_put
    }
}

/// A page that waits.
fn waiting_page(
    alloc: Global,
    line: &[u8],
    number: u32,
    page: PageToStore,
    tag: &[u8],
) -> Result<WaitingPage, AllocError>
    ensures { IfOk result (λ waits. waits ≡ held_as line.now number page tag.now) }
{
    let PageToStore {
        line: _,
        kept,
        text,
    } = page;
    Ok(WaitingPage {
        life: LIFE,
        call: kept.call,
        number,
        format: kept.format,
        closes: kept.closes,
        line: line.to_vec(alloc)?,
        tag: tag.to_vec(alloc)?,
        text: text.into_vec(),
    })
}

/// Of these pages of a job, whose texts are there, those that were not delivered are kept, where it failed, and that is each of them.
fn keep_left<U: Disk>(
    alloc: Global,
    undelivered: &mut Undelivered<U>,
    pages: &[WaitingPage],
    left: Option<EndedJob>,
    end: &JobEnd<'_>,
) -> bool
    ensures kept { result ≡ true
        → PutsLast U.seen U.may_leave U.is_usable end.now.report (card_for end.now.report
        end.now.cause.now end.now.day) left pages.now undelivered.old undelivered.new }
    ensures not_put { result ≡ false
        → IsNotPut U.seen U.may_leave U.is_usable undelivered.old undelivered.new }
{
    let Some(left) = left else {
        return false;
    };
    match end.report.outcome {
        Outcome::Delivered => false,
        _ => keep_last(alloc, undelivered, pages, left, end),
    }
}

/// The same where it failed and some were left.
fn keep_last<U: Disk>(
    alloc: Global,
    undelivered: &mut Undelivered<U>,
    pages: &[WaitingPage],
    left: EndedJob,
    end: &JobEnd<'_>,
) -> bool
    ensures all { result ≡ true → left.stored ≡ end.now.report.pages - end.now.report.delivered }
    ensures kept { result ≡ true
        → PutsPages U.seen U.may_leave U.is_usable (last_of (end.now.report.pages
        - end.now.report.delivered) pages.now) (card_for
        end.now.report end.now.cause.now end.now.day) true undelivered.old undelivered.new }
    ensures not_put { result ≡ false
        → IsNotPut U.seen U.may_leave U.is_usable undelivered.old undelivered.new }
{
    let wanted = end.report.pages.saturating_sub(end.report.delivered);
    if left.stored != u64::from(wanted) || wanted as usize > pages.len() {
        return false;
    }
    let from = pages.len() - wanted as usize;
    put_pages(alloc, undelivered, &pages[from..], end)
}

/// These pages of a job that ended so are kept: whether that was done.
fn put_pages<U: Disk>(
    alloc: Global,
    undelivered: &mut Undelivered<U>,
    pages: &[WaitingPage],
    end: &JobEnd<'_>,
) -> bool
    ensures kept { result ≡ true → PutsPages U.seen U.may_leave U.is_usable pages.now (card_for
        end.now.report end.now.cause.now end.now.day) true undelivered.old undelivered.new }
    ensures not_put { result ≡ false
        → IsNotPut U.seen U.may_leave U.is_usable undelivered.old undelivered.new }
{
    let Ok(card) = card_of(alloc, end) else {
        return false;
    };
    match undelivered.keep(alloc, pages, &card) {
        Ok(()) => true,
        Err(_) => false,
    }
}

/// The card of a job that ended so.
fn card_of(alloc: Global, end: &JobEnd<'_>) -> Result<Card, AllocError>
    ensures { IfOk result (λ card. card ≡ card_for end.now.report end.now.cause.now end.now.day) }
{
    Ok(Card {
        outcome: end.report.outcome,
        cause: end.cause.to_vec(alloc)?,
        tries: 1,
        at: end.day,
        delivered: 0,
    })
}
