//! What keeps the pages of a run on a disk, and those of its jobs that failed on a second pair of files.
ghost use Rattle.std.specs.Prelude.{◌≡◌, ◌⊎◌, [], true, false, IfOk};
ghost use Rattle.fax_spool.specs.Calls.{IsRead, Refuses};
ghost use Rattle.fax_queue.specs.SpoolStorage.{IsUnchanged};
ghost use Rattle.fax_queue.specs.Tags.{NotesTag};
ghost use Rattle.fax_undelivered.specs.StoredEnds.{EndStoredAlone, EndsStored, EndsWhere, KeepsLeft, MayEnd, MayEndWith, NotesCause, PutsIf, are_delivered, card_for, cause_of, is_delivered};

use crate::card::Card;
use crate::undelivered::Undelivered;
use fax_jobs::{Outcome, Report};
use fax_line::{LineReport, PageToStore, RunStore};
use fax_queue::{OnDisk, Storage};
use fax_spool::WaitingPage;
use fax_wires::holding::{PageStore, StoreFault};
use sqlite_disk::Disk;
use std::alloc::{AllocError, Global};
use std::marker::Model;

/// The most octets of a cause.
const MOST_CAUSE: usize = 64;

/// Why the job of a line ended.
struct LineCause {
    line: usize,
    cause: Vec<u8>,
}

impl Drop for LineCause {
    fn drop(self) {
        let LineCause {
            line: _line,
            cause: _cause,
        } = self;
    }
}

impl Model for LineCause {
    ghost use Rattle.fax_undelivered.specs.StoredEnds.{CauseValue};

    ghost Value = { CauseValue };

    ghost view = { λ c. record { line = c.line; cause = c.cause.items } };
}

/// Why jobs of lines end.
#[derive(Clone, Copy)]
struct Causes<'a> {
    of_lines: &'a [LineCause],
    /// In seconds since 1970.
    day: u64,
}

/// How a job ended.
#[derive(Clone, Copy)]
struct Ending<'a> {
    report: Report,
    cause: &'a [u8],
    /// In seconds since 1970.
    day: u64,
}

/// A spool, what is known of the pages in it, and the second pair of files, as a run sees them. The end of a job that failed is noted
/// only once its pages that were not delivered lie in the second pair.
pub struct PairedStore<D: Disk, U: Disk> {
    alloc: Global,
    pub storage: Storage<D>,
    /// Where there is none, jobs end as they do without it.
    pub undelivered: Option<Undelivered<U>>,
    /// Why jobs of lines end next.
    causes: Vec<LineCause>,
    /// The seconds since 1970.
    day: u64,
}

impl<D: Disk + Drop, U: Disk + Drop> Drop for PairedStore<D, U> {
    fn drop(self) {
        let PairedStore {
            alloc: _alloc,
            storage: _storage,
            undelivered: _undelivered,
            causes: _causes,
            day: _day,
        } = self;
    }
}

impl<D: Disk, U: Disk> PairedStore<D, U> {
    /// A run over this spool and the second pair, where there is one.
    pub fn new(alloc: Global, storage: Storage<D>, undelivered: Option<Undelivered<U>>) -> Self
        ensures storage { result.storage ≡ storage }
        ensures undelivered { result.undelivered ≡ undelivered }
        ensures causes { result.causes.items ≡ [] }
    {
        PairedStore {
            alloc,
            storage,
            undelivered,
            causes: Vec::new(alloc),
            day: 0,
        }
    }

    /// Pages of lines are put next, all of them at once, and then their jobs end.
    pub fn begin_put(&mut self)
        ensures tags { self.new.storage.tags.items ≡ [] }
        ensures causes { self.new.causes.items ≡ [] }
        ensures day { self.new.day ≡ self.old.day }
        ensures second { self.new.undelivered ≡ self.old.undelivered }
        ensures unchanged { IsUnchanged self.old.storage.queues.items
            self.new.storage.queues.items self.old.storage.spool self.new.storage.spool }
    {
        self.storage.begin_put();
        self.causes.clear();
    }

    /// One of them came in a call of line i that has this tag.
    pub fn set_tag(&mut self, i: usize, tag: &str)
        ensures tags { NotesTag i tag.now self.old.storage.tags.items self.new.storage.tags.items }
        ensures causes { self.new.causes.items ≡ self.old.causes.items }
        ensures day { self.new.day ≡ self.old.day }
        ensures second { self.new.undelivered ≡ self.old.undelivered }
        ensures unchanged { IsUnchanged self.old.storage.queues.items
            self.new.storage.queues.items self.old.storage.spool self.new.storage.spool }
    {
        self.storage.set_tag(i, tag);
    }

    /// The job of line i that ends in this turn ended for this cause, of which the first 64 octets count. Without memory for that it is told
    /// without one.
    pub fn set_cause(&mut self, i: usize, cause: &str)
        ensures causes { NotesCause i cause.now self.old.causes.items self.new.causes.items }
        ensures day { self.new.day ≡ self.old.day }
        ensures storage { self.new.storage ≡ self.old.storage }
        ensures second { self.new.undelivered ≡ self.old.undelivered }
    {
        let octets = cause.as_bytes();
        let count = octets.len().min(MOST_CAUSE);
        if let Ok(cause) = octets[..count].to_vec(self.alloc) {
            let _ = self.causes.push(LineCause { line: i, cause });
        }
    }

    /// The time of the day, in seconds since 1970.
    pub fn set_day(&mut self, seconds: u64)
        ensures day { self.new.day ≡ seconds }
        ensures causes { self.new.causes.items ≡ self.old.causes.items }
        ensures storage { self.new.storage ≡ self.old.storage }
        ensures second { self.new.undelivered ≡ self.old.undelivered }
    {
        self.day = seconds;
    }
}

/// Why the job of line i ended: of no octets where that was not set.
fn cause_of(causes: &[LineCause], i: usize) -> &[u8]
    ensures { result.now ≡ cause_of causes.now i }
{
    for it in causes {
        if it.line == i {
            return it.cause.as_slice();
        }
    }
    &[]
}

/// Whether the end of a job of a line may be noted: where it failed, once its pages that were not delivered lie in the second pair.
fn may_end<D: Disk, U: Disk>(
    alloc: Global,
    storage: &mut Storage<D>,
    undelivered: &mut Option<Undelivered<U>>,
    line: usize,
    ending: &Ending<'_>,
) -> bool
    ensures first { MayEnd D.seen
        D.may_leave D.is_usable D.is_clean U.seen U.may_leave U.is_usable line ending.now.report
        (card_for ending.now.report ending.now.cause.now ending.now.day) storage.old.queues.items
        storage.old.spool storage.new.spool result undelivered.old undelivered.new }
    ensures read { IsRead D.seen D.may_leave D.is_usable storage.old.spool storage.new.spool }
    ensures refuses { Refuses storage.old.spool → storage.new.spool ≡ storage.old.spool }
    ensures queues { storage.new.queues.items ≡ storage.old.queues.items }
{
    match undelivered {
        Some(second) => may_end_with(alloc, storage, second, line, ending),
        None => true,
    }
}

/// The same where there is a second pair.
fn may_end_with<D: Disk, U: Disk>(
    alloc: Global,
    storage: &mut Storage<D>,
    second: &mut Undelivered<U>,
    line: usize,
    ending: &Ending<'_>,
) -> bool
    ensures first { MayEndWith
        D.seen D.may_leave D.is_usable D.is_clean U.seen U.may_leave U.is_usable line
        ending.now.report (card_for ending.now.report ending.now.cause.now ending.now.day)
        storage.old.queues.items storage.old.spool storage.new.spool result second.old second.new }
    ensures read { IsRead D.seen D.may_leave D.is_usable storage.old.spool storage.new.spool }
    ensures refuses { Refuses storage.old.spool → storage.new.spool ≡ storage.old.spool }
    ensures queues { storage.new.queues.items ≡ storage.old.queues.items }
{
    match ending.report.outcome {
        Outcome::Delivered => true,
        _ => keep_left(alloc, storage, second, line, ending),
    }
}

/// The pages of the job of a line that is first in turn that were not delivered go into the second pair: whether that was done.
fn keep_left<D: Disk, U: Disk>(
    alloc: Global,
    storage: &mut Storage<D>,
    second: &mut Undelivered<U>,
    line: usize,
    ending: &Ending<'_>,
) -> bool
    ensures kept { ((result ≡ false) × (second.new ≡ second.old))
        ⊎ KeepsLeft D.seen D.may_leave D.is_usable D.is_clean U.seen U.may_leave U.is_usable line
        ending.now.report (card_for ending.now.report ending.now.cause.now ending.now.day)
        storage.old.queues.items storage.old.spool storage.new.spool result second.old second.new }
    ensures read { IsRead D.seen D.may_leave D.is_usable storage.old.spool storage.new.spool }
    ensures refuses { Refuses storage.old.spool → storage.new.spool ≡ storage.old.spool }
    ensures queues { storage.new.queues.items ≡ storage.old.queues.items }
{
    match storage.job_pages(line, ending.report) {
        Ok(pages) => put_left(alloc, second, pages.as_slice(), ending),
        Err(_) => false,
    }
}

/// Pages of a job that were not delivered go into the second pair: whether that was done.
fn put_left<U: Disk>(
    alloc: Global,
    second: &mut Undelivered<U>,
    pages: &[WaitingPage],
    ending: &Ending<'_>,
) -> bool
    ensures { ((result ≡ false) × (second.new ≡ second.old))
        ⊎ PutsIf U.seen U.may_leave U.is_usable pages.now (card_for
        ending.now.report ending.now.cause.now ending.now.day) result second.old second.new }
{
    match card_for(alloc, ending) {
        Ok(card) => put_pages(alloc, second, pages, &card),
        Err(_) => false,
    }
}

/// The card of a job that ended so.
fn card_for(alloc: Global, ending: &Ending<'_>) -> Result<Card, AllocError>
    ensures { IfOk result
        (λ card. card ≡ card_for ending.now.report ending.now.cause.now ending.now.day) }
{
    Ok(Card {
        outcome: ending.report.outcome,
        cause: ending.cause.to_vec(alloc)?,
        tries: 1,
        at: ending.day,
        delivered: 0,
    })
}

/// Puts pages with a card, where there are any: whether they are there.
fn put_pages<U: Disk>(
    alloc: Global,
    second: &mut Undelivered<U>,
    pages: &[WaitingPage],
    card: &Card,
) -> bool
    ensures { PutsIf U.seen U.may_leave U.is_usable pages.now
        card.now result second.old second.new }
{
    if pages.is_empty() {
        return true;
    }
    second.keep(alloc, pages, card).is_ok()
}

/// What it keeps are records of its spool.
impl<D: Disk, U: Disk> PageStore<PageToStore> for PairedStore<D, U> {
    ghost use Rattle.fax_queue.specs.Storing.{StoresPages};
    ghost use Rattle.fax_queue.specs.SpoolStorage.{PutsPages};

    ghost keeps = { λ store pages.
        StoresPages D.seen D.may_leave D.is_usable store.storage.spool pages };

    ghost puts = { λ pages is_stored old new.
        PutsPages D.seen D.may_leave D.is_usable pages is_stored
        old.storage.queues.items new.storage.queues.items old.storage.spool new.storage.spool };

    fn store_all(&mut self, pages: &[PageToStore]) -> Result<(), StoreFault> {
        self.storage.store_all(pages)
    }
}

impl<D: Disk, U: Disk> RunStore for PairedStore<D, U> {
    ghost use Rattle.fax_queue.specs.SpoolStorage.{IsUnchanged, NotesPage};
    ghost use Rattle.fax_undelivered.specs.StoredEnds.{EndsAllStored, card_for, cause_of};

    ghost is_same = { λ old new. IsUnchanged old.storage.queues.items
        new.storage.queues.items old.storage.spool new.storage.spool };

    ghost notes = { λ line call old new. NotesPage line call
        old.storage.queues.items new.storage.queues.items old.storage.spool new.storage.spool };

    ghost ends = { λ ended old new.
        EndsAllStored D.seen D.may_leave D.is_usable D.is_clean U.seen U.may_leave U.is_usable
        (λ line report. card_for report (cause_of old.causes.items line) old.day) ended
        old.storage.queues.items new.storage.queues.items
        old.storage.spool new.storage.spool old.undelivered new.undelivered };

    fn note(&mut self, line: usize, call: u32) {
        self.storage.note(line, call);
    }

    /// Where the pages of one cannot be kept, or its end cannot be noted, the job is restored at the next start, and sent again.
    fn end_jobs(&mut self, ended: &[LineReport]) {
        if are_delivered(ended) {
            let _ = self.storage.end_all(ended);
            return;
        }
        let causes = Causes {
            of_lines: self.causes.as_slice(),
            day: self.day,
        };
        end_each(
            self.alloc,
            &mut self.storage,
            &mut self.undelivered,
            &causes,
            ended,
        );
    }
}

/// Whether each of these jobs was delivered.
fn are_delivered(ended: &[LineReport]) -> bool
    ensures { result ≡ are_delivered ended.now }
{
    ended.iter().all(|one| is_delivered(one.report.outcome))
}

/// Whether this is the outcome of a job that was delivered.
fn is_delivered(outcome: Outcome) -> bool
    ensures { result ≡ is_delivered outcome }
{
    match outcome {
        Outcome::Delivered => true,
        _ => false,
    }
}

/// Jobs of lines ended, one after the other.
fn end_each<D: Disk, U: Disk>(
    alloc: Global,
    storage: &mut Storage<D>,
    undelivered: &mut Option<Undelivered<U>>,
    causes: &Causes<'_>,
    ended: &[LineReport],
)
    ensures { EndStoredAlone
        D.seen D.may_leave D.is_usable D.is_clean U.seen U.may_leave U.is_usable
        (λ line report. card_for report (cause_of causes.now.of_lines.now line) causes.now.day)
        ended.now storage.old.queues.items storage.new.queues.items
        storage.old.spool storage.new.spool undelivered.old undelivered.new }
{
    for one in ended {
        end_one(alloc, storage, undelivered, causes, *one);
    }
}

/// A job of a line ended.
fn end_one<D: Disk, U: Disk>(
    alloc: Global,
    storage: &mut Storage<D>,
    undelivered: &mut Option<Undelivered<U>>,
    causes: &Causes<'_>,
    one: LineReport,
)
    ensures { EndsStored D.seen D.may_leave D.is_usable D.is_clean U.seen U.may_leave U.is_usable
        one.line one.report
        (card_for one.report (cause_of causes.now.of_lines.now one.line) causes.now.day)
        storage.old.queues.items storage.new.queues.items
        storage.old.spool storage.new.spool undelivered.old undelivered.new }
{
    let ending = Ending {
        report: one.report,
        cause: cause_of(causes.of_lines, one.line),
        day: causes.day,
    };
    let may = may_end(alloc, storage, undelivered, one.line, &ending);
    end_where(storage, one.line, one.report, may);
}

/// The job of a line that is first in turn ended: where that may be noted, it is.
fn end_where<D: Disk>(storage: &mut Storage<D>, line: usize, report: Report, may: bool)
    ensures { EndsWhere D.seen D.may_leave D.is_usable may line report
        storage.old.queues.items storage.new.queues.items storage.old.spool storage.new.spool }
{
    if !may {
        storage.leave(line);
        return;
    }
    let _ = storage.end(line, report);
}

impl<D: Disk, U: Disk> OnDisk<D> for PairedStore<D, U> {
    ghost queues_of = { λ store. store.storage.queues.items };

    ghost spool_of = { λ store. store.storage.spool };
}
