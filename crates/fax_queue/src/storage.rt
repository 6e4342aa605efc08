//! The pages of a server that are stored on a disk.
ghost use Rattle.std.specs.Prelude.{ℕ, ◌≡◌, ◌<◌, false, true, List, [], ◌++◌, All, IfErr, IfOk, IsErr, MatchOption, None, Some, OnErr, OnOk, is_ok, length, slice_get, slice_set};
ghost use Rattle.fax_spool.specs.Calls.{Accepts, IsRead, Refuses, refuses_now, Rests};
ghost use Rattle.fax_spool.specs.RecordOctets.{PageValue as SpoolPage};
ghost use Rattle.fax_spool.specs.Spools.{epoch_now};
ghost use Rattle.fax_spool.specs.Waits.{PageName};
ghost use Rattle.fax_line.specs.declared.settling.PageToStore.{PageToStore as ToStore};
ghost use Rattle.fax_queue.specs.EndFaults.{IsWhy, IsWhyAt};
ghost use Rattle.fax_queue.specs.Jobs.{EndsJob, EndsJobAt, IsTidy, ReadsLeft, WaitSo};
ghost use Rattle.fax_queue.specs.Storing.{AddAll, AddsAt, Agree, AllAreAmong, AreNumbersOf, ArePut, HaveOwnNames, PutsNumbered, StoresPages, number_at};
ghost use Rattle.fax_queue.specs.Refusals.{AreRefused, EndsSomehow, EndsSomehowAt, PutsEnd, notes_of};
ghost use Rattle.fax_queue.specs.Queues.{QueueValue, first_tag, is_of_earlier_life};
ghost use Rattle.fax_queue.specs.Tags.{NotesTag, PutsTagged};
ghost use Rattle.fax_queue.specs.Together.{EndsTogether};
ghost use Rattle.fax_line.specs.Settling.{RiseByLine};

use crate::end_fault::EndFault;
use crate::ending::{mark_unsure, plan_ends, put_ends, record_of, stored_pages, take_job};
use crate::putting::{CallTag, Names, put_pages};
use crate::queue::{EndedJob, Queue, QueuedPage};
use crate::reading::read_job;
use fax_jobs::Report;
use fax_line::{LineReport, PageToStore};
use fax_spool::laws::files_share_what_waits;
use fax_spool::{Spool, WaitingPage};
use fax_wires::holding::{PageStore, StoreFault};
use sqlite_disk::Disk;
use std::alloc::Global;

/// Where so many octets were put into a file, the other one is taken into use once it is empty; and where a page in that one does not go,
/// what waits is copied forward.
const MOST_OCTETS: usize = 16 * 1024 * 1024;

/// What the record of a page has beside its text and its names, in octets, at most.
const RECORD_OCTETS: usize = 64;

/// A spool, and what is known of the pages in it.
pub struct Storage<D: Disk> {
    alloc: Global,
    spool: Spool<D>,
    /// The number of this life.
    life: u32,
    /// Of each line, in the order of the configuration.
    queues: Vec<Queue>,
    /// The tags of the calls whose pages are stored next.
    tags: Vec<CallTag>,
    /// How many octets were put since a file was taken into use, at least.
    octets: usize,
    /// How many pages wait on the disk.
    stored: u64,
}

impl<D: Disk + Drop> Drop for Storage<D> {
    fn drop(self) {
        let Storage {
            alloc: _alloc,
            spool: _spool,
            life: _life,
            queues: _queues,
            tags: _tags,
            octets: _octets,
            stored: _stored,
        } = self;
    }
}

impl<D: Disk> Storage<D> {
    /// A life begins over this spool, in which these pages wait.
    pub fn new(alloc: Global, spool: Spool<D>, queues: Vec<Queue>) -> Self
        ensures spool { result.spool ≡ spool }
        ensures life { result.life ≡ epoch_now spool }
        ensures queues { result.queues.items ≡ queues.items }
    {
        let life = spool.epoch();
        let mut stored: u64 = 0;
        for queue in queues.iter() {
            stored = stored.saturating_add(queue.stored());
        }
        Storage {
            alloc,
            spool,
            life,
            queues,
            tags: Vec::new(alloc),
            octets: MOST_OCTETS,
            stored,
        }
    }

    /// Its spool, as its life ends.
    pub fn into_spool(self) -> Spool<D>
        ensures { result ≡ self.spool }
    {
        let Storage {
            alloc: _,
            spool,
            life: _,
            queues: _,
            tags: _,
            octets: _,
            stored: _,
        } = self;
        spool
    }

    /// Whether a call of the disk has failed: then it keeps no page, and notes no end.
    pub fn refuses(&self) -> bool
        ensures { result ≡ refuses_now self.now.spool }
    {
        self.spool.refuses()
    }

    /// What is known of the lines' pages.
    pub fn queues(&self) -> &[Queue]
        ensures { result.now ≡ self.now.queues.items }
    {
        self.queues.as_slice()
    }

    /// How many pages wait on the disk.
    pub fn stored(&self) -> u64
        ensures { result ≡ self.now.stored }
    {
        self.stored
    }

    /// Whether the job of line i that is first in turn was confirmed in an earlier life.
    pub fn is_restored(&self, i: usize) -> bool
        ensures { MatchOption (slice_get self.now.queues.items i) (result ≡ false)
            (λ queue. result ≡ is_of_earlier_life self.now.life queue.waits) }
    {
        match self.queues.get(i) {
            Some(queue) => queue.is_restored(self.life),
            None => false,
        }
    }

    /// The tag of the job of line i that is first in turn, where that was confirmed in an earlier life.
    pub fn restored_tag(&self, i: usize) -> Option<&str>
        ensures { MatchOption (slice_get self.now.queues.items i) (result ≡ None) (λ queue.
            MatchOption result (first_tag queue ≡ None) (λ tag. first_tag queue ≡ Some tag.now)) }
    {
        match self.queues.get(i) {
            Some(queue) => queue.restored_tag(),
            None => None,
        }
    }

    /// Pages of lines are stored next, all of them at once.
    pub fn begin_put(&mut self)
        ensures spool { self.new.spool ≡ self.old.spool }
        ensures life { self.new.life ≡ self.old.life }
        ensures queues { self.new.queues.items ≡ self.old.queues.items }
        ensures tags { self.new.tags.items ≡ [] }
    {
        self.tags.clear();
    }

    /// One of them came in a call of line i that has this tag. Without memory for that the page is stored without one.
    pub fn set_tag(&mut self, i: usize, tag: &str)
        ensures spool { self.new.spool ≡ self.old.spool }
        ensures life { self.new.life ≡ self.old.life }
        ensures queues { self.new.queues.items ≡ self.old.queues.items }
        ensures tags { NotesTag i tag.now self.old.tags.items self.new.tags.items }
    {
        if let Ok(tag) = tag.as_bytes().to_vec(self.alloc) {
            let _ = self.tags.push(CallTag { line: i, tag });
        }
    }

    /// A page of line i that was confirmed in this call was not handed over, as for want of memory: it waits, and is not on the disk.
    pub fn note(&mut self, i: usize, call: u32)
        ensures spool { self.new.spool ≡ self.old.spool }
        ensures waits { AddsAt (record {
          life = self.old.life;
          call = call;
          number = number_at self.old.queues.items self.old.life i call;
          is_stored = false;
        })
            i self.old.queues.items self.new.queues.items }
        ensures names { (names : List PageName)
            → AllAreAmong self.old.queues.items names → AllAreAmong self.new.queues.items names }
    {
        let number = self.next_number(i, call);
        self.wait(i, call, number, false);
    }

    /// Which page of this call of line i the next one is, from 1 on.
    fn next_number(&self, i: usize, call: u32) -> u32
        ensures { result ≡ number_at self.now.queues.items self.now.life i call }
    {
        match self.queues.get(i) {
            Some(queue) => queue.next_number(self.life, call),
            None => 0,
        }
    }

    /// A page of line i waits, which is on the disk or not.
    fn wait(&mut self, i: usize, call: u32, number: u32, is_stored: bool)
        ensures spool { self.new.spool ≡ self.old.spool }
        ensures life { self.new.life ≡ self.old.life }
        ensures queues { AddsAt (record {
          life = self.old.life;
          call = call;
          number = number;
          is_stored = is_stored;
        }) i self.old.queues.items self.new.queues.items }
    {
        let life = self.life;
        if let Some(queue) = self.queues.get_mut(i) {
            queue.add(QueuedPage {
                life,
                call,
                number,
                is_stored,
            });
        }
    }

    /// Which pages of their calls these are, of lines one each, from 1 on: of the first of them, where memory is refused for more.
    fn numbers_of(&self, pages: &[PageToStore]) -> Vec<u32>
        ensures { AreNumbersOf self.now.queues.items self.now.life pages.now result.items }
    {
        let mut numbers = Vec::new(self.alloc);
        for page in pages {
            if numbers.reserve(1).is_err() {
                return numbers;
            }
            let number = self.next_number(page.line, page.kept.call);
            numbers.push_reserved(number);
        }
        numbers
    }

    /// A page that was put waits; where it is not on the disk, it waits all the same.
    fn add(&mut self, page: &PageToStore, number: u32, is_stored: bool)
        ensures spool { self.new.spool ≡ self.old.spool }
        ensures life { self.new.life ≡ self.old.life }
        ensures queues { AddsAt (record {
          life = self.old.life;
          call = page.now.kept.call;
          number = number;
          is_stored = is_stored;
        })
            page.now.line self.old.queues.items self.new.queues.items }
    {
        self.wait(page.line, page.kept.call, number, is_stored);
        if is_stored {
            self.stored = self.stored.saturating_add(1);
            let octets = page.text.as_slice().len().saturating_add(RECORD_OCTETS);
            self.octets = self.octets.saturating_add(octets);
        }
    }

    /// The same of all that were put at once, with their numbers.
    fn add_all(&mut self, pages: &[PageToStore], numbers: &[u32], is_stored: bool)
        ensures spool { self.new.spool ≡ self.old.spool }
        ensures queues { AddAll self.old.life
            is_stored pages.now numbers.now self.old.queues.items self.new.queues.items }
    {
        for (k, page) in pages.iter().enumerate() {
            let number = match numbers.get(k) {
                Some(number) => *number,
                None => self.next_number(page.line, page.kept.call),
            };
            self.add(page, number, is_stored);
        }
    }

    /// The job of line i that was first in turn ended: its pages wait no more, and at `Ok` that is noted, whatever crash follows. An
    /// `Err` says why it is not: but for `NoneThere` the pages are restored at the next start, and sent again, and no later end of the
    /// line is noted in this life; and at `DiskFailed` it is noted or not, and the spool refuses everything from then on. Where a file
    /// could not be cleared or taken into use after it, it is noted all the same.
    pub fn end(&mut self, i: usize, report: Report) -> Result<(), EndFault>
        ensures agree { OnOk result (HaveOwnNames self.old.queues.items
            → Agree D.seen D.may_leave D.is_usable self.old.spool self.old.queues.items
            → Accepts self.new.spool
            → Agree D.seen D.may_leave D.is_usable self.new.spool self.new.queues.items) }
        ensures ends { OnOk result (EndsJobAt D.seen D.may_leave D.is_usable report.pages
            i self.old.queues.items self.new.queues.items self.old.spool self.new.spool) }
        ensures tidy { OnOk result ((waits : List SpoolPage)
            → Rests D.seen D.may_leave D.is_usable self.old.spool waits
            → Accepts self.new.spool → IsTidy D.seen D.may_leave D.is_usable self.new.spool) }
        ensures sure { OnOk result ((queue : QueueValue) → slice_get self.old.queues.items i
            ≡ Some queue → notes_of self.old.spool queue ≡ true) }
        ensures unnoted { IfErr result
            (λ fault. IsWhyAt fault report.pages i self.old.queues.items self.new.spool) }
        ensures action { OnErr result (i < length self.old.queues.items
            → EndsSomehowAt D.seen D.may_leave D.is_usable report.pages
            i self.old.queues.items self.new.queues.items self.old.spool self.new.spool) }
        ensures refuses { Refuses self.old.spool
            → IsErr result × (self.new.spool ≡ self.old.spool) }
    {
        if i >= self.queues.len() {
            return Err(EndFault::NoLine);
        }
        let kept = put_end(self.alloc, &mut self.spool, &mut self.queues[i], report)?;
        self.stored = self.stored.saturating_sub(kept);
        self.octets = change_files(self.alloc, &mut self.spool, self.octets);
        Ok(())
    }

    /// Of each of these lines the job that was first in turn ended, with its report: as `end` of each, but their records are put all of
    /// them at once, with two syncs however many there are. They are in the order of their lines, one of a line at most. At `Ok` the
    /// ends are noted, but of those jobs of which no record can be; at an `Err` none is, as where none of them can have one.
    pub fn end_all(&mut self, ended: &[LineReport]) -> Result<(), StoreFault>
        requires { RiseByLine ended.now }
        ensures ends { (ends : EndsTogether D.seen D.may_leave D.is_usable ended.now
            self.old.queues.items self.new.queues.items self.old.spool self.new.spool)
            × (ends.is_ok ≡ is_ok result) }
        ensures tidy { OnOk result ((waits : List SpoolPage)
            → Rests D.seen D.may_leave D.is_usable self.old.spool waits
            → Accepts self.new.spool → IsTidy D.seen D.may_leave D.is_usable self.new.spool) }
    {
        let plan = plan_ends(self.alloc, self.queues.as_mut_slice(), ended);
        let plan = plan.as_slice();
        let Ok(()) = put_ends(self.alloc, &mut self.spool, self.queues.as_slice(), plan) else {
            mark_unsure(self.queues.as_mut_slice(), plan);
            return Err(StoreFault);
        };
        let stored = stored_pages(plan);
        self.stored = self.stored.saturating_sub(stored);
        self.octets = change_files(self.alloc, &mut self.spool, self.octets);
        Ok(())
    }

    /// Of the job of line i that is first in turn its pages that are on the disk, from the first that was not delivered on: none where
    /// all were, or where none of the others is there. An `Err` where there is no such line, where it is not known which pages the job
    /// had, or where one of them could not be read; then none of them is lost, and the spool refuses only where it did.
    pub fn job_pages(&mut self, i: usize, report: Report) -> Result<Vec<WaitingPage>, EndFault>
        ensures ok { IfOk result (λ pages. MatchOption (slice_get self.old.queues.items i) ⊥
            (λ queue. ReadsLeft D.seen D.may_leave D.is_usable D.is_clean report.pages
            report.delivered queue self.old.spool self.new.spool pages.items)) }
        ensures fault { IfErr result
            (λ fault. MatchOption (slice_get self.old.queues.items i) (fault ≡ EndFault.NoLine)
            (λ queue. fault ≡ EndFault.NotStored)) }
        ensures read { IsRead D.seen D.may_leave D.is_usable self.old.spool self.new.spool }
        ensures refuses { Refuses self.old.spool → self.new.spool ≡ self.old.spool }
        ensures queues { self.new.queues.items ≡ self.old.queues.items }
        ensures life { self.new.life ≡ self.old.life }
        ensures tags { self.new.tags.items ≡ self.old.tags.items }
        ensures kept { self.new.stored ≡ self.old.stored }
    {
        if i >= self.queues.len() {
            return Err(EndFault::NoLine);
        }
        read_job(self.alloc, &mut self.spool, &self.queues[i], report)
    }

    /// The end of the job of line i that is first in turn is not noted, since its pages could not be kept elsewhere: they are restored
    /// at the next start, and sent again, and no later end of the line is noted in this life.
    pub fn leave(&mut self, i: usize)
        ensures spool { self.new.spool ≡ self.old.spool }
        ensures life { self.new.life ≡ self.old.life }
        ensures unsure { MatchOption (slice_get self.old.queues.items i) (self.new.queues.items
            ≡ self.old.queues.items) (λ queue. self.new.queues.items
            ≡ slice_set self.old.queues.items i (record queue { is_whole = false })) }
        ensures left { (pages : ℕ)
            → i < length self.old.queues.items → EndsSomehowAt D.seen D.may_leave D.is_usable pages
            i self.old.queues.items self.new.queues.items self.old.spool self.new.spool }
    {
        if i >= self.queues.len() {
            return;
        }
        self.queues[i].mark_unsure();
    }
}

/// The job of so many pages that is first in turn on a queue ended: puts its record into a spool, and answers how many of its pages
/// were on the disk. An `Err` says why there is no record; at `DiskFailed` there may be one.
fn put_end<D: Disk>(
    alloc: Global,
    spool: &mut Spool<D>,
    queue: &mut Queue,
    report: Report,
) -> Result<u64, EndFault>
    ensures ends { OnOk result (EndsJob D.seen D.may_leave D.is_usable report.pages
        queue.old queue.new spool.old spool.new) }
    ensures sure { OnOk result (notes_of spool.old queue.old ≡ true) }
    ensures unnoted { IfErr result (λ fault. IsWhy fault report.pages queue.old spool.new) }
    ensures action { OnErr result (EndsSomehow D.seen D.may_leave D.is_usable report.pages
        queue.old queue.new spool.old spool.new) }
    ensures refuses { Refuses spool.old → IsErr result × (spool.new ≡ spool.old) }
{
    let ended = take_job(queue, report)?;
    match put_ended(alloc, spool, queue.line(), &ended, report) {
        Ok(()) => Ok(ended.stored),
        Err(_) => {
            queue.mark_unsure();
            Err(not_put(spool))
        }
    }
}

/// Why a record was not put into a spool, which is this after that.
fn not_put<D: Disk>(spool: &Spool<D>) -> EndFault
    ensures { (pages : ℕ) (was : QueueValue) → IsWhy result pages was spool.now }
{
    if spool.refuses() {
        EndFault::DiskFailed
    } else {
        EndFault::NoMemory
    }
}

/// Puts the record of the end of these pages into a spool.
fn put_ended<D: Disk>(
    alloc: Global,
    spool: &mut Spool<D>,
    line: &str,
    ended: &EndedJob,
    report: Report,
) -> Result<(), StoreFault>
    requires { length line.now < 256 }
    ensures { PutsEnd D.seen D.may_leave D.is_usable ended.now
        line.now (is_ok result) spool.old spool.new }
{
    let record = record_of(line.as_bytes(), ended, report);
    match spool.end(alloc, &record) {
        Ok(()) => Ok(()),
        Err(_) => Err(StoreFault),
    }
}

/// The older file is cleared where nothing in it waits; and where so many octets were put into the newer one that they are enough,
/// the other is taken into use, and the one before cleared, where nothing in it waits. Where a page of the older one waits still, what
/// waits is copied forward, where that has at most a quarter of those octets. It answers how many count from then on. What fails is
/// tried again after the next end of a job.
pub fn change_files<D: Disk>(alloc: Global, spool: &mut Spool<D>, octets: usize) -> usize
    ensures told { (waits : List SpoolPage)
        → Rests D.seen D.may_leave D.is_usable spool.old waits
        → WaitSo D.seen D.may_leave D.is_usable spool.new (λ told. told ≡ waits) }
    ensures tidy { (waits : List SpoolPage)
        → Rests D.seen D.may_leave D.is_usable spool.old waits
        → Accepts spool.new → IsTidy D.seen D.may_leave D.is_usable spool.new }
    ensures refuses { Refuses spool.old → spool.new ≡ spool.old }
{
    let Ok(is_empty) = clear_older(spool) else {
        return octets;
    };
    if octets < MOST_OCTETS {
        return octets;
    }
    if is_empty {
        return take_other(alloc, spool, octets);
    }
    copy_forward(alloc, spool, octets)
}

/// The other file is taken into use where it is empty, and the one before cleared where nothing in it waits. It answers how many of so
/// many octets count from then on.
fn take_other<D: Disk>(alloc: Global, spool: &mut Spool<D>, octets: usize) -> usize
    ensures told { (waits : List SpoolPage)
        → Rests D.seen D.may_leave D.is_usable spool.old waits
        → WaitSo D.seen D.may_leave D.is_usable spool.new (λ told. told ≡ waits) }
    ensures tidy { (waits : List SpoolPage)
        → Rests D.seen D.may_leave D.is_usable spool.old waits
        → IsTidy D.seen D.may_leave D.is_usable spool.old
        → Accepts spool.new → IsTidy D.seen D.may_leave D.is_usable spool.new }
    ensures refuses { Refuses spool.old → spool.new ≡ spool.old }
{
    let Ok(was_changed) = change(alloc, spool) else {
        return octets;
    };
    if !was_changed {
        return octets;
    }
    let _ = clear_older(spool);
    0
}

/// All that waits is put again into the newer file, where that has at most a quarter of so many octets, so that the older one is cleared and
/// taken into use; and once more into that, so that the one before is cleared too. It answers how many of these octets count from then on.
fn copy_forward<D: Disk>(alloc: Global, spool: &mut Spool<D>, octets: usize) -> usize
    ensures told { (waits : List SpoolPage)
        → Rests D.seen D.may_leave D.is_usable spool.old waits
        → WaitSo D.seen D.may_leave D.is_usable spool.new (λ told. told ≡ waits) }
    ensures tidy { (waits : List SpoolPage)
        → Rests D.seen D.may_leave D.is_usable spool.old waits
        → IsTidy D.seen D.may_leave D.is_usable spool.old
        → Accepts spool.new → IsTidy D.seen D.may_leave D.is_usable spool.new }
    ensures refuses { Refuses spool.old → spool.new ≡ spool.old }
{
    let Ok(was_put) = put_again(alloc, spool, octets / 4) else {
        return octets;
    };
    if !was_put {
        return octets;
    }
    let Ok(_) = clear_older(spool) else {
        return octets;
    };
    let left = take_other(alloc, spool, octets);
    let _ = put_again(alloc, spool, octets);
    let _ = clear_older(spool);
    left
}

/// The older file is cleared where nothing in it waits.
fn clear_older<D: Disk>(spool: &mut Spool<D>) -> Result<bool, StoreFault>
    ensures tidy { OnOk result ((waits : List SpoolPage)
        → Rests D.seen D.may_leave D.is_usable spool.old waits
        → IsTidy D.seen D.may_leave D.is_usable spool.new) }
    ensures failed { OnErr result ((waits : List SpoolPage)
        → Rests D.seen D.may_leave D.is_usable spool.old waits → Refuses spool.new) }
    ensures stays { OnOk result ((waits : List SpoolPage)
        → Rests D.seen D.may_leave D.is_usable spool.old waits
        → Rests D.seen D.may_leave D.is_usable spool.new waits) }
    ensures told { OnErr result ((waits : List SpoolPage)
        → Rests D.seen D.may_leave D.is_usable spool.old waits
        → WaitSo D.seen D.may_leave D.is_usable spool.new (λ told. told ≡ waits)) }
    ensures refuses { Refuses spool.old → IsErr result × (spool.new ≡ spool.old) }
{
    files_share_what_waits();
    match spool.clear() {
        Ok(was) => Ok(was),
        Err(_) => Err(StoreFault),
    }
}

/// The other file is taken into use where it is empty.
fn change<D: Disk>(alloc: Global, spool: &mut Spool<D>) -> Result<bool, StoreFault>
    ensures same { IfOk result (λ was. was ≡ false → IsTidy D.seen D.may_leave D.is_usable spool.old
        → IsTidy D.seen D.may_leave D.is_usable spool.new) }
    ensures failed { OnErr result (IsTidy D.seen D.may_leave D.is_usable spool.old
        → Accepts spool.new → IsTidy D.seen D.may_leave D.is_usable spool.new) }
    ensures stays { OnOk result ((waits : List SpoolPage)
        → Rests D.seen D.may_leave D.is_usable spool.old waits
        → Rests D.seen D.may_leave D.is_usable spool.new waits) }
    ensures told { OnErr result ((waits : List SpoolPage)
        → Rests D.seen D.may_leave D.is_usable spool.old waits
        → WaitSo D.seen D.may_leave D.is_usable spool.new (λ told. told ≡ waits)) }
    ensures refuses { Refuses spool.old → IsErr result × (spool.new ≡ spool.old) }
{
    match spool.change(alloc) {
        Ok(was) => Ok(was),
        Err(_) => Err(StoreFault),
    }
}

/// All that waits is put again into the newer file, where it has at most so many octets, and is kept in memory.
fn put_again<D: Disk>(alloc: Global, spool: &mut Spool<D>, most: usize) -> Result<bool, StoreFault>
    ensures same { IfOk result (λ was. was ≡ false → IsTidy D.seen D.may_leave D.is_usable spool.old
        → IsTidy D.seen D.may_leave D.is_usable spool.new) }
    ensures failed { OnErr result (IsTidy D.seen D.may_leave D.is_usable spool.old
        → Accepts spool.new → IsTidy D.seen D.may_leave D.is_usable spool.new) }
    ensures stays { OnOk result ((waits : List SpoolPage)
        → Rests D.seen D.may_leave D.is_usable spool.old waits
        → Rests D.seen D.may_leave D.is_usable spool.new waits) }
    ensures told { OnErr result ((waits : List SpoolPage)
        → Rests D.seen D.may_leave D.is_usable spool.old waits
        → WaitSo D.seen D.may_leave D.is_usable spool.new (λ told. told ≡ waits)) }
    ensures refuses { Refuses spool.old → IsErr result × (spool.new ≡ spool.old) }
{
    match spool.put_again(alloc, most) {
        Ok(was) => Ok(was),
        Err(_) => Err(StoreFault),
    }
}

/// What it keeps are records of its spool.
impl<D: Disk> PageStore<PageToStore> for Storage<D> {
    ghost use Rattle.fax_queue.specs.Storing.{StoresPages};

    ghost keeps = { λ storage pages.
        StoresPages D.seen D.may_leave D.is_usable storage.spool pages };

    fn store_all(&mut self, pages: &[PageToStore]) -> Result<(), StoreFault>
        ensures kept { OnOk result ((before : List ToStore)
            → StoresPages D.seen D.may_leave D.is_usable self.old.spool before
            → StoresPages D.seen D.may_leave D.is_usable self.new.spool (before ++ pages.now)) }
        ensures tagged { OnOk result (PutsTagged D.seen D.may_leave D.is_usable self.old.tags.items
            pages.now self.old.spool self.new.spool) }
        ensures numbered { OnOk result (PutsNumbered D.seen D.may_leave D.is_usable
            self.old.queues.items self.old.life pages.now self.old.spool self.new.spool) }
        ensures put { OnOk result (ArePut D.seen D.may_leave D.is_usable pages.now
            self.old.queues.items self.new.queues.items self.old.spool self.new.spool) }
        ensures agree { OnOk result
            (Agree D.seen D.may_leave D.is_usable self.old.spool self.old.queues.items
            → Agree D.seen D.may_leave D.is_usable self.new.spool self.new.queues.items) }
        ensures names { OnErr result ((names : List PageName)
            → AllAreAmong self.old.queues.items names → AllAreAmong self.new.queues.items names) }
        ensures refused { OnErr result (All
            (λ page. page.line < length self.old.queues.items) pages.now
            → AreRefused D.seen D.may_leave D.is_usable pages.now
            self.old.queues.items self.new.queues.items self.old.spool self.new.spool) }
        ensures refuses { Refuses self.old.spool
            → IsErr result × (self.new.spool ≡ self.old.spool) }
    {
        let numbers = self.numbers_of(pages);
        let names = Names {
            life: self.life,
            numbers: numbers.as_slice(),
            queues: self.queues.as_slice(),
            tags: self.tags.as_slice(),
        };
        let answer = put_pages(self.alloc, &mut self.spool, pages, &names);
        self.add_all(pages, numbers.as_slice(), answer.is_ok());
        answer
    }
}
