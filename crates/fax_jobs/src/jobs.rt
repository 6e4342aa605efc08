//! The book of jobs.
ghost use Rattle.std.specs.Prelude.{◌≡◌, ◌<◌, ◌≤◌, ◌^◌, None, length, slice_get, option_copied, IfOk, IfErr, OnOk, OnErr, IsSome};
ghost use Rattle.fax_jobs.specs.Books.{new_book, next_job, opened, added, closed, taken, ended, confirmed, joins, TakesPage};
ghost use Rattle.fax_jobs.specs.Newest.{newest_job, newest_page};
ghost use Rattle.fax_jobs.specs.Octets.{octets_of_book};

use crate::{Job, Outcome, Report};
use circular_buffer::HeapCircularBuffer;
use fax_bits::NoMemory;
use fax_pagestore::{Page, RowStore};
use std::alloc::Global;
use std::collections::VecDeque;
use std::marker::Model;
use std::mem;

/// How many reports are kept.
const KEPT_REPORTS: usize = 64;

/// The most pages of a job.
const MOST_PAGES: u32 = 999;

/// The jobs of a gateway: the one that pages still join, those that wait, the one that is being sent, and the reports of
/// the last 64 that ended. Memory is asked for where a book is made and where a page comes, or before that by `reserve`;
/// closing a job, sending it and ending it take none and cannot fail.
pub struct Jobs<S: RowStore> {
    alloc: Global,
    open_job: Option<Job<S>>,
    /// The first to be closed in front. While a job is open there is room for it.
    waiting: VecDeque<Job<S>>,
    sending: Option<Job<S>>,
    /// How many octets the pages of all of these jobs hold in memory.
    held: u128,
    /// The oldest in front.
    reports: HeapCircularBuffer<Report>,
    /// Empty: room for the first page of the next job.
    first: Vec<Page<S>>,
    /// Empty: room for the pages of the open job and one more.
    larger: Vec<Page<S>>,
    /// For how many pages there surely is room, 1 or 0.
    spare: usize,
}

impl<S: RowStore> Drop for Jobs<S> {
    fn drop(self) {
        let Jobs {
            alloc: _alloc,
            open_job: _open_job,
            waiting: _waiting,
            sending: _sending,
            held: _held,
            reports: _reports,
            first: _first,
            larger: _larger,
            spare: _spare,
        } = self;
    }
}

impl<S: RowStore> Model for Jobs<S> {
    ghost use Rattle.std.specs.Prelude.{◌≡◌, ◌<◌, IsSome, vec_len, vec_capacity};
    ghost use Rattle.std.specs.VecDeque.{deque_len, deque_capacity};
    ghost use Rattle.fax_jobs.specs.Books.{JobsValue, HasRoom, kept_reports};
    ghost use Rattle.fax_jobs.specs.Octets.{IsCounted};

    ghost Value = { JobsValue };

    ghost view = { λ jobs.
        record {
          book = record {
            open_job = jobs.open_job;
            waiting = jobs.waiting.items;
            sending = jobs.sending;
            reports = jobs.reports.items;
          };
          spare = jobs.spare;
        } };

    ghost invariant = { λ jobs. (jobs.reports.capacity ≡ kept_reports)
        × (IsSome jobs.open_job → deque_len jobs.waiting < deque_capacity jobs.waiting)
        × (vec_len jobs.first ≡ 0) × (vec_len jobs.larger ≡ 0)
        × (0 < jobs.spare → HasRoom jobs.open_job (deque_len jobs.waiting)
        (deque_capacity jobs.waiting) (vec_capacity jobs.first) (vec_capacity jobs.larger))
        × IsCounted jobs.open_job jobs.waiting.items jobs.sending jobs.held };
}

impl<S: RowStore> Jobs<S> {
    /// A book with no jobs and no reports. It takes memory for 64 reports.
    pub fn new(alloc: Global) -> Result<Self, NoMemory>
        ensures { IfOk result (λ jobs. jobs.book ≡ new_book) }
    {
        let reports = HeapCircularBuffer::with_capacity(alloc, KEPT_REPORTS)?;
        Ok(Jobs {
            alloc,
            open_job: None,
            waiting: VecDeque::new(alloc),
            sending: None,
            held: 0,
            reports,
            first: Vec::new(alloc),
            larger: Vec::new(alloc),
            spare: 0,
        })
    }

    /// Makes room for one page: the next `open`, `add_page` or `confirm` takes no memory.
    pub fn reserve(&mut self) -> Result<(), NoMemory>
        ensures room { OnOk result (1 ≤ self.new.spare) }
        ensures same { self.new.book ≡ self.old.book }
        ensures err { OnErr result (self.new ≡ self.old) }
    {
        let pages = match &self.open_job {
            None => 0,
            Some(job) => job.page_count() as usize,
        };
        self.first.reserve_exact(1)?;
        self.larger.reserve_exact(pages + 1)?;
        // a job that is closed for the page waits, and the page's own has its place
        self.waiting.reserve(2)?;
        self.spare = 1;
        Ok(())
    }

    /// Opens a job with its first page, which came in the call of this number. For want of memory nothing changes, and
    /// the page is handed back.
    pub fn open(&mut self, call: u32, page: Page<S>) -> Result<(), Page<S>>
        requires { self.old.book.open_job ≡ None }
        ensures opened { OnOk result (self.new.book ≡ opened self.old.book call page) }
        ensures back { IfErr result (λ back. back ≡ page) }
        ensures err { OnErr result (self.new ≡ self.old) }
        ensures memory { OnErr result (self.old.spare ≡ 0) }
    {
        self.open_next(call, page)
    }

    /// Adds a page to the open job, which has fewer than 999 pages. For want of memory nothing
    /// changes, and the page is handed back.
    pub fn add_page(&mut self, page: Page<S>) -> Result<(), Page<S>>
        requires { TakesPage self.old.book.open_job }
        ensures added { OnOk result (self.new.book ≡ added self.old.book page) }
        ensures back { IfErr result (λ back. back ≡ page) }
        ensures err { OnErr result (self.new ≡ self.old) }
        ensures memory { OnErr result (self.old.spare ≡ 0) }
    {
        match &mut self.open_job {
            None => unreachable!(),
            Some(job) => {
                // as many jobs as can wait
                let _ = self.waiting.len();
                let held = self.held + u128::from(page.held());
                if self.spare == 0 {
                    job.add_page(page)?;
                    // what it ensures bounds what a job holds
                    let _ = job.held();
                    self.held = held;
                    return Ok(());
                }
                self.spare = 0;
                job.add_within(&mut self.larger, page);
                let _ = job.held();
                self.held = held;
                Ok(())
            }
        }
    }

    /// A page was confirmed in the call of this number: it joins the open job, or that is closed and another one opened
    /// with it. Where it `closes`, as after EOP, the job is closed. For want of memory nothing changes, and the page is
    /// handed back.
    pub fn confirm(&mut self, call: u32, page: Page<S>, closes: bool) -> Result<(), Page<S>>
        ensures confirmed { OnOk result (self.new.book ≡ confirmed self.old.book call page closes) }
        ensures back { IfErr result (λ back. back ≡ page) }
        ensures err { OnErr result (self.new ≡ self.old) }
        ensures memory { OnErr result (self.old.spare ≡ 0) }
    {
        if self.joins(call) {
            self.add_page(page)?;
        } else {
            self.open_next(call, page)?;
        }
        if closes {
            self.end_call();
        }
        Ok(())
    }

    /// A call has ended: its open job, where there is one, is closed. It takes no memory.
    pub fn end_call(&mut self)
        ensures closed { self.new.book ≡ closed self.old.book }
        ensures spare { self.new.spare ≡ self.old.spare }
    {
        if self.open_job.is_some() {
            self.close();
        }
    }

    /// Closes the open job, which waits after the others then. It takes no memory.
    pub fn close(&mut self)
        requires { IsSome self.old.book.open_job }
        ensures closed { self.new.book ≡ closed self.old.book }
        ensures spare { self.new.spare ≡ self.old.spare }
    {
        if let Some(job) = self.open_job.take() {
            self.waiting.push_back_reserved(job);
        }
    }

    /// Takes the job that was closed first as the one that is being sent, or none where none waits. It takes no memory,
    /// and as long however many wait.
    pub fn next(&mut self)
        requires { self.old.book.sending ≡ None }
        ensures taken { self.new.book ≡ taken self.old.book }
        ensures spare { self.new.spare ≡ self.old.spare }
    {
        self.sending = self.waiting.pop_front();
    }

    /// The job that is being sent has ended so, with so many pages delivered: it is reported, and its pages go. It takes
    /// no memory.
    pub fn end(&mut self, outcome: Outcome, delivered: u32)
        requires { IsSome self.old.book.sending }
        ensures ended { self.new.book ≡ ended self.old.book outcome delivered }
        ensures spare { self.new.spare ≡ self.old.spare }
    {
        match self.sending.take() {
            None => unreachable!(),
            Some(job) => {
                let report = Report {
                    call: job.call(),
                    format: job.format(),
                    pages: job.page_count(),
                    delivered,
                    outcome,
                };
                self.held -= u128::from(job.held());
                self.reports.push_back(report);
            }
        }
    }

    /// The job that pages still join.
    pub fn open_job(&self) -> Option<&Job<S>>
        ensures { option_copied result ≡ self.now.book.open_job }
    {
        self.open_job.as_ref()
    }

    /// The job that is being sent.
    pub fn sending(&self) -> Option<&Job<S>>
        ensures { option_copied result ≡ self.now.book.sending }
    {
        self.sending.as_ref()
    }

    /// How many jobs wait.
    pub fn waiting(&self) -> usize
        ensures { result ≡ length self.now.book.waiting }
    {
        self.waiting.len()
    }

    /// The job that was closed first of those that wait: it is sent next.
    pub fn first_waiting(&self) -> Option<&Job<S>>
        ensures { option_copied result ≡ next_job self.now.book }
    {
        self.waiting.front()
    }

    /// The page that joined last, for as long as its job is open, waits or is being sent.
    pub fn newest_page(&self) -> Option<&Page<S>>
        ensures { option_copied result ≡ newest_page self.now.book }
    {
        let job = self.newest_job()?;
        job.pages().as_slice().last()
    }

    /// How many octets the pages of all of its jobs hold in memory, as [`Page::held`] says it. It takes no memory, and as long
    /// however many there are.
    pub fn held(&self) -> u128
        ensures octets { result ≡ octets_of_book self.now.book }
        ensures few { result < 2 ^ 104 }
    {
        // as many jobs as can wait
        let _ = self.waiting.len();
        self.held
    }

    /// Report i of those that are kept, counted from 0, the oldest.
    pub fn report(&self, i: usize) -> Option<Report>
        ensures { result ≡ slice_get self.now.book.reports i }
    {
        self.reports.get(i).copied()
    }

    /// The job that has the page that joined last.
    fn newest_job(&self) -> Option<&Job<S>>
        ensures { option_copied result ≡ newest_job self.now.book }
    {
        if let Some(job) = &self.open_job {
            return Some(job);
        }
        match self.waiting.back() {
            Some(job) => Some(job),
            None => self.sending.as_ref(),
        }
    }

    /// Whether a page of the call of this number joins the open job.
    fn joins(&self, call: u32) -> bool
        ensures { result ≡ joins self.now.book.open_job call }
    {
        match &self.open_job {
            None => false,
            Some(job) => job.call() == call && job.page_count() < MOST_PAGES,
        }
    }

    /// Closes the open job, where there is one, and opens another with this page.
    fn open_next(&mut self, call: u32, page: Page<S>) -> Result<(), Page<S>>
        ensures opened { OnOk result (self.new.book ≡ opened (closed self.old.book) call page) }
        ensures back { IfErr result (λ back. back ≡ page) }
        ensures err { OnErr result (self.new ≡ self.old) }
        ensures memory { OnErr result (self.old.spare ≡ 0) }
    {
        // room for the one that is closed now and for the one that is opened
        let places = 1 + usize::from(self.open_job.is_some());
        if self.waiting.reserve(places).is_err() {
            return Err(page);
        }
        // as many jobs as can wait
        let _ = self.waiting.len();
        let held = self.held + u128::from(page.held());
        let list = mem::replace(&mut self.first, Vec::new(self.alloc));
        let job = Job::in_list(list, call, page)?;
        self.spare = 0;
        self.held = held;
        if let Some(last) = self.open_job.replace(job) {
            self.waiting.push_back_reserved(last);
        }
        Ok(())
    }
}
