//! A job: pages that go out in one call.
ghost use Rattle.std.specs.Prelude.{◌≡◌, ◌<◌, ◌^◌, length, vec_len, vec_capacity, OnOk, OnErr, IfOk, IfErr};
ghost use Rattle.fax_jobs.specs.Jobs.{IsJob, most_pages};
ghost use Rattle.fax_jobs.specs.Books.{job_of, longer};
ghost use Rattle.fax_jobs.specs.Octets.{octets_of_job};

use crate::Pages;
use fax_pagestore::{Format, Page, RowStore};
use std::alloc::Global;
use std::marker::Model;

/// The pages of one call that go out in one call of our own: 1 to 999 of them, of any formats. Seen as these, with the
/// number of the call that they came in and the format of the first.
pub struct Job<S: RowStore> {
    call: u32,
    format: Format,
    pages: Pages<S>,
    /// How many octets its pages hold in memory.
    held: u64,
}

impl<S: RowStore> Drop for Job<S> {
    fn drop(self) {
        let Job {
            call: _call,
            format: _format,
            pages: _pages,
            held: _held,
        } = self;
    }
}

impl<S: RowStore> Model for Job<S> {
    ghost use Rattle.std.specs.Prelude.{◌≡◌};
    ghost use Rattle.fax_jobs.specs.Jobs.{JobValue, IsJob};
    ghost use Rattle.fax_jobs.specs.Octets.{octets_of_pages};

    ghost Value = { JobValue };

    ghost view = { λ job. record { call = job.call; format = job.format; pages = job.pages } };

    ghost invariant = { λ job.
        IsJob (record { call = job.call; format = job.format; pages = job.pages })
        × (job.held ≡ octets_of_pages job.pages) };
}

impl<S: RowStore> Job<S> {
    /// A job of one page, which came in the call of this number. For want of memory the page is handed back.
    pub fn of_page(alloc: Global, call: u32, page: Page<S>) -> Result<Self, Page<S>>
        ensures made { IfOk result (λ job. job ≡ job_of call page) }
        ensures back { IfErr result (λ back. back ≡ page) }
    {
        Job::in_list(Vec::new(alloc), call, page)
    }

    /// The same with its list in this one, which is empty. It takes memory only where that has no room.
    pub(crate) fn in_list(list: Vec<Page<S>>, call: u32, page: Page<S>) -> Result<Self, Page<S>>
        requires { vec_len list ≡ 0 }
        ensures made { IfOk result (λ job. job ≡ job_of call page) }
        ensures back { IfErr result (λ back. back ≡ page) }
        ensures memory { OnErr result (vec_capacity list ≡ 0) }
    {
        let (format, held) = (page.format(), page.held());
        // what it ensures of the page's rows makes this a job
        let _ = page.rows();
        let mut list = list;
        list.push(page).map_err(|refused| refused.value)?;
        Ok(Job {
            call,
            format,
            pages: Pages::from_vec(list),
            held,
        })
    }

    /// Adds a page after the others, or hands it back for want of memory.
    pub fn add_page(&mut self, page: Page<S>) -> Result<(), Page<S>>
        requires { length self.old.pages < most_pages }
        ensures added { OnOk result (self.new ≡ longer self.old page) }
        ensures back { IfErr result (λ back. back ≡ page) }
        ensures err { OnErr result (self.new ≡ self.old) }
    {
        // what it ensures of the page's rows keeps this a job
        let _ = page.rows();
        let held = self.held + page.held();
        self.pages.push(page)?;
        self.held = held;
        Ok(())
    }

    /// Adds a page after the others, which move into a larger list where theirs is full: it takes no memory.
    pub(crate) fn add_within(&mut self, larger: &mut Vec<Page<S>>, page: Page<S>)
        requires few { length self.old.pages < most_pages }
        requires empty { vec_len larger.old ≡ 0 }
        requires room { length self.old.pages < vec_capacity larger.old }
        ensures added { self.new ≡ longer self.old page }
        ensures empty { vec_len larger.new ≡ 0 }
    {
        // what it ensures of the page's rows keeps this a job
        let _ = page.rows();
        self.held += page.held();
        self.pages.push_within(larger, page);
    }

    /// The number of the call that its pages came in.
    pub fn call(&self) -> u32
        ensures { result ≡ self.now.call }
    {
        self.call
    }

    /// The format of its first page.
    pub fn format(&self) -> Format
        ensures { result ≡ self.now.format }
    {
        self.format
    }

    /// Its pages, in the order of their confirmations.
    pub fn pages(&self) -> &Pages<S>
        ensures same { result.now ≡ self.now.pages }
        ensures is_job { IsJob self.now }
    {
        &self.pages
    }

    /// How many pages it has, 1 to 999.
    pub fn page_count(&self) -> u32
        ensures { result ≡ length self.now.pages }
    {
        self.pages.as_slice().len() as u32
    }

    /// How many octets its pages hold in memory, as [`Page::held`] says it. It takes no memory, and as long however many
    /// there are.
    pub fn held(&self) -> u64
        ensures octets { result ≡ octets_of_job self.now }
        ensures few { result < 2 ^ 39 }
    {
        self.held
    }
}
