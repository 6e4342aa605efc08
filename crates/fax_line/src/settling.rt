//! What is stored of turns: the pages that they confirmed, before what confirms them goes out.
ghost use Rattle.std.specs.Prelude.{◌≡◌, IfOk};
ghost use Rattle.fax_jobs.specs.Newest.{newest_page};
ghost use Rattle.fax_line.specs.Settling.{IsStoredAs, has_page, is_stored_in};

use fax_bits::Octets;
use fax_gateway::{Gateway, Kept};
use fax_jobs::Report;
use fax_pagestore::{Coding, PackedRows, write_page};
use fax_wires::holding::StoreFault;
use std::alloc::Global;

/// A page that a turn confirmed, as it is handed to a store.
#[derive(Drop)]
pub struct PageToStore {
    /// The line whose turn confirmed it, counted from 0.
    pub line: usize,
    /// What the turn told of it.
    pub kept: Kept,
    /// Its text in two-dimensional coding, without fill.
    pub text: Octets,
}

/// The report of a job that ended in the turn of a line.
#[derive(Clone, Copy)]
pub struct LineReport {
    /// The line, counted from 0.
    pub line: usize,
    /// What became of the job.
    pub report: Report,
}

/// The pages of the lines that waited, as they were put, and what came of that.
#[derive(Drop)]
pub struct PutResult {
    /// Those that were handed to the store, in the order of their lines. A page whose text memory was refused for is not among them.
    pub pages: Vec<PageToStore>,
    /// What the store answered to all of them at once.
    pub answer: Result<(), StoreFault>,
}

impl PutResult {
    /// Whether a page of this line was handed to the store.
    pub fn has_page(&self, line: usize) -> bool
        ensures { result ≡ has_page self.now.pages.items line }
    {
        has_page(self.pages.as_slice(), line)
    }

    /// Whether a page of this line was stored.
    pub fn is_stored(&self, line: usize) -> bool
        ensures { result ≡ is_stored_in self.now line }
    {
        self.has_page(line) && self.answer.is_ok()
    }
}

/// Whether one of these pages is of this line.
pub(crate) fn has_page(pages: &[PageToStore], line: usize) -> bool
    ensures { result ≡ has_page pages.now line }
{
    pages.iter().any(|page| page.line == line)
}

/// The page that the turn of a line confirmed, of which it told this. An `Err`: memory was refused for its text.
pub(crate) fn page_to_store(
    alloc: Global,
    line: usize,
    gateway: &Gateway<PackedRows>,
    kept: Kept,
) -> Result<PageToStore, StoreFault>
    ensures line { IfOk result (λ page. page.line ≡ line) }
    ensures page { IfOk result (IsStoredAs kept (newest_page gateway.now.book)) }
{
    let Some(page) = gateway.newest_page() else {
        return Err(StoreFault);
    };
    match write_page(alloc, page, Coding::Mr, 0) {
        Ok(text) => Ok(PageToStore { line, kept, text }),
        Err(_) => Err(StoreFault),
    }
}
