//! A job of two pages on the only line, in its first life.
use crate::steps::FORMAT;
use fax_bits::{NoMemory, Octets};
use fax_gateway::Kept;
use fax_jobs::{Outcome, Report};
use fax_line::PageToStore;
use fax_queue::Queue;
use fax_spool::WaitingPage;
use std::alloc::{AllocError, Global};

/// The called machine hung up after it had confirmed so many of its pages.
pub(crate) fn report_of(delivered: u32) -> Report {
    Report {
        call: 0,
        format: FORMAT,
        pages: 2,
        delivered,
        outcome: Outcome::HungUp,
    }
}

/// What is known of the line as its life begins.
pub(crate) fn queues_of(alloc: Global) -> Result<Vec<Queue>, NoMemory> {
    let mut queues = Vec::new(alloc);
    queues.push(Queue::new(alloc, "a1")?)?;
    Ok(queues)
}

/// The first page of the job, or the second one, which closes it.
pub(crate) fn page_of(alloc: Global, is_second: bool) -> Result<PageToStore, AllocError> {
    let text = if is_second { b"page 2" } else { b"page 1" };
    Ok(PageToStore {
        line: 0,
        kept: Kept {
            call: 0,
            format: FORMAT,
            rows: 1,
            closes: is_second,
        },
        text: Octets::from_vec(text.to_vec(alloc)?),
    })
}

/// Whether these are the second page alone.
pub(crate) fn are_second(pages: &[WaitingPage]) -> bool {
    match pages {
        [page] => page.number == 2 && page.closes && page.text.as_slice() == b"page 2".as_slice(),
        _ => false,
    }
}
