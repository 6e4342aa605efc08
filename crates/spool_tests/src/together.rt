//! Jobs of many lines that end at once.
use crate::steps::{FORMAT, new_spool, reopen};
use fax_bits::{NoMemory, Octets};
use fax_gateway::Kept;
use fax_jobs::{Outcome, Report};
use fax_line::{LineReport, PageToStore};
use fax_queue::{Queue, Storage};
use fax_spool::OpenedSpool;
use fax_wires::holding::PageStore;
use sqlite_disk::Memory;
use std::alloc::{AllocError, Global};
use std::rt::HostRuntime;
use std::test::Fail;

/// Of a job of one page.
const REPORT: Report = Report {
    call: 0,
    format: FORMAT,
    pages: 1,
    delivered: 1,
    outcome: Outcome::Delivered,
};

/// What is known of three lines as their first life begins.
fn three_queues(alloc: Global) -> Result<Vec<Queue>, NoMemory> {
    let mut queues = Vec::new(alloc);
    for name in ["a1", "a2", "a3"] {
        queues.push(Queue::new(alloc, name)?)?;
    }
    Ok(queues)
}

/// The only page of the first call of a line.
fn page_of(alloc: Global, line: usize) -> Result<PageToStore, AllocError> {
    Ok(PageToStore {
        line,
        kept: Kept {
            call: 0,
            format: FORMAT,
            rows: 1,
            closes: true,
        },
        text: Octets::from_vec(b"text".to_vec(alloc)?),
    })
}

/// Whether the page of this line alone is told.
fn tells_page(opened: &OpenedSpool<Memory>, line: &str) -> bool {
    match opened.pages.as_slice() {
        [page] => page.line.as_slice() == line.as_bytes() && page.number == 1,
        _ => false,
    }
}

/// A page of each line is stored, and the jobs of the first and the last one end.
fn store_and_end(storage: &mut Storage<Memory>, alloc: Global) -> Result<(), Fail> {
    let pages = [page_of(alloc, 0)?, page_of(alloc, 1)?, page_of(alloc, 2)?];
    storage.store_all(&pages)?;
    storage.end_all(&[
        LineReport {
            line: 0,
            report: REPORT,
        },
        LineReport {
            line: 2,
            report: REPORT,
        },
    ])?;
    Ok(())
}

/// With memory to spare the ends are noted: the pages of the jobs that ended are not found again, and that of the third line is.
#[test]
fn jobs_that_end_at_once_are_not_found_again(rt: HostRuntime) -> Result<(), Fail> {
    let alloc = rt.alloc();
    let mut storage = Storage::new(alloc, new_spool(alloc)?, three_queues(alloc)?);
    store_and_end(&mut storage, alloc)?;
    let stored = storage.stored();
    let again = reopen(storage.into_spool(), alloc)?;
    assert!(rt; stored == 1 && tells_page(&again.opened, "a2"));
    Ok(())
}
