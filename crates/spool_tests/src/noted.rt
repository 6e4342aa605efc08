//! Jobs that end: what is noted of them is not found again.
use crate::job::queues_of;
use crate::steps::{FORMAT, new_spool, reopen};
use fax_bits::{NoMemory, Octets};
use fax_gateway::Kept;
use fax_jobs::{Outcome, Report};
use fax_line::PageToStore;
use fax_queue::{Queue, Storage};
use fax_spool::OpenedSpool;
use fax_wires::holding::PageStore;
use sqlite_disk::Memory;
use std::alloc::{AllocError, Global};
use std::rt::HostRuntime;
use std::test::Fail;

/// Of a job of one page.
const REPORT: Report = Report {
    call: 0,
    format: FORMAT,
    pages: 1,
    delivered: 1,
    outcome: Outcome::Delivered,
};

/// The only page of this call.
fn page_of(alloc: Global, call: u32) -> Result<PageToStore, AllocError> {
    let text = b"text".to_vec(alloc)?;
    Ok(PageToStore {
        line: 0,
        kept: Kept {
            call,
            format: FORMAT,
            rows: 1,
            closes: true,
        },
        text: Octets::from_vec(text),
    })
}

/// Whether the page of this call alone is told, under this tag.
fn tells_page(opened: &OpenedSpool<Memory>, call: u32, tag: &str) -> bool {
    match opened.pages.as_slice() {
        [page] => page.call == call && page.number == 1 && page.tag.as_slice() == tag.as_bytes(),
        _ => false,
    }
}

/// The page of this call of the first line is stored.
fn store(storage: &mut Storage<Memory>, alloc: Global, call: u32) -> Result<(), Fail> {
    storage.store_all(&[page_of(alloc, call)?])?;
    Ok(())
}

/// Two pages are stored, each under the tag of its call, and the job of the first one ends.
fn store_two(storage: &mut Storage<Memory>, alloc: Global) -> Result<(), Fail> {
    storage.set_tag(0, "first");
    store(storage, alloc, 0)?;
    storage.begin_put();
    storage.set_tag(0, "second");
    store(storage, alloc, 1)?;
    storage.end(0, REPORT)?;
    Ok(())
}

/// What `Storage::end` promises of an `Ok` is not empty: with memory to spare it answers one. The page of the job that ended is not
/// found again, and the next one is, under the tag of its own call.
#[test]
fn ended_job_is_not_found_again(rt: HostRuntime) -> Result<(), Fail> {
    let alloc = rt.alloc();
    let mut storage = Storage::new(alloc, new_spool(alloc)?, queues_of(alloc)?);
    store_two(&mut storage, alloc)?;
    let again = reopen(storage.into_spool(), alloc)?;
    assert!(rt; tells_page(&again.opened, 1, "second"));
    Ok(())
}

/// The octets of the text of a page that fills files: 1 MiB.
const LARGE: usize = 1024 * 1024;

/// What is known of two lines as their first life begins.
fn two_queues(alloc: Global) -> Result<Vec<Queue>, NoMemory> {
    let mut queues = queues_of(alloc)?;
    queues.push(Queue::new(alloc, "a2")?)?;
    Ok(queues)
}

/// The only page of this call of the second line.
fn large_page(alloc: Global, call: u32) -> Result<PageToStore, AllocError> {
    let text = Vec::from_elem(alloc, 7u8, LARGE)?;
    Ok(PageToStore {
        line: 1,
        kept: Kept {
            call,
            format: FORMAT,
            rows: 1,
            closes: true,
        },
        text: Octets::from_vec(text),
    })
}

/// The page of this call of the second line is stored, and its job ends.
fn pass(storage: &mut Storage<Memory>, alloc: Global, call: u32) -> Result<(), Fail> {
    storage.begin_put();
    storage.store_all(&[large_page(alloc, call)?])?;
    let report = Report { call, ..REPORT };
    storage.end(1, report)?;
    Ok(())
}

/// A page of the first line stays, while 80 MiB of the second one come and go.
fn store_and_pass(storage: &mut Storage<Memory>, alloc: Global) -> Result<(), Fail> {
    storage.set_tag(0, "stays");
    store(storage, alloc, 0)?;
    for call in 0..80 {
        pass(storage, alloc, call)?;
    }
    Ok(())
}

/// Neither file has more than 20 MiB then, and the page is found.
#[test]
fn a_page_that_stays_keeps_no_file(rt: HostRuntime) -> Result<(), Fail> {
    let alloc = rt.alloc();
    let mut storage = Storage::new(alloc, new_spool(alloc)?, two_queues(alloc)?);
    store_and_pass(&mut storage, alloc)?;
    let again = reopen(storage.into_spool(), alloc)?;
    let [older, newer] = again.octets;
    assert!(rt; older < 20 * LARGE && newer < 20 * LARGE && tells_page(&again.opened, 0, "stays"));
    Ok(())
}
