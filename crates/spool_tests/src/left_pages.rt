//! The pages of a job that were not delivered, read back while the spool is in use.
use crate::job::{are_second, page_of, queues_of, report_of};
use crate::steps::new_spool;
use fax_queue::{EndFault, Storage};
use fax_spool::WaitingPage;
use fax_wires::holding::PageStore;
use sqlite_disk::Memory;
use std::alloc::Global;
use std::test::Fail;

/// A page of the job is stored.
fn store(storage: &mut Storage<Memory>, alloc: Global, is_second: bool) -> Result<(), Fail> {
    storage.store_all(&[page_of(alloc, is_second)?])?;
    Ok(())
}

/// The pages of the job of line i of which so many were delivered.
fn left(
    storage: &mut Storage<Memory>,
    i: usize,
    delivered: u32,
) -> Result<Vec<WaitingPage>, EndFault> {
    storage.job_pages(i, report_of(delivered))
}

/// Whether the pages that are left are none of those that were delivered; and that there is no other line.
fn are_left(storage: &mut Storage<Memory>) -> [bool; 4] {
    [
        matches!(&left(storage, 0, 0), Ok(pages) if pages.len() == 2),
        matches!(&left(storage, 0, 1), Ok(pages) if are_second(pages.as_slice())),
        matches!(&left(storage, 0, 2), Ok(pages) if pages.is_empty()),
        matches!(&left(storage, 1, 1), Err(EndFault::NoLine)),
    ]
}

/// Whether the end of a job is not noted after one was left, and its pages stay.
fn stays_left(storage: &mut Storage<Memory>) -> bool {
    storage.leave(0);
    matches!(storage.end(0, report_of(1)), Err(EndFault::Unsure)) && storage.stored() == 2
}

#[test]
fn pages_that_were_not_delivered_are_read_back(rt: HostRuntime) -> Result<(), Fail> {
    let alloc = rt.alloc();
    let mut storage = Storage::new(alloc, new_spool(alloc)?, queues_of(alloc)?);
    store(&mut storage, alloc, false)?;
    store(&mut storage, alloc, true)?;
    assert!(rt; are_left(&mut storage) == [true; 4] && stays_left(&mut storage));
    Ok(())
}
