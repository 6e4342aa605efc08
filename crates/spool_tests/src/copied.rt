//! A page that does not go: what waits is put again, and the file that it kept is cleared.
use crate::steps::{change, clear, ended, new_spool, put, put_again, reopen};
use fax_jobs::Outcome;
use fax_spool::{OpenedSpool, Spool};
use sqlite_disk::Memory;
use std::alloc::Global;
use std::io;
use std::rt::HostRuntime;
use std::test::Fail;

/// The page of this number is put.
fn put_page(spool: &mut Spool<Memory>, alloc: Global, number: u32) -> io::Result<()> {
    put(spool, alloc, number, b"text")
}

/// Its job ends.
fn end(spool: &mut Spool<Memory>, alloc: Global, number: u32) -> io::Result<()> {
    spool.end(alloc, &ended(number, Outcome::Delivered, 1))
}

/// Whether just these pages are told, in this order, and nothing is damaged.
fn tells_pages(opened: &OpenedSpool<Memory>, first: u32, second: u32) -> bool {
    let is_whole = opened.older_damaged == 0 && opened.newer_damaged == 0;
    match opened.pages.as_slice() {
        [one, other] => is_whole && one.number == first && other.number == second,
        _ => false,
    }
}

/// Page 1 stays in the older file, and page 7 comes after others whose jobs ended. It answers whether the files took turns.
fn fill(spool: &mut Spool<Memory>, alloc: Global) -> io::Result<bool> {
    put_page(spool, alloc, 1)?;
    let has_changed = change(spool, alloc)?;
    for number in 2..7 {
        put_page(spool, alloc, number)?;
        end(spool, alloc, number)?;
    }
    put_page(spool, alloc, 7)?;
    Ok(has_changed)
}

/// What is done of the steps in which both pages are put again: nothing while page 1 waits in the older file, and while they have more
/// octets than are allowed.
const STEPS: [bool; 7] = [false, false, true, true, true, true, true];

/// These steps.
fn copy_forward(spool: &mut Spool<Memory>, alloc: Global) -> io::Result<[bool; 7]> {
    Ok([
        clear(spool)?,
        put_again(spool, alloc, 10)?,
        put_again(spool, alloc, 1000)?,
        clear(spool)?,
        change(spool, alloc)?,
        put_again(spool, alloc, 1000)?,
        clear(spool)?,
    ])
}

/// Whether both pages are in the newer file alone.
fn is_left(spool: Spool<Memory>, alloc: Global) -> io::Result<bool> {
    let again = reopen(spool, alloc)?;
    let [older, newer] = again.ends;
    Ok(older == 0 && newer < 1000 && tells_pages(&again.opened, 1, 7))
}

/// Whether page 1, which stays, and page 7 are put again, and all that was there is cleared.
fn is_copied_forward(alloc: Global) -> io::Result<bool> {
    let mut spool = new_spool(alloc)?;
    let has_changed = fill(&mut spool, alloc)?;
    let steps = copy_forward(&mut spool, alloc)?;
    let is_left = is_left(spool, alloc)?;
    Ok(has_changed && steps == STEPS && is_left)
}

#[test]
fn what_waits_is_copied_forward(rt: HostRuntime) -> Result<(), Fail> {
    assert!(rt; is_copied_forward(rt.alloc())?);
    Ok(())
}
