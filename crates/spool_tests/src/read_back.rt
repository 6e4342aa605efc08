//! The pages of jobs, read back one job at a time from a spool that is in use.
use crate::steps::{change, clear, ended, new_spool, put, put_again, reopen};
use fax_jobs::Outcome;
use fax_spool::Spool;
use sqlite_disk::Memory;
use std::alloc::Global;
use std::io;
use std::rt::HostRuntime;
use std::test::Fail;

/// The text of a page whose record has no room in memory.
const LONG: usize = 16 * 1024 * 1024;

/// Whether the end of the job of this page would end it alone, and it has this text.
fn reads(spool: &mut Spool<Memory>, alloc: Global, number: u32, text: &[u8]) -> io::Result<bool> {
    let pages = spool.pages_ended_by(alloc, &ended(number, Outcome::NoAnswer, 0))?;
    match pages.as_slice() {
        [page] => Ok(page.number == number && page.text.as_slice() == text),
        _ => Ok(false),
    }
}

/// Whether that is so of pages 1 and 2.
fn reads_both(spool: &mut Spool<Memory>, alloc: Global) -> io::Result<bool> {
    Ok(reads(spool, alloc, 1, b"one")? && reads(spool, alloc, 2, b"two")?)
}

/// Page 1 is put into the older file and page 2 into the newer one; then both are put again, and again into the other file. It answers
/// what is done, and whether both are read back, step by step.
fn put_both(spool: &mut Spool<Memory>, alloc: Global) -> io::Result<[bool; 8]> {
    put(spool, alloc, 1, b"one")?;
    let has_changed = change(spool, alloc)?;
    put(spool, alloc, 2, b"two")?;
    Ok([
        has_changed,
        reads_both(spool, alloc)?,
        put_again(spool, alloc, 1000)?,
        reads_both(spool, alloc)?,
        clear(spool)?,
        change(spool, alloc)?,
        put_again(spool, alloc, 1000)?,
        reads_both(spool, alloc)?,
    ])
}

/// Whether all of that is so.
fn are_read_back(alloc: Global) -> io::Result<bool> {
    let mut spool = new_spool(alloc)?;
    Ok(put_both(&mut spool, alloc)? == [true; 8])
}

#[test]
fn pages_of_both_files_are_read_back(rt: HostRuntime) -> Result<(), Fail> {
    assert!(rt; are_read_back(rt.alloc())?);
    Ok(())
}

/// Page 1, which has this text, is put between two others, is read, stays as the files take turns, and is read again. It is not put again.
fn put_long(spool: &mut Spool<Memory>, alloc: Global, long: &[u8]) -> io::Result<[bool; 4]> {
    put(spool, alloc, 2, b"two")?;
    put(spool, alloc, 1, long)?;
    put(spool, alloc, 3, b"three")?;
    Ok([
        reads(spool, alloc, 1, long)?,
        change(spool, alloc)?,
        !put_again(spool, alloc, usize::MAX)?,
        reads(spool, alloc, 1, long)?,
    ])
}

/// Whether page 1, of this text, and page 3 are read as a start finds them.
fn are_found(spool: Spool<Memory>, alloc: Global, long: &[u8]) -> io::Result<[bool; 2]> {
    let mut spool = reopen(spool, alloc)?.opened.spool;
    Ok([
        reads(&mut spool, alloc, 1, long)?,
        reads(&mut spool, alloc, 3, b"three")?,
    ])
}

/// Whether all of that is so of a page that has no room in memory, and is read from its file: from the newer one, from the older one after
/// others, and as a start finds it.
fn is_long_read(alloc: Global) -> io::Result<bool> {
    let long = Vec::from_elem(alloc, 7u8, LONG)?;
    let mut spool = new_spool(alloc)?;
    let steps = put_long(&mut spool, alloc, long.as_slice())?;
    let found = are_found(spool, alloc, long.as_slice())?;
    Ok(steps == [true; 4] && found == [true; 2])
}

#[test]
fn long_pages_are_read_from_their_files(rt: HostRuntime) -> Result<(), Fail> {
    assert!(rt; is_long_read(rt.alloc())?);
    Ok(())
}
