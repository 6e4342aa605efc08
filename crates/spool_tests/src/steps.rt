//! What tests do with a spool over files of memory.
ghost use Rattle.std.specs.Prelude.{◌<◌, length};

use fax_jobs::Outcome;
use fax_runcodes::{Format, Width};
use fax_runs::restarts::open_over;
use fax_spool::{EndedRecord, OpenedSpool, PageRecord, Spool};
use sqlite_disk::Memory;
use std::alloc::Global;
use std::io;

pub(crate) const FORMAT: Format = Format {
    width: Width::W1728,
    fine: false,
};

/// A spool over two new files.
pub(crate) fn new_spool(alloc: Global) -> io::Result<Spool<Memory>> {
    Ok(open_over(alloc, &[], &[])?.spool)
}

/// What its files have, the older one first, and what they tell.
#[derive(Drop)]
pub(crate) struct Reopened {
    /// Where their records end.
    pub ends: [usize; 2],
    /// How many octets they have.
    pub octets: [usize; 2],
    pub opened: OpenedSpool<Memory>,
}

/// Its files are opened again.
pub(crate) fn reopen(spool: Spool<Memory>, alloc: Global) -> io::Result<Reopened> {
    let (older, newer) = spool.into_files();
    let (one, other) = (older.disk.bytes(), newer.disk.bytes());
    Ok(Reopened {
        ends: [older.end, newer.end],
        octets: [one.len(), other.len()],
        opened: open_over(alloc, one, other)?,
    })
}

/// The page of this number is put, which is a job of its own.
pub(crate) fn put(
    spool: &mut Spool<Memory>,
    alloc: Global,
    number: u32,
    text: &[u8],
) -> io::Result<()> {
    let page = PageRecord {
        life: 1,
        call: 0,
        number,
        format: FORMAT,
        closes: true,
        line: b"a1",
        tag: b"t",
        text,
    };
    spool.put(alloc, &page)
}

/// The job of this page ended so, of which so many pages were delivered.
pub(crate) fn ended(number: u32, outcome: Outcome, delivered: u32) -> EndedRecord<'static>
    ensures { length result.line < 256 }
{
    EndedRecord {
        life: 1,
        call: 0,
        first: number,
        pages: 1,
        delivered,
        format: FORMAT,
        outcome,
        line: b"a1",
    }
}

/// Whether the older file is cleared.
pub(crate) fn clear(spool: &mut Spool<Memory>) -> io::Result<bool> {
    spool.clear()
}

/// Whether the other file is taken into use.
pub(crate) fn change(spool: &mut Spool<Memory>, alloc: Global) -> io::Result<bool> {
    spool.change(alloc)
}

/// Whether what waits is put again, of so many octets at most.
pub(crate) fn put_again(spool: &mut Spool<Memory>, alloc: Global, most: usize) -> io::Result<bool> {
    spool.put_again(alloc, most)
}
