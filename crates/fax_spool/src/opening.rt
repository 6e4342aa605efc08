//! Both files of a spool, opened.
ghost use Rattle.std.specs.Prelude.{◌≡◌, ◌<◌, ◌++◌, ◌∷◌, ◌||◌, [], List, ℕ, not, IfOk, OnOk, IsTrue};
ghost use Rattle.std.specs.List.{list_any};
ghost use Rattle.sqlite_disk.specs.Disk.{Only};
ghost use Rattle.fax_spool.specs.Found.{items_of};
ghost use Rattle.fax_spool.specs.Settled.{IsSettled};
ghost use Rattle.fax_spool.specs.SpoolRecords.{AreReadAs};
ghost use Rattle.fax_spool.specs.Waits.{waiting};
ghost use Rattle.fax_spool.specs.Calls.{Accepts};
ghost use Rattle.fax_spool.specs.Spools.{AreClean, Stores, epoch_now, epoch_records, files_of, greatest_epoch};
ghost use Rattle.fax_spool.specs.Opened.{IsOpened, closed, torn_found};
ghost use Rattle.fax_spool.specs.Torn.{damaged, same_call, with_destroyed};

use crate::torn::{is_damaged, is_of_call, torn_calls};
use crate::waiting::follow_all;
use crate::{
    CallName, FileContents, PageRecord, RecordFile, Spool, SpoolRecord, WaitingPage, first_epoch,
    read_spool_records, recover, waiting_pages,
};
use sqlite_disk::Disk;
use std::alloc::{AllocError, Global};
use std::io;

/// A spool that was opened, and what its files were found to hold.
#[derive(Drop)]
pub struct OpenedSpool<D: Disk> {
    /// The spool, ready for a new life, whose number is its epoch.
    pub spool: Spool<D>,
    /// The pages that wait, in the order in which they were confirmed. The last one of each call closes its job, since a call that
    /// was on ended with its process.
    pub pages: Vec<WaitingPage>,
    /// The calls that lack a page, since its record may be one that is damaged, or after a header that is destroyed: of such a call
    /// a page in `pages` may be one of a job that is not whole. A call may be told more than once.
    pub torn: Vec<CallName>,
    /// How many records of the older file are damaged. What they said is lost.
    pub older_damaged: usize,
    /// How many of the newer one.
    pub newer_damaged: usize,
    /// How many octets of the older file are passed over, since no record begins after the last one, and no shut gate stands
    /// there.
    pub older_passed_over: usize,
    /// How many of the newer one.
    pub newer_passed_over: usize,
}

/// Opens a spool over its two files, whichever of them is the older one: reads what a crash may have left, and begins a life. At
/// an `Err` (the disk's failure, no memory, or `InvalidData`: a file is no spool's, and stays as it is) the files stand for the same
/// records, with both of the epoch's or without.
pub fn open_spool<D: Disk + Drop>(alloc: Global, one: D, other: D) -> io::Result<OpenedSpool<D>>
    requires one_usable { IsTrue (D.is_usable one) }
    requires other_usable { IsTrue (D.is_usable other) }
    // After a restart, what is read is what is on the disk.
    requires one_durable { Only (D.seen one) (D.may_leave one) }
    requires other_durable { Only (D.seen other) (D.may_leave other) }
    ensures opened { IfOk result (λ opened. AreClean D.is_clean (files_of opened.spool)
        → IsOpened D.seen D.may_leave D.is_usable (D.seen one) (D.seen other) opened) }
    ensures accepts { IfOk result (λ opened. Accepts opened.spool) }
{
    let mut one = one;
    let mut other = other;
    let first = recover(alloc, &mut one)?;
    let second = recover(alloc, &mut other)?;
    let ones = read_spool_records(alloc, first.items.as_slice())?;
    let others = read_spool_records(alloc, second.items.as_slice())?;
    let one = RecordFile {
        disk: one,
        end: first.end,
    };
    let other = RecordFile {
        disk: other,
        end: second.end,
    };
    if first_epoch(ones.as_slice()) > first_epoch(others.as_slice()) {
        return Ok(begin(alloc, other, one, &second, &first, others, ones)?);
    }
    Ok(begin(alloc, one, other, &first, &second, ones, others)?)
}

/// Begins a life over two files, of which the older one is known, and which were found to hold this and to say this, and tells what waits.
fn begin<D: Disk + Drop>(
    alloc: Global,
    older: RecordFile<D>,
    newer: RecordFile<D>,
    older_found: &FileContents,
    newer_found: &FileContents,
    olds: Vec<SpoolRecord<'_>>,
    news: Vec<SpoolRecord<'_>>,
) -> io::Result<OpenedSpool<D>>
    ensures begun { IfOk result (λ opened.
        IsSettled D.seen D.may_leave D.is_usable older.disk older.end (items_of older_found.now)
        → AreReadAs (items_of older_found.now) olds.entry.items
        → IsSettled D.seen D.may_leave D.is_usable newer.disk newer.end (items_of newer_found.now)
        → AreReadAs (items_of newer_found.now) news.entry.items
        → Stores D.seen D.may_leave D.is_usable opened.spool olds.entry.items (news.entry.items
        ++ epoch_records (epoch_now opened.spool))) }
    ensures clean { IfOk result (λ opened. AreClean D.is_clean (files_of opened.spool)
        → AreClean D.is_clean (older, newer)) }
    ensures older_epochs { IfOk result
        (λ opened. greatest_epoch olds.entry.items < epoch_now opened.spool) }
    ensures newer_epochs { IfOk result
        (λ opened. greatest_epoch news.entry.items < epoch_now opened.spool) }
    ensures pages { IfOk result
        (λ opened. opened.pages.items ≡ closed (waiting (olds.entry.items ++ news.entry.items))) }
    ensures torn { IfOk result
        (λ opened. opened.torn.items ≡ torn_found older_found.now.is_destroyed
        newer_found.now.is_destroyed olds.entry.items news.entry.items) }
    ensures older_damaged { IfOk result
        (λ opened. opened.older_damaged ≡ damaged olds.entry.items) }
    ensures newer_damaged { IfOk result
        (λ opened. opened.newer_damaged ≡ damaged news.entry.items) }
    ensures older_passed_over { IfOk result
        (λ opened. opened.older_passed_over ≡ older_found.now.passed_over) }
    ensures newer_passed_over { IfOk result
        (λ opened. opened.newer_passed_over ≡ newer_found.now.passed_over) }
    ensures accepts { IfOk result (λ opened. Accepts opened.spool) }
{
    let pages = pages_of(alloc, olds.as_slice(), news.as_slice())?;
    let spool = Spool::begin(
        alloc,
        older,
        newer,
        older_found.items.as_slice(),
        newer_found.items.as_slice(),
        olds.as_slice(),
        news.as_slice(),
    )?;
    let destroyed = (older_found.is_destroyed, newer_found.is_destroyed);
    Ok(OpenedSpool {
        spool,
        pages,
        older_damaged: damaged(olds.as_slice()),
        newer_damaged: damaged(news.as_slice()),
        torn: torn_with(alloc, olds, news, destroyed)?,
        older_passed_over: older_found.passed_over,
        newer_passed_over: newer_found.passed_over,
    })
}

/// The calls that lack a page by the records of two files, of each of which a header is destroyed or not.
pub(crate) fn torn_with(
    alloc: Global,
    olds: Vec<SpoolRecord<'_>>,
    news: Vec<SpoolRecord<'_>>,
    destroyed: (bool, bool),
) -> Result<Vec<CallName>, AllocError>
    ensures { IfOk result (λ torn.
        torn.items ≡ torn_found destroyed.0 destroyed.1 olds.entry.items news.entry.items) }
{
    let hides_last = destroyed.1 || (destroyed.0 && first_epoch(olds.as_slice()) == 0);
    let olds = with_destroyed(olds, destroyed.0)?;
    let news = with_destroyed(news, hides_last)?;
    torn_calls(alloc, olds.as_slice(), news.as_slice())
}

/// The records of a file, and a damaged one after them where a header is destroyed there.
fn with_destroyed(
    records: Vec<SpoolRecord<'_>>,
    is_destroyed: bool,
) -> Result<Vec<SpoolRecord<'_>>, AllocError>
    ensures { IfOk result (λ found. found.items ≡ with_destroyed is_destroyed records.entry.items) }
{
    let mut found = records;
    if is_destroyed {
        found.push(SpoolRecord::Damaged)?;
    }
    Ok(found)
}

/// The pages that wait by the records of both files, in the order in which they were put.
pub(crate) fn pages_of<'a>(
    alloc: Global,
    olds: &[SpoolRecord<'a>],
    news: &[SpoolRecord<'a>],
) -> Result<Vec<WaitingPage>, AllocError>
    ensures { IfOk result (λ pages. pages.items ≡ closed (waiting (olds.now ++ news.now))) }
{
    let mut pages = waiting_pages(alloc, olds)?;
    follow_all(&mut pages, news)?;
    Ok(closed(alloc, pages.as_slice())?)
}

/// These pages, where the last one of each call closes its job.
fn closed(alloc: Global, pages: &[PageRecord<'_>]) -> Result<Vec<WaitingPage>, AllocError>
    ensures { IfOk result (λ waits. waits.items ≡ closed pages.now) }
{
    let mut waits = Vec::with_capacity(alloc, pages.len())?;
    for (i, page) in pages.iter().enumerate() {
        let closes = closes_its_job(page, &pages[i + 1..]);
        waits.push(WaitingPage::of_record(alloc, page, closes)?)?;
    }
    Ok(waits)
}

/// Whether a page closes its job, where these pages wait after it.
fn closes_its_job(page: &PageRecord<'_>, after: &[PageRecord<'_>]) -> bool
    ensures { result ≡ (page.now.closes || not (list_any (same_call page.now) after.now)) }
{
    if page.closes {
        return true;
    }
    !has_call(after, page)
}

/// Whether one of these pages came in the call of a page.
fn has_call(pages: &[PageRecord<'_>], page: &PageRecord<'_>) -> bool
    ensures { result ≡ list_any (same_call page.now) pages.now }
{
    for other in pages {
        if is_of_call(page, other) {
            return true;
        }
    }
    false
}

/// How many records are damaged.
pub(crate) fn damaged(records: &[SpoolRecord<'_>]) -> usize
    ensures { result ≡ damaged records.now }
{
    records.iter().filter(|kept| is_damaged(kept)).count()
}
