//! The pages of a job that were not delivered, read from the disk.
ghost use Rattle.std.specs.Prelude.{◌≡◌, true, map, IfErr, IfOk};
ghost use Rattle.fax_spool.specs.Calls.{IsRead, Refuses};
ghost use Rattle.fax_spool.specs.Waits.{name_of};
ghost use Rattle.fax_queue.specs.Jobs.{ReadsLeft, ReadsNamed};
ghost use Rattle.fax_queue.specs.Queues.{AreAmong, IsAmong, name_in};

use crate::end_fault::EndFault;
use crate::queue::{EndedJob, Queue, QueuedPage};
use fax_jobs::Report;
use fax_spool::{EndedRecord, Spool, WaitingPage};
use fax_wires::holding::StoreFault;
use sqlite_disk::Disk;
use std::alloc::Global;

/// Of the job that is first in turn on a queue its pages that are on the disk, from the first that was not delivered on.
pub(crate) fn read_job<D: Disk>(
    alloc: Global,
    spool: &mut Spool<D>,
    queue: &Queue,
    report: Report,
) -> Result<Vec<WaitingPage>, EndFault>
    ensures ok { IfOk result
        (λ pages. ReadsLeft D.seen D.may_leave D.is_usable D.is_clean report.pages
        report.delivered queue.now spool.old spool.new pages.items) }
    ensures fault { IfErr result (λ fault. fault ≡ EndFault.NotStored) }
    ensures read { IsRead D.seen D.may_leave D.is_usable spool.old spool.new }
    ensures refuses { Refuses spool.old → spool.new ≡ spool.old }
{
    if report.delivered >= report.pages {
        return Ok(Vec::new(alloc));
    }
    let Some(left) = queue.job_left(report.pages, report.delivered) else {
        return Err(EndFault::NotStored);
    };
    let rest = &queue.waits()[report.delivered as usize..];
    let wanted = &rest[..(report.pages - report.delivered) as usize];
    match read_pages(alloc, spool, queue.line(), &left, report) {
        Ok(pages) => {
            if !are_found(queue.line().as_bytes(), wanted, pages.as_slice()) {
                return Err(EndFault::NotStored);
            }
            Ok(pages)
        }
        Err(_) => Err(EndFault::NotStored),
    }
}

/// The pages that wait of these of a line.
fn read_pages<D: Disk>(
    alloc: Global,
    spool: &mut Spool<D>,
    line: &str,
    left: &EndedJob,
    report: Report,
) -> Result<Vec<WaitingPage>, StoreFault>
    ensures found { IfOk result
        (λ pages. ReadsNamed D.seen D.may_leave D.is_usable D.is_clean left.now
        line.now spool.old spool.new pages.items) }
    ensures read { IsRead D.seen D.may_leave D.is_usable spool.old spool.new }
    ensures refuses { Refuses spool.old → spool.new ≡ spool.old }
{
    let ended = EndedRecord {
        life: left.life,
        call: left.call,
        first: left.first,
        pages: left.pages,
        delivered: report.delivered,
        format: report.format,
        outcome: report.outcome,
        line: line.as_bytes(),
    };
    match spool.pages_ended_by(alloc, &ended) {
        Ok(pages) => Ok(pages),
        Err(_) => Err(StoreFault),
    }
}

/// Whether each of these pages of a line that is said to be on the disk was found.
fn are_found(line: &[u8], pages: &[QueuedPage], found: &[WaitingPage]) -> bool
    ensures { result ≡ true → AreAmong line.now pages.now (map name_of found.now) }
{
    let mut rest = pages;
    while let Some((page, after)) = rest.split_first() {
        if !is_there(line, page, found) {
            return false;
        }
        rest = after;
    }
    true
}

/// Whether this page of a line was found, where it is said to be on the disk.
fn is_there(line: &[u8], page: &QueuedPage, found: &[WaitingPage]) -> bool
    ensures { result ≡ true
        → page.now.is_stored ≡ true → IsAmong (name_in line.now page.now) (map name_of found.now) }
{
    if !page.is_stored {
        return true;
    }
    is_found(line, page, found)
}

/// Whether this page of a line was found.
fn is_found(line: &[u8], page: &QueuedPage, found: &[WaitingPage]) -> bool
    ensures { result ≡ true → IsAmong (name_in line.now page.now) (map name_of found.now) }
{
    let mut rest = found;
    while let Some((other, after)) = rest.split_first() {
        if is_page(line, page, other) {
            return true;
        }
        rest = after;
    }
    false
}

/// Whether a page that was found is this one of a line.
fn is_page(line: &[u8], page: &QueuedPage, found: &WaitingPage) -> bool
    ensures { result ≡ true → name_of found.now ≡ name_in line.now page.now }
{
    found.life == page.life
        && found.call == page.call
        && found.number == page.number
        && found.line.as_slice() == line
}
