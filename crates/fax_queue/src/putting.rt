//! The pages that lines confirmed are put on the disk, all of them at once.
ghost use Rattle.std.specs.Prelude.{◌≡◌, ◌⊎◌, Some, IfOk, IfSome, IsErr, OnOk, OnErr, slice_get};
ghost use Rattle.fax_spool.specs.Calls.{Refuses};
ghost use Rattle.fax_queue.specs.Storing.{AreRecordsUnder, IsRecordUnder, PutsRecords};
ghost use Rattle.fax_queue.specs.Refusals.{MayHavePut};
ghost use Rattle.fax_queue.specs.Queues.{lines_of};
ghost use Rattle.fax_queue.specs.Tags.{AreTagged, PutsTagged, tag_of};

use crate::queue::Queue;
use fax_line::PageToStore;
use fax_spool::{PageRecord, Spool};
use fax_wires::holding::StoreFault;
use sqlite_disk::Disk;
use std::alloc::Global;
use std::marker::Model;

/// The tag of the call of a line.
pub(crate) struct CallTag {
    pub line: usize,
    pub tag: Vec<u8>,
}

impl Drop for CallTag {
    fn drop(self) {
        let CallTag {
            line: _line,
            tag: _tag,
        } = self;
    }
}

impl Model for CallTag {
    ghost use Rattle.fax_queue.specs.CallTags.{CallTagValue};

    ghost Value = { CallTagValue };

    ghost view = { λ t. record { line = t.line; tag = t.tag.items } };
}

/// What the records of pages say beside the pages.
#[derive(Clone, Copy)]
pub(crate) struct Names<'a> {
    /// The number of this life.
    pub life: u32,
    /// Of each page, which one of its call it is.
    pub numbers: &'a [u32],
    /// Of each line, with its name.
    pub queues: &'a [Queue],
    /// Of the lines whose calls have one.
    pub tags: &'a [CallTag],
}

/// Puts the records of pages into a spool, with one write and its syncs.
pub(crate) fn put_pages<D: Disk>(
    alloc: Global,
    spool: &mut Spool<D>,
    pages: &[PageToStore],
    names: &Names<'_>,
) -> Result<(), StoreFault>
    ensures puts { OnOk result (PutsRecords D.seen D.may_leave D.is_usable names.now.life
        (lines_of names.now.queues.now) pages.now names.now.numbers.now spool.old spool.new) }
    ensures tagged { OnOk result (PutsTagged D.seen D.may_leave D.is_usable names.now.tags.now
        pages.now spool.old spool.new) }
    ensures failed { OnErr result ((spool.new ≡ spool.old)
        ⊎ MayHavePut D.seen D.may_leave D.is_usable names.now.life
        (lines_of names.now.queues.now) pages.now names.now.numbers.now spool.old spool.new) }
    ensures refuses { Refuses spool.old → IsErr result × (spool.new ≡ spool.old) }
{
    let records = match records_of(alloc, pages, names) {
        Ok(records) => records,
        Err(fault) => return Err(fault),
    };
    match spool.put_all(alloc, records.as_slice()) {
        Ok(()) => Ok(()),
        Err(_) => Err(StoreFault),
    }
}

/// The records of pages. An `Err`: a page has no number or its line no queue, or memory was refused.
fn records_of<'a>(
    alloc: Global,
    pages: &'a [PageToStore],
    names: &Names<'a>,
) -> Result<Vec<PageRecord<'a>>, StoreFault>
    ensures under { IfOk result (λ records. AreRecordsUnder names.now.life
        (lines_of names.now.queues.now) pages.now names.now.numbers.now records.items) }
    ensures tagged { IfOk result (λ records. AreTagged names.now.tags.now pages.now records.items) }
{
    let mut records = Vec::new(alloc);
    for (k, page) in pages.iter().enumerate() {
        let Some(number) = names.numbers.get(k) else {
            return Err(StoreFault);
        };
        let Some(line) = line_of(names.queues, page.line) else {
            return Err(StoreFault);
        };
        let tag = tag_of(names.tags, page.line);
        let record = record_of(names.life, *number, page, line, tag);
        let Ok(()) = records.push(record) else {
            return Err(StoreFault);
        };
    }
    Ok(records)
}

/// The record of a page, with the names of its line and of its call.
fn record_of<'a>(
    life: u32,
    number: u32,
    page: &'a PageToStore,
    line: &'a [u8],
    tag: &'a [u8],
) -> PageRecord<'a>
    ensures under { IsRecordUnder life page.now number result }
    ensures line { result.line ≡ line.now }
    ensures tag { result.tag ≡ tag.now }
{
    PageRecord {
        life,
        call: page.kept.call,
        number,
        format: page.kept.format,
        closes: page.kept.closes,
        line,
        tag,
        text: page.text.as_slice(),
    }
}

/// The name of line i.
pub(crate) fn line_of(queues: &[Queue], i: usize) -> Option<&[u8]>
    ensures { IfSome result (λ line. slice_get (lines_of queues.now) i ≡ Some line.now) }
{
    match queues.get(i) {
        Some(queue) => Some(queue.line().as_bytes()),
        None => None,
    }
}

/// The tag of the call of line i: no octets where it has none.
fn tag_of(tags: &[CallTag], i: usize) -> &[u8]
    ensures { result.now ≡ tag_of tags.now i }
{
    for it in tags {
        if it.line == i {
            return it.tag.as_slice();
        }
    }
    &[]
}
