//! Which pages wait, by the records that were read.
ghost use Rattle.std.specs.Prelude.{◌≡◌, ◌++◌, map, IfOk, OnOk};
ghost use Rattle.fax_spool.specs.SpoolRecords.{AreReadAs};
ghost use Rattle.fax_spool.specs.Waits.{after, waiting, waiting_after, without};
ghost use Rattle.fax_spool.specs.Spools.{epoch_of, greatest_epoch, raised};

use crate::page_name::had;
use crate::{EndedRecord, PageRecord, SpoolRecord, read_spool_record};
use std::alloc::{AllocError, Global};

/// What each of these octets says, in their order.
pub fn read_spool_records(
    alloc: Global,
    items: &[Vec<u8>],
) -> Result<Vec<SpoolRecord<'_>>, AllocError>
    ensures { IfOk result (λ records. AreReadAs (map (λ v. v.items) items.now) records.items) }
{
    let mut records = Vec::with_capacity(alloc, items.len())?;
    let mut rest = items;
    while let Some((octets, after)) = rest.split_first() {
        records.push(read_spool_record(octets.as_slice()))?;
        rest = after;
    }
    Ok(records)
}

/// The pages that wait after these records, in the order in which they were put.
pub fn waiting_pages<'a>(
    alloc: Global,
    records: &[SpoolRecord<'a>],
) -> Result<Vec<PageRecord<'a>>, AllocError>
    ensures { IfOk result (λ pages. pages.items ≡ waiting records.now) }
{
    let mut pages = Vec::new(alloc);
    follow_all(&mut pages, records)?;
    Ok(pages)
}

/// The pages that wait after these records, where some waited before them.
pub(crate) fn follow_all<'a>(
    pages: &mut Vec<PageRecord<'a>>,
    records: &[SpoolRecord<'a>],
) -> Result<(), AllocError>
    ensures { OnOk result (pages.new.items ≡ waiting_after pages.old.items records.now) }
{
    for kept in records {
        follow(pages, kept)?;
    }
    Ok(())
}

/// The number of the first epoch that can be read, 0 where there is none. Of the two files of a spool, that of the smaller number is
/// the older one.
pub fn first_epoch(records: &[SpoolRecord<'_>]) -> u32
    ensures { result ≡ epoch_of records.now }
{
    for kept in records {
        if let SpoolRecord::Epoch(number) = kept {
            return *number;
        }
    }
    0
}

/// The greatest number of an epoch in these records, 0 where there is none.
pub(crate) fn newest_epoch(records: &[SpoolRecord<'_>]) -> u32
    ensures { result ≡ greatest_epoch records.now }
{
    let mut greatest = 0;
    for kept in records {
        greatest = raised(greatest, kept);
    }
    greatest
}

/// The greater number of this one and of a record's epoch.
fn raised(greatest: u32, kept: &SpoolRecord<'_>) -> u32
    ensures { result ≡ raised greatest kept.now }
{
    match kept {
        SpoolRecord::Epoch(number) => greatest.max(*number),
        SpoolRecord::Page(_) => greatest,
        SpoolRecord::Ended(_) => greatest,
        SpoolRecord::Damaged => greatest,
    }
}

/// One more record: its page waits, or the pages of its job wait no more.
fn follow<'a>(pages: &mut Vec<PageRecord<'a>>, kept: &SpoolRecord<'a>) -> Result<(), AllocError>
    ensures { OnOk result (pages.new.items ≡ after pages.old.items kept.now) }
{
    match kept {
        SpoolRecord::Page(page) => Ok(pages.push(page.copy())?),
        SpoolRecord::Ended(ended) => {
            drop_job(pages, ended);
            Ok(())
        }
        SpoolRecord::Epoch(_) => Ok(()),
        SpoolRecord::Damaged => Ok(()),
    }
}

/// Drops the pages of a job that ended.
fn drop_job(pages: &mut Vec<PageRecord<'_>>, ended: &EndedRecord<'_>)
    ensures { pages.new.items ≡ without ended.now pages.old.items }
{
    pages.retain(|page| !had(ended, page));
}
