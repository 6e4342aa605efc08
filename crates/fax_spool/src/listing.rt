//! What the files of a spool tell, while they stay as they are.
ghost use Rattle.std.specs.Prelude.{◌≡◌, ◌++◌, IfOk};
ghost use Rattle.fax_spool.specs.Found.{passed_over};
ghost use Rattle.fax_spool.specs.Waits.{waiting};
ghost use Rattle.fax_spool.specs.Opened.{closed, torn_found};
ghost use Rattle.fax_spool.specs.Listed.{IsListed};
ghost use Rattle.fax_spool.specs.Torn.{damaged};

use crate::file::records_of;
use crate::opening::{damaged, pages_of, torn_with};
use crate::{CallName, FileContents, SpoolRecord, WaitingPage, first_epoch, read_spool_records};
use std::alloc::{AllocError, Global};

/// What is harmed of a file.
#[derive(Clone, Copy, PartialEq, Eq)]
pub struct Harm {
    /// How many of its records are damaged.
    pub damaged: usize,
    /// How many octets are passed over after them.
    pub passed_over: usize,
}

/// What a start would find in the files of a spool.
#[derive(Drop)]
pub struct Listing {
    /// The pages that wait, in the order in which they were confirmed. The last one of each call closes its job.
    pub pages: Vec<WaitingPage>,
    /// The calls that lack a page, as `OpenedSpool` tells them.
    pub torn: Vec<CallName>,
    /// What is harmed of the first file.
    pub one: Harm,
    /// What is harmed of the other one.
    pub other: Harm,
}

/// What a start would find in these octets of the two files of a spool, whichever of them is the older one. Of a record that is being put
/// nothing is told.
pub fn list_spool(alloc: Global, one: &[u8], other: &[u8]) -> Result<Listing, AllocError>
    ensures { IfOk result (IsListed one.now other.now) }
{
    let first = records_of(alloc, one)?;
    let second = records_of(alloc, other)?;
    let ones = read_spool_records(alloc, first.items.as_slice())?;
    let others = read_spool_records(alloc, second.items.as_slice())?;
    let one = harm_of(&first, ones.as_slice());
    let other = harm_of(&second, others.as_slice());
    if first_epoch(ones.as_slice()) > first_epoch(others.as_slice()) {
        let destroyed = (second.is_destroyed, first.is_destroyed);
        return list(alloc, others, ones, destroyed, one, other);
    }
    let destroyed = (first.is_destroyed, second.is_destroyed);
    list(alloc, ones, others, destroyed, one, other)
}

/// What is harmed of a file in which this was found, whose records these are.
fn harm_of(found: &FileContents, records: &[SpoolRecord<'_>]) -> Harm
    ensures damaged { result.damaged ≡ damaged records.now }
    ensures passed_over { result.passed_over ≡ found.now.passed_over }
{
    Harm {
        damaged: damaged(records),
        passed_over: found.passed_over,
    }
}

/// What is told by the records of two files, of which the older one is known, and a header is destroyed or not.
fn list(
    alloc: Global,
    olds: Vec<SpoolRecord<'_>>,
    news: Vec<SpoolRecord<'_>>,
    destroyed: (bool, bool),
    one: Harm,
    other: Harm,
) -> Result<Listing, AllocError>
    ensures pages { IfOk result (λ listing.
        listing.pages.items ≡ closed (waiting (olds.entry.items ++ news.entry.items))) }
    ensures torn { IfOk result (λ listing. listing.torn.items
        ≡ torn_found destroyed.0 destroyed.1 olds.entry.items news.entry.items) }
    ensures one { IfOk result (λ listing. listing.one ≡ one) }
    ensures other { IfOk result (λ listing. listing.other ≡ other) }
{
    let pages = pages_of(alloc, olds.as_slice(), news.as_slice())?;
    let torn = torn_with(alloc, olds, news, destroyed)?;
    Ok(Listing {
        pages,
        torn,
        one,
        other,
    })
}
