//! What a sealed record of a spool says, whichever it is.
ghost use Rattle.std.specs.Prelude.{◌≡◌, ◌≢◌, ◌<◌, ℕ, List, length, map, IfOk, MatchOption};
ghost use Rattle.fax_spool.specs.RecordOctets.{PageValue, EndedValue, epoch_octets};
ghost use Rattle.fax_spool.specs.SpoolRecords.{AreReadAs, IsReadAs};
ghost use Rattle.fax_spool.specs.Spools.{epoch_records};

use crate::record::{
    number_of, read_ended_record, read_page_record, write_ended_record, write_page_record,
};
use crate::{EndedRecord, PageRecord, seal, unseal};
use std::alloc::{AllocError, Global};

/// The first octet of the record of an epoch.
const EPOCH: u8 = 3;

/// What a sealed record says.
#[derive(Drop)]
pub enum SpoolRecord<'a> {
    /// A page was confirmed.
    Page(PageRecord<'a>),
    /// A job ended.
    Ended(EndedRecord<'a>),
    /// The epoch of this number began: a process started, or the other file was taken into use.
    Epoch(u32),
    /// It is none of these, or its digest is another.
    Damaged,
}

/// What a sealed record says.
pub fn read_spool_record(octets: &[u8]) -> SpoolRecord<'_>
    ensures { IsReadAs octets.now result }
{
    let Some(kept) = unseal(octets) else {
        return SpoolRecord::Damaged;
    };
    if let Some(page) = read_page_record(kept) {
        return SpoolRecord::Page(page);
    }
    if let Some(ended) = read_ended_record(kept) {
        return SpoolRecord::Ended(ended);
    }
    match read_epoch(kept) {
        Some(number) => SpoolRecord::Epoch(number),
        None => SpoolRecord::Damaged,
    }
}

/// A page's record, sealed.
pub(crate) fn seal_page(alloc: Global, page: &PageRecord<'_>) -> Result<Vec<u8>, AllocError>
    requires line { length page.now.line < 256 }
    requires tag { length page.now.tag < 256 }
    ensures { IfOk result (λ octets. IsReadAs octets.items (SpoolRecord.Page page.now)) }
{
    let kept = write_page_record(alloc, page)?;
    let octets = seal(alloc, kept.as_slice())?;
    Ok(octets)
}

/// The record of a job that ended, sealed.
pub(crate) fn seal_ended(alloc: Global, ended: &EndedRecord<'_>) -> Result<Vec<u8>, AllocError>
    requires line { length ended.now.line < 256 }
    ensures { IfOk result (λ octets. IsReadAs octets.items (SpoolRecord.Ended ended.now)) }
{
    let kept = write_ended_record(alloc, ended)?;
    let octets = seal(alloc, kept.as_slice())?;
    Ok(octets)
}

/// The record of an epoch, sealed.
fn seal_epoch(alloc: Global, number: u32) -> Result<Vec<u8>, AllocError>
    ensures { IfOk result (λ octets. IsReadAs octets.items (SpoolRecord.Epoch number)) }
{
    let mut kept = Vec::with_capacity(alloc, 5)?;
    kept.push(EPOCH)?;
    kept.extend_from_slice(&number.to_be_bytes())?;
    seal(alloc, kept.as_slice())
}

/// The records of an epoch, sealed: it is put twice.
pub(crate) fn seal_epochs(alloc: Global, number: u32) -> Result<Vec<Vec<u8>>, AllocError>
    ensures { IfOk result
        (λ items. AreReadAs (map (λ v. v.items) items.items) (epoch_records number)) }
{
    let mut items = Vec::with_capacity(alloc, 2)?;
    items.push(seal_epoch(alloc, number)?)?;
    let again = seal_epoch(alloc, number)?;
    items.push(again)?;
    Ok(items)
}

/// The number of the epoch whose record octets are; `None` where they are none.
fn read_epoch(octets: &[u8]) -> Option<u32>
    ensures { MatchOption result ((number : ℕ)
        → octets.now ≢ epoch_octets number) (λ number. octets.now ≡ epoch_octets number) }
{
    match octets {
        [EPOCH, n0, n1, n2, n3] => Some(number_of(*n0, *n1, *n2, *n3)),
        _ => None,
    }
}
