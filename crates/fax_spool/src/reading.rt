//! The pages that wait, read back while a spool is in use: each from its own record, wherever that is.
ghost use Rattle.std.specs.Prelude.{◌≡◌, ◌++◌, [], ◌∷◌, List, ℕ, IfOk, IsTrue, OnOk};
ghost use Rattle.fax_spool.specs.StoredPages.{AreKnownAs, IsKnownAs, IsRecordOf};
ghost use Rattle.fax_spool.specs.Places.{StandsAt};
ghost use Rattle.fax_spool.specs.RecordOctets.{PageValue};
ghost use Rattle.fax_spool.specs.Settled.{IsSettled};
ghost use Rattle.fax_spool.specs.SpoolRecords.{IsReadAs};
ghost use Rattle.fax_spool.specs.Waits.{ended_by};

use crate::record_place::RecordPlace;
use crate::stored_page::{RecordSource, StoredPage};
use crate::{EndedRecord, PageRecord, RecordFile, SpoolRecord, WaitingPage, read_spool_record};
use sqlite_disk::Disk;
use std::alloc::{AllocError, Global};
use std::io;

/// Of the pages of a file that wait, those that the job that ended had go after others, in their order. Of the file just their records
/// are read.
pub(crate) fn push_ended<D: Disk>(
    alloc: Global,
    found: &mut Vec<WaitingPage>,
    file: &mut RecordFile<D>,
    pages: &[StoredPage],
    ended: &EndedRecord<'_>,
) -> io::Result<()>
    ensures found { OnOk result (IsTrue (D.is_clean file.new.disk)
        → (rs : List (List ℕ)) (waits : List PageValue)
        → IsSettled D.seen D.may_leave D.is_usable file.old.disk file.old.end rs
        → AreKnownAs rs pages.now waits
        → found.new.items ≡ found.old.items ++ ended_by ended.now waits) }
    ensures settled { (rs : List (List ℕ))
        → IsSettled D.seen D.may_leave D.is_usable file.old.disk file.old.end rs
        → IsSettled D.seen D.may_leave D.is_usable file.new.disk file.new.end rs }
    ensures crash { (c : List ℕ) → D.may_leave file.new.disk c → D.may_leave file.old.disk c }
{
    for kept in pages {
        push_page(alloc, found, file, kept, ended)?;
    }
    Ok(())
}

/// A page goes after others, where the job that ended had it. Else nothing is read.
fn push_page<D: Disk>(
    alloc: Global,
    found: &mut Vec<WaitingPage>,
    file: &mut RecordFile<D>,
    kept: &StoredPage,
    ended: &EndedRecord<'_>,
) -> io::Result<()>
    ensures found { OnOk result (IsTrue (D.is_clean file.new.disk)
        → (rs : List (List ℕ)) (page : PageValue)
        → IsSettled D.seen D.may_leave D.is_usable file.old.disk file.old.end rs
        → IsKnownAs rs kept.now page
        → found.new.items ≡ found.old.items ++ ended_by ended.now (page ∷ [])) }
    ensures settled { (rs : List (List ℕ))
        → IsSettled D.seen D.may_leave D.is_usable file.old.disk file.old.end rs
        → IsSettled D.seen D.may_leave D.is_usable file.new.disk file.new.end rs }
    ensures crash { (c : List ℕ) → D.may_leave file.new.disk c → D.may_leave file.old.disk c }
    ensures clean { IsTrue (D.is_clean file.new.disk) → IsTrue (D.is_clean file.old.disk) }
{
    if !kept.name.is_ended_by(ended) {
        return Ok(());
    }
    found.push(read_page(alloc, file, kept)?)?;
    Ok(())
}

/// A page that waits, by its record. `InvalidData` where that is not the record of this page: its disk answers what is not on it.
fn read_page<D: Disk>(
    alloc: Global,
    file: &mut RecordFile<D>,
    kept: &StoredPage,
) -> io::Result<WaitingPage>
    ensures page { IfOk result
        (λ read. IsTrue (D.is_clean file.new.disk) → (rs : List (List ℕ)) (page : PageValue)
        → IsSettled D.seen D.may_leave D.is_usable file.old.disk file.old.end rs
        → IsKnownAs rs kept.now page → read ≡ page) }
    ensures settled { (rs : List (List ℕ))
        → IsSettled D.seen D.may_leave D.is_usable file.old.disk file.old.end rs
        → IsSettled D.seen D.may_leave D.is_usable file.new.disk file.new.end rs }
    ensures crash { (c : List ℕ) → D.may_leave file.new.disk c → D.may_leave file.old.disk c }
    ensures clean { IsTrue (D.is_clean file.new.disk) → IsTrue (D.is_clean file.old.disk) }
{
    let page = read_source(alloc, file, &kept.source)?;
    if !kept.name.is_of(&page.as_record()) {
        return Err(io::ErrorKind::InvalidData.into());
    }
    Ok(page)
}

/// A page by its record, wherever that is.
fn read_source<D: Disk>(
    alloc: Global,
    file: &mut RecordFile<D>,
    source: &RecordSource,
) -> io::Result<WaitingPage>
    ensures page { IfOk result
        (λ read. IsTrue (D.is_clean file.new.disk) → (rs : List (List ℕ)) (page : PageValue)
        → IsSettled D.seen D.may_leave D.is_usable file.old.disk file.old.end rs
        → IsRecordOf rs source.now page → read ≡ page) }
    ensures settled { (rs : List (List ℕ))
        → IsSettled D.seen D.may_leave D.is_usable file.old.disk file.old.end rs
        → IsSettled D.seen D.may_leave D.is_usable file.new.disk file.new.end rs }
    ensures crash { (c : List ℕ) → D.may_leave file.new.disk c → D.may_leave file.old.disk c }
    ensures clean { IsTrue (D.is_clean file.new.disk) → IsTrue (D.is_clean file.old.disk) }
{
    match source {
        RecordSource::Memory(octets) => Ok(page_of(alloc, octets.as_slice())?),
        RecordSource::File(place) => {
            let octets = read_record(alloc, file, *place)?;
            Ok(page_of(alloc, octets.as_slice())?)
        }
    }
}

/// The octets of a record that stands at this place of a file.
fn read_record<D: Disk>(
    alloc: Global,
    file: &mut RecordFile<D>,
    place: RecordPlace,
) -> io::Result<Vec<u8>>
    ensures octets { IfOk result
        (λ octets. IsTrue (D.is_clean file.new.disk) → (rs : List (List ℕ)) (item : List ℕ)
        → IsSettled D.seen D.may_leave D.is_usable file.old.disk file.old.end rs
        → StandsAt rs place item → octets.items ≡ item) }
    ensures settled { (rs : List (List ℕ))
        → IsSettled D.seen D.may_leave D.is_usable file.old.disk file.old.end rs
        → IsSettled D.seen D.may_leave D.is_usable file.new.disk file.new.end rs }
    ensures crash { (c : List ℕ) → D.may_leave file.new.disk c → D.may_leave file.old.disk c }
    ensures clean { IsTrue (D.is_clean file.new.disk) → IsTrue (D.is_clean file.old.disk) }
{
    if !file.disk.may_be_used() {
        return Err(io::ErrorKind::Other.into());
    }
    let mut octets = Vec::from_elem(alloc, 0u8, place.octets)?;
    file.disk.read_at(place.at, octets.as_mut_slice())?;
    Ok(octets)
}

/// The page whose record octets are. `InvalidData` where they are none's.
fn page_of(alloc: Global, octets: &[u8]) -> io::Result<WaitingPage>
    ensures { IfOk result
        (λ read. (page : PageValue) → IsReadAs octets.now (SpoolRecord.Page page) → read ≡ page) }
{
    match read_spool_record(octets) {
        SpoolRecord::Page(page) => Ok(copy_of(alloc, &page)?),
        SpoolRecord::Ended(_) => Err(io::ErrorKind::InvalidData.into()),
        SpoolRecord::Epoch(_) => Err(io::ErrorKind::InvalidData.into()),
        SpoolRecord::Damaged => Err(io::ErrorKind::InvalidData.into()),
    }
}

/// This page, in memory of its own.
fn copy_of(alloc: Global, page: &PageRecord<'_>) -> Result<WaitingPage, AllocError>
    ensures { IfOk result (λ copy. copy ≡ page.now) }
{
    WaitingPage::of_record(alloc, page, page.closes)
}
