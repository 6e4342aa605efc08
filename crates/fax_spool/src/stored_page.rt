//! A page that waits, as a spool knows it in memory.
ghost use Rattle.std.specs.Prelude.{◌≡◌, ◌++◌, List, ℕ, map, IfOk, OnOk};
ghost use Rattle.std.specs.List.{list_all};
ghost use Rattle.fax_spool.specs.RecordOctets.{PageValue};
ghost use Rattle.fax_spool.specs.StoredPages.{AreKnownAs, IsRecordOf, end_alone, ended_alone, is_in_memory, put_again};
ghost use Rattle.fax_spool.specs.Places.{AreReadAt, StandsAt, octets_of};
ghost use Rattle.fax_spool.specs.SpoolRecords.{AreReadAs, IsReadAs, ended_record, page_record};
ghost use Rattle.fax_spool.specs.declared.spool_record.SpoolRecord.{SpoolRecord as SpoolRecordShown};

use crate::page_name::PageName;
use crate::placed_page::PlacedPage;
use crate::record_place::RecordPlace;
use crate::spool_record::{seal_ended, seal_page};
use crate::{EndedRecord, PageRecord, SpoolRecord};
use fax_jobs::Outcome;
use fax_runcodes::{Format, Width};
use std::alloc::{AllocError, Global};
use std::io;

/// The most octets of the name of a line, and of a tag.
const MOST_NAME: usize = 255;

/// The format that the record of the end of a page alone has.
const END_FORMAT: Format = Format {
    width: Width::W1728,
    fine: false,
};

/// A page that waits: which it is, and where its record is.
pub(crate) struct StoredPage {
    pub(crate) name: PageName,
    pub(crate) source: RecordSource,
}

impl Drop for StoredPage {
    fn drop(self) {
        let StoredPage {
            name: _name,
            source: _source,
        } = self;
    }
}

/// Where the record of a page is.
#[derive(Drop)]
pub(crate) enum RecordSource {
    /// Its octets are in memory.
    Memory(Vec<u8>),
    /// They stand in its file.
    File(RecordPlace),
}

/// How many octets of records are kept in memory still.
#[derive(Clone, Copy)]
pub(crate) struct Room {
    pub(crate) octets: usize,
}

impl Room {
    /// Takes so many octets of it, and answers whether it had them.
    fn take(&mut self, octets: usize) -> bool {
        if octets > self.octets {
            return false;
        }
        self.octets -= octets;
        true
    }
}

/// Where a record is that stands at a place: in memory, where there is room for it.
pub(crate) fn source_of(octets: Vec<u8>, place: RecordPlace, room: &mut Room) -> RecordSource
    ensures { (items : List (List ℕ)) (page : PageValue) → StandsAt items place octets.items
        → IsReadAs octets.items (SpoolRecord.Page page) → IsRecordOf items result page }
{
    if room.take(octets.len()) {
        return RecordSource::Memory(octets);
    }
    RecordSource::File(place)
}

/// The same of octets that are copied into memory.
fn source_of_copy(
    alloc: Global,
    item: &[u8],
    place: RecordPlace,
    room: &mut Room,
) -> Result<RecordSource, AllocError>
    ensures { IfOk result
        (λ source. (items : List (List ℕ)) (page : PageValue) → StandsAt items place item.now
        → IsReadAs item.now (SpoolRecord.Page page) → IsRecordOf items source page) }
{
    if room.take(item.len()) {
        return Ok(RecordSource::Memory(item.to_vec(alloc)?));
    }
    Ok(RecordSource::File(place))
}

/// The records of pages, sealed, and the pages as they are known after that.
pub(crate) struct SealedPages {
    pub(crate) items: Vec<Vec<u8>>,
    pub(crate) kept: Vec<StoredPage>,
}

impl Drop for SealedPages {
    fn drop(self) {
        let SealedPages {
            items: _items,
            kept: _kept,
        } = self;
    }
}

/// The records of pages, sealed, and the pages as they are known where these records are put at the end of a file. It refuses a page whose
/// line or tag has more than 255 octets.
pub(crate) fn seal_pages(
    alloc: Global,
    pages: &[PageRecord<'_>],
    end: usize,
    room: &mut Room,
) -> io::Result<SealedPages>
    ensures items { IfOk result
        (λ sealed. AreReadAs (map (λ v. v.items) sealed.items.items) (map page_record pages.now)) }
    ensures kept { IfOk result
        (λ sealed. (before : List (List ℕ)) → octets_of before ≡ end → AreKnownAs (before ++ map
        (λ v. v.items) sealed.items.items) sealed.kept.items pages.now) }
{
    let mut items = Vec::with_capacity(alloc, pages.len())?;
    let mut kept = Vec::with_capacity(alloc, pages.len())?;
    let mut at = end;
    for page in pages {
        if page.line.len() > MOST_NAME || page.tag.len() > MOST_NAME {
            return Err(io::ErrorKind::InvalidInput.into());
        }
        let item = seal_page(alloc, page)?;
        let place = RecordPlace::after(at, item.len())?;
        let source = source_of_copy(alloc, item.as_slice(), place, room)?;
        let name = PageName::of_page(alloc, page)?;
        kept.push(StoredPage { name, source })?;
        items.push(item)?;
        at = place.at + place.octets;
    }
    Ok(SealedPages { items, kept })
}

/// The records of the ends of jobs, sealed. It refuses the name of a line of more than 255 octets.
pub(crate) fn seal_ends(alloc: Global, ended: &[EndedRecord<'_>]) -> io::Result<Vec<Vec<u8>>>
    ensures { IfOk result
        (λ items. AreReadAs (map (λ v. v.items) items.items) (map ended_record ended.now)) }
{
    let mut items = Vec::with_capacity(alloc, ended.len())?;
    for job in ended {
        if job.line.len() > MOST_NAME {
            return Err(io::ErrorKind::InvalidInput.into());
        }
        let item = seal_ended(alloc, job)?;
        items.push(item)?;
    }
    Ok(items)
}

/// Pages whose records were read, as they are known: their octets in memory, as long as there is room for them.
pub(crate) fn keep_placed_pages(
    alloc: Global,
    pages: &[PlacedPage<'_>],
    room: &mut Room,
) -> Result<Vec<StoredPage>, AllocError>
    ensures { IfOk result (λ kept. (items : List (List ℕ)) (waits : List PageValue)
        → AreReadAt items pages.now waits → AreKnownAs items kept.items waits) }
{
    let mut kept = Vec::with_capacity(alloc, pages.len())?;
    for placed in pages {
        let source = source_of_copy(alloc, placed.item(), placed.place(), room)?;
        let name = PageName::of_page(alloc, placed.page())?;
        kept.push(StoredPage { name, source })?;
    }
    Ok(kept)
}

/// Whether the records of all of these pages are in memory.
pub(crate) fn are_in_memory(pages: &[StoredPage]) -> bool
    ensures { result ≡ list_all is_in_memory pages.now }
{
    pages.iter().all(|page| is_in_memory(page))
}

/// Whether the record of a page is in memory.
fn is_in_memory(page: &StoredPage) -> bool
    ensures { result ≡ is_in_memory page.now }
{
    match &page.source {
        RecordSource::Memory(_) => true,
        RecordSource::File(_) => false,
    }
}

/// What room is left, where `most` octets are kept at most and these pages wait.
pub(crate) fn room_left(most: usize, older: &[StoredPage], newer: &[StoredPage]) -> Room {
    Room {
        octets: most.saturating_sub(taken_by(older).saturating_add(taken_by(newer))),
    }
}

/// How many octets of the records of these pages are in memory.
pub(crate) fn taken_by(pages: &[StoredPage]) -> usize {
    let mut octets: usize = 0;
    for page in pages {
        if let RecordSource::Memory(kept) = &page.source {
            octets = octets.saturating_add(kept.len());
        }
    }
    octets
}

/// The records of the pages of two files that wait, put again: all of their ends, and then all of them. It refuses where one of them is not
/// in memory, and where the name of a line has more than 255 octets.
pub(crate) fn records_again(
    alloc: Global,
    older: &[StoredPage],
    newer: &[StoredPage],
) -> io::Result<Vec<Vec<u8>>>
    ensures { IfOk result
        (λ items. (older_items newer_items : List (List ℕ)) (olds news : List PageValue)
        → AreKnownAs older_items older.now olds → AreKnownAs newer_items newer.now news
        → AreReadAs (map (λ v. v.items) items.items) (put_again (olds ++ news))) }
{
    let mut items = Vec::new(alloc);
    push_ends(alloc, &mut items, older)?;
    push_ends(alloc, &mut items, newer)?;
    push_pages(alloc, &mut items, older)?;
    push_pages(alloc, &mut items, newer)?;
    Ok(items)
}

/// The record of the end of each of these pages alone goes after others.
fn push_ends(alloc: Global, items: &mut Vec<Vec<u8>>, pages: &[StoredPage]) -> io::Result<()>
    ensures { OnOk result ((there : List (List ℕ))
        (records : List SpoolRecordShown) (waits : List PageValue)
        → AreReadAs (map (λ v. v.items) items.old.items) records → AreKnownAs there pages.now waits
        → AreReadAs (map (λ v. v.items) items.new.items) (records ++ map ended_alone waits)) }
{
    for page in pages {
        items.push(seal_end_of(alloc, &page.name)?)?;
    }
    Ok(())
}

/// The record of the end of a page alone, sealed. It refuses the name of a line of more than 255 octets.
fn seal_end_of(alloc: Global, page: &PageName) -> io::Result<Vec<u8>>
    ensures { IfOk result
        (λ octets. IsReadAs octets.items (SpoolRecord.Ended (end_alone page.now))) }
{
    let line = page.line();
    if line.len() > MOST_NAME {
        return Err(io::ErrorKind::InvalidInput.into());
    }
    let ended = EndedRecord {
        life: page.life(),
        call: page.call(),
        first: page.number(),
        pages: 1,
        delivered: 0,
        format: END_FORMAT,
        outcome: Outcome::NotPlaced,
        line,
    };
    Ok(seal_ended(alloc, &ended)?)
}

/// The record of each of these pages goes after others.
fn push_pages(alloc: Global, items: &mut Vec<Vec<u8>>, pages: &[StoredPage]) -> io::Result<()>
    ensures { OnOk result ((there : List (List ℕ))
        (records : List SpoolRecordShown) (waits : List PageValue)
        → AreReadAs (map (λ v. v.items) items.old.items) records → AreKnownAs there pages.now waits
        → AreReadAs (map (λ v. v.items) items.new.items) (records ++ map page_record waits)) }
{
    for page in pages {
        items.push(record_of(alloc, &page.source)?)?;
    }
    Ok(())
}

/// The record of a page, copied from memory. It refuses where it is not there.
fn record_of(alloc: Global, source: &RecordSource) -> io::Result<Vec<u8>>
    ensures { IfOk result (λ item. (items : List (List ℕ)) (page : PageValue)
        → IsRecordOf items source.now page → IsReadAs item.items (SpoolRecord.Page page)) }
{
    match source {
        RecordSource::Memory(octets) => Ok(octets.as_slice().to_vec(alloc)?),
        RecordSource::File(_) => Err(io::ErrorKind::InvalidInput.into()),
    }
}
