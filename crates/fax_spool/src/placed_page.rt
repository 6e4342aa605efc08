//! Pages that wait by records that were read, with the places of these.
ghost use Rattle.std.specs.Prelude.{◌≡◌, List, ℕ, map, not, IfOk, OnOk};
ghost use Rattle.std.specs.List.{filter};
ghost use Rattle.fax_spool.specs.RecordOctets.{PageValue};
ghost use Rattle.fax_spool.specs.SpoolRecords.{AreReadAs, IsReadAs};
ghost use Rattle.fax_spool.specs.Places.{AreReadAt, StandsAt};
ghost use Rattle.fax_spool.specs.Waits.{after, ends, left_after, left_of, name_of, waiting};

use crate::page_name::had;
use crate::record_place::RecordPlace;
use crate::{EndedRecord, PageRecord, SpoolRecord};
use std::alloc::{AllocError, Global};
use std::io;
use std::marker::Model;

/// A page that waits by a record that was read.
#[derive(Drop)]
pub(crate) struct PlacedPage<'a> {
    page: PageRecord<'a>,
    item: &'a [u8],
    place: RecordPlace,
}

impl<'a> Model for PlacedPage<'a> {
    ghost use Rattle.fax_spool.specs.Places.{PlacedPage as PlacedPageValue};

    ghost Value = { PlacedPageValue };

    ghost view = { λ p. record { page = p.page; item = p.item.now; place = p.place } };
}

impl PlacedPage<'_> {
    /// What the record says.
    pub(crate) fn page(&self) -> &PageRecord<'_>
        ensures { result.now ≡ self.now.page }
    {
        &self.page
    }

    /// The octets of the record.
    pub(crate) fn item(&self) -> &[u8]
        ensures { result.now ≡ self.now.item }
    {
        self.item
    }

    /// Where they stand in their file.
    pub(crate) fn place(&self) -> RecordPlace
        ensures { result ≡ self.now.place }
    {
        self.place
    }
}

/// The pages that wait after the records of a file, each with its place there. These are the octets of the records, one after another from
/// the first of the file on, and what each of them says.
pub(crate) fn placed_pages<'a>(
    alloc: Global,
    items: &'a [Vec<u8>],
    records: &[SpoolRecord<'a>],
) -> io::Result<Vec<PlacedPage<'a>>>
    ensures { IfOk result (λ pages. AreReadAs (map (λ v. v.items) items.now) records.now
        → AreReadAt (map (λ v. v.items) items.now) pages.items (waiting records.now)) }
{
    let mut pages = Vec::new(alloc);
    let mut end = 0;
    let mut rest = items;
    for kept in records {
        let Some((item, after)) = rest.split_first() else {
            return Err(io::ErrorKind::InvalidInput.into());
        };
        let place = RecordPlace::after(end, item.len())?;
        follow(&mut pages, kept, item.as_slice(), place)?;
        end = place.at + place.octets;
        rest = after;
    }
    Ok(pages)
}

/// One more record: its page waits, or the pages of its job wait no more.
fn follow<'a>(
    pages: &mut Vec<PlacedPage<'a>>,
    kept: &SpoolRecord<'a>,
    item: &'a [u8],
    place: RecordPlace,
) -> Result<(), AllocError>
    ensures { OnOk result ((items : List (List ℕ)) (waits : List PageValue)
        → AreReadAt items pages.old.items waits → StandsAt items place item.now
        → IsReadAs item.now kept.now → AreReadAt items pages.new.items (after waits kept.now)) }
{
    match kept {
        SpoolRecord::Page(page) => {
            let page = page.copy();
            Ok(pages.push(PlacedPage { page, item, place })?)
        }
        SpoolRecord::Ended(ended) => {
            drop_job(pages, ended);
            Ok(())
        }
        SpoolRecord::Epoch(_) => Ok(()),
        SpoolRecord::Damaged => Ok(()),
    }
}

/// Drops the pages whose jobs ended by these records.
pub(crate) fn drop_ended(pages: &mut Vec<PlacedPage<'_>>, records: &[SpoolRecord<'_>])
    ensures { (items : List (List ℕ)) (waits : List PageValue)
        → AreReadAt items pages.old.items waits
        → AreReadAt items pages.new.items (left_after waits records.now) }
{
    for kept in records {
        drop_ended_by(pages, kept);
    }
}

/// Drops the pages whose jobs ended by this record.
fn drop_ended_by(pages: &mut Vec<PlacedPage<'_>>, kept: &SpoolRecord<'_>)
    ensures { (items : List (List ℕ)) (waits : List PageValue)
        → AreReadAt items pages.old.items waits
        → AreReadAt items pages.new.items (left_of waits kept.now) }
{
    match kept {
        SpoolRecord::Ended(ended) => drop_job(pages, ended),
        SpoolRecord::Page(_) => {}
        SpoolRecord::Epoch(_) => {}
        SpoolRecord::Damaged => {}
    }
}

/// Drops the pages of a job that ended.
fn drop_job(pages: &mut Vec<PlacedPage<'_>>, ended: &EndedRecord<'_>)
    ensures { pages.new.items ≡ filter
        (λ placed. not (ends ended.now (name_of placed.page))) pages.old.items }
{
    pages.retain(|placed| !had(ended, &placed.page));
}
