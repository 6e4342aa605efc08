//! A spool: the records of confirmed pages and of jobs that ended, in two files in turn.
ghost use Rattle.std.specs.Prelude.{◌≡◌, ◌⊎◌, ◌<◌, ◌≤◌, ◌++◌, [], ◌∷◌, List, ℕ, length, map, not, true, false, IfOk, OnOk, OnErr, IsErr, IsTrue};
ghost use Rattle.std.specs.List.{filter, list_all};
ghost use Rattle.std.specs.Bool.{MatchBool};
ghost use Rattle.std.specs.Result.{is_ok};
ghost use Rattle.fax_spool.specs.Calls.{Accepts, Does, IsRead, Puts, Ends, Refuses, Turns, refuses_now};
ghost use Rattle.fax_spool.specs.Records.{Stands};
ghost use Rattle.fax_spool.specs.Settled.{IsSettled};
ghost use Rattle.fax_spool.specs.SpoolRecords.{AreReadAs, ended_record, page_record};
ghost use Rattle.fax_spool.specs.StoredPages.{is_in_memory, known_without, put_again};
ghost use Rattle.fax_spool.specs.Waits.{ended_by, ends, waiting};
ghost use Rattle.fax_spool.specs.Spools.{AreClean, Stores, NoneIsLeft, MayLeaveBoth, TellBoth, epoch_now, epoch_records, files_of, greatest_epoch};
ghost use Rattle.fax_spool.specs.declared.spool_record.SpoolRecord.{SpoolRecord as SpoolRecordShown};

use crate::page_name::PageName;
use crate::placed_page::{drop_ended, placed_pages};
use crate::reading::push_ended;
use crate::record_place::RecordPlace;
use crate::spool_record::{seal_ended, seal_epochs, seal_page};
use crate::stored_page::{
    Room, StoredPage, are_in_memory, keep_placed_pages, records_again, room_left, seal_ends,
    seal_pages, source_of, taken_by,
};
use crate::waiting::newest_epoch;
use crate::{EndedRecord, PageRecord, RecordFile, SpoolRecord, WaitingPage};
use sqlite_disk::Disk;
use std::alloc::Global;
use std::{io, mem};

/// The most octets of records that are kept in memory.
const MOST_KEPT: usize = 16 * 1024 * 1024;

/// Records of confirmed pages and of jobs that ended, in two files in turn: what is new is put into the newer one, and the older
/// one is cleared once no page in it waits. `begin` makes one of two files that were recovered.
///
/// At an `Err` of the disk what was to be put is on the disk or not, and the spool refuses everything from then on (`Refuses`), until
/// another is begun. At any other `Err` nothing has changed (`Does`).
pub struct Spool<D: Disk> {
    older: RecordFile<D>,
    newer: RecordFile<D>,
    /// The pages of the older file that wait.
    older_pages: Vec<StoredPage>,
    /// The pages of the newer file that wait.
    newer_pages: Vec<StoredPage>,
    /// What room there is for the records of more.
    room: Room,
    /// The greatest number of an epoch so far.
    epoch: u32,
    /// A call of the disk has failed.
    refuses: bool,
}

impl<D: Disk + Drop> Drop for Spool<D> {
    fn drop(self) {
        let Spool {
            older: _older,
            newer: _newer,
            older_pages: _older_pages,
            newer_pages: _newer_pages,
            room: _room,
            epoch: _epoch,
            refuses: _refuses,
        } = self;
    }
}

impl<D: Disk + Drop> Spool<D> {
    /// Begins a life over two files that were recovered, where these are the octets of their records and what they say, and the records of
    /// `older` were put before those of `newer`. Its epoch, which is the life's number, is greater than each before it.
    pub fn begin(
        alloc: Global,
        older: RecordFile<D>,
        newer: RecordFile<D>,
        older_items: &[Vec<u8>],
        newer_items: &[Vec<u8>],
        olds: &[SpoolRecord<'_>],
        news: &[SpoolRecord<'_>],
    ) -> io::Result<Self>
        ensures begun { IfOk result
            (λ spool. IsSettled D.seen D.may_leave D.is_usable older.disk older.end (map (λ v.
            v.items) older_items.now) → AreReadAs (map (λ v. v.items) older_items.now) olds.now
            → IsSettled D.seen D.may_leave D.is_usable newer.disk newer.end (map (λ v.
            v.items) newer_items.now) → AreReadAs (map (λ v. v.items) newer_items.now) news.now
            → Stores D.seen D.may_leave D.is_usable spool olds.now (news.now
            ++ epoch_records (epoch_now spool))) }
        ensures clean { IfOk result
            (λ spool. AreClean D.is_clean (files_of spool) → AreClean D.is_clean (older, newer)) }
        ensures older_epochs { IfOk result (λ spool. greatest_epoch olds.now < epoch_now spool) }
        ensures newer_epochs { IfOk result (λ spool. greatest_epoch news.now < epoch_now spool) }
        ensures accepts { IfOk result Accepts }
    {
        let greatest = newest_epoch(olds).max(newest_epoch(news));
        if greatest == u32::MAX {
            return Err(io::ErrorKind::StorageFull.into());
        }
        let epoch = greatest + 1;
        let mut pages = placed_pages(alloc, older_items, olds)?;
        drop_ended(&mut pages, news);
        let mut room = Room { octets: MOST_KEPT };
        let older_pages = keep_placed_pages(alloc, pages.as_slice(), &mut room)?;
        let pages = placed_pages(alloc, newer_items, news)?;
        let newer_pages = keep_placed_pages(alloc, pages.as_slice(), &mut room)?;
        let items = seal_epochs(alloc, epoch)?;
        let mut newer = newer;
        let mut refuses = false;
        append_all(&mut newer, &mut refuses, alloc, items.as_slice())?;
        Ok(Spool {
            older,
            newer,
            older_pages,
            newer_pages,
            room,
            epoch,
            refuses,
        })
    }
}

impl<D: Disk> Spool<D> {
    /// The number of its epoch.
    pub fn epoch(&self) -> u32
        ensures { result ≡ epoch_now self.now }
    {
        self.epoch
    }

    /// Whether a call of the disk has failed: then it refuses everything.
    pub fn refuses(&self) -> bool
        ensures { result ≡ refuses_now self.now }
    {
        self.refuses
    }

    /// Its files, the older one first: a disk may be recovered and a spool begun anew, where a call has failed.
    pub fn into_files(self) -> (RecordFile<D>, RecordFile<D>)
        ensures { result ≡ files_of self }
    {
        let Spool {
            older,
            newer,
            older_pages: _,
            newer_pages: _,
            room: _,
            epoch: _,
            refuses: _,
        } = self;
        (older, newer)
    }

    /// A page was confirmed. At `Ok` its record is on the disk, after those before it, and each later crash leaves it.
    pub fn put(&mut self, alloc: Global, page: &PageRecord<'_>) -> io::Result<()>
        requires line { length page.now.line < 256 }
        requires tag { length page.now.tag < 256 }
        ensures acknowledged { OnOk result ((olds news : List SpoolRecordShown)
            → Stores D.seen D.may_leave D.is_usable self.old olds news
            → Stores D.seen D.may_leave D.is_usable self.new olds (news
            ++ SpoolRecord.Page page.now ∷ [])) }
        // Whenever the machine stops, the files tell the records from before, with the new one or without.
        ensures crash { (olds news : List SpoolRecordShown)
            → Stores D.seen D.may_leave D.is_usable self.old olds news → (older newer : List ℕ)
            → MayLeaveBoth D.may_leave self.new older newer → TellBoth older newer olds news
            ⊎ TellBoth older newer olds (news ++ SpoolRecord.Page page.now ∷ []) }
        ensures does { Does D.seen D.may_leave D.is_usable (Puts (page.now ∷ []))
            (is_ok result) self.old self.new }
    {
        if self.refuses {
            return Err(io::ErrorKind::Other.into());
        }
        let name = PageName::of_page(alloc, page)?;
        let octets = seal_page(alloc, page)?;
        let place = RecordPlace::after(self.newer.end, octets.len())?;
        self.newer_pages.reserve(1)?;
        append(&mut self.newer, &mut self.refuses, alloc, octets.as_slice())?;
        let source = source_of(octets, place, &mut self.room);
        self.newer_pages.push_reserved(StoredPage { name, source });
        Ok(())
    }

    /// Pages were confirmed, as of several lines in one turn. At `Ok` the record of each is on the disk, after those before it and
    /// in this order, and each later crash leaves it. It costs two syncs, however many there are. A line or a tag of more than 255
    /// octets is `InvalidInput`, and nothing is put then.
    pub fn put_all(&mut self, alloc: Global, pages: &[PageRecord<'_>]) -> io::Result<()>
        ensures acknowledged { OnOk result ((olds news : List SpoolRecordShown)
            → Stores D.seen D.may_leave D.is_usable self.old olds news
            → Stores D.seen D.may_leave D.is_usable self.new olds (news
            ++ map page_record pages.now)) }
        // Whenever the machine stops, the files tell the records from before, with all of the new ones or with none.
        ensures crash { (olds news : List SpoolRecordShown)
            → Stores D.seen D.may_leave D.is_usable self.old olds news → (older newer : List ℕ)
            → MayLeaveBoth D.may_leave self.new older newer → TellBoth older newer olds news
            ⊎ TellBoth older newer olds (news ++ map page_record pages.now) }
        ensures does { Does D.seen D.may_leave D.is_usable (Puts pages.now)
            (is_ok result) self.old self.new }
    {
        if self.refuses {
            return Err(io::ErrorKind::Other.into());
        }
        let mut room = self.room;
        let mut sealed = seal_pages(alloc, pages, self.newer.end, &mut room)?;
        self.newer_pages.append(&mut sealed.kept)?;
        append_all(
            &mut self.newer,
            &mut self.refuses,
            alloc,
            sealed.items.as_slice(),
        )?;
        self.room = room;
        Ok(())
    }

    /// A job ended. At `Ok` its record is on the disk, and its pages wait no more.
    pub fn end(&mut self, alloc: Global, ended: &EndedRecord<'_>) -> io::Result<()>
        requires line { length ended.now.line < 256 }
        ensures acknowledged { OnOk result ((olds news : List SpoolRecordShown)
            → Stores D.seen D.may_leave D.is_usable self.old olds news
            → Stores D.seen D.may_leave D.is_usable self.new olds (news
            ++ SpoolRecord.Ended ended.now ∷ [])) }
        // Whenever the machine stops, the files tell the records from before, with the new one or without.
        ensures crash { (olds news : List SpoolRecordShown)
            → Stores D.seen D.may_leave D.is_usable self.old olds news → (older newer : List ℕ)
            → MayLeaveBoth D.may_leave self.new older newer → TellBoth older newer olds news
            ⊎ TellBoth older newer olds (news ++ SpoolRecord.Ended ended.now ∷ []) }
        ensures does { Does D.seen D.may_leave D.is_usable (Ends (ended.now ∷ []))
            (is_ok result) self.old self.new }
    {
        if self.refuses {
            return Err(io::ErrorKind::Other.into());
        }
        let octets = seal_ended(alloc, ended)?;
        append(&mut self.newer, &mut self.refuses, alloc, octets.as_slice())?;
        forget_ended(&mut self.older_pages, ended);
        forget_ended(&mut self.newer_pages, ended);
        self.room = room_left(
            MOST_KEPT,
            self.older_pages.as_slice(),
            self.newer_pages.as_slice(),
        );
        Ok(())
    }

    /// Jobs ended, as of several lines in one turn. At `Ok` the record of the end of each is on the disk, in this order, and their pages
    /// wait no more. It costs two syncs, however many there are. A line of more than 255 octets is `InvalidInput`, and nothing is put
    /// then.
    pub fn end_all(&mut self, alloc: Global, ended: &[EndedRecord<'_>]) -> io::Result<()>
        ensures acknowledged { OnOk result ((olds news : List SpoolRecordShown)
            → Stores D.seen D.may_leave D.is_usable self.old olds news
            → Stores D.seen D.may_leave D.is_usable self.new olds (news
            ++ map ended_record ended.now)) }
        // Whenever the machine stops, the files tell the records from before, with all of the new ones or with none.
        ensures crash { (olds news : List SpoolRecordShown)
            → Stores D.seen D.may_leave D.is_usable self.old olds news → (older newer : List ℕ)
            → MayLeaveBoth D.may_leave self.new older newer → TellBoth older newer olds news
            ⊎ TellBoth older newer olds (news ++ map ended_record ended.now) }
        ensures does { Does D.seen D.may_leave D.is_usable (Ends ended.now)
            (is_ok result) self.old self.new }
    {
        if self.refuses {
            return Err(io::ErrorKind::Other.into());
        }
        let items = seal_ends(alloc, ended)?;
        append_all(&mut self.newer, &mut self.refuses, alloc, items.as_slice())?;
        forget_all_ended(&mut self.older_pages, ended);
        forget_all_ended(&mut self.newer_pages, ended);
        self.room = room_left(
            MOST_KEPT,
            self.older_pages.as_slice(),
            self.newer_pages.as_slice(),
        );
        Ok(())
    }

    /// The pages that wait and that this end of a job would end, in the order in which they were put, each as its record has it. It costs
    /// a look at the name in memory of each page that waits, and the reading of the records of those that it answers, whatever else the
    /// files have. Nothing is written. An `Err` (the disk's failure, no memory, `InvalidData`: a disk answered what is no record of the
    /// page; or a spool that refuses) makes nothing refuse.
    pub fn pages_ended_by(
        &mut self,
        alloc: Global,
        ended: &EndedRecord<'_>,
    ) -> io::Result<Vec<WaitingPage>>
        ensures found { IfOk result
            (λ pages. AreClean D.is_clean (files_of self.new) → (olds news : List SpoolRecordShown)
            → Stores D.seen D.may_leave D.is_usable self.old olds news
            → pages.items ≡ ended_by ended.now (waiting (olds ++ news))) }
        ensures read { IsRead D.seen D.may_leave D.is_usable self.old self.new }
        ensures refused { Refuses self.old → IsErr result × (self.new ≡ self.old) }
    {
        if self.refuses {
            return Err(io::ErrorKind::Other.into());
        }
        let mut found = Vec::new(alloc);
        let older_pages = self.older_pages.as_slice();
        push_ended(alloc, &mut found, &mut self.older, older_pages, ended)?;
        let newer_pages = self.newer_pages.as_slice();
        push_ended(alloc, &mut found, &mut self.newer, newer_pages, ended)?;
        Ok(found)
    }

    /// Drops the records of the older file where none of its pages waits, and answers whether it did: not where one waits.
    pub fn clear(&mut self) -> io::Result<bool>
        ensures cleared { IfOk result (λ was. (olds news : List SpoolRecordShown)
            → Stores D.seen D.may_leave D.is_usable self.old olds news
            → MatchBool was (NoneIsLeft olds news
            × Stores D.seen D.may_leave D.is_usable self.new [] news) ((¬ NoneIsLeft olds news)
            × Stores D.seen D.may_leave D.is_usable self.new olds news)) }
        ensures failed { OnErr result ((olds news : List SpoolRecordShown)
            → Stores D.seen D.may_leave D.is_usable self.old olds news → Refuses self.new) }
        // Whenever the machine stops, the files tell all records, or those of the newer one where no other page waits.
        ensures crash { (olds news : List SpoolRecordShown)
            → Stores D.seen D.may_leave D.is_usable self.old olds news → (older newer : List ℕ)
            → MayLeaveBoth D.may_leave self.new older newer → TellBoth older newer olds news
            ⊎ (NoneIsLeft olds news × TellBoth older newer [] news) }
        ensures does { Does D.seen D.may_leave D.is_usable Turns (is_ok result) self.old self.new }
    {
        if self.refuses {
            return Err(io::ErrorKind::Other.into());
        }
        if !self.older_pages.is_empty() {
            return Ok(false);
        }
        if !self.older.disk.may_be_used() {
            return Err(io::ErrorKind::Other.into());
        }
        self.refuses = true;
        self.older.clear()?;
        self.refuses = false;
        Ok(true)
    }

    /// Takes the other file into use where it is empty, and answers whether it did. A new epoch begins.
    pub fn change(&mut self, alloc: Global) -> io::Result<bool>
        ensures changed { IfOk result (λ was. (olds news : List SpoolRecordShown)
            → Stores D.seen D.may_leave D.is_usable self.old olds news
            → MatchBool was ((olds ≡ []) × (greatest_epoch news < epoch_now self.new)
            × Stores D.seen D.may_leave D.is_usable self.new news (epoch_records
            (epoch_now self.new))) (Stores D.seen D.may_leave D.is_usable self.new olds news)) }
        // Whenever the machine stops, the files tell the records from before, with both of the epoch's or without.
        ensures crash { (olds news : List SpoolRecordShown)
            → Stores D.seen D.may_leave D.is_usable self.old olds news
            → (older newer : List ℕ) → MayLeaveBoth D.may_leave self.new older newer
            → TellBoth older newer olds news ⊎ TellBoth older newer news []
            ⊎ TellBoth older newer news (epoch_records (epoch_now self.new)) }
        ensures does { Does D.seen D.may_leave D.is_usable Turns (is_ok result) self.old self.new }
    {
        if self.refuses {
            return Err(io::ErrorKind::Other.into());
        }
        if self.older.end != 0 {
            return Ok(false);
        }
        if self.epoch == u32::MAX {
            return Err(io::ErrorKind::Other.into());
        }
        let items = seal_epochs(alloc, self.epoch + 1)?;
        self.epoch += 1;
        mem::swap(&mut self.older, &mut self.newer);
        mem::swap(&mut self.older_pages, &mut self.newer_pages);
        append_all(&mut self.newer, &mut self.refuses, alloc, items.as_slice())?;
        Ok(true)
    }

    /// Puts all pages that wait again, into the newer file, in the order in which they wait, so that none of the older one's is left: all of
    /// them at once, whatever crash comes. It answers whether it did: not where the records of one of them are not kept in memory, nor where
    /// they have more than `most` octets. It costs two syncs, and what those octets cost.
    pub fn put_again(&mut self, alloc: Global, most: usize) -> io::Result<bool>
        ensures put { IfOk result (λ was. (olds news : List SpoolRecordShown)
            → Stores D.seen D.may_leave D.is_usable self.old olds news
            → MatchBool was (NoneIsLeft olds (news ++ put_again (waiting (olds ++ news)))
            × Stores D.seen D.may_leave D.is_usable self.new olds (news ++ put_again (waiting (olds
            ++ news)))) (Stores D.seen D.may_leave D.is_usable self.new olds news)) }
        // Whenever the machine stops, the files tell the records from before, with those that are put again or without.
        ensures crash { (olds news : List SpoolRecordShown)
            → Stores D.seen D.may_leave D.is_usable self.old olds news → (older newer : List ℕ)
            → MayLeaveBoth D.may_leave self.new older newer → TellBoth older newer olds news
            ⊎ TellBoth older newer olds (news ++ put_again (waiting (olds ++ news))) }
        ensures does { Does D.seen D.may_leave D.is_usable Turns (is_ok result) self.old self.new }
    {
        if self.refuses {
            return Err(io::ErrorKind::Other.into());
        }
        if !self.are_kept_within(most) {
            return Ok(false);
        }
        let items = records_again(
            alloc,
            self.older_pages.as_slice(),
            self.newer_pages.as_slice(),
        )?;
        self.older_pages.append(&mut self.newer_pages)?;
        mem::swap(&mut self.older_pages, &mut self.newer_pages);
        append_all(&mut self.newer, &mut self.refuses, alloc, items.as_slice())?;
        Ok(true)
    }

    /// Whether the records of all pages that wait are in memory, and have at most so many octets.
    fn are_kept_within(&self, most: usize) -> bool
        ensures older { IsTrue result → IsTrue (list_all is_in_memory self.now.older_pages.items) }
        ensures newer { IsTrue result → IsTrue (list_all is_in_memory self.now.newer_pages.items) }
    {
        let older = self.older_pages.as_slice();
        let newer = self.newer_pages.as_slice();
        are_in_memory(older)
            && are_in_memory(newer)
            && taken_by(older).saturating_add(taken_by(newer)) <= most
    }
}

/// Adds a record to a file. Where that fails, the spool refuses everything from then on.
fn append<D: Disk>(
    file: &mut RecordFile<D>,
    refuses: &mut bool,
    alloc: Global,
    item: &[u8],
) -> io::Result<()>
    ensures acknowledged { OnOk result ((rs : List (List ℕ))
        → IsSettled D.seen D.may_leave D.is_usable file.old.disk file.old.end rs
        → IsSettled D.seen D.may_leave D.is_usable file.new.disk file.new.end (rs
        ++ item.now ∷ [])) }
    ensures crash { (rs : List (List ℕ))
        → IsSettled D.seen D.may_leave D.is_usable file.old.disk file.old.end rs → (c : List ℕ)
        → D.may_leave file.new.disk c → Stands c rs ⊎ Stands c (rs ++ item.now ∷ []) }
    ensures failed { OnErr result (refuses.new ≡ true) }
{
    *refuses = true;
    if !file.disk.may_be_used() {
        return Err(io::ErrorKind::Other.into());
    }
    file.put(alloc, item)?;
    *refuses = false;
    Ok(())
}

/// Adds records to a file. Where that fails, the spool refuses everything from then on.
fn append_all<D: Disk>(
    file: &mut RecordFile<D>,
    refuses: &mut bool,
    alloc: Global,
    items: &[Vec<u8>],
) -> io::Result<()>
    ensures acknowledged { OnOk result ((rs : List (List ℕ))
        → IsSettled D.seen D.may_leave D.is_usable file.old.disk file.old.end rs
        → IsSettled D.seen D.may_leave D.is_usable file.new.disk file.new.end (rs ++ map
        (λ v. v.items) items.now)) }
    ensures crash { (rs : List (List ℕ))
        → IsSettled D.seen D.may_leave D.is_usable file.old.disk file.old.end rs
        → (c : List ℕ) → D.may_leave file.new.disk c
        → Stands c rs ⊎ Stands c (rs ++ map (λ v. v.items) items.now) }
    ensures clean { IsTrue (D.is_clean file.new.disk) → IsTrue (D.is_clean file.old.disk) }
    ensures failed { OnErr result (refuses.new ≡ true) }
    ensures goes_on { OnOk result (refuses.new ≡ false) }
{
    *refuses = true;
    if !file.disk.may_be_used() {
        return Err(io::ErrorKind::Other.into());
    }
    file.put_all(alloc, items)?;
    *refuses = false;
    Ok(())
}

/// Forgets the pages of a job that ended.
fn forget_ended(pages: &mut Vec<StoredPage>, ended: &EndedRecord<'_>)
    ensures { pages.new.items ≡ filter (λ page. not (ends ended.now page.name)) pages.old.items }
{
    pages.retain(|page| !page.name.is_ended_by(ended));
}

/// Forgets the pages of jobs that ended.
fn forget_all_ended(pages: &mut Vec<StoredPage>, ended: &[EndedRecord<'_>])
    ensures { pages.new.items ≡ known_without ended.now pages.old.items }
{
    for job in ended {
        forget_ended(pages, job);
    }
}
