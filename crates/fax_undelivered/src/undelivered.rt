//! The second pair of files: the pages that could not be delivered.
ghost use Rattle.std.specs.Prelude.{◌≡◌, ◌++◌, ◌∷◌, [], List, ℕ, true, false, map, IfOk, OnOk, OnErr, IsErr, is_ok, length};
ghost use Rattle.std.specs.Bool.{MatchBool};
ghost use Rattle.std.specs.List.{list_all, list_any};
ghost use Rattle.fax_spool.specs.RecordOctets.{PageValue};
ghost use Rattle.fax_spool.specs.Torn.{CallName as CallNameValue, call_of};
ghost use Rattle.fax_spool.specs.Opened.{closed};
ghost use Rattle.fax_spool.specs.Calls.{Does, Ends, IsRead, Puts, Refuses, refuses_now, Rests};
ghost use Rattle.fax_spool.specs.Spools.{AreClean, files_of};
ghost use Rattle.fax_spool.specs.Waits.{without};
ghost use Rattle.fax_undelivered.specs.Cards.{card_page, card_record};
ghost use Rattle.fax_undelivered.specs.Calls.{but, calls_of, card_records, end_from, end_of, is_named, is_page, pages_named, with_its_card};
ghost use Rattle.fax_undelivered.specs.Keeps.{Keeps, KeepsStill, TellsCall};

use crate::call::{UndeliveredCall, add_pages, copies_of, has_call, tag_of};
use crate::card::{Card, write_card};
use crate::firsts::keep_first;
use fax_bits::NoMemory;
use fax_jobs::Outcome;
use fax_queue::change_files;
use fax_runcodes::{Format, Width};
use fax_spool::{CallName, EndedRecord, OpenedSpool, PageRecord, Spool, WaitingPage};
use sqlite_disk::Disk;
use std::alloc::{AllocError, Global};
use std::{io, mem};

/// Where so many octets were put into a file, the other one is taken into use once it is empty.
const MOST_OCTETS: usize = 16 * 1024 * 1024;

/// The most octets of the name of a line.
const MOST_NAME: usize = 255;

/// What the record of a page has beside its text, in octets, at most.
const RECORD_OCTETS: usize = 600;

/// How many numbers the pages of a call and its cards have.
const ALL_NUMBERS: u32 = 0xffff_ffff;

/// How many its pages have.
const PAGE_NUMBERS: u32 = 0xffff_fffe;

/// The format that the record of a card has.
const CARD_FORMAT: Format = Format {
    width: Width::W1728,
    fine: false,
};

/// The pages that could not be delivered, in a pair of files of their own, and the calls that they came in. Where a call of the disk
/// has failed it refuses everything from then on.
pub struct Undelivered<D: Disk> {
    spool: Spool<D>,
    calls: Vec<UndeliveredCall>,
    /// How many octets were put since a file was taken into use, at least.
    octets: usize,
    /// The calls that came since it was asked last which.
    news: Vec<CallName>,
}

impl<D: Disk + Drop> Drop for Undelivered<D> {
    fn drop(self) {
        let Undelivered {
            spool: _spool,
            calls: _calls,
            octets: _octets,
            news: _news,
        } = self;
    }
}

impl<D: Disk + Drop> Undelivered<D> {
    /// What the opened pair holds. A card without pages is passed over.
    pub fn new(alloc: Global, opened: OpenedSpool<D>) -> Result<Self, NoMemory>
        ensures spool { IfOk result (λ kept. kept.spool ≡ opened.spool) }
        ensures calls { IfOk result (λ kept. kept.calls.items ≡ calls_of opened.pages.items) }
        ensures keeps { IfOk result (λ kept. (waits : List PageValue)
            → Rests D.seen D.may_leave D.is_usable opened.spool waits → opened.pages.items
            ≡ closed waits → Keeps D.seen D.may_leave D.is_usable kept waits) }
    {
        let OpenedSpool {
            spool,
            pages,
            torn: _,
            older_damaged: _,
            newer_damaged: _,
            older_passed_over: _,
            newer_passed_over: _,
        } = opened;
        let records = records_of(alloc, pages.as_slice())?;
        let mut calls = Vec::new(alloc);
        add_pages(&mut calls, alloc, records.as_slice())?;
        Ok(Undelivered {
            spool,
            calls,
            octets: MOST_OCTETS,
            news: Vec::new(alloc),
        })
    }
}

impl<D: Disk> Undelivered<D> {
    /// The calls of which pages wait, in the order of their first pages.
    pub fn calls(&self) -> &[UndeliveredCall]
        ensures { result.now ≡ self.now.calls.items }
    {
        self.calls.as_slice()
    }

    /// Whether a call of the disk has failed: then it refuses everything.
    pub fn refuses(&self) -> bool
        ensures { result ≡ refuses_now self.now.spool }
    {
        self.spool.refuses()
    }

    /// How many calls there are.
    pub fn len(&self) -> usize
        ensures { result ≡ length self.now.calls.items }
    {
        self.calls.len()
    }

    /// Its spool, as its life ends.
    pub fn into_spool(self) -> Spool<D>
        ensures { result ≡ self.spool }
    {
        let Undelivered {
            spool,
            calls: _,
            octets: _,
            news: _,
        } = self;
        spool
    }

    /// The pages of a job that ended, and the card that tells how: all of them are put at once, whatever crash comes. At `Ok` they wait, and
    /// their call is listed. At an `Err` the calls are as they were: the disk failed, and all of it is on the disk or none; or memory was
    /// refused, a name has more than 255 octets, or a number is no page's (0, 2 ^ 32 - 1), and nothing has changed.
    pub fn keep(&mut self, alloc: Global, pages: &[WaitingPage], card: &Card) -> io::Result<()>
        ensures kept { OnOk result ((waits : List PageValue)
            → Keeps D.seen D.may_leave D.is_usable self.old waits
            → Keeps D.seen D.may_leave D.is_usable self.new (waits
            ++ with_its_card pages.now card.now)) }
        ensures pages { OnOk result (list_all is_page pages.now ≡ true) }
        ensures does { Does D.seen D.may_leave D.is_usable (Puts (with_its_card pages.now card.now))
            (is_ok result) self.old.spool self.new.spool }
        ensures same { OnErr result (self.new.calls.items ≡ self.old.calls.items) }
    {
        if !are_pages(pages) {
            return Err(io::ErrorKind::InvalidInput.into());
        }
        let text = write_card(alloc, card)?;
        let records = records_with_card(alloc, pages, text.as_slice())?;
        self.put(alloc, records.as_slice())?;
        self.tell(alloc, pages);
        Ok(())
    }

    /// The calls of which pages were kept since this was asked last, in their order; a call may be told more than once. One for which memory
    /// was refused is not told, and is listed all the same.
    pub fn take_news(&mut self, alloc: Global) -> Vec<CallName>
        ensures news { result.items ≡ self.old.news.items }
        ensures none { self.new.news.items ≡ [] }
        ensures spool { self.new.spool ≡ self.old.spool }
        ensures same { self.new.calls.items ≡ self.old.calls.items }
    {
        mem::replace(&mut self.news, Vec::new(alloc))
    }

    /// The call of these pages came.
    fn tell(&mut self, alloc: Global, pages: &[WaitingPage])
        ensures news { TellsCall pages.now self.old.news.items self.new.news.items }
        ensures spool { self.new.spool ≡ self.old.spool }
        ensures same { self.new.calls.items ≡ self.old.calls.items }
    {
        if let Some((page, _)) = pages.split_first() {
            if let Ok(name) = name_of(alloc, page) {
                let _ = self.news.push(name);
            }
        }
    }

    /// A call was tried again: another card, which counts from now on. `false` where there is no such call. An `Err` as of `keep`.
    pub fn note_try(
        &mut self,
        alloc: Global,
        line: &[u8],
        life: u32,
        call: u32,
        card: &Card,
    ) -> io::Result<bool>
        ensures noted { IfOk result
            (λ was. let name : CallNameValue = record { life = life; call = call; line = line.now }
            in (list_any (is_named name) self.old.calls.items ≡ was) × MatchBool was ((tag : List ℕ)
            × ((waits : List PageValue) → Keeps D.seen D.may_leave D.is_usable self.old waits
            → Keeps D.seen D.may_leave D.is_usable self.new (waits
            ++ card_page name tag card.now ∷ []))) (self.new ≡ self.old)) }
        ensures does { OnErr result ((tag : List ℕ) × Does D.seen D.may_leave D.is_usable
            (Puts (card_page (record { life = life; call = call; line = line.now }) tag card.now
            ∷ [])) false self.old.spool self.new.spool) }
        ensures same { OnErr result (self.new.calls.items ≡ self.old.calls.items) }
    {
        let tag = match tag_of(self.calls.as_slice(), line, life, call) {
            Some(tag) => tag.to_vec(alloc)?,
            None => return Ok(false),
        };
        let text = write_card(alloc, card)?;
        let record = PageRecord {
            life,
            call,
            number: 0,
            format: CARD_FORMAT,
            closes: true,
            line,
            tag: tag.as_slice(),
            text: text.as_slice(),
        };
        self.put(alloc, &[record])?;
        Ok(true)
    }

    /// The pages of a call and its cards wait no more: `false` where there is no such call. At an `Err` of the disk that is so or not at the
    /// next start; at any other (no memory, a name of more than 255 octets) nothing has changed.
    pub fn discard(&mut self, alloc: Global, line: &[u8], life: u32, call: u32) -> io::Result<bool>
        ensures gone { IfOk result
            (λ was. let name : CallNameValue = record { life = life; call = call; line = line.now }
            in (list_any (is_named name) self.old.calls.items ≡ was)
            × MatchBool was ((waits : List PageValue)
            → Keeps D.seen D.may_leave D.is_usable self.old waits
            → KeepsStill D.seen D.may_leave D.is_usable self.new (without (end_of name) waits))
            (self.new ≡ self.old)) }
        ensures does { OnErr result (Does D.seen D.may_leave D.is_usable (Ends (end_of (record
            { life = life; call = call; line = line.now }) ∷ []))
            false self.old.spool self.new.spool) }
        ensures same { OnErr result (self.new.calls.items ≡ self.old.calls.items) }
    {
        if !has_call(self.calls.as_slice(), line, life, call) {
            return Ok(false);
        }
        if line.len() > MOST_NAME {
            return Err(io::ErrorKind::InvalidInput.into());
        }
        let ended = end_from(0, ALL_NUMBERS, line, life, call);
        self.spool.end(alloc, &ended)?;
        drop_call(&mut self.calls, line, life, call);
        self.octets = change_files(alloc, &mut self.spool, self.octets);
        Ok(true)
    }

    /// The pages of a call that wait, without its cards, in the order of its `numbers`; one that was put again is the one that was put first.
    /// An `Err` (the disk's failure, no memory, or it refuses) changes nothing.
    pub fn pages_of(
        &mut self,
        alloc: Global,
        line: &[u8],
        life: u32,
        call: u32,
    ) -> io::Result<Vec<WaitingPage>>
        ensures found { IfOk result
            (λ pages. AreClean D.is_clean (files_of self.new.spool) → (waits : List PageValue)
            → Rests D.seen D.may_leave D.is_usable self.old.spool waits → pages.items
            ≡ pages_named (record { life = life; call = call; line = line.now }) waits) }
        ensures read { IsRead D.seen D.may_leave D.is_usable self.old.spool self.new.spool }
        ensures same { self.new.calls.items ≡ self.old.calls.items }
    {
        let ended = end_from(1, PAGE_NUMBERS, line, life, call);
        let mut pages = self.spool.pages_ended_by(alloc, &ended)?;
        keep_first(&mut pages);
        Ok(pages)
    }

    /// Puts records, all of them at once, and lists what they tell.
    fn put(&mut self, alloc: Global, records: &[PageRecord<'_>]) -> io::Result<()>
        ensures kept { OnOk result ((waits : List PageValue)
            → Keeps D.seen D.may_leave D.is_usable self.old waits
            → Keeps D.seen D.may_leave D.is_usable self.new (waits ++ records.now)) }
        ensures does { Does D.seen D.may_leave D.is_usable (Puts records.now)
            (is_ok result) self.old.spool self.new.spool }
        ensures same { OnErr result (self.new.calls.items ≡ self.old.calls.items) }
    {
        let mut calls = copies_of(alloc, self.calls.as_slice())?;
        add_pages(&mut calls, alloc, records)?;
        self.spool.put_all(alloc, records)?;
        self.calls = calls;
        self.octets = self.octets.saturating_add(octets_of(records));
        Ok(())
    }
}

/// The call of a page.
fn name_of(alloc: Global, page: &WaitingPage) -> Result<CallName, AllocError>
    ensures { IfOk result (λ name. name ≡ call_of page.now) }
{
    Ok(CallName {
        life: page.life,
        call: page.call,
        line: page.line.as_slice().to_vec(alloc)?,
    })
}

/// How many octets records have, at least, where that is counted.
fn octets_of(records: &[PageRecord<'_>]) -> usize {
    let mut octets: usize = 0;
    for record in records {
        octets = octets.saturating_add(record.text.len().saturating_add(RECORD_OCTETS));
    }
    octets
}

/// The end of so many numbers of a call, from the first on.
fn end_from<'a>(first: u32, pages: u32, line: &'a [u8], life: u32, call: u32) -> EndedRecord<'a>
    ensures { result ≡ end_from first pages (record { life = life; call = call; line = line.now }) }
{
    EndedRecord {
        life,
        call,
        first,
        pages,
        delivered: 0,
        format: CARD_FORMAT,
        outcome: Outcome::NotPlaced,
        line,
    }
}

/// Drops a call of these.
fn drop_call(calls: &mut Vec<UndeliveredCall>, line: &[u8], life: u32, call: u32)
    ensures { calls.new.items
        ≡ but (record { life = life; call = call; line = line.now }) calls.old.items }
{
    calls.retain(|it| !it.is_named(line, life, call));
}

/// Whether each of these has the number of a page.
fn are_pages(pages: &[WaitingPage]) -> bool
    ensures { result ≡ list_all is_page pages.now }
{
    pages
        .iter()
        .all(|page| page.number > 0 && page.number < u32::MAX)
}

/// The records of pages.
fn records_of(alloc: Global, pages: &[WaitingPage]) -> Result<Vec<PageRecord<'_>>, AllocError>
    ensures { IfOk result (λ records. records.items ≡ pages.now) }
{
    let mut records = Vec::with_capacity(alloc, pages.len())?;
    for page in pages {
        records.push(page.as_record())?;
    }
    Ok(records)
}

/// The records of pages, and after them that of a card of this text, where there are any.
fn records_with_card<'a>(
    alloc: Global,
    pages: &'a [WaitingPage],
    text: &'a [u8],
) -> Result<Vec<PageRecord<'a>>, AllocError>
    ensures { IfOk result
        (λ records. records.items ≡ pages.now ++ card_records pages.now text.now) }
{
    let mut records = records_of(alloc, pages)?;
    if let Some((first, _)) = pages.split_first() {
        records.push(card_record(first, text))?;
    }
    Ok(records)
}

/// The record of a card of this text, of the call of a page.
fn card_record<'a>(page: &'a WaitingPage, text: &'a [u8]) -> PageRecord<'a>
    ensures { result ≡ card_record (call_of page.now) page.now.tag text.now }
{
    PageRecord {
        life: page.life,
        call: page.call,
        number: 0,
        format: CARD_FORMAT,
        closes: true,
        line: page.line.as_slice(),
        tag: page.tag.as_slice(),
        text,
    }
}
