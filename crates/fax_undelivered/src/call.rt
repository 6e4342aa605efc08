//! A call of which pages wait that could not be delivered.
ghost use Rattle.std.specs.Prelude.{◌≡◌, ◌≤◌, true, take, length, IfOk, OnOk, slice_get, MatchOption, false};
ghost use Rattle.std.specs.List.{list_any};
ghost use Rattle.fax_undelivered.specs.Cards.{card_in, unknown};
ghost use Rattle.fax_spool.specs.Torn.{call_of};
ghost use Rattle.fax_undelivered.specs.Calls.{IsFirst, begun_by, calls_after, is_named, is_of, is_page, told_by, with_card, with_number, with_page};

use crate::card::{Card, read_card};
use fax_jobs::Outcome;
use fax_spool::PageRecord;
use std::alloc::{AllocError, Global};
use std::marker::Model;

/// A call of which pages wait that could not be delivered. All of its jobs are one.
pub struct UndeliveredCall {
    /// The name of its line.
    pub line: Vec<u8>,
    /// The life of the process in which it came.
    pub life: u32,
    /// Its number on its line.
    pub call: u32,
    /// Its tag.
    pub tag: Vec<u8>,
    /// How many of its pages wait.
    pub pages: u32,
    /// Their numbers, in the order in which they came first.
    pub numbers: Vec<u32>,
    /// How its last job ended.
    pub card: Card,
}

impl Drop for UndeliveredCall {
    fn drop(self) {
        let UndeliveredCall {
            line: _line,
            life: _life,
            call: _call,
            tag: _tag,
            pages: _pages,
            numbers: _numbers,
            card: _card,
        } = self;
    }
}

impl Model for UndeliveredCall {
    ghost use Rattle.fax_undelivered.specs.Calls.{CallValue};

    ghost Value = { CallValue };

    ghost view = { λ c. record {
      line = c.line.items;
      life = c.life;
      call = c.call;
      tag = c.tag.items;
      pages = c.pages;
      numbers = c.numbers.items;
      card = c.card;
    } };
}

impl UndeliveredCall {
    /// A call of which this is the first page.
    fn begun_by(alloc: Global, page: &PageRecord<'_>) -> Result<Self, AllocError>
        ensures { IfOk result (λ call. call ≡ begun_by page.now) }
    {
        Ok(UndeliveredCall {
            line: page.line.to_vec(alloc)?,
            life: page.life,
            call: page.call,
            tag: page.tag.to_vec(alloc)?,
            pages: 1,
            numbers: [page.number].to_vec(alloc)?,
            card: unknown_card(alloc)?,
        })
    }

    /// The same once more.
    fn copy(&self, alloc: Global) -> Result<Self, AllocError>
        ensures { IfOk result (λ copy. copy ≡ self.now) }
    {
        Ok(UndeliveredCall {
            line: self.line.as_slice().to_vec(alloc)?,
            life: self.life,
            call: self.call,
            tag: self.tag.as_slice().to_vec(alloc)?,
            pages: self.pages,
            numbers: self.numbers.as_slice().to_vec(alloc)?,
            card: self.card.copy(alloc)?,
        })
    }

    /// Whether a record is of this call.
    fn has(&self, page: &PageRecord<'_>) -> bool
        ensures { result ≡ is_of self.now page.now }
    {
        self.life == page.life && self.call == page.call && self.line.as_slice() == page.line
    }

    /// Whether it is the call of these names.
    pub(crate) fn is_named(&self, line: &[u8], life: u32, call: u32) -> bool
        ensures { result
            ≡ is_named (record { life = life; call = call; line = line.now }) self.now }
    {
        self.life == life && self.call == call && self.line.as_slice() == line
    }

    /// One record more of it.
    fn hear(&mut self, alloc: Global, page: &PageRecord<'_>) -> Result<(), AllocError>
        ensures { OnOk result (self.new ≡ told_by page.now self.old) }
    {
        if page.number == 0 {
            self.hear_card(alloc, page.text)?;
        } else if is_page(page) {
            self.hear_page(page.number)?;
        }
        Ok(())
    }

    /// The page of this number, which may have come before.
    fn hear_page(&mut self, number: u32) -> Result<(), AllocError>
        ensures { OnOk result (self.new ≡ with_number number self.old) }
    {
        if self.numbers.as_slice().contains(&number) {
            return Ok(());
        }
        self.numbers.push(number)?;
        self.pages = self.pages.saturating_add(1);
        Ok(())
    }

    /// Another card, where these octets are one.
    fn hear_card(&mut self, alloc: Global, octets: &[u8]) -> Result<(), AllocError>
        ensures { OnOk result (self.new ≡ with_card (card_in octets.now) self.old) }
    {
        if let Some(card) = read_card(alloc, octets)? {
            self.card = card;
        }
        Ok(())
    }
}

/// What is told of how a call ended whose card is not there.
fn unknown_card(alloc: Global) -> Result<Card, AllocError>
    ensures { IfOk result (λ card. card ≡ unknown) }
{
    Ok(Card {
        outcome: Outcome::NotPlaced,
        cause: b"unknown".to_vec(alloc)?,
        tries: 0,
        at: 0,
        delivered: 0,
    })
}

/// Whether a record is that of a page, and not of a card.
fn is_page(page: &PageRecord<'_>) -> bool
    ensures { result ≡ is_page page.now }
{
    page.number > 0 && page.number < u32::MAX
}

/// These calls once more.
pub(crate) fn copies_of(
    alloc: Global,
    calls: &[UndeliveredCall],
) -> Result<Vec<UndeliveredCall>, AllocError>
    ensures { IfOk result (λ copies. copies.items ≡ calls.now) }
{
    let mut copies = Vec::with_capacity(alloc, calls.len())?;
    for call in calls {
        copies.push(call.copy(alloc)?)?;
    }
    Ok(copies)
}

/// More records of pages and cards wait. Those of a call stand together but for cards of tries: where the last one's call is, the next one's
/// is looked for first.
pub(crate) fn add_pages(
    calls: &mut Vec<UndeliveredCall>,
    alloc: Global,
    pages: &[PageRecord<'_>],
) -> Result<(), AllocError>
    ensures { OnOk result (calls.new.items ≡ calls_after calls.old.items pages.now) }
{
    let mut last = calls.len();
    for page in pages {
        last = add_page(calls, alloc, page, last)?;
    }
    Ok(())
}

/// One record more waits, whose call may be that at the place `last`. It answers the place of its call.
fn add_page(
    calls: &mut Vec<UndeliveredCall>,
    alloc: Global,
    page: &PageRecord<'_>,
    last: usize,
) -> Result<usize, AllocError>
    requires { IsFirst calls.old.items last }
    ensures calls { OnOk result (calls.new.items ≡ with_page page.now calls.old.items) }
    ensures first { IfOk result (λ place. IsFirst calls.new.items place) }
{
    let place = place_of(calls.as_slice(), page, last);
    if place < calls.len() {
        calls[place].hear(alloc, page)?;
        return Ok(place);
    }
    if is_page(page) {
        calls.push(UndeliveredCall::begun_by(alloc, page)?)?;
    }
    Ok(place)
}

/// The place of the call that a record is of, of these, which may be this one: where there is none, how many there are.
fn place_of(calls: &[UndeliveredCall], page: &PageRecord<'_>, last: usize) -> usize
    requires { IsFirst calls.now last }
    ensures within { result ≤ length calls.now }
    ensures before { list_any (is_named (call_of page.now)) (take result calls.now) ≡ false }
    ensures found { MatchOption (slice_get calls.now result) (result ≡ length calls.now)
        (λ call. is_of call page.now ≡ true) }
{
    if has_at(calls, last, page) {
        return last;
    }
    first_of(calls, page)
}

/// Whether a record is of the call at a place of these.
fn has_at(calls: &[UndeliveredCall], i: usize, page: &PageRecord<'_>) -> bool
    ensures { MatchOption (slice_get calls.now i) (result ≡ false)
        (λ call. result ≡ is_of call page.now) }
{
    match calls.get(i) {
        Some(call) => call.has(page),
        None => false,
    }
}

/// The place of the first of these calls that a record is of: where there is none, how many there are.
fn first_of(calls: &[UndeliveredCall], page: &PageRecord<'_>) -> usize
    ensures within { result ≤ length calls.now }
    ensures before { list_any (is_named (call_of page.now)) (take result calls.now) ≡ false }
    ensures found { MatchOption (slice_get calls.now result) (result ≡ length calls.now)
        (λ call. is_of call page.now ≡ true) }
{
    for (i, call) in calls.iter().enumerate() {
        if call.has(page) {
            return i;
        }
    }
    calls.len()
}

/// The tag of the call of these names, where it is one of these.
pub(crate) fn tag_of<'a>(
    calls: &'a [UndeliveredCall],
    line: &[u8],
    life: u32,
    call: u32,
) -> Option<&'a [u8]>
    ensures { MatchOption result (list_any
        (is_named (record { life = life; call = call; line = line.now })) calls.now ≡ false)
        (λ _. list_any (is_named (record { life = life; call = call; line = line.now })) calls.now
        ≡ true) }
{
    for it in calls {
        if it.is_named(line, life, call) {
            return Some(it.tag.as_slice());
        }
    }
    None
}

/// Whether the call of these names is one of these.
pub(crate) fn has_call(calls: &[UndeliveredCall], line: &[u8], life: u32, call: u32) -> bool
    ensures { result
        ≡ list_any (is_named (record { life = life; call = call; line = line.now })) calls.now }
{
    for it in calls {
        if it.is_named(line, life, call) {
            return true;
        }
    }
    false
}
