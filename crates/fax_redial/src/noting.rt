//! What is noted of a try that ended.
ghost use Rattle.std.specs.Prelude.{◌≡◌, false, not, IfOk, OnErr, MatchOption};
ghost use Rattle.std.specs.List.{list_any};
ghost use Rattle.fax_jobs.specs.declared.outcome.Outcome.TheVariants as outcomes;
ghost use Rattle.fax_redial.specs.Noting.{IsCauseOf, IsOneTryMore, MayEndCall, MayPutCard, NotesDelivered, NotesFailed, PutsCardIf, card_named, counted, first_missed, missed_by};
ghost use Rattle.fax_undelivered.specs.Calls.{is_among, is_named, numbers_named};

use crate::job::RetryEnd;
use crate::picking::is_named;
use fax_desk::Cause;
use fax_jobs::Outcome;
use fax_spool::CallName;
use fax_undelivered::{Card, Undelivered, UndeliveredCall};
use sqlite_disk::Disk;
use std::alloc::{AllocError, Global};
use std::io;

/// The end of a try, at this Unix second, is noted in the second pair: of a job that was delivered, that its pages wait no more, or, where
/// pages of its call came after the try began, how many of them are delivered; of another one, how it was tried. `false`: there is no such
/// call. At an `Err` it is to be noted once more: the disk failed, or memory was refused.
pub fn note_end<D: Disk>(
    alloc: Global,
    kept: &mut Undelivered<D>,
    end: &RetryEnd,
    at: u64,
) -> io::Result<bool>
    ensures delivered { IfOk result (λ was. end.now.outcome ≡ outcomes.Delivered
        → NotesDelivered D.seen D.may_leave D.is_usable end.now was kept.old kept.new) }
    ensures failed { IfOk result (λ was. ¬ (end.now.outcome ≡ outcomes.Delivered)
        → NotesFailed D.seen D.may_leave D.is_usable end.now at was kept.old kept.new) }
    ensures not_gone { OnErr result (end.now.outcome ≡ outcomes.Delivered
        → MayEndCall D.seen D.may_leave D.is_usable end.now
        kept.old.calls.items kept.old.spool kept.new.spool) }
    ensures not_told { OnErr result (¬ (end.now.outcome ≡ outcomes.Delivered)
        → MayPutCard D.seen D.may_leave D.is_usable end.now.name kept.old.spool kept.new.spool) }
    ensures same { OnErr result (kept.new.calls.items ≡ kept.old.calls.items) }
{
    match end.outcome {
        Outcome::Delivered => note_delivered(alloc, kept, end),
        _ => note_failed(alloc, kept, end, at),
    }
}

/// The same of a job that was delivered.
fn note_delivered<D: Disk>(
    alloc: Global,
    kept: &mut Undelivered<D>,
    end: &RetryEnd,
) -> io::Result<bool>
    ensures noted { IfOk result
        (λ was. NotesDelivered D.seen D.may_leave D.is_usable end.now was kept.old kept.new) }
    ensures not_gone { OnErr result (MayEndCall D.seen D.may_leave D.is_usable end.now
        kept.old.calls.items kept.old.spool kept.new.spool) }
    ensures same { OnErr result (kept.new.calls.items ≡ kept.old.calls.items) }
{
    let name = &end.name;
    match missed_by(end, kept.calls()) {
        None => kept.discard(alloc, name.line.as_slice(), name.life, name.call),
        Some(place) => count_delivered(alloc, kept, name, place),
    }
}

/// The same of a job that was not delivered.
fn note_failed<D: Disk>(
    alloc: Global,
    kept: &mut Undelivered<D>,
    end: &RetryEnd,
    at: u64,
) -> io::Result<bool>
    ensures noted { IfOk result
        (λ was. NotesFailed D.seen D.may_leave D.is_usable end.now at was kept.old kept.new) }
    ensures not_told { OnErr result
        (MayPutCard D.seen D.may_leave D.is_usable end.now.name kept.old.spool kept.new.spool) }
    ensures same { OnErr result (kept.new.calls.items ≡ kept.old.calls.items) }
{
    let name = &end.name;
    let Some(before) = card_of(alloc, kept.calls(), name)? else {
        return Ok(false);
    };
    let card = one_try_more(alloc, &before, end, at)?;
    kept.note_try(alloc, name.line.as_slice(), name.life, name.call, &card)
}

/// So many pages of a call are delivered, from the first that waits on: another card counts them.
fn count_delivered<D: Disk>(
    alloc: Global,
    kept: &mut Undelivered<D>,
    name: &CallName,
    pages: usize,
) -> io::Result<bool>
    ensures noted { IfOk result (λ was. PutsCardIf D.seen D.may_leave D.is_usable name.now
        (λ before card. card ≡ counted pages before) was kept.old kept.new) }
    ensures not_told { OnErr result
        (MayPutCard D.seen D.may_leave D.is_usable name.now kept.old.spool kept.new.spool) }
    ensures same { OnErr result (kept.new.calls.items ≡ kept.old.calls.items) }
{
    let Some(before) = card_of(alloc, kept.calls(), name)? else {
        return Ok(false);
    };
    let card = counted(before, pages);
    kept.note_try(alloc, name.line.as_slice(), name.life, name.call, &card)
}

/// The place of the first page of its call, of those that these calls list, which a try had not. `None`: it had all of them.
fn missed_by(end: &RetryEnd, calls: &[UndeliveredCall]) -> Option<usize>
    ensures { result ≡ missed_by end.now calls.now }
{
    first_missed(end.numbers.as_slice(), listed_numbers(calls, &end.name))
}

/// The place of the first of the listed numbers that is none of these.
fn first_missed(numbers: &[u32], listed: &[u32]) -> Option<usize>
    ensures { result ≡ first_missed numbers.now listed.now }
{
    listed.iter().position(|number| !is_among(*number, numbers))
}

/// Whether it is one of these numbers.
fn is_among(number: u32, numbers: &[u32]) -> bool
    ensures { result ≡ is_among number numbers.now }
{
    numbers.contains(&number)
}

/// The numbers of the pages of a call, where it is one of these.
fn listed_numbers<'a>(calls: &'a [UndeliveredCall], name: &CallName) -> &'a [u32]
    ensures { result.now ≡ numbers_named name.now calls.now }
{
    for call in calls {
        if is_named(call, name) {
            return call.numbers.as_slice();
        }
    }
    &[]
}

/// The card of a call. `None`: it is none of these.
fn card_of(
    alloc: Global,
    calls: &[UndeliveredCall],
    name: &CallName,
) -> Result<Option<Card>, AllocError>
    ensures { IfOk result (λ card. MatchOption card (list_any (is_named name.now) calls.now ≡ false)
        (λ card. card_named name.now calls.now ≡ Some card)) }
{
    for call in calls {
        if is_named(call, name) {
            return Ok(Some(call.card.copy(alloc)?));
        }
    }
    Ok(None)
}

/// The card after one try more.
fn one_try_more(alloc: Global, before: &Card, end: &RetryEnd, at: u64) -> Result<Card, AllocError>
    ensures { IfOk result (IsOneTryMore before.now end.now at) }
{
    Ok(Card {
        outcome: end.outcome,
        cause: cause_octets(alloc, end.cause)?,
        tries: before.tries.saturating_add(1),
        at,
        delivered: before.delivered.saturating_add(end.delivered),
    })
}

/// The card after so many pages are delivered.
fn counted(before: Card, pages: usize) -> Card
    ensures { result ≡ counted pages before }
{
    let Card {
        outcome,
        cause,
        tries,
        at,
        delivered: _,
    } = before;
    Card {
        outcome,
        cause,
        tries,
        at,
        delivered: pages.min(u32::MAX as usize) as u32,
    }
}

/// The octets of a cause.
fn cause_octets(alloc: Global, cause: Option<Cause>) -> Result<Vec<u8>, AllocError>
    ensures { IfOk result (λ octets. IsCauseOf cause octets.items) }
{
    match &cause {
        Some(cause) => cause.text().as_bytes().to_vec(alloc),
        None => Ok(Vec::new(alloc)),
    }
}
