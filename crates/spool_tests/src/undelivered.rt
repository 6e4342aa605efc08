//! Jobs that fail: their pages that were not delivered lie in the second pair of files before their end is noted in the first.
use crate::job::{are_second, page_of, queues_of, report_of};
use crate::steps::new_spool;
use fax_jobs::Outcome;
use fax_line::{LineReport, RunStore};
use fax_queue::Storage;
use fax_runs::restarts::open_over;
use fax_spool::{OpenedSpool, open_spool};
use fax_undelivered::{Card, PairedStore, Undelivered, UndeliveredCall, read_card, write_card};
use fax_wires::holding::PageStore;
use sqlite_disk::{Disk, Fuse, Memory};
use std::alloc::{AllocError, Global};
use std::io;
use std::test::Fail;

/// When the job ended, in seconds since 1970.
const DAY: u64 = 1_800_000_000;

/// A page of the job is stored.
fn store<U: Disk>(
    store: &mut PairedStore<Memory, U>,
    alloc: Global,
    is_second: bool,
) -> Result<(), Fail> {
    store.store_all(&[page_of(alloc, is_second)?])?;
    Ok(())
}

/// What is told of the job: its tag, why it ended, and when.
fn tell<U: Disk>(store: &mut PairedStore<Memory, U>) {
    store.set_tag(0, "to 42");
    store.set_cause(0, "gone");
    store.set_day(DAY);
}

/// The job ends, of which the called machine confirmed the first page.
fn end<U: Disk>(store: &mut PairedStore<Memory, U>) {
    store.end_jobs(&[LineReport {
        line: 0,
        report: report_of(1),
    }]);
}

/// A store over new files and this second pair, in which the job was stored, and ended.
fn failed_job<U: Disk + Drop>(
    alloc: Global,
    second: OpenedSpool<U>,
) -> Result<PairedStore<Memory, U>, Fail> {
    let storage = Storage::new(alloc, new_spool(alloc)?, queues_of(alloc)?);
    let undelivered = Undelivered::new(alloc, second)?;
    let mut failed = PairedStore::new(alloc, storage, Some(undelivered));
    tell(&mut failed);
    store(&mut failed, alloc, false)?;
    store(&mut failed, alloc, true)?;
    end(&mut failed);
    Ok(failed)
}

/// Whether this card is of the job, tried so often, with this cause.
fn is_card(card: &Card, tries: u32, cause: &str) -> bool {
    card.outcome == Outcome::HungUp
        && card.tries == tries
        && card.cause.as_slice() == cause.as_bytes()
        && card.at == DAY
        && card.delivered == 0
}

/// Whether these are the call of the job alone, with one page and such a card.
fn is_listed(calls: &[UndeliveredCall], tries: u32, cause: &str) -> bool {
    match calls {
        [call] => {
            call.line.as_slice() == b"a1".as_slice()
                && call.life == 1
                && call.call == 0
                && call.tag.as_slice() == b"to 42".as_slice()
                && call.pages == 1
                && is_card(&call.card, tries, cause)
        }
        _ => false,
    }
}

/// The second pair as the next start finds it.
fn opened_again(alloc: Global, kept: Undelivered<Memory>) -> io::Result<OpenedSpool<Memory>> {
    let (older, newer) = kept.into_spool().into_files();
    open_over(alloc, newer.disk.bytes(), older.disk.bytes())
}

/// The same, with its calls.
fn again(alloc: Global, kept: Undelivered<Memory>) -> Result<Undelivered<Memory>, Fail> {
    Ok(Undelivered::new(alloc, opened_again(alloc, kept)?)?)
}

/// The card of another try.
fn second_card(alloc: Global) -> Result<Card, AllocError> {
    Ok(Card {
        outcome: Outcome::HungUp,
        cause: b"busy".to_vec(alloc)?,
        tries: 2,
        at: DAY,
        delivered: 0,
    })
}

/// Whether another try of this call of the line is noted.
fn note(kept: &mut Undelivered<Memory>, alloc: Global, call: u32) -> Result<bool, Fail> {
    Ok(kept.note_try(alloc, b"a1", 1, call, &second_card(alloc)?)?)
}

/// Whether the job was dropped from this life of the line.
fn drop_of(kept: &mut Undelivered<Memory>, alloc: Global, life: u32) -> io::Result<bool> {
    kept.discard(alloc, b"a1", life, 0)
}

/// Whether the page that was not delivered is there to be sent.
fn has_page(kept: &mut Undelivered<Memory>, alloc: Global) -> io::Result<bool> {
    Ok(are_second(kept.pages_of(alloc, b"a1", 1, 0)?.as_slice()))
}

/// The second pair in which the job was kept, and whether its end was noted, and it is listed and told once.
fn kept_job(alloc: Global) -> Result<(Option<Undelivered<Memory>>, bool), Fail> {
    let mut failed = failed_job(alloc, open_over(alloc, &[], &[])?)?;
    let is_noted = failed.storage.stored() == 0;
    let mut kept = failed.undelivered.take();
    let is_told = match &mut kept {
        Some(kept) => {
            is_listed(kept.calls(), 1, "gone")
                && kept.take_news(alloc).len() == 1
                && kept.take_news(alloc).is_empty()
        }
        None => false,
    };
    Ok((kept, is_noted && is_told))
}

/// Another try is noted, of this call alone, and is found by the next start.
fn tried(
    alloc: Global,
    kept: Undelivered<Memory>,
) -> Result<(Undelivered<Memory>, [bool; 4]), Fail> {
    let mut kept = again(alloc, kept)?;
    let before = is_listed(kept.calls(), 1, "gone");
    let noted = note(&mut kept, alloc, 0)? && !note(&mut kept, alloc, 1)?;
    let mut kept = again(alloc, kept)?;
    let after = is_listed(kept.calls(), 2, "busy");
    let has_page = has_page(&mut kept, alloc)?;
    Ok((kept, [before, noted, after, has_page]))
}

/// Whether the job is dropped by its own name alone, and is found no more.
fn is_dropped(alloc: Global, kept: Undelivered<Memory>) -> Result<[bool; 3], Fail> {
    let mut kept = kept;
    let other = drop_of(&mut kept, alloc, 2)?;
    let own = drop_of(&mut kept, alloc, 1)?;
    Ok([!other, own, again(alloc, kept)?.len() == 0])
}

/// The page that was not delivered is found again with its card, once more with that of another try, and no more once it was dropped.
#[test]
fn failed_job_is_kept(rt: HostRuntime) -> Result<(), Fail> {
    let alloc = rt.alloc();
    let (kept, is_kept) = kept_job(alloc)?;
    let Some(kept) = kept else {
        assert!(rt; false);
        return Ok(());
    };
    let (kept, are_tried) = tried(alloc, kept)?;
    assert!(rt; is_kept && are_tried == [true; 4] && is_dropped(alloc, kept)? == [true; 3]);
    Ok(())
}

/// A second pair whose newer file fails after so many calls; the older one does not.
fn failing_pair(alloc: Global, calls: u64) -> io::Result<OpenedSpool<Fuse<Memory>>> {
    let older = Fuse::new(Memory::new(alloc), 1_000);
    let newer = Fuse::new(Memory::new(alloc), calls);
    open_spool(alloc, older, newer)
}

/// How many pages wait in both pairs, where the second one fails after so many calls. `None`: it could not be opened.
fn waiting_with(alloc: Global, calls: u64) -> Result<Option<(u64, usize)>, Fail> {
    let Ok(opened) = failing_pair(alloc, calls) else {
        return Ok(None);
    };
    let failed = failed_job(alloc, opened)?;
    let kept = match &failed.undelivered {
        Some(kept) => kept.len(),
        None => 0,
    };
    Ok(Some((failed.storage.stored(), kept)))
}

/// Whether the job is owed, with both of its pages, somewhere, the one that was not delivered is kept somewhere, and neither is so, as the
/// second pair fails after 0 to 15 calls.
fn outcomes(alloc: Global) -> Result<[bool; 3], Fail> {
    let mut found = [false; 3];
    for calls in 0..16 {
        match waiting_with(alloc, calls)? {
            Some((2, 0)) => found[0] = true,
            Some((0, 1)) => found[1] = true,
            Some(_) => found[2] = true,
            None => {}
        }
    }
    Ok(found)
}

#[test]
fn failed_put_leaves_the_job(rt: HostRuntime) -> Result<(), Fail> {
    assert!(rt; outcomes(rt.alloc())? == [true, true, false]);
    Ok(())
}

/// Whether the octets of a card are read as that card; and whether a part of them is none.
fn is_read_back(alloc: Global) -> Result<[bool; 2], AllocError> {
    let octets = write_card(alloc, &second_card(alloc)?)?;
    let whole = read_card(alloc, octets.as_slice())?;
    let part = read_card(alloc, b"\x08\x00\x00\x02")?;
    Ok([
        matches!(&whole, Some(card) if is_card(card, 2, "busy")),
        part.is_none(),
    ])
}

#[test]
fn cards_are_read(rt: HostRuntime) -> Result<(), Fail> {
    assert!(rt; is_read_back(rt.alloc())? == [true; 2]);
    Ok(())
}
