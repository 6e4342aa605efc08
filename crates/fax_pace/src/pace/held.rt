//! Pages that are kept in memory, where there is no spool.
use crate::redial_side::RedialSide;
use crate::retries::Retries;
use crate::seen::SeenLines;
use crate::telling::Teller;
use fax_desk::{Cause, Desk};
use fax_jobs::Report;
use fax_line::SLOTS;
use fax_undelivered::Undelivered;
use fax_undelivered::held::{HeldPages, JobEnd, MOST_CALLS, MemoryFile, drop_beyond};
use std::alloc::Global;

/// The oldest calls are dropped while more wait than are kept, but for those that are under way, and that is told.
pub(super) fn drop_all_beyond<R: RedialSide + Drop>(
    alloc: Global,
    kept: &mut Undelivered<MemoryFile>,
    retries: &Retries<R>,
    teller: &mut Teller,
    now: u64,
) {
    for _ in 0..kept.len() {
        if kept.len() <= MOST_CALLS || !drop_one(alloc, kept, retries, teller, now) {
            return;
        }
    }
}

/// The oldest that is not under way is dropped. `false`: none is.
fn drop_one<R: RedialSide + Drop>(
    alloc: Global,
    kept: &mut Undelivered<MemoryFile>,
    retries: &Retries<R>,
    teller: &mut Teller,
    now: u64,
) -> bool {
    let Ok(under_way) = retries.redials.names(alloc) else {
        return false;
    };
    match drop_beyond(alloc, kept, under_way.as_slice()) {
        Ok(Some(dropped)) => {
            let name = &dropped.name;
            if let Ok(line) = std::str::from_utf8(name.line.as_slice()) {
                teller.tell_discarded(line, now, name.life, name.call, Some(&dropped.tag));
            }
            true
        }
        Ok(None) | Err(_) => false,
    }
}

/// What lines of a slot confirmed in its last turn, of which this is known, is held, and what ended in it is told.
pub(super) fn hold_slot<L: SeenLines>(
    alloc: Global,
    held: &mut HeldPages,
    desk: &Desk,
    day: u64,
    slot: usize,
    seen: &L,
) {
    let rounds = seen.len() / SLOTS + 1;
    for round in 0..rounds {
        let i = round.saturating_mul(SLOTS).saturating_add(slot);
        hold_line(alloc, held, desk, day, i, seen);
    }
}

/// The same of line i.
fn hold_line<L: SeenLines>(
    alloc: Global,
    held: &mut HeldPages,
    desk: &Desk,
    day: u64,
    i: usize,
    seen: &L,
) {
    let Some(turned) = seen.turned(i) else {
        return;
    };
    if let Some(kept) = turned.kept {
        hold_page(alloc, held, desk, i, kept.call, seen);
    }
    if let Some(report) = turned.report {
        end_job(held, desk, day, i, report);
    }
}

/// The page that line i confirmed in this call is held.
fn hold_page<L: SeenLines>(
    alloc: Global,
    held: &mut HeldPages,
    desk: &Desk,
    i: usize,
    call: u32,
    seen: &L,
) {
    let tag = desk.tag(i, call);
    let tag = match &tag {
        Some(tag) => tag.text().as_bytes(),
        None => &[],
    };
    match seen.page_of(alloc, i) {
        Ok(Some(page)) => held.confirm(page, tag),
        Ok(None) | Err(_) => held.note(i, call),
    }
}

/// The job of line i that was first in turn ended so.
fn end_job(held: &mut HeldPages, desk: &Desk, day: u64, i: usize, report: Report) {
    let cause = cause_of(desk, i);
    let cause = match &cause {
        Some(cause) => cause.text().as_bytes(),
        None => &[],
    };
    let _ = held.end_job(i, &JobEnd { report, cause, day });
}

/// For what cause the call of the job of line i that ends now was not placed, where that was told.
fn cause_of(desk: &Desk, i: usize) -> Option<Cause> {
    let card = desk.cards.get(i)?;
    card.cause(card.jobs)
}
