//! What a store is told of the lines that wait before their pages are stored.
ghost use Rattle.std.specs.Prelude.{◌≡◌};
ghost use Rattle.fax_queue.specs.SpoolStorage.{IsUnchanged};

use crate::seen::SeenLines;
use fax_desk::{Desk, Tag};
use fax_jobs::Outcome;
use fax_undelivered::PairedStore;
use sqlite_disk::Disk;

/// The tags of the calls in which the lines that wait confirmed pages are noted. It answers whether one did.
pub(crate) fn set_tags<L: SeenLines, D: Disk, U: Disk>(
    store: &mut PairedStore<D, U>,
    desk: &Desk,
    seen: &L,
) -> bool
    ensures { IsUnchanged store.old.storage.queues.items
        store.new.storage.queues.items store.old.storage.spool store.new.storage.spool }
{
    let mut confirms = false;
    for i in 0..seen.len() {
        if seen.waits(i)
            && let Some(call) = confirmed_in(seen, i)
        {
            confirms = true;
            set_tag(store, i, desk.tag(i, call));
        }
    }
    confirms
}

/// The call in which line i confirmed a page in the last turn of its slot.
fn confirmed_in<L: SeenLines>(seen: &L, i: usize) -> Option<u32> {
    let kept = seen.turned(i)?.kept?;
    Some(kept.call)
}

/// The tag of the call of line i is noted, where it has one.
fn set_tag<D: Disk, U: Disk>(store: &mut PairedStore<D, U>, i: usize, tag: Option<Tag>)
    ensures { IsUnchanged store.old.storage.queues.items
        store.new.storage.queues.items store.old.storage.spool store.new.storage.spool }
{
    if let Some(tag) = tag {
        store.set_tag(i, tag.text());
    }
}

/// What is told of the jobs of the lines that wait which ended is noted: the second since 1970, where the clock tells it, and of each job
/// whose call was not placed for what cause.
pub(crate) fn set_causes<L: SeenLines, D: Disk, U: Disk>(
    store: &mut PairedStore<D, U>,
    day: Option<u64>,
    desk: &Desk,
    seen: &L,
)
    ensures { store.new.storage ≡ store.old.storage }
{
    store.set_day(day.unwrap_or(0));
    for i in 0..seen.len() {
        if seen.waits(i) && has_ended_undelivered(seen, i) {
            set_cause(store, desk, i);
        }
    }
}

/// For what cause the call of the job of line i that ends now was not placed, where that was told.
fn set_cause<D: Disk, U: Disk>(store: &mut PairedStore<D, U>, desk: &Desk, i: usize)
    ensures { store.new.storage ≡ store.old.storage }
{
    if let Some(card) = desk.cards.get(i)
        && let Some(cause) = card.cause(card.jobs)
    {
        store.set_cause(i, cause.text());
    }
}

/// Whether a job of line i ended in the last turn of its slot that was not delivered.
fn has_ended_undelivered<L: SeenLines>(seen: &L, i: usize) -> bool {
    match seen.turned(i) {
        Some(turned) => match turned.report {
            Some(report) => report.outcome != Outcome::Delivered,
            None => false,
        },
        None => false,
    }
}
