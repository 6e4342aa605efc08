//! The lines, as the desk sees them.
ghost use Rattle.std.specs.Prelude.{◌≡◌, MatchOption, false, option_map, slice_get};
ghost use Rattle.fax_gateway.specs.BothLegs.{job_asked};
ghost use Rattle.fax_wires.specs.repeat.Peers.{peer_on, state_of};
ghost use Rattle.fax_pace.specs.Views.{asked_seen, failed_if, first_if, first_on, job_seen, leg_seen, line_seen, store_fails, tag_if};
ghost use Rattle.fax_spool.specs.Calls.{refuses_now};

use crate::seen::SeenLines;
use fax_bits::Octets;
use fax_desk::{AskedView, FirstJob, LegView, LineView, Tag, Turn, View};
use fax_gateway::{Leg, TurnReport};
use fax_jobs::Report;
use fax_legs::{LegCounts, LegSocket};
use fax_line::{Line, Lines, PageToStore};
use fax_opening::SocketWire;
use fax_undelivered::{PairedStore, Undelivered, UndeliveredCall};
use fax_wires::holding::StoreFault;
use fax_wires::repeat::TimedWire;
use sqlite_disk::Disk;
use std::alloc::Global;
use std::net::UdpSocket;

/// The lines, and what keeps their pages.
#[derive(Drop)]
pub struct Seen<'a, W: TimedWire + Drop, D: Disk, U: Disk> {
    pub lines: &'a Lines<W>,
    pub store: Option<&'a PairedStore<D, U>>,
}

impl<'a, W: TimedWire + Drop, D: Disk, U: Disk> View for Seen<'a, W, D, U> {
    ghost use Rattle.std.specs.Prelude.{slice_get};
    ghost use Rattle.fax_pace.specs.Views.{failed_if, first_if, first_on, line_at, store_fails};

    ghost line = { λ seen i. line_at seen.lines.now.lines (failed_if seen.store
        (λ store. store_fails store.now)) (λ i. first_if seen.store (λ store.
        first_on store.now.storage.life (slice_get store.now.storage.queues.items i))) i };

    ghost failed = { λ seen. failed_if seen.store (λ store. store_fails store.now) };

    fn line(&self, i: usize) -> Option<LineView> {
        let line = self.lines.line(i)?;
        Some(view_of(line, first_job(self.store, i), has_failed(self.store)))
    }

    fn has_failed(&self) -> bool {
        has_failed(self.store)
    }
}

impl<'a, W: SocketWire + Drop, D: Disk, U: Disk> SeenLines for Seen<'a, W, D, U> {
    fn len(&self) -> usize {
        self.lines.len()
    }

    fn slot(&self) -> usize {
        self.lines.slot()
    }

    fn is_at_rest(&self, i: usize, moment: u64) -> bool {
        self.lines.is_at_rest(i, moment)
    }

    fn has_turned(&self, i: usize) -> bool {
        self.lines.has_turned(i)
    }

    fn waits(&self, i: usize) -> bool {
        self.lines.waits(i)
    }

    fn turned(&self, i: usize) -> Option<TurnReport> {
        match self.lines.line(i) {
            Some(line) if self.lines.has_turned(i) => Some(line.turned()),
            Some(_) | None => None,
        }
    }

    fn turn(&self, i: usize, is_stored: bool) -> Option<Turn> {
        match self.lines.line(i) {
            Some(line) => Some(turn_of(line, first_job(self.store, i), is_stored)),
            None => None,
        }
    }

    fn call(&self, i: usize) -> Option<u32> {
        match self.lines.line(i) {
            Some(line) => line.call(),
            None => None,
        }
    }

    fn is_calm(&self, i: usize) -> bool {
        match self.lines.line(i) {
            Some(line) => is_calm(line),
            None => true,
        }
    }

    fn is_idle(&self, i: usize) -> bool {
        match self.lines.line(i) {
            Some(line) => is_calm(line) && line.waiting() == 0,
            None => true,
        }
    }

    fn can_be_rung(&self, i: usize) -> bool {
        match self.lines.line(i) {
            Some(line) => line.call().is_none() && !line.leg_state(Leg::Calling).is_fixed,
            None => false,
        }
    }

    fn asks_for_a_call(&self, i: usize) -> bool {
        match self.lines.line(i) {
            Some(line) => line.asked().is_some(),
            None => false,
        }
    }

    fn waiting(&self, i: usize) -> usize {
        match self.lines.line(i) {
            Some(line) => line.waiting(),
            None => 0,
        }
    }

    fn is_sending(&self, i: usize) -> bool {
        match self.lines.line(i) {
            Some(line) => line.sending().is_some(),
            None => false,
        }
    }

    fn refusals(&self, i: usize) -> u64 {
        match self.lines.line(i) {
            Some(line) => line.refusals(),
            None => 0,
        }
    }

    fn report(&self, i: usize, k: usize) -> Option<Report> {
        match self.lines.line(i) {
            Some(line) => line.report(k),
            None => None,
        }
    }

    fn counts(&self, i: usize, leg: Leg) -> LegCounts {
        match self.lines.line(i) {
            Some(line) => socket(line, leg).counts(),
            None => LegCounts::default(),
        }
    }

    fn asks(&self, i: usize) -> bool {
        match self.lines.line(i) {
            Some(line) => legs_ask(line),
            None => false,
        }
    }

    fn wake(&self, i: usize, leg: Leg) {
        if let Some(line) = self.lines.line(i) {
            socket(line, leg).wake();
        }
    }

    fn descriptor(&self, i: usize, leg: Leg) -> Option<i32> {
        match self.lines.line(i) {
            Some(line) => Some(socket(line, leg).descriptor()),
            None => None,
        }
    }

    fn set_watched(&self, i: usize, leg: Leg, is_watched: bool) {
        if let Some(line) = self.lines.line(i) {
            socket(line, leg).set_watched(is_watched);
        }
    }

    fn set_tapped(&self, i: usize, leg: Leg, is_tapped: bool) {
        if let Some(line) = self.lines.line(i) {
            socket(line, leg).set_tapped(is_tapped);
        }
    }

    fn tapped(&self, i: usize, leg: Leg) -> Option<&[Octets]> {
        match self.lines.line(i) {
            Some(line) => socket(line, leg).tapped(),
            None => None,
        }
    }

    fn page_of(&self, alloc: Global, i: usize) -> Result<Option<PageToStore>, StoreFault> {
        match self.lines.line(i) {
            Some(line) => line.page_to_store(alloc, i),
            None => Ok(None),
        }
    }

    fn has_store(&self) -> bool {
        self.store.is_some()
    }

    fn pages_stored(&self) -> u64 {
        match self.store {
            Some(store) => store.storage.stored(),
            None => 0,
        }
    }

    fn calls(&self) -> Option<&[UndeliveredCall]> {
        match self.store {
            Some(store) => Some(calls_of(store.undelivered.as_ref())),
            None => None,
        }
    }

    fn keeps_calls(&self) -> Option<bool> {
        match self.store {
            Some(store) => Some(store.undelivered.is_some()),
            None => None,
        }
    }
}

/// What the last turn of a line came to, of which this job is the first in turn and whose page was kept, or not.
fn turn_of<W: SocketWire + Drop>(line: &Line<W>, first: FirstJob, is_stored: bool) -> Turn {
    Turn {
        turned: line.turned(),
        first,
        is_stored,
        is_silenced: line.wire().is_silenced(),
        is_hung_up: line.leg_state(Leg::Calling).is_gone,
    }
}

/// Whether a line has no call on either leg.
fn is_calm<W: TimedWire + Drop>(line: &Line<W>) -> bool {
    line.call().is_none() && line.sending().is_none()
}

/// The socket of a leg of a line.
fn socket<W: SocketWire + Drop>(line: &Line<W>, leg: Leg) -> &LegSocket<UdpSocket> {
    line.wire().wire().leg(leg)
}

/// Whether one of the legs of a line may have something for it.
fn legs_ask<W: SocketWire + Drop>(line: &Line<W>) -> bool {
    socket(line, Leg::Calling).asks() || socket(line, Leg::Called).asks()
}

/// The calls of which pages could not be delivered, where something keeps them.
fn calls_of<U: Disk>(kept: Option<&Undelivered<U>>) -> &[UndeliveredCall] {
    match kept {
        Some(kept) => kept.calls(),
        None => &[],
    }
}

/// Whether a disk of the spool has failed; none has where pages are stored in memory alone.
pub(crate) fn has_failed<D: Disk, U: Disk>(store: Option<&PairedStore<D, U>>) -> bool
    ensures { result ≡ failed_if store.entry (λ store. store_fails store.now) }
{
    match store {
        Some(store) => store.storage.refuses() || has_failed_too(store.undelivered.as_ref()),
        None => false,
    }
}

/// Whether the disk of the pages that could not be delivered has failed, where there is one.
fn has_failed_too<U: Disk>(kept: Option<&Undelivered<U>>) -> bool
    ensures { MatchOption kept.entry (result ≡ false)
        (λ kept. result ≡ refuses_now kept.now.spool) }
{
    match kept {
        Some(kept) => kept.refuses(),
        None => false,
    }
}

/// What a line is, the job that is first in turn on which was confirmed so, and whose spool has failed, or not.
fn view_of<W: TimedWire + Drop>(line: &Line<W>, first: FirstJob, has_failed: bool) -> LineView
    ensures { result ≡ line_seen line.now first has_failed }
{
    LineView {
        call: line.call(),
        sending: sending(line),
        asked: asked(line, has_failed),
        calling: leg_view(line, Leg::Calling),
        called: leg_view(line, Leg::Called),
        first,
    }
}

/// The call whose job is being sent.
fn sending<W: TimedWire + Drop>(line: &Line<W>) -> Option<u32>
    ensures { result ≡ option_map (λ job. job.call) line.now.gateway.book.sending }
{
    match line.sending() {
        Some(job) => Some(job.call()),
        None => None,
    }
}

/// The job whose call is asked for: none while the end of a job cannot be noted, since it would be sent a second time.
fn asked<W: TimedWire + Drop>(line: &Line<W>, has_failed: bool) -> Option<AskedView>
    ensures { result
        ≡ asked_seen has_failed (job_asked line.now.gateway.settings.asks line.now.gateway.book) }
{
    if has_failed {
        return None;
    }
    match line.job_asked() {
        Some(job) => Some(AskedView {
            call: job.call(),
            pages: job.page_count(),
        }),
        None => None,
    }
}

/// What a leg is.
fn leg_view<W: TimedWire + Drop>(line: &Line<W>, leg: Leg) -> LegView
    ensures { result ≡ leg_seen (state_of (peer_on leg line.now.peers)) }
{
    let leg = line.leg_state(leg);
    LegView {
        has_peer: leg.has_peer,
        is_fixed: leg.is_fixed,
        is_heard: leg.is_heard,
    }
}

/// The job of line i that is first in turn: whether it was confirmed in an earlier life, and the tag that it has then.
fn first_job<D: Disk, U: Disk>(store: Option<&PairedStore<D, U>>, i: usize) -> FirstJob
    ensures { result ≡ first_if store.entry
        (λ store. first_on store.now.storage.life (slice_get store.now.storage.queues.items i)) }
{
    match store {
        Some(store) if store.storage.is_restored(i) => FirstJob {
            is_restored: true,
            tag: tag_of(store.storage.restored_tag(i)),
        },
        Some(_) | None => FirstJob {
            is_restored: false,
            tag: None,
        },
    }
}

/// A tag by value.
fn tag_of(text: Option<&str>) -> Option<Tag>
    ensures { result ≡ tag_if (option_map (λ text. text.now) text.entry) }
{
    Tag::of(text?)
}
