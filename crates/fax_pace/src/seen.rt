//! The lines of a server, as what answers words and tells events sees them.
use fax_bits::Octets;
use fax_desk::{Desk, Turn, View};
use fax_gateway::{Leg, TurnReport};
use fax_jobs::Report;
use fax_legs::LegCounts;
use fax_line::PageToStore;
use fax_undelivered::UndeliveredCall;
use fax_wires::holding::StoreFault;
use std::alloc::Global;

/// The lines of a server, counted from 0, and what keeps their pages. Of a line that is not there nothing is told.
pub trait SeenLines: View {
    /// How many lines there are.
    fn len(&self) -> usize;

    /// The slot that has the next turn.
    fn slot(&self) -> usize;

    /// Whether a turn at this moment would leave line i at rest.
    fn is_at_rest(&self, i: usize, moment: u64) -> bool;

    /// Whether line i was turned in the last turn of its slot.
    fn has_turned(&self, i: usize) -> bool;

    /// Whether it waits until what is to be stored of that turn is stored.
    fn waits(&self, i: usize) -> bool;

    /// What its turn told, where it was turned then.
    fn turned(&self, i: usize) -> Option<TurnReport>;

    /// The same for the desk, where the page that was confirmed in it was kept, or not.
    fn turn(&self, i: usize, is_stored: bool) -> Option<Turn>;

    /// The call that is on on the calling leg of line i.
    fn call(&self, i: usize) -> Option<u32>;

    /// Whether line i has no call on either leg.
    fn is_calm(&self, i: usize) -> bool;

    /// Whether it has no call and no job.
    fn is_idle(&self, i: usize) -> bool;

    /// Whether it can be rung: its calling leg is idle, and the configuration gives it no peer.
    fn can_be_rung(&self, i: usize) -> bool;

    /// Whether the call of a job is asked for there.
    fn asks_for_a_call(&self, i: usize) -> bool;

    /// How many jobs wait on it.
    fn waiting(&self, i: usize) -> usize;

    /// Whether a job is being sent there.
    fn is_sending(&self, i: usize) -> bool;

    /// Report k of those that are kept of it, the oldest first.
    fn report(&self, i: usize, k: usize) -> Option<Report>;

    /// How many datagrams and ticks of it were refused for want of memory.
    fn refusals(&self, i: usize) -> u64;

    /// What went over a leg of it.
    fn counts(&self, i: usize, leg: Leg) -> LegCounts;

    /// Whether one of its legs may have something for it.
    fn asks(&self, i: usize) -> bool;

    /// A leg of it is asked in its next turn, whatever the system told.
    fn wake(&self, i: usize, leg: Leg);

    /// The descriptor of the socket of a leg.
    fn descriptor(&self, i: usize, leg: Leg) -> Option<i32>;

    /// The system tells when a datagram comes on a leg, or no more.
    fn set_watched(&self, i: usize, leg: Leg, is_watched: bool);

    /// What a leg hands out in a turn is copied from now on, or no more.
    fn set_tapped(&self, i: usize, leg: Leg, is_tapped: bool);

    /// The datagrams that a leg handed out in the last turn of the line, where they are copied. `None`: memory was refused for one.
    fn tapped(&self, i: usize, leg: Leg) -> Option<&[Octets]>;

    /// The page that its last turn confirmed. An `Err`: memory was refused for its text.
    fn page_of(&self, alloc: Global, i: usize) -> Result<Option<PageToStore>, StoreFault>;

    /// Whether the pages of lines are kept on a disk.
    fn has_store(&self) -> bool;

    /// How many are there.
    fn pages_stored(&self) -> u64;

    /// The calls of which pages could not be delivered. `None`: pages are kept on no disk.
    fn calls(&self) -> Option<&[UndeliveredCall]>;

    /// Whether that disk keeps such calls. `None`: there is none.
    fn keeps_calls(&self) -> Option<bool>;
}

/// Whether no line has a call or a job.
pub(crate) fn are_idle<S: SeenLines>(seen: &S) -> bool {
    for i in 0..seen.len() {
        if !seen.is_idle(i) {
            return false;
        }
    }
    true
}

/// Whether no line has a call.
pub(crate) fn are_calm<S: SeenLines>(seen: &S) -> bool {
    for i in 0..seen.len() {
        if !seen.is_calm(i) {
            return false;
        }
    }
    true
}

/// Whether a line can be rung of which fewer pages wait than may, and there is memory for a call on the first such.
pub(crate) fn has_free_line<S: SeenLines>(desk: &Desk, seen: &S) -> bool {
    for i in 0..seen.len() {
        if seen.can_be_rung(i) && !desk.is_full(i) {
            return desk.has_memory(i, seen);
        }
    }
    false
}
