//! What the desk sees of redial lines.
ghost use Rattle.std.specs.Prelude.{◌≡◌, None, option_map, slice_get};
ghost use Rattle.fax_gateway.specs.BothLegs.{job_asked};
ghost use Rattle.fax_gateway.specs.declared.leg.Leg.TheVariants as legs;
ghost use Rattle.fax_redial.specs.Seeing.{first_of, idle_seen, job_seen, leg_seen, line_seen, no_leg, seen_at, try_seen};
ghost use Rattle.fax_wires.specs.repeat.Peers.{peer_on, state_of};

use crate::job::RetryJob;
use crate::job_try::JobTry;
use fax_desk::{AskedView, FirstJob, LegView, LineView, View};
use fax_gateway::Leg;
use fax_line::Line;
use fax_wires::repeat::TimedWire;

/// A leg without a peer.
const NO_LEG: LegView = LegView {
    has_peer: false,
    is_fixed: false,
    is_heard: false,
};

/// Redial lines, each with a try or without one. Their spool is none.
#[derive(Drop)]
pub(crate) struct Seen<'a, W: TimedWire + Drop> {
    pub tries: &'a [Option<JobTry<W>>],
}

impl<'a, W: TimedWire + Drop> View for Seen<'a, W> {
    ghost use Rattle.std.specs.Prelude.{false};
    ghost use Rattle.fax_redial.specs.Seeing.{seen_at};

    ghost line = { λ seen i. seen_at seen.tries.now i };

    ghost failed = { λ seen. false };

    fn line(&self, i: usize) -> Option<LineView> {
        seen_at(self.tries, i)
    }

    fn has_failed(&self) -> bool {
        false
    }
}

/// What redial line i is.
pub(crate) fn seen_at<W: TimedWire + Drop>(
    tries: &[Option<JobTry<W>>],
    i: usize,
) -> Option<LineView>
    ensures { result ≡ seen_at tries.now i }
{
    match tries.get(i) {
        Some(held) => Some(try_seen(held)),
        None => None,
    }
}

/// What a redial line is that has this try, or none.
fn try_seen<W: TimedWire + Drop>(held: &Option<JobTry<W>>) -> LineView
    ensures { result ≡ try_seen held.now }
{
    match held {
        Some(held) => held.view(),
        None => idle_seen(),
    }
}

impl<W: TimedWire + Drop> JobTry<W> {
    /// What its line is.
    pub(crate) fn view(&self) -> LineView
        ensures { result ≡ try_seen (Some self.now) }
    {
        match self.line() {
            Some(line) => line_seen(self.job(), line),
            None => idle_seen(),
        }
    }
}

/// A redial line without a try.
fn idle_seen() -> LineView
    ensures { result ≡ idle_seen }
{
    LineView {
        call: None,
        sending: None,
        asked: None,
        first: FirstJob {
            is_restored: true,
            tag: None,
        },
        calling: NO_LEG,
        called: NO_LEG,
    }
}

/// The line of a try of this job.
fn line_seen<W: TimedWire + Drop>(job: &RetryJob, line: &Line<W>) -> LineView
    ensures { result ≡ line_seen job.now line.now }
{
    LineView {
        call: None,
        sending: sending(line),
        asked: asked(line),
        first: first_of(job),
        calling: NO_LEG,
        called: called_leg(line),
    }
}

/// The call whose job is being sent.
fn sending<W: TimedWire + Drop>(line: &Line<W>) -> Option<u32>
    ensures { result ≡ option_map (λ sent. sent.call) line.now.gateway.book.sending }
{
    match line.sending() {
        Some(job) => Some(job.call()),
        None => None,
    }
}

/// The job whose call is asked for.
fn asked<W: TimedWire + Drop>(line: &Line<W>) -> Option<AskedView>
    ensures { result
        ≡ option_map job_seen (job_asked line.now.gateway.settings.asks line.now.gateway.book) }
{
    match line.job_asked() {
        Some(job) => Some(AskedView {
            call: job.call(),
            pages: job.page_count(),
        }),
        None => None,
    }
}

/// The called leg.
fn called_leg<W: TimedWire + Drop>(line: &Line<W>) -> LegView
    ensures { result ≡ leg_seen (state_of (peer_on legs.Called line.now.peers)) }
{
    let leg = line.leg_state(Leg::Called);
    LegView {
        has_peer: leg.has_peer,
        is_fixed: leg.is_fixed,
        is_heard: leg.is_heard,
    }
}

/// The job of a try, as the one that is first in turn on its line: it was confirmed in an earlier life of that.
pub(crate) fn first_of(job: &RetryJob) -> FirstJob
    ensures { result ≡ first_of job.now }
{
    FirstJob {
        is_restored: true,
        tag: job.tag,
    }
}
