//! When a job that could not be delivered is tried again.
ghost use Rattle.std.specs.Prelude.{◌≡◌};
ghost use Rattle.fax_redial.specs.Retrying.{has_come, is_due, may_mend, span_after};

use fax_jobs::Outcome;

/// Whether another try may mend it that a job ended so (this project's profile): nobody answered, a command was not answered, the called
/// machine hung up or was not reached, no rate was good enough, or a page was refused. A machine that does not receive, or that lacks
/// the width or the resolution of the pages, is the same at the next try; and a job that was delivered has nothing to mend.
pub fn may_mend(outcome: Outcome) -> bool
    ensures { result ≡ may_mend outcome }
{
    match outcome {
        Outcome::NoAnswer => true,
        Outcome::NoReply => true,
        Outcome::HungUp => true,
        Outcome::NotPlaced => true,
        Outcome::RatesSpent => true,
        Outcome::PageRefused => true,
        Outcome::Delivered => false,
        Outcome::NotReceiver => false,
        Outcome::WidthLacking => false,
        Outcome::FineLacking => false,
    }
}

/// Whether a job that was tried so often, and ended last with this outcome at this Unix second, is to be tried again by now, another
/// Unix second (this project's profile). The first of these spans, in seconds, lies after the first try, and so on; after the last of
/// them a job is tried no more.
pub fn is_due(outcome: Outcome, tries: u32, ended_at: u64, now: u64, after_seconds: &[u32]) -> bool
    ensures { result ≡ is_due outcome tries ended_at now after_seconds.now }
{
    may_mend(outcome) && has_come(span_after(tries, after_seconds), ended_at, now)
}

/// The span after so many tries. `None`: there is none.
fn span_after(tries: u32, after_seconds: &[u32]) -> Option<u32>
    ensures { result ≡ span_after tries after_seconds.now }
{
    if tries == 0 {
        return None;
    }
    after_seconds.get((tries - 1) as usize).copied()
}

/// Whether a span after a moment is over, where there is one.
fn has_come(span: Option<u32>, ended_at: u64, now: u64) -> bool
    ensures { result ≡ has_come span ended_at now }
{
    match span {
        Some(span) => match ended_at.checked_add(u64::from(span)) {
            Some(moment) => moment <= now,
            None => false,
        },
        None => false,
    }
}
