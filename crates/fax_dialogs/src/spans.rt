//! Moments and pauses.
ghost use Rattle.std.specs.Prelude.{◌≡◌};
ghost use Rattle.fax_transactions.specs.Spans.{later as moment_later, longer as longer_pause};

use fax_transactions::T2_MS;

/// The moment so long after another, or the last moment of all.
pub(crate) fn later(now: u64, span: u64) -> u64
    ensures { result ≡ moment_later now span }
{
    now.saturating_add(span)
}

/// Twice a pause, at most T2.
pub(crate) fn longer(pause: u64) -> u64
    ensures { result ≡ longer_pause pause }
{
    pause.saturating_add(pause).min(T2_MS)
}
