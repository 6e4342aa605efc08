//! The spans of RFC 3261's timers over UDP (table 4 of annex A), and moments.
ghost use Rattle.std.specs.Prelude.{◌≡◌};
ghost use Rattle.fax_transactions.specs.Spans.{doubled as twice, later as moment_later, longer as longer_pause};

/// T1, an estimate of the round trip (17.1.1.1): Timers A, E and G begin with it.
pub const T1_MS: u64 = 500;
/// T2, the longest pause of Timers E and G.
pub const T2_MS: u64 = 4_000;
/// T4, how long a message stays in the network: Timers I and K.
pub const T4_MS: u64 = 5_000;
/// 64 T1: Timers B, F, H and J, and D, which is 32 s at least.
pub const TIMEOUT_MS: u64 = 32_000;

/// The moment so long after another, or the last moment of all.
pub(crate) fn later(now: u64, span: u64) -> u64
    ensures { result ≡ moment_later now span }
{
    now.saturating_add(span)
}

/// Twice a pause: Timer A.
pub(crate) fn doubled(pause: u64) -> u64
    ensures { result ≡ twice pause }
{
    pause.saturating_add(pause)
}

/// Twice a pause, at most T2: Timers E and G.
pub(crate) fn longer(pause: u64) -> u64
    ensures { result ≡ longer_pause pause }
{
    doubled(pause).min(T2_MS)
}
