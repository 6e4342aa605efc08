//! Spans of a registration.
ghost use Rattle.std.specs.Prelude.{◌≡◌};
ghost use Rattle.fax_trunks.specs.Pauses.{expiry as expiry_moment, later as moment_later, longer as longer_pause, refresh as refresh_moment};

/// The least pause between two REGISTERs, in milliseconds, but for those that answer a challenge (this project's profile).
pub const LEAST_PAUSE_MS: u64 = 5_000;
/// The pause after a first failure, in milliseconds (RFC 5626, 4.5: the base time).
pub const FIRST_PAUSE_MS: u64 = 30_000;
/// The longest pause after a failure, in milliseconds (RFC 5626, 4.5: the maximum time).
pub const LONGEST_PAUSE_MS: u64 = 1_800_000;
/// How long an answer is waited for, in milliseconds: 64 T1 (RFC 3261, 17.1.2.2, Timer F).
pub const ANSWER_MS: u64 = 32_000;
/// How long a registration takes to end, at most, in milliseconds: what is under way is answered or given up, and so is its end.
pub const ENDING_MS: u64 = 64_000;
/// How long before its end a registration is refreshed, at most, in milliseconds: a REGISTER that nobody answers is given up and sent
/// again before that (this project's profile).
pub const MARGIN_MS: u64 = 90_000;
/// The fewest seconds that a registration lasts: what is granted for less is as good as refused (this project's profile).
pub const FEWEST_SECONDS: u32 = 10;

/// The moment so long after another, or the last moment of all.
pub(crate) fn later(now: u64, span: u64) -> u64
    ensures { result ≡ moment_later now span }
{
    now.saturating_add(span)
}

/// Twice a pause, at most 30 minutes.
pub(crate) fn longer(pause: u64) -> u64
    ensures { result ≡ longer_pause pause }
{
    pause.saturating_add(pause).min(LONGEST_PAUSE_MS)
}

/// When a registration is refreshed that was granted now for so many seconds: half of them later, or 90 s before they are over,
/// whichever is later.
pub(crate) fn refresh(now: u64, seconds: u32) -> u64
    ensures { result ≡ refresh_moment now seconds }
{
    let span = 1_000 * u64::from(seconds);
    later(now, (span / 2).max(span.saturating_sub(MARGIN_MS)))
}

/// When a registration is over that was granted now for so many seconds.
pub(crate) fn expiry(now: u64, seconds: u32) -> u64
    ensures { result ≡ expiry_moment now seconds }
{
    later(now, 1_000 * u64::from(seconds))
}
