//! The spool of a server: what comes of its failure, and what clients are told of it.
ghost use Rattle.std.specs.Prelude.{◌≡◌};
ghost use Rattle.fax_desk.specs.Spools.{damage_told, end_of, failed_after, failure_told, is_drained, unserved_reply};

use crate::next::{RefusedWord, Reply};
use crate::reload::Reload;
use crate::stop::Stop;
use fax_control::events::What;
use fax_control::{Refusal, Word};

/// The spool is opened anew so many milliseconds after a failure, at the earliest.
const BETWEEN_OPENINGS_MS: u64 = 10_000;

/// What a start found in the spool that cannot be read: so many damaged records, and so many octets that were passed over.
#[derive(Clone, Copy)]
pub struct Damage {
    pub records: u64,
    pub octets: u64,
}

impl Damage {
    /// What is told of it; nothing where there is none.
    pub fn told(self) -> Option<What<'static>>
        ensures { result ≡ damage_told self }
    {
        if self.records == 0 && self.octets == 0 {
            None
        } else {
            Some(What::Damaged(self.records, self.octets))
        }
    }
}

/// The spool has failed: its run is over, so that the next one opens it anew, not before one moment, and at another one at the latest.
#[derive(Clone, Copy)]
pub struct SpoolFailure {
    pub first: u64,
    pub last: u64,
}

/// What is told of the spool first.
#[derive(Clone, Copy)]
pub struct SpoolTold {
    pub damage: Option<What<'static>>,
    pub failure: Option<What<'static>>,
}

/// How a run of a server ends.
#[derive(Clone, Copy, PartialEq, Eq)]
pub enum RunEnd {
    /// It was told to stop.
    Stopped,
    /// Its spool has failed, and is to be opened anew.
    SpoolFailed,
    /// Its configuration was read again, and is to be served as it is then.
    Reload,
}

/// When the run ends, where the spool has failed at this moment or not, and this was known of it; a stop takes so many milliseconds at
/// most.
pub(crate) fn failed_after(
    failed: Option<SpoolFailure>,
    has_failed: bool,
    now: u64,
    within_ms: u64,
) -> Option<SpoolFailure>
    ensures { result ≡ failed_after failed has_failed now within_ms }
{
    match failed {
        Some(failed) => Some(failed),
        None if has_failed => Some(SpoolFailure {
            first: now.saturating_add(BETWEEN_OPENINGS_MS),
            last: now.saturating_add(within_ms),
        }),
        None => None,
    }
}

/// Whether a run whose spool has failed is over at this moment, where no line has a call, or one has.
pub(crate) fn is_drained(failed: Option<SpoolFailure>, now: u64, are_calm: bool) -> bool
    ensures { result ≡ is_drained failed now are_calm }
{
    match failed {
        Some(failed) => failed.first <= now && (are_calm || failed.last <= now),
        None => false,
    }
}

/// How a run ends that was told to stop, or not, whose spool has failed, or not, and whose configuration is to be served by another run, or
/// not.
pub(crate) fn end_of(stop: Stop, failed: Option<SpoolFailure>, reload: Reload) -> RunEnd
    ensures { result ≡ end_of stop failed reload }
{
    match (stop, failed) {
        (Stop::No, Some(_)) => RunEnd::SpoolFailed,
        (Stop::No, None) if reload.is_asked() => RunEnd::Reload,
        _ => RunEnd::Stopped,
    }
}

/// What is told of a failure.
pub(crate) fn failure_told(failed: Option<SpoolFailure>) -> Option<What<'static>>
    ensures { result ≡ failure_told failed }
{
    match failed {
        Some(_) => Some(What::SpoolFailed),
        None => None,
    }
}

/// How a word is answered while no line is served, since the spool cannot be opened.
pub fn unserved_reply(word: Word<'_>) -> Reply
    ensures { result ≡ unserved_reply word.entry }
{
    match word {
        Word::Stop => Reply::Done,
        _ => Reply::Refused(RefusedWord {
            why: Refusal::NoSpool,
        }),
    }
}
