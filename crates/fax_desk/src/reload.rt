//! A configuration that was read again, and is to be served by another run.
ghost use Rattle.std.specs.Prelude.{◌≡◌};
ghost use Rattle.fax_desk.specs.Reloads.{is_asked, reload_after, reload_at, reloads_now, takes_calls};

use crate::spool::SpoolFailure;
use crate::stop::Stop;

/// Whether the run is to end, so that another one serves the configuration as it was read again.
#[derive(Clone, Copy)]
pub enum Reload {
    No,
    /// It is, once no line has a call. From this moment on no line takes one.
    Asked(u64),
    /// It is, and no line takes a call.
    Closed,
}

impl Reload {
    /// It is asked for: lines take calls for so many milliseconds still. A second time changes nothing.
    pub fn asked(self, now: u64, within_ms: u64) -> Self
        ensures { result ≡ reload_after self now within_ms }
    {
        match self {
            Reload::No => Reload::Asked(now.saturating_add(within_ms)),
            Reload::Asked(until) => Reload::Asked(until),
            Reload::Closed => Reload::Closed,
        }
    }

    /// The same at this moment.
    pub fn at(self, now: u64) -> Self
        ensures { result ≡ reload_at self now }
    {
        match self {
            Reload::Asked(until) if until <= now => Reload::Closed,
            _ => self,
        }
    }

    /// Whether it is asked for.
    pub fn is_asked(self) -> bool
        ensures { result ≡ is_asked self }
    {
        match self {
            Reload::No => false,
            Reload::Asked(_) | Reload::Closed => true,
        }
    }
}

/// Whether lines take calls at a server that stops or not, and whose configuration is to be served by another run or not.
pub(crate) fn takes_calls(stop: Stop, reload: Reload) -> bool
    ensures { result ≡ takes_calls stop reload }
{
    match (stop, reload) {
        (Stop::No, Reload::No) | (Stop::No, Reload::Asked(_)) => true,
        _ => false,
    }
}

/// Whether a run is over for it, where no line has a call, or one has. Where the spool has failed another run opens that first.
pub(crate) fn reloads_now(failed: Option<SpoolFailure>, reload: Reload, are_calm: bool) -> bool
    ensures { result ≡ reloads_now failed reload are_calm }
{
    failed.is_none() && reload.is_asked() && are_calm
}
