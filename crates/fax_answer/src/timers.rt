//! The timers of a call.
use fax_timers::Timer;

/// A timer that acts in a tick (ITU-T T.30, 5.4.3).
#[derive(Clone, Copy, PartialEq, Eq)]
pub enum ActingTimer {
    /// No DCS came in time: the call is given up.
    T1,
    /// Nothing was heard in time: the call is given up, or, after an EOM, the exchange of DIS and DCS begins again.
    T2,
    /// No DCS came: the DIS is given again.
    T4,
}

/// T1, T2 and T4 of the answerer (ITU-T T.30, 5.4.3).
#[derive(Clone, Copy)]
pub(crate) struct Timers {
    pub t1: Timer,
    pub t2: Timer,
    pub t4: Timer,
}

impl Timers {
    ghost use Rattle.std.specs.Prelude.{◌≡◌, None};

    /// All of them clear.
    pub fn clear() -> Self
        ensures { result ≡ record { t1 = None; t2 = None; t4 = None } }
    {
        Timers {
            t1: Timer::new(),
            t2: Timer::new(),
            t4: Timer::new(),
        }
    }
}
