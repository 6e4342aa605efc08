//! The timers of the calling leg.
ghost use Rattle.std.specs.Prelude.{◌≡◌};
ghost use Rattle.fax_descriptions.specs.Reasons.{timer_text};

use fax_answer::{ActingTimer, State};

/// What a timer does that acts in this state (ITU-T T.30, 5.4.3): it gives the call up, or our DIS again.
pub fn words_of_timer(timer: ActingTimer, state: State) -> &'static str
    ensures { result.now ≡ timer_text timer state }
{
    match timer {
        ActingTimer::T1 => "T1: no DCS in 35 s, so the call is given up",
        ActingTimer::T2 => match state {
            State::Again => "T2: nothing heard in 6 s after EOM, so DIS goes out again",
            _ => "T2: nothing heard in 6 s, so the call is given up",
        },
        ActingTimer::T4 => "T4: no DCS in 3 s, so DIS goes out again",
    }
}
