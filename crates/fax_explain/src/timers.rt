//! The timers that act in a tick.
ghost use Rattle.std.specs.Prelude.{◌≡◌, ◌++◌, OnOk};
ghost use Rattle.fax_explain.specs.Given.{called_timer_lines, called_timer_text, timer_lines};

use fax_bits::NoMemory;
use fax_call::ActingTimer as CallTimer;
use fax_descriptions::{Lane, Tale, words_of_timer};

/// The timer that acts in this state of the calling leg, where one does, is told.
pub(crate) fn tell_calling_timer(
    timer: Option<fax_answer::ActingTimer>,
    state: fax_answer::State,
    tale: &mut Tale,
) -> Result<(), NoMemory>
    ensures { OnOk result (tale.new ≡ tale.old ++ timer_lines timer state) }
{
    match timer {
        Some(timer) => tale.tell(Lane::Inside, words_of_timer(timer, state)),
        None => Ok(()),
    }
}

/// The timer that acts on the called leg, where one does, is told.
pub(crate) fn tell_called_timer(timer: Option<CallTimer>, tale: &mut Tale) -> Result<(), NoMemory>
    ensures { OnOk result (tale.new ≡ tale.old ++ called_timer_lines timer) }
{
    match timer {
        Some(timer) => tale.tell(Lane::Inside, words_of_called_timer(timer)),
        None => Ok(()),
    }
}

/// What a timer of the called leg finds.
fn words_of_called_timer(timer: CallTimer) -> &'static str
    ensures { result.now ≡ called_timer_text timer }
{
    match timer {
        CallTimer::T1 => "T1: no DIS in 35 s, so the call is given up",
        CallTimer::T4 => "T4: no answer in 3 s",
    }
}
