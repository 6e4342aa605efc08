//! Laws of the definitions: functions that do nothing, each of whose contracts is a theorem.
ghost use Rattle.fax_laws.specs.deadlines.Deadlines.{CallsAreHeardLately, JobsEndInTime, LongCallsAreHeard, PromptTracesGoOn, SilentCallsEnd, SteadyTicksArePrompt};

use fax_answer::laws::no_call_hangs;
use fax_gateway::laws::{jobs_are_of_their_calls, jobs_have_states};
use fax_udptl::laws::slots_go_on;

/// Each job that is sent is reported within a time that its pages tell, whatever is heard, where ticks are prompt: nobody holds the
/// called leg for ever.
pub fn jobs_end_in_time()
    ensures { JobsEndInTime }
{
    jobs_are_of_their_calls();
    jobs_have_states();
}

/// Each call of the calling leg on which nothing more is heard is over within a time that its state tells, where ticks are prompt: nobody
/// holds that leg by silence.
pub fn silent_calls_end()
    ensures { SilentCallsEnd }
{
    no_call_hangs();
    slots_go_on();
}

/// While a call of the calling leg is on, where ticks are prompt, something was heard in it no longer ago than the longest silence: an
/// answer, a hang-up, a training or what sets T2 anew came of it; or it rang then. What is passed over holds no call open.
pub fn calls_are_heard_lately()
    ensures { CallsAreHeardLately }
{
    no_call_hangs();
}

/// A call of the calling leg, in which so many datagrams decided a slot, has lasted no longer than so many of the longest silences and
/// one: a caller holds that leg only by being heard, datagram after datagram.
pub fn long_calls_are_heard()
    ensures { LongCallsAreHeard }
{
    no_call_hangs();
    slots_go_on();
}

/// Each trace whose ticks are prompt goes on so.
pub fn prompt_traces_go_on()
    ensures { PromptTracesGoOn }
{}

/// Ticks at most so far apart are prompt.
pub fn steady_ticks_are_prompt()
    ensures { SteadyTicksArePrompt }
{}
