//! What the gateway took a piece as.
ghost use Rattle.std.specs.Prelude.{◌≡◌, IfOk, map};
ghost use Rattle.fax_explain.specs.Marks.{mark_of_answer, mark_of_call, passed_of_answer, passed_of_call, signal_of_answer, signal_of_call, given_signal};

use fax_answer::State as AnswerState;
use fax_bits::NoMemory;
use fax_call::State as CallState;
use fax_frames::Dcs;
use fax_notes::{AnswerNote, CallNote};
use std::alloc::Global;

/// What a signal is, by the state of the call in which it begins or ends.
#[derive(Clone, Copy)]
pub(crate) enum Signal {
    /// No DCS is before it, or FTT answered it.
    Strange,
    /// It comes from a called machine.
    Unasked,
    /// The call has ended.
    Outside,
    /// The call ends.
    Ending,
    /// A training check after this DCS.
    Check(Dcs),
    /// An image under this DCS.
    Page(Dcs),
    /// An image after an EOM.
    Late,
}

/// Whether a frame is passed over, and why.
#[derive(Clone, Copy)]
pub(crate) enum Passed {
    /// It is not: something was decided at it.
    Heard,
    /// A packet of the gateway's waits.
    Sending,
    /// The call has ended.
    Outside,
    /// Nothing is awaited that it is.
    Unasked,
}

/// What the gateway took a piece as, in each respect that a line may tell.
#[derive(Clone, Copy)]
pub(crate) struct Mark {
    /// What it is as a signal.
    pub signal: Signal,
    /// Whether it is passed over as a frame.
    pub passed: Passed,
    /// Whether it is a good training check.
    pub is_good: bool,
    /// Whether it gives the training again.
    pub trains_again: bool,
}

impl Mark {
    /// That of a piece which the gateway gives, as this signal.
    pub(crate) fn given(signal: Signal) -> Self
        ensures { result ≡ record {
          signal = signal;
          passed = Passed.Heard;
          is_good = Rattle.std.specs.Prelude.false;
          trains_again = Rattle.std.specs.Prelude.false;
        } }
    {
        Mark {
            signal,
            passed: Passed::Heard,
            is_good: false,
            trains_again: false,
        }
    }
}

/// The marks of what was told of a datagram of the caller's.
pub(crate) fn marks_of_answer(alloc: Global, notes: &[AnswerNote]) -> Result<Vec<Mark>, NoMemory>
    ensures { IfOk result (λ marks. marks.items ≡ map mark_of_answer notes.now) }
{
    Ok(
        notes
            .iter()
            .map(|note| mark_of_answer(note))
            .collect(alloc)?,
    )
}

/// The marks of what was told of a datagram of the called machine's.
pub(crate) fn marks_of_call(alloc: Global, notes: &[CallNote]) -> Result<Vec<Mark>, NoMemory>
    ensures { IfOk result (λ marks. marks.items ≡ map mark_of_call notes.now) }
{
    Ok(notes.iter().map(|note| mark_of_call(note)).collect(alloc)?)
}

/// The mark of a piece of the caller's.
fn mark_of_answer(note: &AnswerNote) -> Mark
    ensures { result ≡ mark_of_answer note.now }
{
    Mark {
        signal: signal_of_answer(note.state),
        passed: passed_of_answer(note),
        is_good: matches!(note.decision, fax_answer::Decision::Cfr(_)),
        trains_again: false,
    }
}

/// What a signal of the caller's is in this state.
fn signal_of_answer(state: AnswerState) -> Signal
    ensures { result ≡ signal_of_answer state }
{
    match state {
        AnswerState::Idle => Signal::Outside,
        AnswerState::Identify | AnswerState::Listen => Signal::Strange,
        AnswerState::Train(dcs) => Signal::Check(dcs),
        AnswerState::Page(dcs) => Signal::Page(dcs),
        AnswerState::Again => Signal::Late,
        AnswerState::Closing => Signal::Ending,
    }
}

/// Whether a frame of the caller's is passed over, and why.
fn passed_of_answer(note: &AnswerNote) -> Passed
    ensures { result ≡ passed_of_answer note.now }
{
    match note.decision {
        fax_answer::Decision::PassOver => match note.state {
            AnswerState::Idle => Passed::Outside,
            _ => passed_while(note.waits),
        },
        _ => Passed::Heard,
    }
}

/// The mark of a piece of the called machine's.
fn mark_of_call(note: &CallNote) -> Mark
    ensures { result ≡ mark_of_call note.now }
{
    Mark {
        signal: signal_of_call(note.state),
        passed: passed_of_call(note),
        is_good: false,
        trains_again: trains_again(note),
    }
}

/// What a signal of the called machine's is in this state.
fn signal_of_call(state: CallState) -> Signal
    ensures { result ≡ signal_of_call state }
{
    match state {
        CallState::Idle => Signal::Outside,
        CallState::Closing(_) => Signal::Ending,
        _ => Signal::Unasked,
    }
}

/// Whether a frame of the called machine's is passed over, and why.
fn passed_of_call(note: &CallNote) -> Passed
    ensures { result ≡ passed_of_call note.now }
{
    match note.decision {
        fax_call::Decision::PassOver => match note.state {
            CallState::Idle => Passed::Outside,
            _ => passed_while(note.waits),
        },
        _ => Passed::Heard,
    }
}

/// Whether it gives a training again: in place of an answer to one, or after an FTT.
fn trains_again(note: &CallNote) -> bool
    ensures { result ≡ Rattle.fax_explain.specs.Marks.trains_again note.now }
{
    match (note.state, note.decision) {
        (CallState::AwaitCfr(_, _), fax_call::Decision::Train) => true,
        _ => false,
    }
}

/// Why a frame is passed over in a call that is on, while a packet waits or does not.
fn passed_while(waits: bool) -> Passed
    ensures { result ≡ Rattle.fax_explain.specs.Marks.passed_while waits }
{
    if waits {
        Passed::Sending
    } else {
        Passed::Unasked
    }
}

/// What a signal is that is given on the called leg in this state.
pub(crate) fn given_signal(state: CallState) -> Signal
    ensures { result ≡ given_signal state }
{
    match state {
        CallState::AwaitCfr(_, dcs) => Signal::Check(dcs),
        CallState::AwaitMcf(_, dcs) => Signal::Page(dcs),
        _ => Signal::Strange,
    }
}
