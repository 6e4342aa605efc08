//! Laws of the caller: functions that do nothing, each of whose contracts is a theorem. Each is told of every call
//! over one unchanged job, whatever the called machine answers.
ghost use Rattle.fax_call.specs.Delivery.{TellsWhatWasAnswered};
ghost use Rattle.fax_call.specs.Due.{ActsFrom, RestsBefore};
ghost use Rattle.fax_call.specs.Emission.{EmitsThePages};
ghost use Rattle.fax_call.specs.Ending.{EveryCallEnds, TextsHaveALongest};
ghost use Rattle.fax_call.specs.Given.{GivesClosedPackets, GivesOneKind, TellsOneKind};
ghost use Rattle.fax_call.specs.GivenSignals.{GivesChecksAndPages};
ghost use Rattle.fax_call.specs.GivingUp.{TellsWhyItGaveUp};
ghost use Rattle.fax_call.specs.InTime.{NoTimerIsEarly};
ghost use Rattle.fax_call.specs.Numbers.{NumbersAreFixed};
ghost use Rattle.fax_call.specs.RefusedPages.{ThirdRefusalEnds};
ghost use Rattle.fax_call.specs.Refusals.{EndsByRefusal, NoneIsLacking};
ghost use Rattle.fax_call.specs.Silence.{NoCallHangs};
ghost use Rattle.fax_call.specs.Steps.{FttStepsTheRates};
ghost use Rattle.fax_call.specs.Tries.{ThreeTries};
ghost use Rattle.fax_call.specs.Writings.{PagesHaveTexts, TextsAreOne};
ghost use Rattle.fax_call.specs.Watching.{TellsWhatActs, TellsWhatIsDone};

/// Each image that is emitted to its end means, under the DCS given before it, a page of the job, its format included:
/// the first is page 0, the next page goes out only after an MCF or RTP that answers the command after the image, the
/// same page again only after such an RTN, and nothing without an answer.
pub fn emits_the_pages()
    ensures { EmitsThePages }
{}

/// The number of each image is fixed by what was given and heard.
pub fn numbers_are_fixed()
    ensures { NumbersAreFixed }
{}

/// A call that is over has an outcome and a count of pages: those whose images were answered with MCF or RTP until it was
/// over, one each, each emitted to its end before that answer. No answer is passed over and asked for again; the outcome
/// is Delivered exactly where they are all; and nothing is given after the end. (A tick within 2 s of the last moment,
/// 2^64 - 1 ms, may find a timer due and the pace not yet over: an answer that comes in that while may be passed over.)
pub fn tells_what_was_answered()
    ensures { TellsWhatWasAnswered }
{}

/// A job for which a DIS that is taken leaves no choice ends with that refusal, whatever comes.
pub fn ends_by_refusal()
    ensures { EndsByRefusal }
{}

/// Where a DIS is awaited in vain, the call ends with NoReply where one was accepted before in it, else with NoAnswer.
pub fn tells_why_it_gave_up()
    ensures { TellsWhyItGaveUp }
{}

/// No image is emitted of a page whose width or resolution the called machine lacks.
pub fn none_is_lacking()
    ensures { NoneIsLacking }
{}

/// There is a function that gives the text of each page: so what is told over one is told of something.
pub fn pages_have_texts()
    ensures { PagesHaveTexts }
{}

/// The text of a page is one.
pub fn texts_are_one()
    ensures { TextsAreOne }
{}

/// Each packet that is given can be read, and one of V.21 data ends at a boundary: who hears some of them hears no frame but
/// those that were given.
pub fn gives_closed_packets()
    ensures { GivesClosedPackets }
{}

/// Each DCS that is given in a call without EOM has the format of the job, and all of them have one coding.
pub fn gives_one_kind()
    ensures { GivesOneKind }
{}

/// Who hears all packets of a call, and no EOM among them, hears no DCS of another format or coding.
pub fn tells_one_kind()
    ensures { TellsOneKind }
{}

/// Each high-speed signal that a call gives to its end is a training check, or it means a page of the job under the DCS given
/// last before it.
pub fn gives_checks_and_pages()
    ensures { GivesChecksAndPages }
{}

/// A tick before the moment that is due gives nothing and changes nothing.
pub fn rests_before_it_is_due()
    ensures { RestsBefore }
{}

/// A tick at the moment that is due, or later, gives a packet or changes the call.
pub fn acts_from_when_it_is_due()
    ensures { ActsFrom }
{}

/// No line hangs for ever: a call in which nothing more is heard is over in time, whatever was heard before: after all that
/// waits, 40 seconds, and the time of 130 ticks.
pub fn no_call_hangs()
    ensures { NoCallHangs }
{}

/// The third RTN for a page ends the job, each before it leads to a training and the page again; and only so does a job end
/// as refused.
pub fn third_refusal_ends_the_job()
    ensures { ThirdRefusalEnds }
{}

/// Without an answer a training or a command is given at most three times: again where T4 is due and it was given fewer times,
/// and else the call ends with NoReply.
pub fn asks_three_times()
    ensures { ThreeTries }
{}

/// The DCS is that of the DIS taken last, at its first rate; each FTT leads to its next rate, and where none is left the job ends
/// with RatesSpent.
pub fn ftt_steps_the_rates()
    ensures { FttStepsTheRates }
{}

/// No timer acts before its time: where no packet waits, T1 is due 35 s from when a DIS is awaited, and T4 3 s from the packet
/// that was given last; a tick before that gives nothing and changes nothing.
pub fn no_timer_is_early()
    ensures { NoTimerIsEarly }
{}

/// Every call is over in time, whatever is heard in it: a page has 36 exchanges at most and T1 once, and then the call is closed.
pub fn every_call_ends()
    ensures { EveryCallEnds }
{}

/// Some time is enough for the text of each page of a job, under any DCS that is chosen for it: so the time of
/// `every_call_ends` is there for every job.
pub fn texts_have_a_longest()
    ensures { TextsHaveALongest }
{}

/// Of a piece at which nothing is told to be decided nothing comes: it changes nothing.
pub fn tells_what_is_done()
    ensures { TellsWhatIsDone }
{}

/// The timer that is told of a tick is the one that acts in it, and where none is told none does, in every state.
pub fn tells_what_acts()
    ensures { TellsWhatActs }
{}
