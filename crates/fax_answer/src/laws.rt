//! Laws of the answerer: functions that do nothing, each of whose contracts is a theorem. Each is told of every
//! call: from any core that is rung, through any pieces and ticks, where each image that is asked about was read rightly.
ghost use Rattle.fax_answer.specs.Confirmation.{GivesConfirmations, EachMcfAnswers};
ghost use Rattle.fax_answer.specs.Due.{ActsFrom, RestsBefore};
ghost use Rattle.fax_answer.specs.EachCommand.{JudgesEachCommand};
ghost use Rattle.fax_answer.specs.EachRtn.{EachRtnRefuses};
ghost use Rattle.fax_answer.specs.InPage.{BeginsInPage};
ghost use Rattle.fax_answer.specs.InTime.{GivesUpInTime, NoTimerIsEarly};
ghost use Rattle.fax_answer.specs.Judging.{RefusesNoPage, JudgesExactly};
ghost use Rattle.fax_answer.specs.Readings.{ReadingsJoin, CallsAreRead, QuestionsAreKnown, CallsGoOn};
ghost use Rattle.fax_answer.specs.Refusals.{ReasonsAreUnique};
ghost use Rattle.fax_answer.specs.Sent.{ConfirmsSignals, ConfirmsWhatItAccepted};
ghost use Rattle.fax_answer.specs.Silence.{LittleIsGiven, NoCallHangs};
ghost use Rattle.fax_answer.specs.Watching.{TellsTheHistory, TellsWhatActs};

/// Each tick that gives a confirmed page gives the MCF frame as its packet, at the last command that was answered: a
/// command after exactly one image since the last CFR or MCF, which is whole, with neither a missing slot nor a
/// signal since its end, and which means the page under the DCS that the last CFR answered.
pub fn gives_confirmations()
    ensures { GivesConfirmations }
{}

/// Each tick that gives the MCF frame gives a confirmed page, or answers the command again that was answered last, with
/// no image, no missing slot and no signal since.
pub fn each_mcf_answers()
    ensures { EachMcfAnswers }
{}

/// Where images came since the last CFR or MCF and the last of them means no page, a command is answered by RTN.
pub fn refuses_what_means_no_page()
    ensures { RefusesNoPage }
{}

/// One image with nothing after it is answered by RTN exactly where it means no page, and else by MCF for the page that
/// it means.
pub fn judges_exactly()
    ensures { JudgesExactly }
{}

/// Each command that is answered has the DCS that a CFR answered, and is judged by what the image before it means under that
/// DCS: by RTN where it means no page, and one image with nothing after it by RTN exactly there, and else by MCF.
pub fn judges_each_command()
    ensures { JudgesEachCommand }
{}

/// Each tick that gives the RTN frame refuses the last command, which was judged as each is: where one image had nothing after
/// it, the image means no page.
pub fn each_rtn_refuses()
    ensures { EachRtnRefuses }
{}

/// A command is refused for one reason at most, so that a tick that gives an RTN tells just this one.
pub fn reasons_are_unique()
    ensures { ReasonsAreUnique }
{}

/// One reading serves all pieces of a datagram.
pub fn readings_join()
    ensures { ReadingsJoin }
{}

/// Where a datagram's one reading is right, so is each reading of its pieces.
pub fn calls_are_read()
    ensures { CallsAreRead }
{}

/// Whatever is asked has a reading: each image means a page, or meets a fault.
pub fn questions_are_known()
    ensures { QuestionsAreKnown }
{}

/// A call goes on, whatever comes.
pub fn calls_go_on()
    ensures { CallsGoOn }
{}

/// Of the packets of one sender, some lost, each page for which MCF is given is what one image signal of the list means under
/// the DCS that the last CFR answered; the signals of later pages stand at later places, and no page is joined of two.
pub fn confirms_signals()
    ensures { ConfirmsSignals }
{}

/// The pages that ticks confirm are those for which MCF was decided, in their order, but for one that may wait.
pub fn confirms_what_it_accepted()
    ensures { ConfirmsWhatItAccepted }
{}

/// In Page all octets of the image under way came since the last CFR: an image that ends there began there, and its reader
/// is of the format and the coding of the DCS that this CFR answered.
pub fn begins_in_page()
    ensures { BeginsInPage }
{}

/// A tick before the moment that is due gives nothing and changes nothing.
pub fn rests_before_it_is_due()
    ensures { RestsBefore }
{}

/// A tick at the moment that is due, or later, gives a packet or changes the call.
pub fn acts_from_when_it_is_due()
    ensures { ActsFrom }
{}

/// No timer acts before its time: where no packet waits, T1 is due 35 s from when the called machine identifies itself, T4 3 s
/// from the packet that was given last, and T2 6 s from what was heard or given last; a tick before that gives nothing and
/// changes nothing.
pub fn no_timer_is_early()
    ensures { NoTimerIsEarly }
{}

/// A tick gives a call up, with a DCN, exactly where no packet waits and T1 is due in Identify, or T2 in Listen, Train or
/// Page.
pub fn gives_up_in_time()
    ensures { GivesUpInTime }
{}

/// No line hangs for ever: a call in which nothing more is heard is over in time, whatever was heard before: after all that
/// waits, the timers of its state, 9 seconds, and the time of five ticks.
pub fn no_call_hangs()
    ensures { NoCallHangs }
{}

/// However long nothing more is heard, little is given: what waits, and at most 26 packets more.
pub fn little_is_given()
    ensures { LittleIsGiven }
{}

/// What is told of the pieces of a datagram is what the history of the call has of them: each entry, but those of lost slots, in
/// their order, and nothing else.
pub fn tells_the_history()
    ensures { TellsTheHistory }
{}

/// The timer that is told of a tick is the one that acts in it, and where none is told none does, in every state.
pub fn tells_what_acts()
    ensures { TellsWhatActs }
{}
