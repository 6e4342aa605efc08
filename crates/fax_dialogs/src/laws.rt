//! Laws of the definitions: functions that do nothing, each of whose contracts is a theorem. Each speaks of every list of happenings, at
//! whatever moments, in whatever order.
ghost use Rattle.fax_dialogs.specs.DialogLaws.{NumbersRise, OneTakesIt};
ghost use Rattle.fax_dialogs.specs.SessionLaws.{AckStopsRepeats, AnswersRepeatInTime, ByeIsSentOnce, EndIsSilent, GlareIsResolved, OursWaitForTheirs, RepeatsAreSent, SessionEnds, SessionRests, SuccessesAreAcknowledged, TheirsWaitForOurs};
ghost use Rattle.fax_dialogs.specs.TimerLaws.{EndIsToldOnce, RefreshIsDue, RefreshedOnce, TimerExpires, TimerRests};

/// The numbers of our requests within a dialog rise, and are below 2^31.
pub fn numbers_rise()
    ensures { NumbersRise }
{}

/// Two dialogs that take one request have the same name.
pub fn one_dialog_takes_a_request()
    ensures { OneTakesIt }
{}

/// After the end of a session nothing is sent but answers to what comes, and one BYE is sent at most.
pub fn an_end_is_silent()
    ensures silent { EndIsSilent }
    ensures once { ByeIsSentOnce }
{}

/// A session ends 64 T1 and 64 T1 after the user ended it, at the latest.
pub fn a_session_ends()
    ensures { SessionEnds }
{}

/// A 2xx to their INVITE is sent again after T1, 2 T1 and so on up to T2, until its ACK comes, and for 64 T1 at most.
pub fn a_success_is_repeated()
    ensures in_time { AnswersRepeatInTime }
    ensures sent { RepeatsAreSent }
    ensures stopped { AckStopsRepeats }
{}

/// Each 2xx to an INVITE of ours gets its ACK, and each repeat.
pub fn successes_are_acknowledged()
    ensures { SuccessesAreAcknowledged }
{}

/// Two INVITEs are never under way at once but where both ends sent theirs: then ours is pending, and theirs is refused.
pub fn invites_wait_for_each_other()
    ensures theirs { TheirsWaitForOurs }
    ensures ours { OursWaitForTheirs }
    ensures glare { GlareIsResolved }
{}

/// Before what is due next, time changes nothing in a session.
pub fn a_session_rests()
    ensures { SessionRests }
{}

/// A session that is not refreshed ends within its interval, and its end is told once.
pub fn a_session_expires()
    ensures within { TimerExpires }
    ensures once { EndIsToldOnce }
{}

/// We refresh a session that we are to refresh once in each interval, from half of it on.
pub fn a_session_is_refreshed_once()
    ensures once { RefreshedOnce }
    ensures due { RefreshIsDue }
{}

/// Before what is due next, time changes nothing in the timer of a session.
pub fn a_timer_rests()
    ensures { TimerRests }
{}
