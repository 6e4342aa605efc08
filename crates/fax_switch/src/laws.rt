//! Laws of the definitions: functions that do nothing, each of whose contracts is a theorem.
ghost use Rattle.fax_switch.specs.SwitchLaws.{AnsweredCallsAreRung, CallsEnd, LegsHaveOneCall, OffersAreRouted, PeersAreOfTheirDials};

/// A page goes to the machine that was called: whatever happened, a called leg gets a peer only for the newest dial of its line whose
/// number a route takes and whose job is not over, by the dialog that this dial opened, where T.38 is described in what just came in it.
pub fn peers_are_of_their_dials()
    ensures { PeersAreOfTheirDials }
{}

/// An INVITE that opens a dialog for a leg goes over the route of the newest dial of its line.
pub fn offers_are_routed()
    ensures { OffersAreRouted }
{}

/// No two calls have one number, and no two hold one leg of a line, whatever happened.
pub fn legs_have_one_call()
    ensures { LegsHaveOneCall }
{}

/// 200 to an INVITE that calls goes out as a line was rung for it, and the call holds the leg that was rung.
pub fn answered_calls_are_rung()
    ensures { AnsweredCallsAreRung }
{}

/// A call ends 64 s after its line let go of it, at the latest, whatever comes.
pub fn calls_end()
    ensures { CallsEnd }
{}
