//! Laws of the definitions: functions that do nothing, each of whose contracts is a theorem. Each speaks of every list of happenings, at
//! whatever moments, in whatever order.
ghost use Rattle.fax_transactions.specs.ClientInviteLaws.{InviteEnds, InviteIsSentApart, InviteRests, InviteTellsOnce, NothingElseIsAcknowledged, RefusalsAreAcknowledged};
ghost use Rattle.fax_transactions.specs.ClientRequestLaws.{RequestEnds, RequestIsSentApart, RequestRests, RequestTellsOnce};
ghost use Rattle.fax_transactions.specs.ServerLaws.{InviteEnds as ServedInviteEnds, InviteIsAnsweredOnce, InviteRepeatsAreAnswered, InviteRests as ServedInviteRests, RequestEnds as ServedRequestEnds, RequestIsAnsweredOnce, RequestRepeatsAreAnswered, RequestRests as ServedRequestRests};

/// The client transaction of an INVITE ends: after 64 T1 or the limit, whichever is later, and Timer D.
pub fn an_invite_ends()
    ensures { InviteEnds }
{}

/// The user of the client transaction of an INVITE is told one outcome, or still waits for it.
pub fn an_invite_tells_once()
    ensures { InviteTellsOnce }
{}

/// An INVITE is sent again at least T1 after the first time, and each time at least twice the pause before.
pub fn an_invite_is_sent_apart()
    ensures { InviteIsSentApart }
{}

/// Each refusal of an INVITE that comes while its transaction is on gets an ACK, and nothing else does.
pub fn refusals_are_acknowledged()
    ensures each { RefusalsAreAcknowledged }
    ensures alone { NothingElseIsAcknowledged }
{}

/// Before what is due next, time changes nothing in the client transaction of an INVITE.
pub fn an_invite_rests()
    ensures { InviteRests }
{}

/// The client transaction of another request ends: after 64 T1, and Timer K.
pub fn a_request_ends()
    ensures { RequestEnds }
{}

/// The user of the client transaction of another request is told one outcome, or still waits for it.
pub fn a_request_tells_once()
    ensures { RequestTellsOnce }
{}

/// A request is sent again at least T1 after the first time, and each time at least twice the pause before, or T2.
pub fn a_request_is_sent_apart()
    ensures { RequestIsSentApart }
{}

/// Before what is due next, time changes nothing in the client transaction of another request.
pub fn a_request_rests()
    ensures { RequestRests }
{}

/// The server transaction of an INVITE ends: after the limit, 64 T1, and Timer I.
pub fn a_served_invite_ends()
    ensures { ServedInviteEnds }
{}

/// The server transaction of another request ends: after the limit, and Timer J.
pub fn a_served_request_ends()
    ensures { ServedRequestEnds }
{}

/// After a final answer nothing else that the user answers is sent.
pub fn requests_are_answered_once()
    ensures invite { InviteIsAnsweredOnce }
    ensures request { RequestIsAnsweredOnce }
{}

/// A repeat of a request gets the last answer again, where there is one and no ACK came.
pub fn repeats_are_answered()
    ensures invite { InviteRepeatsAreAnswered }
    ensures request { RequestRepeatsAreAnswered }
{}

/// Before what is due next, time changes nothing in a server transaction.
pub fn a_served_request_rests()
    ensures invite { ServedInviteRests }
    ensures request { ServedRequestRests }
{}
