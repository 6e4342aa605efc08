//! Dialogs and sessions by hand: the moments are those of RFC 3261, 13.3.1.4 and 14.1, in milliseconds; the flows are those of RFC 3665; the intervals are of RFC 4028, 12.
use crate::messages::read;
use fax_dialogs::{
    Agent, Agreement, Dialog, DialogFault, Refresher, Role, Session, SessionAction, SessionEvent,
    SessionTimer, TimerAction, TimerEvent, Within, agree_on, glare_pause, longer_interval,
};
use fax_sip::{Field, Name};
use std::alloc::Global;

/// When something happens in a session, what that is, and what is to be done.
type Step = (u64, SessionEvent, SessionAction);

const TIME: SessionEvent = SessionEvent::TimePassed;

/// A 2xx that nobody acknowledges is sent again after pauses that double from 0.5 s to 4 s, and then the session ends.
const UNACKNOWLEDGED: &[Step] = &[
    (499, TIME, SessionAction::Nothing),
    (500, TIME, SessionAction::SendAgain),
    (1_499, TIME, SessionAction::Nothing),
    (1_500, TIME, SessionAction::SendAgain),
    (3_500, TIME, SessionAction::SendAgain),
    (7_499, TIME, SessionAction::Nothing),
    (7_500, TIME, SessionAction::SendAgain),
    (11_500, TIME, SessionAction::SendAgain),
    (15_500, TIME, SessionAction::SendAgain),
    (19_500, TIME, SessionAction::SendAgain),
    (23_500, TIME, SessionAction::SendAgain),
    (27_500, TIME, SessionAction::SendAgain),
    (31_500, TIME, SessionAction::SendAgain),
    (31_999, TIME, SessionAction::Nothing),
    (32_000, TIME, SessionAction::TellAndSendBye),
    (32_050, SessionEvent::ByeAnswered, SessionAction::Nothing),
];

/// RFC 3665, 3.1: INVITE, 200, ACK, and BYE of the called end; then what comes late.
const HUNG_UP: &[Step] = &[
    (
        0,
        SessionEvent::Answered(200, 0),
        SessionAction::TellAndAcknowledge,
    ),
    (500, SessionEvent::AnsweredAgain, SessionAction::Acknowledge),
    (9_000, SessionEvent::ByeCame, SessionAction::AnswerBye),
    (
        9_500,
        SessionEvent::AnsweredAgain,
        SessionAction::Acknowledge,
    ),
    (9_600, SessionEvent::InviteCame, SessionAction::Refuse(481)),
    (9_700, SessionEvent::HangUp, SessionAction::Nothing),
];

/// RFC 3665, 3.7: a re-INVITE of the calling end, accepted and acknowledged, ours after it, and the BYE of the calling end.
const CHANGED: &[Step] = &[
    (20, SessionEvent::AckCame, SessionAction::Nothing),
    (4_000, SessionEvent::InviteCame, SessionAction::TellInvite),
    (4_001, SessionEvent::Reinvite, SessionAction::Nothing),
    (4_002, SessionEvent::InviteCame, SessionAction::Refuse(500)),
    (4_010, SessionEvent::Answer(200), SessionAction::SendAnswer),
    (4_030, SessionEvent::AckCame, SessionAction::Nothing),
    (4_031, TIME, SessionAction::SendInvite),
    (
        4_050,
        SessionEvent::Answered(200, 0),
        SessionAction::TellAndAcknowledge,
    ),
    (8_000, SessionEvent::ByeCame, SessionAction::AnswerBye),
];

/// Glare (14.1): both ends send a re-INVITE, both refuse with 491, and who made the Call-ID waits longer.
const GLARE: &[Step] = &[
    (20, SessionEvent::AckCame, SessionAction::Nothing),
    (100, SessionEvent::Reinvite, SessionAction::SendInvite),
    (110, SessionEvent::InviteCame, SessionAction::Refuse(491)),
    (115, SessionEvent::Answer(200), SessionAction::Nothing),
    (
        120,
        SessionEvent::Answered(491, 870),
        SessionAction::Nothing,
    ),
    (989, TIME, SessionAction::Nothing),
    (990, TIME, SessionAction::SendInvite),
];

/// A re-INVITE that is refused is told; 481 and 408 end the session (12.2.1.2).
const REFUSED: &[Step] = &[
    (
        0,
        SessionEvent::Answered(200, 0),
        SessionAction::TellAndAcknowledge,
    ),
    (100, SessionEvent::Reinvite, SessionAction::SendInvite),
    (
        200,
        SessionEvent::Answered(488, 0),
        SessionAction::TellRefused(488),
    ),
    (210, SessionEvent::Reinvite, SessionAction::SendInvite),
    (
        300,
        SessionEvent::Answered(481, 0),
        SessionAction::TellAndSendBye,
    ),
    (310, SessionEvent::HangUp, SessionAction::Nothing),
    (32_300, TIME, SessionAction::Nothing),
];

/// The called end sends no BYE before the ACK (15), and its INVITE waits for it too.
const AWAITED: &[Step] = &[
    (5, SessionEvent::Reinvite, SessionAction::Nothing),
    (10, SessionEvent::HangUp, SessionAction::Nothing),
    (500, TIME, SessionAction::SendAgain),
    (600, SessionEvent::AckCame, SessionAction::SendBye),
    (610, SessionEvent::ByeCame, SessionAction::AnswerBye),
];

/// How a session begins that is ours, or the other end's.
fn begun(role: Role) -> Session {
    match role {
        Role::Caller => Session::of_caller(),
        Role::Answerer => Session::of_answerer(0),
    }
}

/// How many steps of a session go as they are to, whether it has ended then, and when something was due first and is last.
fn played(role: Role, steps: &[Step]) -> (usize, bool, [Option<u64>; 2]) {
    let mut session = begun(role);
    let first = session.next_due();
    let mut count = 0usize;
    for (now, event, action) in steps {
        if session.step(*now, *event) == *action {
            count = count.saturating_add(1);
        }
    }
    (
        count,
        session == Session::Ended,
        [first, session.next_due()],
    )
}

/// Whose sessions they are, whether they have ended then, and when something was due first and is last.
const SESSIONS: &[(Role, &[Step], bool, [Option<u64>; 2])] = &[
    (Role::Answerer, UNACKNOWLEDGED, true, [Some(500), None]),
    (Role::Caller, HUNG_UP, true, [None, None]),
    (Role::Answerer, CHANGED, true, [Some(500), None]),
    (Role::Answerer, GLARE, false, [Some(500), None]),
    (Role::Caller, REFUSED, true, [None, None]),
    (Role::Answerer, AWAITED, true, [Some(500), None]),
];

#[test]
fn sessions_go_by_the_standard(rt: HostRuntime) {
    for (role, steps, has_ended, due) in SESSIONS {
        assert!(rt; played(*role, steps) == (steps.len(), *has_ended, *due));
    }
}

/// The pause after glare of who made the Call-ID is 2.1 to 4 s, and of the other end at most 2 s, in steps of 10 ms (14.1).
const PAUSES: &[(Role, u64, u64)] = &[
    (Role::Caller, 0, 2_100),
    (Role::Caller, 190, 4_000),
    (Role::Answerer, 87, 870),
    (Role::Answerer, 200, 2_000),
    (Role::Answerer, 201, 0),
];

#[test]
fn glare_has_pauses(rt: HostRuntime) {
    for (role, random, pause) in PAUSES {
        assert!(rt; glare_pause(*role, *random) == *pause);
    }
}

/// RFC 3665, 3.1, F1 (over UDP): Alice's INVITE.
const ALICE: &[u8] = b"INVITE sip:bob@biloxi.example.com SIP/2.0\r\n\
Via: SIP/2.0/UDP client.atlanta.example.com:5060;branch=z9hG4bK74bf9\r\n\
Max-Forwards: 70\r\n\
From: Alice <sip:alice@atlanta.example.com>;tag=9fxced76sl\r\n\
To: Bob <sip:bob@biloxi.example.com>\r\n\
Call-ID: 3848276298220188511@atlanta.example.com\r\n\
CSeq: 1 INVITE\r\n\
Contact: <sip:alice@client.atlanta.example.com>\r\n\
Content-Length: 0\r\n\r\n";

/// F3: Bob's 200, over the proxies of RFC 3261, 16.12.1.1.
const BOB: &[u8] = b"SIP/2.0 200 OK\r\n\
Via: SIP/2.0/UDP client.atlanta.example.com:5060;branch=z9hG4bK74bf9;received=192.0.2.101\r\n\
Record-Route: <sip:p2.domain.com;lr>\r\n\
Record-Route: <sip:p1.example.com;lr>\r\n\
From: Alice <sip:alice@atlanta.example.com>;tag=9fxced76sl\r\n\
To: Bob <sip:bob@biloxi.example.com>;tag=8321234356\r\n\
Call-ID: 3848276298220188511@atlanta.example.com\r\n\
CSeq: 1 INVITE\r\n\
Contact: <sip:bob@client.biloxi.example.com>\r\n\
Content-Length: 0\r\n\r\n";

/// Alice's BYE within that dialog (16.12.1.1: each loose router in its turn).
const ALICE_BYE: &[u8] = b"BYE sip:bob@client.biloxi.example.com SIP/2.0\r\n\
Via: SIP/2.0/UDP client.atlanta.example.com;branch=z9hG4bKnashds\r\n\
Max-Forwards: 70\r\n\
From: <sip:alice@atlanta.example.com>;tag=9fxced76sl\r\n\
To: <sip:bob@biloxi.example.com>;tag=8321234356\r\n\
Call-ID: 3848276298220188511@atlanta.example.com\r\n\
CSeq: 2 BYE\r\n\
Route: <sip:p1.example.com;lr>,<sip:p2.domain.com;lr>\r\n\
Content-Length: 0\r\n\r\n";

/// An INVITE over the proxies of RFC 3261, 12.2.1.1, the first of which is a strict router.
const STRICT: &[u8] = b"INVITE sip:us@gw.example SIP/2.0\r\n\
v: SIP/2.0/UDP proxy1;branch=z9hG4bK1\r\n\
Record-Route: <sip:proxy1>, <sip:proxy2>,\r\n <sip:proxy3;lr>\r\n\
Record-Route: <sip:proxy4>\r\n\
f: sip:user@example.com;tag=from1\r\n\
t: <sip:us@gw.example>\r\n\
i: a84b4c76e66710\r\n\
CSeq: 314159 INVITE\r\n\
m: <sip:user@remoteua>\r\n\r\n";

/// Our OPTIONS within that dialog: as 12.2.1.1 has it.
const STRICT_OPTIONS: &[u8] = b"OPTIONS sip:proxy1 SIP/2.0\r\n\
Via: SIP/2.0/UDP gw.example;branch=z9hG4bK2\r\n\
Max-Forwards: 70\r\n\
From: <sip:us@gw.example>;tag=to1\r\n\
To: <sip:user@example.com>;tag=from1\r\n\
Call-ID: a84b4c76e66710\r\n\
CSeq: 1 OPTIONS\r\n\
Route: <sip:proxy2>,<sip:proxy3;lr>,<sip:proxy4>,<sip:user@remoteua>\r\n\
Allow: INVITE, ACK, BYE, CANCEL, OPTIONS\r\n\
Content-Length: 0\r\n\r\n";

/// Bob's re-INVITE, with a new address.
const BOB_AGAIN: &[u8] = b"INVITE sip:alice@client.atlanta.example.com SIP/2.0\r\n\
Via: SIP/2.0/UDP client.biloxi.example.com:5060;branch=z9hG4bKnashd7\r\n\
From: Bob <sip:bob@biloxi.example.com>;tag=8321234356\r\n\
To: Alice <sip:alice@atlanta.example.com>;tag=9fxced76sl\r\n\
Call-ID: 3848276298220188511@atlanta.example.com\r\n\
CSeq: 14 INVITE\r\n\
Contact: <sip:bob@192.0.2.204>\r\n\
Content-Length: 0\r\n\r\n";

/// A request without a body within a dialog.
fn written(
    alloc: Global,
    dialog: &mut Dialog,
    method: &[u8],
    sent_by: &[u8],
    branch: &[u8],
    fields: &[Field<'_>],
) -> Option<Vec<u8>> {
    let within = Within {
        method,
        number: dialog.take_number().ok()?,
        sent_by,
        branch,
        fields,
        body: b"",
    };
    dialog.write(alloc, &within).ok()
}

/// The dialog that Alice began and Bob answered.
fn of_caller() -> Option<Dialog> {
    Dialog::of_caller(&read(ALICE)?, &read(BOB)?).ok()
}

/// The dialog that STRICT begins.
fn of_answerer() -> Option<Dialog> {
    Dialog::of_answerer(&read(STRICT)?, b"to1").ok()
}

/// Whose a dialog is, whether a message is an answer within it, and whether it is a request there.
fn seen(dialog: &Dialog, octets: &[u8]) -> Option<(Role, bool, bool)> {
    let message = read(octets)?;
    let is_answer = dialog.is_answered_by(&message);
    Some((dialog.role(), is_answer, dialog.takes(&message)))
}

/// Alice's BYE within a dialog, of this branch.
fn bye_of(alloc: Global, dialog: &mut Dialog, branch: &[u8]) -> Option<Vec<u8>> {
    written(
        alloc,
        dialog,
        b"BYE",
        b"client.atlanta.example.com",
        branch,
        &[],
    )
}

/// Whether it is this one.
fn is_bye(alloc: Global, dialog: &mut Dialog) -> bool {
    match bye_of(alloc, dialog, b"z9hG4bKnashds") {
        Some(octets) => octets.as_slice() == ALICE_BYE,
        None => false,
    }
}

/// Whether it goes to Bob's new target.
fn goes_to_bob(alloc: Global, dialog: &mut Dialog) -> bool {
    match bye_of(alloc, dialog, b"z9hG4bKnashe1") {
        Some(octets) => octets
            .as_slice()
            .starts_with(b"BYE sip:bob@192.0.2.204 SIP/2.0\r\n"),
        None => false,
    }
}

/// Whether Bob's re-INVITE is heard within a dialog.
fn is_refreshed(dialog: &mut Dialog) -> bool {
    match read(BOB_AGAIN) {
        Some(again) => dialog.hear(14).is_ok() && dialog.refresh(&again).is_ok(),
        None => false,
    }
}

/// Whether Bob's 200 and his re-INVITE are within the caller's dialog, whose BYE follows the loose routers, and after that goes to his new
/// target.
fn goes_on(alloc: Global) -> Option<bool> {
    let mut dialog = of_caller()?;
    Some(
        seen(&dialog, BOB) == Some((Role::Caller, true, false))
            && is_bye(alloc, &mut dialog)
            && seen(&dialog, BOB_AGAIN) == Some((Role::Caller, false, true))
            && is_refreshed(&mut dialog)
            && goes_to_bob(alloc, &mut dialog),
    )
}

#[test]
fn a_caller_follows_loose_routers_and_a_new_target(rt: HostRuntime) {
    assert!(rt; goes_on(rt.alloc()) == Some(true));
}

/// Whether our OPTIONS within a dialog are these.
fn are_options(alloc: Global, dialog: &mut Dialog) -> bool {
    let allow = [Field {
        name: Name::Allow,
        value: b"INVITE, ACK, BYE, CANCEL, OPTIONS",
    }];
    match written(
        alloc,
        dialog,
        b"OPTIONS",
        b"gw.example",
        b"z9hG4bK2",
        &allow,
    ) {
        Some(octets) => octets.as_slice() == STRICT_OPTIONS,
        None => false,
    }
}

/// Whether the request that began an answerer's dialog is none within it, whose OPTIONS follow the strict router, and where numbers that
/// are not above the last one are low.
fn follows(alloc: Global) -> Option<bool> {
    let mut dialog = of_answerer()?;
    let low = Err(DialogFault::LowNumber);
    Some(
        seen(&dialog, STRICT) == Some((Role::Answerer, false, false))
            && are_options(alloc, &mut dialog)
            && dialog.hear(314_158) == low
            && dialog.hear(314_160) == Ok(())
            && dialog.hear(314_159) == low,
    )
}

#[test]
fn an_answerer_follows_a_strict_router(rt: HostRuntime) {
    assert!(rt; follows(rt.alloc()) == Some(true));
}

/// An interval, who asked to refresh, whether the other end takes timers, and what comes of it: RFC 4028, 12, where 50 s is too small
/// for a Min-SE of 3,600 s.
const AGREEMENTS: &[(u32, Option<Agent>, bool, Agreement)] = &[
    (50, None, true, Agreement::TooSmall),
    (50, None, false, Agreement::Without),
    (4_000, Some(Agent::Uac), true, Agreement::With(Agent::Uac)),
    (4_000, None, false, Agreement::With(Agent::Uas)),
];

/// How many of these are agreed on as they are to.
fn agreed() -> usize {
    let mut count = 0usize;
    for (seconds, asked, is_supported, agreement) in AGREEMENTS {
        if agree_on(*seconds, *asked, *is_supported) == *agreement {
            count = count.saturating_add(1);
        }
    }
    count
}

#[test]
fn intervals_are_agreed_on(rt: HostRuntime) {
    let refreshers = (Agent::Uac.refresher(true), Agent::Uas.refresher(true));
    assert!(rt;
        agreed() == AGREEMENTS.len()
            && longer_interval(50, 3_600) == 3_600
            && refreshers == (Refresher::We, Refresher::They)
    );
}

/// When something happens to a timer, what that is, what is to be done, and when something is due after it.
type TimerStep = (u64, TimerEvent, TimerAction, Option<u64>);

/// An interval of 4,000 s, which we refresh at its half.
const WE_REFRESH: &[TimerStep] = &[
    (
        1_000,
        TimerEvent::Agreed(4_000, Refresher::We),
        TimerAction::Nothing,
        Some(2_001_000),
    ),
    (
        2_000_999,
        TimerEvent::TimePassed,
        TimerAction::Nothing,
        Some(2_001_000),
    ),
    (
        2_001_000,
        TimerEvent::TimePassed,
        TimerAction::Refresh,
        Some(3_969_000),
    ),
    (
        2_002_000,
        TimerEvent::Agreed(4_000, Refresher::We),
        TimerAction::Nothing,
        Some(4_002_000),
    ),
];

/// RFC 4028, 10: a session of 90 s that the other end does not refresh ends a third of it before, one of 1,800 s after 1,768 s.
const THEY_REFRESH: &[TimerStep] = &[
    (
        0,
        TimerEvent::Agreed(90, Refresher::They),
        TimerAction::Nothing,
        Some(60_000),
    ),
    (
        59_999,
        TimerEvent::TimePassed,
        TimerAction::Nothing,
        Some(60_000),
    ),
    (60_000, TimerEvent::TimePassed, TimerAction::Expire, None),
    (60_001, TimerEvent::TimePassed, TimerAction::Nothing, None),
    (
        100_000,
        TimerEvent::Agreed(1_800, Refresher::They),
        TimerAction::Nothing,
        Some(1_868_000),
    ),
    (200_000, TimerEvent::NotAgreed, TimerAction::Nothing, None),
];

/// How many steps of a timer go as they are to.
fn timed(steps: &[TimerStep]) -> usize {
    let mut timer = SessionTimer::Off;
    let mut count = 0usize;
    for (now, event, action, due) in steps {
        let done = timer.step(*now, *event);
        if done == *action && timer.next_due() == *due {
            count = count.saturating_add(1);
        }
    }
    count
}

#[test]
fn sessions_are_refreshed(rt: HostRuntime) {
    assert!(rt; timed(WE_REFRESH) == WE_REFRESH.len() && timed(THEY_REFRESH) == THEY_REFRESH.len());
}
