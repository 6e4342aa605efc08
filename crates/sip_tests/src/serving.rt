//! Server transactions with their answers: the moments are those of RFC 3261, 17.2.1 and 17.2.2, in milliseconds.
use fax_transactions::{ServerAction, ServerEvent, Serving};
use std::alloc::Global;

/// When something happens and what that is, with the octets of an answer; what is to be done, the last answer then, and when something
/// is due.
type Step = (
    u64,
    ServerEvent,
    &'static [u8],
    ServerAction,
    &'static [u8],
    Option<u64>,
);

/// What an INVITE is answered at once, and then; and what comes too late.
const TRYING: &[u8] = b"SIP/2.0 100 Trying";

const BUSY: &[u8] = b"SIP/2.0 486 Busy Here";

const OK: &[u8] = b"SIP/2.0 200 OK";

const LATE: &[u8] = b"SIP/2.0 503 Service Unavailable";

/// An INVITE: a repeat gets the octets of the last answer, and a refusal is sent until its ACK.
const INVITE: &[Step] = &[
    (
        10,
        ServerEvent::Repeated,
        b"",
        ServerAction::SendAgain,
        TRYING,
        Some(90_000),
    ),
    (
        1_000,
        ServerEvent::Answered(486),
        BUSY,
        ServerAction::Send,
        BUSY,
        Some(1_500),
    ),
    (
        1_200,
        ServerEvent::Repeated,
        b"",
        ServerAction::SendAgain,
        BUSY,
        Some(1_500),
    ),
    (
        1_500,
        ServerEvent::TimePassed,
        b"",
        ServerAction::SendAgain,
        BUSY,
        Some(2_500),
    ),
    (
        1_600,
        ServerEvent::Answered(200),
        OK,
        ServerAction::Nothing,
        BUSY,
        Some(2_500),
    ),
    (
        1_700,
        ServerEvent::Acknowledged,
        b"",
        ServerAction::Nothing,
        BUSY,
        Some(6_700),
    ),
    (
        2_500,
        ServerEvent::TimePassed,
        b"",
        ServerAction::Nothing,
        BUSY,
        Some(6_700),
    ),
];

/// Another request is not answered before its user does, and is answered once.
const REQUEST: &[Step] = &[
    (
        5,
        ServerEvent::Repeated,
        b"",
        ServerAction::Nothing,
        b"",
        Some(90_000),
    ),
    (
        10,
        ServerEvent::Answered(200),
        OK,
        ServerAction::Send,
        OK,
        Some(32_010),
    ),
    (
        20,
        ServerEvent::Answered(503),
        LATE,
        ServerAction::Nothing,
        OK,
        Some(32_010),
    ),
    (
        510,
        ServerEvent::Repeated,
        b"",
        ServerAction::SendAgain,
        OK,
        Some(32_010),
    ),
    (
        32_010,
        ServerEvent::Repeated,
        b"",
        ServerAction::Nothing,
        OK,
        None,
    ),
];

/// What is to be done in a step.
fn done(
    alloc: Global,
    serving: &mut Serving,
    now: u64,
    event: ServerEvent,
    octets: &[u8],
) -> Option<ServerAction> {
    match event {
        ServerEvent::Answered(status) => {
            let octets = Vec::from_slice(alloc, octets).ok()?;
            Some(serving.answer(now, status, octets))
        }
        _ => Some(serving.hear(now, event)),
    }
}

/// How many steps go as they are to.
fn played(alloc: Global, mut serving: Serving, steps: &[Step]) -> usize {
    let mut count = 0usize;
    for (now, event, octets, action, last, due) in steps {
        let done = done(alloc, &mut serving, *now, *event, octets);
        if done == Some(*action) && serving.last_answer() == *last && serving.next_due() == *due {
            count = count.saturating_add(1);
        }
    }
    count
}

/// The same of an INVITE.
fn invited(alloc: Global) -> usize {
    match Vec::from_slice(alloc, TRYING) {
        Ok(trying) => played(alloc, Serving::of_invite(90_000, trying), INVITE),
        Err(_) => 0,
    }
}

/// The same of another request.
fn requested(alloc: Global) -> usize {
    played(alloc, Serving::of_request(90_000, alloc), REQUEST)
}

#[test]
fn requests_are_answered(rt: HostRuntime) {
    assert!(rt; invited(rt.alloc()) == INVITE.len() && requested(rt.alloc()) == REQUEST.len());
}
