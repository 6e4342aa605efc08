//! Client transactions by hand: the moments are those of RFC 3261, 17.1.1.2 and 17.1.2.2, in milliseconds.
use fax_transactions::{ClientAction, ClientEvent, ClientInvite, ClientRequest};

/// When something happens, what that is, what is to be done, and when something is due after it.
type ClientStep = (u64, ClientEvent, ClientAction, Option<u64>);

const TIME: ClientEvent = ClientEvent::TimePassed;

const AGAIN: ClientAction = ClientAction::SendAgain;

/// An INVITE that nobody answers is sent again after 0.5, 1.5, 3.5, 7.5, 15.5 and 31.5 s.
const UNANSWERED_INVITE: &[ClientStep] = &[
    (499, TIME, ClientAction::Nothing, Some(500)),
    (500, TIME, AGAIN, Some(1_500)),
    (1_499, TIME, ClientAction::Nothing, Some(1_500)),
    (1_500, TIME, AGAIN, Some(3_500)),
    (3_500, TIME, AGAIN, Some(7_500)),
    (7_500, TIME, AGAIN, Some(15_500)),
    (15_500, TIME, AGAIN, Some(31_500)),
    (31_500, TIME, AGAIN, Some(32_000)),
    (32_000, TIME, ClientAction::TimedOut, None),
];

/// Each refusal is acknowledged.
const REFUSED_INVITE: &[ClientStep] = &[
    (
        200,
        ClientEvent::Answered(180),
        ClientAction::Tell(180),
        Some(90_000),
    ),
    (60_000, TIME, ClientAction::Nothing, Some(90_000)),
    (
        60_001,
        ClientEvent::Answered(486),
        ClientAction::TellAndAcknowledge(486),
        Some(92_001),
    ),
    (
        60_501,
        ClientEvent::Answered(486),
        ClientAction::AcknowledgeAgain,
        Some(92_001),
    ),
    (
        92_001,
        ClientEvent::Answered(486),
        ClientAction::Nothing,
        None,
    ),
];

/// Another request that nobody answers: the pause is 4 s at most.
const UNANSWERED_REQUEST: &[ClientStep] = &[
    (500, TIME, AGAIN, Some(1_500)),
    (1_500, TIME, AGAIN, Some(3_500)),
    (3_500, TIME, AGAIN, Some(7_500)),
    (7_500, TIME, AGAIN, Some(11_500)),
    (11_500, TIME, AGAIN, Some(15_500)),
    (15_500, TIME, AGAIN, Some(19_500)),
    (19_500, TIME, AGAIN, Some(23_500)),
    (23_500, TIME, AGAIN, Some(27_500)),
    (27_500, TIME, AGAIN, Some(31_500)),
    (31_500, TIME, AGAIN, Some(32_000)),
    (32_000, TIME, ClientAction::TimedOut, None),
];

/// How many steps of an INVITE go as they are to, and whether it is over then.
fn invited(steps: &[ClientStep]) -> (usize, bool) {
    let mut invite = ClientInvite::begin(0, 90_000);
    let mut count = 0usize;
    for (now, event, action, due) in steps {
        let done = invite.step(*now, *event);
        if done == *action && invite.next_due() == *due {
            count = count.saturating_add(1);
        }
    }
    (count, invite == ClientInvite::Terminated)
}

/// How many steps of another request do.
fn requested(steps: &[ClientStep]) -> usize {
    let mut request = ClientRequest::begin(0);
    let mut count = 0usize;
    for (now, event, action, due) in steps {
        let done = request.step(*now, *event);
        if done == *action && request.next_due() == *due {
            count = count.saturating_add(1);
        }
    }
    count
}

#[test]
fn requests_go_out(rt: HostRuntime) {
    assert!(rt;
        invited(UNANSWERED_INVITE) == (UNANSWERED_INVITE.len(), true)
            && invited(REFUSED_INVITE) == (REFUSED_INVITE.len(), true)
            && requested(UNANSWERED_REQUEST) == UNANSWERED_REQUEST.len()
    );
}
