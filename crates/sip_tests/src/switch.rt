//! Calls of the switch, event by event: the flows are those of RFC 3665 (3.1, 3.7, 3.8) and of T.38, annex D; the statuses and timers of RFC
//! 3261 (8.1.3, 13.3.1.4, 14.1), in milliseconds. The descriptions are facts of T.38, D.2.3, and of RFC 3551, 6.
use fax_switch::{
    AudioEnd, CallEvent, Choice, Coding, Description, Entry, Event, FaxEnd, LineAction, LineCall,
    Offer, SipAction, Switch, describe,
};
use std::alloc::Global;
use std::net::{IpAddr, Ipv4Addr, SocketAddr};

/// The call of a line, and the next one of that line.
const ON: LineCall = LineCall { line: 3, call: 7 };

const NEXT: LineCall = LineCall { line: 3, call: 8 };

/// What a body says: nothing, T.38 at an address of RFC 5737, or audio there.
#[derive(Clone, Copy)]
enum Body {
    Empty,
    Fax,
    Audio,
}

/// What happens to the first call, and to its line.
#[derive(Clone, Copy)]
enum Happening {
    Time,
    Came(Body),
    Rung,
    Dialled,
    NextDialled,
    Answered(u16, Body),
    Reinvited(Body),
    Acknowledged,
    ByeReceived,
    ByeDone,
    CallOver,
    JobOver,
}

/// When something happens, what that is, and what is to be sent and told to a line for the last call then.
type Step = (u64, Happening, &'static str, &'static str);

/// A call comes in with T.38.
const CAME_OVER_T38: &[Step] = &[
    (0, Happening::Came(Body::Fax), "", "ring any"),
    (0, Happening::Rung, "200 T.38", "peer"),
    (500, Happening::Time, "200 again", ""),
    (510, Happening::Acknowledged, "", ""),
    (
        9_000,
        Happening::Reinvited(Body::Fax),
        "200 T.38",
        "peer moved",
    ),
    (9_010, Happening::Acknowledged, "", ""),
    (40_000, Happening::CallOver, "BYE", ""),
    (40_020, Happening::ByeDone, "", ""),
    (40_040, Happening::Time, "none", ""),
];

/// A call comes in with audio.
const CAME_OVER_AUDIO: &[Step] = &[
    (0, Happening::Came(Body::Audio), "", "ring any"),
    (0, Happening::Rung, "200 audio", "audio"),
    (20, Happening::Acknowledged, "", ""),
    (40, Happening::Time, "re-INVITE", ""),
    (90, Happening::Answered(491, Body::Empty), "", ""),
    (2_189, Happening::Time, "", ""),
    (2_190, Happening::Time, "re-INVITE", ""),
    (
        2_250,
        Happening::Answered(488, Body::Empty),
        "BYE",
        "hangup",
    ),
];

/// A call goes out.
const WENT_OUT: &[Step] = &[
    (0, Happening::Dialled, "INVITE T.38", ""),
    (50, Happening::Answered(180, Body::Empty), "", ""),
    (
        60,
        Happening::Answered(488, Body::Empty),
        "INVITE audio",
        "",
    ),
    (9_000, Happening::Answered(200, Body::Audio), "ACK", "audio"),
    (12_999, Happening::Time, "", ""),
    (13_000, Happening::Time, "re-INVITE", ""),
    (13_050, Happening::Answered(200, Body::Fax), "ACK", "peer"),
    (50_000, Happening::ByeReceived, "200 to BYE", "hangup"),
    (50_001, Happening::JobOver, "none", ""),
];

/// A call goes out with audio, which they change before our re-INVITE is due: that one is not sent (RFC 3261, 14.1).
const CHANGED_BY_THEM: &[Step] = &[
    (0, Happening::Dialled, "INVITE T.38", ""),
    (
        60,
        Happening::Answered(488, Body::Empty),
        "INVITE audio",
        "",
    ),
    (9_000, Happening::Answered(200, Body::Audio), "ACK", "audio"),
    (12_000, Happening::Reinvited(Body::Fax), "200 T.38", "peer"),
    (12_010, Happening::Acknowledged, "", ""),
    (13_000, Happening::Time, "", ""),
    (50_000, Happening::Time, "", ""),
    (50_010, Happening::JobOver, "BYE", ""),
];

/// The same, where their re-INVITE with audio changes nothing, and ours meets one of theirs: they are to send theirs again, and ours,
/// which waits longer, is not sent any more.
const CHANGED_AFTER_GLARE: &[Step] = &[
    (0, Happening::Dialled, "INVITE T.38", ""),
    (
        60,
        Happening::Answered(488, Body::Empty),
        "INVITE audio",
        "",
    ),
    (9_000, Happening::Answered(200, Body::Audio), "ACK", "audio"),
    (
        11_000,
        Happening::Reinvited(Body::Audio),
        "200 audio",
        "audio",
    ),
    (11_010, Happening::Acknowledged, "", ""),
    (13_000, Happening::Time, "re-INVITE", ""),
    (13_010, Happening::Reinvited(Body::Fax), "refusal", ""),
    (13_050, Happening::Answered(491, Body::Empty), "", ""),
    (14_000, Happening::Reinvited(Body::Fax), "200 T.38", "peer"),
    (14_010, Happening::Acknowledged, "", ""),
    (15_150, Happening::Time, "", ""),
    (50_010, Happening::JobOver, "BYE", ""),
];

/// A late answer gives no peer.
const ANSWERED_LATE: &[Step] = &[
    (0, Happening::Dialled, "INVITE T.38", ""),
    (60_000, Happening::JobOver, "CANCEL", ""),
    (60_010, Happening::Answered(200, Body::Fax), "ACK, BYE", ""),
    (60_020, Happening::NextDialled, "", "refuse"),
    (60_030, Happening::Reinvited(Body::Fax), "refusal", ""),
    (92_010, Happening::Time, "", ""),
    (92_011, Happening::Time, "none", ""),
];

/// The address of a port.
fn address(port: u16) -> SocketAddr {
    SocketAddr::new(IpAddr::V4(Ipv4Addr::new(192, 0, 2, 4)), port)
}

/// What a body says.
fn described(body: Body) -> Description {
    match body {
        Body::Empty => Description::NothingSaid,
        Body::Fax => Description::FaxAt(FaxEnd {
            address: address(49_172),
            octets: Some(238),
        }),
        Body::Audio => Description::AudioAt(AudioEnd {
            address: address(49_170),
            coding: Coding::MuLaw,
        }),
    }
}

/// What happens in a call.
fn within(happening: Happening) -> CallEvent {
    match happening {
        Happening::Answered(status, body) => {
            CallEvent::InviteAnswered(status, 2_100, described(body))
        }
        Happening::Reinvited(body) => CallEvent::Reinvited(described(body)),
        Happening::Acknowledged => CallEvent::Acknowledged(Description::NothingSaid),
        Happening::ByeReceived => CallEvent::ByeReceived,
        _ => CallEvent::ByeDone,
    }
}

/// What happens.
fn event(happening: Happening) -> Event {
    match happening {
        Happening::Time => Event::Elapsed,
        Happening::Came(body) => Event::Came(0, described(body)),
        Happening::Rung => Event::Rung(0, ON),
        Happening::Dialled => Event::Dialled(ON, Choice::Routed(1, Offer::Fax)),
        Happening::NextDialled => Event::Dialled(NEXT, Choice::Unrouted),
        Happening::CallOver => Event::CallOver(ON),
        Happening::JobOver => Event::JobOver(ON),
        _ => Event::Within(0, within(happening)),
    }
}

/// What is to be sent, in words.
fn sip(action: SipAction) -> &'static str {
    match action {
        SipAction::Silence => "",
        SipAction::SendOffer(_, Offer::Fax) => "INVITE T.38",
        SipAction::SendOffer(_, Offer::Audio) => "INVITE audio",
        SipAction::Cancel => "CANCEL",
        SipAction::Accept(Offer::Fax) => "200 T.38",
        SipAction::Accept(Offer::Audio) => "200 audio",
        SipAction::AcceptAgain => "200 again",
        SipAction::Reject(_) => "refusal",
        SipAction::Ack => "ACK",
        SipAction::AckAndBye => "ACK, BYE",
        SipAction::InviteAgain => "re-INVITE",
        SipAction::Bye => "BYE",
        SipAction::ByeAndReject => "BYE, 487",
        SipAction::AcceptBye => "200 to BYE",
        SipAction::AcceptByeAndReject => "200 to BYE, 487",
    }
}

/// What a line is told, in words.
fn line(action: LineAction) -> &'static str {
    match action {
        LineAction::NoWord => "",
        LineAction::RingAny => "ring any",
        LineAction::Peer(_, _, false) => "peer",
        LineAction::Peer(_, _, true) => "peer moved",
        LineAction::AudioOn(_, _) => "audio",
        LineAction::AudioOff(_) => "silence",
        LineAction::RefuseCall(_, _) => "refuse",
        LineAction::HangUpLeg(_) => "hangup",
    }
}

/// What is to be sent for the last call, and told to a line, in words.
fn done_last(switch: &Switch) -> (&'static str, &'static str) {
    match switch.entries().last() {
        Some(entry) => (sip(entry.sip), line(entry.line)),
        None => ("none", ""),
    }
}

/// How many steps go as they are to.
fn played(alloc: Global, steps: &[Step]) -> usize {
    let mut switch = Switch::new(alloc, 2);
    let mut count = 0usize;
    for (now, happening, sent, told) in steps {
        let is_heard = switch.hear(*now, event(*happening)).is_ok();
        if is_heard && done_last(&switch) == (*sent, *told) {
            count = count.saturating_add(1);
        }
    }
    count
}

#[test]
fn calls_go_by_the_standards(rt: HostRuntime) {
    for steps in [
        CAME_OVER_T38,
        CAME_OVER_AUDIO,
        WENT_OUT,
        CHANGED_BY_THEM,
        CHANGED_AFTER_GLARE,
        ANSWERED_LATE,
    ] {
        assert!(rt; played(rt.alloc(), steps) == steps.len());
    }
}

/// The address and the bound of what is described, as numbers; the port alone of audio.
fn seen(body: &str) -> (&'static str, u16, u32) {
    match describe(body.as_bytes()) {
        Description::FaxAt(end) => ("fax", end.address.port(), end.octets.unwrap_or(0)),
        Description::AudioAt(end) => ("audio", end.address.port(), 0),
        Description::NothingSaid => ("nothing", 0, 0),
        Description::Unusable => ("unusable", 0, 0),
    }
}

/// Bodies, and what they describe.
const BODIES: &[(&str, (&str, u16, u32))] = &[
    ("", ("nothing", 0, 0)),
    (
        "v=0\r\no=- 1 1 IN IP4 192.0.2.4\r\ns=-\r\nc=IN IP4 192.0.2.4\r\nt=0 0\r\n",
        ("unusable", 0, 0),
    ),
    (
        "v=0\r\no=- 1 1 IN IP4 192.0.2.4\r\ns=-\r\nc=IN IP4 192.0.2.4\r\nt=0 0\r\nm=audio 49170 RTP/AVP 0\r\nm=image 49172 udptl t38\r\na=T38FaxMaxDatagram:238\r\n",
        ("fax", 49_172, 238),
    ),
    (
        "v=0\r\no=- 1 1 IN IP4 192.0.2.4\r\ns=-\r\nc=IN IP4 192.0.2.4\r\nt=0 0\r\nm=audio 49170 RTP/AVP 8 101\r\nm=image 0 udptl t38\r\n",
        ("audio", 49_170, 0),
    ),
];

#[test]
fn bodies_describe_media(rt: HostRuntime) {
    for (body, wanted) in BODIES {
        assert!(rt; seen(body) == *wanted, "{body}");
    }
}
