//! Calls, message by message: the flows are those of RFC 3665 (2.1, 3.1, 3.3, 3.7, 3.8) and of T.38, annex D; the statuses those of RFC 3261, 8.2 and 21.
use super::other_end::{AUDIO, Answered, Asked, FAX};
use super::playing::{Step, play};
use std::test::Fail;

/// An INVITE that calls.
const INVITE: Asked<'static> = Asked {
    method: "INVITE",
    number: "+4930123",
    branch: 1,
    sequence: 1,
    is_tagged: false,
    more: "",
    body: FAX,
};

/// Another request, with this method and branch.
fn other(method: &str, branch: u32, sequence: u32) -> Asked<'_> {
    Asked {
        method,
        branch,
        sequence,
        body: "",
        ..INVITE
    }
}

/// The ACK to our answer.
fn ack() -> Asked<'static> {
    Asked {
        is_tagged: true,
        ..other("ACK", 2, 1)
    }
}

/// An answer with nothing else in it.
fn plain<'a>(status: &'a str, tag: &'a str) -> Answered<'a> {
    Answered {
        status,
        tag,
        more: "",
        body: "",
    }
}

/// The same with this header line.
fn with<'a>(status: &'a str, more: &'a str) -> Answered<'a> {
    Answered {
        more,
        ..plain(status, ";tag=x")
    }
}

#[test]
fn a_call_comes_in_and_is_ended_by_us(rt: HostRuntime) -> Result<(), Fail> {
    let steps = [
        Step::Strange(INVITE),
        Step::Asked(INVITE),
        Step::Rung,
        Step::At(505),
        Step::Asked(ack()),
        Step::At(9_000),
        Step::CallOver,
        Step::Answered(plain("200 OK", "")),
        Step::At(50_000),
    ];
    let words = play(rt.alloc(), false, &steps)?;
    assert!(rt; words.as_str() == "stranger | 100 ring | 200 peer | 200 | | | BYE | | | over");
    Ok(())
}

#[test]
fn a_call_with_audio_ends_where_t38_is_refused(rt: HostRuntime) -> Result<(), Fail> {
    let invite = Asked {
        body: AUDIO,
        ..INVITE
    };
    let steps = [
        Step::Asked(invite),
        Step::Rung,
        Step::Asked(ack()),
        Step::At(600),
        Step::Answered(plain("488 Not Acceptable Here", "")),
    ];
    let words = play(rt.alloc(), false, &steps)?;
    assert!(rt; words.as_str() == "100 ring | 200 audio | | INVITE | ACK BYE hangup | on");
    Ok(())
}

#[test]
fn what_is_not_taken_is_refused(rt: HostRuntime) -> Result<(), Fail> {
    let interval = "Session-Expires: 60\r\nSupported: timer\r\n";
    let steps = [
        Step::Asked(Asked {
            number: "alice",
            ..INVITE
        }),
        Step::Asked(Asked {
            number: "+33123",
            branch: 2,
            ..INVITE
        }),
        Step::Asked(Asked {
            more: "Require: 100rel\r\n",
            branch: 3,
            ..INVITE
        }),
        Step::Asked(Asked {
            more: interval,
            branch: 4,
            ..INVITE
        }),
        Step::Asked(Asked {
            body: "v=0\r\n",
            branch: 5,
            ..INVITE
        }),
        Step::Asked(other("BYE", 6, 2)),
        Step::Asked(other("CANCEL", 7, 1)),
        Step::Asked(other("INFO", 8, 1)),
        Step::Asked(other("OPTIONS", 9, 1)),
    ];
    let words = play(rt.alloc(), false, &steps)?;
    assert!(rt; words.as_str() == "404 | 403 | 420 | 422 | 100 488 | 481 | 481 | 501 | 200 | on");
    Ok(())
}

#[test]
fn a_call_is_cancelled_while_a_line_is_asked_for(rt: HostRuntime) -> Result<(), Fail> {
    let steps = [
        Step::Asked(INVITE),
        Step::Asked(other("CANCEL", 1, 1)),
        Step::Rung,
    ];
    let words = play(rt.alloc(), false, &steps)?;
    assert!(rt; words.as_str() == "100 ring | 200 487 | hangup | on");
    Ok(())
}

#[test]
fn a_call_is_placed_with_credentials(rt: HostRuntime) -> Result<(), Fail> {
    let challenge = "Proxy-Authenticate: Digest realm=\"t\", nonce=\"abc\", qop=\"auth\"\r\n";
    let steps = [
        Step::Dialled,
        Step::Answered(with("407 Proxy Authentication Required", challenge)),
        Step::Answered(Answered {
            body: FAX,
            ..plain("200 OK", ";tag=y")
        }),
        Step::JobOver,
    ];
    let words = play(rt.alloc(), false, &steps)?;
    assert!(rt; words.as_str() == "INVITE | ACK INVITE | ACK peer | BYE | on");
    Ok(())
}

#[test]
fn a_call_that_rings_too_long_is_given_up(rt: HostRuntime) -> Result<(), Fail> {
    let steps = [
        Step::Dialled,
        Step::Answered(plain("180 Ringing", ";tag=y")),
        Step::At(90_000),
        Step::Answered(plain("487 Request Terminated", ";tag=y")),
    ];
    let words = play(rt.alloc(), false, &steps)?;
    assert!(rt; words.as_str() == "INVITE | | CANCEL | ACK refuse | on");
    Ok(())
}

#[test]
fn a_registration_is_granted_with_credentials(rt: HostRuntime) -> Result<(), Fail> {
    let challenge = "WWW-Authenticate: Digest realm=\"t\", nonce=\"abc\", qop=\"auth\"\r\n";
    let steps = [
        Step::At(0),
        Step::Answered(with("401 Unauthorized", challenge)),
        Step::Answered(with("200 OK", "Expires: 600\r\n")),
    ];
    let words = play(rt.alloc(), true, &steps)?;
    assert!(rt; words.as_str() == "REGISTER | REGISTER | registered | on");
    Ok(())
}
