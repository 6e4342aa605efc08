//! SIP messages by hand, of the forms that RFC 3261 allows and RFC 4475 warns of.
use fax_sip::{
    Field, Message, Method, Name, Party, Reply, Request, SipFault, Start, WriteFault, credential,
    parameter, read_message, read_via, unquoted, uri_of, user_of, write_answer, write_request,
};
use std::alloc::Global;

/// An INVITE with compact and long names in any case, lines that go on in the next, hops in one line and in several, escapes and
/// brackets in a quoted string, white space round colons and slashes, and octets after its body.
const TORTUOUS: &[u8] = b"INVITE sip:+4930123@gw.example;user=phone SIP/2.0\r\n\
v: SIP / 2.0 / UDP 192.0.2.2 ;branch=z9hG4bK390, SIP/2.0/UDP 192.0.2.3:5070;branch=z9hG4bK391\r\n\
TO :\r\n sip:+4930123@gw.example ;  tag = 19\r\n\
f: \"J. \\\"R\\\" <x;tag=no>\" <sip:jr@example.com;tag=no>\r\n\t;tag=98asjd8\r\n\
i: 0ha0isnda\r\n\
cseq: 0009\r\n INVITE\r\n\
Via: SIP/2.0/UDP 192.0.2.4;branch=z9hG4bK392\r\n\
l: 3\r\n\r\nabcdef";

/// What it is answered.
const BUSY: &[u8] = b"SIP/2.0 486 Busy Here\r\n\
Via: SIP / 2.0 / UDP 192.0.2.2 ;branch=z9hG4bK390, SIP/2.0/UDP 192.0.2.3:5070;branch=z9hG4bK391\r\n\
Via: SIP/2.0/UDP 192.0.2.4;branch=z9hG4bK392\r\n\
From: \"J. \\\"R\\\" <x;tag=no>\" <sip:jr@example.com;tag=no>\r\n\t;tag=98asjd8\r\n\
To: sip:+4930123@gw.example ;  tag = 19\r\n\
Call-ID: 0ha0isnda\r\n\
CSeq: 0009\r\n INVITE\r\n\
Retry-After: 5\r\n\
Content-Length: 0\r\n\r\n";

/// A request that begins no dialog yet, over a proxy that wants to stay in one.
const OPTIONS: &[u8] = b"OPTIONS sip:gw.example SIP/2.0\r\n\
Via: SIP/2.0/UDP 198.51.100.7;branch=z9hG4bKq1\r\n\
Record-Route: <sip:198.51.100.7;lr>\r\n\
From: <sip:probe@example.net>;tag=1\r\n\
To: <sip:gw.example>\r\n\
Call-ID: c1\r\n\
CSeq: 63104 OPTIONS\r\n\
Max-Forwards: 69\r\n\r\n";

/// What it is answered: `To` with our tag, and the route.
const OPTIONS_OK: &[u8] = b"SIP/2.0 200 OK\r\n\
Via: SIP/2.0/UDP 198.51.100.7;branch=z9hG4bKq1\r\n\
From: <sip:probe@example.net>;tag=1\r\n\
To: <sip:gw.example>;tag=9f3\r\n\
Call-ID: c1\r\n\
CSeq: 63104 OPTIONS\r\n\
Record-Route: <sip:198.51.100.7;lr>\r\n\
Content-Length: 5\r\n\r\nv=0\r\n";

/// A challenge to a registration, with two addresses in one line, commas and a semicolon inside of quoted strings and of brackets.
const CHALLENGE: &[u8] = b"SIP/2.0 401 \r\n\
Via: SIP/2.0/UDP gw.example:5070;branch=z9hG4bK77\r\n\
From: <sip:fax@example.org>;tag=a7\r\n\
To: sip:fax@example.org;tag=b8\r\n\
Call-ID: 7b@gw.example\r\n\
CSeq: 2147483647 REGISTER\r\n\
m: \"Fax, room 3\" <sips:3%2C0@gw.example;transport=udp,x> ;q=0.7; expires=3600,\r\n <mailto:fax@example.org>;Q=0.1\r\n\
CONTACT: sip:gw.example;lr\r\n\
WWW-Authenticate: Digest realm=\"a, b\",\r\n\tqop=\"auth\", NONCE = \"f84f1c\", opaque=\"\", stale=FALSE\r\n\r\n";

/// Messages that are none, and why.
const FAULTS: &[(&[u8], SipFault)] = &[
    (b"BYE sip:a SIP/2.0\r\n", SipFault::NoEnd),
    (b"BYE sip:a SIP/7.0\r\nx: 1\r\n\r\n", SipFault::BadStart),
    (b"BYE sip:a SIP/2.0\r\nno colon\r\n\r\n", SipFault::BadField),
    (
        b"BYE sip:a SIP/2.0\r\nt: a\r\n\r\n",
        SipFault::Missing(Name::Via),
    ),
    (
        b"BYE sip:a SIP/2.0\r\nv: b\r\nf: a\r\nt: a\r\ni: 1\r\nCall-ID: 1\r\n\r\n",
        SipFault::Repeated(Name::CallId),
    ),
    (
        b"BYE sip:a SIP/2.0\r\nv: b\r\nf: a\r\nt: a\r\ni: 1\r\nCSeq: 1 INVITE\r\n\r\n",
        SipFault::BadSequence,
    ),
    (
        b"SIP/2.0 200 OK\r\nv: b\r\nf: a\r\nt: a\r\ni: 1\r\nCSeq: 1 BYE\r\nl: 9\r\n\r\nbody",
        SipFault::ShortBody,
    ),
];

/// A request that opens a dialog, with the header lines of RFC 3261, 8.1.1.
const INVITE: &[u8] = b"INVITE sip:+4930123@gw.example SIP/2.0\r\n\
Via: SIP/2.0/UDP 192.0.2.1:5080;branch=z9hG4bK7a\r\n\
Max-Forwards: 70\r\n\
From: <sip:fax@192.0.2.1>;tag=83f\r\n\
To: <sip:+4930123@gw.example>\r\n\
Call-ID: 5@192.0.2.1\r\n\
CSeq: 1 INVITE\r\n\
Contact: <sip:fax@192.0.2.1:5080>\r\n\
Content-Length: 5\r\n\r\nv=0\r\n";

/// Elements of a field, their addresses, and the users of these: RFC 3261, 19.1.3, has some of them.
const ADDRESSES: &[(&[u8], &[u8], Option<&[u8]>)] = &[
    (
        b"\"Fax, room 3\" <sips:3%2C0@gw.example;transport=udp,x> ;q=0.7; expires=3600",
        b"sips:3%2C0@gw.example;transport=udp,x",
        Some(b"3%2C0"),
    ),
    (
        b"<mailto:fax@example.org>;Q=0.1",
        b"mailto:fax@example.org",
        None,
    ),
    (b"sip:gw.example;lr", b"sip:gw.example", None),
    (
        b"sip:alice@atlanta.com",
        b"sip:alice@atlanta.com",
        Some(b"alice"),
    ),
    (
        b"<sip:alice:secretword@atlanta.com;transport=tcp>",
        b"sip:alice:secretword@atlanta.com;transport=tcp",
        Some(b"alice"),
    ),
    (
        b"<sip:+1-212-555-1212:1234@gateway.com;user=phone>",
        b"sip:+1-212-555-1212:1234@gateway.com;user=phone",
        Some(b"+1-212-555-1212"),
    ),
    (
        b"<sip:1212;ext=3:4@gateway.com>",
        b"sip:1212;ext=3:4@gateway.com",
        Some(b"1212"),
    ),
];

/// Names in full, as RFC 3261 (20) and RFC 4028 (4, 5) write them.
const NAMES: &[(Name, &str)] = &[
    (Name::Via, "Via"),
    (Name::CallId, "Call-ID"),
    (Name::CSeq, "CSeq"),
    (Name::MaxForwards, "Max-Forwards"),
    (Name::WwwAuthenticate, "WWW-Authenticate"),
    (Name::SessionExpires, "Session-Expires"),
    (Name::MinSe, "Min-SE"),
];

/// What a message says: what is asked for, of whom, or the status; its number, the tags of its two ends, and its body.
type Said = (
    Option<Method>,
    Option<&'static [u8]>,
    u16,
    u32,
    Option<&'static [u8]>,
    Option<&'static [u8]>,
    &'static [u8],
);

/// Messages, and what they say.
const SAID: &[(&[u8], Said)] = &[
    (
        TORTUOUS,
        (
            Some(Method::Invite),
            Some(b"+4930123"),
            0,
            9,
            Some(b"98asjd8"),
            Some(b"19"),
            b"abc",
        ),
    ),
    (
        BUSY,
        (None, None, 486, 9, Some(b"98asjd8"), Some(b"19"), b""),
    ),
    (
        INVITE,
        (
            Some(Method::Invite),
            Some(b"+4930123"),
            0,
            1,
            Some(b"83f"),
            None,
            b"v=0\r\n",
        ),
    ),
    (
        CHALLENGE,
        (
            None,
            None,
            401,
            2_147_483_647,
            Some(b"a7"),
            Some(b"b8"),
            b"",
        ),
    ),
];

/// Fields of messages of three elements, and a parameter of each of these.
const PARAMETERS: &[(&[u8], Name, &str, &[Option<&[u8]>])] = &[
    (
        TORTUOUS,
        Name::Via,
        "branch",
        &[
            Some(b"z9hG4bK390"),
            Some(b"z9hG4bK391"),
            Some(b"z9hG4bK392"),
        ],
    ),
    (
        CHALLENGE,
        Name::Contact,
        "expires",
        &[Some(b"3600"), None, None],
    ),
    (
        CHALLENGE,
        Name::Contact,
        "q",
        &[Some(b"0.7"), Some(b"0.1"), None],
    ),
    (CHALLENGE, Name::Contact, "lr", &[None, None, Some(b"")]),
];

/// Parts of the challenge, as they stand there.
const CREDENTIALS: &[(&str, Option<&[u8]>)] = &[
    ("realm", Some(b"\"a, b\"")),
    ("nonce", Some(b"\"f84f1c\"")),
    ("stale", Some(b"FALSE")),
    ("domain", None),
];

/// What is answered that is fine.
const FINE: Reply<'static> = Reply {
    status: 200,
    reason: "OK",
    tag: "9f3",
    fields: &[],
    body: b"v=0\r\n",
};

/// Header lines that nobody writes: one that goes on in another one, and one that the writer writes itself.
const SPLIT: &[Field<'static>] = &[Field {
    name: Name::Contact,
    value: b"<sip:a>\r\nRecord-Route: <sip:evil.example;lr>",
}];

const OWN: &[Field<'static>] = &[Field {
    name: Name::ContentLength,
    value: b"0",
}];

/// Requests, what they are answered, and the octets of that, or why it is not written. One without a tag gets one.
const ANSWERS: &[(&[u8], Reply<'static>, Result<&[u8], WriteFault>)] = &[
    (
        TORTUOUS,
        Reply {
            status: 486,
            reason: "Busy Here",
            tag: "x",
            fields: &[Field {
                name: Name::RetryAfter,
                value: b"5",
            }],
            body: b"",
        },
        Ok(BUSY),
    ),
    (OPTIONS, FINE, Ok(OPTIONS_OK)),
    (
        OPTIONS,
        Reply {
            fields: SPLIT,
            ..FINE
        },
        Err(WriteFault::BadField(Name::Contact)),
    ),
    (
        OPTIONS,
        Reply {
            fields: OWN,
            ..FINE
        },
        Err(WriteFault::BadField(Name::ContentLength)),
    ),
    (
        OPTIONS,
        Reply {
            reason: "OK\r\nx: y",
            ..FINE
        },
        Err(WriteFault::BadReason),
    ),
    (
        OPTIONS,
        Reply {
            tag: "9f3\r\nx: y",
            ..FINE
        },
        Err(WriteFault::BadTag),
    ),
];

/// The request whose octets are [`INVITE`].
const ASKED: Request<'static> = Request {
    method: b"INVITE",
    uri: b"sip:+4930123@gw.example",
    sent_by: b"192.0.2.1:5080",
    branch: b"z9hG4bK7a",
    from: Party {
        uri: b"sip:fax@192.0.2.1",
        tag: Some(b"83f"),
    },
    to: Party {
        uri: b"sip:+4930123@gw.example",
        tag: None,
    },
    call_id: b"5@192.0.2.1",
    number: 1,
    fields: &[Field {
        name: Name::Contact,
        value: b"<sip:fax@192.0.2.1:5080>",
    }],
    body: b"v=0\r\n",
};

/// Requests, and their octets, or why they are not written.
const REQUESTS: &[(Request<'static>, Result<&[u8], WriteFault>)] = &[
    (ASKED, Ok(INVITE)),
    (
        Request {
            fields: SPLIT,
            ..ASKED
        },
        Err(WriteFault::BadField(Name::Contact)),
    ),
    (
        Request {
            from: Party {
                uri: b"sip:a>\r\nx: y",
                tag: Some(b"83f"),
            },
            ..ASKED
        },
        Err(WriteFault::BadAddress),
    ),
];

/// A message.
pub(crate) fn read(octets: &[u8]) -> Option<Message<'_>> {
    read_message(octets).ok()
}

/// A parameter of a field or of an element of one.
fn parameter_of<'a>(value: &'a [u8], name: &str) -> Option<&'a [u8]> {
    parameter(value, name)
}

/// What a message says.
fn said(octets: &'static [u8]) -> Option<Said> {
    let message = read(octets)?;
    let (method, user, status) = match message.start {
        Start::Request(word, uri) => (Some(Method::of_word(word)), user_of(uri), 0),
        Start::Answer(status) => (None, None, status),
    };
    let (from, to) = (
        parameter_of(message.from, "tag"),
        parameter_of(message.to, "tag"),
    );
    Some((
        method,
        user,
        status,
        message.sequence.number,
        from,
        to,
        message.body,
    ))
}

#[test]
fn messages_are_read(rt: HostRuntime) {
    for (octets, wanted) in SAID {
        assert!(rt; said(octets) == Some(*wanted));
    }
}

/// A parameter of the first elements of a field, and how many these are.
fn parameters_of<'a>(
    message: &Message<'a>,
    name: Name,
    parameter: &str,
) -> ([Option<&'a [u8]>; 3], usize) {
    let mut found = [None, None, None];
    let mut count = 0usize;
    for element in message.elements(name) {
        if let Some(place) = found.get_mut(count) {
            *place = parameter_of(element, parameter);
        }
        count = count.saturating_add(1);
    }
    (found, count)
}

/// How many lines a field has.
fn lines_of(message: &Message<'_>, name: Name) -> usize {
    let mut count = 0usize;
    for _ in message.values(name) {
        count = count.saturating_add(1);
    }
    count
}

/// The transport and the host of a hop.
fn hop(value: &[u8]) -> Option<(&[u8], &[u8])> {
    let via = read_via(value)?;
    Some((via.transport, via.sent_by))
}

/// How many lines the field of the challenge has that tells addresses.
fn contact_lines() -> Option<usize> {
    Some(lines_of(&read(CHALLENGE)?, Name::Contact))
}

/// Whether a field of a message has three elements, and these parameters.
fn is_taken_apart(octets: &[u8], name: Name, parameter: &str, wanted: &[Option<&[u8]>]) -> bool {
    let Some(message) = read(octets) else {
        return false;
    };
    let (found, count) = parameters_of(&message, name, parameter);
    found.as_slice() == wanted && count == 3
}

#[test]
fn fields_are_taken_apart(rt: HostRuntime) {
    for (octets, name, parameter, wanted) in PARAMETERS {
        assert!(rt;
            is_taken_apart(octets, *name, parameter, wanted),
            "{parameter}"
        );
    }
    let (transport, sent_by): (&[u8], &[u8]) = (b"UDP", b"192.0.2.2");
    let hop = hop(b"SIP / 2.0 / UDP 192.0.2.2 ;branch=z9hG4bK390");
    assert!(rt; contact_lines() == Some(2) && hop == Some((transport, sent_by)));
}

/// The address of an element of a field, and its user.
fn address_of(value: &[u8]) -> (&[u8], Option<&[u8]>) {
    let uri = uri_of(value);
    (uri, user_of(uri))
}

#[test]
fn addresses_and_their_users_are_told(rt: HostRuntime) {
    for (value, uri, user) in ADDRESSES {
        assert!(rt; address_of(value) == (*uri, *user));
    }
}

/// Part of the challenge, as it stands there.
fn credential_of(name: &str) -> Option<&'static [u8]> {
    credential(read(CHALLENGE)?.value(Name::WwwAuthenticate)?, name)
}

#[test]
fn a_challenge_is_taken_apart(rt: HostRuntime) {
    let is_unquoted = unquoted(b"\"a, b\"") == b"a, b".as_slice();
    for (name, wanted) in CREDENTIALS {
        assert!(rt; is_unquoted && credential_of(name) == *wanted, "{name}");
    }
}

/// Why octets are no message.
fn fault_of(octets: &[u8]) -> Option<SipFault> {
    read_message(octets).err()
}

#[test]
fn what_is_no_message_is_refused_by_name(rt: HostRuntime) {
    for (octets, fault) in FAULTS {
        assert!(rt; fault_of(octets) == Some(*fault));
    }
}

#[test]
fn names_are_those_of_the_standard(rt: HostRuntime) {
    for (name, text) in NAMES {
        assert!(rt; name.long() == *text);
    }
}

/// Whether these octets are written, or nothing for this reason.
fn is_written(written: Result<Vec<u8>, WriteFault>, wanted: &Result<&[u8], WriteFault>) -> bool {
    match (written, wanted) {
        (Ok(octets), Ok(wanted)) => octets.as_slice() == *wanted,
        (Err(fault), Err(wanted)) => fault == *wanted,
        _ => false,
    }
}

/// The answer to a request.
fn answered(
    alloc: Global,
    request: &Message<'_>,
    reply: &Reply<'_>,
) -> Result<Vec<u8>, WriteFault> {
    write_answer(alloc, request, reply)
}

/// A request.
fn requested(alloc: Global, request: &Request<'_>) -> Result<Vec<u8>, WriteFault> {
    write_request(alloc, request)
}

/// Whether a request is answered so.
fn is_answered(
    alloc: Global,
    octets: &[u8],
    reply: &Reply<'_>,
    wanted: &Result<&[u8], WriteFault>,
) -> bool {
    match read(octets) {
        Some(request) => is_written(answered(alloc, &request, reply), wanted),
        None => false,
    }
}

#[test]
fn requests_are_answered(rt: HostRuntime) {
    for (request, reply, wanted) in ANSWERS {
        assert!(rt; is_answered(rt.alloc(), request, reply, wanted));
    }
}

#[test]
fn requests_are_written(rt: HostRuntime) {
    for (request, wanted) in REQUESTS {
        assert!(rt; is_written(requested(rt.alloc(), request), wanted));
    }
}

/// A branch, as a request of RFC 2543 has one.
const OLD: &[u8] =
    b"BYE sip:a SIP/2.0\r\nVia: SIP/2.0/UDP 192.0.2.9;branch=1\r\nf: a;tag=1\r\nt: b;tag=2\r\ni: 1\r\nCSeq: 2 BYE\r\n\r\n";

/// The ACK of a refusal of [`INVITE`], with its branch in other letters (RFC 3261, 17.1.1.3).
const ACK: &[u8] = b"ACK sip:+4930123@gw.example SIP/2.0\r\n\
Via: SIP/2.0/UDP 192.0.2.1:5080;branch=Z9HG4BK7A\r\n\
From: <sip:fax@192.0.2.1>;tag=83f\r\n\
To: <sip:+4930123@gw.example>;tag=9f3\r\n\
Call-ID: 5@192.0.2.1\r\n\
CSeq: 1 ACK\r\n\r\n";

/// Messages, one after another, and whether the transaction of the first takes the second as a request, and as an answer (RFC 3261, 17.2.3
/// and 17.1.3: the branch and the method are the same).
const MATCHES: &[(&[u8], &[u8], bool, bool)] = &[
    (INVITE, INVITE, true, true),
    (INVITE, ACK, true, false),
    (INVITE, OPTIONS, false, false),
    (ACK, INVITE, false, false),
    (OLD, OLD, false, true),
];

/// Whether the transaction of a message takes another one as a request, and as an answer.
fn matched(one: &[u8], other: &[u8]) -> Option<(bool, bool)> {
    let (one, other) = (read(one)?.key()?, read(other)?.key()?);
    Some((one.takes(&other), one.is_answered_by(&other)))
}

#[test]
fn messages_find_their_transactions(rt: HostRuntime) {
    for (one, other, takes, is_answered) in MATCHES {
        assert!(rt; matched(one, other) == Some((*takes, *is_answered)));
    }
}
