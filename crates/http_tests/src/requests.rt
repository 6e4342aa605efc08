//! Requests as browsers, monitors and strangers send them.
use fax_http::{
    Connection, Question, Refusal, Resource, Wanted, picture_path, read_path, read_question,
};
use std::alloc::{AllocError, Global};

/// What a browser sends.
const BROWSER: &[u8] =
    b"GET / HTTP/1.1\r\nHost: 127.0.0.1:9464\r\nUser-Agent: Mozilla/5.0 (X11; Linux x86_64)\r\nAccept: text/html,*/*;q=0.8\r\nAccept-Language: de\r\n\r\n";

/// Heads that are whole, and octets that never become one; what they ask for, and whether the answer has a body.
const HEADS: &[(&[u8], Wanted, bool)] = &[
    (BROWSER, Wanted::Tell(Resource::Page), true),
    (
        b"GET /metrics HTTP/1.0\r\n\r\n",
        Wanted::Tell(Resource::Metrics),
        true,
    ),
    (
        b"GET /metrics?x=/healthz HTTP/1.1\r\nHost: a\r\n\r\n",
        Wanted::Tell(Resource::Metrics),
        true,
    ),
    (
        b"HEAD /healthz HTTP/1.1\r\nHost: a\r\n\r\n",
        Wanted::Tell(Resource::Health),
        false,
    ),
    (
        b"\r\nGET /healthz HTTP/1.1\nHost: a\n\n",
        Wanted::Tell(Resource::Health),
        true,
    ),
    (
        b"GET /undelivered/a%3C1%3E/12/9.png?x HTTP/1.1\r\nHost: a\r\n\r\n",
        Wanted::Tell(Resource::Picture),
        true,
    ),
    (
        b"GET /metrics/ HTTP/1.1\r\nHost: a\r\n\r\n",
        Wanted::Refuse(Refusal::NotFound),
        true,
    ),
    (
        b"GET //metrics HTTP/1.1\r\nHost: a\r\n\r\n",
        Wanted::Refuse(Refusal::NotFound),
        true,
    ),
    (
        b"HEAD /../etc/passwd HTTP/1.1\r\nHost: a\r\n\r\n",
        Wanted::Refuse(Refusal::NotFound),
        false,
    ),
    (
        b"POST / HTTP/1.1\r\nHost: a\r\nContent-Length: 2\r\n\r\nab",
        Wanted::Refuse(Refusal::NotAllowed),
        true,
    ),
    (
        b"get / HTTP/1.1\r\nHost: a\r\n\r\n",
        Wanted::Refuse(Refusal::NotAllowed),
        true,
    ),
    (
        b"GET / HTTP/2.0\r\n\r\n",
        Wanted::Refuse(Refusal::Unreadable),
        true,
    ),
    (b"GET /\r\n\r\n", Wanted::Refuse(Refusal::Unreadable), true),
    (
        b"\x16\x03\x01\x02\x00\x01\x00\x01\xfc\x03\x03",
        Wanted::Refuse(Refusal::Unreadable),
        true,
    ),
    (
        b"GET / HTTP/1.1\r\nHo st: a\r\n\r\n",
        Wanted::Refuse(Refusal::Unreadable),
        true,
    ),
    (
        b"GET / HTTP/1.1\r\nHost: a\x00b\r\n\r\n",
        Wanted::Refuse(Refusal::Unreadable),
        true,
    ),
];

/// A head that comes in pieces: what it begins with, what comes after it so many times, the octets of a piece at most, and with which
/// piece it asks, and what.
type InPieces = (&'static [u8], &'static [u8], usize, usize, usize, Wanted);

const IN_PIECES: &[InPieces] = &[
    // octet by octet
    (
        BROWSER,
        b"",
        0,
        1,
        BROWSER.len(),
        Wanted::Tell(Resource::Page),
    ),
    // of 8,192 octets
    (
        b"GET /",
        b"a",
        8192,
        4096,
        2,
        Wanted::Refuse(Refusal::TooLong),
    ),
    // of 65 fields
    (
        b"GET / HTTP/1.1\r\n",
        b"A: b\r\n",
        65,
        16,
        26,
        Wanted::Refuse(Refusal::TooLong),
    ),
];

#[test]
fn heads_ask_or_are_refused(rt: HostRuntime) {
    for (octets, wanted, has_body) in HEADS {
        assert!(rt;
            read_question(octets)
                == Some(Question {
                    wanted: *wanted,
                    has_body: *has_body
                })
        );
    }
}

/// The names of a call, and where its picture is (RFC 3986, 2.1 and 2.3).
const PATHS: &[(&[u8], u64, u32, &[u8])] = &[
    (b"a-1._~", 1, 0, b"/undelivered/a-1._~/1/0.png"),
    (
        b"a<1>/%\xc3\xa4",
        4_294_967_295,
        7,
        b"/undelivered/a%3C1%3E%2F%25%C3%A4/4294967295/7.png",
    ),
];

/// Whether the path of a whole head is told, and none of one that lacks its end.
fn is_path_told() -> bool {
    read_path(b"HEAD /a/b.png?x HTTP/1.0\r\n\r\n") == Some(b"/a/b.png".as_slice())
        && read_path(b"HEAD /a/b.png?x HTTP/1.0\r\n").is_none()
}

/// Whether this is the path of the picture of a call.
fn is_path(alloc: Global, line: &[u8], life: u64, call: u32, wanted: &[u8]) -> bool {
    match picture_path(alloc, line, life, call) {
        Ok(path) => path.as_bytes() == wanted,
        Err(_) => false,
    }
}

#[test]
fn pictures_have_paths(rt: HostRuntime) {
    let is_told = is_path_told();
    for (line, life, call, wanted) in PATHS {
        assert!(rt; is_told && is_path(rt.alloc(), line, *life, *call, wanted));
    }
}

/// A text, and another one after it so many times.
fn repeated(
    alloc: Global,
    first: &[u8],
    again: &[u8],
    times: usize,
) -> Result<Vec<u8>, AllocError> {
    let mut octets = Vec::from_slice(alloc, first)?;
    for _ in 0..times {
        octets.extend_from_slice(again)?;
    }
    Ok(octets)
}

/// With which piece of octets a new connection is asked, and what.
fn asked_in_pieces(
    alloc: Global,
    octets: &[u8],
    most: usize,
) -> Result<(usize, Option<Question>), AllocError> {
    let mut connection = Connection::new(alloc);
    let mut pieces = 0usize;
    for piece in octets.chunks(most.max(1)) {
        pieces = pieces.saturating_add(1);
        if connection.hear(piece)?.is_some() {
            break;
        }
    }
    Ok((pieces, connection.asked()))
}

/// The same of a head that comes in pieces.
fn asked_of(
    alloc: Global,
    (first, again, times, most, _, _): &InPieces,
) -> Result<(usize, Option<Question>), AllocError> {
    let octets = repeated(alloc, first, again, *times)?;
    asked_in_pieces(alloc, octets.as_slice(), *most)
}

#[test]
fn heads_come_in_pieces(rt: HostRuntime) {
    for head in IN_PIECES {
        let (_, _, _, _, pieces, wanted) = head;
        let question = Question {
            wanted: *wanted,
            has_body: true,
        };
        assert!(rt; asked_of(rt.alloc(), head) == Ok((*pieces, Some(question))));
    }
}
