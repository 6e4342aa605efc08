//! Answers, octet for octet.
use fax_http::{
    Answer, Connection, Content, Health, Refusal, Status, refusal, write_answer, write_health,
    write_open_metrics,
};
use std::alloc::{AllocError, Global};

/// `ok`, as a monitor reads it.
const WELL: &[u8] = b"HTTP/1.1 200 OK\r\n\
Content-Type: text/plain; charset=utf-8\r\n\
Content-Length: 3\r\n\
Cache-Control: no-store\r\n\
Connection: close\r\n\
X-Content-Type-Options: nosniff\r\n\
Content-Security-Policy: default-src 'none'; style-src 'unsafe-inline'; img-src 'self' data:\r\n\
\r\n\
ok\n";

/// A method that is not taken.
const NOT_ALLOWED: &[u8] = b"HTTP/1.1 405 Method Not Allowed\r\n\
Content-Type: text/plain; charset=utf-8\r\n\
Content-Length: 28\r\n\
Cache-Control: no-store\r\n\
Allow: GET, HEAD\r\n\
Connection: close\r\n\
X-Content-Type-Options: nosniff\r\n\
Content-Security-Policy: default-src 'none'; style-src 'unsafe-inline'; img-src 'self' data:\r\n\
\r\n\
only GET and HEAD are taken\n";

const OK: Answer<'static> = Answer {
    status: Status::Good,
    content: Content::Text,
    body: b"ok\n",
};

/// What comes, how many octets of the answer are written after it, how many are left then, and whether that is all.
const HEARD: &[(&[u8], usize, usize, bool)] = &[
    (b"", 0, 0, false),
    (
        b"HEAD /healthz HTTP/1.0\r\n\r\n",
        0,
        WELL.len() - OK.body.len(),
        false,
    ),
    (b"", 100, WELL.len() - OK.body.len() - 100, false),
    (b"", 1_000, 0, true),
];

/// Whether octets are written that are these.
fn are_octets(written: Result<Vec<u8>, AllocError>, wanted: &[u8]) -> bool {
    match written {
        Ok(octets) => octets.as_slice() == wanted,
        Err(_) => false,
    }
}

#[test]
fn answers_are_written(rt: HostRuntime) {
    for (answer, wanted) in [(OK, WELL), (refusal(Refusal::NotAllowed), NOT_ALLOWED)] {
        assert!(rt; are_octets(write_answer(rt.alloc(), &answer, true), wanted));
    }
}

/// Octets come, and what they ask is answered; so many octets of the answer are written.
fn step(connection: &mut Connection, heard: &[u8], written: usize) -> Result<(), AllocError> {
    connection.hear(heard)?;
    connection.answer(&OK)?;
    connection.wrote(written);
    Ok(())
}

/// What is left of the answer, and whether it is over, and asked for.
fn shown(connection: &Connection) -> (&[u8], bool, bool) {
    (
        connection.left(),
        connection.is_over(),
        connection.asked().is_some(),
    )
}

/// In how many steps what is to be left of the answer to HEAD is left.
fn left(alloc: Global) -> Option<usize> {
    let head = WELL.strip_suffix(OK.body)?;
    let mut connection = Connection::new(alloc);
    let mut count = 0usize;
    for (heard, written, left, is_over) in HEARD {
        step(&mut connection, heard, *written).ok()?;
        let rest = head.get(head.len().saturating_sub(*left)..)?;
        if shown(&connection) == (rest, *is_over, false) {
            count = count.saturating_add(1);
        }
    }
    Some(count)
}

#[test]
fn an_answer_to_head_has_no_body(rt: HostRuntime) {
    assert!(rt; left(rt.alloc()) == Some(HEARD.len()));
}

/// What is wrong, what is told of it, and the status.
const HEALTH: &[(Health, &[u8], Status)] = &[
    (
        Health {
            is_stopping: false,
            has_failed_disk: false,
            is_late: false,
        },
        b"ok\n",
        Status::Good,
    ),
    (
        Health {
            is_stopping: true,
            has_failed_disk: false,
            is_late: true,
        },
        b"it was told to stop\nturns are late\n",
        Status::NotWell,
    ),
];

#[test]
fn what_is_wrong_is_told(rt: HostRuntime) {
    for (health, text, status) in HEALTH {
        let is_told = are_octets(write_health(rt.alloc(), *health), text);
        assert!(rt; is_told && health.status() == *status);
    }
}

/// Counts, as they are told by a word, and as a monitor reads them (OpenMetrics 1.0.0, 5.1).
const COUNTS: &[u8] =
    b"# TYPE faxgate_lines gauge\nfaxgate_lines 2\n# TYPE faxgate_calls_total counter\nfaxgate_calls_total 7\n# EOF\n";

const OPEN: &[u8] =
    b"# TYPE faxgate_lines gauge\nfaxgate_lines 2\n# TYPE faxgate_calls counter\nfaxgate_calls_total 7\n# EOF\n";

#[test]
fn families_are_named_without_total(rt: HostRuntime) {
    assert!(rt; are_octets(write_open_metrics(rt.alloc(), COUNTS), OPEN));
}
