//! What the other end of a call says.
use std::alloc::{AllocError, Global};

/// T.38 at the other end.
pub(super) const FAX: &str =
    "v=0\r\no=- 1 1 IN IP4 192.0.2.4\r\ns=-\r\nc=IN IP4 192.0.2.4\r\nt=0 0\r\nm=image 49172 udptl t38\r\n";

/// Audio there, in PCMA or PCMU.
pub(super) const AUDIO: &str =
    "v=0\r\no=- 1 1 IN IP4 192.0.2.4\r\ns=-\r\nc=IN IP4 192.0.2.4\r\nt=0 0\r\nm=audio 49170 RTP/AVP 8 0\r\n";

/// What it asks.
#[derive(Clone, Copy)]
pub(super) struct Asked<'a> {
    pub method: &'a str,
    /// The number that is called.
    pub number: &'a str,
    /// The end of its branch.
    pub branch: u32,
    pub sequence: u32,
    /// Whether it has the tag that stands in the last message.
    pub is_tagged: bool,
    /// Further header lines.
    pub more: &'a str,
    pub body: &'a str,
}

impl Asked<'_> {
    /// Its octets, where this was said last.
    pub(super) fn text(&self, alloc: Global, last: &str) -> Result<String, AllocError> {
        let Asked {
            method,
            number,
            branch,
            sequence,
            is_tagged,
            more,
            body,
        } = *self;
        let tag = if is_tagged { tag_in(last) } else { "" };
        let head = format!(in alloc;
            "{method} sip:{number}@192.0.2.1 SIP/2.0\r\nVia: SIP/2.0/UDP 192.0.2.4;branch=z9hG4bK{branch}\r\n"
        )?;
        let ends = format!(in alloc;
            "From: <sip:a@192.0.2.4>;tag=9f\r\nTo: <sip:{number}@192.0.2.1>{tag}\r\nCall-ID: 3848\r\n"
        )?;
        format!(in alloc;
            "{head}{ends}CSeq: {sequence} {method}\r\nContact: <sip:a@192.0.2.4:5062>\r\n{more}\r\n{body}"
        )
    }
}

/// What it answers to the last message.
#[derive(Clone, Copy)]
pub(super) struct Answered<'a> {
    /// The status, and what it says.
    pub status: &'a str,
    /// What it adds to `To`.
    pub tag: &'a str,
    /// Further header lines.
    pub more: &'a str,
    pub body: &'a str,
}

impl Answered<'_> {
    /// Its octets, where this was said last.
    pub(super) fn text(&self, alloc: Global, last: &str) -> Result<String, AllocError> {
        let Answered {
            status,
            tag,
            more,
            body,
        } = *self;
        let via = line_of(last, "Via:");
        let from = line_of(last, "From:");
        let to = line_of(last, "To:");
        let call = line_of(last, "Call-ID:");
        let sequence = line_of(last, "CSeq:");
        let head = format!(in alloc; "SIP/2.0 {status}\r\n{via}\r\n{from}\r\n{to}{tag}\r\n")?;
        format!(in alloc;
            "{head}{call}\r\n{sequence}\r\nContact: <sip:b@192.0.2.4:5064>\r\n{more}\r\n{body}"
        )
    }
}

/// The first line of a text that begins so.
fn line_of<'a>(text: &'a str, name: &str) -> &'a str {
    text.lines()
        .find(|line| line.starts_with(name))
        .unwrap_or("")
}

/// The tag of `To` in a message, with its semicolon.
fn tag_in(text: &str) -> &str {
    let to = line_of(text, "To:");
    match to.find(';') {
        Some(at) => &to[at..],
        None => "",
    }
}

/// The method of a request, or the status of an answer.
pub(super) fn head_of(text: &str) -> &str {
    match text.split_once(' ') {
        Some(("SIP/2.0", rest)) => match rest.split_once(' ') {
            Some((status, _)) => status,
            None => rest,
        },
        Some((method, _)) => method,
        None => text,
    }
}
