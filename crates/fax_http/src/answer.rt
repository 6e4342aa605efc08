//! An answer, written.
ghost use Rattle.std.specs.Prelude.{◌≡◌, ◌++◌, IfOk, OnOk};
ghost use Rattle.fax_http.specs.Answers.{allowed, answer_octets, content_type, field, head_octets, keeping, refusal_text, status_line, status_of, status_text};

use crate::question::Refusal;
use crate::text::put;
use itoa::Buffer;
use std::alloc::{AllocError, Global};

/// What each answer says, and the empty line: the connection ends after it, its type is not guessed, and its page takes
/// nothing from elsewhere and runs nothing.
const LASTING: &[u8] = b"Connection: close\r\n\
X-Content-Type-Options: nosniff\r\n\
Content-Security-Policy: default-src 'none'; style-src 'unsafe-inline'; img-src 'self' data:\r\n\
\r\n";

/// How a request went (RFC 9110, 15; RFC 6585, 5).
#[derive(Clone, Copy)]
pub enum Status {
    /// 200: what was asked for is told.
    Good,
    /// 400: the request cannot be read.
    Unreadable,
    /// 404: nothing is there.
    NotFound,
    /// 405: its method is neither GET nor HEAD.
    NotAllowed,
    /// 431: its head is too long.
    TooLong,
    /// 503: the server is not well.
    NotWell,
}

impl Status {
    /// Its number, and what it means in words.
    fn text(self) -> &'static str
        ensures { result.now ≡ status_text self }
    {
        match self {
            Status::Good => "200 OK",
            Status::Unreadable => "400 Bad Request",
            Status::NotFound => "404 Not Found",
            Status::NotAllowed => "405 Method Not Allowed",
            Status::TooLong => "431 Request Header Fields Too Large",
            Status::NotWell => "503 Service Unavailable",
        }
    }

    /// The field that says which methods are taken, where another one was refused.
    fn allowed(self) -> &'static str
        ensures { result.now ≡ allowed self }
    {
        match self {
            Status::NotAllowed => "Allow: GET, HEAD\r\n",
            _ => "",
        }
    }
}

/// What a body is.
#[derive(Clone, Copy)]
pub enum Content {
    /// A page in HTML.
    Html,
    /// A text.
    Text,
    /// Counts, in OpenMetrics 1.0.0.
    OpenMetrics,
    /// A picture that never changes, as a PNG.
    Png,
}

impl Content {
    /// Its media type.
    fn name(self) -> &'static str
        ensures { result.now ≡ content_type self }
    {
        match self {
            Content::Html => "text/html; charset=utf-8",
            Content::Text => "text/plain; charset=utf-8",
            Content::OpenMetrics => "application/openmetrics-text; version=1.0.0; charset=utf-8",
            Content::Png => "image/png",
        }
    }

    /// Whether it may be kept, for how many seconds, and by whom (RFC 9111, 5.2.2).
    fn keeping(self) -> &'static str
        ensures { result.now ≡ keeping self }
    {
        match self {
            Content::Html | Content::Text | Content::OpenMetrics => "no-store",
            Content::Png => "private, max-age=600",
        }
    }
}

/// What a request is answered.
#[derive(Clone, Copy)]
pub struct Answer<'a> {
    pub status: Status,
    pub content: Content,
    /// The octets of what is told.
    pub body: &'a [u8],
}

/// What a request is answered that is refused.
pub fn refusal(why: Refusal) -> Answer<'static>
    ensures status { result.status ≡ status_of why }
    ensures content { result.content ≡ Content.Text }
    ensures body { result.body.now ≡ refusal_text why }
{
    let (status, body): (Status, &'static [u8]) = match why {
        Refusal::Unreadable => (Status::Unreadable, b"this request cannot be read\n"),
        Refusal::NotFound => (Status::NotFound, b"nothing is here\n"),
        Refusal::NotAllowed => (Status::NotAllowed, b"only GET and HEAD are taken\n"),
        Refusal::TooLong => (Status::TooLong, b"this request is too long\n"),
    };
    Answer {
        status,
        content: Content::Text,
        body,
    }
}

/// The octets of an answer (RFC 9112, 4): its status line, its fields, an empty line, and its body, where it is to have one.
pub fn write_answer(
    alloc: Global,
    answer: &Answer<'_>,
    has_body: bool,
) -> Result<Vec<u8>, AllocError>
    ensures { IfOk result (λ octets. octets.items ≡ answer_octets answer.now has_body) }
{
    let mut octets = Vec::new(alloc);
    put_head(
        &mut octets,
        answer.status,
        answer.content,
        answer.body.len(),
    )?;
    if has_body {
        put(&mut octets, answer.body)?;
    }
    Ok(octets)
}

/// Adds the same up to the empty line, where the body has so many octets.
fn put_head(
    octets: &mut Vec<u8>,
    status: Status,
    content: Content,
    length: usize,
) -> Result<(), AllocError>
    ensures { OnOk result (octets.new.items
        ≡ octets.old.items ++ head_octets status content length) }
{
    put_status(octets, status)?;
    put_field(octets, b"Content-Type", content.name())?;
    put_field(octets, b"Content-Length", Buffer::new().format(length))?;
    put_field(octets, b"Cache-Control", content.keeping())?;
    put(octets, status.allowed().as_bytes())?;
    put(octets, LASTING)
}

/// Adds the status line.
fn put_status(octets: &mut Vec<u8>, status: Status) -> Result<(), AllocError>
    ensures { OnOk result (octets.new.items ≡ octets.old.items ++ status_line status) }
{
    put(octets, b"HTTP/1.1 ")?;
    put(octets, status.text().as_bytes())?;
    put(octets, b"\r\n")
}

/// Adds a field.
fn put_field(octets: &mut Vec<u8>, name: &[u8], value: &str) -> Result<(), AllocError>
    ensures { OnOk result (octets.new.items ≡ octets.old.items ++ field name.now value.now) }
{
    put(octets, name)?;
    put(octets, b": ")?;
    put(octets, value.as_bytes())?;
    put(octets, b"\r\n")
}
