//! A message, and how its octets are read.
ghost use Rattle.std.specs.Prelude.{◌≡◌, Some, option_map};
ghost use Rattle.fax_sip.specs.Fields.{Gives};
ghost use Rattle.fax_sip.specs.Messages.{agrees as methods_agree, begun, body_of as body_in, bounded, checked, fielded, message_of, message_text, sequence_for, sequence_of as numbered, sequence_text, started};
ghost use Rattle.fax_sip.specs.Starts.{start_of as start_in, start_text};
ghost use Rattle.fax_sip.specs.Texts.{lines_of, number as number_in};

use crate::fault::SipFault;
use crate::field::{are_fields, at_least_one, at_most_one, is_token, single};
use crate::mark::Mark;
use crate::name::Name;
use crate::start::{Start, start_of};
use crate::text::{cut, first_line, number_of, same_text, trimmed};

/// The most octets of a message.
pub const MOST_OCTETS: usize = 65_535;

/// The number of a request in its dialog, and its method.
#[derive(Clone, Copy)]
pub struct Sequence<'a> {
    /// Below 2^31.
    pub number: u32,
    /// Its method.
    pub method: &'a [u8],
}

/// A SIP message: a request or an answer, borrowed from its octets.
#[derive(Clone, Copy)]
pub struct Message<'a> {
    /// Its first line.
    pub start: Start<'a>,
    /// Its header lines.
    pub(crate) lines: &'a [u8],
    /// The value of `From`.
    pub from: &'a [u8],
    /// The value of `To`.
    pub to: &'a [u8],
    /// The value of `Call-ID`.
    pub call_id: &'a [u8],
    /// The value of `CSeq`.
    pub sequence: Sequence<'a>,
    /// Its body, as long as `Content-Length` tells; all that follows the header lines where it tells nothing.
    pub body: &'a [u8],
}

/// The message that octets are (RFC 3261, 7), or why they are none. `Via`, `From`, `To`, `Call-ID` and `CSeq` have to be there.
pub fn read_message(octets: &[u8]) -> Result<Message<'_>, SipFault>
    ensures { Gives message_text result (message_of octets.now) }
{
    if octets.len() > MOST_OCTETS {
        return Err(SipFault::TooLong);
    }
    match cut(octets, Mark::HeadEnd) {
        Some((head, body)) => read_head(head, body),
        None => Err(SipFault::NoEnd),
    }
}

/// The message of what stands before the empty line, and after it.
fn read_head<'a>(head: &'a [u8], body: &'a [u8]) -> Result<Message<'a>, SipFault>
    ensures { Gives message_text result (begun (lines_of head.now) body.now) }
{
    match first_line(head) {
        Some((line, lines)) => read_start(line, lines, body),
        None => Err(SipFault::BadStart),
    }
}

/// The message of a first line, the header lines and what follows them.
fn read_start<'a>(line: &'a [u8], lines: &'a [u8], body: &'a [u8]) -> Result<Message<'a>, SipFault>
    ensures { Gives message_text
        result (started (lines_of lines.now) body.now (start_in line.now)) }
{
    match start_of(line) {
        Some(start) => read_lines(start, lines, body),
        None => Err(SipFault::BadStart),
    }
}

/// The message of header lines that may be none.
fn read_lines<'a>(
    start: Start<'a>,
    lines: &'a [u8],
    body: &'a [u8],
) -> Result<Message<'a>, SipFault>
    ensures { Gives message_text result (checked (start_text start.entry)
        (lines_of lines.now) body.now) }
{
    if are_fields(lines) {
        read_fields(start, lines, body)
    } else {
        Err(SipFault::BadField)
    }
}

/// The message of header lines.
#[tactic(auto, unfolding(crate::specs::Messages::fielded))]
fn read_fields<'a>(
    start: Start<'a>,
    lines: &'a [u8],
    body: &'a [u8],
) -> Result<Message<'a>, SipFault>
    ensures { Gives message_text result (fielded (start_text start.entry)
        (lines_of lines.now) body.now) }
{
    at_least_one(lines, Name::Via)?;
    let from = single(lines, Name::From)?;
    let to = single(lines, Name::To)?;
    let call_id = single(lines, Name::CallId)?;
    let sequence = sequence_of(single(lines, Name::CSeq)?, start)?;
    let body = body_of(at_most_one(lines, Name::ContentLength)?, body)?;
    Ok(Message {
        start,
        lines,
        from,
        to,
        call_id,
        sequence,
        body,
    })
}

/// The number and the method of `CSeq`, which a request has again.
fn sequence_of<'a>(value: &'a [u8], start: Start<'a>) -> Result<Sequence<'a>, SipFault>
    ensures { Gives sequence_text result (sequence_for (start_text start.entry) value.now) }
{
    match sequence_in(value) {
        Some(sequence) => {
            if agrees(start, sequence.method) {
                Ok(sequence)
            } else {
                Err(SipFault::BadSequence)
            }
        }
        None => Err(SipFault::BadSequence),
    }
}

/// The number and the method of a text.
fn sequence_in(value: &[u8]) -> Option<Sequence<'_>>
    ensures { option_map sequence_text result ≡ numbered value.now }
{
    let (digits, rest) = cut(value, Mark::Blank)?;
    let number = number_of(digits)?;
    let method = trimmed(rest);
    if number < 0x8000_0000 && is_token(method) {
        Some(Sequence { number, method })
    } else {
        None
    }
}

/// Whether a request has this method; an answer may have any.
fn agrees(start: Start<'_>, method: &[u8]) -> bool
    ensures { result ≡ methods_agree (start_text start.entry) method.now }
{
    match start {
        Start::Request(word, _) => same_text(word, method),
        Start::Answer(_) => true,
    }
}

/// The body of what follows the header lines, and of what `Content-Length` tells.
fn body_of<'a>(length: Option<&[u8]>, body: &'a [u8]) -> Result<&'a [u8], SipFault>
    ensures { Gives (λ body.
        body.now) result (body_in (option_map (λ length. length.now) length.entry) body.now) }
{
    match length {
        Some(digits) => cut_body(digits, body),
        None => Ok(body),
    }
}

/// A body of the length that is told.
fn cut_body<'a>(digits: &[u8], body: &'a [u8]) -> Result<&'a [u8], SipFault>
    ensures { Gives (λ body. body.now) result (bounded (number_in digits.now) body.now) }
{
    match number_of(digits) {
        Some(number) => {
            let length = number as usize;
            if length > body.len() {
                Err(SipFault::ShortBody)
            } else {
                Ok(&body[..length])
            }
        }
        None => Err(SipFault::BadLength),
    }
}
