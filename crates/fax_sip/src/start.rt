//! The first line of a message.
ghost use Rattle.std.specs.Prelude.{◌≡◌, option_map};
ghost use Rattle.fax_sip.specs.Starts.{answer_of, method_of as asked_by, request_of, start_of as start_in, start_text, status_of};

use crate::field::is_token;
use crate::mark::Mark;
use crate::text::{cut, number_of, same_text, same_word};

/// The first line of a message.
#[derive(Clone, Copy)]
pub enum Start<'a> {
    /// A request: its method, and its Request-URI.
    Request(&'a [u8], &'a [u8]),
    /// An answer: its status, 100 to 699.
    Answer(u16),
}

/// What a request asks.
#[derive(Clone, Copy, PartialEq, Eq)]
pub enum Method {
    /// `INVITE`.
    Invite,
    /// `ACK`.
    Ack,
    /// `BYE`.
    Bye,
    /// `CANCEL`.
    Cancel,
    /// `OPTIONS`.
    Options,
    /// `REGISTER`.
    Register,
    /// Another.
    Other,
}

impl Method {
    /// The method of a word, in its own case (RFC 3261, 7.1).
    pub fn of_word(word: &[u8]) -> Self
        ensures { result ≡ asked_by word.now }
    {
        if same_text(word, b"INVITE") {
            Method::Invite
        } else if same_text(word, b"ACK") {
            Method::Ack
        } else if same_text(word, b"BYE") {
            Method::Bye
        } else if same_text(word, b"CANCEL") {
            Method::Cancel
        } else if same_text(word, b"OPTIONS") {
            Method::Options
        } else if same_text(word, b"REGISTER") {
            Method::Register
        } else {
            Method::Other
        }
    }
}

/// What a first line says.
pub(crate) fn start_of(line: &[u8]) -> Option<Start<'_>>
    ensures { option_map start_text result ≡ start_in line.now }
{
    let (word, rest) = cut(line, Mark::Octet(b' '))?;
    if same_word(word, b"SIP/2.0") {
        answer_in(rest)
    } else {
        request_in(word, rest)
    }
}

/// A request of this method.
fn request_in<'a>(word: &'a [u8], rest: &'a [u8]) -> Option<Start<'a>>
    ensures { option_map start_text result ≡ request_of word.now rest.now }
{
    let (uri, version) = cut(rest, Mark::Octet(b' '))?;
    if is_token(word) && !uri.is_empty() && same_word(version, b"SIP/2.0") {
        Some(Start::Request(word, uri))
    } else {
        None
    }
}

/// An answer with what follows the version.
fn answer_in(rest: &[u8]) -> Option<Start<'_>>
    ensures { option_map start_text result ≡ answer_of rest.now }
{
    let (digits, _) = cut(rest, Mark::Octet(b' '))?;
    let status = status_in(digits)?;
    Some(Start::Answer(status))
}

/// The status of three digits.
fn status_in(digits: &[u8]) -> Option<u16>
    ensures { result ≡ status_of digits.now }
{
    if digits.len() != 3 {
        return None;
    }
    let number = number_of(digits)?;
    if number >= 100 && number < 700 {
        Some(number as u16)
    } else {
        None
    }
}
