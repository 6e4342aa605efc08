//! Why a datagram is no message.
use crate::name::Name;

/// Why a datagram is no SIP message, or none that is read.
#[derive(Clone, Copy, PartialEq, Eq, Debug)]
pub enum SipFault {
    /// More than 65,535 octets.
    TooLong,
    /// No empty line ends the header lines.
    NoEnd,
    /// The first line is neither a request's nor an answer's of SIP/2.0.
    BadStart,
    /// A line that is no name, a colon and a value.
    BadField,
    /// A header field that has to be there is not.
    Missing(Name),
    /// A header field that stands once stands more than once.
    Repeated(Name),
    /// `CSeq` is not a number below 2^31 and a method, or the method is not the request's.
    BadSequence,
    /// `Content-Length` is no number.
    BadLength,
    /// The body is shorter than `Content-Length` tells.
    ShortBody,
}
