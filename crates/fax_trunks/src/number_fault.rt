//! Why octets are no number.

/// Why octets are no number.
#[derive(Clone, Copy, PartialEq, Debug)]
pub enum NumberFault {
    /// The address has no user, or is not a `sip` or `sips` address.
    NoUser,
    /// More than 32 octets.
    TooLong,
    /// Nothing, or a `+` alone.
    NoDigits,
    /// An octet that is no digit, but for a `+` in front. Visual separators (RFC 3966, 5.1.1) are among them.
    NotADigit,
}
