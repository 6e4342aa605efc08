//! Why a text is no network.

/// Why a text is no network.
#[derive(Clone, Copy, PartialEq)]
pub enum NetworkFault {
    /// No slash.
    NoLength,
    /// What stands before the first slash is no IPv4 or IPv6 address (RFC 4291, 2.2).
    BadAddress,
    /// What stands after it is no number of digits alone, or one above 255.
    BadLength,
    /// The length is above 32 at an IPv4 address, or above 128.
    TooLong,
    /// A bit after the first ones is set.
    BitsBeyond,
}
