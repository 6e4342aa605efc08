//! Why octets are no session description.

/// Why octets are no session description, or none that is read.
#[derive(Clone, Copy, PartialEq, Eq)]
pub enum SdpFault {
    /// More than 65,535 octets.
    TooLong,
    /// The octets are not UTF-8.
    NoText,
    /// The first line is not `v=0`.
    NoVersion,
    /// An `m=` line that is not a name, a port, a transport and formats.
    BadMedium,
    /// A `c=` line that is not `IN`, `IP4` or `IP6`, and an address.
    BadConnection,
    /// More than eight `m=` lines.
    TooManyMedia,
}
