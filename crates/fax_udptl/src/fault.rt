//! Why octets are no datagram.
ghost use Rattle.std.specs.Prelude.{◌≡◌};

use thiserror::Error;

/// Why octets are no datagram.
#[derive(Clone, Copy, PartialEq, Eq, Debug, Error)]
pub enum UdptlFault {
    /// The octets end inside the datagram.
    #[error("the end inside a datagram")]
    Short,
    /// A length or a count begins with the bits 11.
    #[error("a length of more than 14 bits")]
    BadLength,
}

impl UdptlFault {
    ghost use Rattle.fax_udptl.specs.FaultNumbers.{udptl_fault_number};

    /// The fault's number: 1 or 2.
    pub fn number(self) -> u8
        ensures { result ≡ udptl_fault_number self }
    {
        match self {
            UdptlFault::Short => 1,
            UdptlFault::BadLength => 2,
        }
    }
}
