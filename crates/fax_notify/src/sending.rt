//! A notice that is sent.
ghost use Rattle.std.specs.Prelude.{◌≡◌, OnOk, IfErr};
ghost use Rattle.fax_notify.specs.Addresses.{address_octets};
ghost use Rattle.fax_notify.specs.Messages.{message_octets};
ghost use Rattle.fax_notify.specs.Sendings.{IsCarried, Fails};

use crate::address::address_of;
use crate::carrier::Carrier;
use crate::message::message_of;
use crate::notice::Notice;
use std::alloc::{AllocError, Global};
use std::{fmt, io};

/// Why a notice was not sent.
#[derive(Debug, Drop)]
pub enum NoticeFault {
    /// The name is none of a socket.
    NoName,
    NoMemory,
    /// The system did not take it.
    Socket(io::Error),
}

/// Prints one line, without a line feed.
impl fmt::Display for NoticeFault {
    fn fmt<W: fmt::Write>(&self, f: &mut fmt::Formatter<W>) -> fmt::Result {
        match self {
            NoticeFault::NoName => f.write_str(
                "it begins neither with / nor with @, or has more than 107 octets",
            ),
            NoticeFault::NoMemory => f.write_str("memory was refused"),
            NoticeFault::Socket(error) => write!(f, "{error}"),
        }
    }
}

impl From<AllocError> for NoticeFault {
    ghost use Rattle.std.specs.Prelude.{◌≡◌};
    ghost use Rattle.fax_notify.specs.declared.sending.NoticeFault.TheVariants.{NoMemory};

    ghost from_gives = { λ _ fault. fault ≡ NoMemory };

    fn from(_: AllocError) -> Self {
        NoticeFault::NoMemory
    }
}

/// Sends a notice to the socket of this name, as one datagram.
pub fn send_notice<C: Carrier>(
    alloc: Global,
    carrier: &mut C,
    name: &str,
    notice: Notice,
) -> Result<(), NoticeFault>
    ensures ok { OnOk result (IsCarried (address_octets name.now)
        (message_octets notice) (C.carried carrier.old) (C.carried carrier.new)) }
    ensures fault { IfErr result (λ fault. Fails fault (address_octets name.now)
        (message_octets notice) (C.carried carrier.old) (C.carried carrier.new)) }
{
    let Some(address) = address_of(alloc, name)? else {
        return Err(NoticeFault::NoName);
    };
    let octets = message_of(alloc, notice)?;
    match carrier.carry(address.as_slice(), octets.as_slice()) {
        Ok(()) => Ok(()),
        Err(error) => Err(NoticeFault::Socket(error)),
    }
}
