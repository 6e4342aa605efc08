//! Signals of both ends of a call, as T.38 has them.
ghost use Rattle.std.specs.Prelude.{◌≡◌};
ghost use Rattle.fax_udptl.specs.Datagrams.{datagram_of};
ghost use Rattle.fax_capture.specs.Signals.{is_alone, is_primary, seems_exchanged};

use crate::address::Role;

/// The packets of the indicators CNG, of who calls, and CED, of who answers (ITU-T T.38).
pub(crate) const CNG: u8 = 0x02;

pub(crate) const CED: u8 = 0x04;

/// Whether the caller answers a call with a datagram, or the called machine makes one.
pub(crate) fn seems_exchanged(role: Role, octets: &[u8]) -> bool
    ensures { result ≡ seems_exchanged role octets.now }
{
    match role {
        Role::FromCaller => is_primary(CED, octets),
        Role::FromCalled => is_primary(CNG, octets),
        _ => false,
    }
}

/// Whether the primary packet of a datagram is this octet alone.
pub(crate) fn is_primary(octet: u8, octets: &[u8]) -> bool
    ensures { result ≡ is_primary octet (datagram_of octets.now) }
{
    match fax_udptl::read(octets) {
        Ok(datagram) => is_alone(octet, datagram.primary()),
        Err(_) => false,
    }
}

/// Whether a packet is this octet alone.
fn is_alone(octet: u8, packet: &[u8]) -> bool
    ensures { result ≡ is_alone octet packet.now }
{
    match packet {
        [only] => *only == octet,
        _ => false,
    }
}
