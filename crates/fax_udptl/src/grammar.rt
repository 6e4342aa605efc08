//! The parts of a datagram, each read off the front of octets. (ITU-T T.38, UDPTL.)
ghost use Rattle.std.specs.Prelude.{ℕ, ◌≡◌, ◌<◌, ◌-◌, [], ◌∷◌, None, Some, OnOk, IfNone, IfSome, OnSome};
ghost use Rattle.fax_udptl.specs.Datagrams.{length_at, packet_at, packets_at};
ghost use Rattle.fax_udptl.specs.Reading.{Gives, packets_in, HasPackets};

use crate::fault::UdptlFault;

/// A length or a count, and the octets after it.
#[inline]
#[tactic(auto, unfolding(crate::specs::Datagrams::length_at))]
pub(crate) fn read_length(octets: &[u8]) -> Result<(u16, &[u8]), UdptlFault>
    ensures { Gives (λ n. (n.0, n.1.now)) result (length_at octets.now) }
{
    let (first, rest) = octets.split_first().ok_or(UdptlFault::Short)?;
    if *first < 128 {
        return Ok((u16::from(*first), rest));
    }
    if *first >= 192 {
        return Err(UdptlFault::BadLength);
    }
    let (low, rest) = rest.split_first().ok_or(UdptlFault::Short)?;
    Ok((256 * u16::from(*first - 128) + u16::from(*low), rest))
}

/// A packet, and the octets after it.
#[inline]
#[tactic(auto, unfolding(crate::specs::Datagrams::packet_at))]
pub(crate) fn read_packet(octets: &[u8]) -> Result<(&[u8], &[u8]), UdptlFault>
    ensures { Gives (λ p. (p.0.now, p.1.now)) result (packet_at octets.now) }
{
    let (length, rest) = read_length(octets)?;
    let length = usize::from(length);
    if length > rest.len() {
        return Err(UdptlFault::Short);
    }
    Ok(rest.split_at(length))
}

/// Whether so many packets stand in octets, and else the first fault.
pub(crate) fn check_packets(count: u16, octets: &[u8]) -> Result<(), UdptlFault>
    ensures stand { OnOk result (HasPackets count octets.now) }
    ensures gives { Gives (λ _. packets_in count octets.now) result (packets_at count octets.now) }
{
    let mut rest = octets;
    for _ in 0..count {
        let (_, after) = read_packet(rest)?;
        rest = after;
    }
    Ok(())
}

/// The first of so many packets that stand in octets, and the octets after it.
#[inline]
pub(crate) fn first_packet(left: u16, octets: &[u8]) -> Option<(&[u8], &[u8])>
    requires { HasPackets left octets.now }
    ensures none { IfNone result (packets_in left octets.now ≡ []) }
    ensures first { IfSome result (λ p.
        packets_in left octets.now ≡ p.0.now ∷ packets_in (left - 1) p.1.now) }
    ensures after { IfSome result (λ p. HasPackets (left - 1) p.1.now) }
    ensures left { OnSome result (0 < left) }
{
    if left == 0 {
        return None;
    }
    match read_packet(octets) {
        Ok(parts) => Some(parts),
        Err(_) => None,
    }
}
