//! Where a UDP datagram, or a fragment of one, stands in a packet.
ghost use Rattle.std.specs.Prelude.{◌≡◌, ◌+◌, ◌≤◌};
ghost use Rattle.fax_capture.specs.pcap.Fields.{Gives};
ghost use Rattle.fax_capture.specs.pcap.Frames.{untagged, protocol_at, after_header, family_at, loopback_at, frame_at};

use crate::pcap::fields::{ByteOrder, read_16, read_32, split_front};
use crate::pcap::found::Found;
use crate::pcap::ip::{read_ip, read_ip_4, read_ip_6};
use crate::pcap::link::LinkType;

/// The types of protocol of IPv4 and IPv6, and of the tags of IEEE 802.1Q before them.
const IP_4: u16 = 0x0800;

const IP_6: u16 = 0x86dd;

const CUSTOMER_TAG: u16 = 0x8100;

const SERVICE_TAG: u16 = 0x88a8;

/// Why a packet gives no datagram.
#[derive(Clone, Copy, PartialEq, Eq, Debug)]
pub(crate) enum FrameFault {
    /// It is traffic of another kind.
    Other,
    /// Its octets end inside a header.
    Short,
}

/// The datagram in a packet of this link, or the fragment of one.
#[tactic(auto, unfolding(crate::specs::pcap::Frames::frame_at))]
pub(crate) fn read_frame(link: LinkType, octets: &[u8]) -> Result<Found<'_>, FrameFault>
    ensures { Gives (λ f. f) result (frame_at link octets.now) }
{
    match link {
        LinkType::Ethernet => read_after_header(14, 12, octets),
        LinkType::LinuxCooked => read_after_header(16, 14, octets),
        LinkType::LinuxCooked2 => read_after_header(20, 0, octets),
        LinkType::Loopback => read_loopback(octets),
        LinkType::RawIp => read_ip(octets),
        LinkType::Unread => Err(FrameFault::Other),
    }
}

/// The datagram after the header of a loopback interface.
#[tactic(auto, unfolding(crate::specs::pcap::Frames::loopback_at, crate::specs::pcap::Fields::front_of))]
fn read_loopback(octets: &[u8]) -> Result<Found<'_>, FrameFault>
    ensures { Gives (λ f. f) result (loopback_at octets.now) }
{
    let (header, rest) = split_front(FrameFault::Short, 4, octets)?;
    let big = read_32(ByteOrder::Big, header, 0);
    let little = read_32(ByteOrder::Little, header, 0);
    read_family(big.min(little), rest)
}

/// The datagram in the octets of a family of addresses.
#[tactic(auto, unfolding(crate::specs::pcap::Frames::family_at))]
fn read_family(family: u32, octets: &[u8]) -> Result<Found<'_>, FrameFault>
    ensures { Gives (λ f. f) result (family_at family octets.now) }
{
    match family {
        2 => read_ip_4(octets),
        24 | 28 | 30 => read_ip_6(octets),
        _ => Err(FrameFault::Other),
    }
}

/// The datagram after a header of so many octets, in which the type of protocol stands at a place.
#[tactic(auto, unfolding(crate::specs::pcap::Frames::after_header, crate::specs::pcap::Fields::front_of))]
fn read_after_header(count: usize, place: usize, octets: &[u8]) -> Result<Found<'_>, FrameFault>
    requires { place + 2 ≤ count }
    ensures { Gives (λ f. f) result (after_header count place octets.now) }
{
    let (header, rest) = split_front(FrameFault::Short, count, octets)?;
    read_protocol(read_16(ByteOrder::Big, header, place), rest)
}

/// The datagram in the octets of a protocol, after two tags at most.
#[tactic(auto, unfolding(crate::specs::pcap::Frames::protocol_at))]
fn read_protocol(protocol: u16, octets: &[u8]) -> Result<Found<'_>, FrameFault>
    ensures { Gives (λ f. f) result (protocol_at protocol octets.now) }
{
    let (protocol, octets) = pass_tag(protocol, octets)?;
    let (protocol, octets) = pass_tag(protocol, octets)?;
    match protocol {
        IP_4 => read_ip_4(octets),
        IP_6 => read_ip_6(octets),
        _ => Err(FrameFault::Other),
    }
}

/// The type of protocol after a tag, where there is one, and its octets.
#[tactic(auto, unfolding(crate::specs::pcap::Frames::untagged, crate::specs::pcap::Fields::front_of))]
fn pass_tag(protocol: u16, octets: &[u8]) -> Result<(u16, &[u8]), FrameFault>
    ensures { Gives (λ p. (p.0, p.1.now)) result (untagged protocol octets.now) }
{
    if protocol != CUSTOMER_TAG && protocol != SERVICE_TAG {
        return Ok((protocol, octets));
    }
    let (tag, rest) = split_front(FrameFault::Short, 4, octets)?;
    Ok((read_16(ByteOrder::Big, tag, 2), rest))
}
