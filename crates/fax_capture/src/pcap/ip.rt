//! Datagrams of IP, and of UDP in them, or fragments of such.
ghost use Rattle.std.specs.Prelude.{◌≡◌, ◌≤◌, ◌*◌, ◌%◌, IsTrue, length, slice_index, take};
ghost use Rattle.fax_capture.specs.pcap.Fields.{Gives, number_16};
ghost use Rattle.fax_capture.specs.pcap.Frames.{after_ip_6, data_at, fragment_6_at, ip_4_at, ip_6_at, ip_at, is_udp_4, part_4, part_6, part_at, udp_at};

use crate::pcap::datagram::{Datagram, Endpoint};
use crate::pcap::fields::{ByteOrder, read_16, read_32, split_front};
use crate::pcap::found::Found;
use crate::pcap::fragment::Fragment;
use crate::pcap::frame::FrameFault;
use crate::pcap::part::Part;

/// The number of UDP among the protocols of IP.
const UDP: u8 = 17;

/// The number of the header of a fragment of IPv6.
const FRAGMENT: u8 = 44;

/// The UDP datagram in a datagram of IP of either version.
#[tactic(auto, unfolding(crate::specs::pcap::Frames::ip_at, crate::specs::pcap::Fields::front_of))]
pub(crate) fn read_ip(octets: &[u8]) -> Result<Found<'_>, FrameFault>
    ensures { Gives (λ f. f) result (ip_at octets.now) }
{
    let (first, _) = split_front(FrameFault::Short, 1, octets)?;
    if first[0] / 16 == 4 {
        read_ip_4(octets)
    } else {
        read_ip_6(octets)
    }
}

/// The UDP datagram in a datagram of IPv4, or the fragment of one.
#[tactic(auto, unfolding(crate::specs::pcap::Frames::ip_4_at, crate::specs::pcap::Fields::front_of))]
pub(crate) fn read_ip_4(octets: &[u8]) -> Result<Found<'_>, FrameFault>
    ensures { Gives (λ f. f) result (ip_4_at octets.now) }
{
    let (header, rest) = split_front(FrameFault::Short, 20, octets)?;
    if !is_udp(header) {
        return Err(FrameFault::Other);
    }
    let part = part_of_4(header);
    let header_length = 4 * usize::from(header[0] % 16);
    let (_, rest) = split_front(part.fault(), header_length - 20, rest)?;
    let length = usize::from(read_16(ByteOrder::Big, header, 2)) - header_length;
    read_part(
        &header[12..16],
        &header[16..20],
        part,
        first_octets(length, rest),
    )
}

/// Whether a header of IPv4 says that its datagram carries UDP.
#[tactic(auto, unfolding(crate::specs::pcap::Frames::is_udp_4))]
fn is_udp(header: &[u8]) -> bool
    requires { length header.now ≡ 20 }
    ensures is { result ≡ is_udp_4 header.now }
    ensures header { IsTrue result → 5 ≤ slice_index header.now 0 % 16 }
    ensures counted { IsTrue result
        → 4 * (slice_index header.now 0 % 16) ≤ number_16 ByteOrder.Big header.now 2 }
{
    let words = header[0] % 16;
    header[0] / 16 == 4
        && words >= 5
        && read_16(ByteOrder::Big, header, 2) >= 4 * u16::from(words)
        && header[9] == UDP
}

/// The part of a datagram that a header of IPv4 tells.
#[tactic(auto, unfolding(crate::specs::pcap::Frames::part_4))]
fn part_of_4(header: &[u8]) -> Part
    requires { length header.now ≡ 20 }
    ensures { result ≡ part_4 header.now }
{
    let field = read_16(ByteOrder::Big, header, 6);
    Part {
        number: u32::from(read_16(ByteOrder::Big, header, 4)),
        place: field % 8_192,
        is_followed: field / 8_192 % 2 == 1,
    }
}

/// The UDP datagram in a datagram of IPv6, or the fragment of one.
#[tactic(auto, unfolding(crate::specs::pcap::Frames::ip_6_at, crate::specs::pcap::Fields::front_of))]
pub(crate) fn read_ip_6(octets: &[u8]) -> Result<Found<'_>, FrameFault>
    ensures { Gives (λ f. f) result (ip_6_at octets.now) }
{
    let (header, rest) = split_front(FrameFault::Short, 40, octets)?;
    let length = usize::from(read_16(ByteOrder::Big, header, 4));
    read_after_ip_6(header, first_octets(length, rest))
}

/// The UDP datagram after a header of IPv6, or after that of a fragment.
#[tactic(auto, unfolding(crate::specs::pcap::Frames::after_ip_6))]
fn read_after_ip_6<'a>(header: &'a [u8], octets: &'a [u8]) -> Result<Found<'a>, FrameFault>
    requires { length header.now ≡ 40 }
    ensures { Gives (λ f. f) result (after_ip_6 header.now octets.now) }
{
    let source = &header[8..24];
    let destination = &header[24..40];
    if header[0] / 16 != 6 {
        return Err(FrameFault::Other);
    }
    match header[6] {
        UDP => read_udp(source, destination, None, octets),
        FRAGMENT => read_fragment(source, destination, octets),
        _ => Err(FrameFault::Other),
    }
}

/// The UDP datagram, or the fragment of one, after the header of a fragment of IPv6.
#[tactic(auto, unfolding(crate::specs::pcap::Frames::fragment_6_at, crate::specs::pcap::Fields::front_of))]
fn read_fragment<'a>(
    source: &'a [u8],
    destination: &'a [u8],
    octets: &'a [u8],
) -> Result<Found<'a>, FrameFault>
    ensures { Gives (λ f. f) result (fragment_6_at source.now destination.now octets.now) }
{
    let (header, rest) = split_front(FrameFault::Short, 8, octets)?;
    if header[0] != UDP {
        return Err(FrameFault::Other);
    }
    read_part(source, destination, part_of_6(header), rest)
}

/// The part of a datagram that the header of a fragment of IPv6 tells.
#[tactic(auto, unfolding(crate::specs::pcap::Frames::part_6))]
fn part_of_6(header: &[u8]) -> Part
    requires { length header.now ≡ 8 }
    ensures { result ≡ part_6 header.now }
{
    let field = read_16(ByteOrder::Big, header, 2);
    Part {
        number: read_32(ByteOrder::Big, header, 4),
        place: field / 8,
        is_followed: field % 2 == 1,
    }
}

/// The UDP datagram, or the fragment of one, that a part of a datagram of IP has.
#[tactic(auto, unfolding(crate::specs::pcap::Frames::part_at))]
fn read_part<'a>(
    source: &'a [u8],
    destination: &'a [u8],
    part: Part,
    octets: &'a [u8],
) -> Result<Found<'a>, FrameFault>
    ensures { Gives (λ f. f) result (part_at source.now destination.now part octets.now) }
{
    if part.place == 0 {
        return read_udp(source, destination, part.fragments(), octets);
    }
    Ok(Found::Fragment(Fragment {
        source,
        destination,
        number: part.number,
        place: 8 * usize::from(part.place - 1),
        is_last: !part.is_followed,
        octets,
    }))
}

/// So many octets, or all where they are fewer.
fn first_octets(count: usize, octets: &[u8]) -> &[u8]
    ensures { result.now ≡ take count octets.now }
{
    &octets[..count.min(octets.len())]
}

/// The datagram of UDP that these hosts exchange.
#[tactic(auto, unfolding(crate::specs::pcap::Frames::udp_at, crate::specs::pcap::Fields::front_of))]
fn read_udp<'a>(
    source: &'a [u8],
    destination: &'a [u8],
    fragments: Option<u32>,
    octets: &'a [u8],
) -> Result<Found<'a>, FrameFault>
    ensures { Gives (λ f. f) result (udp_at source.now destination.now fragments octets.now) }
{
    let (header, rest) = split_front(FrameFault::Short, 8, octets)?;
    let source = Endpoint {
        host: source,
        port: read_16(ByteOrder::Big, header, 0),
    };
    let destination = Endpoint {
        host: destination,
        port: read_16(ByteOrder::Big, header, 2),
    };
    read_data(
        source,
        destination,
        fragments,
        read_16(ByteOrder::Big, header, 4),
        rest,
    )
}

/// The datagram whose header counts so many octets.
#[tactic(auto, unfolding(crate::specs::pcap::Frames::data_at))]
fn read_data<'a>(
    source: Endpoint<'a>,
    destination: Endpoint<'a>,
    fragments: Option<u32>,
    count: u16,
    octets: &'a [u8],
) -> Result<Found<'a>, FrameFault>
    ensures { Gives
        (λ f. f) result (data_at source.entry destination.entry fragments count octets.now) }
{
    if count < 8 {
        return Err(FrameFault::Other);
    }
    let length = count - 8;
    Ok(Found::Datagram(Datagram {
        source,
        destination,
        fragments,
        length,
        is_whole: octets.len() >= usize::from(length),
        octets: first_octets(usize::from(length), octets),
    }))
}
