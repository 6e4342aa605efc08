//! The blocks of a pcapng file.
ghost use Rattle.std.specs.Prelude.{◌≡◌, ◌<◌, ◌≤◌, IfOk, length};
ghost use Rattle.fax_capture.specs.pcap.Captures.{block_at, block_of, captured_of, enhanced_in, interface_at, old_packet_in, section_at, section_order_at, simple_in, timed_packet};
ghost use Rattle.fax_capture.specs.pcap.Fields.{Gives};

use crate::pcap::fault::CaptureFault;
use crate::pcap::fields::{ByteOrder, read_16, read_32, split_front};
use crate::pcap::interface::{Interface, moment};
use crate::pcap::packet::{MOST_OF_RECORD, Packet};

/// The number with which the body of a section's head begins, in the section's byte order.
const BYTE_ORDER_MAGIC: u32 = 0x1a2b_3c4d;

/// A block, and the octets after it.
#[derive(Drop)]
pub(crate) struct Block<'a> {
    pub kind: u32,
    pub body: &'a [u8],
    pub after: &'a [u8],
}

/// The first block of some octets.
#[tactic(auto, unfolding(crate::specs::pcap::Captures::block_at, crate::specs::pcap::Fields::front_of))]
pub(crate) fn read_block(order: ByteOrder, octets: &[u8]) -> Result<Block<'_>, CaptureFault>
    ensures gives { Gives (λ b. (
      record { kind = b.kind; body = b.body.now },
      b.after.now,
    )) result (block_at order octets.now) }
    ensures shorter { IfOk result (λ b. length b.after.now < length octets.now) }
{
    let (header, rest) = split_front(CaptureFault::Cut, 8, octets)?;
    read_block_body(
        order,
        read_32(order, header, 0),
        read_32(order, header, 4),
        rest,
    )
}

/// The rest of a block of this type and length.
#[tactic(auto, unfolding(crate::specs::pcap::Captures::block_of, crate::specs::pcap::Fields::front_of))]
fn read_block_body(
    order: ByteOrder,
    kind: u32,
    count: u32,
    octets: &[u8],
) -> Result<Block<'_>, CaptureFault>
    ensures gives { Gives (λ b. (
      record { kind = b.kind; body = b.body.now },
      b.after.now,
    )) result (block_of order kind count octets.now) }
    ensures shorter { IfOk result (λ b. length b.after.now < length octets.now) }
{
    if count < 12 || count % 4 != 0 || count > MOST_OF_RECORD {
        return Err(CaptureFault::Damaged);
    }
    let (body, rest) = split_front(CaptureFault::Cut, (count - 12) as usize, octets)?;
    let (last, after) = split_front(CaptureFault::Cut, 4, rest)?;
    if read_32(order, last, 0) != count {
        return Err(CaptureFault::Damaged);
    }
    Ok(Block { kind, body, after })
}

/// The byte order of the section whose head begins some octets.
#[tactic(auto, unfolding(crate::specs::pcap::Captures::section_order_at, crate::specs::pcap::Fields::front_of))]
fn read_section_order(octets: &[u8]) -> Result<ByteOrder, CaptureFault>
    ensures { Gives (λ o. o) result (section_order_at octets.now) }
{
    let (header, _) = split_front(CaptureFault::Cut, 12, octets)?;
    if read_32(ByteOrder::Big, header, 8) == BYTE_ORDER_MAGIC {
        Ok(ByteOrder::Big)
    } else if read_32(ByteOrder::Little, header, 8) == BYTE_ORDER_MAGIC {
        Ok(ByteOrder::Little)
    } else {
        Err(CaptureFault::Damaged)
    }
}

/// The byte order of the section whose head begins some octets, and the octets after the head.
#[tactic(auto, unfolding(crate::specs::pcap::Captures::section_at, crate::specs::pcap::Fields::front_of))]
pub(crate) fn read_section(octets: &[u8]) -> Result<(ByteOrder, &[u8]), CaptureFault>
    ensures gives { Gives (λ s. (s.0, s.1.now)) result (section_at octets.now) }
    ensures shorter { IfOk result (λ s. length s.1.now < length octets.now) }
{
    let order = read_section_order(octets)?;
    let block = read_block(order, octets)?;
    let (fixed, _) = split_front(CaptureFault::Damaged, 16, block.body)?;
    if read_16(order, fixed, 4) != 1 {
        return Err(CaptureFault::Damaged);
    }
    Ok((order, block.after))
}

/// The interface of a number.
#[tactic(auto, unfolding(crate::specs::pcap::Captures::interface_at))]
fn interface_of(interfaces: &[Interface], number: u32) -> Result<Interface, CaptureFault>
    ensures { Gives (λ i. i) result (interface_at interfaces.now number) }
{
    match interfaces.get(number as usize) {
        Some(interface) => Ok(*interface),
        None => Err(CaptureFault::Damaged),
    }
}

/// The packet of an enhanced packet block.
#[tactic(auto, unfolding(crate::specs::pcap::Captures::enhanced_in, crate::specs::pcap::Fields::front_of))]
pub(crate) fn read_enhanced<'a>(
    order: ByteOrder,
    interfaces: &[Interface],
    body: &'a [u8],
) -> Result<Packet<'a>, CaptureFault>
    ensures { Gives (λ p. p) result (enhanced_in order interfaces.now body.now) }
{
    let (header, rest) = split_front(CaptureFault::Damaged, 20, body)?;
    let interface = interface_of(interfaces, read_32(order, header, 0))?;
    read_timed(order, interface, header, rest)
}

/// The packet of a packet block, which is obsolete.
#[tactic(auto, unfolding(crate::specs::pcap::Captures::old_packet_in, crate::specs::pcap::Fields::front_of))]
pub(crate) fn read_old_packet<'a>(
    order: ByteOrder,
    interfaces: &[Interface],
    body: &'a [u8],
) -> Result<Packet<'a>, CaptureFault>
    ensures { Gives (λ p. p) result (old_packet_in order interfaces.now body.now) }
{
    let (header, rest) = split_front(CaptureFault::Damaged, 20, body)?;
    let interface = interface_of(interfaces, u32::from(read_16(order, header, 0)))?;
    read_timed(order, interface, header, rest)
}

/// The packet of an interface, after its header.
#[tactic(auto, unfolding(crate::specs::pcap::Captures::timed_packet, crate::specs::pcap::Fields::front_of))]
fn read_timed<'a>(
    order: ByteOrder,
    interface: Interface,
    header: &[u8],
    octets: &'a [u8],
) -> Result<Packet<'a>, CaptureFault>
    requires { 20 ≤ length header.now }
    ensures { Gives (λ p. p) result (timed_packet order interface header.now octets.now) }
{
    let high = u64::from(read_32(order, header, 4));
    let low = u64::from(read_32(order, header, 8));
    let captured = read_32(order, header, 12);
    let (octets, _) = split_front(CaptureFault::Damaged, captured as usize, octets)?;
    Ok(Packet {
        time: Some(moment(interface.times, 4_294_967_296 * high + low)),
        link: interface.link,
        is_cut: captured < read_32(order, header, 16),
        octets,
    })
}

/// How many octets are captured of a packet that had so many.
#[tactic(auto, unfolding(crate::specs::pcap::Captures::captured_of))]
fn captured_octets(interface: Interface, count: u32) -> u32
    ensures { result ≡ captured_of interface count }
{
    if interface.most_octets == 0 {
        count
    } else {
        count.min(interface.most_octets)
    }
}

/// The packet of a simple packet block.
#[tactic(auto, unfolding(crate::specs::pcap::Captures::simple_in, crate::specs::pcap::Fields::front_of))]
pub(crate) fn read_simple<'a>(
    order: ByteOrder,
    interfaces: &[Interface],
    body: &'a [u8],
) -> Result<Packet<'a>, CaptureFault>
    ensures { Gives (λ p. p) result (simple_in order interfaces.now body.now) }
{
    let (header, rest) = split_front(CaptureFault::Damaged, 4, body)?;
    let interface = interface_of(interfaces, 0)?;
    let count = read_32(order, header, 0);
    let captured = captured_octets(interface, count);
    let (octets, _) = split_front(CaptureFault::Damaged, captured as usize, rest)?;
    Ok(Packet {
        time: None,
        link: interface.link,
        is_cut: captured < count,
        octets,
    })
}
