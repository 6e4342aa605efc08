//! The head and the records of a pcap file.
ghost use Rattle.std.specs.Prelude.{◌≡◌, ◌<◌, IfOk, length};
ghost use Rattle.fax_capture.specs.pcap.Captures.{pcap_packet_at, unit_of_magic};
ghost use Rattle.fax_capture.specs.pcap.Fields.{Gives};

use crate::pcap::fault::CaptureFault;
use crate::pcap::fields::{ByteOrder, read_32, split_front};
use crate::pcap::link::LinkType;
use crate::pcap::packet::{MOST_OF_RECORD, Packet};

/// What the head of a pcap file tells.
#[derive(Clone, Copy, PartialEq, Eq)]
pub(crate) struct PcapFile {
    pub order: ByteOrder,
    pub link: LinkType,
    /// How many nanoseconds a unit of the fractions of a second has.
    pub unit: u16,
}

/// The unit of the fractions of a second that a magic number tells.
#[tactic(auto, unfolding(crate::specs::pcap::Captures::unit_of_magic))]
pub(crate) fn unit_of(magic: u32) -> Option<u16>
    ensures { result ≡ unit_of_magic magic }
{
    match magic {
        0xa1b2_c3d4 => Some(1000),
        0xa1b2_3c4d => Some(1),
        _ => None,
    }
}

/// The packet of a record, and the octets after it.
#[tactic(auto, unfolding(crate::specs::pcap::Captures::pcap_packet_at, crate::specs::pcap::Fields::front_of))]
pub(crate) fn read_pcap_packet<'a>(
    file: PcapFile,
    octets: &'a [u8],
) -> Result<(Packet<'a>, &'a [u8]), CaptureFault>
    ensures gives { Gives (λ p. (p.0, p.1.now)) result (pcap_packet_at file octets.now) }
    ensures shorter { IfOk result (λ p. length p.1.now < length octets.now) }
{
    let (header, rest) = split_front(CaptureFault::Cut, 16, octets)?;
    let seconds = u128::from(read_32(file.order, header, 0));
    let fraction = u128::from(read_32(file.order, header, 4));
    let captured = read_32(file.order, header, 8);
    if captured > MOST_OF_RECORD {
        return Err(CaptureFault::Damaged);
    }
    let (octets, after) = split_front(CaptureFault::Cut, captured as usize, rest)?;
    let packet = Packet {
        time: Some(1_000_000_000 * seconds + u128::from(file.unit) * fraction),
        link: file.link,
        is_cut: captured < read_32(file.order, header, 12),
        octets,
    };
    Ok((packet, after))
}
