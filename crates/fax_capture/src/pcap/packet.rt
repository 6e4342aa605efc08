//! Packets as they were captured.
ghost use Rattle.std.specs.Prelude.{◌≡◌};
ghost use Rattle.fax_capture.specs.pcap.Captures.{found_in_packet};
ghost use Rattle.fax_capture.specs.pcap.Fields.{Gives};

use crate::pcap::fault::CaptureFault;
use crate::pcap::found::Found;
use crate::pcap::frame::{FrameFault, read_frame};
use crate::pcap::link::LinkType;
use std::marker::Model;

/// The most octets of a packet of pcap, and of a block of pcapng.
pub(crate) const MOST_OF_RECORD: u32 = 16_777_216;

/// A packet.
#[derive(Drop)]
pub(crate) struct Packet<'a> {
    /// When it was captured, in nanoseconds since 1970, where that is told.
    pub time: Option<u128>,
    pub link: LinkType,
    /// Whether fewer of its octets were captured than it had.
    pub is_cut: bool,
    pub octets: &'a [u8],
}

impl<'a> Model for Packet<'a> {
    ghost use Rattle.fax_capture.specs.pcap.Captures.{PacketValue};

    ghost Value = { PacketValue };

    ghost view = { λ p.
        record { time = p.time; link = p.link; is_cut = p.is_cut; octets = p.octets.now } };
}

/// A datagram, whole or in part, or a fragment of one, and when it was captured, in nanoseconds since 1970, where the capture tells
/// that.
#[derive(Drop)]
pub struct CapturedPacket<'a> {
    time: Option<u128>,
    found: Found<'a>,
}

impl<'a> Model for CapturedPacket<'a> {
    ghost use Rattle.fax_capture.specs.pcap.Captures.{TimedPacket};

    ghost Value = { TimedPacket };

    ghost view = { λ c. record { time = c.time; found = c.found } };
}

impl<'a> CapturedPacket<'a> {
    /// When it was captured, in nanoseconds since 1970; None where the capture does not tell.
    pub fn time(&self) -> Option<u128>
        ensures { result ≡ self.now.time }
    {
        self.time
    }

    /// The datagram, or the fragment of one.
    pub fn found(&self) -> &Found<'a>
        ensures { result.now ≡ self.now.found }
    {
        &self.found
    }
}

/// The datagram that a packet is, or the fragment of one, where it is either. `Snapped` says that it was captured up to a place inside
/// its headers.
#[tactic(auto, unfolding(crate::specs::pcap::Captures::found_in_frame))]
pub(crate) fn read_packet<'a>(
    packet: &Packet<'a>,
) -> Result<Option<CapturedPacket<'a>>, CaptureFault>
    ensures { Gives (λ found. found) result (found_in_packet packet.now) }
{
    match read_frame(packet.link, packet.octets) {
        Ok(found) => {
            if found.lacks_octets() && !packet.is_cut {
                return Ok(None);
            }
            Ok(Some(CapturedPacket {
                time: packet.time,
                found,
            }))
        }
        Err(FrameFault::Short) if packet.is_cut => Err(CaptureFault::Snapped),
        Err(FrameFault::Short | FrameFault::Other) => Ok(None),
    }
}
