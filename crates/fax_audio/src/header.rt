//! Packets of RTP.
ghost use Rattle.std.specs.Prelude.{◌≡◌, ◌++◌};
ghost use Rattle.fax_audio.specs.Packets.{header_of, samples_of};

use crate::coding::Coding;
use crate::signal::Signal;

/// How many octets the header has, without a list of sources (RFC 3550, 5.1).
pub const HEADER_OCTETS: usize = 12;

/// How many samples a packet has, of an octet each.
pub const SAMPLES: usize = 160;

/// How many octets a packet has.
pub const PACKET_OCTETS: usize = 172;

/// Half of the samples of a packet.
const HALF: usize = 80;

/// The fields of a header that differ from packet to packet.
#[derive(Clone, Copy)]
pub(crate) struct Header {
    pub is_first: bool,
    pub coding: Coding,
    pub sequence: u16,
    pub timestamp: u32,
    pub ssrc: u32,
}

/// The first octet: version 2, without padding, extension and list of sources.
const VERSION: u8 = 0x80;

/// The marker: the first packet after silence.
const MARKER: u8 = 0x80;

impl Header {
    /// Its octets.
    fn octets(self) -> [u8; HEADER_OCTETS]
        ensures { result ≡ header_of self }
    {
        let marker = if self.is_first { MARKER } else { 0 };
        let [s0, s1] = self.sequence.to_be_bytes();
        let [t0, t1, t2, t3] = self.timestamp.to_be_bytes();
        let [i0, i1, i2, i3] = self.ssrc.to_be_bytes();
        [
            VERSION,
            marker + self.coding.payload_type(),
            s0,
            s1,
            t0,
            t1,
            t2,
            t3,
            i0,
            i1,
            i2,
            i3,
        ]
    }
}

/// The packet with this header, in which this tone sounds; none: silence.
pub(crate) fn packet(header: Header, tone: Option<Signal>) -> [u8; PACKET_OCTETS]
    ensures { result ≡ header_of header ++ samples_of tone header.coding }
{
    let mut octets = [header.coding.silence(); PACKET_OCTETS];
    octets[..HEADER_OCTETS].copy_from_slice(&header.octets());
    if let Some(signal) = tone {
        let table = signal.table(header.coding);
        octets[HEADER_OCTETS..HEADER_OCTETS + HALF].copy_from_slice(table);
        octets[HEADER_OCTETS + HALF..].copy_from_slice(table);
    }
    octets
}
