//! Streams of packets.
ghost use Rattle.std.specs.Prelude.{◌≡◌, ◌≤◌, ◌+◌, ◌*◌, ◌%◌, ◌^◌};
ghost use Rattle.fax_audio.specs.Streams.{after_packet, begun, due_of, packet_at, place_of};

use crate::coding::Coding;
use crate::header::{Header, PACKET_OCTETS, SAMPLES, packet};
use crate::signal::Signal;

/// A packet has the samples of so many milliseconds.
pub const PACKET_MS: u64 = 20;

/// Where the packet that is due next is so many milliseconds late, those before the moment are left out.
pub const LATE_MS: u64 = 200;

/// Where a stream begins. All three are random, so that nobody guesses them (RFC 3550, 5.1).
#[derive(Clone, Copy, PartialEq, Eq)]
pub struct Start {
    /// The source.
    pub ssrc: u32,
    /// The number of the first packet.
    pub sequence: u16,
    /// The moment of its first sample, in samples.
    pub timestamp: u32,
}

/// The packets of a call of audio.
#[derive(Clone, Copy, PartialEq, Eq)]
pub struct Stream {
    pub coding: Coding,
    pub signal: Signal,
    pub start: Start,
    /// The moment of the first packet.
    pub began: u64,
    /// How many packets were sent, and after how many packets the next one is due: more, where some were left out.
    pub sent: u64,
    pub place: u64,
}

impl Stream {
    /// A stream that begins now.
    pub fn new(coding: Coding, signal: Signal, start: Start, now: u64) -> Self
        ensures { result ≡ begun coding signal start now }
    {
        Stream {
            coding,
            signal,
            start,
            began: now,
            sent: 0,
            place: 0,
        }
    }

    /// The moment at which its next packet is due.
    pub fn due(&self) -> u64
        ensures { result ≡ due_of self.now }
    {
        let after = self.place.saturating_mul(PACKET_MS);
        self.began.saturating_add(after)
    }

    /// The packet that is due at this moment.
    pub fn next(&mut self, now: u64) -> Option<[u8; PACKET_OCTETS]>
        ensures packet { result ≡ packet_at self.old now }
        ensures after { self.new ≡ after_packet self.old now }
    {
        let due = self.due();
        if now < due {
            return None;
        }
        let place = self.place_at(now, due);
        let header = Header {
            is_first: self.sent == 0,
            coding: self.coding,
            sequence: sequence_at(self.start.sequence, self.sent),
            timestamp: timestamp_at(self.start.timestamp, place),
            ssrc: self.start.ssrc,
        };
        let tone = self.signal.sounds(place).then_some(self.signal);
        self.sent = self.sent.saturating_add(1);
        self.place = place.saturating_add(1);
        Some(packet(header, tone))
    }

    /// The place of the packet of this moment, the next of which is due then.
    fn place_at(&self, now: u64, due: u64) -> u64
        requires due { due ≡ due_of self.now }
        requires is_due { due ≤ now }
        ensures { result ≡ place_of self.now now }
    {
        if now - due < LATE_MS {
            self.place
        } else {
            now.saturating_sub(self.began) / PACKET_MS
        }
    }
}

/// The number of the packet after so many; it goes round (RFC 3550, 5.1).
fn sequence_at(first: u16, sent: u64) -> u16
    ensures { result ≡ (first + sent) % 2 ^ 16 }
{
    let sent = (sent % 0x1_0000) as u16;
    first.wrapping_add(sent)
}

/// The moment of the first sample of the packet at a place; it goes round.
fn timestamp_at(first: u32, place: u64) -> u32
    ensures { result ≡ (first + 160 * place) % 2 ^ 32 }
{
    let packets = (place % 0x1_0000_0000) as u32;
    first.wrapping_add(packets.wrapping_mul(SAMPLES as u32))
}
