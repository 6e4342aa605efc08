//! A sender of datagrams, each with the packets just before its own.
ghost use Rattle.std.specs.Prelude.{ℕ, List, [], ◌∷◌, ◌++◌, ◌+◌, ◌*◌, ◌≡◌, ◌<◌, ◌≤◌, length, flat_map, vec_len, vec_capacity, IfOk, OnOk, OnErr};
ghost use Rattle.fax_udptl.specs.Datagrams.{written_datagram, written_length, written_packet};
ghost use Rattle.fax_udptl.specs.Sending.{AreShort, HasSent, datagram_for, most_redundancy};

use circular_buffer::HeapCircularBuffer;
use fax_bits::{NoMemory, Octets};
use std::alloc::Global;
use std::marker::Model;
use std::mem;

/// How many octets a datagram has beside its packets: two for its number, one for the choice of secondaries
/// and one for their count, which is below 128.
const FRAME_SIZE: usize = 4;

/// Numbers the packets of a call from 0 and sends each with those just before it, as many as its redundancy
/// says. Seen as its redundancy, how many packets there were, modulo 65,536, the last of them, and `spare`: a
/// packet of fewer octets is sent without asking for memory.
pub struct Sender {
    alloc: Global,
    count: u16,
    /// The newest first; its capacity is the redundancy.
    last: HeapCircularBuffer<Octets>,
    /// Empty: room for the next datagram.
    datagram: Vec<u8>,
    /// Empty: room for a copy of its packet.
    copy: Vec<u8>,
    /// One more than the octets of the longest packet for which both surely have room, or 0.
    spare: usize,
}

impl Drop for Sender {
    fn drop(self) {
        let Sender {
            alloc: _alloc,
            count: _count,
            last: _last,
            datagram: _datagram,
            copy: _copy,
            spare: _spare,
        } = self;
    }
}

impl Model for Sender {
    ghost use Rattle.std.specs.Prelude.{◌≡◌, ◌≤◌, vec_len, vec_capacity};
    ghost use Rattle.fax_udptl.specs.Sending.{SenderValue, AreShort, HasRoom, most_redundancy};

    ghost Value = { SenderValue };

    ghost view = { λ s. record {
      redundancy = s.last.capacity;
      count = s.count;
      last = s.last.items;
      spare = s.spare;
    } };

    ghost invariant = { λ s. (s.last.capacity ≤ most_redundancy)
        × AreShort s.last.items × (vec_len s.datagram ≡ 0) × (vec_len s.copy ≡ 0)
        × HasRoom s.spare s.last.items (vec_capacity s.datagram) (vec_capacity s.copy) };
}

impl Sender {
    /// A sender to which nothing was given: its datagrams have so many of the packets before their own, at
    /// most 8. It takes memory for these.
    pub fn new(alloc: Global, redundancy: u8) -> Result<Self, NoMemory>
        requires { redundancy ≤ most_redundancy }
        ensures { IfOk result (λ sender. HasSent redundancy [] sender) }
    {
        let last = HeapCircularBuffer::with_capacity(alloc, usize::from(redundancy))?;
        Ok(Sender {
            alloc,
            count: 0,
            last,
            datagram: Vec::new(alloc),
            copy: Vec::new(alloc),
            spare: 0,
        })
    }

    /// Makes room for the next packet: one of at most so many octets is sent then without asking for memory.
    pub fn reserve(&mut self, octets: usize) -> Result<(), NoMemory>
        requires { octets ≤ 16383 }
        ensures room { OnOk result (octets < self.new.spare) }
        // Nothing else changes.
        ensures same { self.new ≡ record self.old { spare = self.new.spare } }
        ensures sent { (redundancy : ℕ) (given : List (List ℕ))
            → HasSent redundancy given self.old → HasSent redundancy given self.new }
        ensures err { OnErr result (self.new ≡ self.old) }
    {
        if octets < self.spare {
            return Ok(());
        }
        // a length has two octets at most
        let size = FRAME_SIZE + 2 + octets + packets_size(&self.last);
        self.datagram.reserve_exact(size)?;
        self.copy.reserve_exact(octets)?;
        self.spare = self.spare.max(octets + 1);
        Ok(())
    }

    /// The octets of the datagram of the next packet, which has at most 16,383 octets: its number is how many
    /// were given before, modulo 65,536, and its secondaries are the last of these. It takes memory for
    /// the datagram and for a copy of the packet, once each, where there is no room for them. An `Err` changes
    /// nothing.
    pub fn send(&mut self, packet: &[u8]) -> Result<Octets, NoMemory>
        requires { length packet.now ≤ 16383 }
        // Whatever was given before, the newest first.
        ensures sent { IfOk result
            (λ octets. (redundancy : ℕ) (given : List (List ℕ)) → HasSent redundancy given self.old
            → (octets ≡ written_datagram (datagram_for redundancy given packet.now))
            × HasSent redundancy (packet.now ∷ given) self.new) }
        ensures err { OnErr result (self.new ≡ self.old) }
        ensures memory { OnErr result (self.old.spare ≤ length packet.now) }
    {
        let _few = self.last.len();
        if self.spare <= packet.len() {
            self.datagram
                .reserve_exact(datagram_size(packet, &self.last))?;
            self.copy.reserve_exact(packet.len())?;
        }
        let mut datagram = mem::replace(&mut self.datagram, Vec::new(self.alloc));
        put_datagram(&mut datagram, self.count, packet, &self.last);
        let mut copy = mem::replace(&mut self.copy, Vec::new(self.alloc));
        put(&mut copy, packet);
        self.spare = 0;
        let oldest = self.last.push_front(Octets::from_vec(copy));
        self.copy = room_of(self.alloc, oldest);
        self.count = self.count.wrapping_add(1);
        Ok(Octets::from_vec(datagram))
    }
}

/// A list without octets, in the memory of a packet that is not kept any more, where there is one. It takes none.
fn room_of(alloc: Global, packet: Option<Octets>) -> Vec<u8>
    ensures { vec_len result ≡ 0 }
{
    let mut room = match packet {
        None => Vec::new(alloc),
        Some(octets) => octets.into_vec(),
    };
    room.clear();
    room
}

/// How many octets the datagram of a packet has.
fn datagram_size(packet: &[u8], last: &HeapCircularBuffer<Octets>) -> usize
    requires primary { length packet.now ≤ 16383 }
    requires secondaries { AreShort last.now.items }
    requires few { last.now.capacity ≤ 127 }
    ensures size { (number : ℕ) → result ≡ length (written_datagram (record {
      number = number;
      primary = packet.now;
      secondaries = last.now.items;
    })) }
    ensures bound { result
        ≤ 6 + length packet.now + length (flat_map written_packet last.now.items) }
{
    FRAME_SIZE + packet_size(packet) + packets_size(last)
}

/// How many octets packets have, each with its length before it.
fn packets_size(packets: &HeapCircularBuffer<Octets>) -> usize
    requires short { AreShort packets.now.items }
    requires few { packets.now.capacity ≤ 127 }
    ensures size { result ≡ length (flat_map written_packet packets.now.items) }
    ensures few { length packets.now.items ≤ 127 }
    ensures bound { result ≤ 16385 * 127 }
{
    let _few = packets.len();
    let mut size = 0;
    for packet in packets {
        size += packet_size(packet.as_slice());
    }
    size
}

/// How many octets a packet has with its length before it.
fn packet_size(packet: &[u8]) -> usize
    requires { length packet.now ≤ 16383 }
    ensures size { result ≡ length (written_packet packet.now) }
    ensures few { result ≤ length packet.now + 2 }
    ensures bound { result ≤ 16385 }
{
    packet.len() + if packet.len() < 128 { 1 } else { 2 }
}

/// Writes a datagram of that number, with the packet as primary and the last ones as secondaries, where
/// there is room for it.
fn put_datagram(octets: &mut Vec<u8>, number: u16, packet: &[u8], last: &HeapCircularBuffer<Octets>)
    requires primary { length packet.now ≤ 16383 }
    requires secondaries { AreShort last.now.items }
    requires few { last.now.capacity ≤ 127 }
    requires empty { vec_len octets.old ≡ 0 }
    requires room { length (written_datagram (record {
      number = number;
      primary = packet.now;
      secondaries = last.now.items;
    })) ≤ vec_capacity octets.old }
    ensures { octets.new.items ≡ written_datagram (record {
      number = number;
      primary = packet.now;
      secondaries = last.now.items;
    }) }
{
    let count = last.len();
    put(octets, &number.to_be_bytes());
    put_packet(octets, packet);
    // no error correction
    octets.push_reserved(0);
    put_length(octets, count);
    put_packets(octets, last);
}

/// Adds packets, each after its length, for which there is room.
fn put_packets(octets: &mut Vec<u8>, packets: &HeapCircularBuffer<Octets>)
    requires short { AreShort packets.now.items }
    requires room { vec_len octets.old + length (flat_map written_packet packets.now.items)
        ≤ vec_capacity octets.old }
    ensures { octets.new.items ≡ octets.old.items ++ flat_map written_packet packets.now.items }
{
    for packet in packets {
        put_packet(octets, packet.as_slice());
    }
}

/// Adds a packet after its length, for which there is room.
fn put_packet(octets: &mut Vec<u8>, packet: &[u8])
    requires short { length packet.now ≤ 16383 }
    requires room { vec_len octets.old + length (written_packet packet.now)
        ≤ vec_capacity octets.old }
    ensures items { octets.new.items ≡ octets.old.items ++ written_packet packet.now }
    ensures len { vec_len octets.new ≡ vec_len octets.old + length (written_packet packet.now) }
    ensures capacity { vec_capacity octets.old ≤ vec_capacity octets.new }
{
    put_length(octets, packet.len());
    put(octets, packet);
}

/// Adds a length or a count, for which there is room: below 128 one octet, else two that begin with the
/// bits 10.
fn put_length(octets: &mut Vec<u8>, count: usize)
    requires short { count ≤ 16383 }
    requires room { vec_len octets.old + length (written_length count) ≤ vec_capacity octets.old }
    ensures items { octets.new.items ≡ octets.old.items ++ written_length count }
    ensures len { vec_len octets.new ≡ vec_len octets.old + length (written_length count) }
    ensures capacity { vec_capacity octets.old ≤ vec_capacity octets.new }
{
    if count < 128 {
        octets.push_reserved(count as u8);
    } else {
        put(octets, &(0x8000 + count as u16).to_be_bytes());
    }
}

/// Adds octets, for which there is room.
fn put(octets: &mut Vec<u8>, more: &[u8])
    requires room { vec_len octets.old + length more.now ≤ vec_capacity octets.old }
    ensures items { octets.new.items ≡ octets.old.items ++ more.now }
    ensures len { vec_len octets.new ≡ vec_len octets.old + length more.now }
    ensures capacity { vec_capacity octets.old ≤ vec_capacity octets.new }
{
    if octets.extend_from_slice(more).is_err() {
        unreachable!();
    }
}
