//! How datagrams are bounded.
ghost use Rattle.std.specs.Prelude.{◌≡◌, ◌⊎◌, ◌+◌, ◌-◌, ◌*◌, ◌<◌, ◌≤◌, nat_lt, ◌&&◌, ◌++◌, true, false, flat_map, length, take, Ok, IfNone, IfSome};
ghost use Rattle.fax_udptl.specs.Datagrams.{datagram_of, written_datagram, written_length, written_packet};
ghost use Rattle.fax_wires.specs.repeat.Repeats.{same_octets};
ghost use Rattle.fax_legs.specs.Bounding.{are_short, cut_as, fewer, fitting, is_sendable, kept};
ghost use Rattle.fax_legs.specs.Handing.{with_at_most};

use fax_udptl::{Datagram, Secondaries, read};

/// The most octets of a packet.
const MOST_PACKET: usize = 16_383;

/// The most secondaries whose count has one octet.
const MOST_COUNT: u8 = 127;

/// How many octets a datagram has beside its packets, where the count of its secondaries has one octet.
const FRAME_OCTETS: usize = 4;

/// What bounds the datagrams of a leg.
#[derive(Clone, Copy, PartialEq, Eq)]
pub(crate) struct Limits {
    /// How many packets before its own a datagram has at most.
    pub(crate) redundancy: u8,
    /// The most octets of a datagram, but of one that has its own packet alone.
    pub(crate) octets: Option<u16>,
}

impl Limits {
    /// With no more packets before its own than so many.
    pub(crate) fn at_most(self, before: u16) -> Limits
        ensures { result ≡ with_at_most before self }
    {
        let redundancy = if u16::from(self.redundancy) <= before {
            self.redundancy
        } else {
            before as u8
        };
        Limits {
            redundancy,
            octets: self.octets,
        }
    }

    /// How many secondaries are kept of a datagram of so many octets.
    fn kept(&self, octets: usize, datagram: &Datagram<'_>) -> u8
        ensures kept { result ≡ kept self.now octets datagram.now }
        ensures few { result ≤ length datagram.now.secondaries }
    {
        let most = match self.octets {
            None => octets,
            Some(most) => usize::from(most),
        };
        let own = packet_octets(datagram.primary()) + FRAME_OCTETS;
        count_fitting(
            self.redundancy,
            most.saturating_sub(own),
            datagram.secondaries(),
        )
    }
}

/// Writes a datagram as the limits have it into the front of a buffer that has room for its octets, and says how many it then has.
/// `None`: it goes as it is.
pub(crate) fn cut(limits: Limits, octets: &[u8], room: &mut [u8]) -> Option<usize>
    requires { length octets.now ≤ length room.old }
    ensures cut { IfSome result
        (λ end. take end room.new ≡ cut_as limits octets.now (datagram_of octets.now)) }
    ensures within { IfSome result (λ end. end ≤ length room.new) }
    ensures as_it_is { IfNone result (octets.now
        ≡ cut_as limits octets.now (datagram_of octets.now)) }
{
    match read(octets) {
        Ok(datagram) => cut_datagram(limits, octets, &datagram, room),
        Err(_) => None,
    }
}

/// The same of octets that are read as this datagram. Where they are it as it is written, and not all of its secondaries are
/// kept, it is written anew.
fn cut_datagram(
    limits: Limits,
    octets: &[u8],
    datagram: &Datagram<'_>,
    room: &mut [u8],
) -> Option<usize>
    requires { length octets.now ≤ length room.old }
    ensures cut { IfSome result
        (λ end. take end room.new ≡ cut_as limits octets.now (Ok datagram.now)) }
    ensures within { IfSome result (λ end. end ≤ length room.new) }
    ensures as_it_is { IfNone result (octets.now ≡ cut_as limits octets.now (Ok datagram.now)) }
{
    let count = count_written(datagram, octets.len())?;
    let kept = limits.kept(octets.len(), datagram);
    if kept == count {
        return None;
    }
    let whole = write(datagram, count, room);
    if !is_same(octets, &room[..whole]) {
        return None;
    }
    Some(write(datagram, kept, room))
}

/// Whether octets are the same.
fn is_same(one: &[u8], other: &[u8]) -> bool
    ensures { result ≡ same_octets one.now other.now }
{
    one == other
}

/// How many of these packets, from the first on, have room in so many octets, where there may be so many.
fn count_fitting(most: u8, octets: usize, packets: Secondaries<'_>) -> u8
    ensures count { result ≡ fitting most octets packets.entry }
    ensures few { result ≤ length packets.entry }
{
    let mut left = packets;
    let mut room = octets;
    let mut more = most;
    let mut kept = 0;
    while more > 0 {
        let Some(packet) = left.next() else {
            return kept;
        };
        let size = packet_octets(packet);
        if size > room {
            return kept;
        }
        room -= size;
        more -= 1;
        kept += 1;
    }
    kept
}

/// How many secondaries a datagram has, where it can be sent, and has so many octets as it is written.
fn count_written(datagram: &Datagram<'_>, octets: usize) -> Option<u8>
    ensures sendable { IfSome result (λ count. is_sendable datagram.now ≡ true) }
    ensures count { IfSome result (λ count. count ≡ length datagram.now.secondaries) }
    ensures octets { IfSome result (λ count. length (written_datagram datagram.now) ≡ octets) }
    ensures none { IfNone result ((is_sendable datagram.now ≡ false)
        ⊎ (length (written_datagram datagram.now) ≡ octets → ⊥)) }
{
    if datagram.primary().len() > MOST_PACKET {
        return None;
    }
    let (count, size) = count_short(datagram.secondaries())?;
    let own = packet_octets(datagram.primary()) + FRAME_OCTETS;
    if own + size != octets {
        return None;
    }
    Some(count)
}

/// How many these packets are, and how many octets they have with their lengths. `None`: one cannot be written, or they are too
/// many.
fn count_short(packets: Secondaries<'_>) -> Option<(u8, usize)>
    ensures short { IfSome result (λ counted. are_short packets.entry ≡ true) }
    ensures count { IfSome result (λ counted. counted.0 ≡ length packets.entry) }
    ensures below { IfSome result (λ counted. counted.0 < 128) }
    ensures octets { IfSome result
        (λ counted. counted.1 ≡ length (flat_map written_packet packets.entry)) }
    ensures bound { IfSome result (λ counted. counted.1 ≤ 16385 * 127) }
    ensures none { IfNone result ((are_short packets.entry
        && nat_lt (length packets.entry) 128) ≡ false) }
{
    let mut left = packets;
    let mut count = 0;
    let mut octets = 0;
    while let Some(packet) = left.next() {
        if count == MOST_COUNT {
            return None;
        }
        if packet.len() > MOST_PACKET {
            return None;
        }
        octets += packet_octets(packet);
        count += 1;
    }
    Some((count, octets))
}

/// How many octets a packet has with its length before it.
fn packet_octets(packet: &[u8]) -> usize
    ensures octets { result ≡ length (written_packet packet.now) }
    ensures few { result ≤ length packet.now + 2 }
{
    packet.len() + if packet.len() < 128 { 1 } else { 2 }
}

/// Writes a datagram with the first of its secondaries, so many, into the front of a buffer that has room for it, and says how
/// many octets it has.
fn write(datagram: &Datagram<'_>, count: u8, room: &mut [u8]) -> usize
    requires primary { length datagram.now.primary ≤ 16383 }
    requires secondaries { are_short datagram.now.secondaries ≡ true }
    requires count { count ≤ length datagram.now.secondaries }
    requires below { count < 128 }
    requires room { length (written_datagram (fewer count datagram.now)) ≤ length room.old }
    ensures front { take result room.new ≡ written_datagram (fewer count datagram.now) }
    ensures within { result ≤ length room.new }
    ensures same_room { length room.new ≡ length room.old }
{
    let number = put(room, 0, &datagram.number().to_be_bytes());
    let primary = put_packet(room, number, datagram.primary());
    // no error correction
    let choice = put(room, primary, &[0]);
    let after = put(room, choice, &[count]);
    put_packets(room, after, datagram.secondaries(), count)
}

/// Puts the first of these packets, so many, each after its length, into a buffer from a place on, and answers the place after
/// them.
fn put_packets(room: &mut [u8], from: usize, packets: Secondaries<'_>, count: u8) -> usize
    requires short { are_short packets ≡ true }
    requires room { from + length (flat_map written_packet (take count packets)) ≤ length room.old }
    ensures end { result ≡ from + length (flat_map written_packet (take count packets.entry)) }
    ensures front { take result room.new
        ≡ take from room.old ++ flat_map written_packet (take count packets.entry) }
    ensures same_room { length room.new ≡ length room.old }
{
    let mut left = packets;
    let mut more = count;
    let mut end = from;
    while more > 0 {
        let Some(packet) = left.next() else {
            return end;
        };
        end = put_packet(room, end, packet);
        more -= 1;
    }
    end
}

/// Puts a packet after its length.
fn put_packet(room: &mut [u8], from: usize, packet: &[u8]) -> usize
    requires short { length packet.now ≤ 16383 }
    requires room { from + length (written_packet packet.now) ≤ length room.old }
    ensures end { result ≡ from + length (written_packet packet.now) }
    ensures front { take result room.new ≡ take from room.old ++ written_packet packet.now }
    ensures same_room { length room.new ≡ length room.old }
{
    let after = put_length(room, from, packet.len());
    put(room, after, packet)
}

/// Puts a length: below 128 one octet, else two that begin with the bits 10.
fn put_length(room: &mut [u8], from: usize, size: usize) -> usize
    requires short { size ≤ 16383 }
    requires room { from + length (written_length size) ≤ length room.old }
    ensures end { result ≡ from + length (written_length size) }
    ensures front { take result room.new ≡ take from room.old ++ written_length size }
    ensures same_room { length room.new ≡ length room.old }
{
    if size < 128 {
        put(room, from, &[size as u8])
    } else {
        put(room, from, &(0x8000 + size as u16).to_be_bytes())
    }
}

/// Puts octets.
fn put(room: &mut [u8], from: usize, more: &[u8]) -> usize
    requires room { from + length more.now ≤ length room.old }
    ensures end { result ≡ from + length more.now }
    ensures front { take result room.new ≡ take from room.old ++ more.now }
    ensures same_room { length room.new ≡ length room.old }
{
    let end = from + more.len();
    room[from..end].copy_from_slice(more);
    end
}
