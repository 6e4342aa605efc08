//! Datagrams by hand, and of other machines; `explain-captured.toml` of `tests/cases` has whole calls of another implementation.
use fax_bits::NoMemory;
use fax_udptl::{Packets, Receiver, Secondaries, Sender, UdptlFault, read};
use std::alloc::Global;

/// The first packets of a call's answerer, and their datagrams.
const ANSWERING_LEG: &[(&[u8], &[u8])] = &[
    (b"\x04", b"\x00\x00\x01\x04\x00\x00"),
    (b"\x06", b"\x00\x01\x01\x06\x00\x01\x01\x04"),
    (
        b"\xc0\x02\x80\x00\x05\xff\xc8\x01\x00\x77\x5e\x40",
        b"\x00\x02\x0c\xc0\x02\x80\x00\x05\xff\xc8\x01\x00\x77\x5e\x40\x00\x02\x01\x06\x01\x04",
    ),
    (
        b"\x06",
        b"\x00\x03\x01\x06\x00\x03\x0c\xc0\x02\x80\x00\x05\xff\xc8\x01\x00\x77\x5e\x40\x01\x06\x01\x04",
    ),
    (
        b"\xc0\x02\x80\x00\x02\xff\xc8\x21\x40",
        b"\x00\x04\x09\xc0\x02\x80\x00\x02\xff\xc8\x21\x40\x00\x03\x01\x06\x0c\xc0\x02\x80\x00\x05\xff\xc8\x01\x00\x77\x5e\x40\x01\x06",
    ),
    (
        b"\x06",
        b"\x00\x05\x01\x06\x00\x03\x09\xc0\x02\x80\x00\x02\xff\xc8\x21\x40\x01\x06\x0c\xc0\x02\x80\x00\x05\xff\xc8\x01\x00\x77\x5e\x40",
    ),
    (
        b"\xc0\x02\x80\x00\x02\xff\xc8\x31\x40",
        b"\x00\x06\x09\xc0\x02\x80\x00\x02\xff\xc8\x31\x40\x00\x03\x01\x06\x09\xc0\x02\x80\x00\x02\xff\xc8\x21\x40\x01\x06",
    ),
];

/// The first packets of the call by which its page is sent on, and their datagrams: CNG, and the DCS with
/// its preamble and training.
const CALLED_LEG: &[(&[u8], &[u8])] = &[
    (b"\x02", b"\x00\x00\x01\x02\x00\x00"),
    (b"\x06", b"\x00\x01\x01\x06\x00\x01\x01\x02"),
    (
        b"\xc0\x02\x80\x00\x02\xff\xc8\xc1\x00\x40\x00\x40",
        b"\x00\x02\x0c\xc0\x02\x80\x00\x02\xff\xc8\xc1\x00\x40\x00\x40\x00\x02\x01\x06\x01\x02",
    ),
    (
        b"\x08",
        b"\x00\x03\x01\x08\x00\x03\x0c\xc0\x02\x80\x00\x02\xff\xc8\xc1\x00\x40\x00\x40\x01\x06\x01\x02",
    ),
];

/// Octets that are no datagram, and the first fault of each.
const FAULTS: &[(&[u8], UdptlFault)] = &[
    (b"", UdptlFault::Short),
    (b"\x00", UdptlFault::Short),
    (b"\x00\x05", UdptlFault::Short),
    (b"\x00\x05\x01", UdptlFault::Short),
    (b"\x00\x05\x01\x06", UdptlFault::Short),
    (b"\x00\x05\x01\x06\x00", UdptlFault::Short),
    (b"\x00\x05\x01\x06\x00\x01", UdptlFault::Short),
    (b"\x00\x05\x01\x06\x00\x02\x01\x06\x01", UdptlFault::Short),
    (b"\x00\x05\x80", UdptlFault::Short),
    (b"\x00\x05\x01\x06\x00\x81", UdptlFault::Short),
    // the first fault, not the shortage after it
    (b"\x00\x05\xc1", UdptlFault::BadLength),
    (b"\x00\x05\x01\x06\x00\xc0", UdptlFault::BadLength),
    (b"\x00\x05\x01\x06\x00\x02\xff", UdptlFault::BadLength),
    (
        b"\x00\x05\x01\x06\x00\x02\x01\x06\xc0",
        UdptlFault::BadLength,
    ),
];

/// Datagrams, with the number, the primary and the secondaries of each.
const READ: &[(&[u8], u16, &[u8], &[&[u8]])] = &[
    (
        b"\x01\x02\x01\x08\x00\x02\x01\x06\x02\x04\x05",
        0x0102,
        b"\x08",
        &[b"\x06", b"\x04\x05"],
    ),
    // no secondaries, and anything after them
    (b"\x00\x05\x01\x06\x00\x00", 5, b"\x06", &[]),
    (b"\x00\x05\x01\x06\x00\x00\xff\xff", 5, b"\x06", &[]),
    // error correction, which is not read: any octet whose top bit is 1
    (b"\x00\x05\x01\x06\x80", 5, b"\x06", &[]),
    (b"\x00\x05\x01\x06\xff\xc1", 5, b"\x06", &[]),
    // any octet whose top bit is 0
    (b"\x00\x05\x01\x06\x7f\x00", 5, b"\x06", &[]),
    // lengths of two octets, also where one octet would do
    (
        b"\x00\x05\x80\x06\xc0\x01\x80\x00\x00\xff\x00\x80\x01\x80\x02\x01\x02",
        5,
        b"\xc0\x01\x80\x00\x00\xff",
        &[b"\x01\x02"],
    ),
];

/// A datagram that comes to a receiver, the first slot that it decides, how many are missing, and the packets after these.
type Taken = (&'static [u8], u16, u16, &'static [&'static [u8]]);

/// Datagrams in the order in which they come to a receiver: numbers wrap.
const WRAPPED: &[Taken] = &[
    (b"\xff\xfe\x01\x06\x00\x00", 65534, 0, &[b"\x06"]),
    (
        b"\x00\x00\x01\x00\x00\x02\x01\x08\x01\x06",
        65535,
        0,
        &[b"\x08", b"\x00"],
    ),
    (b"\xff\xff\x01\x08\x00\x00", 1, 0, &[]),
    (b"\x00\x01\x01\x02\x00\x00", 1, 0, &[b"\x02"]),
    (
        b"\x00\x05\x01\x04\x00\x01\x01\x06",
        2,
        2,
        &[b"\x06", b"\x04"],
    ),
    (b"\x00\x06\x00\x80", 6, 0, &[b""]),
];

/// The slots begin at the oldest secondary.
const OLDEST: &[Taken] = &[
    (
        b"\x00\x01\x01\x08\x00\x03\x01\x06\x01\x04\x01\x02",
        65534,
        0,
        &[b"\x02", b"\x04", b"\x06", b"\x08"],
    ),
    (
        b"\x00\x01\x01\x08\x00\x03\x01\x06\x01\x04\x01\x02",
        2,
        0,
        &[],
    ),
];

/// Half of the numbers lie ahead, where 1 is expected.
const AHEAD: &[Taken] = &[
    (b"\x00\x00\x01\x06\x00\x00", 0, 0, &[b"\x06"]),
    (b"\x80\x01\x01\x08\x00\x00", 1, 0, &[]),
    (b"\x80\x00\x01\x08\x00\x00", 1, 32767, &[b"\x08"]),
    (b"\x80\x00\x01\x08\x00\x00", 0x8001, 0, &[]),
];

/// Four were lost on the way, and three of them come back.
const BROUGHT_BACK: &[Taken] = &[
    (b"\x00\x00\x01\x04\x00\x00", 0, 0, &[b"\x04"]),
    (
        b"\x00\x05\x01\x06\x00\x03\x09\xc0\x02\x80\x00\x02\xff\xc8\x21\x40\x01\x06\x0c\xc0\x02\x80\x00\x05\xff\xc8\x01\x00\x77\x5e\x40",
        1,
        1,
        &[
            b"\xc0\x02\x80\x00\x05\xff\xc8\x01\x00\x77\x5e\x40",
            b"\x06",
            b"\xc0\x02\x80\x00\x02\xff\xc8\x21\x40",
            b"\x06",
        ],
    ),
];

/// A machine that called, without secondaries; the training check is missing.
const CALLER: &[Taken] = &[
    (
        b"\x00\x00\x0c\xc0\x02\x80\x00\x05\xff\xc8\xc1\x00\x40\x00\x40\x00\x00",
        0,
        0,
        &[b"\xc0\x02\x80\x00\x05\xff\xc8\xc1\x00\x40\x00\x40"],
    ),
    (b"\x00\x01\x01\x08\x00\x00", 1, 0, &[b"\x08"]),
    (b"\x00\x03\x01\x08\x00\x00", 2, 1, &[b"\x08"]),
    (
        b"\x00\x04\x12\xc2\x01\xf0\x00\x0c\x00\x14\xd9\xa8\x00\x80\x08\x00\x80\x08\x00\x80\x08\x00\x00",
        4,
        0,
        &[b"\xc2\x01\xf0\x00\x0c\x00\x14\xd9\xa8\x00\x80\x08\x00\x80\x08\x00\x80\x08"],
    ),
    (b"\x00\x05\x01\x06\x00\x00", 5, 0, &[b"\x06"]),
    (
        b"\x00\x06\x09\xc0\x02\x80\x00\x02\xff\xc8\xf4\x40\x00\x00",
        6,
        0,
        &[b"\xc0\x02\x80\x00\x02\xff\xc8\xf4\x40"],
    ),
];

/// The first answers of the machine that was called.
const CALLED: &[Taken] = &[
    (
        b"\x00\x00\x0c\xc0\x02\x80\x00\x05\xff\xc8\x01\x00\x40\x00\x40\x00\x00",
        0,
        0,
        &[b"\xc0\x02\x80\x00\x05\xff\xc8\x01\x00\x40\x00\x40"],
    ),
    (
        b"\x00\x01\x09\xc0\x02\x80\x00\x02\xff\xc8\x21\x40\x00\x00",
        1,
        0,
        &[b"\xc0\x02\x80\x00\x02\xff\xc8\x21\x40"],
    ),
    (
        b"\x00\x02\x09\xc0\x02\x80\x00\x02\xff\xc8\x31\x40\x00\x00",
        2,
        0,
        &[b"\xc0\x02\x80\x00\x02\xff\xc8\x31\x40"],
    ),
];

/// Whether these are the packets, in order.
fn are_packets(packets: Packets<'_>, wanted: &[&[u8]]) -> bool {
    let mut packets = packets;
    let mut all = true;
    for packet in wanted {
        all = all && packets.next() == Some(*packet);
    }
    all && packets.next().is_none()
}

/// Whether these are the secondaries, in order.
fn are_secondaries(secondaries: Secondaries<'_>, wanted: &[&[u8]]) -> bool {
    let mut secondaries = secondaries;
    let mut all = true;
    for packet in wanted {
        all = all && secondaries.next() == Some(*packet);
    }
    all && secondaries.next().is_none()
}

/// Whether octets are a datagram of this number, this primary and these secondaries.
fn is_datagram(octets: &[u8], number: u16, primary: &[u8], secondaries: &[&[u8]]) -> bool {
    let Ok(datagram) = read(octets) else {
        return false;
    };
    datagram.number() == number
        && datagram.primary() == primary
        && are_secondaries(datagram.secondaries(), secondaries)
}

/// Whether a receiver takes the datagram and decides these slots.
fn decides(receiver: &mut Receiver, octets: &[u8], from: u16, lost: u16, wanted: &[&[u8]]) -> bool {
    let Ok(decided) = receiver.take(octets) else {
        return false;
    };
    let only = match wanted {
        [packet] if lost == 0 => Some(*packet),
        _ => None,
    };
    decided.from() == from
        && decided.lost() == lost
        && decided.is_empty() == (lost == 0 && wanted.is_empty())
        && decided.only() == only
        && are_packets(decided.packets(), wanted)
}

/// Whether octets are no datagram, for that reason.
fn is_fault(octets: &[u8], fault: &UdptlFault) -> bool {
    match read(octets) {
        Ok(_) => false,
        Err(found) => found == *fault,
    }
}

#[test]
fn reads_a_number_and_packets(rt: HostRuntime) {
    for (octets, number, primary, secondaries) in READ {
        let is_read = is_datagram(octets, *number, primary, secondaries);
        assert!(rt; is_read, "{octets:?}");
    }
}

#[test]
fn says_what_is_wrong(rt: HostRuntime) {
    for (octets, fault) in FAULTS {
        assert!(rt; is_fault(octets, fault));
    }
}

/// Whether a receiver takes these datagrams, and decides their slots.
fn are_decided(taken: &[Taken]) -> bool {
    let mut receiver = Receiver::new();
    let mut all = true;
    for (octets, from, lost, packets) in taken {
        all = decides(&mut receiver, octets, *from, *lost, packets) && all;
    }
    all
}

#[test]
fn decides_slots(rt: HostRuntime) {
    assert!(rt; are_decided(WRAPPED) && are_decided(OLDEST));
}

#[test]
fn decides_slots_after_a_loss(rt: HostRuntime) {
    assert!(rt; are_decided(AHEAD) && are_decided(BROUGHT_BACK));
}

#[test]
fn decides_slots_of_other_machines(rt: HostRuntime) {
    assert!(rt; are_decided(CALLER) && are_decided(CALLED));
}

/// How many packets come.
fn count_of(packets: Packets<'_>) -> usize {
    let mut count = 0usize;
    for _ in packets {
        count = count.saturating_add(1);
    }
    count
}

/// The first slot that a datagram decides, how many packets it brings, and the last of them.
fn taken(octets: &[u8]) -> Option<(u16, usize, &[u8])> {
    let decided = Receiver::new().take(octets).ok()?;
    let last = decided.packets().last()?;
    Some((decided.from(), count_of(decided.packets()), last))
}

#[test]
fn takes_the_longest_datagram(rt: HostRuntime) {
    // the most octets that UDP carries over IPv4: a primary of one octet, and 16,375 secondaries of three, all of which are 3
    let mut octets = [3; 65_507];
    octets[..7].copy_from_slice(b"\x12\x34\x01\x06\x00\xbf\xf7");
    assert!(rt; taken(&octets) == Some((0xd23d, 16_376, b"\x06".as_slice())));
}

/// Whether the packet is sent as this datagram.
fn is_sent(sender: &mut Sender, packet: &[u8], wanted: &[u8]) -> Result<bool, NoMemory> {
    if packet.len() > 16_383 {
        return Ok(false);
    }
    let sent = sender.send(packet)?;
    Ok(sent.as_slice() == wanted)
}

/// Whether a sender sends the packets of one end as these datagrams.
fn is_leg_sent(alloc: Global, leg: &[(&[u8], &[u8])]) -> Result<bool, NoMemory> {
    let mut sender = Sender::new(alloc, 3)?;
    sender.reserve(200)?;
    let mut all = true;
    for (packet, datagram) in leg {
        all = is_sent(&mut sender, packet, datagram)? && all;
    }
    Ok(all)
}

#[test]
fn sends_each_packet_with_the_three_before_it(rt: HostRuntime) {
    for leg in [CALLED_LEG, ANSWERING_LEG] {
        assert!(rt; is_leg_sent(rt.alloc(), leg) == Ok(true));
    }
}

/// Whether the packet is sent in a datagram of so many octets that begins so and holds it.
fn has_front(alloc: Global, packet: &[u8], front: &[u8], length: usize) -> Result<bool, NoMemory> {
    if packet.len() > 16_383 {
        return Ok(false);
    }
    let sent = Sender::new(alloc, 3)?.send(packet)?;
    let octets = sent.as_slice();
    let is_framed = octets.starts_with(front) && octets.len() == length;
    Ok(is_framed && is_datagram(octets, 0, packet, &[]))
}

#[test]
fn writes_lengths_of_one_and_two_octets(rt: HostRuntime) {
    let zeros = [0u8; 16_383];
    for (count, front, length) in [
        (0, b"\x00\x00\x00".as_slice(), 5),
        (127, b"\x00\x00\x7f".as_slice(), 132),
        (128, b"\x00\x00\x80\x80".as_slice(), 134),
        (16_383, b"\x00\x00\xbf\xff".as_slice(), 16_389),
    ] {
        let packet = zeros.get(..count).unwrap_or_default();
        assert!(rt; has_front(rt.alloc(), packet, front, length) == Ok(true));
    }
}
