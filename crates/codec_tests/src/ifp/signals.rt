//! The pieces of slots made by hand.
use fax_bits::NoMemory;
use fax_ifp::{Piece, Pieces, Signals, Slot};
use std::alloc::Global;
use std::process::Abort;
use std::test::Fail;

/// A piece as a test names it.
#[derive(Clone, Copy)]
enum Told<'a> {
    Frame(&'a [u8]),
    Start(u8),
    Octets(&'a [u8]),
    End(bool),
    Gap,
}

/// Slots, and the pieces that they give.
type Case = (&'static [Slot<'static>], &'static [Told<'static>]);

const WORKED_FRAME: Told<'static> = Told::Frame(&[0xff, 0xc8, 0x21]);

/// The training indicators of V.27 ter at 2400 and at 4800, and the V.21 preamble.
const TRAINING: Slot<'static> = Slot::Packet(&[0x08]);

const OTHER_TRAINING: Slot<'static> = Slot::Packet(&[0x0a]);

const PREAMBLE: Slot<'static> = Slot::Packet(&[0x06]);

/// An extension, and packets that cannot be read.
const EXTENSION: Slot<'static> = Slot::Packet(&[0xe0]);

const CUT_OFF: Slot<'static> = Slot::Packet(&[0xc0, 0x03, 0x24]);

const EMPTY: Slot<'static> = Slot::Packet(&[]);

/// A page of one white row in V.27 ter data at 2400, with t4-non-ecm-sig-end.
const PAGE: &[u8] = &[
    0x00, 0x14, 0xd9, 0xa8, 0x00, 0x80, 0x08, 0x00, 0x80, 0x08, 0x00, 0x80, 0x08,
];

const WHOLE_PAGE: Slot<'static> = Slot::Packet(&[
    0xc2, 0x01, 0xf0, 0x00, 0x0c, 0x00, 0x14, 0xd9, 0xa8, 0x00, 0x80, 0x08, 0x00, 0x80, 0x08, 0x00,
    0x80, 0x08,
]);

/// Two octets of an image, another one, and the last.
const FIRST_PART: Slot<'static> = Slot::Packet(&[0xc2, 0x01, 0xe0, 0x00, 0x01, 0xaa, 0xbb]);

const MORE: Slot<'static> = Slot::Packet(&[0xc2, 0x01, 0xe0, 0x00, 0x00, 0xcc]);

const LAST_PART: Slot<'static> = Slot::Packet(&[0xc2, 0x01, 0xf0, 0x00, 0x00, 0xdd]);

/// The end of an image with no octets.
const BARE_END: Slot<'static> = Slot::Packet(&[0xc2, 0x01, 0x70]);

/// An octet of an image in V.27 ter data at 4800.
const OTHER_PART: Slot<'static> = Slot::Packet(&[0xc4, 0x01, 0xe0, 0x00, 0x00, 0xee]);

/// Nine fields of an octet each, and the end.
const MANY_FIELDS: Slot<'static> = Slot::Packet(&[
    0xc2, 0x0a, 0xe0, 0, 0, 1, 0xe0, 0, 0, 2, 0xe0, 0, 0, 3, 0xe0, 0, 0, 4, 0xe0, 0, 0, 5, 0xe0, 0,
    0, 6, 0xe0, 0, 0, 7, 0xe0, 0, 0, 8, 0xe0, 0, 0, 9, 0x70,
]);

/// Four and seven fields of an octet each, and the end.
const FIVE_FIELDS: Slot<'static> = Slot::Packet(&[
    0xc2, 0x05, 0xe0, 0, 0, 1, 0xe0, 0, 0, 2, 0xe0, 0, 0, 3, 0xe0, 0, 0, 4, 0x70,
]);

const EIGHT_FIELDS: Slot<'static> = Slot::Packet(&[
    0xc2, 0x08, 0xe0, 0, 0, 1, 0xe0, 0, 0, 2, 0xe0, 0, 0, 3, 0xe0, 0, 0, 4, 0xe0, 0, 0, 5, 0xe0, 0,
    0, 6, 0xe0, 0, 0, 7, 0x70,
]);

/// A frame whose check sequence is right, and the same where it is wrong, both with the signal's end.
const FRAME: Slot<'static> = Slot::Packet(&[0xc0, 0x02, 0x80, 0x00, 0x02, 0xff, 0xc8, 0x21, 0x40]);

const BAD_FRAME: Slot<'static> = Slot::Packet(&[
    0xc0, 0x02, 0x80, 0x00, 0x02, 0xff, 0xc8, 0x21, 0x50,
]);

/// Its first octet, the others with a right check sequence, and with a wrong one.
const HEAD: Slot<'static> = Slot::Packet(&[0xc0, 0x01, 0x80, 0x00, 0x00, 0xff]);

const TAIL: Slot<'static> = Slot::Packet(&[0xc0, 0x02, 0x80, 0x00, 0x01, 0xc8, 0x21, 0x20]);

const BAD_TAIL: Slot<'static> = Slot::Packet(&[0xc0, 0x02, 0x80, 0x00, 0x01, 0xc8, 0x21, 0x30]);

/// The end of a V.21 signal, and a right check sequence with no octets before it.
const SIGNAL_END: Slot<'static> = Slot::Packet(&[0xc0, 0x01, 0x10]);

const BARE_CHECK: Slot<'static> = Slot::Packet(&[0xc0, 0x01, 0x40]);

/// Whether a piece is that which a test names.
fn is_told(piece: &Piece<'_>, told: &Told<'_>) -> bool {
    match told {
        Told::Frame(octets) => matches!(piece, Piece::Frame(frame) if frame.as_slice() == *octets),
        Told::Start(kind) => matches!(piece, Piece::Start(given) if given == kind),
        Told::Octets(octets) => matches!(piece, Piece::Octets(given) if given == octets),
        Told::End(whole) => matches!(piece, Piece::End { whole: given } if given == whole),
        Told::Gap => matches!(piece, Piece::Gap),
    }
}

/// Fails unless the pieces are those told from the place on; answers the place after them.
fn expect_pieces(rt: &impl Abort, pieces: &Pieces<'_>, told: &[Told<'_>], from: usize) -> usize {
    let mut place = from;
    for piece in pieces.as_slice() {
        let is_told = told.get(place).is_some_and(|told| is_told(piece, told));
        assert!(rt; is_told, "at {place}");
        place = place.saturating_add(1);
    }
    place
}

/// Fails unless a slot gives the pieces that are told from the place on; answers the place after them.
fn place_after(
    rt: &impl Abort,
    signals: &mut Signals,
    slot: Slot<'_>,
    told: &[Told<'_>],
    from: usize,
) -> Result<usize, NoMemory> {
    let pieces = signals.slot(slot)?;
    Ok(expect_pieces(rt, &pieces, told, from))
}

/// Fails unless the slots give the pieces.
fn expect(
    rt: &impl Abort,
    alloc: Global,
    slots: &[Slot<'_>],
    told: &[Told<'_>],
) -> Result<(), NoMemory> {
    let mut signals = Signals::new(alloc);
    let mut place = 0;
    for slot in slots {
        place = place_after(rt, &mut signals, *slot, told, place)?;
    }
    assert!(rt; place == told.len());
    Ok(())
}

/// Images, whole.
const IMAGES: &[Case] = &[
    (
        &[TRAINING, WHOLE_PAGE],
        &[Told::Start(1), Told::Octets(PAGE), Told::End(true)],
    ),
    // in three packets
    (
        &[TRAINING, FIRST_PART, MORE, LAST_PART],
        &[
            Told::Start(1),
            Told::Octets(&[0xaa, 0xbb]),
            Told::Octets(&[0xcc]),
            Told::Octets(&[0xdd]),
            Told::End(true),
        ],
    ),
    // its last field has no octets
    (
        &[TRAINING, FIRST_PART, BARE_END],
        &[Told::Start(1), Told::Octets(&[0xaa, 0xbb]), Told::End(true)],
    ),
    // ended by the next indicator
    (
        &[TRAINING, FIRST_PART, PREAMBLE],
        &[Told::Start(1), Told::Octets(&[0xaa, 0xbb]), Told::End(true)],
    ),
    (
        &[TRAINING, FIRST_PART, OTHER_TRAINING, OTHER_PART],
        &[
            Told::Start(1),
            Told::Octets(&[0xaa, 0xbb]),
            Told::End(true),
            Told::Start(2),
            Told::Octets(&[0xee]),
        ],
    ),
    // signals without an octet
    (
        &[TRAINING, OTHER_TRAINING, PREAMBLE],
        &[Told::Start(1), Told::Start(2)],
    ),
    (&[TRAINING, BARE_END, PREAMBLE], &[Told::Start(1)]),
    // octets with no training, and after the end
    (
        &[MORE, TRAINING, LAST_PART, MORE, PREAMBLE],
        &[Told::Start(1), Told::Octets(&[0xdd]), Told::End(true)],
    ),
];

/// Images in five, eight and ten fields.
const FIELDS: &[Case] = &[
    (
        &[TRAINING, FIVE_FIELDS],
        &[
            Told::Start(1),
            Told::Octets(&[1]),
            Told::Octets(&[2]),
            Told::Octets(&[3]),
            Told::Octets(&[4]),
            Told::End(true),
        ],
    ),
    (
        &[TRAINING, EIGHT_FIELDS],
        &[
            Told::Start(1),
            Told::Octets(&[1]),
            Told::Octets(&[2]),
            Told::Octets(&[3]),
            Told::Octets(&[4]),
            Told::Octets(&[5]),
            Told::Octets(&[6]),
            Told::Octets(&[7]),
            Told::End(true),
        ],
    ),
    (
        &[TRAINING, MANY_FIELDS],
        &[
            Told::Start(1),
            Told::Octets(&[1]),
            Told::Octets(&[2]),
            Told::Octets(&[3]),
            Told::Octets(&[4]),
            Told::Octets(&[5]),
            Told::Octets(&[6]),
            Told::Octets(&[7]),
            Told::Octets(&[8]),
            Told::Octets(&[9]),
            Told::End(true),
        ],
    ),
];

/// Images in which something is missing or has no place.
const BROKEN_IMAGES: &[Case] = &[
    (
        &[TRAINING, Slot::Lost, WHOLE_PAGE],
        &[
            Told::Start(1),
            Told::Gap,
            Told::Octets(PAGE),
            Told::End(false),
        ],
    ),
    // a gap just before the indicator that ends it
    (
        &[TRAINING, FIRST_PART, Slot::Lost, PREAMBLE],
        &[
            Told::Start(1),
            Told::Octets(&[0xaa, 0xbb]),
            Told::Gap,
            Told::End(false),
        ],
    ),
    // a gap before it begins is not in it
    (
        &[Slot::Lost, TRAINING, WHOLE_PAGE],
        &[
            Told::Gap,
            Told::Start(1),
            Told::Octets(PAGE),
            Told::End(true),
        ],
    ),
    // fields of other data in it, whose octets are not its own
    (
        &[TRAINING, OTHER_PART, LAST_PART],
        &[Told::Start(1), Told::Octets(&[0xdd]), Told::End(false)],
    ),
    (
        &[TRAINING, FIRST_PART, SIGNAL_END, LAST_PART],
        &[
            Told::Start(1),
            Told::Octets(&[0xaa, 0xbb]),
            Told::Octets(&[0xdd]),
            Told::End(false),
        ],
    ),
];

/// The indicators 0 to 15 as they are written, and the images that those that train start, by the types of their data.
const STARTS: &[Case] = &[
    (&[Slot::Packet(&[0x00])], &[]),
    (&[Slot::Packet(&[0x02])], &[]),
    (&[Slot::Packet(&[0x04])], &[]),
    (&[Slot::Packet(&[0x06])], &[]),
    (&[Slot::Packet(&[0x08])], &[Told::Start(1)]),
    (&[Slot::Packet(&[0x0a])], &[Told::Start(2)]),
    (&[Slot::Packet(&[0x0c])], &[Told::Start(3)]),
    (&[Slot::Packet(&[0x0e])], &[Told::Start(4)]),
    (&[Slot::Packet(&[0x10])], &[Told::Start(5)]),
    (&[Slot::Packet(&[0x12])], &[Told::Start(5)]),
    (&[Slot::Packet(&[0x14])], &[Told::Start(6)]),
    (&[Slot::Packet(&[0x16])], &[Told::Start(6)]),
    (&[Slot::Packet(&[0x18])], &[Told::Start(7)]),
    (&[Slot::Packet(&[0x1a])], &[Told::Start(7)]),
    (&[Slot::Packet(&[0x1c])], &[Told::Start(8)]),
    (&[Slot::Packet(&[0x1e])], &[Told::Start(8)]),
];

/// Frames, whole and broken.
const FRAMES: &[Case] = &[
    (&[FRAME], &[WORKED_FRAME]),
    (&[BAD_FRAME, FRAME], &[WORKED_FRAME]),
    (&[HEAD, TAIL], &[WORKED_FRAME]),
    (&[HEAD, BAD_TAIL], &[]),
    (&[HEAD, TAIL, HEAD, TAIL], &[WORKED_FRAME, WORKED_FRAME]),
    // boundaries in the middle
    (&[HEAD, PREAMBLE, FRAME], &[WORKED_FRAME]),
    (&[HEAD, SIGNAL_END, FRAME], &[WORKED_FRAME]),
    (&[HEAD, BAD_FRAME, FRAME], &[WORKED_FRAME]),
    // no octets
    (&[PREAMBLE, BARE_CHECK], &[]),
];

/// Slots that are missing, and extensions.
const GAPS: &[Case] = &[
    (
        &[Slot::Lost, CUT_OFF, EMPTY],
        &[Told::Gap, Told::Gap, Told::Gap],
    ),
    (&[HEAD, Slot::Lost, TAIL], &[Told::Gap]),
    // no frame before a boundary
    (&[Slot::Lost, FRAME, FRAME], &[Told::Gap, WORKED_FRAME]),
    (&[Slot::Lost, PREAMBLE, FRAME], &[Told::Gap, WORKED_FRAME]),
    // an extension says nothing
    (&[EXTENSION], &[]),
    (&[HEAD, EXTENSION, TAIL], &[WORKED_FRAME]),
    (
        &[TRAINING, EXTENSION, LAST_PART],
        &[Told::Start(1), Told::Octets(&[0xdd]), Told::End(true)],
    ),
];

/// Fails unless each case gives its pieces.
fn expect_all(rt: &impl Abort, alloc: Global, cases: &[Case]) -> Result<(), NoMemory> {
    for (slots, told) in cases {
        expect(rt, alloc, slots, told)?;
    }
    Ok(())
}

// A test for each table: what a function costs grows faster than the tables that it names.
#[test]
fn images_are_cut(rt: HostRuntime) -> Result<(), Fail> {
    Ok(expect_all(&rt, rt.alloc(), IMAGES)?)
}

#[test]
fn images_are_cut_from_fields(rt: HostRuntime) -> Result<(), Fail> {
    Ok(expect_all(&rt, rt.alloc(), FIELDS)?)
}

#[test]
fn broken_images_are_told(rt: HostRuntime) -> Result<(), Fail> {
    Ok(expect_all(&rt, rt.alloc(), BROKEN_IMAGES)?)
}

#[test]
fn training_starts_images(rt: HostRuntime) -> Result<(), Fail> {
    Ok(expect_all(&rt, rt.alloc(), STARTS)?)
}

#[test]
fn frames_are_cut(rt: HostRuntime) -> Result<(), Fail> {
    Ok(expect_all(&rt, rt.alloc(), FRAMES)?)
}

#[test]
fn gaps_are_told(rt: HostRuntime) -> Result<(), Fail> {
    Ok(expect_all(&rt, rt.alloc(), GAPS)?)
}

#[test]
fn frames_have_at_most_256_octets(rt: HostRuntime) -> Result<(), Fail> {
    let mut longest = [0x55; 262];
    longest[..5].copy_from_slice(b"\xc0\x02\x80\x00\xff");
    longest[261] = 0x40;
    let mut too_long = [0x55; 263];
    too_long[..5].copy_from_slice(b"\xc0\x02\x80\x01\x00");
    too_long[262] = 0x40;
    let slots = [
        Slot::Packet(&longest),
        Slot::Packet(&too_long),
        Slot::Packet(&longest),
    ];
    let frame = Told::Frame(&[0x55; 256]);
    expect(&rt, rt.alloc(), &slots, &[frame, frame])?;
    Ok(())
}
