//! Packets worked by hand. `explain-captured.toml` of `tests/cases` has those that another implementation of T.38 sent.
ghost use Rattle.std.specs.Prelude.{◌≡◌, ◌≤◌, IsTrue, length};
ghost use Rattle.fax_ifp.specs.Seen.{text_of, texts_of};
ghost use Rattle.fax_ifp.specs.WrittenPackets.{IsWritable, IsWritableField};

mod codes;
mod signals;

use fax_bits::NoMemory;
use fax_ifp::{
    Field, Head, Ifp, IfpFault, data_length, write_data, write_frame, write_image, write_indicator,
};
use std::alloc::Global;
use std::test::Fail;

/// The packet of data of a kind with fields.
struct Worked {
    octets: &'static [u8],
    kind: u8,
    fields: &'static [Field<'static>],
}

/// Fields without octets.
const EIGHT: [Field<'static>; 8] = [Field {
    what: 3,
    octets: None,
}; 8];

const NINE: [Field<'static>; 9] = [Field {
    what: 3,
    octets: None,
}; 9];

const MOST: [Field<'static>; 127] = [Field {
    what: 3,
    octets: None,
}; 127];

/// The packet of a frame of three octets.
const FRAME_PACKET: &[u8] = &[0xc0, 0x02, 0x80, 0x00, 0x02, 0xff, 0xc8, 0x21, 0x40];

/// The packet of a page of one white row, which ends its signal.
const PAGE_PACKET: &[u8] = &[
    0xc2, 0x01, 0xf0, 0x00, 0x0c, 0x00, 0x14, 0xd9, 0xa8, 0x00, 0x80, 0x08, 0x00, 0x80, 0x08, 0x00,
    0x80, 0x08,
];

/// The packet of a part of a training check, and of the last part.
const CHECK_PACKET: &[u8] = &[
    0xc2, 0x01, 0xe0, 0x00, 0x0b, 0x00, 0x00, 0x00, 0x00, 0x00, 0x00, 0x00, 0x00, 0x00, 0x00, 0x00,
    0x00,
];

const LAST_CHECK_PACKET: &[u8] = &[
    0xc2, 0x01, 0xf0, 0x00, 0x05, 0x00, 0x00, 0x00, 0x00, 0x00, 0x00,
];

const WORKED: &[Worked] = &[
    Worked {
        octets: &[0x40],
        kind: 0,
        fields: &[],
    },
    Worked {
        octets: &[0xc0, 0x02, 0x24],
        kind: 0,
        fields: &[
            Field {
                what: 2,
                octets: None,
            },
            Field {
                what: 4,
                octets: None,
            },
        ],
    },
    Worked {
        octets: &[0xc0, 0x01, 0x20],
        kind: 0,
        fields: &[Field {
            what: 2,
            octets: None,
        }],
    },
    Worked {
        octets: FRAME_PACKET,
        kind: 0,
        fields: &[
            Field {
                what: 0,
                octets: Some(&[0xff, 0xc8, 0x21]),
            },
            Field {
                what: 4,
                octets: None,
            },
        ],
    },
    Worked {
        octets: PAGE_PACKET,
        kind: 1,
        fields: &[Field {
            what: 7,
            octets: Some(&[
                0x00, 0x14, 0xd9, 0xa8, 0x00, 0x80, 0x08, 0x00, 0x80, 0x08, 0x00, 0x80, 0x08,
            ]),
        }],
    },
    Worked {
        octets: CHECK_PACKET,
        kind: 1,
        fields: &[Field {
            what: 6,
            octets: Some(&[
                0x00, 0x00, 0x00, 0x00, 0x00, 0x00, 0x00, 0x00, 0x00, 0x00, 0x00, 0x00,
            ]),
        }],
    },
    Worked {
        octets: LAST_CHECK_PACKET,
        kind: 1,
        fields: &[Field {
            what: 7,
            octets: Some(&[0x00, 0x00, 0x00, 0x00, 0x00, 0x00]),
        }],
    },
    Worked {
        octets: &[0xd0, 0x03, 0x28, 0x00, 0x01, 0x01, 0x02, 0x40],
        kind: 8,
        fields: &[
            Field {
                what: 2,
                octets: None,
            },
            Field {
                what: 0,
                octets: Some(&[0x01, 0x02]),
            },
            Field {
                what: 4,
                octets: None,
            },
        ],
    },
    Worked {
        octets: &[0xc0, 0x04, 0x12, 0x3d, 0x00, 0x00, 0x55],
        kind: 0,
        fields: &[
            Field {
                what: 1,
                octets: None,
            },
            Field {
                what: 2,
                octets: None,
            },
            Field {
                what: 3,
                octets: None,
            },
            Field {
                what: 5,
                octets: Some(&[0x55]),
            },
        ],
    },
    Worked {
        octets: &[0xc2, 0x03, 0x12, 0x30],
        kind: 1,
        fields: &[
            Field {
                what: 1,
                octets: None,
            },
            Field {
                what: 2,
                octets: None,
            },
            Field {
                what: 3,
                octets: None,
            },
        ],
    },
    Worked {
        octets: &[0xc0, 0x08, 0x33, 0x33, 0x33, 0x33],
        kind: 0,
        fields: &EIGHT,
    },
    Worked {
        octets: &[0xc0, 0x09, 0x33, 0x33, 0x33, 0x33, 0x30],
        kind: 0,
        fields: &NINE,
    },
    Worked {
        octets: &[
            0xc0, 0x7f, 0x33, 0x33, 0x33, 0x33, 0x33, 0x33, 0x33, 0x33, 0x33, 0x33, 0x33, 0x33,
            0x33, 0x33, 0x33, 0x33, 0x33, 0x33, 0x33, 0x33, 0x33, 0x33, 0x33, 0x33, 0x33, 0x33,
            0x33, 0x33, 0x33, 0x33, 0x33, 0x33, 0x33, 0x33, 0x33, 0x33, 0x33, 0x33, 0x33, 0x33,
            0x33, 0x33, 0x33, 0x33, 0x33, 0x33, 0x33, 0x33, 0x33, 0x33, 0x33, 0x33, 0x33, 0x33,
            0x33, 0x33, 0x33, 0x33, 0x33, 0x33, 0x33, 0x33, 0x33, 0x30,
        ],
        kind: 0,
        fields: &MOST,
    },
];

/// The octets of images in data of kind 1, whether they end the signal, and their packets.
const IMAGES: &[(bool, &[u8], &[u8])] = &[
    (
        true,
        &[
            0x00, 0x14, 0xd9, 0xa8, 0x00, 0x80, 0x08, 0x00, 0x80, 0x08, 0x00, 0x80, 0x08,
        ],
        PAGE_PACKET,
    ),
    (false, &[0; 12], CHECK_PACKET),
    (true, &[0; 6], LAST_CHECK_PACKET),
];

/// Octets, and the head of the packet that they are and how many fields it has; or why they are none.
const READ: &[(&[u8], Result<(Head, usize), IfpFault>)] = &[
    (&[], Err(IfpFault::Short)),
    (&[0xc0, 0x03, 0x24], Err(IfpFault::Short)),
    (&[0xe0], Err(IfpFault::Extension)),
    (&[0xd2, 0x00], Err(IfpFault::BadValue)),
    (&[0xc0, 0x80], Err(IfpFault::BadCount)),
    (&[0x86], Err(IfpFault::Short)),
    (&[0x86, 0x80], Err(IfpFault::BadCount)),
    (&[0x26], Err(IfpFault::Extension)),
    (&[0xd2], Err(IfpFault::BadValue)),
    (&[0xf2], Err(IfpFault::Extension)),
    (&[0xc0], Err(IfpFault::Short)),
    (&[0xc0, 0x01, 0x80, 0x00], Err(IfpFault::Short)),
    (&[0xc0, 0x01, 0x80, 0xff, 0xff], Err(IfpFault::BadCount)),
    (&[0xc0, 0x01, 0x80, 0x00, 0x01, 0xff], Err(IfpFault::Short)),
    (&[0x86, 0x01, 0xf0], Err(IfpFault::Short)),
    (&[0x86, 0x02, 0x1f, 0xff, 0xff], Err(IfpFault::BadCount)),
    // The ninth field and the eleventh are not there: want of memory comes after that.
    (&[0xc0, 0x09, 0x33, 0x33, 0x33, 0x33], Err(IfpFault::Short)),
    (
        &[0xc0, 0x0b, 0x33, 0x33, 0x33, 0x33, 0x33],
        Err(IfpFault::Short),
    ),
    // An indicator with no fields, with a field of either kind, and with an octet after it.
    (&[0x86, 0x00], Ok((Head::Indicator(3), 0))),
    (&[0x86, 0x01, 0x20], Ok((Head::Indicator(3), 0))),
    (
        &[0x86, 0x01, 0x80, 0x00, 0x00, 0xff],
        Ok((Head::Indicator(3), 0)),
    ),
    (&[0x06, 0xff], Ok((Head::Indicator(3), 0))),
    // Data with a count of 0, and with octets after the fields.
    (&[0xc0, 0x00], Ok((Head::Message { kind: 0 }, 0))),
    (&[0xc0, 0x00, 0xff], Ok((Head::Message { kind: 0 }, 0))),
    (
        &[0xc0, 0x02, 0x24, 0xff],
        Ok((Head::Message { kind: 0 }, 2)),
    ),
    // Padding of ones.
    (&[0x07], Ok((Head::Indicator(3), 0))),
    (&[0xc1, 0x01, 0x2f], Ok((Head::Message { kind: 0 }, 1))),
];

/// Whether fields can be written.
fn is_writable(kind: u8, fields: &[Field<'_>]) -> bool
    ensures { IsTrue result → IsWritable kind (texts_of fields.now) }
{
    if kind > 8 || fields.len() > 127 {
        return false;
    }
    for field in fields {
        if !is_writable_field(field) {
            return false;
        }
    }
    true
}

fn is_writable_field(field: &Field<'_>) -> bool
    ensures { IsTrue result → IsWritableField (text_of field.now) }
{
    let few = match field.octets {
        None => true,
        Some(octets) => !octets.is_empty() && octets.len() <= 65_535,
    };
    field.what <= 7 && few
}

/// Whether a packet is written as what it is.
fn is_written(alloc: Global, packet: &Worked) -> Result<bool, NoMemory> {
    if !is_writable(packet.kind, packet.fields) {
        return Ok(false);
    }
    let length = data_length(packet.fields);
    let written = write_data(alloc, packet.kind, packet.fields)?;
    Ok(length == packet.octets.len() && written.as_slice() == packet.octets)
}

#[test]
fn worked_packets_are_read_and_written(rt: HostRuntime) -> Result<(), Fail> {
    for packet in WORKED {
        assert!(rt; is_written(rt.alloc(), packet)?);
        let read = Ifp::read(rt.alloc(), packet.octets)?;
        assert!(rt; read.head() == Head::Message { kind: packet.kind });
        assert!(rt; read.fields() == packet.fields);
    }
    Ok(())
}

/// The head of a packet, and how many fields it has.
fn shown(alloc: Global, octets: &[u8]) -> Result<(Head, usize), IfpFault> {
    let read = Ifp::read(alloc, octets)?;
    Ok((read.head(), read.fields().len()))
}

#[test]
fn indicators_are_read_and_written(rt: HostRuntime) {
    for code in 0..16 {
        let octets = write_indicator(code);
        let shown = shown(rt.alloc(), &octets);
        assert!(rt; octets == [2 * code] && shown == Ok((Head::Indicator(code), 0)));
    }
}

#[test]
fn packets_are_read_or_it_is_said_why_not(rt: HostRuntime) {
    for (octets, wanted) in READ {
        assert!(rt; shown(rt.alloc(), octets) == *wanted, "{octets:?}");
    }
}

/// Whether the worked frame is written as its packet.
fn is_frame_written(alloc: Global) -> Result<bool, NoMemory> {
    let frame = write_frame(alloc, &[0xff, 0xc8, 0x21])?;
    Ok(frame.as_slice() == FRAME_PACKET)
}

/// Whether octets of an image are written as this packet.
fn is_image_written(
    alloc: Global,
    last: bool,
    image: &[u8],
    packet: &[u8],
) -> Result<bool, NoMemory> {
    if image.is_empty() || image.len() > 65_535 {
        return Ok(false);
    }
    let written = write_image(alloc, 1, last, image)?;
    Ok(written.as_slice() == packet)
}

// Each is put into just enough room: `put_frame`, `put_image` and `put_data` run here too.
#[test]
fn frames_and_images_are_written(rt: HostRuntime) {
    let is_frame = is_frame_written(rt.alloc()) == Ok(true);
    for (last, image, packet) in IMAGES {
        assert!(rt; is_frame && is_image_written(rt.alloc(), *last, image, packet) == Ok(true));
    }
}
