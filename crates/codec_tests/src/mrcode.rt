//! Two-dimensional lines, spelt by hand with ITU-T T.4, table 4/T.4, and its tables of runs.
use crate::mhcode::{Line, is_line};
use crate::runcodes::row_of;
use fax_bits::{BitReader, BitWriter, NoMemory, Octets};
use fax_mhcode::LineFault;
use fax_mrcode::{read_line_2d, write_line_2d};
use fax_runcodes::{Row, RowFault, RunFault};
use std::alloc::Global;
use std::process::Abort;

/// The runs of the reference, octets, and the line that begins them.
const READ: &[(&[u16], &[u8], Line)] = &[
    // V0
    (&[1728], &[0x80], Ok((1, &[]))),
    // horizontal with white 0 and black 3, V0
    (&[1728], &[0x26, 0xb4], Ok((14, &[0, 3]))),
    // horizontal with white 1728 and black 0
    (&[1728], &[0x29, 0xb3, 0x50, 0xdc], Ok((30, &[]))),
    // VL2, VL1, V0
    (&[4, 1, 1723], &[0x09, 0x40], Ok((10, &[2, 4]))),
    // pass, V0
    (&[4, 1, 1723], &[0x18], Ok((5, &[]))),
    // VR1, V0
    (&[4, 1, 1723], &[0x70], Ok((4, &[5]))),
    // V0 five times
    (&[4, 1, 1, 1, 1721], &[0xff], Ok((5, &[4, 5, 6, 7]))),
    // V0 three times, VR1, V0
    (&[4, 1, 1, 1, 1721], &[0xee], Ok((7, &[4, 5, 6, 8]))),
    // V0 three times, the first at the first element, and not
    (&[0, 3, 1725], &[0xe0], Ok((3, &[0, 3]))),
    (&[2, 2, 1724], &[0xf0], Ok((3, &[2, 4]))),
    // Horizontal with white 12 and black 1, VL3 from 21, V0 at 20, V0 at 21, V0: the place 20 lies
    // left of b1 and right of a1.
    (
        &[10, 10, 1, 1707],
        &[0x24, 0x20, 0x5c],
        Ok((22, &[12, 13, 18, 20, 21])),
    ),
    // pass with b2 at the width
    (&[1728], &[0x18], Err(LineFault::BadPlace)),
    // horizontal with white 1728 + 1
    (&[1728], &[0x29, 0xb1, 0xc0], Err(LineFault::PastWidth)),
    // horizontal with white 1 and black 0
    (&[1728], &[0x23, 0x86, 0xe0], Err(LineFault::BadPlace)),
    // horizontal, and then a part of a word
    (&[1728], &[0x20], Err(LineFault::Run(RunFault::End))),
    // horizontal, and then no word
    (
        &[1728],
        &[0x20, 0x00],
        Err(LineFault::Run(RunFault::NoWord)),
    ),
    // the front of an extension
    (&[1728], &[0x02], Err(LineFault::NoMode)),
    (&[1728], &[], Err(LineFault::NoMode)),
    // VR1 and VR3 from the width
    (&[1728], &[0x60], Err(LineFault::BadPlace)),
    (&[2432], &[0x06], Err(LineFault::BadPlace)),
    // V0, VL3
    (&[4, 1, 1723], &[0x82], Err(LineFault::BadPlace)),
    // V0, VL1
    (&[4, 1, 1723], &[0xa0], Err(LineFault::BadPlace)),
    // V0, horizontal with black 3 and then a part of a word
    (&[4, 1, 1723], &[0x98], Err(LineFault::Run(RunFault::End))),
    // pass, and then no word of a mode
    (&[4, 1, 1723], &[0x10, 0x00], Err(LineFault::NoMode)),
    // horizontal with white 0 and black 3, VR1 from the width
    (&[1728], &[0x26, 0xb3], Err(LineFault::BadPlace)),
];

/// Runs of a reference and of a row, and the octets of the bits 101 and then the row's line.
const WRITTEN: &[(&[u16], &[u16], &[u8])] = &[
    // V0
    (&[1728], &[1728], &[0xb0]),
    // white 0 and black 3, V0
    (&[1728], &[0, 3, 1725], &[0xa4, 0xd6, 0x80]),
    // VL2, VL1, V0
    (&[4, 1, 1723], &[2, 2, 1724], &[0xa1, 0x28]),
    // pass, V0
    (&[4, 1, 1723], &[1728], &[0xa3]),
    // VR3, VR3, V0
    (&[4, 10, 1714], &[7, 10, 1711], &[0xa0, 0xc1, 0xc0]),
    // pass, though a1 lies three right of b1; white 2 and black 1, V0
    (&[4, 1, 1723], &[7, 1, 1720], &[0xa2, 0x5d, 0x40]),
    // horizontal, with a black run of none
    (&[0, 1728], &[1728], &[0xa5, 0x36, 0x6a, 0x1b, 0x80]),
    (&[1728], &[0, 1728], &[0xa4, 0xd4, 0x0c, 0xa1, 0xb8]),
    (&[0, 1728], &[0, 1728], &[0xb8]),
    // two passes at white, one at black
    (&[2, 2, 2, 2, 1720], &[12, 3, 1713], &[0xa2, 0x26, 0xe8]),
    (
        &[100, 5, 100, 5, 1518],
        &[98, 110, 1520],
        &[0xa1, 0x08, 0x50],
    ),
    (&[10, 2, 10, 2, 1704], &[9, 2, 11, 3, 1703], &[0xa9, 0x5c]),
    // one step back
    (
        &[20, 1, 1, 1, 1705],
        &[18, 2, 1, 2, 1705],
        &[0xa1, 0x25, 0x80],
    ),
    // a1 three right of b1, four right and four left
    (&[1000, 728], &[1003, 725], &[0xa0, 0xe0]),
    (
        &[1000, 728],
        &[1004, 724],
        &[0xa5, 0xa8, 0x5a, 0x04, 0xb0, 0xd0],
    ),
    (
        &[1000, 728],
        &[996, 732],
        &[0xa5, 0xa8, 0x2a, 0x04, 0xb0, 0xcc],
    ),
    (
        &[2048],
        &[64, 1900, 84],
        &[0xa7, 0x66, 0xa0, 0x30, 0x15, 0x20],
    ),
    (&[0, 2048], &[0, 2047, 1], &[0xb5]),
    (
        &[5, 3, 2040],
        &[5, 3, 1000, 40, 1000],
        &[0xb9, 0x6a, 0x14, 0x83, 0x64],
    ),
    (&[2432], &[2432], &[0xb0]),
    (&[2432], &[0, 1, 2431], &[0xa4, 0xd5, 0x40]),
    (&[0, 2432], &[1, 2431], &[0xae]),
    (&[2430, 2], &[2429, 3], &[0xaa]),
    (&[2431, 1], &[2432], &[0xac]),
    (
        &[300, 300, 300, 300, 300, 300, 632],
        &[298, 305, 297, 600, 297, 635],
        &[
            0xa1, 0x03, 0x90, 0x36, 0x81, 0x76, 0xe5, 0x44, 0x0d, 0xa0, 0x56, 0x6a,
        ],
    ),
];

/// How many bits the line against a row has that begins octets, and its row.
fn read(alloc: Global, octets: &[u8], reference: &Row) -> Result<(u128, Row), LineFault> {
    let mut reader = BitReader::new(octets);
    let row = read_line_2d(alloc, &mut reader, reference)?;
    Ok((reader.place(), row))
}

/// Whether that is this line, against the row of such runs.
fn is_read(alloc: Global, runs: &[u16], octets: &[u8], wanted: &Line) -> Result<bool, RowFault> {
    let reference = row_of(alloc, runs)?;
    Ok(is_line(read(alloc, octets, &reference), wanted))
}

#[test]
fn lines_are_read(rt: HostRuntime) {
    for (runs, octets, wanted) in READ {
        assert!(rt;
            is_read(rt.alloc(), runs, octets, wanted) == Ok(true),
            "at {octets:?}"
        );
    }
}

/// The octets of the bits 101 and then the line of a row against one of its width.
fn octets_of_line(
    rt: &impl Abort,
    alloc: Global,
    reference: &Row,
    row: &Row,
) -> Result<Octets, NoMemory> {
    assert!(rt; row.width() == reference.width());
    let mut writer = BitWriter::new(alloc);
    writer.put(0b101, 3)?;
    write_line_2d(&mut writer, reference, row)?;
    Ok(writer.finish())
}

/// Whether those of the rows of such runs are these.
fn is_written(
    rt: &impl Abort,
    alloc: Global,
    reference: &[u16],
    runs: &[u16],
    octets: &[u8],
) -> Result<bool, RowFault> {
    let reference = row_of(alloc, reference)?;
    let row = row_of(alloc, runs)?;
    Ok(octets_of_line(rt, alloc, &reference, &row)?.as_slice() == octets)
}

#[test]
fn rows_are_written(rt: HostRuntime) {
    for (reference, runs, octets) in WRITTEN {
        let is_written = is_written(&rt, rt.alloc(), reference, runs, octets);
        assert!(rt; is_written == Ok(true), "at {runs:?}");
    }
}
