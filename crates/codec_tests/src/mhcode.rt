//! One-dimensional lines, by the tables of ITU-T T.4.
use crate::runcodes::row_of;
use fax_bits::{BitReader, BitWriter};
use fax_mhcode::{LineFault, read_line_1d, write_line_1d};
use fax_runcodes::Width::{W1728, W2048, W2432};
use fax_runcodes::{Row, RowFault, RunFault, Width};
use std::alloc::Global;

/// How many bits a line has, and at which places its row changes colour; or why there is none.
pub(crate) type Line = Result<(u128, &'static [u16]), LineFault>;

/// Octets, and the line of this width that begins them.
const READ: &[(Width, &[u8], Line)] = &[
    // white 1728 + 0
    (W1728, &[0x4d, 0x9a, 0x80], Ok((17, &[]))),
    // white 1, black 0 and white 1664 + 63
    (W1728, &[0x1c, 0x37, 0x60, 0xd0], Ok((30, &[]))),
    // white 0, black 1728 + 0
    (W1728, &[0x35, 0x03, 0x28, 0x6e], Ok((31, &[0]))),
    // white 1, black 1984 + 63
    (W2048, &[0x1c, 0x04, 0x81, 0x9c], Ok((30, &[1]))),
    // white 1728 + 704 + 0
    (W2432, &[0x4d, 0xb3, 0x0d, 0x40], Ok((26, &[]))),
    // white 2432 + 0
    (W2432, &[0x01, 0xd3, 0x50], Ok((20, &[]))),
    // white 2, black 3, white 2368 + 59
    (W2432, &[0x78, 0x07, 0x12, 0x80], Ok((26, &[2, 5]))),
    (W1728, &[0x00], Err(LineFault::Run(RunFault::NoWord))),
    // white 1, and then no word
    (W1728, &[0x1c, 0x00], Err(LineFault::Run(RunFault::NoWord))),
    // white 1728 + 704 + 1
    (
        W1728,
        &[0x4d, 0xb3, 0x07],
        Err(LineFault::Run(RunFault::TooLong)),
    ),
    (W1728, &[], Err(LineFault::Run(RunFault::End))),
    // white 1, and then a part of black 64
    (W1728, &[0x1c, 0x0e], Err(LineFault::Run(RunFault::End))),
    // white 1728 + 704 + 0
    (W1728, &[0x4d, 0xb3, 0x0d, 0x40], Err(LineFault::PastWidth)),
    // white 1, black 1728 + 0
    (W1728, &[0x1c, 0x0c, 0xa1, 0xb8], Err(LineFault::PastWidth)),
    // white 2048 + 0
    (W1728, &[0x01, 0x33, 0x50], Err(LineFault::PastWidth)),
];

/// Runs of rows, and how many bits and which octets spell them.
const WRITTEN: &[(&[u16], u128, &[u8])] = &[
    (&[1728], 17, &[0x4d, 0x9a, 0x80]),
    (&[2048], 20, &[0x01, 0x33, 0x50]),
    (&[2432], 20, &[0x01, 0xd3, 0x50]),
    (&[0, 1728], 31, &[0x35, 0x03, 0x28, 0x6e]),
    (&[0, 2048], 30, &[0x35, 0x01, 0x30, 0xdc]),
    (&[0, 2432], 30, &[0x35, 0x01, 0xd0, 0xdc]),
];

/// Whether what is read is this line.
pub(crate) fn is_line(read: Result<(u128, Row), LineFault>, wanted: &Line) -> bool {
    match (read, wanted) {
        (Ok((bits, row)), Ok((count, changes))) => bits == *count && row.changes() == *changes,
        (Err(fault), Err(wanted)) => fault == *wanted,
        _ => false,
    }
}

/// How many bits the line has that begins octets, and its row.
fn read(alloc: Global, octets: &[u8], width: Width) -> Result<(u128, Row), LineFault> {
    let mut reader = BitReader::new(octets);
    let row = read_line_1d(alloc, &mut reader, width)?;
    Ok((reader.place(), row))
}

#[test]
fn lines_are_read(rt: HostRuntime) {
    for (width, octets, wanted) in READ {
        let is_read = is_line(read(rt.alloc(), octets, *width), wanted);
        assert!(rt; is_read, "at {octets:?}");
    }
}

/// How many bits spell the row of such runs, and whether they have these octets.
fn written(alloc: Global, runs: &[u16], octets: &[u8]) -> Result<(u128, bool), RowFault> {
    let mut writer = BitWriter::new(alloc);
    write_line_1d(&mut writer, &row_of(alloc, runs)?)?;
    Ok((writer.bits(), writer.finish().as_slice() == octets))
}

#[test]
fn rows_are_written(rt: HostRuntime) {
    for (runs, bits, octets) in WRITTEN {
        assert!(rt;
            written(rt.alloc(), runs, octets) == Ok((*bits, true)),
            "at {runs:?}"
        );
    }
}
