//! Rows, made of run lengths; runs and the bits that spell them, by the tables of ITU-T T.4.
use fax_bits::{BitReader, BitWriter, NoMemory};
use fax_runcodes::Colour::{Black, White};
use fax_runcodes::{Colour, Row, RowFault, RunFault, Width, read_run, write_run};
use std::alloc::Global;

/// Runs, and the colours of the first and last element of their row, or why they are those of no row.
const ROWS: &[(&[u16], Result<(Colour, Colour), RowFault>)] = &[
    (&[1728], Ok((White, White))),
    (&[0, 1728], Ok((Black, Black))),
    (&[4, 1, 1723], Ok((White, White))),
    (&[2, 2, 1724], Ok((White, White))),
    (&[0, 3, 1725], Ok((Black, White))),
    (&[1000, 728], Ok((White, Black))),
    (&[2048], Ok((White, White))),
    (&[0, 2432], Ok((Black, Black))),
    (&[0, 1, 2431], Ok((Black, White))),
    (&[], Err(RowFault::BadRuns)),
    (&[1000], Err(RowFault::BadRuns)),
    (&[0], Err(RowFault::BadRuns)),
    (&[5, 0, 1723], Err(RowFault::BadRuns)),
    (&[1728, 0], Err(RowFault::BadRuns)),
    (&[1729], Err(RowFault::BadRuns)),
    (&[65535; 40], Err(RowFault::BadRuns)),
    (&[60000, 7264], Err(RowFault::BadRuns)),
];

/// The row of such runs.
pub(crate) fn row_of(alloc: Global, runs: &[u16]) -> Result<Row, RowFault> {
    Row::from_runs(alloc, runs)
}

/// The colours of the first and last element of a row.
fn ends_of(row: &Row) -> (Colour, Colour) {
    let last = row.width().saturating_sub(1);
    if last >= row.width() {
        return (White, Black);
    }
    (row.colour_at(0), row.colour_at(last))
}

/// Whether a copy of a row gives these runs back.
fn gives_back(row: &Row, runs: &[u16]) -> Result<bool, NoMemory> {
    let copy = row.copy()?;
    Ok(copy.runs()?.as_slice() == runs)
}

/// Whether such runs make a row with these ends that gives them back, or make none for this fault.
fn is_made(
    alloc: Global,
    runs: &[u16],
    wanted: &Result<(Colour, Colour), RowFault>,
) -> Result<bool, NoMemory> {
    match (row_of(alloc, runs), wanted) {
        (Ok(row), Ok(ends)) => Ok(ends_of(&row) == *ends && gives_back(&row, runs)?),
        (Err(fault), Err(wanted)) => Ok(fault == *wanted),
        _ => Ok(false),
    }
}

#[test]
fn rows_are_made_of_runs_and_give_them_back(rt: HostRuntime) {
    for (runs, wanted) in ROWS {
        assert!(rt;
            is_made(rt.alloc(), runs, wanted) == Ok(true),
            "at {runs:?}"
        );
    }
}

#[test]
fn colours_and_widths_are_told(rt: HostRuntime) {
    let colours = [
        White.other(),
        Colour::after_changes(2),
        Colour::after_changes(2431),
    ];
    let widths = [
        Width::W1728.elements(),
        Width::W2048.elements(),
        Width::W2432.elements(),
    ];
    assert!(rt; colours == [Black, White, Black] && widths == [1728, 2048, 2432]);
}

/// Runs, and how many bits and which octets spell them.
const WRITTEN: &[(Colour, u16, u128, &[u8])] = &[
    // 00110101
    (White, 0, 8, &[0x35]),
    // 0111
    (White, 2, 4, &[0x70]),
    // 00110100
    (White, 63, 8, &[0x34]),
    // 11011 and 00110101
    (White, 64, 13, &[0xd9, 0xa8]),
    // 010011011 and 00110101
    (White, 1728, 17, &[0x4d, 0x9a, 0x80]),
    // 000000011111 and 00110100
    (White, 2623, 20, &[0x01, 0xf3, 0x40]),
    // 0000110111
    (Black, 0, 10, &[0x0d, 0xc0]),
    // 11
    (Black, 2, 2, &[0xc0]),
    // 000001100111
    (Black, 63, 12, &[0x06, 0x70]),
    // 0000001101100 and 000000101100
    (Black, 572, 25, &[0x03, 0x60, 0x16, 0x00]),
    // 00000001000 and 0000110111
    (Black, 1792, 21, &[0x01, 0x01, 0xb8]),
    // 000000011111 and 000001100111
    (Black, 2623, 24, &[0x01, 0xf0, 0x67]),
];

/// Octets, and the run that begins them or why none does.
const READ: &[(Colour, &[u8], Result<u16, RunFault>)] = &[
    // 1728 and 0
    (White, &[0x4d, 0x9a, 0x80], Ok(1728)),
    // 1728, 704 and 0
    (White, &[0x4d, 0xb3, 0x0d, 0x40], Ok(2432)),
    // 1728, 704 and 1
    (White, &[0x4d, 0xb3, 0x07], Err(RunFault::TooLong)),
    // 2560
    (Black, &[0x01, 0xf0], Err(RunFault::TooLong)),
    (White, &[0x00], Err(RunFault::NoWord)),
    (Black, &[0x00, 0x08], Err(RunFault::NoWord)),
    // 64, and then no word
    (White, &[0xd8, 0x00], Err(RunFault::NoWord)),
    (White, &[], Err(RunFault::End)),
    // inside 1728, and inside 64 after 64
    (White, &[0x4d], Err(RunFault::End)),
    (Black, &[0x03, 0xc0], Err(RunFault::End)),
];

/// How many bits spell a run, of at most 2,623 elements, and whether they have these octets.
fn written(
    alloc: Global,
    colour: Colour,
    run: u16,
    octets: &[u8],
) -> Result<(u128, bool), NoMemory> {
    let mut writer = BitWriter::new(alloc);
    write_run(&mut writer, colour, run.min(2623))?;
    Ok((writer.bits(), writer.finish().as_slice() == octets))
}

/// The run that begins octets.
fn read(octets: &[u8], colour: Colour) -> Result<u16, RunFault> {
    read_run(&mut BitReader::new(octets), colour)
}

#[test]
fn runs_are_written_in_the_words_of_the_tables(rt: HostRuntime) {
    for (colour, run, bits, octets) in WRITTEN {
        let written = written(rt.alloc(), *colour, *run, octets);
        assert!(rt; written == Ok((*bits, true)), "at {run}");
    }
}

#[test]
fn runs_are_read_or_it_is_said_why_not(rt: HostRuntime) {
    for (colour, octets, wanted) in READ {
        assert!(rt; read(octets, *colour) == *wanted, "at {octets:?}");
    }
}
