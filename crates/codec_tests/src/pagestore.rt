//! Pages read and written, in pieces too, and stores of rows. `page.toml` of `tests/cases` has pages and faults of the standard,
//! and pages of other programs.
mod memory;

use crate::runcodes::row_of;
use fax_bits::NoMemory;
use fax_pagestore::{
    Coding, Format, PackedRows, Page, PageFault, PageReader, PlainRows, RowStore, read_page,
    write_page,
};
use fax_runcodes::{RowFault, Width};
use std::alloc::Global;

/// The standard format of a page of 1728 elements a row.
const STANDARD: Format = Format {
    width: Width::W1728,
    fine: false,
};

/// A page of one white row.
const PAGE: [u8; 13] = [
    0x00, 0x14, 0xd9, 0xa8, 0x00, 0x80, 0x08, 0x00, 0x80, 0x08, 0x00, 0x80, 0x08,
];

/// It in pieces, with fill before each EOL after the line, and after the last.
const FILLED: &[&[u8]] = &[
    &[0x00, 0x01, 0x4d, 0x9a, 0x80],
    &[0x00; 100],
    &[0x01],
    &[0x00; 100],
    &[0x80, 0x08, 0x00, 0x80],
    &[0x00; 100],
    &[0x08, 0x00, 0x80, 0x08, 0x00, 0x80],
];

/// Whether the text of the page of a text is that text.
fn is_written_back(alloc: Global, text: &[u8]) -> Result<bool, PageFault> {
    let page: Page<PlainRows> = read_page(alloc, text, STANDARD, Coding::Mh)?;
    Ok(write_page(alloc, &page, Coding::Mh, 0)?.as_slice() == text)
}

#[test]
fn a_page_is_read_and_written(rt: HostRuntime) {
    assert!(rt; is_written_back(rt.alloc(), &PAGE) == Ok(true));
}

/// How many octets are kept of a piece, and whether the page's end is settled.
fn kept_of(reader: &mut PageReader<PackedRows>, piece: &[u8]) -> Result<(usize, bool), PageFault> {
    reader.feed(piece)?;
    Ok((reader.pending(), reader.is_settled()))
}

/// Whether of each piece but few octets are kept, and none at the end, which is settled.
fn keeps_no_fill(alloc: Global) -> Result<bool, PageFault> {
    let mut reader: PageReader<PackedRows> = PageReader::new(alloc, STANDARD, Coding::Mh);
    let mut all = true;
    for piece in FILLED {
        let (kept, is_settled) = kept_of(&mut reader, piece)?;
        all = all && kept <= if is_settled { 0 } else { 12 };
    }
    Ok(all && reader.is_settled())
}

#[test]
fn fill_is_not_kept(rt: HostRuntime) {
    assert!(rt; keeps_no_fill(rt.alloc()) == Ok(true));
}

/// The first EOL of a page, with fill before it.
const FIRST_EOL: [u8; 2] = [0x00, 0x01];

/// White runs without elements and black ones in turn, four of each.
const EMPTY_RUNS: [u8; 9] = [0x35, 0x0d, 0xcd, 0x43, 0x73, 0x50, 0xdc, 0xd4, 0x37];

/// A white line, and the end of its page.
const WHITE_LINE_AND_END: [u8; 13] = [
    0x4d, 0x9a, 0x80, 0x00, 0x01, 0x00, 0x10, 0x01, 0x00, 0x10, 0x01, 0x00, 0x10,
];

/// The most octets that are kept beside the rows.
const MOST_KEPT: usize = 8192;

/// A line of many empty runs comes, and the end of its page. It answers whether few octets were kept meanwhile.
fn feed_empty_runs(reader: &mut PageReader<PackedRows>) -> Result<bool, PageFault> {
    reader.feed(&FIRST_EOL)?;
    let mut are_few = true;
    for _ in 0..5_000 {
        let (kept, is_settled) = kept_of(reader, &EMPTY_RUNS)?;
        are_few = are_few && kept <= MOST_KEPT && !is_settled;
    }
    reader.feed(&WHITE_LINE_AND_END)?;
    Ok(are_few)
}

/// Whether that is so, and the page has a white row.
fn keeps_few(alloc: Global) -> Result<bool, PageFault> {
    let mut reader: PageReader<PackedRows> = PageReader::new(alloc, STANDARD, Coding::Mh);
    let are_few = feed_empty_runs(&mut reader)?;
    let page = reader.finish()?;
    Ok(are_few && page.rows().len() == 1 && has_row(page.rows(), 0, &[])?)
}

#[test]
fn of_a_line_of_many_empty_runs_few_octets_are_kept(rt: HostRuntime) {
    assert!(rt; keeps_few(rt.alloc()) == Ok(true));
}

/// How many octets a reader holds after the page in pieces, and how many the page holds.
fn held_of_page(alloc: Global) -> Result<(u64, u64), PageFault> {
    let mut reader: PageReader<PackedRows> = PageReader::new(alloc, STANDARD, Coding::Mh);
    for piece in FILLED {
        reader.feed(piece)?;
    }
    let held = reader.held();
    Ok((held, reader.finish()?.held()))
}

#[test]
fn a_white_row_holds_its_entry_alone(rt: HostRuntime) {
    assert!(rt; held_of_page(rt.alloc()) == Ok((16, 16)));
}

/// Adds a marked row that is lent, and a black one.
fn add_rows<S: RowStore>(alloc: Global, rows: &mut S) -> Result<bool, RowFault> {
    rows.push_lent(&row_of(alloc, &[4, 1, 1723])?.lend())?;
    Ok(rows.push(row_of(alloc, &[0, 1728])?).is_ok())
}

/// Whether row i, itself and lent, changes colour at these places.
fn has_row<S: RowStore>(rows: &S, i: u32, changes: &[u16]) -> Result<bool, NoMemory> {
    if i >= rows.len() {
        return Ok(false);
    }
    let row = rows.row(i)?;
    Ok(row.changes() == changes && rows.lend(i).changes() == changes)
}

/// How many octets rows hold.
fn held_by<S: RowStore>(rows: &S) -> u64 {
    rows.held()
}

/// Keeps the first row at most.
fn cut<S: RowStore>(rows: &mut S) {
    rows.cut(rows.len().min(1));
}

/// Whether a store keeps rows, and those alone that are not cut.
fn keeps_rows<S: RowStore>(alloc: Global, rows: S) -> Result<bool, RowFault> {
    let mut rows = rows;
    let are_kept = add_rows(alloc, &mut rows)? && has_row(&rows, 1, &[0])? && held_by(&rows) == 38;
    cut(&mut rows);
    Ok(are_kept && rows.len() == 1 && has_row(&rows, 0, &[4, 5])? && held_by(&rows) == 20)
}

#[test]
fn stores_keep_rows(rt: HostRuntime) {
    let are_plain = keeps_rows(rt.alloc(), PlainRows::empty(rt.alloc())) == Ok(true);
    let are_packed = keeps_rows(rt.alloc(), PackedRows::empty(rt.alloc())) == Ok(true);
    assert!(rt; are_plain && are_packed);
}
