//! The picture of a page, octet for octet.
use fax_bits::NoMemory;
use fax_pbm::read_pbm;
use fax_png::{MOST_LINES, write_png};
use std::alloc::Global;

/// A row of 1728 elements, 4 of which are black at its left end, then 8 white and 5 black: as pbm(5) has it, but for the octets that are 0.
const ROW: &[u8] = b"\xf0\x0f\x80";

/// The picture of a page of that row alone, of the standard resolution, as Python's zlib makes its checksums.
const PICTURE: &[&[u8]] = &[
    b"\x89\x50\x4e\x47\x0d\x0a\x1a\x0a",
    b"\x00\x00\x00\x0d\x49\x48\x44\x52\x00\x00\x01\xb0\x00\x00\x00\x01\x02\x00\x00\x00\x00\xd0\x74\xbc\x33",
    b"\x00\x00\x00\x09\x70\x48\x59\x73\x00\x00\x07\xda\x00\x00\x07\x85\x01\xdf\xdc\x6d\xe8",
    b"\x00\x00\x00\x7d\x49\x44\x41\x54\x78\x01\x00\x6d\x00\x92\xff\x00\x7d\xbf\xff",
    &[0xff; 105],
    b"\x01\x00\x00\xff\xff\x97\x21\x6a\xd3\x5c\xc0\x6a\x5a",
    b"\x00\x00\x00\x00\x49\x45\x4e\x44\xae\x42\x60\x82",
];

/// The picture of a page of so many white rows of the fine resolution, after the first ones.
fn picture_of(alloc: Global, head: &[u8], rows: usize, fine: bool) -> Option<Vec<u8>> {
    let mut octets = Vec::from_slice(alloc, head).ok()?;
    let mut row = Vec::from_slice(alloc, ROW).ok()?;
    row.resize(216, 0).ok()?;
    octets.extend_from_slice(row.as_slice()).ok()?;
    for _ in 1..rows {
        octets.extend_from_slice(&[0; 216]).ok()?;
    }
    let page = read_pbm(alloc, octets.as_slice(), fine).ok()?;
    let written: Result<Vec<u8>, NoMemory> = write_png(alloc, &page);
    written.ok()
}

/// Whether the picture of one row is made of its parts.
fn is_of_parts(alloc: Global) -> Option<bool> {
    let picture = picture_of(alloc, b"P4\n1728 1\n", 1, false)?;
    let mut rest = picture.as_slice();
    for part in PICTURE {
        rest = rest.strip_prefix(*part)?;
    }
    Some(rest.is_empty())
}

/// Whether a picture has no more lines than are shown.
fn is_cut(alloc: Global) -> Option<bool> {
    let long = picture_of(alloc, b"P4\n1728 4001\n", 4_001, true)?;
    Some(long.as_slice().get(20..24)? == MOST_LINES.to_be_bytes().as_slice())
}

#[test]
fn a_page_has_a_picture(rt: HostRuntime) {
    assert!(rt; is_of_parts(rt.alloc()) == Some(true) && is_cut(rt.alloc()) == Some(true));
}
