//! TIFF files of class F: three that libtiff 4.5.0 wrote, read; those with one octet changed; and pages written.
use fax_bits::BitWriter;
use fax_pagestore::{Format, PackedRows, Page, PageFault, RowStore};
use fax_runcodes::Width;
use fax_tiff::{CodedPage, TiffFault, TiffWriteFault, read_tiff, write_tiff};
use std::alloc::Global;

/// Two pages of 98 lines an inch, each with one strip of one-dimensional lines: the least significant octet of a number first, the most
/// significant bit of an octet first.
const LITTLE: &str =
    "49492a00160000000014d9a800cc1760a4004d6609051000fe00040001000000020000000001030001000000c00600000101030001000000030000000201030001000000010000000301030001000000030000000601030001000000000000000a010300010000000100000011010400010000000800000015010300010000000100000016010300010000000300000017010400010000000e0000001a01050001000000dc0000001b01050001000000e400000024010400010000000000000028010300010000000200000029010300020000000000020008010000cc000000010000006200000001000000001d8a81e1ba64c000ec580f0dd3290005366a003b140391b31400001000fe00040001000000020000000001030001000000c00600000101030001000000040000000201030001000000010000000301030001000000030000000601030001000000000000000a01030001000000010000001101040001000000ec00000015010300010000000100000016010300010000000400000017010400010000001b0000001a01050001000000ce0100001b01050001000000d601000024010400010000000000000028010300010000000200000029010300020000000100020000000000cc000000010000006200000001000000";

/// A page of 196 lines an inch, in two strips of lines of either kind, whose EOLs end with an octet: the most significant octet of a
/// number first, the least significant bit of an octet first.
const BIG: &str =
    "4d4d002a0000001e0080372af0b0cb640080ec008065b30280b851801307001000fe00040000000100000002010000030000000106c00000010100030000000100040000010200030000000100010000010300030000000100030000010600030000000100000000010a000300000001000200000111000400000002000000fc0115000300000001000100000116000300000001000200000117000400000002000000f4011a000500000001000000e4011b000500000001000000ec01240004000000010000000501280003000000010002000001290003000000020000000100000000000000cc00000001000000c4000000010000000b0000000b0000000800000013";

/// A page of 196 lines an inch, in three strips of one line each, whose EOLs end with an octet.
const STRIPS: &str =
    "4d4d002a0000001a00014d9a800001982ec14800013598241400001000fe00040000000100000002010000030000000106c00000010100030000000100030000010200030000000100010000010300030000000100030000010600030000000100000000010a000300000001000100000111000400000003000000fc0115000300000001000100000116000300000001000100000117000400000003000000f0011a000500000001000000e0011b000500000001000000e801240004000000010000000401280003000000010002000001290003000000020000000100000000000000cc00000001000000c400000001000000050000000600000006000000080000000d00000013";

/// The rows of the first page of `LITTLE`, as runs, white first.
const FIRST: &[&[u16]] = &[&[1728], &[8, 16, 1704], &[0, 3, 1717, 8]];

/// Those of the second.
const SECOND: &[&[u16]] = &[&[100, 64, 1564], &[101, 64, 1563], &[1728], &[99, 901, 728]];

/// The files, whether their pages are fine, and the rows of these.
const FILES: [(&str, bool, &[&[&[u16]]]); 3] = [
    (LITTLE, false, &[FIRST, SECOND]),
    (BIG, true, &[SECOND]),
    (STRIPS, true, &[FIRST]),
];

/// Where an octet of `LITTLE` is changed, to what, and the fault that is met then.
const CHANGES: [(usize, u8, TiffFault); 15] = [
    (0, b'X', TiffFault::NoTiff),
    (2, 43, TiffFault::NoTiff),
    (4, 0, TiffFault::NoPages),
    // the first directory stands past the end
    (5, 2, TiffFault::Cut),
    // 257 becomes 511
    (48, 0xff, TiffFault::Lacks(257)),
    // ImageWidth, ImageLength, BitsPerSample, Compression, PhotometricInterpretation, FillOrder
    (44, 0xc1, TiffFault::BadField(256)),
    (56, 4, TiffFault::BadHeight),
    (68, 8, TiffFault::BadField(258)),
    (80, 4, TiffFault::BadField(259)),
    (92, 1, TiffFault::BadField(262)),
    (104, 3, TiffFault::BadField(266)),
    // the strip stands past the end
    (117, 2, TiffFault::Cut),
    // 1,024 lines an inch
    (229, 4, TiffFault::BadField(283)),
    // after the second directory the first one comes again
    (458, 22, TiffFault::Overlap),
    // the first EOL
    (9, 0, TiffFault::BadPage(PageFault::BadLine(0))),
];

/// Where the strip of the first page stands that is written: after 8 octets, a directory of 16 fields, and two resolutions.
const STRIP: usize = 222;

/// The octets that texts show in hex.
fn octets(alloc: Global, text: &str) -> Option<Vec<u8>> {
    let mut writer = BitWriter::new(alloc);
    for digit in text.bytes() {
        // the low bits of a digit's code are its value, and those of a letter 9 less
        let code = u32::from(digit);
        let put = writer.put(if digit > b'9' { code + 9 } else { code }, 4);
        put.ok()?;
    }
    Some(writer.finish().into_vec())
}

/// Whether a page has these rows.
fn has_rows(page: &Page<PackedRows>, rows: &[&[u16]]) -> Option<bool> {
    let mut all = page.rows().len() as usize == rows.len();
    for i in 0..page.rows().len() {
        let row = page.rows().row(i).ok()?;
        let runs = row.runs().ok()?;
        all = all && rows.get(i as usize).copied() == Some(runs.as_slice());
    }
    Some(all)
}

/// Whether a file has pages of these rows, all of them fine, or none.
fn is_read(alloc: Global, file: &[u8], fine: bool, wanted: &[&[&[u16]]]) -> Option<bool> {
    let pages = read_tiff(alloc, file).ok()?;
    let width = Width::W1728;
    let mut all = pages.len() == wanted.len();
    for (page, rows) in pages.iter().zip(wanted) {
        all = has_rows(page, rows)? && page.format() == Format { width, fine } && all;
    }
    Some(all)
}

/// The same of the file of a text.
fn is_file(alloc: Global, text: &str, fine: bool, wanted: &[&[&[u16]]]) -> Option<bool> {
    is_read(alloc, octets(alloc, text)?.as_slice(), fine, wanted)
}

#[test]
fn files_of_libtiff_are_read(rt: HostRuntime) {
    for (text, fine, wanted) in FILES {
        assert!(rt; is_file(rt.alloc(), text, fine, wanted) == Some(true));
    }
}

/// The fault that is met where an octet of `LITTLE` is changed.
fn fault_at(alloc: Global, at: usize, octet: u8) -> Option<TiffFault> {
    let mut changed = octets(alloc, LITTLE)?;
    if let Some(place) = changed.get_mut(at) {
        *place = octet;
    }
    read_tiff(alloc, changed.as_slice()).err()
}

#[test]
fn changed_octets_meet_faults(rt: HostRuntime) {
    for (at, octet, fault) in CHANGES {
        assert!(rt; fault_at(rt.alloc(), at, octet) == Some(fault), "at {at}");
    }
}

/// The file of the pages of a file.
fn written(alloc: Global, file: &[u8]) -> Option<Vec<u8>> {
    let pages = read_tiff(alloc, file).ok()?;
    let mut coded = Vec::new(alloc);
    for page in &pages {
        coded.push(CodedPage::new(alloc, page).ok()?).ok()?;
    }
    write_tiff(alloc, coded.as_slice()).ok()
}

/// Whether the file of the pages of `LITTLE` has the strip that libtiff wrote, and is read again.
fn is_written_back(alloc: Global) -> Option<bool> {
    let file = octets(alloc, LITTLE)?;
    let written = written(alloc, file.as_slice())?;
    let is_again = is_read(alloc, written.as_slice(), false, &[FIRST, SECOND])?;
    Some(is_again && written.get(STRIP..STRIP + 14) == file.get(8..22))
}

#[test]
fn pages_are_written(rt: HostRuntime) {
    let fault = write_tiff(rt.alloc(), &[]).err();
    assert!(rt;
        is_written_back(rt.alloc()) == Some(true) && fault == Some(TiffWriteFault::NoPages)
    );
}
