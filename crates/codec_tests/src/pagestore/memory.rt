//! A page that comes in pieces and is given in pieces where memory is refused. Nothing in a test can refuse it:
//! `tools/refuse-test-memory` does, from outside, each allocation in turn, and reads what the test prints.
ghost use Rattle.std.specs.Prelude.{◌≡◌, IfOk};
ghost use Rattle.fax_pagestore.specs.Readers.{mark_of};

use fax_bits::{NoMemory, Octets};
use fax_pagestore::{
    Coding, Format, Mark, PackedRows, Page, PageFault, PageReader, PageWriter, RowStore,
};
use fax_runcodes::Width;
use std::alloc::Global;
use std::process::Abort;
use std::test::Fail;

const FORMAT: Format = Format {
    width: Width::W1728,
    fine: false,
};

/// A white row, and one of 3 black elements and white ones in two dimensions.
const PAGE: [u8; 17] = [
    0x00, 0x1a, 0x6c, 0xd4, 0x00, 0x44, 0xd6, 0x80, 0x0c, 0x00, 0x60, 0x03, 0x00, 0x18, 0x00, 0xc0,
    0x06,
];

/// A mark, which is made again where it is refused memory.
fn mark_again(reader: &PageReader<PackedRows>, refused: &mut u32) -> Result<Mark, NoMemory>
    ensures { IfOk result (λ mark. mark ≡ mark_of reader.now) }
{
    match reader.mark() {
        Ok(mark) => Ok(mark),
        Err(_) => {
            *refused = refused.saturating_add(1);
            reader.mark()
        }
    }
}

/// Feeds a piece, once more where that is refused memory, which is counted and changes nothing.
fn feed_again(
    rt: &impl Abort,
    reader: &mut PageReader<PackedRows>,
    piece: &[u8],
    refused: &mut u32,
) -> Result<(), PageFault> {
    let before = reader.check();
    if reader.feed(piece).is_err() {
        *refused = refused.saturating_add(1);
        assert!(rt; reader.check() == before);
        reader.feed(piece)?;
    }
    Ok(())
}

/// All of the page comes once more, and is taken back. What is refused memory is counted.
fn feed_and_take_back(
    reader: &mut PageReader<PackedRows>,
    refused: &mut u32,
) -> Result<(), NoMemory> {
    let mark = mark_again(reader, refused)?;
    match reader.feed(&PAGE) {
        Ok(()) => reader.back(mark),
        Err(_) => {
            *refused = refused.saturating_add(1);
            reader.back(mark);
        }
    }
    Ok(())
}

/// Reads the page in pieces. After each of them all of it comes once more, and is taken back. What is refused
/// memory is made again, and counted.
fn read_again(
    rt: &impl Abort,
    alloc: Global,
    refused: &mut u32,
) -> Result<Page<PackedRows>, PageFault> {
    let mut reader = PageReader::new(alloc, FORMAT, Coding::Mr);
    for piece in PAGE.chunks(3) {
        feed_again(rt, &mut reader, piece, refused)?;
        feed_and_take_back(&mut reader, refused)?;
    }
    reader.finish()
}

/// Writes the page in pieces. What is refused memory is made again, and counted.
fn write_again(
    rt: &impl Abort,
    alloc: Global,
    page: &Page<PackedRows>,
    refused: &mut u32,
) -> Result<(), NoMemory> {
    let mut writer = PageWriter::new(alloc, FORMAT, Coding::Mr, 0);
    for piece in PAGE.chunks(5) {
        let has_more = !writer.ended();
        let given = next_again(&mut writer, page, refused)?;
        assert!(rt; has_more && given.as_slice() == piece);
    }
    assert!(rt; writer.ended());
    Ok(())
}

/// The next five octets, asked for once more where they are refused memory, which is counted.
fn next_again(
    writer: &mut PageWriter,
    page: &Page<PackedRows>,
    refused: &mut u32,
) -> Result<Octets, NoMemory> {
    match writer.next(page, 5) {
        Ok(given) => Ok(given),
        Err(_) => {
            *refused = refused.saturating_add(1);
            writer.next(page, 5)
        }
    }
}

#[test]
fn a_page_that_is_refused_memory(rt: HostRuntime) -> Result<(), Fail> {
    let mut count = 0;
    let page = read_again(&rt, rt.alloc(), &mut count)?;
    assert!(rt; page.rows().len() == 2);
    write_again(&rt, rt.alloc(), &page, &mut count)?;
    let refused = match count {
        0 => "nothing",
        1 => "a call",
        _ => rt.abort(),
    };
    println!(rt; "refused: {refused}")?;
    Ok(())
}
