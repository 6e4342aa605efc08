//! Reads a page while its octets come, and prints the run lengths of its rows.
#![tactic(auto)]

use fax_bits::NoMemory;
use fax_pagestore::{Coding, Format, PackedRows, PageReader, RowStore};
use fax_runcodes::{Row, Width};
use std::io;

/// A page of two rows in one-dimensional coding (ITU-T T.4, 4.1): a white one, and a black one.
const TEXT: &[u8] = b"\x00\x14\xd9\xa8\x00\x9a\x81\x94\x37\x00\x10\x01\x00\x10\x01\x00\x10\x01";

fn main(rt: HostRuntime) -> io::Result<()> {
    let format = Format {
        width: Width::W1728,
        fine: false,
    };
    let mut reader: PageReader<PackedRows> = PageReader::new(rt.alloc(), format, Coding::Mh);
    for piece in TEXT.chunks(5) {
        if let Err(fault) = reader.feed(piece) {
            return println!(rt; "{fault}");
        }
    }
    let page = match reader.finish() {
        Ok(page) => page,
        Err(fault) => return println!(rt; "{fault}"),
    };
    for i in 0..page.rows().len() {
        print_row(&rt, page.rows().row(i))?;
    }
    Ok(())
}

/// Prints the run lengths of a row, white first.
fn print_row(rt: &(impl Print + Alloc), row: Result<Row, NoMemory>) -> io::Result<()> {
    let Ok(row) = row else {
        return rt.println("memory was refused");
    };
    match row.runs() {
        Ok(runs) => println!(rt; "{:?}", runs.as_slice()),
        Err(NoMemory) => rt.println("memory was refused"),
    }
}
