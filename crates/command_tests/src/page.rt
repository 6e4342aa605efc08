//! Runs over streams that fail in their middle, and over one that is read twice.
use fax_command::{Output, PageOptions, StdSink, StdSource, fault_of_streams, run_page};
use fax_pagestore::{Coding, Format};
use fax_runcodes::Width;
use std::alloc::Global;
use std::io;
use std::io::{Read, Write};
use std::process::Abort;
use std::test::Fail;

/// Reads a page, with no option given.
const READ: PageOptions = PageOptions {
    format: Format {
        width: Width::W1728,
        fine: false,
    },
    coding: Coding::Mh,
    least_bits: 0,
    output: Output::Runs,
};

/// A reader that gives a few octets at a time, each read after one that is interrupted, and fails once
/// it gave so many.
#[derive(Drop)]
struct Halting<'a> {
    octets: &'a [u8],
    at_once: usize,
    reads_left: u32,
    interrupted: bool,
}

impl Read for Halting<'_> {
    fn read(&mut self, buf: &mut [u8]) -> io::Result<usize> {
        if !self.interrupted {
            self.interrupted = true;
            return Err(io::Error::from(io::ErrorKind::Interrupted));
        }
        self.interrupted = false;
        if self.reads_left == 0 {
            return Err(io::Error::from(io::ErrorKind::Other));
        }
        self.reads_left -= 1;
        let most = buf.len().min(self.at_once);
        self.octets.read(&mut buf[..most])
    }
}

/// A writer that fails at a write or at a flush.
#[derive(Drop)]
struct Broken {
    writes: bool,
}

impl Write for Broken {
    fn write(&mut self, buf: &[u8]) -> io::Result<usize> {
        if self.writes {
            Ok(buf.len())
        } else {
            Err(io::Error::from(io::ErrorKind::BrokenPipe))
        }
    }

    fn flush(&mut self) -> io::Result<()> {
        Err(io::Error::from(io::ErrorKind::BrokenPipe))
    }
}

/// A reader that gives an octet a time, so many times.
#[derive(Drop)]
struct Trickle(u32);

impl Read for Trickle {
    fn read(&mut self, buf: &mut [u8]) -> io::Result<usize> {
        if self.0 == 0 || buf.is_empty() {
            return Ok(0);
        }
        self.0 -= 1;
        buf[0] = b' ';
        Ok(1)
    }
}

/// The exit status and the text of a run over a reader.
fn run_over<R: Read + Drop>(alloc: Global, reader: R, options: PageOptions) -> (u8, Vec<u8>) {
    let mut text = Vec::new(alloc);
    let mut source = StdSource::new(reader);
    let mut sink = StdSink::new(&mut text);
    let status = run_page(alloc, &mut source, &mut sink, options);
    (status, text)
}

/// The exit statuses of two runs over one source, and their text.
fn run_twice(alloc: Global) -> ([u8; 2], Vec<u8>) {
    let octets: &[u8] = b"0014d9a8008008008008008008\n";
    let mut text = Vec::new(alloc);
    let mut source = StdSource::new(octets);
    let mut sink = StdSink::new(&mut text);
    let first = run_page(alloc, &mut source, &mut sink, READ);
    let second = run_page(alloc, &mut source, &mut sink, READ);
    ([first, second], text)
}

/// The exit status of a run whose text can't be written.
fn run_to(alloc: Global, writer: Broken) -> u8 {
    let octets: &[u8] = b"0014d9a8008008008008008008\n";
    let mut source = StdSource::new(octets);
    let mut sink = StdSink::new(writer);
    run_page(alloc, &mut source, &mut sink, READ)
}

#[test]
fn reads_may_fail(rt: HostRuntime) {
    let octets = b"0014d9a8008008008008008008\n";
    for reads in 0..30 {
        let reader = Halting {
            octets,
            at_once: 1,
            reads_left: reads,
            interrupted: false,
        };
        let (wanted, rows) = if reads < 28 { (4, "") } else { (0, "1728\n") };
        let (status, text) = run_over(rt.alloc(), reader, READ);
        let is_run = status == wanted && text.as_slice() == rows.as_bytes();
        assert!(rt; is_run, "after {reads} reads");
    }
}

#[test]
fn writes_may_fail(rt: HostRuntime) {
    for writes in [false, true] {
        assert!(rt; run_to(rt.alloc(), Broken { writes }) == 4);
    }
}

/// That a run from a reader to a writer fails, and its streams tell this.
fn expect_failure<R: Read + Drop, W: Write + Drop>(
    rt: &(impl Abort + AllocGlobal),
    reader: R,
    writer: W,
    wanted: &str,
) -> Result<(), Fail> {
    let mut source = StdSource::new(reader);
    let mut sink = StdSink::new(writer);
    assert_eq!(rt; run_page(rt.alloc(), &mut source, &mut sink, READ), 4);
    let fault = fault_of_streams(&source, &sink).ok_or("no fault")?;
    let told = format!(in rt.alloc(); "{fault}")?;
    assert_eq!(rt; told.as_str(), wanted);
    Ok(())
}

/// The words of the system's errors are those of Rust.
#[test]
fn streams_tell_what_failed(rt: HostRuntime) -> Result<(), Fail> {
    let unread = Halting {
        octets: b"00",
        at_once: 1,
        reads_left: 1,
        interrupted: false,
    };
    let read = "the input cannot be read: other error";
    let written = "the standard output cannot be written: broken pipe";
    let slow = "the input takes more than 1,048,576 reads";
    expect_failure(&rt, unread, Broken { writes: true }, read)?;
    expect_failure(&rt, b" ".as_slice(), Broken { writes: false }, written)?;
    expect_failure(&rt, b" ".as_slice(), Broken { writes: true }, written)?;
    expect_failure(&rt, Trickle(1_048_577), Broken { writes: true }, slow)?;
    Ok(())
}

#[test]
fn a_source_is_read_again(rt: HostRuntime) {
    let (statuses, text) = run_twice(rt.alloc());
    let wanted = b"1728\nfault 1 NoEol\n".as_slice();
    assert!(rt; statuses == [0, 1] && text.as_slice() == wanted);
}
