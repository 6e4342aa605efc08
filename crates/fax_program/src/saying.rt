//! `faxgate say`.
use crate::console::Console;
use crate::failures::tell;
use fax_command::{Status, StdSink, StdSource, StreamFault, fault_of_streams};
use fax_say::{Ending, Saying, say};
use std::io;
use std::io::{Read, Stdout, Write};
use std::net::Net;
use std::os::unix::net::UnixStream;

/// Says a word over the control socket at this path, and prints its answer. Why there is none is told in one line on the standard
/// error.
pub(crate) fn say_word<N: Net>(console: &Console, net: &N, path: &str, saying: &Saying) -> Status {
    let stream = match UnixStream::connect(net, path) {
        Ok(stream) => stream,
        Err(error) => {
            tell(console, format_args!("{path}: {error}"));
            return Status::Stream;
        }
    };
    let mut source = StdSource::new(&stream);
    let mut server = StdSink::new(&stream);
    let mut output = StdSink::new(console.output());
    let ending = say(&mut source, &mut server, &mut output, saying);
    match ending {
        Ending::Answered(_) => {}
        Ending::Unanswered => tell(
            console,
            format_args!("{path}: closed before the end of an answer"),
        ),
        Ending::Unsaid => tell_socket(console, path, &source, &server),
        Ending::Unread => tell_socket(console, path, &source, &output),
        Ending::Unprinted => tell_output(console, &source, &output),
    }
    ending.status()
}

/// Tells what failed of a read of the socket, or of a write to it.
fn tell_socket<R: Read, W: Write>(
    console: &Console,
    path: &str,
    source: &StdSource<R>,
    sink: &StdSink<W>,
) {
    match fault_of_streams(source, sink) {
        Some(StreamFault::Unread(error) | StreamFault::Unwritten(error)) => {
            tell(console, format_args!("{path}: {error}"))
        }
        Some(_) | None => tell(console, format_args!("{path}: it does not end")),
    }
}

/// Tells what failed of a write to the standard output.
fn tell_output<R: Read>(console: &Console, source: &StdSource<R>, sink: &StdSink<Stdout>) {
    if let Some(fault) = fault_of_streams(source, sink) {
        tell(console, fault);
    }
}
