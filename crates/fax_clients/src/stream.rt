//! The stream of a client.
ghost use Rattle.std.specs.Prelude.{◌≤◌, length, IfOk};

use std::io;
use std::io::{Read, Stdin, Stdout, Write};
use std::os::fd::{AsRawFd, RawFd};
use std::os::unix::net::UnixStream;

/// The descriptors of standard input and output.
const STANDARD_INPUT: RawFd = 0;

const STANDARD_OUTPUT: RawFd = 1;

/// Where a client's words come from, and where its answers go.
#[derive(Drop)]
pub(crate) enum Stream {
    /// Standard input and output.
    Standard(Stdin, Stdout),
    /// A client of the control socket. It does not wait.
    Socket(UnixStream),
}

impl Stream {
    /// The descriptor that octets come from.
    pub(crate) fn input(&self) -> RawFd {
        match self {
            Stream::Standard(_, _) => STANDARD_INPUT,
            Stream::Socket(socket) => socket.as_raw_fd(),
        }
    }

    /// The descriptor that octets go to.
    pub(crate) fn output(&self) -> RawFd {
        match self {
            Stream::Standard(_, _) => STANDARD_OUTPUT,
            Stream::Socket(socket) => socket.as_raw_fd(),
        }
    }

    /// How many octets may be written at once without waiting, where the stream is ready.
    pub(crate) fn most_at_once(&self) -> usize {
        match self {
            Stream::Standard(_, _) => 4096,
            Stream::Socket(_) => usize::MAX,
        }
    }
}

impl Read for Stream {
    fn read(&mut self, octets: &mut [u8]) -> io::Result<usize> {
        match self {
            Stream::Standard(input, _) => input.read(octets),
            Stream::Socket(socket) => socket.read(octets),
        }
    }
}

impl Write for Stream {
    fn write(&mut self, octets: &[u8]) -> io::Result<usize> {
        let most = octets.len().min(self.most_at_once());
        let octets = &octets[..most];
        match self {
            Stream::Standard(_, output) => output.write(octets),
            Stream::Socket(socket) => socket.write(octets),
        }
    }

    fn flush(&mut self) -> io::Result<()> {
        Ok(())
    }
}
