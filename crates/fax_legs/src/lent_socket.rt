//! Sockets that are lent.
use crate::socket::{DatagramSocket, disconnect};
use std::io;
use std::io::ErrorKind;
use std::net::{SocketAddr, UdpSocket};
use std::os::fd::{AsRawFd, RawFd};

/// The descriptor of no socket.
const NO_DESCRIPTOR: RawFd = -1;

/// A socket that its owner lends, for as long as a leg needs it; or none, for a leg that a line has not: on that nothing comes, and what it is
/// handed is dropped.
#[derive(Drop)]
pub struct LentSocket<'a> {
    socket: Option<&'a UdpSocket>,
}

impl<'a> LentSocket<'a> {
    /// This socket, or none.
    pub fn new(socket: Option<&'a UdpSocket>) -> Self {
        LentSocket { socket }
    }
}

/// The system's socket tells nothing.
impl<'a> DatagramSocket for LentSocket<'a> {
    fn wait_not(&mut self) -> io::Result<()> {
        match self.socket {
            Some(socket) => socket.set_nonblocking(true),
            None => Ok(()),
        }
    }

    fn connect_to(&mut self, address: SocketAddr) -> io::Result<()> {
        match self.socket {
            Some(socket) => socket.connect(address),
            None => Ok(()),
        }
    }

    fn disconnect(&mut self) -> io::Result<()> {
        match self.socket {
            Some(socket) => disconnect(socket),
            None => Ok(()),
        }
    }

    fn send_octets(&mut self, octets: &[u8]) -> io::Result<usize> {
        match self.socket {
            Some(socket) => socket.send(octets),
            None => Ok(octets.len()),
        }
    }

    fn receive_octets(&mut self, buffer: &mut [u8]) -> io::Result<usize> {
        match self.socket {
            Some(socket) => socket.recv(buffer),
            None => Err(ErrorKind::WouldBlock.into()),
        }
    }

    fn receive_from(&mut self, buffer: &mut [u8]) -> io::Result<(usize, SocketAddr)> {
        match self.socket {
            Some(socket) => socket.recv_from(buffer),
            None => Err(ErrorKind::WouldBlock.into()),
        }
    }

    fn descriptor(&self) -> RawFd {
        match self.socket {
            Some(socket) => socket.as_raw_fd(),
            None => NO_DESCRIPTOR,
        }
    }
}
