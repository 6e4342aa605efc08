//! Sockets of datagrams.
ghost use Rattle.std.specs.Prelude.{◌≡◌, ◌≤◌, Option, None, Some, length, option_map, IfOk, OnErr, OnOk};
ghost use Rattle.fax_legs.specs.Sockets.{SocketValue, connected, handed};

use std::io;
use std::net::{SocketAddr, UdpSocket};
use std::os::fd::{AsRawFd, RawFd};

/// How many octets of an address the system reads where none is given: those of an address without a family.
const NO_ADDRESS_OCTETS: u32 = 16;

/// A socket of datagrams. Its calls do not wait, once it was told so.
pub trait DatagramSocket {
    /// Where it is connected to, and what it was handed, of a socket that tells it. By default nothing is told.
    ghost known: { Self → Option SocketValue } = { λ socket. None };

    /// From now on no call waits.
    fn wait_not(&mut self) -> io::Result<()>
        ensures { known self.new ≡ known self.old };

    /// From now on datagrams go to this address and come from it alone. An `Err`: it is connected as before.
    fn connect_to(&mut self, address: SocketAddr) -> io::Result<()>
        ensures ok { OnOk result (known self.new
            ≡ option_map (connected (Some address)) (known self.old)) }
        ensures err { OnErr result (known self.new ≡ known self.old) };

    /// From now on datagrams come from everywhere. An `Err`: it is connected as before.
    fn disconnect(&mut self) -> io::Result<()>
        ensures ok { OnOk result (known self.new ≡ option_map (connected None) (known self.old)) }
        ensures err { OnErr result (known self.new ≡ known self.old) };

    /// Sends a datagram where it is connected to. It was handed over also where the send failed.
    fn send_octets(&mut self, octets: &[u8]) -> io::Result<usize>
        ensures { known self.new ≡ option_map (handed octets.now) (known self.old) };

    /// Receives a datagram into the front of the buffer, and says how many octets it has.
    fn receive_octets(&mut self, buffer: &mut [u8]) -> io::Result<usize>
        ensures fits { IfOk result (λ count. count ≤ length buffer.new) }
        ensures known { known self.new ≡ known self.old };

    /// The same, and where it came from.
    fn receive_from(&mut self, buffer: &mut [u8]) -> io::Result<(usize, SocketAddr)>
        ensures fits { IfOk result (λ came. came.0 ≤ length buffer.new) }
        ensures known { known self.new ≡ known self.old };

    /// Its descriptor.
    fn descriptor(&self) -> RawFd;
}

/// From now on datagrams come to a socket from everywhere.
pub(crate) fn disconnect(socket: &UdpSocket) -> io::Result<()> {
    let none = [0u8; libc::net::_SS_SIZE];
    if unsafe { libc::net::connect(socket.as_raw_fd(), &none, NO_ADDRESS_OCTETS) } == 0 {
        Ok(())
    } else {
        Err(io::Error::other("a socket stays connected"))
    }
}

/// The system's socket tells nothing.
impl DatagramSocket for UdpSocket {
    fn wait_not(&mut self) -> io::Result<()> {
        self.set_nonblocking(true)
    }

    fn connect_to(&mut self, address: SocketAddr) -> io::Result<()> {
        self.connect(address)
    }

    fn disconnect(&mut self) -> io::Result<()> {
        disconnect(self)
    }

    fn send_octets(&mut self, octets: &[u8]) -> io::Result<usize> {
        self.send(octets)
    }

    fn receive_octets(&mut self, buffer: &mut [u8]) -> io::Result<usize> {
        self.recv(buffer)
    }

    fn receive_from(&mut self, buffer: &mut [u8]) -> io::Result<(usize, SocketAddr)> {
        self.recv_from(buffer)
    }

    fn descriptor(&self) -> RawFd {
        self.as_raw_fd()
    }
}
