//! Sockets of datagrams with one peer.
ghost use Rattle.std.specs.Prelude.{◌≤◌, [], ◌∷◌, length, IfOk, IfSome};
ghost use Rattle.fax_gateway.specs.Wires.{Grows};
ghost use Rattle.fax_loop.specs.Traffic.{SocketTraffic, brought_by};

use std::io;
use std::io::ErrorKind;
use std::net::UdpSocket;

/// A socket of datagrams that is connected to its one peer. Its calls do not wait.
pub trait ConnectedSocket {
    /// The datagrams that came, and those that were handed over to be sent, the newest first, of a socket that tells them.
    ghost told: { Self → SocketTraffic };

    /// Receives a datagram into the front of the buffer, and says how many octets it has. `None`: nothing has come.
    fn receive_octets(&mut self, buffer: &mut [u8]) -> io::Result<Option<usize>>
        ensures fits { IfOk result (λ came. IfSome came (λ count. count ≤ length buffer.new)) }
        ensures received { Grows (brought_by buffer.new result)
            (told self.old).received (told self.new).received }
        ensures sent { Grows [] (told self.old).sent (told self.new).sent };

    /// Sends a datagram. It was handed over also where the send failed.
    fn send_octets(&mut self, octets: &[u8]) -> io::Result<()>
        ensures received { Grows [] (told self.old).received (told self.new).received }
        ensures sent { Grows (octets.now ∷ []) (told self.old).sent (told self.new).sent };
}

/// The system's socket tells nothing. It was told to be connected, and not to wait.
impl ConnectedSocket for UdpSocket {
    ghost use Rattle.std.specs.Prelude.{None};

    ghost told = { λ socket. record { received = None; sent = None } };

    fn receive_octets(&mut self, buffer: &mut [u8]) -> io::Result<Option<usize>> {
        match self.recv(buffer) {
            Ok(count) => Ok(Some(count)),
            Err(error) if error.kind() == ErrorKind::WouldBlock => Ok(None),
            Err(error) => Err(error),
        }
    }

    fn send_octets(&mut self, octets: &[u8]) -> io::Result<()> {
        match self.send(octets) {
            Ok(_) => Ok(()),
            Err(error) => Err(error),
        }
    }
}
