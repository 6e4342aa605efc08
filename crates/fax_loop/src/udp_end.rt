//! A terminal's end of a leg, over a socket.
use crate::connected_socket::ConnectedSocket;
use fax_terminal::End;

/// A socket whose peer is the gateway.
#[derive(Drop)]
pub struct UdpEnd<S: ConnectedSocket + Drop> {
    pub socket: S,
}

/// What it tells is what its socket tells. A datagram that this does not take is lost, as any may be on its way.
impl<S: ConnectedSocket + Drop> End for UdpEnd<S> {
    ghost use Rattle.fax_loop.specs.Traffic.{end_traffic};

    ghost told = { λ end. end_traffic (S.told end.socket) };

    fn receive(&mut self, buffer: &mut [u8]) -> Option<usize> {
        match self.socket.receive_octets(buffer) {
            Ok(came) => came,
            Err(_) => None,
        }
    }

    fn send(&mut self, octets: &[u8]) {
        match self.socket.send_octets(octets) {
            Ok(()) | Err(_) => {}
        }
    }
}
