//! What opens sockets that are each other's peers.
ghost use Rattle.std.specs.Prelude.{IfOk};

use crate::connected_socket::ConnectedSocket;
use std::io;

/// What opens two sockets, each of which is the other's only peer.
pub trait OpensPairs {
    /// Such a socket.
    type Socket: ConnectedSocket + Drop;

    /// These two were opened as one pair, and nothing went over them since. By default nothing is told of them.
    ghost are_paired: { Self → Self.Socket → Self.Socket → Type 0 } = { λ opener here there. Unit {0} };

    /// Opens such a pair. An `Err` is that of the system.
    fn pair(&self) -> io::Result<(Self::Socket, Self::Socket)>
        ensures { IfOk result (λ pair. are_paired self.now pair.0 pair.1) };
}
