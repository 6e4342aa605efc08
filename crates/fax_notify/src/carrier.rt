//! What takes datagrams to sockets of the system's own.
ghost use Rattle.std.specs.Prelude.{◌≡◌, List, Option, None};
ghost use Rattle.fax_notify.specs.Carrying.{Carried, carried_after};

use std::io;

/// What takes datagrams to sockets of the system's own.
pub trait Carrier {
    /// What it was handed, the newest first, of one that tells it. By default nothing is told.
    ghost carried: { Self → Option (List Carried) } = { λ carrier. None };

    /// Takes these octets to the socket of this address, as one datagram. It was handed them also where that failed.
    fn carry(&mut self, address: &[u8], octets: &[u8]) -> io::Result<()>
        ensures { carried self.new ≡ carried_after address.now octets.now (carried self.old) };
}
