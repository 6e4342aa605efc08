//! A wire of a gateway over two sockets.
ghost use Rattle.std.specs.Prelude.{◌≡◌, ◌≤◌, Ok, IfOk, IfSome, is_ok, length};
ghost use Rattle.fax_gateway.specs.Wires.{Grows, failures_after};
ghost use Rattle.fax_loop.specs.Sockets.{Receives, socket_of};
ghost use Rattle.fax_loop.specs.Traffic.{brought_by};

use crate::connected_socket::ConnectedSocket;
use fax_gateway::{Leg, Wire, WireFault};
use std::io;

/// Two sockets, one for each leg of a gateway. Each is connected to the peer of its leg, and does not wait: where nothing
/// has come, a receive says so at once.
#[derive(Drop)]
pub struct UdpWire<S: ConnectedSocket + Drop> {
    calling: S,
    called: S,
    /// How many receives and sends failed.
    failures: u64,
}

impl<S: ConnectedSocket + Drop> UdpWire<S> {
    /// A wire over the socket of the calling and that of the called leg.
    pub fn new(calling: S, called: S) -> Self
        ensures failures { result.failures ≡ 0 }
        ensures sockets { (result.calling ≡ calling) × (result.called ≡ called) }
    {
        UdpWire {
            calling,
            called,
            failures: 0,
        }
    }
}

/// What a socket answered to a call, which is counted where it failed.
fn answered<T>(answer: io::Result<T>, failures: &mut u64) -> Result<T, WireFault>
    ensures ok { IfOk answer (λ value. result ≡ Ok value) }
    ensures is_ok { is_ok result ≡ is_ok answer }
    ensures failures { failures.new ≡ failures_after failures.old result }
{
    match answer {
        Ok(value) => Ok(value),
        Err(_) => {
            *failures = failures.saturating_add(1);
            Err(WireFault)
        }
    }
}

/// What came and what was sent on both legs in one order is not told. What a receive brings is what the leg's socket brought, what is
/// sent is what that was handed, and the other leg's stays as it was.
impl<S: ConnectedSocket + Drop> Wire for UdpWire<S> {
    ghost use Rattle.std.specs.Prelude.{None};
    ghost use Rattle.fax_loop.specs.Sockets.{Hands, Receives};

    ghost known = { λ wire. record { failures = wire.failures; received = None; sent = None } };

    ghost receives = { Receives S.told };

    ghost sends = { λ leg octets is_sent old new. Hands S.told leg octets old new };

    fn receive(&mut self, leg: Leg, buffer: &mut [u8]) -> Result<Option<usize>, WireFault>
        ensures fits { IfOk result (λ came. IfSome came (λ count. count ≤ length buffer.new)) }
        ensures failures { self.new.failures ≡ failures_after self.old.failures result }
        ensures brings { Grows (brought_by buffer.new result)
            (S.told (socket_of leg self.old)).received (S.told (socket_of leg self.new)).received }
        ensures makes { Receives S.told leg self.old self.new }
    {
        match leg {
            Leg::Calling => answered(self.calling.receive_octets(buffer), &mut self.failures),
            Leg::Called => answered(self.called.receive_octets(buffer), &mut self.failures),
        }
    }

    fn send(&mut self, leg: Leg, octets: &[u8]) -> Result<(), WireFault> {
        match leg {
            Leg::Calling => answered(self.calling.send_octets(octets), &mut self.failures),
            Leg::Called => answered(self.called.send_octets(octets), &mut self.failures),
        }
    }
}
