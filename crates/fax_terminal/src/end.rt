//! A terminal's end of a leg.
ghost use Rattle.std.specs.Prelude.{◌≤◌, List, [], ◌∷◌, Option, length, IfSome};
ghost use Rattle.fax_gateway.specs.Wires.{Grows};
ghost use Rattle.fax_terminal.specs.Ends.{EndTraffic, HasAsked, brought, handed, traffic_of};

use fax_bits::Octets;
use fax_gateway::Leg;
use fax_wires::repeat::TimedWire;

/// The most octets of a datagram that are read. A longer one is none.
pub const MOST_OCTETS: usize = 2048;

/// Where the datagrams of a terminal come from and go to. Nothing waits: a receive answers at once.
pub trait End {
    /// The datagrams that came, and those that were handed over to be sent, the newest first, where it tells them. Of sockets
    /// nothing is known.
    ghost told: { Self → EndTraffic };

    /// Receives a datagram into the front of the buffer, and says how many octets it has. `None`: nothing has come, or the
    /// receive failed.
    fn receive(&mut self, buffer: &mut [u8]) -> Option<usize>
        ensures fits { IfSome result (λ count. count ≤ length buffer.new) }
        ensures received { Grows (brought buffer.new result)
            (told self.old).received (told self.new).received }
        ensures sent { Grows [] (told self.old).sent (told self.new).sent };

    /// Sends a datagram. It was handed over also where the send failed.
    fn send(&mut self, octets: &[u8])
        ensures received { Grows [] (told self.old).received (told self.new).received }
        ensures sent { Grows (octets.now ∷ []) (told self.old).sent (told self.new).sent };
}

/// Hands a datagram over, where one is given.
pub(crate) fn hand_over<E: End>(end: &mut E, datagram: Option<Octets>)
    ensures received { Grows [] (E.told end.old).received (E.told end.new).received }
    ensures sent { Grows (handed datagram) (E.told end.old).sent (E.told end.new).sent }
{
    if let Some(datagram) = datagram {
        end.send(datagram.as_slice());
    }
}

/// The calling leg of a wire, as an end.
#[derive(Drop)]
pub struct WireEnd<W: TimedWire + Drop> {
    pub wire: W,
}

/// What it tells is what its wire tells. A datagram that the wire does not take is lost, as any may be on its way.
impl<W: TimedWire + Drop> End for WireEnd<W> {
    ghost use Rattle.fax_terminal.specs.Ends.{traffic_of};

    ghost told = { λ end. traffic_of (W.known end.wire) };

    fn receive(&mut self, buffer: &mut [u8]) -> Option<usize>
        ensures fits { IfSome result (λ count. count ≤ length buffer.new) }
        ensures received { Grows (brought buffer.new result)
            (traffic_of (W.known self.old.wire)).received
            (traffic_of (W.known self.new.wire)).received }
        ensures sent { Grows [] (traffic_of (W.known self.old.wire)).sent
            (traffic_of (W.known self.new.wire)).sent }
        ensures asks { HasAsked (W.known self.old.wire) (W.known self.new.wire) }
    {
        match self.wire.receive(Leg::Calling, buffer) {
            Ok(came) => came,
            Err(_) => None,
        }
    }

    fn send(&mut self, octets: &[u8]) {
        match self.wire.send(Leg::Calling, octets) {
            Ok(()) | Err(_) => {}
        }
    }
}
