//! A wire of a line over UDP.
ghost use Rattle.std.specs.Prelude.{◌≡◌, Ok, is_ok, option_map, IfOk, OnErr, OnOk};
ghost use Rattle.fax_gateway.specs.Wires.{failures_after};
ghost use Rattle.fax_wires.specs.repeat.Peers.{said};
ghost use Rattle.fax_legs.specs.Legs.{leg_on};
ghost use Rattle.fax_legs.specs.Sockets.{connected};

use crate::leg_socket::LegSocket;
use crate::socket::DatagramSocket;
use fax_gateway::{Leg, Wire, WireFault};
use fax_wires::repeat::{Bounds, LegState, LegWire, NoRoute, Peer};
use std::io;
use std::marker::Model;

/// Two sockets, one for each leg of a line.
pub struct UdpWire<S: DatagramSocket + Drop> {
    calling: LegSocket<S>,
    called: LegSocket<S>,
    /// How many receives and sends failed.
    failures: u64,
}

impl<S: DatagramSocket + Drop> Drop for UdpWire<S> {
    fn drop(self) {
        let UdpWire {
            calling: _calling,
            called: _called,
            failures: _failures,
        } = self;
    }
}

/// Contracts see both legs, and how many calls failed.
impl<S: DatagramSocket + Drop> Model for UdpWire<S> {
    ghost use Rattle.fax_legs.specs.Legs.{UdpValue};

    ghost Value = { UdpValue };

    ghost view = { λ wire.
        record { calling = wire.calling; called = wire.called; failures = wire.failures } };
}

impl<S: DatagramSocket + Drop> UdpWire<S> {
    /// A wire over these legs.
    pub fn new(calling: LegSocket<S>, called: LegSocket<S>) -> Self
        ensures { result ≡ record { calling = calling; called = called; failures = 0 } }
    {
        UdpWire {
            calling,
            called,
            failures: 0,
        }
    }

    /// The socket of a leg.
    pub fn leg(&self, leg: Leg) -> &LegSocket<S>
        ensures { result.now ≡ leg_on leg self.now }
    {
        match leg {
            Leg::Calling => &self.calling,
            Leg::Called => &self.called,
        }
    }
}

/// What a leg answered to a call, which is counted where it failed.
fn answered<T>(answer: io::Result<T>, failures: &mut u64) -> Result<T, WireFault>
    ensures ok { IfOk answer (λ value. result ≡ Ok value) }
    ensures is_ok { is_ok result ≡ is_ok answer }
    ensures failures { failures.new ≡ failures_after failures.old result }
{
    match answer {
        Ok(value) => Ok(value),
        Err(_) => {
            *failures = failures.saturating_add(1);
            Err(WireFault)
        }
    }
}

/// From now on datagrams of a leg go to this peer and come from it alone. An `Err`: the peer is as before.
fn set_peer_of<S: DatagramSocket + Drop>(leg: &mut LegSocket<S>, peer: Peer) -> Result<(), NoRoute>
    ensures ok { OnOk result (leg.new ≡ record leg.old {
      peer = said peer leg.old.peer;
      socket = option_map (connected peer.address) leg.old.socket;
    }) }
    ensures err { OnErr result (leg.new ≡ leg.old) }
{
    match leg.set_peer(peer) {
        Ok(()) => Ok(()),
        Err(_) => Err(NoRoute),
    }
}

/// Datagrams as they come and go are not told. A receive or a send on a leg leaves the other leg as it was.
impl<S: DatagramSocket + Drop> Wire for UdpWire<S> {
    ghost use Rattle.std.specs.Prelude.{None};
    ghost use Rattle.fax_legs.specs.Legs.{ReceivesOn, SendsOn};

    ghost known = { λ wire. record { failures = wire.failures; received = None; sent = None } };

    ghost receives = { ReceivesOn };

    ghost sends = { SendsOn };

    fn receive(&mut self, leg: Leg, buffer: &mut [u8]) -> Result<Option<usize>, WireFault> {
        match leg {
            Leg::Calling => answered(self.calling.receive(buffer), &mut self.failures),
            Leg::Called => answered(self.called.receive(buffer), &mut self.failures),
        }
    }

    fn send(&mut self, leg: Leg, octets: &[u8]) -> Result<(), WireFault> {
        match leg {
            Leg::Calling => answered(self.calling.send(octets), &mut self.failures),
            Leg::Called => answered(self.called.send(octets), &mut self.failures),
        }
    }
}

/// The peers of both legs are told.
impl<S: DatagramSocket + Drop> LegWire for UdpWire<S> {
    ghost use Rattle.fax_legs.specs.PeersKept.{keeps_on_receive as kept_on_receive, keeps_on_send as kept_on_send, told_peer};

    ghost peer_at = { told_peer };

    ghost keeps_on_receive = { kept_on_receive };

    ghost keeps_on_send = { kept_on_send };

    fn set_peer(&mut self, leg: Leg, peer: Peer) -> Result<(), NoRoute> {
        match leg {
            Leg::Calling => set_peer_of(&mut self.calling, peer),
            Leg::Called => set_peer_of(&mut self.called, peer),
        }
    }

    fn cut(&mut self, leg: Leg) {
        match leg {
            Leg::Calling => self.calling.cut(),
            Leg::Called => self.called.cut(),
        }
    }

    fn begin(&mut self, leg: Leg, bounds: Bounds) {
        match leg {
            Leg::Calling => self.calling.begin(bounds),
            Leg::Called => self.called.begin(bounds),
        }
    }

    fn hang_up(&mut self, leg: Leg) {
        match leg {
            Leg::Calling => self.calling.hang_up(),
            Leg::Called => self.called.hang_up(),
        }
    }

    fn settle(&mut self, leg: Leg, is_on: bool) {
        match leg {
            Leg::Calling => self.calling.settle(is_on),
            Leg::Called => self.called.settle(is_on),
        }
    }

    fn leg_state(&self, leg: Leg) -> LegState {
        match leg {
            Leg::Calling => self.calling.state(),
            Leg::Called => self.called.state(),
        }
    }
}
