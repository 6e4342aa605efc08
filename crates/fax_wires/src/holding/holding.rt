//! The wire that holds back.
ghost use Rattle.std.specs.Prelude.{◌≡◌, ℕ, List, [], ◌∷◌, None, Some, true, false, is_ok, OnOk, OnErr};
ghost use Rattle.fax_gateway.specs.Wires.{Grows, failures_after};
ghost use Rattle.fax_gateway.specs.declared.leg.Leg.{Leg as LegShown};
ghost use Rattle.fax_wires.specs.repeat.Peers.{peers_of};
ghost use Rattle.fax_wires.specs.repeat.Policies.{IsToldAs, other_leg};
ghost use Rattle.fax_wires.specs.holding.Holding.{Holds, IsToldTime, KeepsClock, Releases, Sends, Silences, Speaks, as_told, due_on, fresh};

use crate::repeat::{Bounds, LegState, LegWire, NoRoute, Peer, TimedWire};
use fax_gateway::{Leg, Wire, WireFault};
use std::alloc::Global;
use std::marker::Model;

/// A wire over another one. What is handed over on the calling leg is held, one datagram at most, until it is released; what is
/// handed over on the called leg goes on at once. While the calling leg is silenced nothing goes on there.
///
/// What is told of it is how many of its calls failed, and what it received; of what it was handed to send nothing is told, since
/// that may never leave.
pub struct HoldingWire<W: TimedWire + Drop> {
    wire: W,
    alloc: Global,
    /// The octets of the datagram that is held.
    held: Option<Vec<u8>>,
    is_silenced: bool,
    /// How many receives and sends failed. That a datagram failed to leave when it was released is not among them.
    failures: u64,
}

impl<W: TimedWire + Drop> Drop for HoldingWire<W> {
    fn drop(self) {
        let HoldingWire {
            wire: _wire,
            alloc: _alloc,
            held: _held,
            is_silenced: _is_silenced,
            failures: _failures,
        } = self;
    }
}

impl<W: TimedWire + Drop> Model for HoldingWire<W> {
    ghost use Rattle.std.specs.Prelude.{◌≡◌, true, None};
    ghost use Rattle.fax_gateway.specs.declared.leg.Leg.TheVariants as leg_shown;
    ghost use Rattle.fax_wires.specs.repeat.Peers.{peers_of};
    ghost use Rattle.fax_wires.specs.holding.Holding.{HoldingValue, octets_of};

    ghost Value = { HoldingValue };

    ghost view = { λ w.
        record {
          held = octets_of w.held;
          is_silenced = w.is_silenced;
          failures = w.failures;
          wire = W.known w.wire;
          clock = W.clock w.wire;
          calling_due = W.due leg_shown.Calling w.wire;
          called_due = W.due leg_shown.Called w.wire;
          peers = peers_of W.peer_at w.wire;
        } };

    ghost invariant = { λ w. w.is_silenced ≡ true → octets_of w.held ≡ None };
}

impl<W: TimedWire + Drop> HoldingWire<W> {
    /// A wire that holds nothing, over this one. The calling leg is not silenced.
    pub fn new(alloc: Global, wire: W) -> Self
        ensures { result ≡ fresh (W.known wire) (W.clock wire)
            (W.due LegShown.Calling wire) (W.due LegShown.Called wire) (peers_of W.peer_at wire) }
    {
        HoldingWire {
            wire,
            alloc,
            held: None,
            is_silenced: false,
            failures: 0,
        }
    }

    /// The wire below.
    pub fn wire(&self) -> &W
        ensures wire { W.known result.now ≡ self.now.wire }
        ensures peers { peers_of W.peer_at result.now ≡ self.now.peers }
    {
        &self.wire
    }

    /// Whether the calling leg is silenced.
    pub fn is_silenced(&self) -> bool
        ensures { result ≡ self.now.is_silenced }
    {
        self.is_silenced
    }

    /// What is held goes on to the wire below, where something is. An `Err`: its send failed, and it counts as lost.
    pub fn release(&mut self) -> Result<(), WireFault>
        ensures released { Releases self.old self.new }
        ensures clock { KeepsClock self.old self.new }
        ensures told { IsToldAs (as_told self.old) (as_told self.new) }
    {
        match self.held.take() {
            None => Ok(()),
            Some(octets) => self.wire.send(Leg::Calling, octets.as_slice()),
        }
    }

    /// What is held is dropped, and the calling leg is silenced from now on: the wire below repeats nothing there, and is handed nothing
    /// until the next call begins.
    pub fn silence(&mut self)
        ensures silenced { Silences self.old self.new }
        ensures clock { KeepsClock self.old self.new }
        ensures told { IsToldAs (as_told self.old) (as_told self.new) }
    {
        self.held = None;
        self.is_silenced = true;
        self.wire.cease(Leg::Calling);
    }

    /// The calling leg is silenced no more; what is held stays.
    pub fn speak(&mut self)
        ensures speaks { self.new ≡ record self.old { is_silenced = false } }
    {
        self.is_silenced = false;
    }

    /// Holds a datagram in place of the one that is held, unless the leg is silenced. An `Err`: memory was refused, and none is held.
    fn hold(&mut self, octets: &[u8]) -> Result<(), WireFault>
        ensures held { OnOk result (Holds octets.now self.old self.new) }
        ensures lost { OnErr result (self.new.held ≡ None) }
        ensures silence { self.new.is_silenced ≡ self.old.is_silenced }
        ensures failures { self.new.failures ≡ failures_after self.old.failures result }
        ensures wire { self.new.wire ≡ self.old.wire }
        ensures clock { KeepsClock self.old self.new }
        ensures peers { self.new.peers ≡ self.old.peers }
    {
        if self.is_silenced {
            return Ok(());
        }
        self.held = None;
        match octets.to_vec(self.alloc) {
            Ok(copy) => {
                self.held = Some(copy);
                Ok(())
            }
            Err(_) => {
                self.failures = self.failures.saturating_add(1);
                Err(WireFault)
            }
        }
    }

    /// Hands a datagram of the called leg on.
    fn hand_on(&mut self, octets: &[u8]) -> Result<(), WireFault>
        ensures held { self.new.held ≡ self.old.held }
        ensures silence { self.new.is_silenced ≡ self.old.is_silenced }
        ensures failures { self.new.failures ≡ failures_after self.old.failures result }
        ensures received { Grows [] self.old.wire.received self.new.wire.received }
        ensures sent { Grows (record { leg = LegShown.Called; octets = octets.now }
            ∷ []) self.old.wire.sent self.new.wire.sent }
        ensures clock { KeepsClock self.old self.new }
        ensures peers { self.new.peers ≡ self.old.peers }
    {
        match self.wire.send(Leg::Called, octets) {
            Ok(()) => Ok(()),
            Err(WireFault) => {
                self.failures = self.failures.saturating_add(1);
                Err(WireFault)
            }
        }
    }
}

impl<W: TimedWire + Drop> Wire for HoldingWire<W> {
    ghost use Rattle.fax_wires.specs.repeat.Peers.{HearsOn};
    ghost use Rattle.fax_wires.specs.holding.Holding.{KeepsClock, Sends, Stays, as_told};

    ghost known = { as_told };

    ghost receives = { λ leg old new. Stays old new
        × HearsOn leg old.peers new.peers × KeepsClock old new };

    ghost sends = { λ leg octets is_sent old new. Sends leg octets is_sent old new
        × (new.peers ≡ old.peers) × KeepsClock old new };

    fn receive(&mut self, leg: Leg, buffer: &mut [u8]) -> Result<Option<usize>, WireFault> {
        match self.wire.receive(leg, buffer) {
            Ok(came) => Ok(came),
            Err(WireFault) => {
                self.failures = self.failures.saturating_add(1);
                Err(WireFault)
            }
        }
    }

    /// On the calling leg the datagram is held; on the called leg it goes on at once.
    fn send(&mut self, leg: Leg, octets: &[u8]) -> Result<(), WireFault>
        ensures failures { self.new.failures ≡ failures_after self.old.failures result }
        ensures received { Grows [] self.old.wire.received self.new.wire.received }
        ensures sends { Sends leg octets.now (is_ok result) self.old self.new }
        ensures clock { KeepsClock self.old self.new }
        ensures peers { self.new.peers ≡ self.old.peers }
    {
        match leg {
            Leg::Calling => self.hold(octets),
            Leg::Called => self.hand_on(octets),
        }
    }
}

/// The wire below has the peers. By what it is told of them what is held stays.
impl<W: TimedWire + Drop> LegWire for HoldingWire<W> {
    ghost use Rattle.fax_wires.specs.repeat.Peers.{peer_on};
    ghost use Rattle.fax_wires.specs.holding.Holding.{TellsPeers};

    ghost peer_at = { λ leg wire. peer_on leg wire.peers };

    ghost is_told = { TellsPeers };

    ghost keeps_on_receive = { λ at old new made. made.1 };

    ghost keeps_on_send = { λ at octets is_sent old new made. made.1 };

    fn set_peer(&mut self, leg: Leg, peer: Peer) -> Result<(), NoRoute> {
        self.wire.set_peer(leg, peer)
    }

    fn cut(&mut self, leg: Leg) {
        self.wire.cut(leg);
    }

    fn begin(&mut self, leg: Leg, bounds: Bounds) {
        self.wire.begin(leg, bounds);
    }

    fn hang_up(&mut self, leg: Leg) {
        self.wire.hang_up(leg);
    }

    fn settle(&mut self, leg: Leg, is_on: bool) {
        self.wire.settle(leg, is_on);
    }

    fn leg_state(&self, leg: Leg) -> LegState {
        self.wire.leg_state(leg)
    }
}

impl<W: TimedWire + Drop> TimedWire for HoldingWire<W> {
    ghost use Rattle.fax_wires.specs.holding.Holding.{Ceases, IsToldTime, KeepsClock, Stays, due_on};
    ghost use Rattle.fax_wires.specs.holding.Telling.{told_due};

    ghost due = { due_on };

    ghost clock = { λ wire. wire.clock };

    ghost goes_on = { λ old new. Stays old new × (new.peers ≡ old.peers) };

    ghost ceases = { λ leg old new. Ceases leg old new
        × (new.peers ≡ old.peers) × KeepsClock old new };

    ghost keeps_due = { told_due };

    ghost clock_on_receive = { λ at old new made. made.2 };

    ghost clock_on_send = { λ at octets is_sent old new made. made.2 };

    ghost clock_on_told = { λ old new made. made.clock };

    ghost clock_on_cease = { λ at old new made. made.2 };

    ghost keeps_on_time = { λ old new made. made.1 };

    ghost keeps_on_cease = { λ at old new made. made.1 };

    fn go_on(&mut self, now: u64)
        ensures clock { IsToldTime now self.old self.new }
        ensures told { IsToldAs (as_told self.old) (as_told self.new) }
        ensures held { self.new.held ≡ self.old.held }
        ensures silence { self.new.is_silenced ≡ self.old.is_silenced }
        ensures wire { IsToldAs self.old.wire self.new.wire }
        ensures peers { self.new.peers ≡ self.old.peers }
    {
        self.wire.go_on(now);
    }

    /// What the wire below was handed on the leg is sent no more. On the calling leg what is held is dropped, and the leg is silenced no
    /// more.
    fn cease(&mut self, leg: Leg)
        ensures told { IsToldAs (as_told self.old) (as_told self.new) }
        ensures speaks { Speaks leg self.old self.new }
        ensures clock { KeepsClock self.old self.new }
        ensures ended { due_on leg self.new ≡ None }
        ensures beside { due_on (other_leg leg) self.new ≡ due_on (other_leg leg) self.old }
        ensures wire { IsToldAs self.old.wire self.new.wire }
        ensures peers { self.new.peers ≡ self.old.peers }
    {
        self.wire.cease(leg);
        match leg {
            Leg::Calling => {
                self.held = None;
                self.speak();
            }
            Leg::Called => {}
        }
    }

    fn next_due(&self) -> Option<u64> {
        self.wire.next_due()
    }
}
