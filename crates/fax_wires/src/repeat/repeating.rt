//! The wire that repeats.
ghost use Rattle.std.specs.Prelude.{◌≡◌, ◌<◌, ℕ, Bool, List, [], ◌∷◌, max, true, false};
ghost use Rattle.fax_gateway.specs.Wires.{Grows, failures_after, receipt_of};
ghost use Rattle.fax_gateway.specs.declared.leg.Leg.TheVariants as leg_shown;
ghost use Rattle.fax_wires.specs.repeat.Peers.{peers_of};
ghost use Rattle.fax_wires.specs.repeat.Policies.{GoesOn, HandsOver, IsToldAs, ceased, earlier_of, last_beside, last_on, repeat_of, repeated, unknown};
ghost use Rattle.fax_wires.specs.repeat.Repeats.{IsWithin, Repeats, TellsNone, told_if, told_of};

use crate::repeat::last::{Last, earlier};
use crate::repeat::peers::{Bounds, LegState, LegWire, NoRoute, Peer};
use crate::repeat::policy::RepeatPolicy;
use crate::repeat::timed::TimedWire;
use fax_gateway::{Leg, Wire, WireFault};
use std::marker::Model;

/// A wire over another one. What is handed over is sent at once; and the last datagram of each leg is sent again by a policy,
/// as time goes on, until a newer one is handed over on its leg or a new call begins there. A datagram of more than 1,500
/// octets is sent once. A send that fails counts as made.
pub struct RepeatingWire<W: LegWire + Drop> {
    wire: W,
    policy: RepeatPolicy,
    /// The latest moment that it was told.
    clock: u64,
    calling: Last,
    called: Last,
    /// How many receives and sends failed, without the repeats.
    failures: u64,
    /// Whether it tells what it was handed over: no more where two datagrams that followed on a leg had the same octets, or
    /// one had more than are repeated.
    tells: bool,
}

impl<W: LegWire + Drop> Drop for RepeatingWire<W> {
    fn drop(self) {
        let RepeatingWire {
            wire: _wire,
            policy: _policy,
            clock: _clock,
            calling: _calling,
            called: _called,
            failures: _failures,
            tells: _tells,
        } = self;
    }
}

impl<W: LegWire + Drop> Model for RepeatingWire<W> {
    ghost use Rattle.fax_wires.specs.repeat.Peers.{peers_of};
    ghost use Rattle.fax_wires.specs.repeat.Policies.{RepeatingValue};
    ghost use Rattle.fax_wires.specs.repeat.Repeats.{IsRepeating};

    ghost Value = { RepeatingValue };

    ghost view = { λ w. record {
      policy = w.policy;
      clock = w.clock;
      calling = w.calling;
      called = w.called;
      failures = w.failures;
      tells = w.tells;
      wire = W.known w.wire;
      peers = peers_of W.peer_at w.wire;
    } };

    ghost invariant = { λ w. IsRepeating (record {
      policy = w.policy;
      clock = w.clock;
      calling = w.calling;
      called = w.called;
      failures = w.failures;
      tells = w.tells;
      wire = W.known w.wire;
      peers = peers_of W.peer_at w.wire;
    }) };
}

impl<W: LegWire + Drop> RepeatingWire<W> {
    /// A wire over one that was handed nothing.
    pub fn new(wire: W, policy: RepeatPolicy) -> Self
        requires { TellsNone (W.known wire).sent }
        ensures { result ≡ record {
          policy = policy;
          clock = 0;
          calling = unknown;
          called = unknown;
          failures = 0;
          tells = true;
          wire = W.known wire;
          peers = peers_of W.peer_at wire;
        } }
    {
        RepeatingWire {
            wire,
            policy,
            clock: 0,
            calling: Last::new(),
            called: Last::new(),
            failures: 0,
            tells: true,
        }
    }

    /// The wire below.
    pub fn wire(&self) -> &W
        ensures wire { W.known result.now ≡ self.now.wire }
        ensures peers { peers_of W.peer_at result.now ≡ self.now.peers }
        ensures repeats { Repeats self.now }
    {
        &self.wire
    }

    /// Sends on the calling leg.
    fn send_on_calling(&mut self, octets: &[u8]) -> Result<(), WireFault>
        ensures handed { HandsOver leg_shown.Calling octets.now self.old self.new }
        ensures failures { self.new.failures ≡ failures_after self.old.failures result }
        ensures received { Grows [] self.old.wire.received self.new.wire.received }
        ensures told { Grows (record { leg = leg_shown.Calling; octets = octets.now } ∷ []) (told_if
            self.old.tells self.old.wire.sent) (told_if self.new.tells self.new.wire.sent) }
    {
        let is_other = self.calling.hand(self.policy, self.clock, octets);
        self.tells = both(self.tells, is_other);
        let answer = self.wire.send(Leg::Calling, octets);
        self.failures = counted(self.failures, answer);
        answer
    }

    /// Sends on the called leg.
    fn send_on_called(&mut self, octets: &[u8]) -> Result<(), WireFault>
        ensures handed { HandsOver leg_shown.Called octets.now self.old self.new }
        ensures failures { self.new.failures ≡ failures_after self.old.failures result }
        ensures received { Grows [] self.old.wire.received self.new.wire.received }
        ensures told { Grows (record { leg = leg_shown.Called; octets = octets.now } ∷ []) (told_if
            self.old.tells self.old.wire.sent) (told_if self.new.tells self.new.wire.sent) }
    {
        let is_other = self.called.hand(self.policy, self.clock, octets);
        self.tells = both(self.tells, is_other);
        let answer = self.wire.send(Leg::Called, octets);
        self.failures = counted(self.failures, answer);
        answer
    }
}

/// Whether both hold.
fn both(one: bool, other: bool) -> bool
    ensures first { result ≡ true → one ≡ true }
    ensures second { result ≡ true → other ≡ true }
{
    one && other
}

/// One failure more, where this failed.
fn counted(failures: u64, answer: Result<(), WireFault>) -> u64
    ensures { result ≡ failures_after failures answer }
{
    match answer {
        Ok(()) => failures,
        Err(WireFault) => failures.saturating_add(1),
    }
}

/// Sends the last datagram of a leg again, where its moment has come.
fn send_again<W: LegWire>(wire: &mut W, leg: Leg, last: &mut Last, policy: RepeatPolicy, now: u64)
    requires { IsWithin policy last.old }
    ensures last { last.new ≡ repeated policy now last.old }
    ensures received { Grows [] (W.known wire.old).received (W.known wire.new).received }
    ensures peers { peers_of W.peer_at wire.new ≡ peers_of W.peer_at wire.old }
    ensures sent { Grows (repeat_of leg now last.old)
        (W.known wire.old).sent (W.known wire.new).sent }
{
    if last.is_due(now) {
        let _ = wire.send(leg, last.octets());
        last.repeat(policy, now);
    }
}

/// What is told of it is what it was handed over.
impl<W: LegWire + Drop> Wire for RepeatingWire<W> {
    ghost use Rattle.fax_wires.specs.repeat.Peers.{HearsOn};
    ghost use Rattle.fax_wires.specs.repeat.Repeats.{told_of};

    ghost known = { told_of };

    ghost receives = { λ leg old new. HearsOn leg old.peers new.peers × (new.clock ≡ old.clock) };

    ghost sends = { λ leg octets is_sent old new. (new.peers ≡ old.peers)
        × (new.clock ≡ old.clock) };

    fn receive(&mut self, leg: Leg, buffer: &mut [u8]) -> Result<Option<usize>, WireFault> {
        match self.wire.receive(leg, buffer) {
            Ok(came) => Ok(came),
            Err(WireFault) => {
                self.failures = self.failures.saturating_add(1);
                Err(WireFault)
            }
        }
    }

    /// The datagram is sent at once, and is the last of its leg.
    fn send(&mut self, leg: Leg, octets: &[u8]) -> Result<(), WireFault>
        ensures failures { self.new.failures ≡ failures_after self.old.failures result }
        ensures received { Grows [] self.old.wire.received self.new.wire.received }
        ensures sent { Grows (record { leg = leg; octets = octets.now } ∷ []) (told_if
            self.old.tells self.old.wire.sent) (told_if self.new.tells self.new.wire.sent) }
        ensures handed { HandsOver leg octets.now self.old self.new }
        ensures repeats { Repeats self.new }
    {
        let answer = match leg {
            Leg::Calling => self.send_on_calling(octets),
            Leg::Called => self.send_on_called(octets),
        };
        let _ = &self.tells;
        answer
    }
}

/// The wire below has the peers. By what it is told of them nothing is sent again, or is sent no more.
impl<W: LegWire + Drop> LegWire for RepeatingWire<W> {
    ghost use Rattle.fax_wires.specs.repeat.Peers.{peer_on};
    ghost use Rattle.fax_wires.specs.repeat.Policies.{TellsPeers};

    ghost peer_at = { λ leg wire. peer_on leg wire.peers };

    ghost is_told = { TellsPeers };

    ghost keeps_on_receive = { λ at old new made. made.0 };

    ghost keeps_on_send = { λ at octets is_sent old new made. made.0 };

    fn set_peer(&mut self, leg: Leg, peer: Peer) -> Result<(), NoRoute> {
        self.wire.set_peer(leg, peer)
    }

    fn cut(&mut self, leg: Leg) {
        self.wire.cut(leg);
    }

    fn begin(&mut self, leg: Leg, bounds: Bounds) {
        self.wire.begin(leg, bounds);
    }

    fn hang_up(&mut self, leg: Leg) {
        self.wire.hang_up(leg);
    }

    fn settle(&mut self, leg: Leg, is_on: bool) {
        self.wire.settle(leg, is_on);
    }

    fn leg_state(&self, leg: Leg) -> LegState {
        self.wire.leg_state(leg)
    }
}

impl<W: LegWire + Drop> TimedWire for RepeatingWire<W> {
    ghost use Rattle.fax_wires.specs.repeat.Telling.{told_due};

    ghost due = { λ leg wire. (last_on leg wire).due };

    ghost clock = { λ wire. wire.clock };

    ghost goes_on = { λ old new. new.peers ≡ old.peers };

    ghost ceases = { λ leg old new. (new.peers ≡ old.peers) × (new.clock ≡ old.clock) };

    ghost keeps_due = { told_due };

    ghost clock_on_receive = { λ at old new made. made.1 };

    ghost clock_on_send = { λ at octets is_sent old new made. made.1 };

    ghost clock_on_told = { λ old new made. made.clock };

    ghost clock_on_cease = { λ at old new made. made.1 };

    ghost keeps_on_time = { λ old new made. made };

    ghost keeps_on_cease = { λ at old new made. made.0 };

    /// The last datagram of each leg whose moment has come is sent again, once. A moment before another reads as the latest.
    fn go_on(&mut self, now: u64)
        ensures told { IsToldAs (told_of self.old) (told_of self.new) }
        ensures goes_on { GoesOn (max self.old.clock now) self.old self.new }
        ensures repeats { Repeats self.new }
    {
        self.clock = self.clock.max(now);
        send_again(
            &mut self.wire,
            Leg::Calling,
            &mut self.calling,
            self.policy,
            self.clock,
        );
        send_again(
            &mut self.wire,
            Leg::Called,
            &mut self.called,
            self.policy,
            self.clock,
        );
    }

    /// The last datagram of the leg is sent no more.
    fn cease(&mut self, leg: Leg)
        ensures told { IsToldAs (told_of self.old) (told_of self.new) }
        ensures ceased { last_on leg self.new ≡ ceased (last_on leg self.old) }
        ensures beside { last_beside leg self.new ≡ last_beside leg self.old }
        ensures policy { self.new.policy ≡ self.old.policy }
        ensures clock { self.new.clock ≡ self.old.clock }
        ensures wire { self.new.wire ≡ self.old.wire }
        ensures peers { self.new.peers ≡ self.old.peers }
        ensures repeats { Repeats self.new }
    {
        match leg {
            Leg::Calling => self.calling.cease(),
            Leg::Called => self.called.cease(),
        }
    }

    /// The moment of the next repeat.
    fn next_due(&self) -> Option<u64>
        ensures { result ≡ earlier_of self.now.calling.due self.now.called.due }
    {
        earlier(self.calling.due(), self.called.due())
    }
}
