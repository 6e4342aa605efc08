//! Wires that are told the time.
ghost use Rattle.std.specs.Prelude.{◌≡◌, ℕ, max, Bool, List, Option, None};
ghost use Rattle.fax_gateway.specs.declared.leg.Leg.{Leg as LegShown};
ghost use Rattle.fax_wires.specs.repeat.Peers.{peers_of};
ghost use Rattle.fax_wires.specs.repeat.Policies.{IsToldAs, due_of, other_leg};

use crate::repeat::peers::LegWire;
use fax_gateway::Leg;

/// A wire that does things of its own as time goes on, none of which is told of it.
pub trait TimedWire: LegWire {
    /// From which moment on it has something to do on a leg.
    ghost due: { LegShown → Self → Option ℕ };

    /// The latest moment that it was told. At first it was told none, which is 0.
    ghost clock: { Self → ℕ };

    /// What is made of it where time goes on. By default nothing is told of that.
    ghost goes_on: { Self → Self → Type 0 } = { λ old new. Unit {0} };

    /// What is made of it where a new call begins on a leg. By default nothing is told of that.
    ghost ceases: { LegShown → Self → Self → Type 0 } = { λ leg old new. Unit {0} };

    /// Time goes on to this moment. One before another that it was told reads as the latest.
    fn go_on(&mut self, now: u64)
        ensures clock { clock self.new ≡ max (clock self.old) now }
        ensures told { IsToldAs (Self.known self.old) (Self.known self.new) }
        ensures makes { goes_on self.old self.new };

    /// A new call begins on a leg: what was handed over before is sent no more. On the other leg nothing changes.
    fn cease(&mut self, leg: Leg)
        ensures told { IsToldAs (Self.known self.old) (Self.known self.new) }
        ensures ended { due leg self.new ≡ None }
        ensures beside { due (other_leg leg) self.new ≡ due (other_leg leg) self.old }
        ensures makes { ceases leg self.old self.new };

    /// From which moment on the wire has something to do. `None`: it has nothing.
    fn next_due(&self) -> Option<u64>
        ensures { result ≡ due_of due self.now };

    /// By what it is told of its peers it has no more to do, and no less.
    ghost keeps_due: { (leg : LegShown) (old new : Self)
        → Self.is_told old new → due leg new ≡ due leg old };

    /// Nothing but time itself moves its clock: no receive,
    ghost clock_on_receive: { (at : LegShown) (old new : Self)
        → Self.receives at old new → clock new ≡ clock old };

    /// no send,
    ghost clock_on_send: { (at : LegShown) (octets : List ℕ) (is_sent : Bool) (old new : Self)
        → Self.sends at octets is_sent old new → clock new ≡ clock old };

    /// nothing that it is told of its peers,
    ghost clock_on_told: { (old new : Self) → Self.is_told old new → clock new ≡ clock old };

    /// and no call that begins.
    ghost clock_on_cease: { (at : LegShown) (old new : Self)
        → ceases at old new → clock new ≡ clock old };

    /// As time goes on the peers of both legs stay.
    ghost keeps_on_time: { (old new : Self)
        → goes_on old new → peers_of Self.peer_at new ≡ peers_of Self.peer_at old };

    /// Where a call begins they stay.
    ghost keeps_on_cease: { (at : LegShown) (old new : Self)
        → ceases at old new → peers_of Self.peer_at new ≡ peers_of Self.peer_at old };
}
