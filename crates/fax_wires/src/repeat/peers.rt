//! Wires whose legs have peers.
ghost use Rattle.std.specs.Prelude.{◌≡◌, ℕ, Bool, List, Option, None, OnOk, OnErr};
ghost use Rattle.fax_gateway.specs.declared.leg.Leg.{Leg as LegShown};
ghost use Rattle.fax_wires.specs.repeat.Peers.{HearsOn, PeerValue, bounded, change_on, cut_off, gone, peer_on, peers_of, said, settled, state_of};
ghost use Rattle.fax_wires.specs.repeat.Policies.{IsToldAs};

use fax_gateway::{Leg, Wire};
use std::net::SocketAddr;
use thiserror::Error;

/// What bounds the datagrams of a leg. What is not said is as the line has it.
#[derive(Clone, Copy, PartialEq, Eq, Default)]
pub struct Bounds {
    /// How many packets before its own a datagram has at most.
    pub redundancy: Option<u8>,
    /// The most octets of a datagram, but of one that has its own packet alone.
    pub octets: Option<u16>,
}

/// The peer of a leg.
#[derive(Clone, Copy, PartialEq, Eq)]
pub struct Peer {
    /// Where its datagrams go, and where alone they come from. `None`: it is the sender of the first datagram that comes.
    pub address: Option<SocketAddr>,
    pub bounds: Bounds,
}

/// The system takes no datagrams for an address.
#[derive(Clone, Copy, PartialEq, Eq, Debug, Error)]
#[error("no way to an address")]
pub struct NoRoute;

/// What is known of the peer of a leg.
#[derive(Clone, Copy, PartialEq, Eq)]
pub struct LegState {
    /// There is one, whose address is known, or still to be learned.
    pub has_peer: bool,
    /// The line has it for ever.
    pub is_fixed: bool,
    /// A datagram came in the call that is on.
    pub is_heard: bool,
    /// Its call was said to be gone.
    pub is_gone: bool,
}

/// A wire whose legs have peers.
pub trait LegWire: Wire {
    /// The peer of a leg. By default nothing is told of it.
    ghost peer_at: { LegShown → Self → Option PeerValue } = { λ leg wire. None };

    /// What is made of it by what it is told of its peers. By default nothing is told of that.
    ghost is_told: { Self → Self → Type 0 } = { λ old new. Unit {0} };

    /// From now on datagrams of a leg go to this peer and come from it alone; those that came before and were not received are
    /// dropped. An `Err`: the peer is as before.
    fn set_peer(&mut self, leg: Leg, peer: Peer) -> Result<(), NoRoute>
        ensures told { IsToldAs (Self.known self.old) (Self.known self.new) }
        ensures said { OnOk result (peers_of Self.peer_at self.new
            ≡ change_on leg (said peer) (peers_of Self.peer_at self.old)) }
        ensures err { OnErr result (peers_of Self.peer_at self.new
            ≡ peers_of Self.peer_at self.old) }
        ensures makes { Self.is_told self.old self.new };

    /// From now on a leg has no peer, but where its line has one for ever.
    fn cut(&mut self, leg: Leg)
        ensures told { IsToldAs (Self.known self.old) (Self.known self.new) }
        ensures cut { peers_of Self.peer_at self.new
            ≡ change_on leg cut_off (peers_of Self.peer_at self.old) }
        ensures makes { Self.is_told self.old self.new };

    /// A call begins on a leg, whose datagrams are bounded so in it. Nothing is known of its peer's call.
    fn begin(&mut self, leg: Leg, bounds: Bounds)
        ensures told { IsToldAs (Self.known self.old) (Self.known self.new) }
        ensures begun { peers_of Self.peer_at self.new
            ≡ change_on leg (bounded bounds) (peers_of Self.peer_at self.old) }
        ensures makes { Self.is_told self.old self.new };

    /// The peer's call on a leg is gone: it is heard to say goodbye, once a turn, until the leg's call is over.
    fn hang_up(&mut self, leg: Leg)
        ensures told { IsToldAs (Self.known self.old) (Self.known self.new) }
        ensures gone { peers_of Self.peer_at self.new
            ≡ change_on leg gone (peers_of Self.peer_at self.old) }
        ensures makes { Self.is_told self.old self.new };

    /// A turn begins, and the call of a leg is on or not: where it is not, nothing is known any more of the peer's call.
    fn settle(&mut self, leg: Leg, is_on: bool)
        ensures told { IsToldAs (Self.known self.old) (Self.known self.new) }
        ensures settled { peers_of Self.peer_at self.new
            ≡ change_on leg (settled is_on) (peers_of Self.peer_at self.old) }
        ensures makes { Self.is_told self.old self.new };

    /// What is known of the peer of a leg.
    fn leg_state(&self, leg: Leg) -> LegState
        ensures { result ≡ state_of (peer_on leg (peers_of Self.peer_at self.now)) };

    /// By a receive on a leg its peer stays, or is heard; that of the other leg stays.
    ghost keeps_on_receive: { (at : LegShown) (old new : Self)
        → Self.receives at old new → HearsOn at (peers_of peer_at old) (peers_of peer_at new) };

    /// By a send both stay.
    ghost keeps_on_send: { (at : LegShown) (octets : List ℕ) (is_sent : Bool) (old new : Self)
        → Self.sends at octets is_sent old new → peers_of peer_at new ≡ peers_of peer_at old };
}
