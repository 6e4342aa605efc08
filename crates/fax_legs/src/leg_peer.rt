//! The peer of a leg.
ghost use Rattle.std.specs.Prelude.{◌≡◌};
ghost use Rattle.fax_wires.specs.repeat.Peers.{bounded, cut_off, gone, heard, learned, nobody, said, settled};
ghost use Rattle.fax_legs.specs.Legs.{call_settled, fixed, gone_call, heard_call, limits_of, no_call, peer_of};

use crate::bounding::Limits;
use crate::hang_up::PeerCall;
use fax_wires::repeat::{Bounds, Peer};
use std::net::SocketAddr;

/// The peer of a leg, and what is known of its part in the call that is on.
#[derive(Clone, Copy)]
pub(crate) struct LegPeer {
    pub(crate) address: Option<SocketAddr>,
    /// Whether it is the sender of the first datagram that comes.
    pub(crate) learns: bool,
    /// Whether the line has it for ever.
    pub(crate) is_fixed: bool,
    pub(crate) bounds: Bounds,
    /// The bounds of the call that is on.
    pub(crate) in_call: Bounds,
    /// Whether a datagram came in the call that is on.
    pub(crate) is_heard: bool,
    pub(crate) call: PeerCall,
}

impl LegPeer {
    /// There is none.
    pub(crate) fn new() -> Self
        ensures peer { peer_of result ≡ nobody }
        ensures call { result.call ≡ no_call }
    {
        LegPeer {
            address: None,
            learns: false,
            is_fixed: false,
            bounds: Bounds::default(),
            in_call: Bounds::default(),
            is_heard: false,
            call: PeerCall::new(),
        }
    }

    /// This one was said.
    pub(crate) fn set(&mut self, peer: Peer)
        ensures peer { peer_of self.new ≡ said peer (peer_of self.old) }
        ensures call { self.new.call ≡ self.old.call }
    {
        self.address = peer.address;
        self.learns = peer.address.is_none();
        self.bounds = peer.bounds;
    }

    /// The line has it for ever.
    pub(crate) fn fix(&mut self)
        ensures peer { peer_of self.new ≡ fixed (peer_of self.old) }
        ensures call { self.new.call ≡ self.old.call }
    {
        self.is_fixed = true;
    }

    /// There is none any more, but where the line has it for ever.
    pub(crate) fn cut(&mut self)
        ensures peer { peer_of self.new ≡ cut_off (peer_of self.old) }
        ensures call { self.new.call ≡ self.old.call }
    {
        if !self.is_fixed {
            self.address = None;
            self.learns = false;
            self.bounds = Bounds::default();
        }
    }

    /// A call begins, which is bounded so.
    pub(crate) fn begin(&mut self, bounds: Bounds)
        ensures peer { peer_of self.new ≡ bounded bounds (peer_of self.old) }
        ensures call { self.new.call ≡ no_call }
    {
        self.in_call = bounds;
        self.is_heard = false;
        self.call = PeerCall::new();
    }

    /// Its call is gone.
    pub(crate) fn hang_up(&mut self)
        ensures peer { peer_of self.new ≡ gone (peer_of self.old) }
        ensures call { self.new.call ≡ gone_call self.old.call }
    {
        self.call.hang_up();
    }

    /// A turn begins, and a call is on or not.
    pub(crate) fn settle(&mut self, is_on: bool)
        ensures peer { peer_of self.new ≡ settled is_on (peer_of self.old) }
        ensures call { self.new.call ≡ call_settled is_on self.old.call }
    {
        if is_on {
            self.call.go_on();
        } else {
            self.is_heard = false;
            self.call = PeerCall::new();
        }
    }

    /// What bounds its datagrams: what was said of the call, else of the peer, else what its line has.
    pub(crate) fn limits(&self, redundancy: u8) -> Limits
        ensures { result ≡ limits_of redundancy (peer_of self.now) }
    {
        Limits {
            redundancy: self
                .in_call
                .redundancy
                .or(self.bounds.redundancy)
                .unwrap_or(redundancy),
            octets: self.in_call.octets.or(self.bounds.octets),
        }
    }

    /// A datagram came.
    pub(crate) fn hear(&mut self, octets: &[u8])
        ensures peer { peer_of self.new ≡ heard (peer_of self.old) }
        ensures call { self.new.call ≡ heard_call octets.now self.old.call }
    {
        self.is_heard = true;
        self.call.note(octets);
    }

    /// A datagram came from this address, which is learned.
    pub(crate) fn learn(&mut self, address: SocketAddr, octets: &[u8])
        ensures peer { peer_of self.new ≡ learned address (peer_of self.old) }
        ensures call { self.new.call ≡ heard_call octets.now self.old.call }
    {
        self.address = Some(address);
        self.learns = false;
        self.hear(octets);
    }
}
