//! Where datagrams are received.
ghost use Rattle.std.specs.Prelude.{◌≡◌, ◌≤◌, ◌∷◌, [], IfOk, IfSome, length, take};
ghost use Rattle.fax_gateway.specs.Wires.{Grows, buffer_octets, failures_after, receipt_of};

use crate::leg::Leg;
use crate::wire::{Wire, WireFault};
use fax_bits::NoMemory;
use std::alloc::Global;
use std::marker::Model;

/// How many octets a buffer has.
const OCTETS: usize = 65_536;

/// A buffer of 65,536 octets. No datagram of UDP is longer than it: its length has 16 bits (RFC 768). Seen as its octets,
/// which may be anything after a datagram.
pub struct Buffer {
    octets: Vec<u8>,
}

impl Drop for Buffer {
    fn drop(self) {
        let Buffer { octets: _octets } = self;
    }
}

impl Model for Buffer {
    ghost use Rattle.std.specs.Prelude.{◌≡◌, List, ℕ, vec_len};
    ghost use Rattle.fax_gateway.specs.Wires.{buffer_octets};

    ghost Value = { List ℕ };

    ghost view = { λ b. b.octets.items };

    ghost invariant = { λ b. vec_len b.octets ≡ buffer_octets };
}

impl Buffer {
    /// A buffer. It takes its memory.
    pub fn new(alloc: Global) -> Result<Self, NoMemory>
        ensures { IfOk result (λ buffer. length buffer ≡ buffer_octets) }
    {
        let octets = vec![in alloc; 0; OCTETS]?;
        Ok(Buffer { octets })
    }

    /// Receives a datagram of a leg into its front, and says how many octets it has. `None`: nothing has come.
    pub(crate) fn receive<W: Wire>(
        &mut self,
        leg: Leg,
        wire: &mut W,
    ) -> Result<Option<usize>, WireFault>
        ensures room { length self.new ≡ buffer_octets }
        ensures fits { IfOk result (λ came. IfSome came (λ count. count ≤ length self.new)) }
        ensures failures { (W.known wire.new).failures
            ≡ failures_after (W.known wire.old).failures result }
        ensures received { Grows (receipt_of leg self.new result
            ∷ []) (W.known wire.old).received (W.known wire.new).received }
        ensures sent { Grows [] (W.known wire.old).sent (W.known wire.new).sent }
        ensures makes { W.receives leg wire.old wire.new }
    {
        wire.receive(leg, self.octets.as_mut_slice())
    }

    /// Its first octets.
    pub(crate) fn front(&self, count: usize) -> &[u8]
        requires { count ≤ length self.now }
        ensures { result.now ≡ take count self.now }
    {
        &self.octets[..count]
    }
}
