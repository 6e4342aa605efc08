//! What an engine receives datagrams from, and hands them to.
ghost use Rattle.std.specs.Prelude.{ℕ, ◌≡◌, ◌≤◌, Bool, List, [], ◌∷◌, Option, is_ok, length, IfOk, IfSome};
ghost use Rattle.fax_gateway.specs.Wires.{Grows, KnownWire, failures_after, receipt_of};
ghost use Rattle.fax_gateway.specs.declared.leg.Leg.{Leg as LegShown};

use crate::leg::Leg;
use thiserror::Error;

/// A receive or a send failed. What was sent counts as lost.
#[derive(Clone, Copy, PartialEq, Eq, Debug, Error)]
#[error("a wire failed")]
pub struct WireFault;

/// Where the datagrams of both legs come from and go to. Nothing waits: a receive answers at once.
pub trait Wire {
    /// How many of its calls failed, where the count stops at the greatest `u64`; and, of a wire that tells what goes over
    /// it, all that it answered to `receive`, and all that it was handed to send, the newest first. Of sockets the count
    /// alone is known, and a wire that lacks memory may tell no more.
    ghost known: { Self → KnownWire };

    /// What a receive on a leg makes of it. By default nothing is told of that.
    ghost receives: { LegShown → Self → Self → Type 0 } = { λ leg old new. Unit {0} };

    /// What a send on a leg makes of it, of these octets, which failed or not. By default nothing is told of that.
    ghost sends: { LegShown → List ℕ → Bool → Self → Self → Type 0 } = { λ leg octets is_sent old new. Unit {0} };

    /// Receives a datagram on a leg into the front of the buffer, and says how many octets it has. `None`: nothing has come.
    /// What lies after the datagram may be anything.
    fn receive(&mut self, leg: Leg, buffer: &mut [u8]) -> Result<Option<usize>, WireFault>
        ensures fits { IfOk result (λ came. IfSome came (λ count. count ≤ length buffer.new)) }
        ensures failures { (known self.new).failures
            ≡ failures_after (known self.old).failures result }
        ensures received { Grows (receipt_of leg buffer.new result
            ∷ []) (known self.old).received (known self.new).received }
        ensures sent { Grows [] (known self.old).sent (known self.new).sent }
        ensures makes { receives leg self.old self.new };

    /// Sends a datagram on a leg. It was handed over also where the send failed.
    fn send(&mut self, leg: Leg, octets: &[u8]) -> Result<(), WireFault>
        ensures failures { (known self.new).failures
            ≡ failures_after (known self.old).failures result }
        ensures received { Grows [] (known self.old).received (known self.new).received }
        ensures sent { Grows (record { leg = leg; octets = octets.now }
            ∷ []) (known self.old).sent (known self.new).sent }
        ensures makes { sends leg octets.now (is_ok result) self.old self.new };
}
