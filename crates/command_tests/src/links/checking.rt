//! Whether lines are linked, by what they told.
ghost use Rattle.std.specs.Prelude.{◌≡◌, ◌∷◌, [], true, All, Contains};
ghost use Rattle.fax_gateway.specs.declared.leg.Leg.TheVariants as legs;
ghost use Rattle.fax_loop.specs.Exchanges.{Lines as LinesShown};
ghost use Rattle.fax_loop.specs.Links.{AreLinked, AreLinkedBack, came_called, came_calling, handed_called};
ghost use Rattle.command_tests.specs.Unused.{IsUnused};

use crate::links::telling::{Received, Sent, TellingEnd, TellingWire};
use fax_bits::Octets;
use fax_gateway::Leg;

/// A place is near to every other while fewer datagrams were handed over.
const MOST_NEAR: usize = 32_768;

/// Whether they told all, and what came to the gateway's calling leg and to the machine that is called was handed over to them.
pub(crate) fn is_linked(caller: &TellingEnd, wire: &TellingWire, answerer: &TellingEnd) -> bool
    ensures { result ≡ true
        → (before after : LinesShown) → IsUnused before → after.caller.sent ≡ caller.now.sent
        → after.wire.received ≡ wire.now.received → after.wire.sent ≡ wire.now.sent
        → after.answerer.received ≡ answerer.now.received → AreLinked before after }
{
    let Some(by_caller) = caller.sent.whole() else {
        return false;
    };
    let Some(receipts) = wire.received.whole() else {
        return false;
    };
    let Some(handed) = wire.sent.whole() else {
        return false;
    };
    let Some(came) = answerer.received.whole() else {
        return false;
    };
    if by_caller.len() >= MOST_NEAR {
        return false;
    }
    if handed.len() >= MOST_NEAR {
        return false;
    }
    came_on_calling(receipts, by_caller) && were_handed(came, handed)
}

/// Whether they told all, and what came to the gateway's called leg was handed over by the machine that is called.
pub(crate) fn is_linked_back(wire: &TellingWire, answerer: &TellingEnd) -> bool
    ensures { result ≡ true
        → (before after : LinesShown) → IsUnused before → after.wire.received ≡ wire.now.received
        → after.answerer.sent ≡ answerer.now.sent → AreLinkedBack before after }
{
    let Some(receipts) = wire.received.whole() else {
        return false;
    };
    let Some(by_answerer) = answerer.sent.whole() else {
        return false;
    };
    by_answerer.len() < MOST_NEAR && came_on_called(receipts, by_answerer)
}

/// Whether each datagram that came on the calling leg is one of these.
fn came_on_calling(receipts: &[Received], sent: &[Octets]) -> bool
    ensures { result ≡ true → All (Contains sent.now) (came_calling receipts.now) }
{
    for receipt in receipts {
        if !is_from(Leg::Calling, receipt, sent) {
            return false;
        }
    }
    true
}

/// Whether each that came on the called leg is one of these.
fn came_on_called(receipts: &[Received], sent: &[Octets]) -> bool
    ensures { result ≡ true → All (Contains sent.now) (came_called receipts.now) }
{
    for receipt in receipts {
        if !is_from(Leg::Called, receipt, sent) {
            return false;
        }
    }
    true
}

/// Whether a receipt brought no datagram on this leg, or one of these.
fn is_from(at: Leg, receipt: &Received, sent: &[Octets]) -> bool
    ensures calling { result ≡ true
        → at ≡ legs.Calling → All (Contains sent.now) (came_calling (receipt.now ∷ [])) }
    ensures called { result ≡ true
        → at ≡ legs.Called → All (Contains sent.now) (came_called (receipt.now ∷ [])) }
{
    match receipt.came_on(at) {
        None => true,
        Some(octets) => is_among(octets.as_slice(), sent),
    }
}

/// Whether these octets are one of those datagrams.
fn is_among(octets: &[u8], sent: &[Octets]) -> bool
    ensures { result ≡ true → Contains sent.now octets.now }
{
    for other in sent {
        if other.as_slice() == octets {
            return true;
        }
    }
    false
}

/// Whether each of these is one that was handed over on the called leg.
fn were_handed(came: &[Octets], handed: &[Sent]) -> bool
    ensures { result ≡ true → All (Contains (handed_called handed.now)) came.now }
{
    for octets in came {
        if !was_handed(octets.as_slice(), handed) {
            return false;
        }
    }
    true
}

/// Whether these octets were handed over on the called leg.
fn was_handed(octets: &[u8], handed: &[Sent]) -> bool
    ensures { result ≡ true → Contains (handed_called handed.now) octets.now }
{
    for sent in handed {
        if sent.leg == Leg::Called && sent.octets.as_slice() == octets {
            return true;
        }
    }
    false
}
