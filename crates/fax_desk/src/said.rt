//! What is said in a word.
ghost use Rattle.std.specs.Prelude.{◌≡◌, option_map};
ghost use Rattle.fax_desk.specs.Desks.{first_free, is_free_at, is_free_line};
ghost use Rattle.fax_desk.specs.Said.{any_after, bounds_of, peer_said, rung_happened, tag_said, unasked_if, waits_if};

use crate::budgets::is_full_at;
use crate::card::Card;
use crate::desk::{LookOutcome, Waits};
use crate::next::{Next, Note, PeerAsk};
use crate::tag::{Tag, TaggedCall};
use crate::told::LineEvent;
use crate::view::{LineView, View};
use fax_clients::Asker;
use fax_control::PeerWord;
use fax_gateway::Leg;
use fax_wires::repeat::{Bounds, Peer};

/// What bounds the datagrams of a leg.
pub(crate) fn bounds_of(bounds: fax_control::Bounds) -> Bounds
    ensures { result ≡ bounds_of bounds }
{
    Bounds {
        redundancy: bounds.redundancy,
        octets: bounds.octets,
    }
}

/// The tag of a ring that says one or none. `None`: it says more than 64 octets.
pub(crate) fn tag_said(text: Option<&str>) -> Option<Option<Tag>>
    ensures { result ≡ tag_said (option_map (λ said. said.now) text.entry) }
{
    match text {
        None => Some(None),
        Some(text) => match Tag::of(text) {
            Some(tag) => Some(Some(tag)),
            None => None,
        },
    }
}

/// The peer that a word says. `None`: it says any of a called leg.
pub(crate) fn peer_of(word: PeerWord<'_>) -> Option<PeerAsk>
    ensures { result
        ≡ peer_said word.entry.leg word.entry.address word.entry.bounds word.entry.is_moved }
{
    let is_called = match word.leg {
        Leg::Calling => false,
        Leg::Called => true,
    };
    if is_called && word.address.is_none() {
        return None;
    }
    Some(PeerAsk {
        leg: word.leg,
        peer: Peer {
            address: word.address,
            bounds: bounds_of(word.bounds),
        },
        is_moved: word.is_moved,
    })
}

/// Where this gives an order, who asked waits for its end.
pub(crate) fn waits_if(asker: Asker, next: Next) -> Option<Waits>
    ensures { result ≡ waits_if asker next }
{
    match next {
        Next::Orders(order) => Some(Waits {
            asker: Some(asker),
            order,
        }),
        _ => None,
    }
}

/// Where this gives an order, nobody waits for its end.
pub(crate) fn unasked_if(looked: LookOutcome) -> Option<Waits>
    ensures { result ≡ unasked_if looked }
{
    match looked {
        LookOutcome::Orders(order) => Some(Waits { asker: None, order }),
        _ => None,
    }
}

/// The line from which on any is looked for, after this.
pub(crate) fn any_after(from: usize, next: Next) -> usize
    ensures { result ≡ any_after from next }
{
    match next {
        Next::Orders(order) => match order.note {
            Note::RingAny(_) => order.line.saturating_add(1),
            _ => from,
        },
        _ => from,
    }
}

/// A call was rung, with the tag that was said.
pub(crate) fn rung_happened(note: Note, call: u32) -> Option<LineEvent>
    ensures { result ≡ rung_happened note call }
{
    match note {
        Note::Ring(tag) | Note::RingAny(tag) => Some(LineEvent::Rung(TaggedCall { call, tag })),
        _ => Some(LineEvent::Rung(TaggedCall { call, tag: None })),
    }
}

/// The first line from this one on, up to that, that can be rung before its peer is said.
pub(crate) fn first_free<V: View>(cards: &[Card], view: &V, from: usize, to: usize) -> Option<usize>
    ensures { result ≡ first_free cards.now from to (V.line view.now) }
{
    (from..to).find(|i| is_free_at(cards, view, *i))
}

/// Whether line i can be rung before its peer is said, and is not full.
fn is_free_at<V: View>(cards: &[Card], view: &V, i: usize) -> bool
    ensures { result ≡ is_free_at cards.now (V.line view.now) i }
{
    is_free_line(view.line(i)) && !is_full_at(cards, i)
}

/// Whether a line can be rung before its peer is said: its calling leg is idle, and the configuration gives it no peer.
fn is_free_line(line: Option<LineView>) -> bool
    ensures { result ≡ is_free_line line }
{
    match line {
        Some(line) => line.call.is_none() && !line.calling.is_fixed,
        None => false,
    }
}
