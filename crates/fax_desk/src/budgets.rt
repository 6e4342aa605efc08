//! What a ring may not go beyond: how many pages of a line may wait, and what all lines together may hold.
ghost use Rattle.std.specs.Prelude.{◌≡◌, ◌<◌, ◌^◌, slice_get};
ghost use Rattle.fax_desk.specs.Budgets.{bounded, has_call, has_memory, is_full, is_full_at, may_hold, memory_if, other_may_hold, others_may_hold};

use crate::answer::refuses;
use crate::card::Card;
use crate::next::Next;
use crate::view::{LineView, View};
use fax_control::Refusal;

/// What a ring comes to on line i, where it comes to this without bounds: all lines together may hold so much, or as much as each for
/// itself.
pub(crate) fn bounded<V: View>(
    memory: Option<u64>,
    cards: &[Card],
    view: &V,
    i: usize,
    to: Next,
) -> Next
    ensures { result
        ≡ bounded (is_full_at cards.now i) (has_memory memory cards.now (V.line view.now) i) to }
{
    if is_full_at(cards, i) {
        return refuses(Refusal::Full);
    }
    if has_memory(memory, cards, view, i) {
        to
    } else {
        refuses(Refusal::NoMemory)
    }
}

/// Whether as many pages of line i wait as may.
pub(crate) fn is_full_at(cards: &[Card], i: usize) -> bool
    ensures { result ≡ is_full_at cards.now i }
{
    match cards.get(i) {
        Some(card) => is_full(card),
        None => false,
    }
}

/// Whether as many pages of a line wait as may.
fn is_full(card: &Card) -> bool
    ensures { result ≡ is_full card.now }
{
    u64::from(card.limits.most_waiting) <= card.waiting
}

/// Whether there is memory for a call on line i beside what all others may come to hold.
pub(crate) fn has_memory<V: View>(memory: Option<u64>, cards: &[Card], view: &V, i: usize) -> bool
    ensures { result ≡ has_memory memory cards.now (V.line view.now) i }
{
    match memory {
        Some(most) => {
            let held = others_may_hold(cards, view, i) + u128::from(memory_at(cards, i));
            held <= u128::from(most)
        }
        None => true,
    }
}

/// How many octets line i may hold.
fn memory_at(cards: &[Card], i: usize) -> u32
    ensures { result ≡ memory_if (slice_get cards.now i) }
{
    match cards.get(i) {
        Some(card) => card.limits.memory,
        None => 0,
    }
}

/// How many octets all lines but line i may come to hold.
#[tactic(auto, using(crate::proofs::BudgetLemmas::held_more))]
fn others_may_hold<V: View>(cards: &[Card], view: &V, i: usize) -> u128
    ensures held { result ≡ others_may_hold cards.now (V.line view.now) i }
    ensures few { result < 2 ^ 96 }
{
    let mut held: u128 = 0;
    for j in 0..cards.len() {
        held += u128::from(other_may_hold(cards, view, i, j));
    }
    held
}

/// How many octets line j may come to hold, of the lines beside line i.
fn other_may_hold<V: View>(cards: &[Card], view: &V, i: usize, j: usize) -> u32
    ensures { result ≡ other_may_hold cards.now (V.line view.now) i j }
{
    if i == j {
        return 0;
    }
    match cards.get(j) {
        Some(card) => may_hold(card, view.line(j)),
        None => 0,
    }
}

/// How many octets a line may come to hold that is so.
fn may_hold(card: &Card, line: Option<LineView>) -> u32
    ensures { result ≡ may_hold card.now line }
{
    if 0 < card.waiting || has_call(line) {
        card.limits.memory
    } else {
        0
    }
}

/// Whether a call is on on the calling leg of a line.
fn has_call(line: Option<LineView>) -> bool
    ensures { result ≡ has_call line }
{
    match line {
        Some(line) => line.call.is_some(),
        None => false,
    }
}
