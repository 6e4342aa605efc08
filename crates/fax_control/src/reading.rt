//! From a line's octets to the word that they say.
ghost use Rattle.std.specs.Prelude.{◌≡◌, List, ℕ, Option, Some, codes, IfSome, IfNone, IsSomeAnd};
ghost use Rattle.std.specs.declared.net.socket_addr.SocketAddr.{SocketAddr as SocketAddrShown};
ghost use Rattle.fax_control.specs.Options.{text_of};
ghost use Rattle.fax_control.specs.Words.{HasNoSpace, IsCallNumber, IsName, IsPeerText, IsRungLine, Order, Says, Spells, call_text, frames_text, order_of, rung_text, spaced};
ghost use Rattle.fax_gateway.specs.LegNames.{leg_text};

use crate::number::number_of;
use crate::options::{bounds_of, is_tag, moved_of, tag_of};
use crate::spaces::{cut, first_word};
use crate::word::{CallWord, MOST_OCTETS, PeerWord, RingWord, Word};
use fax_gateway::Leg;
use std::net::SocketAddr;

/// The word that the octets of a line say, its line feed aside; none where they say none.
pub fn read_word(line: &[u8]) -> Option<Word<'_>>
    ensures said { IfSome result (λ word. Says line.now (order_of word)) }
    ensures only { (order : Order)
        → Says line.now order → IsSomeAnd result (λ word. order_of word ≡ order) }
{
    if line.len() > MOST_OCTETS {
        return None;
    }
    let Ok(text) = std::str::from_utf8(line) else {
        return None;
    };
    word_of(text)
}

/// The word that a text spells.
fn word_of(text: &str) -> Option<Word<'_>>
    ensures said { IfSome result (λ word. Spells text.now (order_of word)) }
    ensures only { (order : Order)
        → Spells text.now order → IsSomeAnd result (λ word. order_of word ≡ order) }
{
    match cut(text) {
        None => bare_word(text),
        Some((verb, rest)) => {
            if verb == "ring" {
                ring_of(rest)
            } else if verb == "peer" {
                peer_of(rest)
            } else if verb == "hangup" {
                hang_up_of(rest)
            } else if verb == "report" {
                report_of(rest)
            } else if verb == "refuse" {
                refuse_of(rest)
            } else if verb == "undelivered" {
                undelivered_of(rest)
            } else if verb == "discard" {
                discard_of(rest)
            } else if verb == "retry" {
                retry_of(rest)
            } else if verb == "events" {
                events_of(rest)
            } else {
                None
            }
        }
    }
}

/// The word of a text with no space.
fn bare_word(text: &str) -> Option<Word<'_>>
    requires { HasNoSpace text.now }
    ensures said { IfSome result (λ word. Spells text.now (order_of word)) }
    ensures only { (order : Order)
        → Spells text.now order → IsSomeAnd result (λ word. order_of word ≡ order) }
{
    if text == "status" {
        Some(Word::Status)
    } else if text == "metrics" {
        Some(Word::Metrics)
    } else if text == "events" {
        Some(Word::Events)
    } else if text == "stop" {
        Some(Word::Stop)
    } else if text == "undelivered" {
        Some(Word::Undelivered(None))
    } else if text == "reload" {
        Some(Word::Reload)
    } else {
        None
    }
}

/// What follows `ring`: the name of a line, or `any`, a tag if there is one, and bounds.
fn ring_of(rest: &str) -> Option<Word<'_>>
    ensures said { IfSome result (λ word. Spells (spaced (codes "ring") rest.now) (order_of word)) }
    ensures only { (order : Order) → Spells (spaced (codes "ring") rest.now) order
        → IsSomeAnd result (λ word. order_of word ≡ order) }
{
    let (line, words) = first_word(rest);
    let line = rung_line(line)?;
    let (tag, words) = tag_of(words)?;
    let (bounds, words) = bounds_of(words)?;
    match words {
        None => Some(Word::Ring(RingWord { line, tag, bounds })),
        Some(_) => None,
    }
}

/// The line that a word says to ring: any, or one of this name.
fn rung_line(word: &str) -> Option<Option<&str>>
    requires { HasNoSpace word.now }
    ensures said { IfSome result (λ line. word.now ≡ rung_text (text_of line)) }
    ensures line { IfSome result (λ line. IsRungLine (text_of line)) }
    ensures only { (line : Option (List ℕ)) → word.now ≡ rung_text line → IsRungLine line
        → IsSomeAnd result (λ found. text_of found ≡ line) }
{
    if word.is_empty() {
        None
    } else if word == "any" {
        Some(None)
    } else {
        Some(Some(word))
    }
}

/// What follows `report`: the name of a line.
fn report_of(rest: &str) -> Option<Word<'_>>
    ensures said { IfSome result
        (λ word. Spells (spaced (codes "report") rest.now) (order_of word)) }
    ensures only { (order : Order) → Spells (spaced (codes "report") rest.now) order
        → IsSomeAnd result (λ word. order_of word ≡ order) }
{
    if rest.is_empty() {
        return None;
    }
    match cut(rest) {
        None => Some(Word::Report(rest)),
        Some(_) => None,
    }
}

/// What follows `undelivered`: the name of a line.
fn undelivered_of(rest: &str) -> Option<Word<'_>>
    ensures said { IfSome result
        (λ word. Spells (spaced (codes "undelivered") rest.now) (order_of word)) }
    ensures only { (order : Order) → Spells (spaced (codes "undelivered") rest.now) order
        → IsSomeAnd result (λ word. order_of word ≡ order) }
{
    if rest.is_empty() {
        return None;
    }
    match cut(rest) {
        None => Some(Word::Undelivered(Some(rest))),
        Some(_) => None,
    }
}

/// What follows `discard`: which call.
fn discard_of(rest: &str) -> Option<Word<'_>>
    ensures said { IfSome result
        (λ word. Spells (spaced (codes "discard") rest.now) (order_of word)) }
    ensures only { (order : Order) → Spells (spaced (codes "discard") rest.now) order
        → IsSomeAnd result (λ word. order_of word ≡ order) }
{
    match call_of(rest) {
        Some(call) => Some(Word::Discard(call)),
        None => None,
    }
}

/// What follows `retry`: which call.
fn retry_of(rest: &str) -> Option<Word<'_>>
    ensures said { IfSome result
        (λ word. Spells (spaced (codes "retry") rest.now) (order_of word)) }
    ensures only { (order : Order) → Spells (spaced (codes "retry") rest.now) order
        → IsSomeAnd result (λ word. order_of word ≡ order) }
{
    match call_of(rest) {
        Some(call) => Some(Word::Retry(call)),
        None => None,
    }
}

/// What follows `events`: `frames`, and the name of a line.
fn events_of(rest: &str) -> Option<Word<'_>>
    ensures said { IfSome result
        (λ word. Spells (spaced (codes "events") rest.now) (order_of word)) }
    ensures only { (order : Order) → Spells (spaced (codes "events") rest.now) order
        → IsSomeAnd result (λ word. order_of word ≡ order) }
{
    let (what, line) = cut(rest)?;
    if what == "frames" {
        frames_of(line)
    } else {
        None
    }
}

/// What follows `events frames`: the name of a line.
fn frames_of(line: &str) -> Option<Word<'_>>
    ensures said { IfSome result (λ word. Spells (frames_text line.now) (order_of word)) }
    ensures only { (order : Order)
        → Spells (frames_text line.now) order → IsSomeAnd result (λ word. order_of word ≡ order) }
{
    if line.is_empty() {
        return None;
    }
    match cut(line) {
        None => Some(Word::Frames(line)),
        Some(_) => None,
    }
}

/// The call that a text names: by its line, the number of its life, and its own there.
fn call_of(text: &str) -> Option<CallWord<'_>>
    ensures said { IfSome result (λ word. text.now ≡ call_text word.line.now word.life word.call) }
    ensures name { IfSome result (λ word. IsName word.line.now) }
    ensures range { IfSome result (λ word. IsCallNumber word.life × IsCallNumber word.call) }
    ensures only { (line : List ℕ) (life call : ℕ) → text.now ≡ call_text line life call
        → IsName line → IsCallNumber life → IsCallNumber call → IsSomeAnd result
        (λ word. (word.line.now ≡ line) × (word.life ≡ life) × (word.call ≡ call)) }
{
    let (line, numbers) = cut(text)?;
    let (first, second) = cut(numbers)?;
    let life = number_of(first)?;
    let call = number_of(second)?;
    if line.is_empty() {
        None
    } else {
        Some(CallWord { line, life, call })
    }
}

/// What follows `refuse`: the name of a line, and a cause.
fn refuse_of(rest: &str) -> Option<Word<'_>>
    ensures said { IfSome result
        (λ word. Spells (spaced (codes "refuse") rest.now) (order_of word)) }
    ensures only { (order : Order) → Spells (spaced (codes "refuse") rest.now) order
        → IsSomeAnd result (λ word. order_of word ≡ order) }
{
    let (line, cause) = cut(rest)?;
    if line.is_empty() {
        return None;
    }
    if is_tag(cause) {
        Some(Word::Refuse(line, cause))
    } else {
        None
    }
}

/// What follows `hangup`: the name of a line, and a leg.
fn hang_up_of(rest: &str) -> Option<Word<'_>>
    ensures said { IfSome result
        (λ word. Spells (spaced (codes "hangup") rest.now) (order_of word)) }
    ensures only { (order : Order) → Spells (spaced (codes "hangup") rest.now) order
        → IsSomeAnd result (λ word. order_of word ≡ order) }
{
    let (line, leg) = cut(rest)?;
    let leg = leg_of(leg)?;
    if line.is_empty() {
        None
    } else {
        Some(Word::HangUp(line, leg))
    }
}

/// What follows `peer`: the name of a line, a leg, who its peer is, bounds, and `moved`.
fn peer_of(rest: &str) -> Option<Word<'_>>
    ensures said { IfSome result (λ word. Spells (spaced (codes "peer") rest.now) (order_of word)) }
    ensures only { (order : Order) → Spells (spaced (codes "peer") rest.now) order
        → IsSomeAnd result (λ word. order_of word ≡ order) }
{
    let (line, rest) = cut(rest)?;
    let (leg, rest) = cut(rest)?;
    let leg = leg_of(leg)?;
    let (address, words) = first_word(rest);
    let address = peer_address(leg, address)?;
    let (bounds, words) = bounds_of(words)?;
    let is_moved = moved_of(words)?;
    if line.is_empty() {
        None
    } else {
        Some(Word::Peer(PeerWord {
            line,
            leg,
            address,
            bounds,
            is_moved,
        }))
    }
}

/// The address that a word says for the peer of a leg; none of it where it says any.
fn peer_address(leg: Leg, word: &str) -> Option<Option<SocketAddr>>
    requires { HasNoSpace word.now }
    ensures said { IfSome result (λ address. IsPeerText leg word.now address) }
    ensures only { (address : Option SocketAddrShown)
        → IsPeerText leg word.now address → result ≡ Some address }
{
    if word == "any" {
        return any_address(leg);
    }
    match word.parse::<SocketAddr>() {
        Ok(address) => Some(Some(address)),
        Err(_) => None,
    }
}

/// That the peer of a leg is any: none, where it cannot be.
fn any_address(leg: Leg) -> Option<Option<SocketAddr>>
    ensures said { IfSome result (λ address. IsPeerText leg (codes "any") address) }
    ensures only { (address : Option SocketAddrShown)
        → IsPeerText leg (codes "any") address → result ≡ Some address }
{
    match leg {
        Leg::Calling => Some(None),
        Leg::Called => None,
    }
}

/// The leg of this name.
fn leg_of(text: &str) -> Option<Leg>
    ensures some { IfSome result (λ leg. text.now ≡ leg_text leg) }
    ensures only { (leg : Leg) → text.now ≡ leg_text leg → result ≡ Some leg }
{
    if text == "calling" {
        Some(Leg::Calling)
    } else if text == "called" {
        Some(Leg::Called)
    } else {
        None
    }
}
