//! What lines are told.
ghost use Rattle.std.specs.Prelude.{◌≡◌, ◌++◌, map, OnErr, OnOk};
ghost use Rattle.fax_user_agent.specs.Agents.{Extends};
ghost use Rattle.fax_user_agent.specs.Orders.{said_by, word_of, words_of};

use crate::call::{CallState, tag_of};
use crate::out::{LineOrder, Tag};
use fax_switch::{Entry, LineAction};
use std::alloc::AllocError;

/// The tag of a call: the number that is called, a stroke, and 16 digits of its own tag.
fn tag_for(call: &CallState) -> Tag {
    let mut tag = tag_of(call.number.as_slice());
    let _ = tag.try_extend_from_slice(b"/");
    let _ = tag.try_extend_from_slice(&call.tag[..16]);
    tag
}

/// The tag of the call of this number.
fn tag_in(calls: &[CallState], id: u64) -> Tag {
    match calls.iter().find(|call| call.id == id) {
        Some(call) => tag_for(call),
        None => Tag::new(),
    }
}

/// What the switch says to a line is to be done on it, where it says something.
fn put_order(
    orders: &mut Vec<LineOrder>,
    calls: &[CallState],
    id: u64,
    word: LineAction,
) -> Result<(), AllocError>
    ensures ok { OnOk result (map word_of orders.new.items
        ≡ map word_of orders.old.items ++ said_by word) }
    ensures err { OnErr result (orders.new.items ≡ orders.old.items) }
{
    let order = match word {
        LineAction::NoWord => return Ok(()),
        LineAction::RingAny => LineOrder::Ring(id, tag_in(calls, id)),
        LineAction::Peer(place, end, moved) => LineOrder::Peer(place, end, moved),
        LineAction::AudioOn(place, end) => LineOrder::AudioOn(place, end),
        LineAction::AudioOff(place) => LineOrder::AudioOff(place),
        LineAction::RefuseCall(place, status) => LineOrder::Refuse(place, status),
        LineAction::HangUpLeg(place) => LineOrder::HangUp(place),
    };
    orders.push(order)?;
    Ok(())
}

/// What the switch says to lines is to be done on them. `Err` means that memory was refused for what comes after what was put there.
pub(crate) fn put_orders(
    orders: &mut Vec<LineOrder>,
    calls: &[CallState],
    entries: &[Entry],
) -> Result<(), AllocError>
    ensures ok { OnOk result (map word_of orders.new.items
        ≡ map word_of orders.old.items ++ words_of entries.now) }
    ensures err { Extends (map word_of orders.old.items) (map word_of orders.new.items) }
{
    for entry in entries {
        put_order(orders, calls, entry.call.id, entry.line)?;
    }
    Ok(())
}
