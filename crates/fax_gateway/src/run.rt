//! A whole run.
ghost use Rattle.std.specs.Prelude.{◌≡◌, ◌<◌, ◌+◌, ℕ, Bool, cond, List, [], ◌∷◌, ◌++◌, IfOk, OnErr};
ghost use Rattle.std.specs.List.{count_by};
ghost use Rattle.fax_call.specs.Writings.{IsWriting, Writing};
ghost use Rattle.fax_gateway.specs.Setups.{Setup};
ghost use Rattle.fax_gateway.specs.Events.{Event};
ghost use Rattle.fax_gateway.specs.Reached.{IsReachedBy};
ghost use Rattle.fax_gateway.specs.Wires.{greatest_count};
ghost use Rattle.fax_gateway.specs.Driving.{AreRounds, AreWanting, Entry, Happens, IsRingIf, RiseAlike, Tells, events, is_refused_ring, log_of, moment_of};

use crate::buffer::Buffer;
use crate::driven::Driven;
use crate::engine::Engine;
use crate::gateway::Gateway;
use crate::wire::Wire;
use fax_bits::NoMemory;
use fax_pagestore::RowStore;
use std::alloc::Global;

/// From a turn to the next, in milliseconds.
const TURN_MS: u64 = 40;

/// Drives a gateway for so many turns, 40 ms apart from `start` on; it rings before those whose numbers, counted from 0, are
/// among `rings`. It ends before where the last 100 receives all failed. It takes memory for one datagram; without it an
/// `Err` changes nothing, and what is refused for want of memory later is counted and left out.
pub fn drive<S: RowStore, W: Wire>(
    alloc: Global,
    gateway: &mut Gateway<S>,
    wire: &mut W,
    start: u64,
    rings: &[u32],
    turns: u32,
) -> Result<Driven, NoMemory>
    ensures driven { IfOk result (λ driven. (setup : Setup) (writes : Writing) (trace : List Event)
        → IsWriting writes → IsReachedBy setup writes trace gateway.old
        → (rounds : List (List Entry)) × AreRounds start rings.now rounds
        × Happens setup writes (log_of rounds) trace gateway.new (W.known wire.old)
        (W.known wire.new) × Tells turns rounds driven) }
    ensures failures { IfOk result
        (λ driven. (setup : Setup) (writes : Writing) (trace : List Event)
        → IsWriting writes → IsReachedBy setup writes trace gateway.old
        → (W.known wire.new).failures < greatest_count → (W.known wire.new).failures
        ≡ (W.known wire.old).failures + (driven.sends_failed + driven.receives_failed)) }
    ensures refusals { IfOk result
        (λ driven. RiseAlike gateway.old.refusals gateway.new.refusals 0 driven.events_refused) }
    ensures err { OnErr result ((gateway.new ≡ gateway.old) × (wire.new ≡ wire.old)) }
{
    let mut buffer = Buffer::new(alloc)?;
    let mut engine = Engine::new();
    let mut rings_refused = 0u64;
    for turn in 0..turns {
        let now = moment(start, turn);
        let is_refused = ring_if(rings.contains(&turn), gateway, now);
        rings_refused += u64::from(is_refused);
        let turned = engine.turn(&mut buffer, gateway, wire, now);
        if !turned.goes_on {
            return Ok(engine.told(turn + 1, rings_refused, true));
        }
    }
    Ok(engine.told(turns, rings_refused, false))
}

/// Rings where it is to. It answers whether the ring was refused.
fn ring_if<S: RowStore>(is_due: bool, gateway: &mut Gateway<S>, now: u64) -> bool
    ensures rung { (setup : Setup) (writes : Writing) (trace : List Event)
        → IsReachedBy setup writes trace gateway.old → (log : List Entry)
        × IsRingIf is_due now log × (count_by is_refused_ring log ≡ cond result 1 0)
        × IsReachedBy setup writes (events log ++ trace) gateway.new
        × AreWanting setup writes trace log }
    ensures refusals { gateway.new.refusals ≡ gateway.old.refusals }
{
    if !is_due {
        return false;
    }
    gateway.ring(now).is_err()
}

/// The moment of a turn.
fn moment(start: u64, turn: u32) -> u64
    ensures { result ≡ moment_of start turn }
{
    start.saturating_add(TURN_MS * u64::from(turn))
}
