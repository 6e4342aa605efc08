//! A driver of a gateway.
ghost use Rattle.std.specs.Prelude.{◌≡◌, ◌<◌, ◌↔◌, List, [], ◌++◌, IsTrue, IfOk, is_some};
ghost use Rattle.fax_call.specs.Writings.{IsWriting, Writing};
ghost use Rattle.fax_gateway.specs.Setups.{Setup};
ghost use Rattle.fax_gateway.specs.Events.{Event};
ghost use Rattle.fax_gateway.specs.Reached.{IsReachedBy};
ghost use Rattle.fax_gateway.specs.BothLegs.{job_asked};
ghost use Rattle.fax_gateway.specs.Driving.{Entry, Happens, HasMade, IsTurn, RiseAlike, WireGoes, events, failed_in_a_row, most_failed, receipts};
ghost use Rattle.fax_gateway.specs.Turns.{TellTicks, call_asked, call_dialled, call_ended, call_if_new, call_of_rep};

use crate::buffer::Buffer;
use crate::engine::Engine;
use crate::gateway::Gateway;
use crate::turn_report::TurnReport;
use crate::wire::Wire;
use fax_bits::NoMemory;
use fax_pagestore::RowStore;
use std::alloc::Global;
use std::marker::Model;

/// What drives a gateway over a wire: an engine with a buffer of its own.
pub struct Driver {
    engine: Engine,
    buffer: Buffer,
}

impl Drop for Driver {
    fn drop(self) {
        let Driver {
            engine: _engine,
            buffer: _buffer,
        } = self;
    }
}

impl Model for Driver {
    ghost use Rattle.fax_gateway.specs.Driving.{DriverValue};

    ghost Value = { DriverValue };

    ghost view = { λ d. d.engine };
}

impl Driver {
    /// A driver that did nothing. It takes memory for one datagram.
    pub fn new(alloc: Global) -> Result<Self, NoMemory>
        ensures { IfOk result (λ driver. HasMade [] driver) }
    {
        let buffer = Buffer::new(alloc)?;
        Ok(Driver {
            engine: Engine::new(),
            buffer,
        })
    }

    /// A turn, as that of an engine.
    pub fn turn<S: RowStore, W: Wire>(
        &mut self,
        gateway: &mut Gateway<S>,
        wire: &mut W,
        now: u64,
    ) -> TurnReport
        ensures turned { (setup : Setup) (writes : Writing) (trace : List Event)
            (earlier : List Entry) → IsWriting writes → IsReachedBy setup writes trace gateway.old
            → HasMade earlier self.old → (turn : List Entry) × IsTurn now turn
            × Happens setup writes turn trace gateway.new (W.known wire.old) (W.known wire.new)
            × HasMade (turn ++ earlier) self.new × TellTicks setup trace (events turn
            ++ trace) result.report result.kept result.refused result.gave_up
            × WireGoes W.receives W.sends turn wire.old wire.new }
        ensures goes_on { (made : List Entry) → HasMade made self.new
            → IsTrue result.goes_on ↔ (failed_in_a_row (receipts made) < most_failed) }
        ensures ended { result.ended
            ≡ call_ended (call_of_rep gateway.old.calling) (call_of_rep gateway.new.calling) }
        ensures dialled { result.dialled
            ≡ call_dialled (is_some gateway.old.book.sending) gateway.new.book.sending }
        ensures asked { result.asked
            ≡ call_if_new (call_asked (job_asked gateway.old.settings.asks gateway.old.book))
            (call_asked (job_asked gateway.new.settings.asks gateway.new.book)) }
        ensures refusals { RiseAlike gateway.old.refusals
            gateway.new.refusals self.old.events_refused self.new.events_refused }
    {
        self.engine.turn(&mut self.buffer, gateway, wire, now)
    }
}
