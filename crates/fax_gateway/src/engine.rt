//! What drives a gateway, into a buffer that it is lent.
ghost use Rattle.std.specs.Prelude.{◌≡◌, ◌<◌, ◌↔◌, ℕ, List, [], ◌∷◌, ◌++◌, IsTrue, IfOk, is_some, not, option_copied, vec_len};
ghost use Rattle.fax_call.specs.Writings.{IsWriting, Writing};
ghost use Rattle.fax_gateway.specs.Setups.{Setup};
ghost use Rattle.fax_gateway.specs.Events.{Event};
ghost use Rattle.fax_gateway.specs.Reached.{IsReachedBy, refusals_if};
ghost use Rattle.fax_gateway.specs.BothLegs.{job_asked};
ghost use Rattle.fax_gateway.specs.declared.leg.Leg.{Leg as LegShown};
ghost use Rattle.fax_gateway.specs.Driving.{AreReceives, Carries, Comes, Entry, FailsToReceive, Happens, HasMade, IsHanded, IsReceive, IsSent, IsTick, IsTurn, IsWanting, RiseAlike, Steps, WireGoes, events, failed_in_a_row, most_failed, receipts};
ghost use Rattle.fax_gateway.specs.Turns.{TellTicks, call_asked, call_dialled, call_ended, call_if_new, call_of_rep};

use crate::buffer::Buffer;
use crate::driven::Driven;
use crate::gateway::Gateway;
use crate::given::TickReport;
use crate::leg::Leg;
use crate::turn_report::TurnReport;
use crate::wire::{Wire, WireFault};
use fax_bits::{NoMemory, Octets};
use fax_jobs::Job;
use fax_pagestore::RowStore;
use std::marker::Model;

/// The most datagrams of a leg in a turn.
const MOST_DATAGRAMS: u8 = 16;

/// So many receives that fail one after the other are the last.
const MOST_FAILED: u8 = 100;

/// What drives a gateway over a wire: of all that it did it keeps counts. Each turn is lent a buffer.
pub struct Engine {
    /// How many of the last receives failed, one after the other; at most 100.
    failed_in_a_row: u8,
    events_refused: u64,
    receives_failed: u64,
    sends_failed: u64,
}

impl Drop for Engine {
    fn drop(self) {
        let Engine {
            failed_in_a_row: _failed_in_a_row,
            events_refused: _events_refused,
            receives_failed: _receives_failed,
            sends_failed: _sends_failed,
        } = self;
    }
}

impl Model for Engine {
    ghost use Rattle.fax_gateway.specs.Driving.{DriverValue};

    ghost Value = { DriverValue };

    ghost view = { λ e.
        record {
          failed_in_a_row = e.failed_in_a_row;
          events_refused = e.events_refused;
          receives_failed = e.receives_failed;
          sends_failed = e.sends_failed;
        } };
}

impl Engine {
    /// An engine that did nothing.
    pub fn new() -> Self
        ensures { HasMade [] result }
    {
        Engine {
            failed_in_a_row: 0,
            events_refused: 0,
            receives_failed: 0,
            sends_failed: 0,
        }
    }

    /// A turn: of the calling and then of the called leg at most 16 datagrams are received into the buffer and handed on,
    /// until none comes or a receive fails; then time goes on, and what is given is sent, the calling leg first. A datagram whose send fails is
    /// lost, and what the gateway refuses for want of memory is left out. It answers what happened: what its tick told, unless
    /// that was refused, and which calls ended and began between its two ends.
    pub fn turn<S: RowStore, W: Wire>(
        &mut self,
        buffer: &mut Buffer,
        gateway: &mut Gateway<S>,
        wire: &mut W,
        now: u64,
    ) -> TurnReport
        ensures turned { (setup : Setup) (writes : Writing) (trace : List Event)
            (earlier : List Entry) → IsWriting writes → IsReachedBy setup writes trace gateway.old
            → HasMade earlier self.old → (turn : List Entry) × IsTurn now turn
            × Happens setup writes turn trace gateway.new (W.known wire.old) (W.known wire.new)
            × HasMade (turn ++ earlier) self.new × TellTicks setup trace (events turn
            ++ trace) result.report result.kept result.refused result.gave_up
            × WireGoes W.receives W.sends turn wire.old wire.new }
        ensures goes_on { (made : List Entry) → HasMade made self.new
            → IsTrue result.goes_on ↔ (failed_in_a_row (receipts made) < most_failed) }
        ensures ended { result.ended
            ≡ call_ended (call_of_rep gateway.old.calling) (call_of_rep gateway.new.calling) }
        ensures dialled { result.dialled
            ≡ call_dialled (is_some gateway.old.book.sending) gateway.new.book.sending }
        ensures asked { result.asked
            ≡ call_if_new (call_asked (job_asked gateway.old.settings.asks gateway.old.book))
            (call_asked (job_asked gateway.new.settings.asks gateway.new.book)) }
        ensures refusals { RiseAlike gateway.old.refusals
            gateway.new.refusals self.old.events_refused self.new.events_refused }
    {
        let call = gateway.call();
        let was_sending = gateway.sending().is_some();
        let was_asked = gateway.asked();
        self.serve(Leg::Calling, buffer, gateway, wire, now);
        self.serve(Leg::Called, buffer, gateway, wire, now);
        let told = self.tick(gateway, wire, now);
        TurnReport {
            goes_on: self.failed_in_a_row < MOST_FAILED,
            report: told.report,
            kept: told.kept,
            refused: told.refused,
            ended: call_ended(call, gateway.call()),
            gave_up: told.gave_up,
            dialled: call_dialled(was_sending, gateway.sending()),
            asked: call_if_new(was_asked, gateway.asked()),
        }
    }

    /// What a run of so many turns came to, where this engine made it.
    pub(crate) fn told(&self, turns: u32, rings_refused: u64, stopped: bool) -> Driven
        ensures { result ≡ record {
          turns = turns;
          rings_refused = rings_refused;
          events_refused = self.now.events_refused;
          sends_failed = self.now.sends_failed;
          receives_failed = self.now.receives_failed;
          stopped = stopped;
        } }
    {
        Driven {
            turns,
            rings_refused,
            events_refused: self.events_refused,
            sends_failed: self.sends_failed,
            receives_failed: self.receives_failed,
            stopped,
        }
    }

    /// Receives and hands on at most 16 datagrams of a leg, until none comes or a receive fails.
    fn serve<S: RowStore, W: Wire>(
        &mut self,
        leg: Leg,
        buffer: &mut Buffer,
        gateway: &mut Gateway<S>,
        wire: &mut W,
        now: u64,
    )
        ensures served { (setup : Setup) (writes : Writing)
            (trace : List Event) (earlier : List Entry) → IsReachedBy setup writes trace gateway.old
            → HasMade earlier self.old → (log : List Entry) × AreReceives leg now log
            × Steps setup writes log trace earlier gateway.new (W.known wire.old)
            (W.known wire.new) self.new × WireGoes W.receives W.sends log wire.old wire.new }
        ensures refusals { RiseAlike gateway.old.refusals
            gateway.new.refusals self.old.events_refused self.new.events_refused }
    {
        for _ in 0..MOST_DATAGRAMS {
            if !self.receive(leg, buffer, gateway, wire, now) {
                return;
            }
        }
    }

    /// Receives and hands on a datagram of a leg. It answers whether one came.
    fn receive<S: RowStore, W: Wire>(
        &mut self,
        leg: Leg,
        buffer: &mut Buffer,
        gateway: &mut Gateway<S>,
        wire: &mut W,
        now: u64,
    ) -> bool
        ensures received { (setup : Setup)
            (writes : Writing) (trace : List Event) (earlier : List Entry)
            → IsReachedBy setup writes trace gateway.old → HasMade earlier self.old
            → (entry : Entry) × IsReceive result leg now entry × Steps setup writes (entry
            ∷ []) trace earlier gateway.new (W.known wire.old) (W.known wire.new) self.new
            × WireGoes W.receives W.sends (entry ∷ []) wire.old wire.new }
        ensures refusals { RiseAlike gateway.old.refusals
            gateway.new.refusals self.old.events_refused self.new.events_refused }
    {
        match buffer.receive(leg, wire) {
            Ok(Some(count)) => {
                let is_accepted = hand_on(leg, buffer.front(count), gateway, now);
                self.note_datagram(is_accepted);
                true
            }
            Ok(None) => {
                self.failed_in_a_row = 0;
                false
            }
            Err(WireFault) => {
                self.note_failure();
                false
            }
        }
    }

    /// A datagram came, and was accepted or refused.
    fn note_datagram(&mut self, is_accepted: bool)
        ensures noted { (log : List Entry) (at : LegShown) (octets : List ℕ) (entry : Entry)
            → IsHanded is_accepted at octets entry
            → HasMade log self.old → HasMade (entry ∷ log) self.new }
        ensures refused { self.new.events_refused
            ≡ refusals_if (not is_accepted) self.old.events_refused }
    {
        self.failed_in_a_row = 0;
        if !is_accepted {
            self.events_refused = self.events_refused.saturating_add(1);
        }
    }

    /// A receive failed.
    fn note_failure(&mut self)
        ensures noted { (log : List Entry) (at : LegShown)
            → HasMade log self.old → HasMade (FailsToReceive at ∷ log) self.new }
        ensures refused { self.new.events_refused ≡ self.old.events_refused }
    {
        self.receives_failed = self.receives_failed.saturating_add(1);
        if self.failed_in_a_row < MOST_FAILED {
            self.failed_in_a_row += 1;
        }
    }

    /// Time goes on, and what is given is sent. It answers what is told: nothing where the tick is refused.
    fn tick<S: RowStore, W: Wire>(
        &mut self,
        gateway: &mut Gateway<S>,
        wire: &mut W,
        now: u64,
    ) -> TickReport
        ensures ticked { (setup : Setup) (writes : Writing) (trace : List Event)
            (earlier : List Entry) → IsWriting writes → IsReachedBy setup writes trace gateway.old
            → HasMade earlier self.old → (log : List Entry)
            × IsTick now log × Steps setup writes log trace earlier gateway.new (W.known wire.old)
            (W.known wire.new) self.new × TellTicks setup trace (events log
            ++ trace) result.report result.kept result.refused result.gave_up
            × WireGoes W.receives W.sends log wire.old wire.new }
        ensures refusals { RiseAlike gateway.old.refusals
            gateway.new.refusals self.old.events_refused self.new.events_refused }
    {
        match gateway.tick(now) {
            Ok(given) => {
                self.send(Leg::Calling, &given.calling, wire);
                self.send(Leg::Called, &given.called, wire);
                given.told()
            }
            Err(NoMemory) => {
                self.events_refused = self.events_refused.saturating_add(1);
                TickReport::nothing()
            }
        }
    }

    /// Sends what is given on a leg.
    fn send<W: Wire>(&mut self, leg: Leg, given: &Option<Octets>, wire: &mut W)
        ensures sent { (earlier : List Entry)
            → HasMade earlier self.old → (log : List Entry) × IsSent leg given.now log
            × Carries log (W.known wire.old) (W.known wire.new) × HasMade (log ++ earlier) self.new
            × WireGoes W.receives W.sends log wire.old wire.new }
        ensures refused { self.new.events_refused ≡ self.old.events_refused }
    {
        let Some(octets) = given else {
            return;
        };
        match wire.send(leg, octets.as_slice()) {
            Ok(()) => {}
            Err(WireFault) => self.sends_failed = self.sends_failed.saturating_add(1),
        }
    }
}

/// The call that was on, and is on no more.
fn call_ended(was_on: Option<u32>, is_on: Option<u32>) -> Option<u32>
    ensures { result ≡ call_ended was_on is_on }
{
    if is_on.is_some() { None } else { was_on }
}

/// The call of the job that is being sent, where none was.
fn call_dialled<S: RowStore>(was_sending: bool, job: Option<&Job<S>>) -> Option<u32>
    ensures { result ≡ call_dialled was_sending (option_copied job.entry) }
{
    match job {
        Some(job) if !was_sending => Some(job.call()),
        _ => None,
    }
}

/// The call that is asked for, where none was.
fn call_if_new(was_asked: Option<u32>, is_asked: Option<u32>) -> Option<u32>
    ensures { result ≡ call_if_new was_asked is_asked }
{
    if was_asked.is_some() { None } else { is_asked }
}

/// Hands a datagram of a leg on to the gateway. It answers whether it was accepted.
fn hand_on<S: RowStore>(leg: Leg, octets: &[u8], gateway: &mut Gateway<S>, now: u64) -> bool
    ensures handed { (setup : Setup) (writes : Writing) (trace : List Event)
        → IsReachedBy setup writes trace gateway.old → (entry : Entry) × Comes leg now entry
        × IsHanded result leg octets.now entry × IsWanting setup writes trace entry
        × IsReachedBy setup writes (events (entry ∷ []) ++ trace) gateway.new }
    ensures refusals { gateway.new.refusals ≡ refusals_if (not result) gateway.old.refusals }
{
    match leg {
        Leg::Calling => gateway.from_calling(octets, now).is_ok(),
        Leg::Called => gateway.from_called(octets, now).is_ok(),
    }
}
