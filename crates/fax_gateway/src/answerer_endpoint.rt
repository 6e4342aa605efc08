//! An answerer on a leg: who calls is answered there. A gateway has one on its calling leg.
ghost use Rattle.std.specs.Prelude.{◌≡◌, ◌≤◌, ◌↔◌, ℕ, true, IsTrue, Option, Some, None, IfOk, OnOk, OnErr};
ghost use Rattle.fax_udptl.specs.Sending.{most_redundancy};
ghost use Rattle.fax_gateway.specs.Setups.{AreAllowed, HasSettings, Setup};
ghost use Rattle.fax_gateway.specs.CallingLegs.{CallingLeg, decided_calling, idle_after, rung_leg};
ghost use Rattle.fax_gateway.specs.Due.{calling_due};
ghost use Rattle.fax_gateway.specs.EachTrace.{EachCallingLeg};
ghost use Rattle.fax_answer.specs.Octets.{octets_of_answerer};
ghost use Rattle.fax_answer.specs.Watching.{Watches};
ghost use Rattle.fax_gateway.specs.Watched.{HearsCallingTold, calling_acting, calling_state};
ghost use Rattle.fax_gateway.specs.Reached.{IsCalling, CallingHasRoom, TellsTick, answering_of, calling_alone, ticked_on};
ghost use Rattle.fax_gateway.specs.Turns.{call_of_rep, call_on};

use crate::endpoint::Endpoint;
use crate::settings::Settings;
use fax_answer::{ActingTimer, Answerer, State, Step, Watcher};
use fax_bits::NoMemory;
use fax_pagestore::RowStore;
use std::alloc::Global;
use std::marker::Model;

/// How many octets a packet of the answerer has at most.
const MOST_ANSWERED: usize = 12;

/// An answerer, the number of its last call, and what numbers and reads the datagrams of that: what a gateway is on its calling
/// leg, and a terminal that is called.
pub struct AnswererEndpoint<S: RowStore> {
    alloc: Global,
    number: u32,
    answerer: Answerer<S>,
    leg: Endpoint,
}

impl<S: RowStore> Drop for AnswererEndpoint<S> {
    fn drop(self) {
        let AnswererEndpoint {
            alloc: _alloc,
            number: _number,
            answerer: _answerer,
            leg: _leg,
        } = self;
    }
}

impl<S: RowStore> Model for AnswererEndpoint<S> {
    ghost use Rattle.fax_gateway.specs.Reached.{CallingValue};

    ghost Value = { CallingValue };

    ghost view = { λ s. record { number = s.number; kept = s.answerer; leg = s.leg } };
}

impl<S: RowStore> AnswererEndpoint<S> {
    /// An endpoint on whose leg no call was. It takes memory for the leg.
    pub fn new(alloc: Global, settings: Settings) -> Result<Self, NoMemory>
        requires { AreAllowed settings }
        ensures { IfOk result (λ endpoint. (setup : Setup)
            → HasSettings setup settings → IsCalling setup None endpoint) }
    {
        let leg = Endpoint::new(alloc, settings.redundancy)?;
        Ok(AnswererEndpoint {
            alloc,
            number: 0,
            answerer: Answerer::new(alloc, settings.preamble_ms),
            leg,
        })
    }

    /// Whether no call is on.
    pub fn is_idle(&self) -> bool
        ensures idle { EachCallingLeg self.now (λ setup leg. result ≡ idle_after leg) }
        ensures state { IsTrue result ↔ (self.now.kept.procedure.state ≡ State.Idle) }
    {
        self.answerer.state() == State::Idle
    }

    /// The number of the call that is on.
    pub(crate) fn call(&self) -> Option<u32>
        ensures call { result ≡ call_of_rep self.now }
        ensures told { EachCallingLeg self.now (λ setup leg. result ≡ call_on leg) }
    {
        if self.is_idle() {
            None
        } else {
            Some(self.number)
        }
    }

    /// A ring, where no call is on: the call of this number begins, with a leg of this redundancy. It takes memory for the leg.
    /// An `Err` changes nothing.
    pub fn ring(&mut self, number: u32, redundancy: u8, now: u64) -> Result<(), NoMemory>
        requires idle { self.old.kept.procedure.state ≡ State.Idle }
        requires few { redundancy ≤ most_redundancy }
        ensures rung { OnOk result ((setup : Setup) (leg : Option CallingLeg)
            → redundancy ≡ setup.redundancy → IsCalling setup leg self.old
            → IsCalling setup (Some (rung_leg (answering_of setup leg) now number)) self.new) }
        ensures err { OnErr result (self.new ≡ self.old) }
    {
        self.leg = Endpoint::new(self.alloc, redundancy)?;
        self.number = number;
        self.answerer.ring(now);
        Ok(())
    }

    /// Where the call stands.
    pub(crate) fn state(&self) -> State
        ensures { EachCallingLeg self.now (λ setup leg. result ≡ calling_state leg) }
    {
        self.answerer.state()
    }

    /// The timer that acts in a tick at this moment.
    pub(crate) fn acting(&self, now: u64) -> Option<ActingTimer>
        ensures { EachCallingLeg self.now (λ setup leg. result ≡ calling_acting leg now) }
    {
        self.answerer.acting(now)
    }

    /// A datagram came: the octets of it. It answers whether it decided a slot, and it takes memory only where it did: where so many
    /// octets are held, or more, none is added. A watcher is told of each piece that it brings. An `Err` changes nothing, but that
    /// the watcher may have been told of some.
    pub fn hear<W: Watcher>(
        &mut self,
        octets: &[u8],
        now: u64,
        most: u128,
        watcher: &mut W,
    ) -> Result<bool, NoMemory>
        ensures heard { OnOk result (EachCallingLeg self.old (λ setup leg. HearsCallingTold
            (Watches W.tells watcher.old watcher.new) setup leg now octets.now self.new)) }
        ensures decided { IfOk result (λ decided.
            EachCallingLeg self.old (λ setup leg. decided ≡ decided_calling leg octets.now)) }
        ensures memory { OnErr result (EachCallingLeg self.old
            (λ setup leg. decided_calling leg octets.now ≡ true)) }
        ensures err { OnErr result (self.new ≡ self.old) }
        ensures within { OnOk result (most ≤ octets_of_answerer self.old.kept
            → octets_of_answerer self.new.kept ≤ octets_of_answerer self.old.kept) }
    {
        if self.is_idle() {
            return Ok(false);
        }
        let mut receiver = self.leg.receiver.copy();
        let Ok(decided) = receiver.take(octets) else {
            return Ok(false);
        };
        self.answerer.slots_within(&decided, now, most, watcher)?;
        self.leg.receiver = receiver;
        Ok(!decided.is_empty())
    }

    /// The number of the last call.
    pub(crate) fn number(&self) -> u32
        ensures { result ≡ self.now.number }
    {
        self.number
    }

    /// The first moment at which a tick may give something or change the call.
    pub(crate) fn next_due(&self) -> Option<u64>
        ensures { EachCallingLeg self.now (λ setup leg. result ≡ calling_due setup leg) }
    {
        self.answerer.next_due()
    }

    /// Takes the memory of the next tick.
    pub fn reserve(&mut self) -> Result<(), NoMemory>
        ensures room { OnOk result (CallingHasRoom self.new) }
        ensures reached { EachCallingLeg self.old (λ setup leg. IsCalling setup leg self.new) }
        ensures same { calling_alone self.new ≡ calling_alone self.old }
    {
        self.answerer.reserve()?;
        self.leg.reserve(MOST_ANSWERED)
    }

    /// Time goes on: it answers the datagram that is given, the page that is confirmed, why one is refused, and whether the call
    /// has ended.
    /// The memory is reserved.
    pub fn tick(&mut self, now: u64) -> Step<S>
        requires { CallingHasRoom self.old }
        ensures ticked { EachCallingLeg self.old
            (λ setup leg. IsCalling setup (ticked_on leg now) self.new) }
        ensures told { EachCallingLeg self.old (λ setup leg. TellsTick setup leg now result) }
        ensures number { self.new.number ≡ self.old.number }
    {
        match self.answerer.tick(now) {
            Err(_) => unreachable!(),
            Ok(step) => Step {
                packet: self.leg.send_if(step.packet),
                confirmed: step.confirmed,
                refused: step.refused,
                ended: step.ended,
            },
        }
    }
}
