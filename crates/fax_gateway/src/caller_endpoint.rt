//! A caller on a leg: jobs are sent there, each in a call of our own. A gateway has one on its called leg.
ghost use Rattle.std.specs.Prelude.{◌≡◌, ◌<◌, ◌≤◌, ℕ, true, false, List, [], Option, Some, None, IfOk, OnOk, OnErr, option_map};
ghost use Rattle.fax_jobs.specs.Jobs.{JobValue};
ghost use Rattle.fax_call.specs.Writings.{IsWriting, Writing};
ghost use Rattle.fax_call.specs.Following.{IsJobOfCall};
ghost use Rattle.fax_call.specs.declared.pending.Pending.TheVariants as Pending;
ghost use Rattle.fax_gateway.specs.Setups.{AreAllowed, HasSettings, Setup};
ghost use Rattle.fax_gateway.specs.CalledLegs.{CalledLeg, begun_leg, placed_leg, core_left, core_of, decided_called, hears};
ghost use Rattle.fax_gateway.specs.Due.{call_due};
ghost use Rattle.fax_call.specs.Watching.{Watches};
ghost use Rattle.fax_gateway.specs.EachTrace.{EachCalledLeg};
ghost use Rattle.fax_gateway.specs.Watched.{called_acting, called_state, called_tellings};
ghost use Rattle.fax_gateway.specs.Reached.{Begins, CalledHasRoom, IsCalled, IsLeg, IsServed, TicksOn, called_alone, most_octets, outcome_of_rep};

use crate::endpoint::{Endpoint, MOST_OCTETS};
use crate::settings::Settings;
use fax_bits::{NoMemory, Octets};
use fax_call::{ActingTimer, Caller, State, Watcher};
use fax_jobs::{Job, Jobs, Outcome};
use fax_pagestore::RowStore;
use std::alloc::Global;

/// A caller, and what numbers and reads the datagrams of its call: what a gateway is on its called leg, and a terminal that calls.
pub struct CallerEndpoint {
    pub caller: Caller,
    pub leg: Endpoint,
}

impl Drop for CallerEndpoint {
    fn drop(self) {
        let CallerEndpoint {
            caller: _caller,
            leg: _leg,
        } = self;
    }
}

impl CallerEndpoint {
    /// An endpoint on whose leg no call was. It takes memory for the leg.
    pub fn new(alloc: Global, settings: Settings) -> Result<Self, NoMemory>
        requires { AreAllowed settings }
        ensures reached { IfOk result (λ endpoint. (setup : Setup) (writes : Writing)
            → HasSettings setup settings → IsCalled setup writes None endpoint) }
        ensures idle { IfOk result (λ endpoint. endpoint.caller.procedure.state ≡ State.Idle) }
    {
        let leg = Endpoint::new(alloc, settings.redundancy)?;
        Ok(CallerEndpoint {
            caller: Caller::new(alloc, settings.preamble_ms),
            leg,
        })
    }

    /// Where the call stands.
    pub(crate) fn state(&self) -> State
        ensures { EachCalledLeg self.now (λ setup writes leg. result ≡ called_state writes leg) }
    {
        self.caller.state()
    }

    /// The timer that acts in a tick at this moment.
    pub(crate) fn acting(&self, now: u64) -> Option<ActingTimer>
        ensures { EachCalledLeg self.now
            (λ setup writes leg. result ≡ called_acting writes leg now) }
    {
        self.caller.acting(now)
    }

    /// A datagram came: the octets of it. It answers whether it decided a slot, and it takes memory only where it did. A watcher
    /// is told of each piece that it brings. An `Err` changes nothing, but that the watcher may have been told of some.
    pub fn hear<W: Watcher>(
        &mut self,
        octets: &[u8],
        now: u64,
        watcher: &mut W,
    ) -> Result<bool, NoMemory>
        ensures heard { OnOk result (EachCalledLeg self.old (λ setup writes leg.
            IsCalled setup writes (option_map (hears writes octets.now now) leg) self.new)) }
        ensures told { OnOk result (EachCalledLeg self.old (λ setup writes leg.
            Watches W.tells watcher.old watcher.new (called_tellings writes leg now octets.now))) }
        ensures decided { IfOk result (λ decided. EachCalledLeg self.old
            (λ setup writes leg. decided ≡ decided_called writes leg octets.now)) }
        ensures memory { OnErr result (EachCalledLeg self.old
            (λ setup writes leg. decided_called writes leg octets.now ≡ true)) }
        ensures idle { self.old.caller.procedure.state ≡ State.Idle → self.new ≡ self.old }
        ensures job { (job : JobValue) → IsJobOfCall self.old.caller.procedure job
            → IsJobOfCall self.new.caller.procedure job }
        ensures err { OnErr result (self.new ≡ self.old) }
    {
        if self.caller.state() == State::Idle {
            return Ok(false);
        }
        let mut receiver = self.leg.receiver.copy();
        let Ok(decided) = receiver.take(octets) else {
            return Ok(false);
        };
        self.caller.slots_watched(&decided, now, watcher)?;
        self.leg.receiver = receiver;
        Ok(!decided.is_empty())
    }

    /// The outcome of the call, where it is over.
    pub fn outcome(&self) -> Option<Outcome>
        ensures { result ≡ outcome_of_rep self.now.caller.procedure }
    {
        if self.caller.state() == State::Idle {
            self.caller.outcome()
        } else {
            None
        }
    }

    /// The first moment at which a tick in the call may give something or change it, or its end is entered: 0 where it is over.
    pub(crate) fn next_due(&self) -> Option<u64>
        ensures { (setup : Setup) (writes : Writing) (l : CalledLeg)
            → IsCalled setup writes (Some l) self.now → result ≡ call_due (core_of writes l) }
    {
        match self.outcome() {
            Some(_) => Some(0),
            None => self.caller.next_due(),
        }
    }

    /// How many pages of the job were answered MCF or RTP.
    pub fn delivered(&self) -> u32
        ensures { result ≡ self.now.caller.procedure.counts.delivered }
    {
        self.caller.delivered()
    }

    /// Takes the memory of the next datagram, and of the first packet of a call.
    pub fn reserve(&mut self) -> Result<(), NoMemory>
        ensures room { OnOk result (CalledHasRoom self.new) }
        ensures reached { EachCalledLeg self.old
            (λ setup writes leg. IsCalled setup writes leg self.new) }
        ensures same { called_alone self.new ≡ called_alone self.old }
        ensures procedure { self.new.caller.procedure ≡ self.old.caller.procedure }
    {
        self.caller.reserve()?;
        self.leg.reserve(MOST_OCTETS)
    }

    /// The call of a job begins, where no call is on, with a leg of its own. It takes no memory.
    pub fn start<S: RowStore>(&mut self, job: &Job<S>, leg: Endpoint, now: u64)
        requires idle { self.old.caller.procedure.state ≡ State.Idle }
        ensures started { (setup : Setup) (writes : Writing) (old : Option CalledLeg)
            → IsLeg setup [] [] leg → IsCalled setup writes old self.old → IsCalled setup
            writes (Some (begun_leg job.now (core_left setup writes old) now)) self.new }
        ensures job { IsJobOfCall self.new.caller.procedure job.now }
        ensures tone { self.new.caller.procedure.pending ≡ Pending.Tone }
        ensures spare { self.new.caller.spare ≡ self.old.caller.spare }
        ensures leg { self.new.leg ≡ leg }
    {
        // what it ensures of the job is that it has a page
        let _ = job.pages();
        self.caller.start(job.format(), job.page_count(), now);
        self.leg = leg;
    }

    /// The call of a job is placed, where no call is on, with a leg of its own: it begins, or, where the called machine could not be
    /// reached, is over as it begins. It takes no memory.
    pub(crate) fn place<S: RowStore>(
        &mut self,
        job: &Job<S>,
        connected: bool,
        leg: Endpoint,
        now: u64,
    )
        requires idle { self.old.caller.procedure.state ≡ State.Idle }
        ensures placed { (setup : Setup) (writes : Writing) (old : Option CalledLeg)
            → IsLeg setup [] [] leg → IsCalled setup writes old self.old → IsCalled setup writes
            (Some (placed_leg connected job.now (core_left setup writes old) now)) self.new }
        ensures job { IsJobOfCall self.new.caller.procedure job.now }
    {
        if connected {
            self.start(job, leg, now);
        } else {
            self.fail_to_place(job, leg, now);
        }
    }

    /// The call of a job could not be placed: it is over as it begins.
    fn fail_to_place<S: RowStore>(&mut self, job: &Job<S>, leg: Endpoint, now: u64)
        requires idle { self.old.caller.procedure.state ≡ State.Idle }
        ensures failed { (setup : Setup) (writes : Writing) (old : Option CalledLeg)
            → IsLeg setup [] [] leg → IsCalled setup writes old self.old → IsCalled setup
            writes (Some (placed_leg false job.now (core_left setup writes old) now)) self.new }
        ensures job { IsJobOfCall self.new.caller.procedure job.now }
    {
        // what it ensures of the job is that it has a page
        let _ = job.pages();
        self.caller.fail_to_place(job.format(), job.page_count());
        self.leg = leg;
    }

    /// Time goes on in the call of the job: it answers the datagram that is given. The memory of the datagram is reserved;
    /// that of the packet is taken, but where it is the first of the call and its memory is reserved, and where no call is
    /// on. An `Err` changes nothing.
    pub fn tick<S: RowStore>(&mut self, job: &Job<S>, now: u64) -> Result<Option<Octets>, NoMemory>
        requires job { IsJobOfCall self.old.caller.procedure job.now }
        requires room { most_octets < self.old.leg.sender.spare }
        ensures ticked { IfOk result (λ given. (setup : Setup) (writes : Writing) (l : CalledLeg)
            → IsWriting writes → l.job ≡ job.now → IsCalled setup writes (Some l) self.old
            → TicksOn setup writes l now given self.new) }
        ensures job { OnOk result (IsJobOfCall self.new.caller.procedure job.now) }
        ensures first { self.old.caller.procedure.pending ≡ Pending.Tone
            → OnErr result (self.old.caller.spare ≡ 0) }
        ensures err { OnErr result (self.new ≡ self.old) }
    {
        let packet = self.caller.tick(job, now)?;
        Ok(self.leg.send_if(packet))
    }

    /// Where a job is to be sent, its call begins, with a leg of its own, and time goes on in it: it answers the datagram
    /// that is given. No call is on before it. The memory is reserved.
    pub(crate) fn begin<S: RowStore>(
        &mut self,
        jobs: &Jobs<S>,
        leg: Endpoint,
        now: u64,
    ) -> Option<Octets>
        requires idle { self.old.caller.procedure.state ≡ State.Idle }
        requires packet { 1 ≤ self.old.caller.spare }
        requires datagram { most_octets < leg.sender.spare }
        ensures begun { (setup : Setup) (writes : Writing) (old : Option CalledLeg)
            → IsWriting writes → IsLeg setup [] [] leg → IsCalled setup writes old self.old
            → Begins setup writes old jobs.now.book.sending now result self.old self.new }
        ensures served { IsServed jobs.now.book.sending self.new.caller.procedure }
    {
        match jobs.sending() {
            None => None,
            Some(job) => {
                self.start(job, leg, now);
                match self.tick(job, now) {
                    Ok(datagram) => datagram,
                    Err(_) => unreachable!(),
                }
            }
        }
    }
}
