//! The gateway.
ghost use Rattle.std.specs.Prelude.{◌≡◌, ◌<◌, ◌≤◌, ◌↔◌, ℕ, max, true, false, not, ◌&&◌, List, [], ◌∷◌, Option, None, Ok, Err, IsSome, IfOk, IfErr, OnOk, OnErr, slice_get, length, map, option_copied};
ghost use Rattle.std.specs.Result.{is_err};
ghost use Rattle.fax_timers.specs.Moments.{is_due};
ghost use Rattle.fax_pagestore.specs.Pages.{IsPage};
ghost use Rattle.fax_jobs.specs.Books.{closed, confirmed, new_book, report_of};
ghost use Rattle.fax_jobs.specs.Newest.{newest_page};
ghost use Rattle.fax_answer.specs.Shown.{confirmed_shown};
ghost use Rattle.fax_call.specs.Writings.{IsWriting, Writing};
ghost use Rattle.fax_udptl.specs.Sending.{most_redundancy};
ghost use Rattle.fax_gateway.specs.Restored.{ArePages, call_shown, confirmation_shown, confirmed_all, pages_restored, pages_with, restored_to};
ghost use Rattle.fax_gateway.specs.Setups.{AreAllowed, AreSet, AreSetWith, Setup};
ghost use Rattle.fax_gateway.specs.Events.{Event, Ring, FromCalled, Tick, Placed, clock, rings};
ghost use Rattle.fax_gateway.specs.CallingLegs.{CallingLeg, calling_leg, decided_calling, idle_after, told_calling};
ghost use Rattle.fax_gateway.specs.CalledLegs.{decided_called};
ghost use Rattle.fax_gateway.specs.BothLegs.{book_of, both_legs, job_asked};
ghost use Rattle.fax_gateway.specs.Octets.{octets_of_gateway};
ghost use Rattle.fax_gateway.specs.Due.{called_due, due_at, job_due, nothing_given};
ghost use Rattle.fax_gateway.specs.Reached.{CallingHasRoom, HasRoom, IsCalling, IsLeg, IsReachedBy, IsServed, alone, closed_if, confirmed_if, confirmed_on, ended_if, ended_on, given_shown, most_octets, outcome_of_rep, refusals_if, refusing, report_if, ticked_on};
ghost use Rattle.fax_answer.specs.Watching as answer_watching;
ghost use Rattle.fax_call.specs.Watching as call_watching;
ghost use Rattle.fax_gateway.specs.Watched.{called_acting, called_state, called_tellings, calling_acting, calling_state};
ghost use Rattle.fax_gateway.specs.EachTrace.{Advances, AdvancesByHearing, AdvancesByHearingTold, AdvancesByTick, EachTrace, OfBook, OfCalledLeg, OfCallingLeg, OfJobAsked, Remains};
ghost use Rattle.fax_gateway.specs.Turns.{IsRefusedAt, Refuses, call_asked, call_if, call_of_rep, call_on, given_up_at, kept_at, kept_if, refused_if};

use crate::answerer_endpoint::AnswererEndpoint;
use crate::caller_endpoint::CallerEndpoint;
use crate::endpoint::Endpoint;
use crate::fault::{PlaceFault, RingFault};
use crate::given::{Given, Kept, RefusedPage};
use crate::restored::RestoredCall;
use crate::settings::{LEAST_PREAMBLE_MS, Settings};
use fax_answer::{Confirmed, Refusal};
use fax_bits::{NoMemory, Octets};
use fax_jobs::{Job, Jobs, Outcome, Report};
use fax_pagestore::{Page, RowStore};
use fax_timers::{Clock, earlier};
use std::alloc::Global;
use std::marker::Model;

/// A gateway between two legs: it answers the calls of the calling leg, and sends the pages that it confirmed there on
/// the called leg, in calls of its own. Moments are milliseconds; one that lies before another that was handed in reads
/// as the latest. Seen as what a trace has led to: its contracts are told over every trace of events with their answers.
pub struct Gateway<S: RowStore> {
    alloc: Global,
    settings: Settings,
    clock: Clock,
    /// How many calls were rung.
    rings: u64,
    /// How many datagrams and ticks were refused for want of memory; the count stops at the greatest.
    refusals: u64,
    calling: AnswererEndpoint<S>,
    called: CallerEndpoint,
    jobs: Jobs<S>,
}

impl<S: RowStore> Drop for Gateway<S> {
    fn drop(self) {
        let Gateway {
            alloc: _alloc,
            settings: _settings,
            clock: _clock,
            rings: _rings,
            refusals: _refusals,
            calling: _calling,
            called: _called,
            jobs: _jobs,
        } = self;
    }
}

impl<S: RowStore> Model for Gateway<S> {
    ghost use Rattle.fax_gateway.specs.Reached.{GatewayValue, IsServed};
    ghost use Rattle.fax_gateway.specs.Setups.{AreAllowed};

    ghost Value = { GatewayValue };

    ghost view = { λ g.
        record {
          settings = g.settings;
          clock = g.clock;
          rings = g.rings;
          calling = g.calling;
          called = g.called;
          book = g.jobs.book;
          spare = g.jobs.spare;
          refusals = g.refusals;
        } };

    ghost invariant = { λ g. IsServed g.jobs.book.sending g.called.caller.procedure
        × AreAllowed g.settings };
}

impl<S: RowStore> Gateway<S> {
    /// A gateway of this redundancy, at most 8, with the defaults elsewhere, to which nothing came. It takes memory for both
    /// legs and for the reports of jobs.
    pub fn new(alloc: Global, redundancy: u8) -> Result<Self, NoMemory>
        requires { redundancy ≤ most_redundancy }
        ensures { IfOk result (λ gateway. (setup : Setup) (writes : Writing)
            → AreSet setup (record {
              redundancy = redundancy;
              preamble_ms = 40;
              asks = false;
              memory = 18446744073709551615;
            }) → IsReachedBy setup writes [] gateway) }
    {
        Gateway::with_settings(
            alloc,
            Settings {
                redundancy,
                preamble_ms: LEAST_PREAMBLE_MS,
                asks: false,
                memory: u64::MAX,
            },
        )
    }

    /// The same with these settings: the redundancy is at most 8, the pause after a preamble from 40 to 2,000 milliseconds.
    pub fn with_settings(alloc: Global, settings: Settings) -> Result<Self, NoMemory>
        requires { AreAllowed settings }
        ensures settings { IfOk result (λ gateway. gateway.settings ≡ settings) }
        ensures reached { IfOk result (λ gateway. (setup : Setup) (writes : Writing)
            → AreSet setup settings → IsReachedBy setup writes [] gateway) }
    {
        Gateway::restore(alloc, settings, Vec::new(alloc))
    }

    /// The same after a crash: it begins with the pages that an earlier life of it confirmed and whose jobs had not ended, the
    /// oldest call first. A call that was on then ended there: its pages are a job. These jobs wait, cut as a life cuts them,
    /// and are sent before any of this life. Both legs are new, so it is rung at once, and numbers its calls from 0 again. It
    /// takes memory for the jobs, too.
    pub fn restore(
        alloc: Global,
        settings: Settings,
        calls: Vec<RestoredCall<S>>,
    ) -> Result<Self, NoMemory>
        requires { AreAllowed settings }
        ensures settings { IfOk result (λ gateway. gateway.settings ≡ settings) }
        ensures reached { IfOk result (λ gateway. (setup : Setup) (writes : Writing)
            → AreSetWith setup settings (map call_shown calls.items)
            → IsReachedBy setup writes [] gateway) }
        ensures pages { OnOk result (ArePages (pages_restored (map call_shown calls.items))) }
    {
        let calling = AnswererEndpoint::new(alloc, settings)?;
        let called = CallerEndpoint::new(alloc, settings)?;
        let jobs = restored_jobs(alloc, calls)?;
        Ok(Gateway {
            alloc,
            settings,
            clock: Clock::new(),
            rings: 0,
            refusals: 0,
            calling,
            called,
            jobs,
        })
    }

    /// A ring, where no call is on the calling leg: a call begins. It answers its number, counted from 0. It takes memory
    /// for the leg. An `Err` changes nothing.
    pub fn ring(&mut self, now: u64) -> Result<u32, RingFault>
        ensures rung { IfOk result (λ number. Advances self.old (Ring now number) self.new) }
        ensures busy { EachTrace self.old (λ setup writes trace. result ≡ Err RingFault.Busy
            ↔ (idle_after (calling_leg setup trace) ≡ false)) }
        ensures no_number { EachTrace self.old
            (λ setup writes trace. idle_after (calling_leg setup trace) ≡ true
            → result ≡ Err RingFault.NoNumber ↔ (4294967296 ≤ rings trace)) }
        ensures err { OnErr result (self.new ≡ self.old) }
        ensures refusals { self.new.refusals ≡ self.old.refusals }
    {
        if !self.calling.is_idle() {
            return Err(RingFault::Busy);
        }
        let number = next_number(self.rings)?;
        let mut clock = self.clock;
        self.calling
            .ring(number, self.settings.redundancy, clock.read(now))?;
        self.clock = clock;
        self.rings += 1;
        Ok(number)
    }

    /// A datagram came on the calling leg: the octets of it. It answers whether it decided a slot, which it does not where
    /// no call is on, where it cannot be read and where it is late. It takes memory only where it did, and where as much is held as
    /// may be, none for pages. An `Err` changes nothing, and is counted.
    pub fn from_calling(&mut self, octets: &[u8], now: u64) -> Result<bool, NoMemory>
        ensures heard { IfOk result
            (λ decided. AdvancesByHearing self.old octets.now now decided self.new) }
        ensures memory { EachTrace self.old (λ setup writes trace.
            decided_calling (calling_leg setup trace) octets.now ≡ false → result ≡ Ok false) }
        ensures err { OnErr result (self.new ≡ refusing self.old) }
        ensures refusals { self.new.refusals ≡ refusals_if (is_err result) self.old.refusals }
        ensures within { OnOk result (self.old.settings.memory ≤ octets_of_gateway self.old
            → octets_of_gateway self.new ≤ octets_of_gateway self.old) }
    {
        self.from_calling_watched(octets, now, &mut fax_answer::Unwatched)
    }

    /// The same, and a watcher is told of each piece that the datagram brings, but for lost slots, in the order of time: what it was
    /// taken as. After an `Err` it may have been told of some.
    pub fn from_calling_watched<W: fax_answer::Watcher>(
        &mut self,
        octets: &[u8],
        now: u64,
        watcher: &mut W,
    ) -> Result<bool, NoMemory>
        ensures heard { IfOk result (λ decided. AdvancesByHearingTold (answer_watching.Watches
            W.tells watcher.old watcher.new) self.old octets.now now decided self.new) }
        ensures memory { EachTrace self.old (λ setup writes trace.
            decided_calling (calling_leg setup trace) octets.now ≡ false → result ≡ Ok false) }
        ensures err { OnErr result (self.new ≡ refusing self.old) }
        ensures refusals { self.new.refusals ≡ refusals_if (is_err result) self.old.refusals }
        ensures within { OnOk result (self.old.settings.memory ≤ octets_of_gateway self.old
            → octets_of_gateway self.new ≤ octets_of_gateway self.old) }
    {
        let mut clock = self.clock;
        let now = clock.read(now);
        let was_idle = self.calling.is_idle();
        let most = u128::from(self.settings.memory).saturating_sub(self.jobs.held());
        let Ok(decided) = self.calling.hear(octets, now, most, watcher) else {
            return Err(self.refuse());
        };
        self.clock = clock;
        if has_ended(was_idle, self.calling.is_idle()) {
            self.jobs.end_call();
        }
        Ok(decided)
    }

    /// The same of a datagram that came on the called leg.
    pub fn from_called(&mut self, octets: &[u8], now: u64) -> Result<bool, NoMemory>
        ensures heard { IfOk result
            (λ decided. Advances self.old (FromCalled octets.now now decided) self.new) }
        ensures memory { EachTrace self.old (λ setup writes trace.
            decided_called writes (both_legs setup writes trace).leg octets.now ≡ false
            → result ≡ Ok false) }
        ensures err { OnErr result (self.new ≡ refusing self.old) }
        ensures refusals { self.new.refusals ≡ refusals_if (is_err result) self.old.refusals }
    {
        self.from_called_watched(octets, now, &mut fax_call::Unwatched)
    }

    /// The same, and a watcher is told of each piece that the datagram brings, but for lost slots, in the order of time: what it was
    /// taken as. After an `Err` it may have been told of some.
    pub fn from_called_watched<W: fax_call::Watcher>(
        &mut self,
        octets: &[u8],
        now: u64,
        watcher: &mut W,
    ) -> Result<bool, NoMemory>
        ensures heard { IfOk result
            (λ decided. Advances self.old (FromCalled octets.now now decided) self.new) }
        ensures told { OnOk result (OfCalledLeg self.old now
            (λ writes leg moment. call_watching.Watches
            W.tells watcher.old watcher.new (called_tellings writes leg moment octets.now))) }
        ensures memory { EachTrace self.old (λ setup writes trace.
            decided_called writes (both_legs setup writes trace).leg octets.now ≡ false
            → result ≡ Ok false) }
        ensures err { OnErr result (self.new ≡ refusing self.old) }
        ensures refusals { self.new.refusals ≡ refusals_if (is_err result) self.old.refusals }
    {
        let mut clock = self.clock;
        let Ok(decided) = self.called.hear(octets, clock.read(now), watcher) else {
            return Err(self.refuse());
        };
        self.clock = clock;
        Ok(decided)
    }

    /// Where the call of the calling leg stands, or the last one stood.
    pub fn calling_state(&self) -> fax_answer::State
        ensures { EachTrace self.now
            (λ setup writes trace. result ≡ calling_state (calling_leg setup trace)) }
    {
        self.calling.state()
    }

    /// The timer of the calling leg that acts in a tick at this moment, before it gives a packet. `None`: none does, as while a
    /// packet waits.
    pub fn calling_acting(&self, now: u64) -> Option<fax_answer::ActingTimer>
        ensures { OfCallingLeg self.now now (λ leg moment. result ≡ calling_acting leg moment) }
    {
        let mut clock = self.clock;
        self.calling.acting(clock.read(now))
    }

    /// Where the call of the called leg stands, or the last one stood.
    pub fn called_state(&self) -> fax_call::State
        ensures { EachTrace self.now (λ setup writes trace.
            result ≡ called_state writes (both_legs setup writes trace).leg) }
    {
        self.called.state()
    }

    /// The timer of the called leg that acts in a tick at this moment, before it gives a packet.
    pub fn called_acting(&self, now: u64) -> Option<fax_call::ActingTimer>
        ensures { OfCalledLeg self.now now
            (λ writes leg moment. result ≡ called_acting writes leg moment) }
    {
        let mut clock = self.clock;
        self.called.acting(clock.read(now))
    }

    /// The call of the job that is asked for is placed: the called machine has answered, and the job's call begins, with all its
    /// timers. The next tick gives the tone of a calling terminal. It takes memory for the leg. An `Err` changes nothing.
    pub fn connect(&mut self, now: u64) -> Result<(), PlaceFault>
        ensures placed { OnOk result (Advances self.old (Placed now true) self.new) }
        ensures not_asked { OfJobAsked self.old
            (λ job. result ≡ Err PlaceFault.NotAsked ↔ (job ≡ None)) }
        ensures err { OnErr result (self.new ≡ self.old) }
        ensures refusals { self.new.refusals ≡ self.old.refusals }
    {
        self.place(true, now)
    }

    /// The called machine of the job that is asked for could not be reached: its call is over as it begins, and the next tick
    /// reports the job as `NotPlaced`. It takes memory for the leg. An `Err` changes nothing.
    pub fn not_connected(&mut self, now: u64) -> Result<(), PlaceFault>
        ensures placed { OnOk result (Advances self.old (Placed now false) self.new) }
        ensures not_asked { OfJobAsked self.old
            (λ job. result ≡ Err PlaceFault.NotAsked ↔ (job ≡ None)) }
        ensures err { OnErr result (self.new ≡ self.old) }
        ensures refusals { self.new.refusals ≡ self.old.refusals }
    {
        self.place(false, now)
    }

    /// The call of the job that is asked for is placed, or could not be.
    fn place(&mut self, connected: bool, now: u64) -> Result<(), PlaceFault>
        ensures placed { OnOk result (Advances self.old (Placed now connected) self.new) }
        ensures not_asked { OfJobAsked self.old
            (λ job. result ≡ Err PlaceFault.NotAsked ↔ (job ≡ None)) }
        ensures err { OnErr result (self.new ≡ self.old) }
        ensures refusals { self.new.refusals ≡ self.old.refusals }
    {
        if self.job_asked().is_none() {
            return Err(PlaceFault::NotAsked);
        }
        let leg = Endpoint::with_room(self.alloc, self.settings.redundancy)?;
        self.begin_asked(connected, leg, now);
        Ok(())
    }

    /// The same with this leg, where a job's call is asked for. It takes no memory.
    fn begin_asked(&mut self, connected: bool, leg: Endpoint, now: u64)
        requires asked { IsSome (job_asked self.old.settings.asks self.old.book) }
        ensures placed { (setup : Setup) (writes : Writing) (trace : List Event)
            → IsLeg setup [] [] leg → IsReachedBy setup writes trace self.old
            → IsReachedBy setup writes (Placed now connected ∷ trace) self.new }
        ensures refusals { self.new.refusals ≡ self.old.refusals }
    {
        let moment = self.clock.read(now);
        self.jobs.next();
        match self.jobs.sending() {
            None => unreachable!(),
            Some(job) => self.called.place(job, connected, leg, moment),
        }
    }

    /// The job whose call is asked for.
    pub fn job_asked(&self) -> Option<&Job<S>>
        ensures { option_copied result ≡ job_asked self.now.settings.asks self.now.book }
    {
        if !self.settings.asks || self.jobs.sending().is_some() {
            return None;
        }
        self.jobs.first_waiting()
    }

    /// The number of the call whose job is asked for: it waits for its own call to be placed. `None`: none is, and where calls are
    /// not asked for none ever is.
    pub fn asked(&self) -> Option<u32>
        ensures asked { result ≡ call_asked (job_asked self.now.settings.asks self.now.book) }
        ensures told { OfJobAsked self.now (λ job. result ≡ call_asked job) }
    {
        let job = self.job_asked()?;
        Some(job.call())
    }

    /// Time goes on, on both legs. It answers what is given: on the calling leg the answerer's next datagram, whose
    /// page joins the book where it confirms one; on the called leg that of the job that is being sent, or of the one that
    /// was closed first where none is and calls are not asked for; and the report of a job whose call has ended, after which
    /// the next one waits for the next tick. It tells the page that it confirms, the one that it refuses and why, and the call of the calling leg that it
    /// gives up. Before the moment of `next_due` the clock is read, and nothing else is done. It takes memory for the datagrams,
    /// and for a page. An `Err` changes nothing but the memory that is reserved, and is counted.
    pub fn tick(&mut self, now: u64) -> Result<Given, NoMemory>
        ensures ticked { IfOk result
            (λ given. AdvancesByTick self.old now (given_shown given) self.new) }
        ensures confirmed { IfOk result
            (λ given. OfCallingLeg self.old now (λ leg moment. given.kept ≡ kept_at leg moment)) }
        ensures refused { IfOk result (λ given.
            OfCallingLeg self.old now (λ leg moment. IsRefusedAt leg moment given.refused)) }
        ensures given_up { IfOk result (λ given.
            OfCallingLeg self.old now (λ leg moment. given.gave_up ≡ given_up_at leg moment)) }
        ensures rests { EachTrace self.old (λ setup writes trace.
            is_due (due_at setup writes trace) (max now (clock trace)) ≡ false
            → (result ≡ Ok nothing_given)
            × (self.new ≡ record self.old { clock = max now self.old.clock })) }
        ensures err { OnErr result (alone self.new ≡ alone (refusing self.old)) }
        ensures kept { OnErr result (Remains self.old self.new) }
        ensures refusals { self.new.refusals ≡ refusals_if (is_err result) self.old.refusals }
    {
        match self.tick_if_due(now) {
            Ok(given) => Ok(given),
            Err(NoMemory) => Err(self.refuse()),
        }
    }

    /// The same, but that an `Err` is not counted.
    fn tick_if_due(&mut self, now: u64) -> Result<Given, NoMemory>
        ensures ticked { IfOk result
            (λ given. AdvancesByTick self.old now (given_shown given) self.new) }
        ensures confirmed { IfOk result
            (λ given. OfCallingLeg self.old now (λ leg moment. given.kept ≡ kept_at leg moment)) }
        ensures refused { IfOk result (λ given.
            OfCallingLeg self.old now (λ leg moment. IsRefusedAt leg moment given.refused)) }
        ensures given_up { IfOk result (λ given.
            OfCallingLeg self.old now (λ leg moment. given.gave_up ≡ given_up_at leg moment)) }
        ensures rests { EachTrace self.old (λ setup writes trace.
            is_due (due_at setup writes trace) (max now (clock trace)) ≡ false
            → (result ≡ Ok nothing_given)
            × (self.new ≡ record self.old { clock = max now self.old.clock })) }
        ensures err { OnErr result (alone self.new ≡ alone self.old) }
        ensures kept { OnErr result (Remains self.old self.new) }
        ensures refusals { self.new.refusals ≡ self.old.refusals }
    {
        let mut clock = self.clock;
        let at = clock.read(now);
        if !has_come(self.next_due(), at) {
            self.clock = clock;
            return Ok(Given::nothing());
        }
        self.reserve()?;
        if self.jobs.sending().is_some() {
            return self.tick_in_call(now);
        }
        if self.settings.asks {
            return Ok(self.tick_at_rest(now));
        }
        let leg = Endpoint::with_room(self.alloc, self.settings.redundancy)?;
        Ok(self.tick_between(leg, now))
    }

    /// The first moment at which a tick may give something or change more than the clock: an earlier one does neither. It is 0
    /// where a tick is to begin a job, and where a call is over whose end the book does not know yet. `None`: nothing is due until
    /// something comes.
    pub fn next_due(&self) -> Option<u64>
        ensures { EachTrace self.now (λ setup writes trace. result ≡ due_at setup writes trace) }
    {
        earlier(self.calling.next_due(), self.called_due())
    }

    /// The same of the called leg, and of the jobs that wait.
    fn called_due(&self) -> Option<u64>
        ensures { EachTrace self.now (λ setup writes trace. result ≡ called_due setup.asks writes
            (both_legs setup writes trace).leg (book_of (both_legs setup writes trace)).waiting) }
    {
        match self.jobs.sending() {
            Some(_) => self.called.next_due(),
            None if self.settings.asks => None,
            None => at_once(&self.jobs),
        }
    }

    /// Takes the memory of a tick, but for that of a packet of a call that is on on the called leg.
    fn reserve(&mut self) -> Result<(), NoMemory>
        ensures room { OnOk result (HasRoom self.new) }
        ensures reached { Remains self.old self.new }
        ensures same { alone self.new ≡ alone self.old }
        ensures refusals { self.new.refusals ≡ self.old.refusals }
    {
        self.calling.reserve()?;
        self.called.reserve()?;
        self.jobs.reserve()
    }

    /// A tick while a job is being sent. The called leg is served first: it alone can be refused memory, and what it gives
    /// does not depend on the calling leg. An `Err` changes nothing.
    fn tick_in_call(&mut self, now: u64) -> Result<Given, NoMemory>
        requires room { HasRoom self.old }
        requires sends { IsSome self.old.book.sending }
        ensures ticked { IfOk result
            (λ given. AdvancesByTick self.old now (given_shown given) self.new) }
        ensures confirmed { IfOk result
            (λ given. OfCallingLeg self.old now (λ leg moment. given.kept ≡ kept_at leg moment)) }
        ensures refused { IfOk result (λ given.
            OfCallingLeg self.old now (λ leg moment. IsRefusedAt leg moment given.refused)) }
        ensures given_up { IfOk result (λ given.
            OfCallingLeg self.old now (λ leg moment. given.gave_up ≡ given_up_at leg moment)) }
        ensures err { OnErr result (self.new ≡ self.old) }
        ensures refusals { self.new.refusals ≡ self.old.refusals }
    {
        let mut clock = self.clock;
        let moment = clock.read(now);
        let called = match self.jobs.sending() {
            None => unreachable!(),
            Some(job) => self.called.tick(job, moment)?,
        };
        self.clock = clock;
        let served = serve_calling(&mut self.calling, &mut self.jobs, moment);
        let report = end_job(&mut self.jobs, &self.called);
        Ok(Given {
            calling: served.packet,
            called,
            report,
            kept: served.kept,
            refused: served.refused,
            gave_up: served.gave_up,
        })
    }

    /// A tick while no job is being sent and calls are asked for: the calling leg alone is served. It takes no memory.
    fn tick_at_rest(&mut self, now: u64) -> Given
        requires room { HasRoom self.old }
        requires none { self.old.book.sending ≡ None }
        requires asks { self.old.settings.asks ≡ true }
        ensures ticked { Advances self.old (Tick now (given_shown result)) self.new }
        ensures confirmed { OfCallingLeg self.old now
            (λ leg moment. result.kept ≡ kept_at leg moment) }
        ensures refused { OfCallingLeg self.old now
            (λ leg moment. IsRefusedAt leg moment result.refused) }
        ensures given_up { OfCallingLeg self.old now
            (λ leg moment. result.gave_up ≡ given_up_at leg moment) }
        ensures refusals { self.new.refusals ≡ self.old.refusals }
    {
        let moment = self.clock.read(now);
        let served = serve_calling(&mut self.calling, &mut self.jobs, moment);
        Given {
            calling: served.packet,
            called: None,
            report: None,
            kept: served.kept,
            refused: served.refused,
            gave_up: served.gave_up,
        }
    }

    /// A tick while no job is being sent: where one waits, its call begins, with a leg of its own. It takes no memory.
    fn tick_between(&mut self, leg: Endpoint, now: u64) -> Given
        requires room { HasRoom self.old }
        requires none { self.old.book.sending ≡ None }
        requires asks { self.old.settings.asks ≡ false }
        requires datagram { most_octets < leg.sender.spare }
        ensures ticked { (setup : Setup) (writes : Writing) (trace : List Event)
            → IsWriting writes → IsLeg setup [] [] leg → IsReachedBy setup writes trace self.old
            → IsReachedBy setup writes (Tick now (given_shown result) ∷ trace) self.new }
        ensures confirmed { OfCallingLeg self.old now
            (λ leg moment. result.kept ≡ kept_at leg moment) }
        ensures refused { OfCallingLeg self.old now
            (λ leg moment. IsRefusedAt leg moment result.refused) }
        ensures given_up { OfCallingLeg self.old now
            (λ leg moment. result.gave_up ≡ given_up_at leg moment) }
        ensures refusals { self.new.refusals ≡ self.old.refusals }
    {
        let moment = self.clock.read(now);
        let served = serve_calling(&mut self.calling, &mut self.jobs, moment);
        self.jobs.next();
        let called = self.called.begin(&self.jobs, leg, moment);
        let report = end_job(&mut self.jobs, &self.called);
        Given {
            calling: served.packet,
            called,
            report,
            kept: served.kept,
            refused: served.refused,
            gave_up: served.gave_up,
        }
    }

    /// A datagram or a tick is refused for want of memory, and counted.
    fn refuse(&mut self) -> NoMemory
        ensures { self.new ≡ refusing self.old }
    {
        self.refusals = self.refusals.saturating_add(1);
        NoMemory
    }

    /// How many datagrams and ticks were refused for want of memory: each is counted as it is refused, up to 2^64 - 1.
    pub fn refusals(&self) -> u64
        ensures { result ≡ self.now.refusals }
    {
        self.refusals
    }

    /// The number of the call that is on on the calling leg.
    pub fn call(&self) -> Option<u32>
        ensures call { result ≡ call_of_rep self.now.calling }
        ensures told { EachTrace self.now
            (λ setup writes trace. result ≡ call_on (calling_leg setup trace)) }
    {
        self.calling.call()
    }

    /// The job that is being sent: its call is on on the called leg.
    pub fn sending(&self) -> Option<&Job<S>>
        ensures sending { option_copied result ≡ self.now.book.sending }
        ensures told { OfBook self.now (λ book. option_copied result ≡ book.sending) }
    {
        self.jobs.sending()
    }

    /// The page that was confirmed last, for as long as its job has not ended: after a tick that tells one in `kept`, that page.
    pub fn newest_page(&self) -> Option<&Page<S>>
        ensures newest { option_copied result ≡ newest_page self.now.book }
        ensures told { OfBook self.now (λ book. option_copied result ≡ newest_page book) }
    {
        self.jobs.newest_page()
    }

    /// How many jobs wait.
    pub fn waiting(&self) -> usize
        ensures waiting { result ≡ length self.now.book.waiting }
        ensures told { OfBook self.now (λ book. result ≡ length book.waiting) }
    {
        self.jobs.waiting()
    }

    /// Report i of those that are kept, counted from 0, the oldest.
    pub fn report(&self, i: usize) -> Option<Report>
        ensures report { result ≡ slice_get self.now.book.reports i }
        ensures told { OfBook self.now (λ book. result ≡ slice_get book.reports i) }
    {
        self.jobs.report(i)
    }
}

/// The number of the call that begins after so many: they are counted from 0, and the last is 4,294,967,295.
pub(crate) fn next_number(rings: u64) -> Result<u32, RingFault>
    ensures number { IfOk result (λ number. number ≡ rings) }
    ensures err { IfErr result (λ fault. (fault ≡ RingFault.NoNumber) × (4294967296 ≤ rings)) }
{
    u32::try_from(rings).map_err(|_| RingFault::NoNumber)
}

/// At once, which is moment 0, where jobs wait.
fn at_once<S: RowStore>(jobs: &Jobs<S>) -> Option<u64>
    ensures { result ≡ job_due false jobs.now.book.waiting }
{
    if jobs.waiting() == 0 { None } else { Some(0) }
}

/// Whether a moment has come, where there is one.
fn has_come(moment: Option<u64>, now: u64) -> bool
    ensures { result ≡ is_due moment now }
{
    moment.is_some_and(|moment| moment <= now)
}

/// Whether a call that was on has ended.
fn has_ended(was_idle: bool, is_idle: bool) -> bool
    ensures { result ≡ (not was_idle && is_idle) }
{
    !was_idle && is_idle
}

/// The book of the jobs of calls that are restored.
fn restored_jobs<S: RowStore>(
    alloc: Global,
    calls: Vec<RestoredCall<S>>,
) -> Result<Jobs<S>, NoMemory>
    ensures book { IfOk result
        (λ jobs. jobs.book ≡ restored_to new_book (map call_shown calls.items)) }
    ensures pages { OnOk result (ArePages (pages_restored (map call_shown calls.items))) }
{
    let mut book = Jobs::new(alloc)?;
    for call in calls {
        restore_call(&mut book, call)?;
    }
    Ok(book)
}

/// The book hears of the pages of a call that is restored, and of its end.
fn restore_call<S: RowStore>(book: &mut Jobs<S>, call: RestoredCall<S>) -> Result<(), NoMemory>
    ensures book { OnOk result (book.new.book ≡ closed
        (confirmed_all book.old.book call.number (map confirmation_shown call.confirmed.items))) }
    ensures pages { OnOk result
        (ArePages (pages_with call.number (map confirmation_shown call.confirmed.items))) }
{
    let RestoredCall { number, confirmed } = call;
    for found in confirmed {
        book.reserve()?;
        confirm(book, number, found);
    }
    book.end_call();
    Ok(())
}

/// What the calling leg was served in a tick: the datagram that is given, the page that is confirmed, the one that is refused,
/// and the call that is given up.
#[derive(Drop)]
struct Served {
    packet: Option<Octets>,
    kept: Option<Kept>,
    refused: Option<RefusedPage>,
    gave_up: Option<u32>,
}

/// Serves the calling leg in a tick, and the book hears of the page that is confirmed and of the call's end. The memory is
/// reserved.
fn serve_calling<S: RowStore>(
    calling: &mut AnswererEndpoint<S>,
    jobs: &mut Jobs<S>,
    now: u64,
) -> Served
    requires room { CallingHasRoom calling.old }
    requires page { 1 ≤ jobs.old.spare }
    ensures ticked { (setup : Setup) (leg : Option CallingLeg)
        → IsCalling setup leg calling.old → IsCalling setup (ticked_on leg now) calling.new }
    ensures told { (setup : Setup) (leg : Option CallingLeg)
        → IsCalling setup leg calling.old → result.packet ≡ told_calling setup leg now }
    ensures kept { (setup : Setup) (leg : Option CallingLeg) → IsCalling setup leg calling.old
        → result.kept ≡ kept_if calling.old.number (confirmed_on leg now) }
    ensures refused { (setup : Setup) (leg : Option CallingLeg)
        → IsCalling setup leg calling.old → Refuses leg now calling.old.number result.refused }
    ensures gave_up { (setup : Setup) (leg : Option CallingLeg) → IsCalling setup leg calling.old
        → result.gave_up ≡ call_if (ended_on leg now) calling.old.number }
    ensures heard { (setup : Setup) (leg : Option CallingLeg)
        → IsCalling setup leg calling.old → jobs.new.book ≡ closed_if (ended_on leg now)
        (confirmed_if calling.old.number (confirmed_on leg now) jobs.old.book) }
    ensures sending { jobs.new.book.sending ≡ jobs.old.book.sending }
{
    let number = calling.number();
    let step = calling.tick(now);
    let kept = kept_in(number, &step.confirmed);
    let refused = refused_in(number, step.refused);
    let gave_up = call_in(number, step.ended);
    hear(jobs, number, step.confirmed, step.ended);
    Served {
        packet: step.packet,
        kept,
        refused,
        gave_up,
    }
}

/// What is told of a page that is confirmed in the call of this number.
fn kept_in<S: RowStore>(call: u32, confirmed: &Option<Confirmed<S>>) -> Option<Kept>
    ensures { result ≡ kept_if call (confirmed_shown confirmed.now) }
{
    match confirmed {
        None => None,
        Some(found) => Some(Kept {
            call,
            format: found.page.format(),
            rows: found.page.rows().len(),
            closes: found.closes,
        }),
    }
}

/// What is told of a page that is refused in the call of this number.
fn refused_in(call: u32, why: Option<Refusal>) -> Option<RefusedPage>
    ensures { result ≡ refused_if call why }
{
    let why = why?;
    Some(RefusedPage { call, why })
}

/// The call of this number, where it ended.
fn call_in(call: u32, has_ended: bool) -> Option<u32>
    ensures { result ≡ call_if has_ended call }
{
    if has_ended { Some(call) } else { None }
}

/// The book hears of a page that was confirmed in the call of this number, and of the call's end. The memory is reserved.
fn hear<S: RowStore>(jobs: &mut Jobs<S>, number: u32, confirmed: Option<Confirmed<S>>, ended: bool)
    requires { 1 ≤ jobs.old.spare }
    ensures heard { jobs.new.book
        ≡ closed_if ended (confirmed_if number (confirmed_shown confirmed) jobs.old.book) }
    ensures sending { jobs.new.book.sending ≡ jobs.old.book.sending }
{
    if let Some(confirmed) = confirmed {
        confirm(jobs, number, confirmed);
    }
    if ended {
        jobs.end_call();
    }
}

/// The book hears of a page that was confirmed in the call of this number. The memory is reserved.
fn confirm<S: RowStore>(jobs: &mut Jobs<S>, number: u32, found: Confirmed<S>)
    requires { 1 ≤ jobs.old.spare }
    ensures confirmed { jobs.new.book ≡ confirmed jobs.old.book number found.page found.closes }
    ensures page { IsPage found.page }
{
    match jobs.confirm(number, found.page, found.closes) {
        Ok(()) => {}
        Err(_) => unreachable!(),
    }
}

/// Where a job is being sent and its call is over, it ends and is reported.
fn end_job<S: RowStore>(jobs: &mut Jobs<S>, called: &CallerEndpoint) -> Option<Report>
    ensures report { result ≡ report_if jobs.old.book.sending
        (outcome_of_rep called.now.caller.procedure) called.now.caller.procedure.counts.delivered }
    ensures ended { jobs.new.book ≡ ended_if jobs.old.book.sending (outcome_of_rep
        called.now.caller.procedure) called.now.caller.procedure.counts.delivered jobs.old.book }
    ensures served { IsServed jobs.old.book.sending called.now.caller.procedure
        → IsServed jobs.new.book.sending called.now.caller.procedure }
{
    let job = jobs.sending()?;
    let outcome = called.outcome()?;
    let report = report_of(job, outcome, called.delivered());
    jobs.end(outcome, report.delivered);
    Some(report)
}

/// What is told of a job that ended so.
fn report_of<S: RowStore>(job: &Job<S>, outcome: Outcome, delivered: u32) -> Report
    ensures { result ≡ report_of job.now outcome delivered }
{
    Report {
        call: job.call(),
        format: job.format(),
        pages: job.page_count(),
        delivered,
        outcome,
    }
}
