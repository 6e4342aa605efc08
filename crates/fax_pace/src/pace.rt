//! What gives the orders: the clock, and those who say words.
ghost use Rattle.std.specs.Prelude.{◌≡◌, [], IfOk, None, Some};
ghost use Rattle.fax_runs.specs.Desking.{GivesOrder, given_by};

mod held;
mod sip;
mod turning;
mod visits;
mod words;

use self::held::{drop_all_beyond, hold_slot};
use self::sip::{BETWEEN_FINISHING_MS, FINISHING_MS, tell_of_sip, turn_redials};
use crate::aside::{tell_pages_aside, tell_torn_pages};
use crate::calls_on::calls_if;
use crate::ladders::Ladders;
use crate::redial_side::RedialSide;
use crate::retries::{Beside, Retries};
use crate::rounds::Rounds;
use crate::seen::{SeenLines, are_calm, are_idle};
use crate::sip_side::SipSide;
use crate::storing::{set_causes, set_tags};
use crate::telling::Teller;
use crate::view::{Seen, has_failed};
use crate::visiting::Visiting;
use crate::waking::Waking;
use crate::watch::Watch;
use fax_clients::{Asker, Clients};
use fax_control::{Answer, Refusal};
use fax_desk::{Damage, Desk, RunEnd};
use fax_gateway::Settings;
use fax_http::visitors::Visitors;
use fax_line::{LineAnswer, Lines, Order, Pace, PutResult};
use fax_opening::{SocketWire, Stopwatch};
use fax_queue::Queue;
use fax_spool::{CallName, WaitingPage};
use fax_undelivered::PairedStore;
use fax_undelivered::held::HeldPages;
use sqlite_disk::Disk;
use std::alloc::{AllocError, Global};
use std::marker::Model;
use std::rt::Clock;

/// The most words and wake-ups between two turns.
const MOST_WAKES: u32 = 100_000;

/// The most looks at SIP as the server ends.
const MOST_FINISHING: u32 = 10_000;

/// The clock and the clients, the desk at which their words come in, and what stands beside it.
pub struct RealPace<'a, C: Clock, R: RedialSide + Drop, S: SipSide + Drop> {
    alloc: Global,
    clock: Stopwatch<'a, C>,
    rounds: Rounds,
    desk: Desk,
    waking: Waking,
    teller: Teller,
    /// When pages of lines were handed to the spool, in microseconds, where that is to be told.
    put_from: Option<u64>,
    visiting: Visiting,
    /// SIP, where that is configured.
    sip: Option<S>,
    /// The redial lines, and words about calls.
    retries: Retries<R>,
    /// What keeps pages in memory, where there is no spool.
    held: Option<HeldPages>,
    /// The ladders of lines that are watched.
    ladders: Ladders,
    /// The client that asked that the configuration is read again.
    reloader: Option<Asker>,
}

impl<C: Clock, R: RedialSide + Drop, S: SipSide + Drop> Drop for RealPace<'_, C, R, S> {
    fn drop(self) {
        let RealPace {
            alloc: _alloc,
            clock: _clock,
            rounds: _rounds,
            desk: _desk,
            waking: _waking,
            teller: _teller,
            put_from: _put_from,
            visiting: _visiting,
            sip: _sip,
            retries: _retries,
            held: _held,
            ladders: _ladders,
            reloader: _reloader,
        } = self;
    }
}

/// Contracts see what the desk waits to be told of.
impl<'a, C: Clock, R: RedialSide + Drop, S: SipSide + Drop> Model for RealPace<'a, C, R, S> {
    ghost use Rattle.fax_runs.specs.Desking.{PaceValue};

    ghost Value = { PaceValue };

    ghost view = { λ p. record { waits = p.desk.waits } };
}

impl<'a, C: Clock, R: RedialSide + Drop, S: SipSide + Drop> RealPace<'a, C, R, S> {
    /// The time begins now, and nothing was ordered of so many lines, whose gateways have these settings, and whose legs are watched so, or
    /// not. The spool has failed so often in runs before this one.
    pub fn new(
        alloc: Global,
        clock: Stopwatch<'a, C>,
        clients: Clients,
        desk: Desk,
        lines: usize,
        settings: Vec<Settings>,
        watch: Option<Watch>,
        visitors: Option<Visitors>,
        sip: Option<S>,
        redials: R,
        held: Option<HeldPages>,
        spool_failures: u64,
    ) -> Result<Self, AllocError>
        requires { desk.waits ≡ None }
        ensures { IfOk result (λ pace. pace.waits ≡ None) }
    {
        let teller = Teller::new(alloc, clients, lines, spool_failures, sip.is_some())?;
        let waking = Waking::new(alloc, watch, lines)?;
        Ok(RealPace {
            alloc,
            clock,
            rounds: Rounds::new(),
            desk,
            waking,
            teller,
            put_from: None,
            visiting: Visiting::new(visitors),
            sip,
            retries: Retries::new(alloc, redials),
            held,
            ladders: Ladders::new(alloc, settings),
            reloader: None,
        })
    }

    /// Tells what the spool was found to hold that is not sent: this damage; and of the pages that waited those of calls that lack one,
    /// those of lines that are not served, and those whose texts mean none. It is kept for those who come later.
    pub fn tell_aside(
        &mut self,
        damage: Damage,
        pages: &[WaitingPage],
        torn: &[CallName],
        queues: &[Queue],
    )
        ensures { self.new ≡ self.old }
    {
        self.desk.set_damage(damage);
        self.teller.tell_damage(damage);
        tell_pages_aside(&mut self.teller, &self.desk, pages, torn, queues);
    }

    /// Tells the pages of these that could not be delivered whose calls lack a page: such a job is tried again by a word alone.
    pub fn tell_undelivered_aside(
        &mut self,
        pages: &[WaitingPage],
        torn: &[CallName],
    ) -> Result<(), AllocError>
        ensures { self.new ≡ self.old }
    {
        tell_torn_pages(&mut self.teller, pages, torn);
        self.retries.redials.leave(torn)
    }

    /// Reads the clock. Where it does not tell, the moment is the one before.
    fn read_clock(&mut self)
        ensures { self.new ≡ self.old }
    {
        if let Some(now) = self.clock.now() {
            self.rounds.now = now;
        }
        self.desk.go_on(self.rounds.now, self.teller.tell_events());
        self.desk.close_when_due(self.rounds.now);
    }

    /// Whether the server was told to stop.
    pub fn is_stopping(&self) -> bool {
        self.desk.is_stopping()
    }

    /// The client that asked that the configuration is read again, where one did since this was asked last.
    pub fn take_reload(&mut self) -> Option<Asker>
        ensures { self.new ≡ self.old }
    {
        self.reloader.take()
    }

    /// The configuration was read again for this client: another run is to serve it, in which these lines, counted from 0, are not, or not so.
    /// They take no call any more. `None`: none can.
    pub fn reload(&mut self, asker: Asker, gone: Option<&[usize]>)
        ensures { self.new ≡ self.old }
    {
        match gone {
            Some(gone) => {
                close_lines(&mut self.desk, gone);
                self.desk.reload(self.rounds.now);
                self.teller.answer(asker, Answer::Done);
            }
            None => self
                .teller
                .answer(asker, Answer::Refused(Refusal::NoReload)),
        }
    }

    /// Whether the run ends.
    fn is_over<L: SeenLines>(&mut self, seen: &L) -> bool
        ensures { self.new ≡ self.old }
    {
        let now = self.rounds.now;
        if !self.desk.is_stopping() && self.teller.have_ended() {
            self.desk.stop(now);
        }
        let may_end = self.desk.is_ending() || self.desk.has_failed();
        if !may_end {
            return false;
        }
        let are_idle = are_idle(seen) && self.retries.redials.are_idle();
        let are_calm = are_calm(seen) && self.retries.redials.are_calm();
        self.desk.is_over(now, are_idle, are_calm)
    }

    /// Looks whether the spool has failed, and tells that once.
    fn look_at_spool(&mut self, has_failed: bool)
        ensures { self.new ≡ self.old }
    {
        if self.desk.see_spool(has_failed, self.rounds.now) {
            self.teller.tell_spool_failed(self.rounds.now);
        }
    }

    /// What clients order until the next turn is due. It answers the first order of theirs.
    fn hear_words<L: SeenLines>(&mut self, seen: &L) -> Option<Order>
        requires { self.old.waits ≡ None }
        ensures { GivesOrder result self.old self.new }
    {
        for _ in 0..MOST_WAKES {
            let are_idle = self.retries.redials.are_idle();
            let most = self.rounds.most_waited(are_idle, seen);
            if self.rounds.asks_clients()
                && let Some(order) = self.wait(most, seen)
            {
                return Some(order);
            }
            if self.rounds.left() == 0 || self.is_over(seen) {
                return None;
            }
        }
        None
    }

    /// The turn of the next slot, after the lines that are to be woken.
    fn turn_or_wake<L: SeenLines>(&mut self, seen: &L) -> Order
        ensures same { self.new ≡ self.old }
        ensures no_ask { given_by (Some result) ≡ [] }
    {
        match self.waking.woken.pop() {
            Some(line) => Order::Wake { line },
            None => Order::Turn {
                now: self.begin_turn(seen.slot()),
            },
        }
    }

    /// The turn of a slot begins, and redial lines have theirs. It answers its moment.
    fn begin_turn(&mut self, slot: usize) -> u64
        ensures { self.new ≡ self.old }
    {
        let begun = self.rounds.begin(slot);
        if begun.is_late {
            let name = self.desk.name(slot);
            self.teller.tell_late(&mut self.rounds, name, begun.late);
        }
        let first = self.desk.cards.len();
        let now = self.rounds.now;
        let redials = &mut self.retries.redials;
        turn_redials(
            &mut self.sip,
            redials,
            &mut self.teller,
            first,
            now,
            begun.moment,
        );
        begun.moment
    }

    /// What is to be done next, where nothing waits at the desk.
    fn next_order<L: SeenLines>(&mut self, seen: &L) -> Option<Order>
        requires { self.old.waits ≡ None }
        ensures { GivesOrder result self.old self.new }
    {
        if let Some(order) = self.look_at_questions(seen) {
            return Some(order);
        }
        if self.rounds.has_looked {
            return Some(self.turn_or_wake(seen));
        }
        self.read_clock();
        if self.is_over(seen) {
            return None;
        }
        if let Some(order) = self.hear_words(seen) {
            return Some(order);
        }
        if self.is_over(seen) {
            return None;
        }
        self.rounds.has_looked = true;
        self.waking.look(seen);
        Some(self.turn_or_wake(seen))
    }

    /// This is ordered, which the ladders of lines are to know.
    fn note_order(&mut self, order: Option<Order>)
        ensures { self.new ≡ self.old }
    {
        self.ladders.note(order);
    }

    /// What a line answered to what was asked of it is played on its ladder, where it is watched.
    fn play_done(&mut self, line: usize, answer: Option<LineAnswer>)
        ensures { self.new ≡ self.old }
    {
        if let Some(name) = self.desk.name(line) {
            self.ladders.done(line, name, answer, &mut self.teller);
        }
    }

    /// Writes what clients are still to be told, for a while. It answers how the run ends.
    pub fn finish(&mut self) -> RunEnd {
        self.finish_sip();
        self.teller.finish();
        self.desk.end()
    }

    /// The server has stopped: SIP ends all calls and registrations, and has a while for it.
    fn finish_sip(&mut self) {
        let Some(sip) = &mut self.sip else {
            return;
        };
        let until = self.rounds.now.saturating_add(FINISHING_MS);
        sip.end_all(self.rounds.now);
        for _ in 0..MOST_FINISHING {
            if let Some(now) = self.clock.now() {
                self.rounds.now = now;
            }
            sip.look(self.rounds.now);
            if sip.is_settled() || self.rounds.now >= until {
                break;
            }
            self.teller.wait(BETWEEN_FINISHING_MS);
        }
        tell_of_sip(sip, &mut self.teller, self.rounds.now);
    }

    /// The pages of the slot whose turn was ordered are held in memory, where there is no spool, and its jobs that ended are told of.
    fn hold_turned<L: SeenLines>(&mut self, seen: &L)
        ensures { self.new ≡ self.old }
    {
        if let Some(slot) = self.rounds.turned
            && let Some(held) = &mut self.held
        {
            let day = self.clock.day().unwrap_or(0);
            hold_slot(self.alloc, held, &self.desk, day, slot, seen);
        }
    }

    /// Of pages that are kept in memory: tells what could not be delivered since that was told last, does what words named, notes tries and
    /// begins others, and drops what is more than is kept.
    fn see_held<L: SeenLines>(&mut self, seen: &L)
        ensures { self.new ≡ self.old }
    {
        if let Some(held) = &mut self.held {
            held.mend();
            let may_begin = self.retries.may_begin(self.rounds.now);
            let on = calls_if(may_begin, self.alloc, seen);
            let beside = Beside {
                queues: held.queues.as_slice(),
                on: on.as_ref(),
                has_failed: false,
                is_stopping: self.desk.is_ending(),
                refusal: Refusal::NoMemory,
                now: self.rounds.now,
                day: self.clock.day(),
            };
            let (now, may_read) = (beside.now, !beside.is_stopping);
            self.retries
                .see_kept(&mut held.undelivered, beside, &mut self.teller);
            self.visiting
                .show_picture(self.alloc, now, &mut held.undelivered, may_read);
            let teller = &mut self.teller;
            drop_all_beyond(
                self.alloc,
                &mut held.undelivered,
                &self.retries,
                teller,
                now,
            );
        }
    }

    /// The same of pages that are kept on a disk, but that none is dropped, by this second since 1970.
    fn see_stored<L: SeenLines, D: Disk, U: Disk>(
        &mut self,
        day: Option<u64>,
        store: &mut PairedStore<D, U>,
        seen: &L,
    )
        ensures same { self.new ≡ self.old }
        ensures storage { store.new.storage ≡ store.old.storage }
    {
        let may_begin = self.retries.may_begin(self.rounds.now);
        let on = calls_if(may_begin, self.alloc, seen);
        if let Some(kept) = &mut store.undelivered {
            let beside = Beside {
                queues: store.storage.queues(),
                on: on.as_ref(),
                has_failed: store.storage.refuses(),
                is_stopping: self.desk.is_ending(),
                refusal: Refusal::NoSpool,
                now: self.rounds.now,
                day,
            };
            self.retries.see_kept(kept, beside, &mut self.teller);
            let may_read = !beside.is_stopping && !beside.has_failed;
            self.visiting
                .show_picture(self.alloc, beside.now, kept, may_read);
        }
    }
}

/// These lines take no call any more.
fn close_lines(desk: &mut Desk, lines: &[usize])
    ensures { desk.new.waits ≡ desk.old.waits }
{
    for i in lines {
        desk.close_line(*i);
    }
}

impl<
    'a,
    C: Clock,
    R: RedialSide + Drop,
    S: SipSide + Drop,
    W: SocketWire + Drop,
    D: Disk,
    U: Disk,
> Pace<W, PairedStore<D, U>> for RealPace<'a, C, R, S> {
    ghost use Rattle.std.specs.Prelude.{None};
    ghost use Rattle.fax_runs.specs.Desking.{GivesOrder, Hears, SeesNothing};

    ghost words = { λ _. None };

    ghost gives = { λ order old new. GivesOrder order old new };

    ghost hears = { λ line answer old new. Hears answer old new };

    ghost sees = { λ old new. SeesNothing old new };

    fn next(&mut self, lines: &Lines<W>, store: Option<&PairedStore<D, U>>) -> Option<Order> {
        if !self.desk.is_free() {
            self.tell_done(None);
        }
        let seen = Seen { lines, store };
        self.look_at_spool(has_failed(store));
        let order = self.next_order(&seen);
        self.note_order(order);
        order
    }

    fn before_put(&mut self, lines: &Lines<W>, store: &mut PairedStore<D, U>) {
        self.waking.begin_put();
        store.begin_put();
        let day = self.clock.day();
        let seen = Seen::<W, D, U> { lines, store: None };
        self.see_stored(day, store, &seen);
        set_causes(store, day, &self.desk, &seen);
        if set_tags(store, &self.desk, &seen) {
            self.put_from = Some(self.clock.micros().unwrap_or(0));
        }
    }

    fn after_put(&mut self, lines: &Lines<W>, end: &PutResult) {
        if let Some(before) = self.put_from.take() {
            let after = self.clock.micros().unwrap_or(0);
            self.teller.count_put(after.saturating_sub(before));
            let seen = Seen::<W, D, U> { lines, store: None };
            self.waking.note_lost(end, &seen);
        }
    }

    fn turned(&mut self, lines: &Lines<W>, store: Option<&PairedStore<D, U>>) {
        let seen = Seen { lines, store };
        self.read_clock();
        self.hold_turned(&seen);
        self.tell_turned(&seen);
        self.see_held(&seen);
    }

    fn stored(&mut self, lines: &Lines<W>, store: &PairedStore<D, U>) {
        let store = Some(store);
        let seen = Seen { lines, store };
        self.read_clock();
        self.tell_stored(&seen);
    }

    fn done(&mut self, line: usize, answer: Option<LineAnswer>) {
        let _ = self.waking.woken.push(line);
        self.tell_done(answer);
        self.play_done(line, answer);
    }
}
