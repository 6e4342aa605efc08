//! The desk.
ghost use Rattle.std.specs.Prelude.{◌≡◌, ◌↔◌, ◌||◌, IsTrue, None, Some, is_some, length, not, option_map, slice_get};
ghost use Rattle.fax_desk.specs.Budgets.{has_memory, is_full_at};
ghost use Rattle.fax_desk.specs.Desks.{asked_cards, closed_at, connected_happened, desk_new, done_of, due_of, free_line, happened_of, heard_until, line_named, looked_at, looked_cards, name_at, next_any, next_at, next_named, next_ring, next_there, noted, noted_at, peer_next, question_at, refuse_next, step_of, stop_then, told_at, turned_at};
ghost use Rattle.fax_desk.specs.Said.{any_after, peer_said, unasked_if, waits_if};
ghost use Rattle.fax_desk.specs.Spools.{are_at_rest, end_of, failed_after, is_news, run_is_over};
ghost use Rattle.fax_desk.specs.Reloads.{is_asked, reload_after, reload_at, reload_next, takes_calls};
ghost use Rattle.fax_desk.specs.Stops.{stop_after, takes_rings};
ghost use Rattle.fax_desk.specs.Tags.{tag_of_text};

use crate::answer::{next_of, refuses, reply_to, ring_order};
use crate::budgets::{bounded, has_memory, is_full_at};
use crate::card::Card;
use crate::next::{Ask, HangUpAsk, Next, Note, Order, Reply, RingAsk};
use crate::questions::{HeardTime, Question};
use crate::reload::{Reload, reloads_now, takes_calls};
use crate::said::{
    any_after, bounds_of, first_free, peer_of, rung_happened, tag_said, unasked_if, waits_if,
};
use crate::spool::{Damage, RunEnd, SpoolFailure, end_of, failed_after, is_drained};
use crate::stop::Stop;
use crate::tag::Tag;
use crate::told::{LineEvent, Turn, TurnEvents};
use crate::view::{LineView, View};
use fax_clients::Asker;
use fax_control::{PeerWord, Refusal, RingWord, Word};
use fax_line::LineAnswer;

/// An order that was given and not told back, and who is answered by its end.
#[derive(Drop)]
pub struct Waits {
    pub asker: Option<Asker>,
    pub order: Order,
}

/// The end of an order: who is answered what, and what happened on its line.
#[derive(Drop)]
pub struct OrderEnd {
    pub asker: Option<Asker>,
    pub line: usize,
    pub reply: Reply,
    pub happened: Option<LineEvent>,
}

/// What a look at a line's question comes to.
#[derive(Clone, Copy)]
pub enum LookOutcome {
    Nothing,
    /// Clients are asked.
    Asks(LineEvent),
    /// Nobody answered in its time.
    Orders(Order),
}

/// The desk of a server.
pub struct Desk {
    /// The lines' names.
    pub names: Vec<String>,
    pub cards: Vec<Card>,
    pub stop: Stop,
    /// A stop takes so many milliseconds at most.
    pub stop_ms: u64,
    /// What the start found in the spool that cannot be read.
    pub damage: Damage,
    /// When the run ends since the spool has failed; none: it has not.
    pub failed: Option<SpoolFailure>,
    /// The time of questions, and whether a client hears events.
    pub time: HeardTime,
    pub is_heard: bool,
    /// The order that waits.
    pub waits: Option<Waits>,
    /// The line from which on any is looked for that can be rung.
    pub any_from: usize,
    /// How many octets all lines together may hold of pages. `None`: as many as each for itself.
    pub memory: Option<u64>,
    /// Whether the configuration is to be served as it was read again.
    pub reload: Reload,
}

impl Drop for Desk {
    fn drop(self) {
        let Desk {
            names: _names,
            cards: _cards,
            stop: _stop,
            stop_ms: _stop_ms,
            damage: _damage,
            failed: _failed,
            time: _time,
            is_heard: _is_heard,
            waits: _waits,
            any_from: _any_from,
            memory: _memory,
            reload: _reload,
        } = self;
    }
}

impl Desk {
    /// The desk of lines with these names, of which this is known.
    pub fn new(names: Vec<String>, cards: Vec<Card>, stop_ms: u64) -> Self
        ensures { result ≡ desk_new names cards stop_ms }
    {
        Desk {
            names,
            cards,
            stop: Stop::No,
            stop_ms,
            damage: Damage {
                records: 0,
                octets: 0,
            },
            failed: None,
            time: HeardTime::new(),
            is_heard: false,
            waits: None,
            any_from: 0,
            memory: None,
            reload: Reload::No,
        }
    }

    /// Whether no order waits.
    pub fn is_free(&self) -> bool
        ensures { IsTrue result ↔ (self.now.waits ≡ None) }
    {
        self.waits.is_none()
    }

    /// The line of this name.
    pub fn find(&self, name: &str) -> Option<usize>
        ensures { result ≡ line_named self.now.names.items name.now }
    {
        self.names.iter().position(|text| text.as_str() == name)
    }

    /// The name of line i.
    pub fn name(&self, i: usize) -> Option<&str>
        ensures { option_map (λ name. name.now) result ≡ name_at self.now.names.items i }
    {
        match self.names.get(i) {
            Some(text) => Some(text.as_str()),
            None => None,
        }
    }

    /// A word comes while no order waits. It is answered by this, or by what is told of the order that it gives.
    pub fn step<V: View>(&mut self, asker: Asker, word: Word<'_>, view: &V, now: u64) -> Next
        requires { self.old.waits ≡ None }
        ensures next { result ≡ step_of self.old (V.line view.now) (V.failed view.now) word.entry }
        ensures waits { self.new.waits ≡ waits_if asker result }
        ensures stop { self.new.stop ≡ stop_then word.entry now self.old.stop_ms self.old.stop }
        ensures any { self.new.any_from ≡ any_after self.old.any_from result }
        ensures same { self.new ≡ record self.old
            { waits = self.new.waits; stop = self.new.stop; any_from = self.new.any_from } }
    {
        let next = self.next(word, view);
        if let Word::Stop = word {
            self.stop(now);
        }
        self.any_from = any_after(self.any_from, next);
        self.waits = waits_if(asker, next);
        next
    }

    /// What a word comes to.
    fn next<V: View>(&self, word: Word<'_>, view: &V) -> Next
        ensures { result ≡ step_of self.now (V.line view.now) (V.failed view.now) word.entry }
    {
        match word {
            Word::Ring(ring) => self.ring(ring, view),
            Word::Peer(peer) => self.say_peer(peer, view),
            Word::HangUp(name, leg) => self.ask(name, Ask::HangUp(HangUpAsk { leg }), view),
            Word::Refuse(name, cause) => self.refuse(name, cause, view),
            Word::Report(name) => self.ask(name, Ask::Report, view),
            Word::Undelivered(_) => Next::Undelivered,
            Word::Discard(_) => Next::Discards,
            Word::Retry(_) => Next::Retries,
            Word::Status => Next::Status,
            Word::Metrics => Next::Metrics,
            Word::Events => Next::Events,
            Word::Frames(name) => self.ask(name, Ask::Frames, view),
            Word::Reload => self.ask_reload(view),
            Word::Stop => Next::Replies(Reply::Done),
        }
    }

    /// What it comes to that this is asked of the line of this name.
    fn ask<V: View>(&self, name: &str, ask: Ask, view: &V) -> Next
        ensures { result ≡ next_at self.now (V.line view.now) name.now ask }
    {
        let Some(i) = self.find(name) else {
            return refuses(Refusal::NoLine);
        };
        self.ask_at_line(i, ask, view)
    }

    /// The same of line i.
    fn ask_at_line<V: View>(&self, i: usize, ask: Ask, view: &V) -> Next
        ensures { result ≡ next_there self.now.cards.items i ask (V.line view.now i) }
    {
        match view.line(i) {
            Some(line) => next_of(self.question(i), i, line, ask),
            None => refuses(Refusal::NoLine),
        }
    }

    /// What it comes to that the configuration is to be read again.
    fn ask_reload<V: View>(&self, view: &V) -> Next
        ensures { result ≡ reload_next (takes_rings self.now.stop) (V.failed view.now) }
    {
        match (self.stop.takes_rings(), view.has_failed()) {
            (false, _) => refuses(Refusal::Stopping),
            (true, true) => refuses(Refusal::NoSpool),
            (true, false) => Next::Reloads,
        }
    }

    /// What a ring comes to.
    fn ring<V: View>(&self, ring: RingWord<'_>, view: &V) -> Next
        ensures { result ≡ next_ring self.now (V.line view.now) (V.failed view.now) (option_map
            (λ text. text.now) ring.entry.line) (option_map
            (λ text. text.now) ring.entry.tag) ring.entry.bounds }
    {
        if !self.takes_calls() {
            return refuses(Refusal::Stopping);
        }
        if view.has_failed() {
            return refuses(Refusal::NoSpool);
        }
        let Some(tag) = tag_said(ring.tag) else {
            return refuses(Refusal::NoWord);
        };
        let bounds = bounds_of(ring.bounds);
        match ring.line {
            Some(name) => self.ring_named(name, RingAsk { tag, bounds }, view),
            None => self.ring_any(RingAsk { tag, bounds }, view),
        }
    }

    /// What it comes to that the line of this name is to ring.
    fn ring_named<V: View>(&self, name: &str, ring: RingAsk, view: &V) -> Next
        ensures { result ≡ next_named self.now (V.line view.now) name.now ring }
    {
        match self.find(name) {
            Some(i) => {
                let to = self.ask_at_line(i, Ask::Ring(ring), view);
                bounded(self.memory, self.cards.as_slice(), view, i, to)
            }
            None => refuses(Refusal::NoLine),
        }
    }

    /// What it comes to that any line is to ring.
    fn ring_any<V: View>(&self, ring: RingAsk, view: &V) -> Next
        ensures { result ≡ next_any self.now (V.line view.now) ring }
    {
        match self.free_line(view) {
            Some(i) => {
                let note = Note::RingAny(ring.tag);
                let to = Next::Orders(ring_order(i, true, ring.bounds, note));
                bounded(self.memory, self.cards.as_slice(), view, i, to)
            }
            None => refuses(Refusal::Busy),
        }
    }

    /// The first line that can be rung without its peer, from the one after that which was taken last.
    fn free_line<V: View>(&self, view: &V) -> Option<usize>
        ensures { result ≡ free_line self.now.cards.items
            self.now.any_from (length self.now.names.items) (V.line view.now) }
    {
        let cards = self.cards.as_slice();
        match first_free(cards, view, self.any_from, self.names.len()) {
            Some(i) => Some(i),
            None => first_free(cards, view, 0, self.any_from),
        }
    }

    /// Whether as many pages of line i wait as may.
    pub fn is_full(&self, i: usize) -> bool
        ensures { result ≡ is_full_at self.now.cards.items i }
    {
        is_full_at(self.cards.as_slice(), i)
    }

    /// Whether there is memory for a call on line i beside what all others may come to hold.
    pub fn has_memory<V: View>(&self, i: usize, view: &V) -> bool
        ensures { result ≡ has_memory self.now.memory self.now.cards.items (V.line view.now) i }
    {
        has_memory(self.memory, self.cards.as_slice(), view, i)
    }

    /// What it comes to that the peer of a leg is said.
    fn say_peer<V: View>(&self, peer: PeerWord<'_>, view: &V) -> Next
        ensures { result ≡ peer_next self.now (V.line view.now) peer.entry.line.now
            (peer_said peer.entry.leg peer.entry.address peer.entry.bounds peer.entry.is_moved) }
    {
        match peer_of(peer) {
            Some(ask) => self.ask(peer.line, Ask::Peer(ask), view),
            None => refuses(Refusal::NoWord),
        }
    }

    /// What it comes to that the called machine of a line could not be reached, for this cause.
    fn refuse<V: View>(&self, name: &str, cause: &str, view: &V) -> Next
        ensures { result ≡ refuse_next self.now (V.line view.now) name.now (tag_of_text cause.now) }
    {
        match Tag::of(cause) {
            Some(cause) => self.ask(name, Ask::Refuse(cause), view),
            None => refuses(Refusal::NoWord),
        }
    }

    /// The question of line i that is open.
    fn question(&self, i: usize) -> Option<Question>
        ensures { result ≡ question_at self.now.cards.items i }
    {
        match self.cards.get(i) {
            Some(card) => card.question,
            None => None,
        }
    }

    /// The line answered this to the order that waits, or there is no such line. It answers who is answered what, and what happened.
    pub fn done(&mut self, answered: Option<LineAnswer>) -> Option<OrderEnd>
        ensures done { result ≡ done_of self.old.cards.items self.old.waits answered }
        ensures cards { self.new.cards.items ≡ noted self.old.cards.items self.old.waits answered }
        ensures same { self.new ≡ record self.old { waits = None; cards = self.new.cards } }
    {
        let Some(waits) = self.waits.take() else {
            return None;
        };
        let Waits { asker, order } = waits;
        let happened = self.happened(order, answered);
        self.note(order, answered);
        Some(OrderEnd {
            asker,
            line: order.line,
            reply: reply_to(order, answered),
            happened,
        })
    }

    /// What happened where a line answered this to an order: a call was rung, or the call of a job began.
    fn happened(&self, order: Order, answered: Option<LineAnswer>) -> Option<LineEvent>
        ensures { result ≡ happened_of self.now.cards.items order answered }
    {
        match answered {
            Some(LineAnswer::Rung(Ok(call))) => rung_happened(order.note, call),
            Some(LineAnswer::Placed(Ok(()))) => self.connected(order),
            _ => None,
        }
    }

    /// The same where the call of a job was placed, or could not be.
    fn connected(&self, order: Order) -> Option<LineEvent>
        ensures { result
            ≡ connected_happened (slice_get self.now.cards.items order.line) order.note }
    {
        let Note::Connect(job) = order.note else {
            return None;
        };
        match self.cards.get(order.line) {
            Some(card) => Some(LineEvent::Connected(card.tagged_job(job.first, job.call))),
            None => None,
        }
    }

    /// The card of the order's line notes what that answered.
    fn note(&mut self, order: Order, answered: Option<LineAnswer>)
        ensures cards { self.new.cards.items ≡ noted_at self.old.cards.items order answered }
        ensures same { self.new ≡ record self.old { cards = self.new.cards } }
    {
        let i = order.line;
        if i < self.cards.len() {
            self.cards[i].note(order, answered);
        }
    }

    /// Line i had a turn. It answers what is told of that.
    pub fn turn(&mut self, i: usize, turn: Turn) -> Option<TurnEvents>
        ensures told { result ≡ told_at self.old.cards.items i turn }
        ensures cards { self.new.cards.items ≡ turned_at self.old.cards.items i turn }
        ensures same { self.new ≡ record self.old { cards = self.new.cards } }
    {
        if i < self.cards.len() {
            Some(self.cards[i].turn(turn))
        } else {
            None
        }
    }

    /// Time goes on to this moment, and a client hears events meanwhile, or none does.
    pub fn go_on(&mut self, now: u64, is_heard: bool)
        ensures { self.new ≡ record self.old
            { time = heard_until now is_heard self.old.time; is_heard = is_heard } }
    {
        self.time.go_on(now, is_heard);
        self.is_heard = is_heard;
    }

    /// Whether the question of line i is to be looked at: its time is over, or none is open where the line asks for a call.
    pub fn is_due(&self, i: usize, asks: bool) -> bool
        ensures { result ≡ due_of (question_at self.now.cards.items i) self.now.time.heard asks }
    {
        match self.question(i) {
            Some(question) => question.is_over(self.time.heard()),
            None => asks,
        }
    }

    /// The question of line i, which is so, is looked at, while no order waits: clients are asked where one hears events, a question
    /// whose time is over is refused, and one of a call that is asked for no more is closed.
    pub fn look(&mut self, i: usize, line: LineView) -> LookOutcome
        requires { self.old.waits ≡ None }
        ensures looked { result ≡ looked_at self.old i line }
        ensures cards { self.new.cards.items ≡ looked_cards self.old i line }
        ensures waits { self.new.waits ≡ unasked_if result }
        ensures same { self.new
            ≡ record self.old { cards = self.new.cards; waits = self.new.waits } }
    {
        if i < self.cards.len() {
            let looked = self.cards[i].look(i, line, self.time.heard, self.is_heard);
            self.waits = unasked_if(looked);
            looked
        } else {
            LookOutcome::Nothing
        }
    }

    /// The question of line i is open from now on, where the line asks for a call, since a client is told what is on.
    pub fn ask_at(&mut self, i: usize, line: LineView)
        ensures cards { self.new.cards.items
            ≡ asked_cards self.old.cards.items self.old.time.heard i line }
        ensures same { self.new ≡ record self.old { cards = self.new.cards } }
    {
        if i < self.cards.len() {
            self.cards[i].ask_if(line, self.time.heard);
        }
    }

    /// It is asked to stop.
    pub fn stop(&mut self, now: u64)
        ensures { self.new
            ≡ record self.old { stop = stop_after self.old.stop now self.old.stop_ms } }
    {
        self.stop = self.stop.asked(now, self.stop_ms);
    }

    /// Whether it was asked to stop.
    pub fn is_stopping(&self) -> bool
        ensures { result ≡ not (takes_rings self.now.stop) }
    {
        !self.stop.takes_rings()
    }

    /// Whether lines take calls: it was not asked to stop, and another run that is to serve them has not to wait for them any more.
    pub fn takes_calls(&self) -> bool
        ensures { result ≡ takes_calls self.now.stop self.now.reload }
    {
        takes_calls(self.stop, self.reload)
    }

    /// The configuration was read again, and is to be served by another run, once no line has a call. Lines take calls for as long as a stop
    /// takes.
    pub fn reload(&mut self, now: u64)
        ensures { self.new
            ≡ record self.old { reload = reload_after self.old.reload now self.old.stop_ms } }
    {
        self.reload = self.reload.asked(now, self.stop_ms);
    }

    /// At this moment lines may have to take no call any more, since another run is to serve them.
    pub fn close_when_due(&mut self, now: u64)
        ensures { self.new ≡ record self.old { reload = reload_at self.old.reload now } }
    {
        self.reload = self.reload.at(now);
    }

    /// Line i takes no call any more.
    pub fn close_line(&mut self, i: usize)
        ensures cards { self.new.cards.items ≡ closed_at self.old.cards.items i }
        ensures same { self.new ≡ record self.old { cards = self.new.cards } }
    {
        if i < self.cards.len() {
            self.cards[i].close();
        }
    }

    /// Whether the run is to end: it was asked to stop, or another run is to serve the configuration.
    pub fn is_ending(&self) -> bool
        ensures { result ≡ (not (takes_rings self.now.stop) || is_asked self.now.reload) }
    {
        !self.stop.takes_rings() || self.reload.is_asked()
    }

    /// This was found in the spool, as it was opened.
    pub fn set_damage(&mut self, damage: Damage)
        ensures { self.new ≡ record self.old { damage = damage } }
    {
        self.damage = damage;
    }

    /// At this moment the spool has failed, or not. It answers whether that is news.
    pub fn see_spool(&mut self, has_failed: bool, now: u64) -> bool
        ensures news { result ≡ is_news self.old.failed has_failed }
        ensures failed { self.new ≡ record self.old
            { failed = failed_after self.old.failed has_failed now self.old.stop_ms } }
    {
        let is_news = self.failed.is_none() && has_failed;
        self.failed = failed_after(self.failed, has_failed, now, self.stop_ms);
        is_news
    }

    /// Whether the spool has failed, as far as was seen.
    pub fn has_failed(&self) -> bool
        ensures { result ≡ is_some self.now.failed }
    {
        self.failed.is_some()
    }

    /// Whether the run is over at this moment, where no line has a call or a job, or one has; and no line a call, or one has.
    pub fn is_over(&self, now: u64, are_idle: bool, are_calm: bool) -> bool
        ensures { result
            ≡ run_is_over self.now.stop self.now.failed self.now.reload now are_idle are_calm }
    {
        if self.stop.takes_rings() {
            is_drained(self.failed, now, are_calm)
                || reloads_now(self.failed, self.reload, are_calm)
        } else {
            self.stop.is_over(now, self.are_at_rest(are_idle, are_calm))
        }
    }

    /// Whether what a stop waits for is so: no line has a call or a job, and where the spool has failed, no line a call.
    fn are_at_rest(&self, are_idle: bool, are_calm: bool) -> bool
        ensures { result ≡ are_at_rest self.now.failed are_idle are_calm }
    {
        if self.failed.is_some() {
            are_calm
        } else {
            are_idle
        }
    }

    /// How the run ends, once it is over.
    pub fn end(&self) -> RunEnd
        ensures { result ≡ end_of self.now.stop self.now.failed self.now.reload }
    {
        end_of(self.stop, self.failed, self.reload)
    }
}
