//! What clients and SIP say: each word comes in at the desk, which says what it comes to.
ghost use Rattle.std.specs.Prelude.{◌≡◌, [], ◌∷◌, None, Some};
ghost use Rattle.fax_runs.specs.Desking.{GivesOrder, Hears, asked_by, given_by};

use super::RealPace;
use super::sip::{
    answer_sip, goes_first, is_placed, most_between_sip, next_said, say_of_redial, serve_sip,
    tell_sip,
};
use super::visits::{calls_in, metrics};
use crate::answers::{
    answer_text, put_lines, put_redial_states, put_redials, put_spool_status, put_states,
    report_text,
};
use crate::redial_side::RedialSide;
use crate::seen::SeenLines;
use crate::sip_side::SipSide;
use crate::undelivered::undelivered_text;
use fax_bits::NoMemory;
use fax_clients::Asker;
use fax_control::{Answer, HeardLine, Refusal, Word, read_word};
use fax_desk::{Desk, LineView, LookOutcome, Next, Order as DeskOrder, OrderEnd, Reply, tell_at};
use fax_line::{LineAnswer, Order};
use fax_sip_service::Said;
use std::rt::Clock;

/// The most words that SIP says at a look.
const MOST_WORDS: u32 = 64;

impl<'a, C: Clock, R: RedialSide + Drop, S: SipSide + Drop> RealPace<'a, C, R, S> {
    /// Waits for a word, for so many milliseconds at most. It answers what the word orders of a line.
    pub(super) fn wait<L: SeenLines>(&mut self, most: u64, seen: &L) -> Option<Order>
        requires { self.old.waits ≡ None }
        ensures { GivesOrder result self.old self.new }
    {
        self.go_on(most, seen);
        if let Some(order) = self.say_for_sip(seen) {
            return Some(order);
        }
        if self.retries.is_said() || self.reloader.is_some() {
            return None;
        }
        let (asker, heard) = self.teller.hear()?;
        self.hear_line(asker, heard, seen)
    }

    /// Waits for so many milliseconds at most, and goes on with those who look over HTTP, and with SIP.
    fn go_on<L: SeenLines>(&mut self, most: u64, seen: &L)
        ensures { self.new ≡ self.old }
    {
        let most = most
            .min(self.visiting.most_between())
            .min(most_between_sip(&self.sip));
        self.teller.wait(most.min(1_000) as i32);
        self.read_clock();
        self.serve_visitors(seen);
        let now = self.rounds.now;
        serve_sip(&mut self.sip, &mut self.teller, &self.desk, now, seen);
    }

    /// A client said this line. It answers what the word orders of a line.
    fn hear_line<L: SeenLines>(&mut self, asker: Asker, heard: HeardLine, seen: &L) -> Option<Order>
        requires { self.old.waits ≡ None }
        ensures { GivesOrder result self.old self.new }
    {
        match heard {
            HeardLine::TooLong => {
                self.teller.answer(asker, Answer::Refused(Refusal::TooLong));
                None
            }
            HeardLine::Line(octets) => match read_word(octets.as_slice()) {
                Some(word) => self.obey(asker, word, seen),
                None => {
                    self.teller.answer(asker, Answer::Refused(Refusal::NoWord));
                    None
                }
            },
        }
    }

    /// What SIP has to say is said, until it orders something of a line. Where it did so often, clients are heard first.
    fn say_for_sip<L: SeenLines>(&mut self, seen: &L) -> Option<Order>
        requires { self.old.waits ≡ None }
        ensures { GivesOrder result self.old self.new }
    {
        if !goes_first(&mut self.sip) {
            return None;
        }
        for _ in 0..MOST_WORDS {
            let said = next_said(&mut self.sip)?;
            if let Some(order) = self.say(said, seen) {
                return Some(order);
            }
        }
        None
    }

    /// SIP says this: of a redial line at its desk, else at that of the lines.
    fn say<L: SeenLines>(&mut self, said: Said, seen: &L) -> Option<Order>
        requires { self.old.waits ≡ None }
        ensures { GivesOrder result self.old self.new }
    {
        match said.place() {
            Some(place) if place.line as usize >= seen.len() => {
                let redials = &mut self.retries.redials;
                let now = self.rounds.now;
                say_of_redial(
                    &mut self.sip,
                    redials,
                    &mut self.teller,
                    &said,
                    seen.len(),
                    now,
                );
                None
            }
            Some(_) | None => self.say_of_line(said, seen),
        }
    }

    /// SIP says this: the word comes in at the desk as one of a client does, where the call that it is about is on.
    fn say_of_line<L: SeenLines>(&mut self, said: Said, seen: &L) -> Option<Order>
        requires { self.old.waits ≡ None }
        ensures { GivesOrder result self.old self.new }
    {
        let now = self.rounds.now;
        let Some(sip) = &mut self.sip else {
            return None;
        };
        let Some(word) = sip.word(&said, seen) else {
            return None;
        };
        let next = self.desk.step(Asker::apart(), word, seen, now);
        match next {
            Next::Orders(order) => {
                sip.wait_for(said);
                return Some(ask(order, now));
            }
            Next::Replies(reply) => sip.answered(now, &said, reply),
            Next::Reports(_) => {}
            Next::Undelivered => {}
            Next::Discards => {}
            Next::Retries => {}
            Next::Status => {}
            Next::Metrics => {}
            Next::Events => {}
            Next::Frames(_) => {}
            Next::Reloads => {}
        }
        None
    }

    /// Does what a word says. It answers what the word orders of a line.
    fn obey<L: SeenLines>(&mut self, asker: Asker, word: Word<'_>, seen: &L) -> Option<Order>
        requires { self.old.waits ≡ None }
        ensures { GivesOrder result self.old self.new }
    {
        if self.obey_of_redial(asker, word, seen.len()) {
            return None;
        }
        let next = self.desk.step(asker, word, seen, self.rounds.now);
        match next {
            Next::Orders(order) => return Some(ask(order, self.rounds.now)),
            Next::Replies(reply) => self.reply(asker, reply),
            Next::Reports(i) => self.report(asker, i, seen),
            Next::Status => {
                let text = self.status_text(seen);
                self.teller.put(asker, text);
            }
            Next::Metrics => {
                let text = self.metrics_text(seen);
                self.teller.put(asker, text);
            }
            Next::Undelivered => self.see_call_word(asker, word, seen),
            Next::Discards => self.see_call_word(asker, word, seen),
            Next::Retries => self.see_call_word(asker, word, seen),
            Next::Events => self.want_events(asker, seen),
            Next::Frames(i) => self.want_frames(asker, i, seen),
            Next::Reloads => self.ask_reload(asker),
        }
        None
    }

    /// Does what a word says that names a redial line, the first of which is counted so. It answers whether it names one.
    fn obey_of_redial(&mut self, asker: Asker, word: Word<'_>, first: usize) -> bool
        ensures { self.new ≡ self.old }
    {
        let now = self.rounds.now;
        let redials = &mut self.retries.redials;
        let Some((i, reply)) = redials.step(asker, word, now, &mut self.teller) else {
            return false;
        };
        tell_sip(
            &mut self.sip,
            &mut self.teller,
            now,
            first.saturating_add(i),
        );
        self.reply(asker, reply);
        true
    }

    /// A client is answered so.
    fn reply(&mut self, asker: Asker, reply: Reply)
        ensures { self.new ≡ self.old }
    {
        let text = answer_text(self.alloc, self.desk.answer(reply));
        self.teller.put_line(asker, text);
    }

    /// A line for each line of the configuration, one for each redial line, one for the spool, where there is one, one for each trunk, and
    /// `ok`.
    fn status_text<L: SeenLines>(&self, seen: &L) -> Result<Vec<u8>, NoMemory> {
        let mut text = Vec::new(self.alloc);
        put_lines(self.alloc, &self.desk, seen, &mut text)?;
        put_redials(self.alloc, &self.retries.redials, &mut text)?;
        put_spool_status(self.alloc, &self.teller.counters, seen, &mut text)?;
        if let Some(sip) = &self.sip {
            sip.put_status(&mut text)?;
        }
        text.extend_from_slice(b"ok\n")?;
        Ok(text)
    }

    /// The last reports of line i are told.
    fn report<L: SeenLines>(&mut self, asker: Asker, i: usize, seen: &L)
        ensures { self.new ≡ self.old }
    {
        if i < seen.len() {
            let text = report_text(self.alloc, &self.desk, i, seen, self.rounds.now);
            self.teller.put(asker, text);
        } else {
            self.teller.answer(asker, Answer::Refused(Refusal::NoLine));
        }
    }

    /// The counts.
    fn metrics_text<L: SeenLines>(&self, seen: &L) -> Result<Vec<u8>, NoMemory> {
        let text = metrics(self.alloc, &self.sip, &self.counts(seen))?;
        Ok(text.into_bytes())
    }

    /// A word about calls of which pages could not be delivered.
    fn see_call_word<L: SeenLines>(&mut self, asker: Asker, word: Word<'_>, seen: &L)
        ensures { self.new ≡ self.old }
    {
        let keeps_calls = seen.keeps_calls().unwrap_or(self.held.is_some());
        let said = match word {
            Word::Undelivered(line) => {
                let calls = calls_in(seen, &self.held);
                let text = undelivered_text(self.alloc, line, calls, self.rounds.now);
                self.teller.put(asker, text);
                Ok(())
            }
            Word::Discard(call) => self.retries.say_discard(asker, call, keeps_calls),
            Word::Retry(call) => self.retries.say_retry(asker, call, keeps_calls),
            _ => Err(Refusal::NoLine),
        };
        if let Err(why) = said {
            self.teller.answer(asker, Answer::Refused(why));
        }
    }

    /// From now on a client is told events, after how the lines are. The calls that lines ask for are asked of it.
    fn want_events<L: SeenLines>(&mut self, asker: Asker, seen: &L)
        ensures { self.new ≡ self.old }
    {
        let text = match self.teller.want_events(asker) {
            Ok(()) => {
                ask_all(&mut self.desk, seen);
                self.state_text(seen)
            }
            Err(NoMemory) => Err(NoMemory),
        };
        self.teller.put(asker, text);
    }

    /// The same, and it is told what happens in the calls of line i.
    fn want_frames<L: SeenLines>(&mut self, asker: Asker, i: usize, seen: &L)
        ensures { self.new ≡ self.old }
    {
        match self.ladders.watch(i, seen) {
            Ok(()) => {
                self.teller.watch(asker, i);
                self.want_events(asker, seen);
            }
            Err(NoMemory) => self
                .teller
                .answer(asker, Answer::Refused(Refusal::NoMemory)),
        }
    }

    /// A client asks that the configuration is read again.
    fn ask_reload(&mut self, asker: Asker)
        ensures { self.new ≡ self.old }
    {
        self.reloader = Some(asker);
    }

    /// What is on, as events of this moment, and `ok`.
    fn state_text<L: SeenLines>(&mut self, seen: &L) -> Result<Vec<u8>, NoMemory>
        ensures { self.new ≡ self.old }
    {
        let now = self.rounds.now;
        let mut text = Vec::new(self.alloc);
        put_states(
            self.alloc,
            self.teller.aside(),
            &self.desk,
            seen,
            now,
            &mut text,
        )?;
        put_redial_states(self.alloc, &mut self.retries.redials, now, &mut text)?;
        text.extend_from_slice(b"ok\n")?;
        Ok(text)
    }

    /// Looks at the questions that are to be looked at, and asks those that are not open. It answers the order for one whose time is
    /// over: the call could not be placed.
    pub(super) fn look_at_questions<L: SeenLines>(&mut self, seen: &L) -> Option<Order>
        requires { self.old.waits ≡ None }
        ensures { GivesOrder result self.old self.new }
    {
        for _ in 0..self.waking.to_ask.len() {
            let i = self.waking.to_ask.pop()?;
            if let Some(line) = seen.line(i)
                && let Some(order) = self.look_at_question(i, line)
            {
                return Some(order);
            }
        }
        None
    }

    /// The same of the question of line i, which is so: it is asked where a client hears events, or where SIP places the call.
    fn look_at_question(&mut self, i: usize, line: LineView) -> Option<Order>
        requires { self.old.waits ≡ None }
        ensures { GivesOrder result self.old self.new }
    {
        let is_heard = self.teller.tell_events() || is_placed(&self.sip, &self.desk, i, line);
        self.desk.go_on(self.rounds.now, is_heard);
        match self.desk.look(i, line) {
            LookOutcome::Nothing => None,
            LookOutcome::Asks(asks) => {
                tell_at(&self.desk, i, asks, self.rounds.now, &mut self.teller);
                tell_sip(&mut self.sip, &mut self.teller, self.rounds.now, i);
                None
            }
            LookOutcome::Orders(order) => Some(ask(order, self.rounds.now)),
        }
    }

    /// What a line answered to what was asked of it by an order answers who gave that.
    pub(super) fn tell_done(&mut self, answered: Option<LineAnswer>)
        ensures { Hears answered self.old self.new }
    {
        if let Some(done) = self.desk.done(answered) {
            self.tell_end(done);
        }
    }

    /// An order has ended so: who gave it is answered, and what happened is told.
    fn tell_end(&mut self, done: OrderEnd)
        ensures { self.new ≡ self.old }
    {
        if let Some(asker) = done.asker {
            self.answer_end(asker, done.reply);
        }
        if let Some(happened) = done.happened {
            tell_at(
                &self.desk,
                done.line,
                happened,
                self.rounds.now,
                &mut self.teller,
            );
            tell_sip(&mut self.sip, &mut self.teller, self.rounds.now, done.line);
        }
    }

    /// Who gave an order, a client or SIP, is answered so.
    fn answer_end(&mut self, asker: Asker, reply: Reply)
        ensures { self.new ≡ self.old }
    {
        if asker.is_apart() {
            answer_sip(&mut self.sip, self.rounds.now, reply);
        } else {
            self.reply(asker, reply);
        }
    }
}

/// The question of each line that asks for a call is open from now on, since a client is told of it.
fn ask_all<L: SeenLines>(desk: &mut Desk, seen: &L)
    ensures { desk.new.waits ≡ desk.old.waits }
{
    for i in 0..seen.len() {
        if let Some(line) = seen.line(i) {
            desk.ask_at(i, line);
        }
    }
}

/// The order of the loop that the desk gave, at this moment.
fn ask(order: DeskOrder, now: u64) -> Order
    ensures { given_by (Some result) ≡ asked_by order ∷ [] }
{
    Order::Ask {
        line: order.line,
        now,
        what: order.what,
    }
}
