//! Words that name redial lines, and the questions of these.
ghost use Rattle.std.specs.Prelude.{◌≡◌, option_and_then, option_map, slice_get};
ghost use Rattle.fax_desk.specs.Desks.{heard_until, line_named, name_at};
ghost use Rattle.fax_redial.specs.Seeing.{seen_at};
ghost use Rattle.fax_redial.specs.Words.{AsksAt, AsksFrom, AsksOne, EndsOrder, LooksIf, ObeysIf, Steps, StepsUnless, TellsIf, asked_in, named_in, names_one, order_in, own_reply, refused, reply_by, reply_of_leg, state_on, tries_of, with_try};

use crate::job_try::JobTry;
use crate::redials::Redials;
use crate::seeing::{Seen, seen_at};
use fax_clients::Asker;
use fax_control::events::AskedJob;
use fax_control::{Refusal, Word};
use fax_desk::{
    Desk, LineEvent, LineState, LineView, Listener, LookOutcome, Next, Order, RefusedWord, Reply,
    tell_at,
};
use fax_gateway::Leg;
use fax_line::{LineAnswer, LineRequest};
use fax_wires::repeat::TimedWire;

impl<W: TimedWire + Drop> Redials<W> {
    /// Whether a word names a redial line.
    pub fn says_of(&self, word: Word<'_>) -> bool
        ensures { result ≡ names_one self.now.desk (named_in word.entry) }
    {
        match named_in(word) {
            Some(name) => self.desk.find(name).is_some(),
            None => false,
        }
    }

    /// A word of a client comes that names a redial line, and is answered by this. What it orders is done at once, and what happens by it is
    /// told, under the redial line's name. Of the calling leg, which a redial line has not, every word is refused: `ring` for want of a
    /// peer, others for want of a call.
    pub fn step<L: Listener>(
        &mut self,
        asker: Asker,
        word: Word<'_>,
        now: u64,
        listener: &mut L,
    ) -> Reply
        ensures { StepsUnless L.tells asker
            now word.entry (names_one self.old.desk (named_in word.entry))
            (own_reply word.entry) result self.old self.new listener.old listener.new }
    {
        if !self.says_of(word) {
            return refused(Refusal::NoLine);
        }
        if let Some(reply) = own_reply(word) {
            return reply;
        }
        self.order(asker, word, now, listener)
    }

    /// The same of a word that names one, and that its desk answers.
    fn order<L: Listener>(
        &mut self,
        asker: Asker,
        word: Word<'_>,
        now: u64,
        listener: &mut L,
    ) -> Reply
        ensures { Steps L.tells asker
            now word.entry result self.old self.new listener.old listener.new }
    {
        let seen = Seen {
            tries: self.tries.as_slice(),
        };
        let next = self.desk.step(asker, word, &seen, now);
        let done = obey(self.tries.as_mut_slice(), &mut self.desk, now, listener);
        reply_of(next, done)
    }

    /// Time goes on to this moment, and a client hears events meanwhile, or none does.
    pub fn go_on(&mut self, now: u64, is_heard: bool)
        ensures { self.new ≡ record self.old {
          desk = record self.old.desk {
            time = heard_until now is_heard self.old.desk.time;
            is_heard = is_heard;
          };
        } }
    {
        self.desk.go_on(now, is_heard);
    }

    /// The question of redial line i is looked at, where it has a try: clients are asked where one hears events, with the number of the
    /// try; and a question whose time is over is refused.
    pub fn look<L: Listener>(&mut self, i: usize, now: u64, listener: &mut L)
        ensures { LooksIf L.tells i
            now (slice_get self.old.tries i) self.old self.new listener.old listener.new }
    {
        let (tries, line) = match self.tries.get(i) {
            Some(Some(held)) => (held.job().tries, held.view()),
            Some(None) => return,
            None => return,
        };
        let looked = self.desk.look(i, line);
        let asked = asked_in(tries, looked);
        tell_if(&self.desk, i, asked, now, listener);
        let _ = obey(self.tries.as_mut_slice(), &mut self.desk, now, listener);
    }

    /// The question of redial line i is open from now on, where its try asks for a call, since a client is told what is on.
    pub fn ask_at(&mut self, i: usize)
        ensures { AsksFrom i (seen_at self.old.tries i) self.old self.new }
    {
        if let Some(line) = seen_at(self.tries.as_slice(), i) {
            self.desk.ask_at(i, line);
        }
    }

    /// What is on on redial line i.
    pub fn state(&self, i: usize) -> Option<LineState>
        ensures { result ≡ state_on self.now i }
    {
        let line = seen_at(self.tries.as_slice(), i)?;
        let state = self.desk.state(i, line)?;
        let tries = tries_at(self.tries.as_slice(), i);
        Some(LineState {
            rung: state.rung,
            job: state.job.map(|happened| with_try(tries, happened)),
        })
    }

    /// What redial line i is.
    pub fn view(&self, i: usize) -> Option<LineView>
        ensures { result ≡ seen_at self.now.tries i }
    {
        seen_at(self.tries.as_slice(), i)
    }

    /// The redial line that a word names.
    pub fn named(&self, word: Word<'_>) -> Option<usize>
        ensures { result
            ≡ option_and_then (line_named self.now.desk.names.items) (named_in word.entry) }
    {
        let name = named_in(word)?;
        self.desk.find(name)
    }

    /// The name of redial line i.
    pub fn name(&self, i: usize) -> Option<&str>
        ensures { option_map (λ name. name.now) result ≡ name_at self.now.desk.names.items i }
    {
        self.desk.name(i)
    }
}

/// The line that a word names.
fn named_in<'a>(word: Word<'a>) -> Option<&'a str>
    ensures { option_map (λ name. name.now) result ≡ named_in word.entry }
{
    match word {
        Word::Ring(ring) => ring.line,
        Word::Peer(peer) => Some(peer.line),
        Word::HangUp(name, _) => Some(name),
        Word::Refuse(name, _) => Some(name),
        Word::Report(name) => Some(name),
        Word::Undelivered(_) => None,
        Word::Discard(_) => None,
        Word::Retry(_) => None,
        Word::Status => None,
        Word::Metrics => None,
        Word::Events => None,
        Word::Frames(_) => None,
        Word::Reload => None,
        Word::Stop => None,
    }
}

/// How a word is answered that does not come to the desk.
fn own_reply(word: Word<'_>) -> Option<Reply>
    ensures { result ≡ own_reply word.entry }
{
    match word {
        Word::Ring(_) => Some(refused(Refusal::NoPeer)),
        Word::Peer(peer) => reply_of_leg(peer.leg),
        Word::HangUp(_, leg) => reply_of_leg(leg),
        Word::Refuse(_, _) => None,
        Word::Report(_) => Some(Reply::Done),
        Word::Undelivered(_) => Some(refused(Refusal::NoLine)),
        Word::Discard(_) => Some(refused(Refusal::NoLine)),
        Word::Retry(_) => Some(refused(Refusal::NoLine)),
        Word::Status => Some(refused(Refusal::NoLine)),
        Word::Metrics => Some(refused(Refusal::NoLine)),
        Word::Events => Some(refused(Refusal::NoLine)),
        Word::Frames(_) => Some(refused(Refusal::NoLine)),
        Word::Reload => Some(refused(Refusal::NoLine)),
        Word::Stop => Some(refused(Refusal::NoLine)),
    }
}

/// A redial line has no calling leg.
fn reply_of_leg(leg: Leg) -> Option<Reply>
    ensures { result ≡ reply_of_leg leg }
{
    match leg {
        Leg::Calling => Some(refused(Refusal::NoCall)),
        Leg::Called => None,
    }
}

/// The word is refused.
fn refused(why: Refusal) -> Reply
    ensures { result ≡ refused why }
{
    Reply::Refused(RefusedWord { why })
}

/// How a word is answered that came to this, by whose order this came, where it gave one.
fn reply_of(next: Next, done: Reply) -> Reply
    ensures { result ≡ reply_by next done }
{
    match next {
        Next::Replies(reply) => reply,
        _ => done,
    }
}

/// What is told where a look at a question came to this, of a try of a job that was tried so often before.
fn asked_in(tries: u32, looked: LookOutcome) -> Option<LineEvent>
    ensures { result ≡ asked_in tries looked }
{
    match looked {
        LookOutcome::Asks(asks) => Some(with_try(tries, asks)),
        LookOutcome::Nothing => None,
        LookOutcome::Orders(_) => None,
    }
}

/// The order that waits at the desk is done, where one does: its line is asked, the desk is told the answer, and what happened is told. It
/// answers the reply.
fn obey<W: TimedWire + Drop, L: Listener>(
    tries: &mut [Option<JobTry<W>>],
    desk: &mut Desk,
    now: u64,
    listener: &mut L,
) -> Reply
    ensures { ObeysIf L.tells now (order_in desk.old.waits)
        result desk.old desk.new tries.old tries.new listener.old listener.new }
{
    let Some(order) = waiting(desk) else {
        return Reply::Done;
    };
    let answer = ask_at(tries, order.line, order.what, now);
    tell_end(desk, answer, now, listener)
}

/// The order that waits.
fn waiting(desk: &Desk) -> Option<Order>
    ensures { result ≡ order_in desk.now.waits }
{
    match &desk.waits {
        Some(waits) => Some(waits.order),
        None => None,
    }
}

/// The order that waits was answered so, where one does.
fn tell_end<L: Listener>(
    desk: &mut Desk,
    answered: Option<LineAnswer>,
    now: u64,
    listener: &mut L,
) -> Reply
    ensures { EndsOrder L.tells now answered result desk.old desk.new listener.old listener.new }
{
    match desk.done(answered) {
        Some(end) => {
            tell_if(desk, end.line, end.happened, now, listener);
            end.reply
        }
        None => Reply::Done,
    }
}

/// This is told of line i, where something is.
fn tell_if<L: Listener>(desk: &Desk, i: usize, what: Option<LineEvent>, now: u64, listener: &mut L)
    ensures { TellsIf L.tells (name_at desk.now.names.items i) what now listener.old listener.new }
{
    if let Some(what) = what {
        tell_at(desk, i, what, now, listener);
    }
}

/// This is asked of the line of the try on redial line i, where there is one.
fn ask_at<W: TimedWire + Drop>(
    tries: &mut [Option<JobTry<W>>],
    i: usize,
    what: LineRequest,
    now: u64,
) -> Option<LineAnswer>
    ensures { AsksAt i now what result (slice_get tries.old i) tries.old tries.new }
{
    if i >= tries.len() {
        return None;
    }
    ask_one(&mut tries[i], what, now)
}

/// The same of a try, where there is one.
fn ask_one<W: TimedWire + Drop>(
    held: &mut Option<JobTry<W>>,
    what: LineRequest,
    now: u64,
) -> Option<LineAnswer>
    ensures { AsksOne now what held.old result held.new }
{
    match held {
        Some(held) => held.ask(what, now),
        None => None,
    }
}

/// How often the job of the try on redial line i was tried before.
fn tries_at<W: TimedWire + Drop>(tries: &[Option<JobTry<W>>], i: usize) -> u32
    ensures { result ≡ tries_of (slice_get tries.now i) }
{
    match tries.get(i) {
        Some(Some(held)) => held.job().tries,
        Some(None) => 0,
        None => 0,
    }
}

/// What happened on a redial line, whose job was tried so often before. A question is told with the number of its try.
fn with_try(tries: u32, event: LineEvent) -> LineEvent
    ensures { result ≡ with_try tries event }
{
    match event {
        LineEvent::Asked(job, tag) => LineEvent::Asked(
            AskedJob {
                tries: tries.saturating_add(1),
                ..job
            },
            tag,
        ),
        LineEvent::Rung(tagged) => LineEvent::Rung(tagged),
        LineEvent::NotStored(tagged) => LineEvent::NotStored(tagged),
        LineEvent::Page(page, tag) => LineEvent::Page(page, tag),
        LineEvent::RefusedPage(refused, tag) => LineEvent::RefusedPage(refused, tag),
        LineEvent::Ended(tagged, how) => LineEvent::Ended(tagged, how),
        LineEvent::Job(report, tag, why) => LineEvent::Job(report, tag, why),
        LineEvent::Dial(tagged) => LineEvent::Dial(tagged),
        LineEvent::Connected(tagged) => LineEvent::Connected(tagged),
    }
}
