//! SIP beside the lines of a server.
ghost use Rattle.std.specs.Prelude.{◌≡◌, [], ◌∷◌, true, ◌++◌, IfNone, IfOk, IfSome, OnErr, OnOk, OnSome, Some, map, option_map};
ghost use Rattle.std.specs.Bool.{OnFalse, OnTrue};
ghost use Rattle.std.specs.Option.{option_to_list};
ghost use Rattle.fax_sip.specs.Messages.{message_of};
ghost use Rattle.fax_switch.specs.declared.event.Event.TheVariants.{CallOver, JobOver, NotRung, Rung};
ghost use Rattle.fax_switch.specs.Places.{called_place, calling_place};
ghost use Rattle.fax_user_agent.specs.Agents.{HearsDial, IsQuiet, MayHearDialInPart};
ghost use Rattle.fax_user_agent.specs.Orders.{word_of};
ghost use Rattle.fax_user_agent.specs.Senders.{trunk_of};
ghost use Rattle.fax_sip_service.specs.Numbers.{is_placed, number_for};
ghost use Rattle.fax_sip_service.specs.Services.{AndCollects, Answers, AnswersIf, Asks, Collects, Dials, DialsFrom, DialsIf, Does, DoesPart, DoesWhole, Ends, EndsAll, EndsEach, EndsIf, GoesOn, GoesOnOnce, Happens, HearsFrom, Holds, HoldsAndDials, IsBegun, IsNoted, IsRung, Keeps, KeepsIf, KeepsNews, Leaves, Refuses, RingsIf, RingsOn, TakesNews, TakesOrder, TakesOrders, Tells, address_of, line_call, noted, over_of, without, without_news, without_words};
ghost use Rattle.fax_sip_service.specs.Words.{Says, is_now, said_of};

use crate::line::{SipLine, lines_of};
use crate::placing::{line_call, number_for};
use crate::said::{Said, said_of};
use crate::setup::{Passwords, SetupFault, routes_of, settings_of};
use crate::sounds::{AudioPacket, Sounds};
use crate::trunk::{SipTrunk, trunks_of};
use fax_config::{LineConfig, RedialConfig, SipConfig};
use fax_control::Word;
use fax_desk::{LineEvent, Reply, RungOn, Tag, View};
use fax_switch::{Leg, LineCall, Place};
use fax_trunks::{Number, Route};
use fax_user_agent::{Count, Datagram, Heard, LineOrder, Told, UserAgent};
use rand_chacha::ChaCha20Rng;
use rand_core::{Rng, SeedableRng};
use std::alloc::{AllocError, Global};
use std::collections::VecDeque;
use std::marker::Model;
use std::mem;
use std::net::SocketAddr;

/// What is due is done so often at a time.
const MOST_STEPS: u32 = 64;

/// With this status a call is refused that no line takes (RFC 3261, 21.5.4).
const UNAVAILABLE: u16 = 503;

/// With this status a call of ours is refused for want of memory.
const INTERNAL: u16 = 500;

/// What was dropped.
#[derive(Clone, Copy, Default)]
pub(crate) struct Dropped {
    /// Datagrams of senders that no trunk allows.
    pub strangers: u64,
    /// Datagrams that are no messages.
    pub malformed: u64,
    /// What was lost for want of memory.
    pub lost: u64,
}

/// SIP beside the lines of a server.
///
/// What it does takes memory; where that is refused, this is counted, and goes on as the definitions say: a word that was to be said was refused, a leg is not
/// ended as the server stops, something is not told.
pub struct SipService {
    pub(crate) alloc: Global,
    pub(crate) agent: UserAgent,
    routes: Vec<Route>,
    lines: Vec<SipLine>,
    pub(crate) trunks: Vec<SipTrunk>,
    /// What is to be said at the desk, in its order, and what was said there and gave an order that is not told back.
    to_say: VecDeque<Said>,
    waits: Option<Said>,
    sounds: Sounds,
    /// The legs whose calls SIP holds.
    places: Vec<Place>,
    /// What is to be told.
    news: VecDeque<Told>,
    pub(crate) dropped: Dropped,
    is_leaving: bool,
}

impl Drop for SipService {
    fn drop(self) {
        let SipService {
            alloc: _alloc,
            agent: _agent,
            routes: _routes,
            lines: _lines,
            trunks: _trunks,
            to_say: _to_say,
            waits: _waits,
            sounds: _sounds,
            places: _places,
            news: _news,
            dropped: _dropped,
            is_leaving: _is_leaving,
        } = self;
    }
}

/// Contracts see all but its audio, and what is counted of trunks and of datagrams that were dropped.
impl Model for SipService {
    ghost use Rattle.fax_sip_service.specs.Services.{Service};

    ghost Value = { Service };

    ghost view = { λ service. record {
      agent = service.agent;
      lines = service.lines.items;
      routes = service.routes.items;
      to_say = service.to_say.items;
      waits = service.waits;
      places = service.places.items;
      news = service.news.items;
      lost = service.dropped.lost;
      is_leaving = service.is_leaving;
    } };
}

impl SipService {
    /// SIP of this configuration, whose trunks have these passwords, beside these lines and redial lines, which are counted after them.
    /// What is random comes of the seed, which nobody knows.
    pub fn new(
        alloc: Global,
        config: &SipConfig,
        lines: &[LineConfig],
        redials: &[RedialConfig],
        passwords: &Passwords,
        seed: [u8; 32],
    ) -> Result<Self, SetupFault>
        ensures { IfOk result IsBegun }
    {
        let mut generator = ChaCha20Rng::from_seed(seed);
        let mut agent_seed = [0; 32];
        generator.fill_bytes(&mut agent_seed);
        let settings = settings_of(alloc, config, passwords)?;
        Ok(SipService {
            alloc,
            agent: UserAgent::new(alloc, settings, agent_seed)?,
            routes: routes_of(alloc, config.routes.as_slice())?,
            lines: lines_of(alloc, lines, redials)?,
            trunks: trunks_of(alloc, config.trunks.as_slice())?,
            to_say: VecDeque::new(alloc),
            waits: None,
            sounds: Sounds::new(alloc, generator),
            places: Vec::new(alloc),
            news: VecDeque::new(alloc),
            dropped: Dropped::default(),
            is_leaving: false,
        })
    }

    /// Something was lost for want of memory, or not.
    fn note(&mut self, outcome: Result<(), AllocError>)
        ensures { self.new ≡ noted outcome self.old }
    {
        match outcome {
            Ok(()) => {}
            Err(AllocError) => self.dropped.lost = self.dropped.lost.saturating_add(1),
        }
    }

    /// A datagram came, from there.
    pub fn hear(&mut self, now: u64, from: SocketAddr, octets: &[u8])
        ensures { AndCollects now (HearsFrom now (trunk_of self.old.agent.trunks from)
            (message_of octets.now)) self.old self.new }
    {
        self.hear_datagram(now, from, octets);
        self.collect(now);
    }

    /// The agent hears a datagram; one that it drops is counted.
    fn hear_datagram(&mut self, now: u64, from: SocketAddr, octets: &[u8])
        ensures { HearsFrom now (trunk_of self.old.agent.trunks from)
            (message_of octets.now) self.old self.new }
    {
        match self.agent.hear(now, from, octets) {
            Ok(heard) => self.count_dropped(heard),
            Err(AllocError) => self.note(Err(AllocError)),
        }
    }

    /// A datagram that was dropped is counted.
    fn count_dropped(&mut self, heard: Heard)
        ensures { self.new ≡ self.old }
    {
        let dropped = &mut self.dropped;
        match heard {
            Heard::Message => {}
            Heard::Stranger => dropped.strangers = dropped.strangers.saturating_add(1),
            Heard::NoMessage(_) => dropped.malformed = dropped.malformed.saturating_add(1),
        }
    }

    /// Time passed: what is due is done.
    pub fn go_on(&mut self, now: u64)
        ensures { AndCollects now (GoesOn now) self.old self.new }
    {
        self.do_all_due(now);
        self.collect(now);
    }

    /// What is due is done, one thing after the other, but only so many at a time.
    fn do_all_due(&mut self, now: u64)
        ensures { GoesOn now self.old self.new }
    {
        for _ in 0..MOST_STEPS {
            if !self.do_due(now) {
                break;
            }
        }
    }

    /// What is due first is done, where anything is due now.
    fn do_due(&mut self, now: u64) -> bool
        ensures due { OnTrue result (GoesOnOnce now self.old self.new) }
        ensures nothing { OnFalse result (self.new ≡ self.old) }
    {
        match self.agent.next_due() {
            Some(due) if due <= now => {
                self.do_first(now);
                true
            }
            Some(_) | None => false,
        }
    }

    /// What is due first is done.
    fn do_first(&mut self, now: u64)
        ensures { GoesOnOnce now self.old self.new }
    {
        let outcome = self.agent.go_on(now);
        self.note(outcome);
    }

    /// What the agent orders and tells is taken.
    fn collect(&mut self, now: u64)
        ensures { Collects now self.old self.new }
    {
        let orders = self.orders();
        self.take_orders(now, orders);
        let news = self.agent_news();
        self.take_news(news);
    }

    /// What the agent orders.
    fn orders(&mut self) -> Vec<LineOrder>
        ensures given { map word_of result.items ≡ self.old.agent.words }
        ensures rest { self.new ≡ without_words self.old }
    {
        self.agent.take_orders()
    }

    /// What the agent tells.
    fn agent_news(&mut self) -> Vec<Told>
        ensures told { result.items ≡ self.old.agent.told }
        ensures rest { self.new ≡ without_news self.old }
    {
        self.agent.take_told()
    }

    /// The agent gives these orders.
    fn take_orders(&mut self, now: u64, orders: Vec<LineOrder>)
        ensures { TakesOrders now orders.items self.old self.new }
    {
        for order in orders {
            self.take_order(now, order);
        }
    }

    /// The agent gives this order. Audio begins and ends at once; what is said waits until it is asked for.
    fn take_order(&mut self, now: u64, order: LineOrder)
        ensures { TakesOrder now order self.old self.new }
    {
        self.turn_sound(now, &order);
        self.keep_if(now, said_of(order));
    }

    /// Audio begins and ends as an order says.
    fn turn_sound(&mut self, now: u64, order: &LineOrder)
        ensures { IsNoted self.old self.new }
    {
        let outcome = self.sounds.obey(order, now);
        self.note(outcome);
    }

    /// This is to be said, if it is anything.
    fn keep_if(&mut self, now: u64, said: Option<Said>)
        ensures { KeepsIf now said self.old self.new }
    {
        match said {
            Some(said) => self.keep(now, said),
            None => {}
        }
    }

    /// This is to be said.
    fn keep(&mut self, now: u64, said: Said)
        ensures { Keeps now said self.old self.new }
    {
        match self.put_said(said) {
            None => {}
            Some(refused) => {
                self.note(Err(AllocError));
                self.refuse(now, &refused);
            }
        }
    }

    /// This is to be said after what was to be said before; it comes back where memory is refused.
    fn put_said(&mut self, said: Said) -> Option<Said>
        ensures kept { IfNone result (self.new
            ≡ record self.old { to_say = self.old.to_say ++ said ∷ [] }) }
        ensures refused { IfSome result (λ refused. (refused ≡ said) × (self.new ≡ self.old)) }
    {
        match self.to_say.push_back(said) {
            Ok(()) => None,
            Err(refused) => Some(refused.value),
        }
    }

    /// The agent tells these.
    fn take_news(&mut self, news: Vec<Told>)
        ensures { TakesNews news.items self.old self.new }
    {
        for told in news {
            self.take_told(told);
        }
    }

    /// The agent tells this. It is counted, and waits until it is told.
    fn take_told(&mut self, told: Told)
        ensures { KeepsNews told self.old self.new }
    {
        self.count(&told);
        let outcome = self.put_told(told);
        self.note(outcome);
    }

    /// This is to be told after what was to be told before.
    fn put_told(&mut self, told: Told) -> Result<(), AllocError>
        ensures ok { OnOk result (self.new
            ≡ record self.old { news = self.old.news ++ told ∷ [] }) }
        ensures err { OnErr result (self.new ≡ self.old) }
    {
        match self.news.push_back(told) {
            Ok(()) => Ok(()),
            Err(_) => Err(AllocError),
        }
    }

    /// What the agent tells is counted.
    fn count(&mut self, told: &Told)
        ensures { self.new ≡ self.old }
    {
        match told {
            Told::Call(call) => {
                if let Some(trunk) = self.trunks.get_mut(call.trunk) {
                    trunk.count(call);
                }
            }
            Told::Registration(trunk, is_registered) => {
                if let Some(trunk) = self.trunks.get_mut(*trunk) {
                    trunk.is_registered = *is_registered;
                }
            }
        }
    }

    /// What is to be told next.
    pub fn next_told(&mut self) -> Option<Told>
        ensures first { self.old.news ≡ option_to_list result ++ self.new.news }
        ensures none { IfNone result (self.old.news ≡ []) }
        ensures rest { self.new ≡ record self.old { news = self.new.news } }
    {
        self.news.pop_front()
    }

    /// What is to be said next.
    pub fn next_said(&mut self) -> Option<Said>
        ensures first { self.old.to_say ≡ option_to_list result ++ self.new.to_say }
        ensures none { IfNone result (self.old.to_say ≡ []) }
        ensures rest { self.new ≡ record self.old { to_say = self.new.to_say } }
    {
        self.to_say.pop_front()
    }

    /// The word that says so; none where the call that it is about is on no more.
    pub fn word<'a, V: View>(&'a self, said: &'a Said, view: &V) -> Option<Word<'a>>
        ensures said { IfSome result (Says said.now self.now.lines) }
        ensures now { OnSome result (is_now said.now (V.line view.now) ≡ true) }
    {
        said.word(self.lines.as_slice(), view)
    }

    /// What was said gave an order: `done` tells how that ended.
    pub fn wait_for(&mut self, said: Said)
        ensures { self.new ≡ record self.old { waits = Some said } }
    {
        self.waits = Some(said);
    }

    /// The order ended so that what was said last gave.
    pub fn done(&mut self, now: u64, reply: Reply)
        ensures { AnswersIf now self.old.waits reply self.old self.new }
    {
        match self.take_waits() {
            Some(said) => self.answered(now, &said, reply),
            None => {}
        }
    }

    /// What waits for the end of its order; it waits no more.
    fn take_waits(&mut self) -> Option<Said>
        ensures said { result ≡ self.old.waits }
        ensures rest { self.new ≡ record self.old { waits = None } }
    {
        self.waits.take()
    }

    /// What was said was answered so.
    pub fn answered(&mut self, now: u64, said: &Said, reply: Reply)
        ensures { AndCollects now (Answers now said.now reply) self.old self.new }
    {
        self.hear_reply(now, said, reply);
        self.collect(now);
    }

    /// The agent hears how what was said was answered.
    fn hear_reply(&mut self, now: u64, said: &Said, reply: Reply)
        ensures { Answers now said.now reply self.old self.new }
    {
        match reply {
            Reply::Done | Reply::Rung(_) => {}
            Reply::RungOn(rung) => self.hear_ring(now, said, rung),
            Reply::Refused(_) => self.refuse(now, said),
        }
    }

    /// A line was rung for what was said.
    fn hear_ring(&mut self, now: u64, said: &Said, rung: RungOn)
        ensures { IsRung now said.now (line_call rung.line rung.call) self.old self.new }
    {
        match said {
            Said::Ring(call, _) => self.ring_if(now, *call, line_call(rung.line, rung.call)),
            Said::Peer(_, _, _) | Said::Refuse(_, _) | Said::HangUp(_) => {}
        }
    }

    /// The call of an INVITE was rung on a line, where there is such a one.
    fn ring_if(&mut self, now: u64, call: u64, on: Option<LineCall>)
        ensures { RingsIf now call on self.old self.new }
    {
        match on {
            Some(on) => {
                let leg = self.leg_at(on.on_calling_leg());
                self.ring_on(now, call, on, leg);
            }
            None => {}
        }
    }

    /// The same of a leg that is heard there.
    fn ring_on(&mut self, now: u64, call: u64, on: LineCall, leg: Option<SocketAddr>)
        ensures { RingsOn now call on leg self.old self.new }
    {
        match leg {
            Some(leg) => {
                self.hold(on.on_calling_leg());
                self.tell_rung(now, call, on, leg);
            }
            None => {}
        }
    }

    /// The agent is told that a line was rung for a call.
    fn tell_rung(&mut self, now: u64, call: u64, on: LineCall, leg: SocketAddr)
        ensures { Tells now (Rung call on) self.old self.new }
    {
        let outcome = self.agent.rung(now, call, on, leg);
        self.note(outcome);
    }

    /// The agent is told that no line was rung for a call.
    fn tell_not_rung(&mut self, now: u64, call: u64)
        ensures { Tells now (NotRung call 503) self.old self.new }
    {
        let outcome = self.agent.not_rung(now, call, UNAVAILABLE);
        self.note(outcome);
    }

    /// What was said was refused: the call that it is about is answered so, or is over.
    fn refuse(&mut self, now: u64, said: &Said)
        ensures { Refuses now said.now self.old self.new }
    {
        match said {
            Said::Ring(call, _) => self.tell_not_rung(now, *call),
            Said::Peer(place, _, _) => self.end(now, *place),
            Said::Refuse(_, _) | Said::HangUp(_) => {}
        }
    }

    /// Where the leg of a place is heard; none where there is no such line.
    fn leg_at(&self, place: Place) -> Option<SocketAddr>
        ensures { result ≡ address_of self.now.lines place }
    {
        match self.lines.get(place.line as usize) {
            Some(line) => Some(line.leg(place.leg)),
            None => None,
        }
    }

    /// SIP holds the call of this leg.
    fn hold(&mut self, place: Place)
        ensures { Holds place self.old self.new }
    {
        let outcome = self.put_place(place);
        self.note(outcome);
    }

    /// SIP holds the call of this leg, where memory suffices.
    fn put_place(&mut self, place: Place) -> Result<(), AllocError>
        ensures ok { OnOk result (self.new
            ≡ record self.old { places = self.old.places ++ place ∷ [] }) }
        ensures err { OnErr result (self.new ≡ self.old) }
    {
        match self.places.push(place) {
            Ok(()) => Ok(()),
            Err(_) => Err(AllocError),
        }
    }

    /// The call of a leg is over: SIP holds it no more, and the agent is told.
    fn end(&mut self, now: u64, place: Place)
        ensures { Ends now place self.old self.new }
    {
        let_go(&mut self.places, place);
        self.tell_over(now, place);
    }

    /// The agent is told that the call of a leg is over; no more audio goes out for it.
    fn tell_over(&mut self, now: u64, place: Place)
        ensures { Tells now (over_of place) self.old self.new }
    {
        self.silence(place);
        let on = LineCall {
            line: place.line,
            call: place.call,
        };
        match place.leg {
            Leg::Calling => self.tell_call_over(now, on),
            Leg::Called => self.tell_job_over(now, on),
        }
    }

    /// No more audio goes out for the call of a leg.
    fn silence(&mut self, place: Place)
        ensures { self.new ≡ self.old }
    {
        self.sounds.end(place);
    }

    /// The agent is told that the call on a calling leg is over.
    fn tell_call_over(&mut self, now: u64, on: LineCall)
        ensures { Tells now (CallOver on) self.old self.new }
    {
        let outcome = self.agent.call_over(now, on);
        self.note(outcome);
    }

    /// The agent is told that the job of a called leg is over.
    fn tell_job_over(&mut self, now: u64, on: LineCall)
        ensures { Tells now (JobOver on) self.old self.new }
    {
        let outcome = self.agent.job_over(now, on);
        self.note(outcome);
    }

    /// Whether a call for this tag is placed over a route.
    pub fn places(&self, tag: &Option<Tag>) -> bool
        ensures { result ≡ is_placed self.now.routes tag.now }
    {
        self.number_for(tag).is_some()
    }

    /// This happened on a line.
    pub fn happened(&mut self, now: u64, line: usize, what: LineEvent)
        ensures { Happens now line what self.old self.new }
    {
        match what {
            LineEvent::Asked(asked, tag) => self.ask(now, line_call(line, asked.call), &tag),
            LineEvent::Ended(ended, _) => self.end_call(now, line_call(line, ended.call)),
            LineEvent::Job(report, _, _) => self.end_job(now, line_call(line, report.call)),
            LineEvent::Rung(_)
            | LineEvent::NotStored(_)
            | LineEvent::Page(_, _)
            | LineEvent::RefusedPage(_, _)
            | LineEvent::Dial(_)
            | LineEvent::Connected(_) => {}
        }
    }

    /// The call of a job is asked for, for this tag.
    fn ask(&mut self, now: u64, on: Option<LineCall>, tag: &Option<Tag>)
        ensures { Asks now on tag.now self.old self.new }
    {
        match on {
            Some(on) => {
                let number = self.number_for(tag);
                let leg = self.leg_at(on.on_called_leg());
                self.dial_if(now, on, number, leg);
            }
            None => {}
        }
    }

    /// The number that SIP calls for a tag.
    fn number_for(&self, tag: &Option<Tag>) -> Option<Number>
        ensures { result ≡ number_for self.now.routes tag.now }
    {
        number_for(self.routes.as_slice(), tag)
    }

    /// The call of a job is asked for, to this number, from a leg that is heard there.
    fn dial_if(&mut self, now: u64, on: LineCall, number: Option<Number>, leg: Option<SocketAddr>)
        ensures { DialsIf now on number leg self.old self.new }
    {
        match number {
            Some(number) => self.dial_from(now, on, &number, leg),
            None => {}
        }
    }

    /// The same from such a leg.
    fn dial_from(&mut self, now: u64, on: LineCall, number: &Number, leg: Option<SocketAddr>)
        ensures { DialsFrom now on number.now leg self.old self.new }
    {
        match leg {
            Some(leg) => {
                self.hold_and_dial(now, on, number, leg);
                self.collect(now);
            }
            None => {}
        }
    }

    /// SIP holds the leg, and calls.
    fn hold_and_dial(&mut self, now: u64, on: LineCall, number: &Number, leg: SocketAddr)
        ensures { HoldsAndDials now on number.now self.old self.new }
    {
        self.hold(on.on_called_leg());
        self.dial(now, on, number, leg);
    }

    /// The agent is told to call; where it lacks memory, the job's call is refused.
    fn dial(&mut self, now: u64, on: LineCall, number: &Number, leg: SocketAddr)
        ensures { Dials now on number.now self.old self.new }
    {
        match self.tell_dialled(now, on, number, leg) {
            Ok(()) => {}
            Err(AllocError) => {
                self.take_order(now, LineOrder::Refuse(on.on_called_leg(), INTERNAL));
            }
        }
    }

    /// The agent is told to call.
    fn tell_dialled(
        &mut self,
        now: u64,
        on: LineCall,
        number: &Number,
        leg: SocketAddr,
    ) -> Result<(), AllocError>
        ensures ok { OnOk result (DoesWhole (HearsDial now on number.now) self.old self.new) }
        ensures err { OnErr result
            (DoesPart (MayHearDialInPart now on number.now) self.old self.new) }
    {
        match self.agent.dialled(now, on, number.as_bytes(), leg) {
            Ok(()) => Ok(()),
            Err(AllocError) => {
                self.note(Err(AllocError));
                Err(AllocError)
            }
        }
    }

    /// The call on a calling leg has ended.
    fn end_call(&mut self, now: u64, on: Option<LineCall>)
        ensures { EndsIf now (option_map calling_place on) self.old self.new }
    {
        match on {
            Some(on) => self.end_place(now, on.on_calling_leg()),
            None => {}
        }
    }

    /// The job of a called leg has ended.
    fn end_job(&mut self, now: u64, on: Option<LineCall>)
        ensures { EndsIf now (option_map called_place on) self.old self.new }
    {
        match on {
            Some(on) => self.end_place(now, on.on_called_leg()),
            None => {}
        }
    }

    /// The call of a leg has ended.
    fn end_place(&mut self, now: u64, place: Place)
        ensures { AndCollects now (Ends now place) self.old self.new }
    {
        self.end(now, place);
        self.collect(now);
    }

    /// What is to be sent.
    pub fn take_datagrams(&mut self) -> Vec<Datagram>
        ensures taken { result.items ≡ self.old.agent.datagrams }
        ensures rest { self.new
            ≡ record self.old { agent = record self.old.agent { datagrams = [] } } }
    {
        self.agent.take_datagrams()
    }

    /// How many calls have audio on.
    pub fn sounds(&self) -> usize {
        self.sounds.count()
    }

    /// The packet that is due of one of these.
    pub fn sound(&mut self, i: usize, now: u64) -> Option<AudioPacket>
        ensures { self.new ≡ self.old }
    {
        self.sounds.packet(i, now)
    }

    /// Whether an INVITE is taken now.
    pub fn set_open(&mut self, is_open: bool)
        ensures { self.new ≡ self.old }
    {
        self.agent.set_open(is_open && !self.is_leaving);
    }

    /// The server stops: no call is taken any more, and the registrations end.
    pub fn leave(&mut self, now: u64)
        ensures { Leaves now self.old.is_leaving self.old self.new }
    {
        match self.begin_leaving() {
            true => {}
            false => self.say_goodbye(now),
        }
    }

    /// No call is taken any more, the registrations end, and what the agent orders then is taken.
    fn say_goodbye(&mut self, now: u64)
        ensures { AndCollects now (Does IsQuiet IsQuiet) self.old self.new }
    {
        self.set_open(false);
        self.end_registrations(now);
        self.collect(now);
    }

    /// The server stops; whether it did before.
    fn begin_leaving(&mut self) -> bool
        ensures before { result ≡ self.old.is_leaving }
        ensures rest { self.new ≡ record self.old { is_leaving = true } }
    {
        let was_leaving = self.is_leaving;
        self.is_leaving = true;
        was_leaving
    }

    /// The registrations end.
    fn end_registrations(&mut self, now: u64)
        ensures { Does IsQuiet IsQuiet self.old self.new }
    {
        let outcome = self.agent.leave(now);
        self.note(outcome);
    }

    /// The server has stopped: all calls end.
    pub fn end_all(&mut self, now: u64)
        ensures { EndsAll now self.old self.new }
    {
        let places = self.take_places();
        self.tell_all_over(now, places);
        self.collect(now);
    }

    /// The legs whose calls SIP holds; it holds them no more.
    fn take_places(&mut self) -> Vec<Place>
        ensures places { result.items ≡ self.old.places }
        ensures rest { self.new ≡ record self.old { places = [] } }
    {
        mem::replace(&mut self.places, Vec::new(self.alloc))
    }

    /// The agent is told that these calls are over.
    fn tell_all_over(&mut self, now: u64, places: Vec<Place>)
        ensures { EndsEach now places.items self.old self.new }
    {
        for place in places {
            self.tell_over(now, place);
        }
    }

    /// Whether nothing is due any more.
    pub fn is_settled(&self) -> bool {
        self.agent.next_due().is_none()
    }

    /// How many answers there were.
    pub(crate) fn counts(&self) -> &[Count] {
        self.agent.counts()
    }
}

/// The call of a leg is held no more.
fn let_go(places: &mut Vec<Place>, place: Place)
    ensures { places.new.items ≡ without place places.old.items }
{
    places.retain(|held| !held.is_same(place));
}
