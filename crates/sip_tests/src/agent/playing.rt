//! A user agent, and the other end of its calls: what happens, and all that comes of it, in words.
use super::other_end::{Answered, Asked, head_of};
use fax_switch::{LineCall, Offer};
use fax_trunks::{Number, Route};
use fax_user_agent::{Heard, LineOrder, Settings, Told, Trunk, UserAgent};
use std::alloc::{AllocError, Global};
use std::net::{IpAddr, Ipv4Addr, SocketAddr};
use std::str;

/// The call of a line.
const ON: LineCall = LineCall { line: 3, call: 7 };

/// What happens.
#[derive(Clone, Copy)]
pub(super) enum Step<'a> {
    /// It is this moment, in milliseconds: what is due first is done.
    At(u64),
    /// The trunk asks this.
    Asked(Asked<'a>),
    /// One asks it that is no trunk.
    Strange(Asked<'a>),
    /// The trunk answers what was said last.
    Answered(Answered<'a>),
    /// The line is rung.
    Rung,
    /// The call of a job is asked for.
    Dialled,
    /// The call of the calling leg is over.
    CallOver,
    /// The job of the called leg is over.
    JobOver,
}

/// A user agent, and what came of all that happened.
#[derive(Drop)]
struct PlayedAgent {
    alloc: Global,
    agent: UserAgent,
    now: u64,
    /// What it said last, but for a CANCEL: what that is about is answered.
    last: String,
    words: String,
}

/// An address of RFC 5737.
fn at(last: u8, port: u16) -> SocketAddr {
    SocketAddr::new(IpAddr::V4(Ipv4Addr::new(192, 0, 2, last)), port)
}

/// The route of numbers in Germany, over the one trunk.
fn routes(alloc: Global) -> Result<Vec<Route>, AllocError> {
    let mut routes = Vec::new(alloc);
    if let Ok(prefix) = Number::read(b"+49")
        && let Ok(route) = Route::new(prefix, 0, 0, b"")
    {
        routes.push(route)?;
    }
    Ok(routes)
}

/// The trunk, with which we register, or not.
fn trunk(alloc: Global, registers: bool) -> Result<Trunk, AllocError> {
    Ok(Trunk {
        address: at(4, 5_060),
        allow: Vec::new(alloc),
        user: String::from_str(alloc, "fax1")?,
        password: String::from_str(alloc, "secret")?,
        registers,
        first_offer: Offer::Fax,
        calls: 2,
    })
}

/// A user agent of this trunk and that route, which takes calls.
fn agent(alloc: Global, registers: bool) -> Result<UserAgent, AllocError> {
    let mut trunks = Vec::new(alloc);
    trunks.push(trunk(alloc, registers)?)?;
    let settings = Settings {
        local: at(1, 5_060),
        audio: at(1, 40_998),
        ring_seconds: 90,
        calls: 8,
        trunks,
        routes: routes(alloc)?,
    };
    let mut agent = UserAgent::new(alloc, settings, [7; 32])?;
    agent.set_open(true);
    Ok(agent)
}

impl PlayedAgent {
    /// Nothing happened.
    fn new(alloc: Global, registers: bool) -> Result<Self, AllocError> {
        Ok(PlayedAgent {
            alloc,
            agent: agent(alloc, registers)?,
            now: 0,
            last: String::new(alloc),
            words: String::new(alloc),
        })
    }

    /// This happens.
    fn step(&mut self, step: Step<'_>) -> Result<(), AllocError> {
        match step {
            Step::At(now) => {
                self.now = now;
                self.agent.go_on(now)
            }
            Step::Asked(asked) => {
                let text = self.asked(asked)?;
                self.hear(at(4, 5_060), text)
            }
            Step::Strange(asked) => {
                let text = self.asked(asked)?;
                self.hear(at(5, 5_060), text)
            }
            Step::Answered(answer) => {
                let text = self.answered(answer)?;
                self.hear(at(4, 5_060), text)
            }
            Step::Rung => self.agent.rung(self.now, 0, ON, at(1, 30_000)),
            Step::Dialled => self.agent.dialled(self.now, ON, b"+4930123", at(1, 30_000)),
            Step::CallOver => self.agent.call_over(self.now, ON),
            Step::JobOver => self.agent.job_over(self.now, ON),
        }
    }

    /// The octets of what is asked.
    fn asked(&self, asked: Asked<'_>) -> Result<String, AllocError> {
        asked.text(self.alloc, self.last.as_str())
    }

    /// The octets of an answer to what was said last.
    fn answered(&self, answer: Answered<'_>) -> Result<String, AllocError> {
        answer.text(self.alloc, self.last.as_str())
    }

    /// A message comes, from there.
    fn hear(&mut self, from: SocketAddr, text: String) -> Result<(), AllocError> {
        let word = match self.agent.hear(self.now, from, text.as_bytes())? {
            Heard::Stranger => "stranger ",
            Heard::NoMessage(_) => "none ",
            Heard::Message => "",
        };
        self.words.push_str(word)
    }

    /// What is to go out is told, and what lines are to do.
    fn gather(&mut self) -> Result<(), AllocError> {
        for datagram in &self.agent.take_datagrams() {
            let text = str::from_utf8(datagram.octets.as_slice()).unwrap_or("?");
            self.words.push_str(head_of(text))?;
            self.words.push_str(" ")?;
            if head_of(text) != "CANCEL" {
                self.last = String::from_str(self.alloc, text)?;
            }
        }
        for order in &self.agent.take_orders() {
            self.words.push_str(word_of(order))?;
        }
        for told in &self.agent.take_told() {
            self.words.push_str(told_as(told))?;
        }
        self.words.push_str("| ")
    }
}

/// The word of an order.
fn word_of(order: &LineOrder) -> &'static str {
    match order {
        LineOrder::Ring(_, _) => "ring ",
        LineOrder::Peer(_, _, false) => "peer ",
        LineOrder::Peer(_, _, true) => "moved ",
        LineOrder::AudioOn(_, _) => "audio ",
        LineOrder::AudioOff(_) => "silence ",
        LineOrder::Refuse(_, _) => "refuse ",
        LineOrder::HangUp(_) => "hangup ",
    }
}

/// The word of a registration. Calls are told by others.
fn told_as(told: &Told) -> &'static str {
    match told {
        Told::Registration(0, true) => "registered ",
        Told::Registration(_, _) => "unregistered ",
        Told::Call(_) => "",
    }
}

/// What comes of these steps: after each, what was sent, by its method or status, the words to lines, and registrations; and whether
/// something is still due.
pub(super) fn play(
    alloc: Global,
    registers: bool,
    steps: &[Step<'_>],
) -> Result<String, AllocError> {
    let mut play = PlayedAgent::new(alloc, registers)?;
    for step in steps {
        play.step(*step)?;
        play.gather()?;
    }
    let end = if play.agent.next_due().is_none() {
        "over"
    } else {
        "on"
    };
    play.words.push_str(end)?;
    Ok(play.words)
}
