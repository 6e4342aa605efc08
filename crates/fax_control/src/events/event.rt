//! What happens on a line, or to all of them.
ghost use Rattle.std.specs.Prelude.{◌≡◌};
ghost use Rattle.fax_control.specs.events.Events.{aside_name, direction_name, ending_name, event_name};

use crate::Leg;
use fax_answer::Refusal;
use fax_jobs::{Outcome, Report};
use fax_pagestore::Format;

/// Which way datagrams go.
#[derive(Clone, Copy, PartialEq, Eq)]
pub enum Direction {
    Receives,
    Sends,
}

impl Direction {
    /// The direction's name in an event.
    pub(crate) fn name(self) -> &'static str
        ensures { result.now ≡ direction_name self }
    {
        match self {
            Direction::Receives => "receives",
            Direction::Sends => "sends",
        }
    }
}

/// How a call on the calling leg ended.
#[derive(Clone, Copy, PartialEq, Eq)]
pub enum Ending {
    /// The peer said so (DCN, ITU-T T.30, 5.3.6.1.6), or its pages were confirmed and it said no more.
    Done,
    /// The peer's call was gone: an operator said so.
    HungUp,
    /// The gateway gave the call up: the peer said nothing for too long, or nothing that it could take.
    GivenUp,
    /// A page of the call could not be kept, so that nothing was said after it.
    NotStored,
}

impl Ending {
    /// The ending's name in an event.
    pub(crate) fn name(self) -> &'static str
        ensures { result.now ≡ ending_name self }
    {
        match self {
            Ending::Done => "Done",
            Ending::HungUp => "HungUp",
            Ending::GivenUp => "GivenUp",
            Ending::NotStored => "NotStored",
        }
    }
}

/// Why a page that was stored in an earlier life is not sent.
#[derive(Clone, Copy, PartialEq, Eq)]
pub enum WhyAside {
    /// Its text means no page.
    NoPage,
    /// A page of its call is lost: its record is damaged.
    TornCall,
    /// No line of the configuration has the name of its line.
    NoLine,
}

impl WhyAside {
    /// The reason's name in an event.
    pub(crate) fn name(self) -> &'static str
        ensures { result.now ≡ aside_name self }
    {
        match self {
            WhyAside::NoPage => "NoPage",
            WhyAside::TornCall => "TornCall",
            WhyAside::NoLine => "NoLine",
        }
    }
}

/// A page that was stored in an earlier life, and is not sent.
#[derive(Clone, Copy, PartialEq, Eq)]
pub struct PageAside {
    /// The number of that life.
    pub life: u32,
    /// The number of its call there.
    pub call: u32,
    /// Its number in the call, from 1 on.
    pub number: u32,
    pub why: WhyAside,
}

/// A page that was confirmed.
#[derive(Clone, Copy, PartialEq, Eq)]
pub struct PageConfirmed {
    /// The number of its call.
    pub call: u32,
    /// Its number in the call, from 1 on.
    pub number: u32,
    pub format: Format,
    /// How many rows it has.
    pub rows: u32,
}

/// A job whose call is asked for.
#[derive(Clone, Copy, PartialEq, Eq)]
pub struct AskedJob {
    /// The number of the call that its pages came in.
    pub call: u32,
    /// How often a call of the job was asked for, this time included: 1 at first.
    pub tries: u32,
    /// How many pages it has.
    pub pages: u32,
    /// For how many seconds an answer is waited for.
    pub seconds: u32,
}

/// A job that could not be delivered, and whose pages are kept: those that its called machine did not confirm.
#[derive(Clone, Copy, PartialEq, Eq)]
pub struct UndeliveredJob {
    /// The number of the life in which its pages came.
    pub life: u32,
    /// The number of the call that they came in.
    pub call: u32,
    /// How many pages are kept.
    pub pages: u32,
    /// How it ended last.
    pub outcome: Outcome,
    /// How often it was tried.
    pub tries: u32,
    /// When it ended last, in seconds since 1970 (Unix time).
    pub at: u64,
}

/// What happened.
#[derive(Clone, Copy, PartialEq, Eq)]
pub enum What<'a> {
    /// The calling leg was rung: the number of the call, and its tag.
    Rung(u32, Option<&'a str>),
    /// A page was confirmed, in the call of this tag.
    Page(PageConfirmed, Option<&'a str>),
    /// A page was refused (RTN): the number of its call, the tag of that, and why.
    RefusedPage(u32, Option<&'a str>, Refusal),
    /// A call ended: its number, its tag, and how.
    Ended(u32, Option<&'a str>, Ending),
    /// The call of a job begins: the number of the call that its pages came in, and the tag of that.
    Dial(u32, Option<&'a str>),
    /// The call of a job is asked for, and begins once it is placed; the tag is that of the call that its pages came in.
    Asked(AskedJob, Option<&'a str>),
    /// The call of a job that was asked for was placed: the number of the call that its pages came in, and the tag of that. It is
    /// told too of each job whose call is on and whose called leg has a peer, to a client that wants events from now on.
    Connected(u32, Option<&'a str>),
    /// A job ended: its report, the tag of the call that its pages came in, and for what cause its own call was not placed.
    Job(Report, Option<&'a str>, Option<&'a str>),
    /// A job could not be delivered, and its pages are kept; the tag of the call that they came in, and for what cause its own call
    /// was not placed. It is told too of each such job, to a client that asks for them.
    Undelivered(UndeliveredJob, Option<&'a str>, Option<&'a str>),
    /// A word dropped the pages of a job that could not be delivered: the number of the life in which they came, that of the call
    /// that they came in, and the tag of that.
    Discarded(u32, u32, Option<&'a str>),
    /// A leg's receives or sends fail: so many did since the line began.
    Wire(Leg, Direction, u64),
    /// The line was turned so many milliseconds late.
    Late(u64),
    /// A datagram was refused for want of memory, of which a line has only so much, in the call of this number: it is told once in a
    /// call.
    Full(u32),
    /// A page was confirmed and could not be kept on the disk: the number of its call, and the tag of that. Nothing is said on
    /// the call's leg any more.
    NotStored(u32, Option<&'a str>),
    /// A page that was stored in an earlier life is not sent; the tag is that of its call.
    SetAside(PageAside, Option<&'a str>),
    /// The start found so many damaged records in the spool, and passed so many octets over in which nothing could be read. It is told
    /// of no line.
    Damaged(u64, u64),
    /// A thing happened in a call: where, and in which words it is told. It is told those alone who watch the line.
    Frame(&'a str, &'a str),
    /// A call of the spool's disk failed: no page is stored from now on, until the spool is opened anew. It is told of no line.
    SpoolFailed,
}

impl<'a> What<'a> {
    /// The name of the event.
    pub fn name(&self) -> &'static str
        ensures { result.now ≡ event_name self.now }
    {
        match self {
            What::Rung(_, _) => "rung",
            What::Page(_, _) => "page",
            What::RefusedPage(_, _, _) => "refused_page",
            What::Ended(_, _, _) => "ended",
            What::Dial(_, _) | What::Asked(_, _) => "dial",
            What::Connected(_, _) => "connected",
            What::Job(_, _, _) => "job",
            What::Undelivered(_, _, _) => "undelivered",
            What::Discarded(_, _, _) => "discarded",
            What::Wire(_, _, _) => "wire",
            What::Late(_) => "late",
            What::Full(_) => "full",
            What::NotStored(_, _) => "not_stored",
            What::SetAside(_, _) => "set_aside",
            What::Damaged(_, _) => "damaged",
            What::Frame(_, _) => "frame",
            What::SpoolFailed => "spool_failed",
        }
    }
}

/// Something that happened.
#[derive(Clone, Copy, PartialEq, Eq)]
pub struct Event<'a> {
    /// The name of the line; none where it happened to all of them.
    pub line: Option<&'a str>,
    /// When, in milliseconds since the gateway began.
    pub at: u64,
    pub what: What<'a>,
}
