//! What is asked of a line, and what that comes to.
use crate::questions::Cause;
use crate::tag::Tag;
use crate::view::FirstJob;
use fax_control::Refusal;
use fax_gateway::Leg;
use fax_line::LineRequest;
use fax_wires::repeat::{Bounds, Peer};

/// A ring, with this tag, of a call that is bounded so.
#[derive(Clone, Copy)]
pub struct RingAsk {
    pub tag: Option<Tag>,
    pub bounds: Bounds,
}

/// A peer of a leg. A peer that was heard in the call that is on gives way only where it has moved.
#[derive(Clone, Copy)]
pub struct PeerAsk {
    pub leg: Leg,
    pub peer: Peer,
    pub is_moved: bool,
}

/// The peer's call on a leg is gone.
#[derive(Clone, Copy)]
pub struct HangUpAsk {
    pub leg: Leg,
}

/// What is asked of a line.
#[derive(Clone, Copy)]
pub enum Ask {
    Ring(RingAsk),
    Peer(PeerAsk),
    /// The called machine could not be reached, for this cause.
    Refuse(Tag),
    HangUp(HangUpAsk),
    Report,
    /// What happens in its calls, from now on.
    Frames,
}

/// The job that is connected: the call that its pages came in, and what is known of it.
#[derive(Clone, Copy)]
pub struct ConnectNote {
    pub call: u32,
    pub first: FirstJob,
}

/// What is kept of an order until it is told back.
#[derive(Clone, Copy)]
pub enum Note {
    Nothing,
    /// The tag of a ring.
    Ring(Option<Tag>),
    /// The same, where any line was to ring.
    RingAny(Option<Tag>),
    Connect(ConnectNote),
    /// For what cause the called machine could not be reached.
    Refuse(Cause),
}

/// An order: this is asked of this line.
#[derive(Clone, Copy)]
pub struct Order {
    pub line: usize,
    pub what: LineRequest,
    pub note: Note,
}

/// A word is refused.
#[derive(Clone, Copy)]
pub struct RefusedWord {
    pub why: Refusal,
}

/// Of any line, this one was rung, for this call.
#[derive(Clone, Copy)]
pub struct RungOn {
    pub line: usize,
    pub call: u32,
}

/// How a word is answered.
#[derive(Clone, Copy)]
pub enum Reply {
    Done,
    Rung(u32),
    RungOn(RungOn),
    Refused(RefusedWord),
}

/// What a word comes to: it is answered, or gives an order by whose end it is answered, or a text answers it.
#[derive(Clone, Copy)]
pub enum Next {
    Replies(Reply),
    Orders(Order),
    /// The last reports of this line.
    Reports(usize),
    /// The jobs that could not be delivered, of the line that the word names, or of all.
    Undelivered,
    /// The pages of the job that the word names are to be dropped.
    Discards,
    /// The job that the word names is to be tried again at once.
    Retries,
    Status,
    Metrics,
    /// From now on the client hears events; first it is told what is on.
    Events,
    /// The same, and it is told what happens in the calls of this line.
    Frames(usize),
    /// The configuration is to be read again.
    Reloads,
}
