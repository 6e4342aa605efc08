//! The control words.
use fax_gateway::Leg;
use std::net::SocketAddr;

/// The most octets of a line, its line feed aside.
pub const MOST_OCTETS: usize = 256;

/// The most octets of a tag, and of the cause for which a call could not be placed.
pub const MOST_TAG_OCTETS: usize = 64;

/// What bounds the datagrams that a leg sends in a call. What is not said is as the line has it.
#[derive(Clone, Copy, PartialEq, Eq, Default)]
pub struct Bounds {
    /// How many packets before its own a datagram has at most: 0 to 8.
    pub redundancy: Option<u8>,
    /// The most octets of a datagram, 32 to 65,535, but of one that has its own packet alone.
    pub octets: Option<u16>,
}

/// What `ring` says.
#[derive(Clone, Copy, PartialEq, Eq)]
pub struct RingWord<'a> {
    /// The name of the line. `None`: any line whose calling leg is idle and has no peer of the configuration.
    pub line: Option<&'a str>,
    /// The tag of the call.
    pub tag: Option<&'a str>,
    pub bounds: Bounds,
}

/// What `peer` says.
#[derive(Clone, Copy, PartialEq, Eq)]
pub struct PeerWord<'a> {
    /// The name of the line.
    pub line: &'a str,
    pub leg: Leg,
    /// Where the leg's datagrams go from now on, and where alone they come from. `None`, of the calling leg alone: it is the
    /// sender of the first datagram that comes.
    pub address: Option<SocketAddr>,
    pub bounds: Bounds,
    /// The peer of a call that is on has moved.
    pub is_moved: bool,
}

/// Which call `discard` and `retry` are about.
#[derive(Clone, Copy, PartialEq, Eq)]
pub struct CallWord<'a> {
    /// The name of the line.
    pub line: &'a str,
    /// The number of the life that the call came in.
    pub life: u32,
    /// The number of the call there.
    pub call: u32,
}

/// A control word. Names of lines and tags are as they were said.
#[derive(Clone, Copy, PartialEq, Eq)]
pub enum Word<'a> {
    /// Rings the calling leg of a line.
    Ring(RingWord<'a>),
    /// Says the peer of a leg.
    Peer(PeerWord<'a>),
    /// The peer's call on a leg is gone.
    HangUp(&'a str, Leg),
    /// The call of a line's job, which is asked for, could not be placed, for this cause.
    Refuse(&'a str, &'a str),
    /// Asks for the last reports of a line.
    Report(&'a str),
    /// Asks for the jobs that could not be delivered: those of a line, or of all lines.
    Undelivered(Option<&'a str>),
    /// Drops the pages of a call that could not be delivered.
    Discard(CallWord<'a>),
    /// Tries at once to deliver the pages of a call that could not be delivered.
    Retry(CallWord<'a>),
    /// Asks how each line is.
    Status,
    /// Asks for the counts.
    Metrics,
    /// Asks for events, from now on.
    Events,
    /// The same, and for what happens in the calls of this line, in words.
    Frames(&'a str),
    /// The configuration is to be read again, and served by another run.
    Reload,
    /// No ring is taken any more; a second one ends at once.
    Stop,
}
