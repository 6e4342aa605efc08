//! What is asked of a line, and what it answers.

use fax_gateway::{Leg, PlaceFault, RingFault};
use fax_wires::repeat::{Bounds, Peer};

/// A call rings.
#[derive(Clone, Copy, PartialEq, Eq)]
pub struct RingRequest {
    /// What bounds its datagrams.
    pub bounds: Bounds,
    /// Where it begins the calling leg has no peer, until one is said.
    pub forgets_peer: bool,
}

/// The peer of a leg is this one.
#[derive(Clone, Copy, PartialEq, Eq)]
pub struct PeerRequest {
    pub leg: Leg,
    pub peer: Peer,
}

/// The called machine has answered, and is this peer.
#[derive(Clone, Copy, PartialEq, Eq)]
pub struct ConnectRequest {
    pub peer: Peer,
}

/// The call of the peer of a leg is gone.
#[derive(Clone, Copy, PartialEq, Eq)]
pub struct HangingUp {
    pub leg: Leg,
}

/// What is asked of a line, at a moment.
#[derive(Clone, Copy, PartialEq, Eq)]
pub enum LineRequest {
    /// It rings: a call is to begin on the calling leg.
    Ring(RingRequest),
    /// From now on a leg has this peer.
    Peer(PeerRequest),
    /// The called machine of the job whose call it asks for has answered: that call is to begin on the called leg, which has this
    /// peer from now on.
    Connect(ConnectRequest),
    /// The called machine of the job whose call it asks for could not be reached.
    NotConnected,
    /// The peer's call on a leg is gone.
    HangUp(HangingUp),
}

/// What it answered.
#[derive(Clone, Copy, PartialEq, Eq)]
pub enum LineAnswer {
    /// To a ring: the number of the call that begins, or why none does.
    Rung(Result<u32, RingFault>),
    /// To what is asked of a job's call: it begins, or is over as it begins, where the machine could not be reached. Or why none
    /// does.
    Placed(Result<(), PlaceFault>),
    /// There is no way to the peer, and nothing is done.
    NoRoute,
    /// It is done.
    Done,
}
