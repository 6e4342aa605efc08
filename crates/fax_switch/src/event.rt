//! What happens.
use crate::media::{Description, Offer};
use crate::place::LineCall;

/// How the call of a job is placed.
#[derive(Clone, Copy)]
pub enum Choice {
    /// Over the route at this place, first with this offer.
    Routed(usize, Offer),
    /// No route takes its number.
    Unrouted,
    /// As many calls are on as its trunk may have.
    TrunkFull,
}

/// What happens in one call.
#[derive(Clone, Copy)]
pub enum CallEvent {
    /// An answer to our INVITE has this status, and describes this; where it is 491 our next waits so long, in milliseconds.
    InviteAnswered(u16, u64, Description),
    /// A 2xx to an INVITE of ours came again.
    AnswerRepeated,
    /// An INVITE within the dialog describes this.
    Reinvited(Description),
    /// The ACK of our last 2xx describes this.
    Acknowledged(Description),
    /// A BYE of theirs.
    ByeReceived,
    /// Our BYE was answered, or was given up.
    ByeDone,
    /// A CANCEL of their first INVITE.
    CancelReceived,
    /// The session is to be refreshed (RFC 4028, 7.2).
    RefreshDue,
    /// The session was not refreshed in time (RFC 4028, 10).
    Expired,
}

/// What happens.
#[derive(Clone, Copy)]
pub enum Event {
    /// Time passed.
    Elapsed,
    /// An INVITE of a host that may call has a number with this route, and describes this.
    Came(usize, Description),
    /// `ring any` was answered `ok`: this call has this call of a line.
    Rung(u64, LineCall),
    /// `ring any` was refused: this call is answered with this status.
    NotRung(u64, u16),
    /// The call of a job is asked for (`dial`).
    Dialled(LineCall, Choice),
    /// The call on a calling leg is over (`ended`).
    CallOver(LineCall),
    /// The job of a called leg is over (`job`).
    JobOver(LineCall),
    /// Something happens in this call.
    Within(u64, CallEvent),
}
