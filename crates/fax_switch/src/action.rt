//! What is to be done for a call.
use crate::media::{AudioEnd, FaxEnd, Offer};
use crate::place::Place;

/// What is to be sent in a call's dialog, or before it has one.
#[derive(Clone, Copy)]
pub enum SipAction {
    /// Nothing.
    Silence,
    /// The INVITE that opens the dialog, over this route, with this offer.
    SendOffer(usize, Offer),
    /// A CANCEL of that INVITE, as soon as it may be sent (RFC 3261, 9.1).
    Cancel,
    /// Their INVITE is answered with 200, which describes this.
    Accept(Offer),
    /// The same 200 again.
    AcceptAgain,
    /// What came is answered with this status.
    Reject(u16),
    /// The ACK of a 2xx.
    Ack,
    /// The ACK of a 2xx, and a BYE.
    AckAndBye,
    /// Our re-INVITE, which offers T.38.
    InviteAgain,
    /// A BYE.
    Bye,
    /// A BYE, and their INVITE is answered with 487.
    ByeAndReject,
    /// Their BYE is answered with 200.
    AcceptBye,
    /// Their BYE is answered with 200 and their INVITE with 487.
    AcceptByeAndReject,
}

/// What a line is told, or what is done on its audio.
#[derive(Clone, Copy)]
pub enum LineAction {
    /// Nothing.
    NoWord,
    /// `ring any`, with the tag of the call.
    RingAny,
    /// `peer`, of the leg of this call: from now on there is T.38, and no audio. It is said again, `moved`, where it was said before in this call.
    Peer(Place, FaxEnd, bool),
    /// Audio is sent there from now on, until the next action on this place.
    AudioOn(Place, AudioEnd),
    /// Audio is sent no more: the call of the line is over.
    AudioOff(Place),
    /// `refuse`: the call of a job could not be placed, with this status.
    RefuseCall(Place, u16),
    /// `hangup` of the leg of this call.
    HangUpLeg(Place),
}
