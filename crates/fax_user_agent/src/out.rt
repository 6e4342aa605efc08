//! What comes out of a user agent.
use arrayvec::ArrayVec;
use fax_switch::{AudioEnd, FaxEnd, Place};
use std::net::SocketAddr;

/// The most octets of a tag: a number, a stroke, and an ID.
pub const MOST_TAG: usize = 64;

/// A datagram that is to be sent.
#[derive(Drop)]
pub struct Datagram {
    /// Where it goes.
    pub to: SocketAddr,
    /// What it is: a message.
    pub octets: Vec<u8>,
}

/// The tag of a call: `NUMBER/ID`, the number that was called and a name that no other call has.
pub type Tag = ArrayVec<u8, MOST_TAG>;

/// What is to be done on a line.
#[derive(Drop)]
pub enum LineOrder {
    /// `ring any TAG`, for the call of this number: `rung` or `not_rung` answers it.
    Ring(u64, Tag),
    /// `peer` of this call's leg: there is T.38 at this address, of so many octets a datagram at most. It is said again, `moved`, where it was said before in
    /// this call.
    Peer(Place, FaxEnd, bool),
    /// Audio is sent there from now on, until the next order about this call: CED on a calling leg, CNG on a called one.
    AudioOn(Place, AudioEnd),
    /// Audio is sent no more.
    AudioOff(Place),
    /// `refuse`: the call of a job was not placed, with this status.
    Refuse(Place, u16),
    /// `hangup` of this call's leg.
    HangUp(Place),
}

/// Which way a call goes.
#[derive(Clone, Copy)]
pub enum Direction {
    /// They call us.
    In,
    /// We call.
    Out,
}

/// How far a call is.
#[derive(Clone, Copy)]
pub enum Progress {
    /// Its INVITE came, or was sent.
    Begun,
    /// Its INVITE was answered with a 2xx.
    Answered,
    /// Its INVITE was refused with this status.
    Refused(u16),
    /// Its dialog is over.
    Over,
}

/// What is told of a call.
#[derive(Drop)]
pub struct CallTold {
    /// Its number, as `LineOrder::Ring` has it.
    pub call: u64,
    /// The place of its trunk.
    pub trunk: usize,
    /// Which way it goes.
    pub direction: Direction,
    /// The number that is called.
    pub number: Tag,
    /// How far it is.
    pub progress: Progress,
}

/// What is told.
#[derive(Drop)]
pub enum Told {
    /// Something of a call.
    Call(CallTold),
    /// Whether we are registered with the trunk at this place; it has changed.
    Registration(usize, bool),
}

/// How many answers with a status were sent or came.
#[derive(Clone, Copy)]
pub struct Count {
    /// The status.
    pub status: u16,
    /// How many were sent, repeats aside.
    pub sent: u64,
    /// How many came, repeats aside.
    pub came: u64,
}

/// What a datagram was.
#[derive(Clone, Copy)]
pub enum Heard {
    /// Its sender is no trunk's: nothing was done, and nothing is answered.
    Stranger,
    /// It is no message: it was dropped.
    NoMessage(fax_sip::SipFault),
    /// A message.
    Message,
}
