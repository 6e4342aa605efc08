//! Media of a call: what is offered, what a description says, and what is agreed on.
use std::net::SocketAddr;

/// T.38 at the other end.
#[derive(Clone, Copy)]
pub struct FaxEnd {
    /// Where it is heard.
    pub address: SocketAddr,
    /// The most octets of a datagram that it hears (`T38FaxMaxDatagram`), where that is told.
    pub octets: Option<u32>,
}

/// How audio is coded.
#[derive(Clone, Copy, PartialEq, Eq)]
pub enum Coding {
    /// PCMU.
    MuLaw,
    /// PCMA.
    ALaw,
}

/// Audio at the other end.
#[derive(Clone, Copy)]
pub struct AudioEnd {
    /// Where it is heard.
    pub address: SocketAddr,
    /// How it is coded.
    pub coding: Coding,
}

/// What a message of the other end describes.
#[derive(Clone, Copy)]
pub enum Description {
    /// T.38.
    FaxAt(FaxEnd),
    /// Audio alone.
    AudioAt(AudioEnd),
    /// Nothing.
    NothingSaid,
    /// Nothing of which we have a use.
    Unusable,
}

/// What a message of ours describes.
#[derive(Clone, Copy, PartialEq, Eq)]
pub enum Offer {
    /// T.38 at the address of the leg.
    Fax,
    /// Audio.
    Audio,
}

/// What both ends have agreed on.
#[derive(Clone, Copy, PartialEq, Eq)]
pub enum Media {
    /// Audio, or nothing so far.
    AudioOnly,
    /// T.38.
    FaxAgreed,
    /// Our 2xx offered T.38, and the ACK has their answer (RFC 3264, 4; RFC 3261, 13.2.2.4).
    FaxOffered,
}
