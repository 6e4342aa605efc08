//! One medium of a session, and what is said of it.
ghost use Rattle.std.specs.Prelude.{◌≡◌, IfSome, IfNone, option_map};
ghost use Rattle.std.specs.declared.net.socket_addr.SocketAddr.{SocketAddr};
ghost use Rattle.fax_sdp.specs.Media.{IsAt, IsHeardAt, is_audio, is_held, is_inactive as goes_nowhere, is_open, is_t38, is_zero as stands_for_hold};
ghost use Rattle.fax_sdp.specs.Sessions.{medium_text};

use crate::lines::{has_word, same_word};
use std::net::{IpAddr, SocketAddr};

/// Which way a medium goes, as its sender sees it.
#[derive(Clone, Copy, Default)]
pub enum Direction {
    /// `sendrecv`, or nothing said.
    #[default]
    SendReceive,
    /// `sendonly`.
    SendOnly,
    /// `recvonly`.
    ReceiveOnly,
    /// `inactive`.
    Inactive,
}

/// Who makes the training check (TCF).
#[derive(Clone, Copy, PartialEq, Eq)]
pub enum RateManagement {
    /// `localTCF`.
    Local,
    /// `transferredTCF`.
    Transferred,
}

/// How lost packets are made good.
#[derive(Clone, Copy, PartialEq, Eq)]
pub enum ErrorCorrection {
    /// `t38UDPRedundancy`.
    Redundancy,
    /// `t38UDPFEC`.
    Parity,
    /// `t38UDPNoEC`.
    Nothing,
}

/// What is said of T.38 (T.38, annex D); none where nothing is said.
#[derive(Clone, Copy, Default)]
pub struct Terms {
    /// `T38FaxVersion`.
    pub version: Option<u32>,
    /// `T38MaxBitRate`, bits a second.
    pub bit_rate: Option<u32>,
    /// `T38FaxRateManagement`.
    pub rate_management: Option<RateManagement>,
    /// `T38FaxUdpEC`.
    pub error_correction: Option<ErrorCorrection>,
    /// `T38FaxMaxBuffer`, octets.
    pub max_buffer: Option<u32>,
    /// `T38FaxMaxDatagram`, octets.
    pub max_datagram: Option<u32>,
}

/// An `m=` line, and what holds of it.
#[derive(Clone, Copy, Default)]
pub struct Medium<'a> {
    /// What it is: `image`, `audio`.
    pub name: &'a str,
    /// The port at which it is heard; 0: it is refused, or not offered.
    pub port: u16,
    /// What carries it: `udptl`, `RTP/AVP`.
    pub transport: &'a str,
    /// Its formats, with one space between: `t38`, `0 8`.
    pub formats: &'a str,
    /// The host of its `c=` line, or of the session's; none where neither is there.
    pub host: Option<&'a str>,
    /// Which way it goes.
    pub direction: Direction,
    /// What is said of T.38.
    pub terms: Terms,
}

impl Medium<'_> {
    /// Whether it is offered or taken: its port is not 0.
    pub fn is_open(&self) -> bool
        ensures { result ≡ is_open (medium_text self.now) }
    {
        self.port != 0
    }

    /// Whether it is T.38 over UDPTL, and open.
    pub fn is_t38(&self) -> bool
        ensures { result ≡ is_t38 (medium_text self.now) }
    {
        self.is_open()
            && same_word(self.name, "image")
            && same_word(self.transport, "udptl")
            && has_word(self.formats, "t38")
    }

    /// Whether it is audio over RTP in the format of this number (`0`: PCMU, `8`: PCMA), and open.
    pub fn is_audio(&self, payload: &str) -> bool
        ensures { result ≡ is_audio (medium_text self.now) payload.now }
    {
        self.is_open()
            && same_word(self.name, "audio")
            && same_word(self.transport, "RTP/AVP")
            && has_word(self.formats, payload)
    }

    /// Whether it is on hold: inactive, or with the host `0.0.0.0`.
    pub fn is_held(&self) -> bool
        ensures { result ≡ is_held (medium_text self.now) }
    {
        is_inactive(self.direction) || is_zero(self.host)
    }

    /// Where it is heard; none where it is not open, or its host is no address.
    pub fn address(&self) -> Option<SocketAddr>
        ensures some { IfSome result
            (λ address. IsHeardAt (medium_text self.now).host self.now.port address) }
        ensures none { IfNone result ((address : SocketAddr)
            → IsHeardAt (medium_text self.now).host self.now.port address → ⊥) }
    {
        match self.host {
            Some(host) => address_of(host, self.port),
            None => None,
        }
    }
}

/// Whether nothing is sent either way.
fn is_inactive(direction: Direction) -> bool
    ensures { result ≡ goes_nowhere direction }
{
    match direction {
        Direction::Inactive => true,
        Direction::SendReceive | Direction::SendOnly | Direction::ReceiveOnly => false,
    }
}

/// Whether a host is the one that stands for a hold.
fn is_zero(host: Option<&str>) -> bool
    ensures { result ≡ stands_for_hold (option_map (λ host. host.now) host.entry) }
{
    match host {
        Some(host) => host == "0.0.0.0",
        None => false,
    }
}

/// The address of a host and a port.
fn address_of(host: &str, port: u16) -> Option<SocketAddr>
    ensures some { IfSome result (λ address. IsAt host.now port address) }
    ensures none { IfNone result ((address : SocketAddr) → IsAt host.now port address → ⊥) }
{
    if port == 0 {
        return None;
    }
    match host.parse::<IpAddr>() {
        Ok(ip) => Some(SocketAddr::new(ip, port)),
        Err(_) => None,
    }
}
