//! What is set for a user agent.
use fax_switch::Offer;
use fax_trunks::{Network, Route};
use std::net::SocketAddr;

/// A trunk: a host over which calls come in and go out.
#[derive(Drop)]
pub struct Trunk {
    /// Where it is heard.
    pub address: SocketAddr,
    /// Who may call from there, beside its own address.
    pub allow: Vec<Network>,
    /// The user by whose name we call and register; empty: none.
    pub user: String,
    /// The password that answers its challenges.
    pub password: String,
    /// Whether we register with it.
    pub registers: bool,
    /// What our calls offer first. The other offer follows once where this one is refused.
    pub first_offer: Offer,
    /// How many calls there may be at a time, of both directions.
    pub calls: u32,
}

/// What is set for a user agent.
#[derive(Drop)]
pub struct Settings {
    /// Where SIP is heard: our `Via` and `Contact`.
    pub local: SocketAddr,
    /// Where audio is heard.
    pub audio: SocketAddr,
    /// How many seconds the other end has for a 2xx to our INVITE.
    pub ring_seconds: u32,
    /// How many calls there may be at a time, over all trunks.
    pub calls: usize,
    /// The trunks. Elsewhere they are told by their place in this list.
    pub trunks: Vec<Trunk>,
    /// The routes, each over a trunk of that list. A number without one is neither called nor taken.
    pub routes: Vec<Route>,
}
