//! The user agent of the gateway for SIP (RFC 3261): datagrams, moments and what lines say go in; datagrams, orders for lines and what is told come out.
//!
//! Nothing here reads a clock or a socket, and what is random comes of the seed that is handed in. Moments and spans are milliseconds.
#![tactic(auto)]

mod accepting;
mod agent;
mod agreeing;
mod answered;
mod asked;
mod book;
mod call;
mod client;
mod desk;
mod dialling;
mod due;
mod lane;
mod offering;
mod ordering;
mod out;
mod outbox;
mod profile;
mod random;
mod registering;
mod server;
mod settings;

pub use agent::UserAgent;
pub use out::{
    CallTold, Count, Datagram, Direction, Heard, LineOrder, MOST_TAG, Progress, Tag, Told,
};
pub use settings::{Settings, Trunk};
