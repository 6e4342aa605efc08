//! A wire that sends again what may have been lost.
//!
//! Which datagrams are sent again, and when, is told in `specs/repeat/Policies`; what that comes to of all that was sent, in
//! `specs/repeat/Repeats`; who the peers of a wire's legs are, in `specs/repeat/Peers`.

mod last;
mod peers;
mod policy;
mod repeating;
mod timed;

pub use peers::{Bounds, LegState, LegWire, NoRoute, Peer};
pub use policy::RepeatPolicy;
pub use repeating::RepeatingWire;
pub use timed::TimedWire;
