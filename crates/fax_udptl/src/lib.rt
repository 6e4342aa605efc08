//! Datagrams of ITU-T T.38, UDPTL with redundancy: a reader, a receiver that decides each slot of a call
//! once, and a sender. Lengths and counts are octets; numbers have 16 bits and wrap.
#![tactic(auto)]

mod datagram;
mod fault;
mod grammar;
pub mod laws;
mod packets;
mod receiver;
mod secondaries;
mod sender;

pub use datagram::{Datagram, read};
pub use fault::UdptlFault;
pub use packets::Packets;
pub use receiver::{Decided, Receiver};
pub use secondaries::Secondaries;
pub use sender::Sender;
