//! The sockets of a line's legs, as a wire of its gateway: each is connected to its peer, and does not wait.
#![tactic(auto)]

mod bounding;
mod handing;
mod hang_up;
pub mod laws;
mod leg_peer;
mod leg_socket;
mod lent_socket;
mod sending;
mod socket;
mod tap;
mod udp_wire;

pub use leg_socket::{LegCounts, LegSocket};
pub use lent_socket::LentSocket;
pub use socket::DatagramSocket;
pub use udp_wire::UdpWire;
