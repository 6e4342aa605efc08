//! What a service manager is told of a server, as systemd hears it (sd_notify(3)): that its lines are open, and that it begins to stop. Each
//! notice is a datagram to a socket of the system's own (unix(7)), which the manager names.
#![tactic(auto)]

mod address;
mod carrier;
mod local;
mod manager;
mod message;
mod notice;
mod sending;

pub use address::address_of;
pub use carrier::Carrier;
pub use local::LocalSockets;
pub use manager::ServiceManager;
pub use message::message_of;
pub use notice::Notice;
pub use sending::{NoticeFault, send_notice};
