//! What a server wants of the system: the sockets of the lines of its configuration, with what these begin with, the control socket, and the
//! clock; and why it cannot be had.
#![tactic(auto)]

mod clock;
mod control;
mod fault;
mod named_fault;
mod sockets;

pub use clock::Stopwatch;
pub use control::{close_control, open_control};
pub use fault::ServeFault;
pub use named_fault::NamedFault;
pub use sockets::{ServedWire, SocketWire, open_lines, open_restored_lines, settings_of};
