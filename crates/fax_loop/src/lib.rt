//! Datagrams over UDP: a wire of a gateway over two sockets, and a call through a gateway over any lines, as over sockets of the
//! loopback interface, between two terminals of our own: what `faxgate loop` answers.
#![tactic(auto)]

mod answer;
mod connected_socket;
mod ending;
pub mod exchange;
pub mod laws;
mod loop_error;
mod loopback;
mod opens_lines;
mod opens_pairs;
mod run;
mod socket_lines;
mod udp_end;
mod udp_wire;
mod unstored;

pub use connected_socket::ConnectedSocket;
pub use ending::Ending;
pub use loopback::Loopback;
pub use opens_lines::OpensLines;
pub use opens_pairs::OpensPairs;
pub use run::{play_loop, run_loop};
pub use socket_lines::SocketLines;
pub use udp_end::UdpEnd;
pub use udp_wire::UdpWire;
