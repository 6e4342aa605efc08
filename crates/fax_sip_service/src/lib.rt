//! SIP beside the lines of a server: what the user agent orders is said at the desk as a client's words are, and what happens on lines
//! is told to the agent; the audio of its calls, what is told of them, and what is counted.
//!
//! Nothing here reads a clock or a socket: datagrams and moments, in milliseconds, go in, and datagrams come out.
#![tactic(auto)]

mod counting;
pub mod laws;
mod line;
mod placing;
mod said;
mod service;
mod setup;
mod sounds;
mod telling;
mod trunk;

pub use line::SipLine;
pub use said::Said;
pub use service::SipService;
pub use setup::{Passwords, SetupFault};
pub use sounds::AudioPacket;
