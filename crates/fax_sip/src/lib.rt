//! SIP messages: what octets say, header line by header line; the octets of requests and answers; and which transaction a message belongs to.
#![tactic(auto)]

mod answering;
mod fault;
mod field;
pub mod laws;
mod listing;
mod mark;
mod matching;
mod message;
mod name;
mod parts;
mod permitted;
mod requesting;
mod start;
mod text;
mod write_fault;
mod writing;

pub use answering::{Reply, write_answer};
pub use fault::SipFault;
pub use listing::{Elements, Values};
pub use matching::Key;
pub use message::{MOST_OCTETS, Message, Sequence, read_message};
pub use name::Name;
pub use parts::{Via, credential, parameter, read_via, unquoted, uri_of, user_of};
pub use requesting::{Party, Request, write_request};
pub use start::{Method, Start};
pub use write_fault::WriteFault;
pub use writing::Field;
