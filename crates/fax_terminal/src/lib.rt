//! Terminals of T.38 over their ends of a leg: one that calls a machine and sends pages, and one that answers a call and has each
//! page kept that it confirms.
//!
//! What a terminal is on its leg stands in `specs/Terminals`, what its turn makes of it in `specs/Turns`, and what is told of whole calls in
//! `specs/Calls`.
#![tactic(auto)]

mod end;
mod fault;
mod pace;
mod receiving;
mod sending;
mod store;

pub use end::{End, MOST_OCTETS, WireEnd};
pub use fault::TerminalFault;
pub use pace::Pace;
pub use receiving::{ReceivingTerminal, receive_call};
pub use sending::{SendingTerminal, SentJob, send_job};
pub use store::{PageStore, StoreFault};
