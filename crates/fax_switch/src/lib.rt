//! The switch: calls over SIP, and the legs of lines that they hold.
//!
//! Nothing here reads a clock or a socket: what happens and moments go in, and what is to be done comes out. Moments and spans are milliseconds.
#![tactic(auto)]

mod action;
mod call;
mod describing;
mod event;
pub mod laws;
mod media;
mod place;
mod switch;
mod talk;
mod word;

pub use action::{LineAction, SipAction};
pub use call::{Call, Entry, REINVITE_WAIT_MS, Stage};
pub use describing::describe;
pub use event::{CallEvent, Choice, Event};
pub use media::{AudioEnd, Coding, Description, FaxEnd, Media, Offer};
pub use place::{Leg, LineCall, Place};
pub use switch::Switch;
