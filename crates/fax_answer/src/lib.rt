//! The answerer (ITU-T T.30, phases B to D of a called terminal), without sockets or a clock:
//! slots of packets and moments go in, packets and confirmed pages come out.
//!
//! Moments are milliseconds. Each definition that a contract here speaks of stands in `specs/`: the answering
//! table in `Table`, what is read off the history of a call in `History`, what waits in `Replies`, timers and
//! pace in `Calls`, what is told of a call while it goes on in `Watching`.
#![tactic(auto)]

mod answer;
mod answerer;
mod command;
mod counts;
mod decision;
mod hearing;
mod image;
pub mod laws;
mod pending;
mod procedure;
mod refusal;
mod room;
mod state;
mod step;
mod table;
mod timers;
mod watcher;

pub use answerer::Answerer;
pub use command::{Command, Order};
pub use decision::Decision;
pub use refusal::Refusal;
pub use state::State;
pub use step::{Confirmed, Step};
pub use timers::ActingTimer;
pub use watcher::{Unwatched, Watcher};
