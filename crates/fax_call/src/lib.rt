//! The caller (ITU-T T.30, phases B to D of a calling terminal), without sockets or a clock: slots of
//! packets and moments go in, packets come out.
//!
//! Moments are milliseconds. Each definition that a contract here speaks of stands in `specs/`: the calling table in
//! `Table`, the packets of a reply in `Replies`, what waits, timers and pace in `Calls`, the text of a page in `Writings`, what is told of a call
//! while it goes on in `Watching`.
#![tactic(auto)]

mod acting;
mod caller;
mod counts;
mod decision;
mod hearing;
pub mod laws;
mod pending;
mod procedure;
mod room;
mod state;
mod table;
mod text;
mod watcher;

pub use acting::ActingTimer;
pub use caller::Caller;
pub use decision::Decision;
pub use fax_jobs::Outcome;
pub use state::State;
pub use watcher::{Unwatched, Watcher};
