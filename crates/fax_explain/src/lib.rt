//! Scripts of what came to a gateway, played on a new one and told as a ladder: what `faxgate explain` prints, over any
//! streams of octets. And the same of a gateway that runs, told as it goes on (`LiveLadder`).
//!
//! What a ladder is stands in `specs/Ladders`, and what a run answers in `specs/Explained`.
#![tactic(auto)]

mod answer;
mod called;
mod calling;
mod copies;
mod frame_ends;
mod image;
mod listener;
mod live;
mod mark;
mod run;
mod stage;
mod store;
mod timers;

pub use live::LiveLadder;
pub use run::run_explain;
pub use store::{NoPages, PageStore, Place, StoreFault};
