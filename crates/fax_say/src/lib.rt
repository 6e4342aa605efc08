//! What says one control word to a running gateway: the line of it, when its answer is whole, and what comes of it, over any
//! streams.
#![tactic(auto)]

mod ending;
mod hearing;
mod last;
mod laws;
mod run;
mod saying;

pub use ending::Ending;
pub use last::Last;
pub use run::say;
pub use saying::{Saying, Unsayable};
