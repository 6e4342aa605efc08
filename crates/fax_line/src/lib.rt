//! The lines of a server: each is a gateway over a wire of its own, and none sees another.
//!
//! What is done with a line, and what comes of it, is told in `specs/Actions`; when it is left at rest, in `specs/Places`; who
//! the peers of its legs are, in `specs/LegPeers`, `specs/GivenPeers` and `specs/Connects`; what is done with all lines, in
//! `specs/Operations`; what is ordered and answered in a whole run, in `specs/Runs`; what is stored of the pages that turns
//! confirmed, before what confirms them goes out, in `specs/Settling`; and that a run does so once in each round of the slots, in
//! `specs/StoredRuns`.
#![tactic(auto)]

mod asked;
pub mod laws;
mod line;
mod lines;
mod order;
mod place;
mod run;
mod settling;
mod store;

pub use asked::{ConnectRequest, HangingUp, LineAnswer, LineRequest, PeerRequest, RingRequest};
pub use line::Line;
pub use lines::{Lines, SLOTS};
pub use order::{Order, Pace};
pub use run::serve;
pub use settling::{LineReport, PageToStore, PutResult};
pub use store::RunStore;
