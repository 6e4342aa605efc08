//! What a whole run of a server comes to: how each of its lines went, what words ordered, and what its files hold (`specs/Runs`,
//! `specs/StoredRuns`, `specs/Desking`), as `run_serve` promises it; and laws over runs, one after another (`specs/Histories`,
//! `specs/Crossings`). Runs over files of memory, and what joins them: [`restarts`].
#![tactic(auto)]

pub mod laws;
pub mod restarts;
