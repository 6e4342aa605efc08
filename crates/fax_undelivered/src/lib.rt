//! Pages that could not be delivered, in a second pair of files of a spool's folder: the calls that they came in, how those ended, and
//! what keeps the pages of a run so that none of a job that failed is dropped; and what a run
//! without a spool keeps of them in memory ([`held`]).
#![tactic(auto)]

mod call;
mod card;
mod firsts;
pub mod held;
pub mod laws;
mod paired_store;
mod undelivered;

pub use call::UndeliveredCall;
pub use card::{Card, read_card, write_card};
pub use paired_store::PairedStore;
pub use undelivered::Undelivered;
