//! Jobs that could not be delivered, tried again over redial lines. A redial line has no calling leg that is ever rung: each try on it is
//! a line of its own, which is restored with the pages of one job alone, made anew and let go when that job has ended.
//!
//! When a job is tried again is told in `specs/Retrying`, which one is next in `specs/Picking`, and which one its own line owes in
//! `specs/Owing`; what a try begins with in `specs/Begun`; what a try is, and what becomes of it, in `specs/Tries` and
//! `specs/Totals`; what is told of it, and what words come to, in `specs/Seeing`, `specs/Telling` and `specs/Words`; how its end is noted
//! in `specs/Noting`; what befalls the tries of all redial lines, in `specs/Befalls`; and laws over all that befalls, in `specs/Laws` and
//! `specs/Arriving`.
#![tactic(auto)]

mod begun;
mod fault;
mod job;
mod job_try;
pub mod laws;
mod noting;
mod picking;
mod redials;
mod retrying;
mod seeing;
mod total;
mod words;

pub use begun::{RestoredTry, restore_try};
pub use fault::BeginFault;
pub use job::{RetryEnd, RetryJob};
pub use job_try::JobTry;
pub use noting::note_end;
pub use picking::{first_due, is_owed};
pub use redials::Redials;
pub use retrying::{is_due, may_mend};
pub use total::{FailedTry, TryTotal};
