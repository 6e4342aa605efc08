//! The book of jobs between the two legs of a gateway: pages that were confirmed are cut into jobs, each of which goes
//! out in one call.
#![tactic(auto)]

mod job;
mod jobs;
pub mod laws;
mod outcome;
mod pages;
mod report;

pub use job::Job;
pub use jobs::Jobs;
pub use outcome::Outcome;
pub use pages::Pages;
pub use report::Report;
