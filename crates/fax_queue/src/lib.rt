//! The pages of a line that wait, on a queue and on a disk: which ones they are, what the end of a job makes of them, and what a
//! line is restored with after a crash.
#![tactic(auto)]

mod end_fault;
mod ending;
pub mod laws;
mod on_disk;
mod putting;
mod queue;
mod reading;
mod restored;
mod storage;
mod store;

pub use end_fault::EndFault;
pub use on_disk::OnDisk;
pub use queue::{Aside, EndedJob, Queue, QueuedPage};
pub use restored::{RestoredLine, restore_line};
pub use storage::{Storage, change_files};
pub use store::SpoolStore;
