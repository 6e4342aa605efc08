//! What waits in the spool of a server: its jobs, a line each, and their pages as pictures, or as one TIFF. It reads beside the
//! server, and changes nothing.
#![tactic(auto)]

mod fault;
mod job;
mod job_line;
pub mod laws;
mod looking;
mod picture_files;
mod pictures;
mod reading;
mod run;
mod shown;
mod telling;
mod tiffs;
mod wanted_files;

pub use fault::LookFault;
pub use job::{Choice, JobState, SpooledJob, choose, drop_cards, jobs_of};
pub use job_line::{write_job, write_jobs};
pub use looking::{Seen, SpoolOptions, look};
pub use picture_files::{FileFault, PictureFiles};
pub use pictures::{keep_pictures, picture_name};
pub use run::{Looked, run_spool};
pub use telling::{tell_damage, tell_no_job};
pub use tiffs::keep_tiff;
pub use wanted_files::WantedFiles;
