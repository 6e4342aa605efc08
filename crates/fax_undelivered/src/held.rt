//! What a run without a spool keeps in memory: the pages of its lines with their texts until their jobs have ended, and those of jobs
//! that failed, of at most 64 calls.
//!
//! Which pages of a job that failed are kept is told in `specs/held/Held`, and which call is dropped for another one in `specs/held/Bounds`.

mod bounds;
mod held;
mod memory_file;
mod opening;
mod texts;

pub use bounds::{DroppedCall, MOST_CALLS, drop_beyond};
pub use held::HeldPages;
pub use memory_file::MemoryFile;
pub use opening::{open_in_memory, opened_anew};
pub use texts::{HeldTexts, JobEnd};
