//! Why the end of a job is not noted.
use thiserror::Error;

/// Why the end of a job is not noted. Each is told only where it is so (`IsWhy`), but that memory was refused cannot be seen.
#[derive(Clone, Copy, PartialEq, Eq, Debug, Error)]
pub enum EndFault {
    /// There is no such line.
    #[error("there is no such line")]
    NoLine,
    /// The pages of the line that wait are not all known, or no job of so many pages is first in turn.
    #[error("it is not known which pages the job had")]
    Unsure,
    /// None of its pages is on the disk.
    #[error("no page of the job is on the disk")]
    NoneThere,
    /// No record can have the name of the line.
    #[error("the name of the line is too long")]
    LongName,
    /// Memory was refused.
    #[error("memory was refused")]
    NoMemory,
    /// A call of the disk failed, this one or one before it: the end is on the disk or not.
    #[error("the disk failed")]
    DiskFailed,
    /// Its pages that were not delivered could not be kept elsewhere before: they were not read from the disk, or not put.
    #[error("the pages could not be kept")]
    NotStored,
}
