//! How a run of a script ended.
use fax_command::Status;

/// How a run of a script ended.
#[derive(Clone, Copy, PartialEq, Eq)]
pub struct Ending {
    /// The exit status.
    pub status: Status,
    /// How many lines of the script were played, from the first on.
    pub played: usize,
}
