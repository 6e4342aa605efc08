//! What a turn told.
use crate::given::{Kept, RefusedPage};
use fax_jobs::Report;

/// What a turn told: whether a driver goes on, and what happened on the legs. What its tick did is lacking where that was
/// refused for want of memory.
#[derive(Clone, Copy, PartialEq, Eq)]
pub struct TurnReport {
    /// Whether one of the last 100 receives did not fail.
    pub goes_on: bool,
    /// The report of the job that ended in it.
    pub report: Option<Report>,
    /// The page that was confirmed in it.
    pub kept: Option<Kept>,
    /// The page that was refused in it.
    pub refused: Option<RefusedPage>,
    /// The number of the calling leg's call that ended in it: the peer's DCN came, or it was given up.
    pub ended: Option<u32>,
    /// The same where it was given up: T1 or T2 was due (ITU-T T.30, 5.4.3).
    pub gave_up: Option<u32>,
    /// The call of a job began on the called leg: the number of the call that its pages came in.
    pub dialled: Option<u32>,
    /// The call of a job is asked for, and was not before: the number of the call that its pages came in.
    pub asked: Option<u32>,
}
