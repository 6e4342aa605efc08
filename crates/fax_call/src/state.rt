//! The states of a call.
use fax_frames::{Dcs, Dis};
use fax_jobs::Outcome;

/// Where a call stands (ITU-T T.30, phases B to D of a calling terminal).
#[derive(Clone, Copy, PartialEq, Eq)]
pub enum State {
    /// No call is on.
    Idle,
    /// A DIS is awaited.
    AwaitDis,
    /// A training goes out or went out, and a CFR is awaited: the DIS that was taken and the DCS that was chosen.
    AwaitCfr(Dis, Dcs),
    /// A page and its command go out or went out, and an MCF is awaited: the same.
    AwaitMcf(Dis, Dcs),
    /// The last packets of a call wait, which ends so.
    Closing(Outcome),
}
