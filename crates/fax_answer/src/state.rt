//! The states of a call.
use fax_frames::Dcs;

/// Where a call stands.
#[derive(Clone, Copy, PartialEq, Eq)]
pub enum State {
    /// No call is on.
    Idle,
    /// The called machine tells what it can receive, and awaits a DCS (ITU-T T.30, phase B).
    Identify,
    /// The training failed: another DCS is awaited.
    Listen,
    /// A DCS came: the training check is awaited.
    Train(Dcs),
    /// The training was confirmed: pages come, and commands (ITU-T T.30, phases C and D).
    Page(Dcs),
    /// An EOM was answered by MCF: a page of another format may follow, and the exchange of DIS and DCS begins again
    /// where T2 is due.
    Again,
    /// The last packets of a call wait.
    Closing,
}
