//! What is decided at a piece.
use crate::Command;
use fax_frames::Dcs;

/// What is decided at a piece of the call, by the frame that answers it (ITU-T T.30, 5.3.6.1).
#[derive(Clone, Copy, PartialEq, Eq)]
pub enum Decision {
    /// Nothing: the piece is passed over, or counted alone.
    PassOver,
    /// The training check after this DCS is awaited.
    Train(Dcs),
    /// The call is over.
    HangUp,
    /// CFR, to the training with this DCS.
    Cfr(Dcs),
    /// FTT.
    Ftt,
    /// MCF, to a new page or to a repeated command.
    Mcf(Command),
    /// RTN.
    Rtn,
}
