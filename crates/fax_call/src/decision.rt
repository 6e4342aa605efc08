//! What is decided at a piece.
use fax_jobs::Outcome;

/// What is decided at a piece of the call, by what it brings about (ITU-T T.30, figure 5-1).
#[derive(Clone, Copy, PartialEq, Eq)]
pub enum Decision {
    /// Nothing: the piece is passed over.
    PassOver,
    /// A training goes out.
    Train,
    /// An image and its command go out.
    Send,
    /// The command goes out again.
    AskAgain,
    /// A DIS is awaited for the next page, of another format.
    Turn,
    /// DCN goes out, and the call ends so.
    Close(Outcome),
    /// The call is over.
    HangUp,
}
