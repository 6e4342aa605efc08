//! Which end of a call we are.

/// Which end of a call we are (RFC 3261, 12.1).
#[derive(Clone, Copy, PartialEq, Eq)]
pub enum Role {
    /// We made the call, and its Call-ID: the UAC of its INVITE.
    Caller,
    /// We answered the call: the UAS of its INVITE.
    Answerer,
}
