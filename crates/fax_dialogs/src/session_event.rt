//! What happens in a session.

/// What happens in a session. Repeats of their INVITE are not told (RFC 6026, 7.1).
#[derive(Clone, Copy, PartialEq, Eq)]
pub enum SessionEvent {
    /// Time passed.
    TimePassed,
    /// The user wants to send a re-INVITE, as soon as it may.
    Reinvite,
    /// The user answers their INVITE with this status.
    Answer(u16),
    /// The user ends the session.
    HangUp,
    /// An INVITE of theirs came within the session.
    InviteCame,
    /// The ACK of our last 2xx came.
    AckCame,
    /// A BYE of theirs came.
    ByeCame,
    /// An answer with this status came to our INVITE: 408 where none came in time, 503 where it could not be sent (RFC 3261, 8.1.3.1);
    /// and the pause after 491 that `glare_pause` gives, which is passed over with each other status.
    Answered(u16, u64),
    /// A 2xx to an INVITE of ours came again.
    AnsweredAgain,
    /// Our BYE was answered, or was given up.
    ByeAnswered,
}
