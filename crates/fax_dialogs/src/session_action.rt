//! What is to be done in a session.

/// What is to be done in a session.
#[derive(Clone, Copy, PartialEq, Eq)]
pub enum SessionAction {
    /// Nothing.
    Nothing,
    /// Our re-INVITE is sent.
    SendInvite,
    /// The user's answer to their INVITE is sent.
    SendAnswer,
    /// The same 2xx is sent again.
    SendAgain,
    /// The user is told of their INVITE, and answers it.
    TellInvite,
    /// Their request is answered with this status: 500 with a `Retry-After` of 0 to 10 s (RFC 3261, 14.2).
    Refuse(u16),
    /// The ACK of the 2xx is sent, and nobody is told.
    Acknowledge,
    /// The ACK of the 2xx is sent, and the user is told that our INVITE was accepted.
    TellAndAcknowledge,
    /// The user is told that our INVITE was refused with this status.
    TellRefused(u16),
    /// A BYE is sent, as the user wants.
    SendBye,
    /// A BYE is sent, and the user is told that the session is over.
    TellAndSendBye,
    /// A BYE is sent, as the user wants, and their INVITE is answered with 487.
    SendByeAndRefuse,
    /// Their BYE is answered with 200, and the user is told that the session is over.
    AnswerBye,
    /// Their BYE is answered with 200 and their INVITE with 487, and the user is told that the session is over.
    AnswerByeAndRefuse,
}
