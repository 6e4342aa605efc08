//! What happens in a client transaction, and what is to be done.

/// What happens in a client transaction.
#[derive(Clone, Copy, PartialEq, Eq)]
pub enum ClientEvent {
    /// Time passed.
    TimePassed,
    /// An answer came that matches the transaction (17.1.3), with this status.
    Answered(u16),
    /// What was sent last could not be sent (18.4).
    NotSent,
    /// The user asked the other end by CANCEL to give the request up (9.1).
    Cancelled,
}

/// What is to be done in a client transaction.
#[derive(Clone, Copy, PartialEq, Eq)]
pub enum ClientAction {
    /// Nothing.
    Nothing,
    /// The request is sent again.
    SendAgain,
    /// The user is told of the answer with this status.
    Tell(u16),
    /// The user is told of the answer with this status, a refusal, and an ACK is sent (17.1.1.3).
    TellAndAcknowledge(u16),
    /// The same ACK is sent again.
    AcknowledgeAgain,
    /// The user is told that no final answer came in time (8.1.3.1: as if it were 408).
    TimedOut,
    /// The user is told that the request could not be sent (8.1.3.1: as if it were 503).
    Failed,
    /// The user, who knows of the refusal, is told that its ACK could not be sent.
    AcknowledgementFailed,
}
