//! What happens in a server transaction, and what is to be done.

/// What happens in a server transaction.
#[derive(Clone, Copy, PartialEq, Eq)]
pub enum ServerEvent {
    /// Time passed.
    TimePassed,
    /// The request came again (17.2.3).
    Repeated,
    /// The user answers with this status.
    Answered(u16),
    /// An ACK came that matches the transaction (17.2.3).
    Acknowledged,
    /// What was sent last could not be sent (18.4).
    NotSent,
}

/// What is to be done in a server transaction.
#[derive(Clone, Copy, PartialEq, Eq)]
pub enum ServerAction {
    /// Nothing.
    Nothing,
    /// The answer that the user gives is sent, and stays the last one.
    Send,
    /// The last answer is sent again.
    SendAgain,
    /// The user is told that no final answer was given in time.
    TimedOut,
    /// The user is told that no ACK came in time.
    Unacknowledged,
    /// The user is told that the answer could not be sent.
    Failed,
}
