//! What a request asks for.

/// What a server tells.
#[derive(Clone, Copy, PartialEq, Eq)]
pub enum Resource {
    /// `/`: a page for an operator.
    Page,
    /// `/healthz`: whether the server is well.
    Health,
    /// `/metrics`: its counts.
    Metrics,
    /// Below `/undelivered/`: the picture of a page that could not be delivered.
    Picture,
}

/// Why a request is refused.
#[derive(Clone, Copy, PartialEq, Eq)]
pub enum Refusal {
    /// It cannot be read.
    Unreadable,
    /// Nothing is at its path.
    NotFound,
    /// Its method is neither GET nor HEAD.
    NotAllowed,
    /// Its head is too long, or has too many fields.
    TooLong,
}

/// What is told, or why nothing is.
#[derive(Clone, Copy, PartialEq, Eq)]
pub enum Wanted {
    /// This.
    Tell(Resource),
    /// Nothing.
    Refuse(Refusal),
}

/// What a request asks for.
#[derive(Clone, Copy, PartialEq, Eq)]
pub struct Question {
    pub wanted: Wanted,
    /// Whether the answer has a body: that to HEAD has none.
    pub has_body: bool,
}
