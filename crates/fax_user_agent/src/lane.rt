//! What there is of a trunk as time goes on: its calls and its registration.
use fax_requests::Token;
use fax_trunks::{Calls, Registration};

/// What there is of a trunk as time goes on.
pub(crate) struct Lane {
    pub calls: Calls,
    /// Its registration, where there is one.
    pub registration: Option<Registration>,
    /// Whether we were registered when it was told last.
    pub was_registered: bool,
    pub call_id: Token,
    pub tag: Token,
    /// The number of the last REGISTER.
    pub number: u32,
}

impl Drop for Lane {
    fn drop(self) {
        let Lane {
            calls: _calls,
            registration: _registration,
            was_registered: _was_registered,
            call_id: _call_id,
            tag: _tag,
            number: _number,
        } = self;
    }
}
