//! Who refreshes a session.

/// Who refreshes a session (RFC 4028, 4).
#[derive(Clone, Copy, PartialEq, Eq)]
pub enum Refresher {
    /// We do.
    We,
    /// The other end does.
    They,
}
