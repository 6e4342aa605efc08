//! What a service manager is told.

/// What a service manager is told.
#[derive(Clone, Copy, PartialEq, Eq)]
pub enum Notice {
    /// So many lines are open, and are served from now on.
    Ready { lines: usize },
    /// The server was told to stop, and takes no ring any more.
    Stopping,
}
