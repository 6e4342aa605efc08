//! The time of a terminal.

/// The time by which a terminal goes.
pub trait Pace {
    /// Waits a little, and tells the moment, in milliseconds. `None`: there is no time any more.
    fn wait(&mut self) -> Option<u64>;

    /// So many pages of the call were delivered.
    fn tell(&mut self, delivered: u32);
}
