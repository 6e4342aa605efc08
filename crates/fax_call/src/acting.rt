//! What acts in a tick.

/// A timer that acts in a tick (ITU-T T.30, 5.4.3).
#[derive(Clone, Copy, PartialEq, Eq)]
pub enum ActingTimer {
    /// No DIS came in time: the call ends.
    T1,
    /// No answer came: the training or the command goes out again, or, after three of them, the call ends.
    T4,
}
