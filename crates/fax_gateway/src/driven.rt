//! What a run came to.

/// What a run came to.
#[derive(Clone, Copy, PartialEq, Eq)]
pub struct Driven {
    /// How many turns were made.
    pub turns: u32,
    /// How many rings were refused.
    pub rings_refused: u64,
    /// How many datagrams and ticks were refused for want of memory.
    pub events_refused: u64,
    pub sends_failed: u64,
    pub receives_failed: u64,
    /// Whether the last 100 receives all failed.
    pub stopped: bool,
}
