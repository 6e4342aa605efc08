//! Where a registration stands.

/// Where a registration stands.
#[derive(Clone, Copy)]
pub struct Standing {
    /// The pause after the next failure, in milliseconds.
    pub pause: u64,
    /// How many seconds the next REGISTER asks for.
    pub seconds: u32,
    /// The moment at which our contact's registration is over. 0: it was never registered.
    pub until: u64,
}
