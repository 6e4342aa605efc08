//! Datagrams that are refused for want of memory.

/// How many a line has refused, and the last call in which that was told.
#[derive(Clone, Copy, Default)]
pub(crate) struct Refusals {
    count: u64,
    call: Option<u32>,
}

impl Refusals {
    /// The call that is on, where more were refused since this was asked last, and it was not told of that call yet.
    pub(crate) fn news(&mut self, count: u64, call: Option<u32>) -> Option<u32> {
        let is_more = count > self.count;
        self.count = count;
        if !is_more || call == self.call {
            return None;
        }
        self.call = call;
        call
    }
}
