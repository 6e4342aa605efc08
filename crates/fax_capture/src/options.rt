//! What is asked of a capture.
use crate::machines::Machines;

/// The two machines of a capture, or that they are to be found; and which call of the caller is asked for, counted from 1, where
/// not each is.
#[derive(Clone, Copy, PartialEq, Eq)]
pub struct CaptureOptions {
    pub machines: Machines,
    pub call: Option<u64>,
}
