//! What is wrong with a capture.
use thiserror::Error;

/// What is wrong with a capture.
#[derive(Clone, Copy, PartialEq, Eq, Debug, Error)]
pub enum CaptureFault {
    /// The octets begin as no capture does.
    #[error("no capture")]
    NoCapture,
    /// The octets end inside a record.
    #[error("a capture that is cut")]
    Cut,
    /// A packet was captured up to a place inside its headers, so that whose it is is not known; or a datagram that is wanted
    /// was captured in part.
    #[error("a capture of parts of packets")]
    Snapped,
    /// A record contradicts itself.
    #[error("a capture that is damaged")]
    Damaged,
    #[error("no memory")]
    NoMemory,
}
