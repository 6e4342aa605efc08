//! Why a run over streams ended before its end.
use std::{fmt, io};

/// Why a run over streams ended with status 4.
#[derive(Clone, Copy, Debug)]
pub enum StreamFault {
    /// A read failed.
    Unread(io::Error),
    /// A write failed.
    Unwritten(io::Error),
    /// The input has more octets than an input may have.
    TooLong,
    /// The input takes as many reads as an input may take, and has not ended.
    TooManyReads,
}

/// Prints what failed, without a line feed.
impl fmt::Display for StreamFault {
    fn fmt<W: fmt::Write>(&self, f: &mut fmt::Formatter<W>) -> fmt::Result {
        match self {
            StreamFault::Unread(error) => write!(f, "the input cannot be read: {error}"),
            StreamFault::Unwritten(error) => {
                write!(f, "the standard output cannot be written: {error}")
            }
            StreamFault::TooLong => write!(f, "the input has more than 16,777,216 octets"),
            StreamFault::TooManyReads => write!(f, "the input takes more than 1,048,576 reads"),
        }
    }
}
