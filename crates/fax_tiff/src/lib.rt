//! Pages in TIFF files of class F (RFC 2306), one or many in a file. Every octet is read safely.
//!
//! What is written is told octet by octet in `specs/WrittenTiffs`; what octets mean, in `specs/Directories` and
//! `specs/ReadTiffs`.
#![tactic(auto)]

mod coded;
mod directory;
mod fault;
mod field;
mod fields;
pub mod laws;
mod number;
mod page_text;
mod reading;
mod strips;
mod tags;
mod writing;

pub use coded::CodedPage;
pub use fault::{TiffFault, TiffWriteFault};
pub use reading::read_tiff;
pub use writing::write_tiff;
