//! Bits of octets, the most significant bit of an octet first: a reader and a writer.
//!
//! This is the order of ITU-T T.30, 5.3.1, in which a page's octets are handed over by ITU-T T.38.
#![tactic(auto)]

pub mod laws;
mod memory;
mod octets;
mod reader;
mod window;
mod writer;

pub use memory::NoMemory;
pub use octets::Octets;
pub use reader::BitReader;
pub use window::after;
pub use writer::{BitWriter, RoomyWriter};
