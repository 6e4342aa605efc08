//! Frames of ITU-T T.30: what octets are as a frame, the octets of the frames that are written, and the
//! choice of a DCS.
//!
//! A frame's octets are its address, its control, its facsimile control field and its information field,
//! each octet with its first bit as the most significant one. Flags, stuffing and the frame check do not
//! stand in them. Nothing here takes memory.
#![tactic(auto)]

mod choice;
mod dcs;
mod dis;
mod field_bits;
mod frame;
pub mod laws;
mod rate;
mod writing;

pub use choice::{Refusal, choose};
pub use dcs::{Dcs, Length};
pub use dis::{Caps, Dis, OUR_DIS};
pub use frame::Frame;
pub use rate::Rate;
pub use writing::{FrameBytes, Plain, write_dcs, write_dis, write_plain};
