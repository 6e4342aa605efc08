//! The packets of ITU-T T.38 of 1998 (IFP): read from octets and written to octets; and the frames and
//! images of a call's packets.
//!
//! A packet is an indicator, or data of one modulation with fields of octets. What is read borrows from
//! the octets and copies none, but for the octets of a frame, which may stand in several packets.
#![tactic(auto)]

mod codes;
mod fault;
mod frame;
pub mod laws;
mod packet;
mod piece;
mod signals;
mod writing;

pub use codes::{DataType, FieldType, Indicator};
pub use fault::IfpFault;
pub use packet::{Field, Head, Ifp};
pub use piece::{Piece, Pieces, Slot};
pub use signals::Signals;
pub use writing::{
    data_length, put_data, put_frame, put_image, put_indicator, write_data, write_frame,
    write_image, write_indicator,
};
