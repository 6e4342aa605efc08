//! Two-dimensional lines (ITU-T T.4, 4.2).
#![tactic(auto)]

pub mod laws;
mod mode;
mod places;
mod reading;
mod writing;

pub use mode::{Mode, Offset};
pub use reading::{pass_line_2d, read_line_2d, read_line_2d_into};
pub use writing::{write_lent_line_2d, write_line_2d};
