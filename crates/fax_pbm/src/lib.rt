//! Pages as pictures: netpbm's PBM in its raw form, P4 (pbm(5)). Every octet is read safely.
//!
//! What octets mean as a picture is told in `specs/Heads` and `specs/Pictures`.
#![tactic(auto)]

mod fault;
mod head;
mod painting;
mod reading;
mod writing;

pub use fault::PbmFault;
pub use reading::read_pbm;
pub use writing::write_pbm;
