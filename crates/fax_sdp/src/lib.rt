//! What a session description (SDP) says of a call's media: where T.38 or audio is heard, and on what terms.
#![tactic(auto)]

mod attribute;
mod fault;
mod lines;
mod medium;
mod reading;
mod writing;

pub use fault::SdpFault;
pub use medium::{Direction, ErrorCorrection, Medium, RateManagement, Terms};
pub use reading::{MOST_MEDIA, MOST_OCTETS, Session, read_sdp};
pub use writing::{
    AudioFormats, AudioSection, FaxSection, Origin, Section, answer_sections, write_sdp,
};
