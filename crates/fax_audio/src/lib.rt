//! What a fax machine sounds in a call of audio, in packets of RTP (RFC 3550): 160 samples of PCMU or PCMA (RFC 3551) every 20 ms.
//!
//! A machine that is called sounds CED, one that calls sounds CNG (ITU-T T.30, tonal signals); what lies between is silence. Nothing here
//! reads a clock or a socket: moments, in milliseconds, go in, and packets come out.
#![tactic(auto)]

mod coding;
mod header;
mod signal;
mod stream;
mod tones;

pub use coding::Coding;
pub use header::{HEADER_OCTETS, PACKET_OCTETS, SAMPLES};
pub use signal::Signal;
pub use stream::{LATE_MS, PACKET_MS, Start, Stream};
