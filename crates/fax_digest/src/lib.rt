//! What answers a challenge of SIP (RFC 3261, 22.4; RFC 8760; RFC 7616, 3.4), with `qop=auth`, by MD5 or SHA-256.
#![tactic(auto)]

mod algorithm;
mod answering;
mod md5_hash;
mod sha256_hash;

pub use algorithm::Algorithm;
pub use answering::{Credentials, response};
