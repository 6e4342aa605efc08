//! How long a gateway takes at most: laws of time over its traces.

pub mod laws;
