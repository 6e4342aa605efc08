//! The spans of time that a call waits, in milliseconds.

/// T1: two terminals try to identify each other for so long (ITU-T T.30, 5.4.3).
pub const T1_MS: u64 = 35_000;

/// T2: a terminal waits so long for the next command before it looks for it anew (ITU-T T.30, 5.4.3).
pub const T2_MS: u64 = 6_000;

/// T4: a terminal waits so long for the response to a command (ITU-T T.30, 5.4.3).
pub const T4_MS: u64 = 3_000;

/// The least time between two packets given on a leg (this project's profile).
pub const PACE_MS: u64 = 40;

/// The longest pause after the preamble of a frame (this project's profile).
pub const LONGEST_PAUSE_MS: u64 = 2_000;
