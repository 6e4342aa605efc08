//! A clock that never goes back, timers, and the pace of a leg. Moments and spans are milliseconds.
//!
//! Time comes in as numbers: nothing here asks the system for it. The timers themselves are those of
//! ITU-T T.30, 5.4.3.
#![tactic(auto)]

mod clock;
pub mod laws;
mod moment;
mod pace;
mod spans;
mod timer;

pub use clock::Clock;
pub use moment::earlier;
pub use pace::{LastPacket, Pace};
pub use spans::{LONGEST_PAUSE_MS, PACE_MS, T1_MS, T2_MS, T4_MS};
pub use timer::Timer;
