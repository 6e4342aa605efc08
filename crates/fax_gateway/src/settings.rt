//! The settings of a gateway.
ghost use Rattle.std.specs.Prelude.{◌≡◌};
ghost use Rattle.fax_gateway.specs.Setups.{AreAllowed, within_limits};

use fax_timers::{LONGEST_PAUSE_MS, PACE_MS};

/// The most of the packets before its own that a datagram has.
pub const MOST_REDUNDANCY: u8 = 8;

/// The least that the packet after a preamble waits, which is usual: the pace of each other packet, in milliseconds.
pub const LEAST_PREAMBLE_MS: u16 = PACE_MS as u16;

/// The most that it waits, in milliseconds.
pub const MOST_PREAMBLE_MS: u16 = LONGEST_PAUSE_MS as u16;

/// What is set for a gateway, on both legs, and of the calls on the called one.
#[derive(Clone, Copy, PartialEq, Eq)]
pub struct Settings {
    /// How many of the packets before its own each datagram has: at most [`MOST_REDUNDANCY`].
    pub redundancy: u8,
    /// How long the packet after a preamble waits, in milliseconds: from 40, as after each other packet, to 2,000. After a
    /// media gateway, which replays each signal over a modem, a called machine wants 1,000 (ITU-T T.30, 5.3.1).
    pub preamble_ms: u16,
    /// Whether the call of a job is asked for, and begins when it is placed. Where not, a tick begins it by itself.
    pub asks: bool,
    /// How many octets the calling leg and the jobs may hold of pages, as [`Gateway::held`](crate::Gateway::held) says it. Where they
    /// hold so many, or more, a datagram of the calling leg that would add to them is refused as for want of memory.
    pub memory: u64,
}

impl Settings {
    /// The same settings within their limits: what is beyond one reads as it.
    pub fn within_limits(self) -> Settings
        ensures limited { result ≡ within_limits self }
        ensures allowed { AreAllowed result }
    {
        Settings {
            redundancy: self.redundancy.min(MOST_REDUNDANCY),
            preamble_ms: self
                .preamble_ms
                .max(LEAST_PREAMBLE_MS)
                .min(MOST_PREAMBLE_MS),
            ..self
        }
    }
}

impl Default for Settings {
    ghost use Rattle.std.specs.Prelude.{◌≡◌, false};

    ghost is_default = { λ settings. settings ≡ record {
      redundancy = 3;
      preamble_ms = 40;
      asks = false;
      memory = 18446744073709551615;
    } };

    fn default() -> Self {
        Settings {
            redundancy: 3,
            preamble_ms: LEAST_PREAMBLE_MS,
            asks: false,
            memory: u64::MAX,
        }
    }
}
