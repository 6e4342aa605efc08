//! The pace of a leg: packets are given at least [`PACE_MS`] apart, and after the preamble of a frame a pause is set.
ghost use Rattle.std.specs.Prelude.{◌≡◌};
ghost use Rattle.fax_timers.specs.Moments.{on_clock};
ghost use Rattle.fax_timers.specs.Paces.{allowed_from, new_pace, pace_after, pace_allows};

use crate::spans::{LONGEST_PAUSE_MS, PACE_MS};
use std::marker::Model;

/// A packet that was given: its moment, and how long the next one waits after it, in milliseconds.
#[derive(Clone, Copy)]
pub struct LastPacket {
    at: u64,
    span: u64,
}

/// The last packet that was given on a leg, and how long the next one waits after a preamble, in milliseconds.
#[derive(Clone, Copy)]
pub struct Pace {
    preamble_ms: u16,
    last: Option<LastPacket>,
}

impl Model for Pace {
    ghost use Rattle.fax_timers.specs.Paces.{PaceValue};

    ghost Value = { PaceValue };

    ghost view = { λ pace. record { pause = pace.preamble_ms; last = pace.last } };

    ghost inverse = { λ pace. record { preamble_ms = pace.pause; last = pace.last } };
}

impl Pace {
    /// The pace of a leg on which no packet was given. The packet after a preamble waits so many milliseconds there, at
    /// most [`LONGEST_PAUSE_MS`].
    pub fn new(preamble_ms: u16) -> Self
        ensures { result ≡ new_pace preamble_ms }
    {
        Pace {
            preamble_ms,
            last: None,
        }
    }

    /// Whether a packet may be given now: where none was, or where the last was given long enough ago. So none may after
    /// one of the last moments of a `u64`.
    pub fn allows(&self, now: u64) -> bool
        ensures { result ≡ pace_allows self.now.last now }
    {
        match self.last {
            None => true,
            Some(last) => match last.at.checked_add(last.span) {
                None => false,
                Some(next) => next <= now,
            },
        }
    }

    /// From which moment on a packet may be given: from 0 where none was. `None`: that lies after each moment of a `u64`.
    pub fn allowed_from(&self) -> Option<u64>
        ensures { result ≡ on_clock (allowed_from self.now.last) }
    {
        match self.last {
            None => Some(0),
            Some(last) => last.at.checked_add(last.span),
        }
    }

    /// Notes that a packet is given now, which is a preamble or not.
    pub fn given(&mut self, is_preamble: bool, now: u64)
        ensures { self.new ≡ pace_after is_preamble self.old now }
    {
        let span = if is_preamble {
            u64::from(self.preamble_ms).min(LONGEST_PAUSE_MS)
        } else {
            PACE_MS
        };
        self.last = Some(LastPacket { at: now, span });
    }
}
