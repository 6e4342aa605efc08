//! A clock that never goes back.
ghost use Rattle.std.specs.Prelude.{ℕ, List, ◌∷◌, ◌≡◌, max};
ghost use Rattle.fax_timers.specs.Moments.{latest};

use std::marker::Model;

/// Holds the latest moment that was read, in milliseconds.
#[derive(Clone, Copy)]
pub struct Clock {
    latest: u64,
}

impl Model for Clock {
    ghost use Rattle.std.specs.Prelude.{ℕ};

    ghost Value = { ℕ };

    ghost view = { λ clock. clock.latest };

    ghost inverse = { λ moment. record { latest = moment } };
}

impl Clock {
    /// A clock that stands at 0.
    pub fn new() -> Self
        ensures { result ≡ 0 }
    {
        Clock { latest: 0 }
    }

    /// The latest moment ever read, this one included: an earlier one reads as the latest.
    pub fn read(&mut self, now: u64) -> u64
        ensures later { self.new ≡ max now self.old }
        ensures latest { (read : List ℕ) → self.old ≡ latest read → self.new ≡ latest (now ∷ read) }
        ensures moment { result ≡ self.new }
    {
        self.latest = self.latest.max(now);
        self.latest
    }
}
