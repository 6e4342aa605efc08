//! Timers.
ghost use Rattle.std.specs.Prelude.{Option, None, Some, ◌≡◌, ◌↔◌, IsTrue};
ghost use Rattle.fax_timers.specs.Moments.{moment_after, is_due, IsDue};

use std::marker::Model;

/// Clear, or set to the moment, in milliseconds, at which it is due.
#[derive(Clone, Copy)]
pub struct Timer {
    moment: Option<u64>,
}

impl Model for Timer {
    ghost use Rattle.std.specs.Prelude.{ℕ, Option};

    ghost Value = { Option ℕ };

    ghost view = { λ timer. timer.moment };

    ghost inverse = { λ moment. record { moment = moment } };
}

impl Timer {
    /// A timer that is clear.
    pub fn new() -> Self
        ensures { result ≡ None }
    {
        Timer { moment: None }
    }

    /// Sets the timer: it is due that many milliseconds from now, or at the greatest `u64` where that
    /// comes first. A timer that was set is set anew.
    pub fn set(&mut self, now: u64, ms: u64)
        ensures { self.new ≡ Some (moment_after now ms) }
    {
        self.moment = Some(now.saturating_add(ms));
    }

    /// Clears the timer.
    pub fn clear(&mut self)
        ensures { self.new ≡ None }
    {
        self.moment = None;
    }

    /// The moment at which it is due, where it is set.
    pub fn moment(&self) -> Option<u64>
        ensures { result ≡ self.now }
    {
        self.moment
    }

    /// Whether the timer is set and its moment has come.
    pub fn due(&self, now: u64) -> bool
        ensures due { IsTrue result ↔ IsDue self.now now }
        ensures test { result ≡ is_due self.now now }
    {
        self.moment.is_some_and(|moment| moment <= now)
    }
}
