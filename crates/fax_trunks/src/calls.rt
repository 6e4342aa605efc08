//! How many calls are on a trunk.
ghost use Rattle.std.specs.Prelude.{◌≡◌, ◌<◌, ◌≤◌, ◌+◌, ◌-◌, ◌↔◌, IsTrue};
ghost use Rattle.fax_trunks.specs.CallCounts.{after_release, after_take};

use std::marker::Model;

/// How many calls are on a trunk, of so many at most.
pub struct Calls {
    on: u32,
    most: u32,
}

impl Drop for Calls {
    fn drop(self) {
        let Calls {
            on: _on,
            most: _most,
        } = self;
    }
}

/// Contracts see how many there are, and how many at most; never more.
impl Model for Calls {
    ghost use Rattle.std.specs.Prelude.{◌≤◌};
    ghost use Rattle.fax_trunks.specs.CallCounts.{CallCount};

    ghost Value = { CallCount };

    ghost view = { λ calls. record { on = calls.on; most = calls.most } };

    ghost invariant = { λ calls. calls.on ≤ calls.most };
}

impl Calls {
    /// No call, of so many at most.
    pub fn new(most: u32) -> Self
        ensures { result ≡ record { on = 0; most = most } }
    {
        Calls { on: 0, most }
    }

    /// How many calls are on: at most as many as may be.
    pub fn on(&self) -> u32
        ensures count { result ≡ self.now.on }
        ensures few { result ≤ self.now.most }
    {
        self.on
    }

    /// Takes a place for one more call. Where there is none, nothing is taken.
    pub fn take(&mut self) -> bool
        ensures taken { IsTrue result ↔ (self.old.on < self.old.most) }
        ensures calls { self.new ≡ after_take self.old }
    {
        if self.on < self.most {
            self.on += 1;
            true
        } else {
            false
        }
    }

    /// A call is over, and its place is let go. Where none is on, nothing is.
    pub fn release(&mut self)
        ensures { self.new ≡ after_release self.old }
    {
        self.on = self.on.saturating_sub(1);
    }
}
