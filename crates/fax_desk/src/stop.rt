//! The end of a server.
ghost use Rattle.std.specs.Prelude.{◌≡◌};
ghost use Rattle.fax_desk.specs.Stops.{is_over, stop_after, takes_rings};

/// Whether a server stops.
#[derive(Clone, Copy)]
pub enum Stop {
    /// It serves.
    No,
    /// It takes no ring, and ends at this moment at the latest.
    At(u64),
    /// It ends.
    Now,
}

impl Stop {
    /// It is asked to stop, within so many milliseconds; a second time it ends at once.
    pub fn asked(self, now: u64, within_ms: u64) -> Self
        ensures { result ≡ stop_after self now within_ms }
    {
        match self {
            Stop::No => Stop::At(now.saturating_add(within_ms)),
            Stop::At(_) | Stop::Now => Stop::Now,
        }
    }

    /// Whether it takes rings.
    pub fn takes_rings(self) -> bool
        ensures { result ≡ takes_rings self }
    {
        match self {
            Stop::No => true,
            Stop::At(_) | Stop::Now => false,
        }
    }

    /// Whether it is over at this moment, where no line has a call or a job, or one has.
    pub fn is_over(self, now: u64, are_idle: bool) -> bool
        ensures { result ≡ is_over self now are_idle }
    {
        match self {
            Stop::No => false,
            Stop::At(moment) => are_idle || moment <= now,
            Stop::Now => true,
        }
    }
}
