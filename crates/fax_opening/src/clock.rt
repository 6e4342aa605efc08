//! The moments of a server.
use std::io;
use std::rt::Clock;
use std::time::Instant;

/// Tells how many milliseconds passed since it began.
#[derive(Drop)]
pub struct Stopwatch<'a, C: Clock> {
    clock: &'a C,
    start: Instant,
}

impl<'a, C: Clock> Stopwatch<'a, C> {
    /// It begins now.
    pub fn new(clock: &'a C) -> io::Result<Self> {
        let start = Instant::now(clock)?;
        Ok(Stopwatch { clock, start })
    }

    /// How many microseconds passed. None: the clock does not tell.
    pub fn micros(&self) -> Option<u64> {
        let passed = self.start.elapsed(self.clock).ok()?;
        u64::try_from(passed.as_micros()).ok()
    }

    /// The seconds since 1970, by the clock of the day. None: it does not tell.
    pub fn day(&self) -> Option<u64> {
        let day = self.clock.since_1970().ok()?;
        Some(day.as_secs())
    }

    /// How many milliseconds passed. None: the clock does not tell.
    pub fn now(&self) -> Option<u64> {
        let passed = self.start.elapsed(self.clock).ok()?;
        u64::try_from(passed.as_millis()).ok()
    }
}
