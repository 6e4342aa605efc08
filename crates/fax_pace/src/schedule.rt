//! When slots have their turns.
ghost use Rattle.std.specs.Prelude.{◌≡◌, ◌+◌, ◌-◌, ◌≤◌, ◌<◌, ◌^◌, min};

/// So many milliseconds after, turns are left out.
const MOST_AFTER_MS: u64 = 1_000;

/// A slot has its turn each millisecond.
pub struct Schedule {
    /// The moment of the next turn, in milliseconds.
    due: u64,
    /// By how many milliseconds turns were left out.
    skipped: u64,
}

impl Drop for Schedule {
    fn drop(self) {
        let Schedule {
            due: _due,
            skipped: _skipped,
        } = self;
    }
}

impl Schedule {
    /// The first turn is at moment 0.
    pub fn new() -> Self
        ensures { result ≡ record { due = 0; skipped = 0 } }
    {
        Schedule { due: 0, skipped: 0 }
    }

    /// How long the next turn is still to be waited for, in milliseconds.
    pub fn left(&self, now: u64) -> u64
        ensures { result ≡ self.now.due - now }
    {
        self.due.saturating_sub(now)
    }

    /// By how many milliseconds turns were left out.
    pub fn skipped(&self) -> u64
        ensures { result ≡ self.now.skipped }
    {
        self.skipped
    }

    /// The next turn begins now. It answers how late it is. Where that is at most 1 s the turn after it is due a millisecond
    /// after this one was; else it is due a millisecond from now, and what was left out is counted.
    pub fn begin(&mut self, now: u64) -> u64
        ensures late { result ≡ now - self.old.due }
        ensures in_time { result ≤ 1000 → self.old.due < 2 ^ 64 - 1
            → self.new ≡ record { due = self.old.due + 1; skipped = self.old.skipped } }
        ensures skips { 1000 < result → now < 2 ^ 64 - 1 → self.new.due ≡ now + 1 }
        ensures counted { 1000 < result
            → self.new.skipped ≡ min (self.old.skipped + result) (2 ^ 64 - 1) }
    {
        let late = now.saturating_sub(self.due);
        if late > MOST_AFTER_MS {
            self.skipped = self.skipped.saturating_add(late);
            self.due = now;
        }
        self.due = self.due.saturating_add(1);
        late
    }
}
