//! Calls of jobs that clients are asked for.
ghost use Rattle.std.specs.Prelude.{◌≡◌, ◌-◌, max, nat_le};
ghost use Rattle.std.specs.Str.{IsUtf8};
ghost use Rattle.fax_desk.specs.Questions.{cause_text, heard_after, open_until, seconds_left};

use crate::tag::Tag;

/// Milliseconds of a second.
const SECOND_MS: u64 = 1_000;

/// For how long clients heard events: the time of questions, which stands still while none does.
#[derive(Clone, Copy)]
pub struct HeardTime {
    /// In milliseconds.
    pub heard: u64,
    /// The moment up to which it was counted.
    pub last: u64,
}

impl HeardTime {
    /// Nothing was heard yet, at moment 0.
    pub fn new() -> Self
        ensures { result ≡ record { heard = 0; last = 0 } }
    {
        HeardTime { heard: 0, last: 0 }
    }

    /// Time goes on to this moment, and a client hears events meanwhile, or none does.
    pub fn go_on(&mut self, now: u64, is_heard: bool)
        ensures heard { self.new.heard ≡ heard_after is_heard (now - self.old.last) self.old.heard }
        ensures last { self.new.last ≡ max self.old.last now }
    {
        if is_heard {
            let more = now.saturating_sub(self.last);
            self.heard = self.heard.saturating_add(more);
        }
        self.last = self.last.max(now);
    }

    /// For how many milliseconds events were heard.
    pub fn heard(&self) -> u64
        ensures { result ≡ self.now.heard }
    {
        self.heard
    }
}

/// A question that is open: the call of a job is asked for, clients were told so, and none has answered.
#[derive(Clone, Copy)]
pub struct Question {
    /// It is open until events were heard for so many milliseconds.
    pub until: u64,
}

impl Question {
    /// It is asked when events were heard for so many milliseconds, and is open for so many seconds.
    pub fn new(heard: u64, seconds: u32) -> Self
        ensures { result ≡ record { until = open_until heard seconds } }
    {
        let span = u64::from(seconds) * SECOND_MS;
        Question {
            until: heard.saturating_add(span),
        }
    }

    /// Whether its time is over, where events were heard for so many milliseconds.
    pub fn is_over(&self, heard: u64) -> bool
        ensures { result ≡ nat_le self.now.until heard }
    {
        self.until <= heard
    }

    /// For how many seconds it is open still; one that has begun counts.
    pub fn seconds_left(&self, heard: u64) -> u32
        ensures { result ≡ seconds_left self.now.until heard }
    {
        let left = self.until.saturating_sub(heard);
        let begun = left.saturating_add(SECOND_MS - 1) / SECOND_MS;
        begun.min(u64::from(u32::MAX)) as u32
    }
}

/// For what cause a call could not be placed.
#[derive(Clone, Copy)]
pub enum Cause {
    /// The one that a client said.
    Said(Tag),
    /// Nobody said within the time of the question whether it was placed.
    Unanswered,
}

impl Cause {
    /// Its text in an event.
    pub fn text(&self) -> &str
        ensures { IsUtf8 (cause_text self.now) → result.now ≡ cause_text self.now }
    {
        match self {
            Cause::Said(tag) => tag.text(),
            Cause::Unanswered => "unanswered",
        }
    }
}
