//! The rounds of a server: the moment that was read last, and the turns of slots.
ghost use Rattle.std.specs.Prelude.{◌≡◌, ◌-◌, nat_lt, if◌then◌else◌};

use crate::schedule::Schedule;
use crate::seen::SeenLines;
use fax_line::SLOTS;

/// A turn that is so many milliseconds late is told.
const LATE_MS: u64 = 100;

/// At most so often, in milliseconds.
const BETWEEN_LATE_MS: u64 = 1_000;

/// So many milliseconds after a turn that came late turns are still said to be late.
const LATE_FOR_MS: u64 = 10_000;

/// Each slot has a turn once in a round of so many milliseconds.
const ROUND_MS: u64 = 40;

/// After time, the clients are asked at one turn of so many.
const TURNS_A_WORD: u64 = 16;

/// At one turn of so many of a line its sockets are asked, whatever the system told: once a second.
const TURNS_A_LOOK: u64 = 25;

/// While nothing is due on any line, turns are waited for so many milliseconds longer at most, and then made one after the
/// other: each of them less than a round late.
const MOST_QUIET_MS: u64 = 9;

/// What a turn that begins is: how late, the moment that it is at, and whether it is to be told that it is late.
#[derive(Clone, Copy)]
pub(crate) struct Begun {
    pub late: u64,
    pub moment: u64,
    pub is_late: bool,
}

/// The time of a server, and the turns that were ordered.
#[derive(Drop)]
pub(crate) struct Rounds {
    /// The moment that was read last.
    pub now: u64,
    schedule: Schedule,
    /// How many turns were ordered.
    turns: u64,
    /// The slot whose turn was ordered, and not told of yet.
    pub turned: Option<usize>,
    /// Whether it was looked which legs have datagrams since the last turn was ordered.
    pub has_looked: bool,
    /// From which moment on a late turn is told again.
    late_from: u64,
}

impl Rounds {
    /// The time begins now, and nothing was ordered.
    pub(crate) fn new() -> Self {
        Rounds {
            now: 0,
            schedule: Schedule::new(),
            turns: 0,
            turned: None,
            has_looked: false,
            late_from: 0,
        }
    }

    /// Whether the sockets of a slot's lines are asked in its next turn, whatever the system told.
    pub(crate) fn looks(&self, slot: usize) -> bool {
        let rounds = self.turns / SLOTS as u64;
        rounds.wrapping_add(slot as u64) % TURNS_A_LOOK == 0
    }

    /// How long the next turn is still to be waited for, in milliseconds.
    pub(crate) fn left(&self) -> u64 {
        self.schedule.left(self.now)
    }

    /// Whether the clients are asked now.
    pub(crate) fn asks_clients(&self) -> bool {
        self.left() > 0 || self.turns % TURNS_A_WORD == 0
    }

    /// For how many milliseconds words are waited for: until the next turn that finds something to do. Redial lines are idle, or not.
    pub(crate) fn most_waited<S: SeenLines>(&self, are_idle: bool, seen: &S) -> u64 {
        let left = self.left();
        let quiet = if left == 0 || !are_idle {
            0
        } else {
            self.quiet_ms(left, seen)
        };
        left.saturating_add(quiet).min(1_000)
    }

    /// For how many milliseconds, after those that are left until the next turn, all lines are left at rest by the turns that
    /// are due.
    fn quiet_ms<S: SeenLines>(&self, left: u64, seen: &S) -> u64 {
        let due = self.now.saturating_add(left);
        for ms in 0..MOST_QUIET_MS {
            let slot = (seen.slot() % SLOTS + ms as usize) % SLOTS;
            let moment = due.saturating_add(ms);
            let across = (slot + SLOTS / 2) % SLOTS;
            if !is_quiet(slot, moment, seen) || !is_quiet(across, moment, seen) {
                return ms;
            }
        }
        MOST_QUIET_MS
    }

    /// The turn of a slot begins.
    pub(crate) fn begin(&mut self, slot: usize) -> Begun {
        let late = self.schedule.begin(self.now);
        self.turns = self.turns.saturating_add(1);
        self.has_looked = false;
        self.turned = Some(slot);
        Begun {
            late,
            moment: moment_of(self.now, late),
            is_late: late > LATE_MS,
        }
    }

    /// By how many milliseconds turns were left out.
    pub(crate) fn skipped(&self) -> u64 {
        self.schedule.skipped()
    }

    /// Whether a late turn is told now; if so, the next one is told later.
    pub(crate) fn tells_late(&mut self) -> bool {
        if self.now < self.late_from {
            return false;
        }
        self.late_from = self.now.saturating_add(BETWEEN_LATE_MS);
        true
    }

    /// Whether turns are said to be late.
    pub(crate) fn is_late(&self) -> bool {
        let late_until = self
            .late_from
            .saturating_sub(BETWEEN_LATE_MS)
            .saturating_add(LATE_FOR_MS);
        self.late_from > 0 && self.now < late_until
    }
}

/// The moment of a turn that begins so late: the one at which it was due, while that is less than a round ago. So a turn that
/// is late by a little does not take a packet from the next one of its line, which is due 40 ms after it, as long as the pace
/// lets through.
fn moment_of(now: u64, late: u64) -> u64
    ensures { result ≡ (if nat_lt late 40 then now - late else now) }
{
    if late < ROUND_MS {
        now.saturating_sub(late)
    } else {
        now
    }
}

/// Whether the turn of a slot at this moment would leave all of its lines at rest.
fn is_quiet<S: SeenLines>(slot: usize, moment: u64, seen: &S) -> bool {
    let rounds = seen.len() / SLOTS + 1;
    for round in 0..rounds {
        let i = round.saturating_mul(SLOTS).saturating_add(slot);
        if i < seen.len() && !seen.is_at_rest(i, moment) {
            return false;
        }
    }
    true
}
