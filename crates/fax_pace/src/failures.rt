//! Receives and sends that fail.
use fax_control::Leg;
use fax_control::events::Direction;

/// So many failures more are told.
const MORE: u64 = 100;

/// How many receives and sends of both legs failed.
#[derive(Clone, Copy, Default)]
pub(crate) struct Failures {
    pub calling_receives: u64,
    pub calling_sends: u64,
    pub called_receives: u64,
    pub called_sends: u64,
}

impl Failures {
    /// Which leg and direction has failed for the first time since these were told, or 100 times more, and how often it did.
    pub(crate) fn news(&self, told: &Failures) -> Option<(Leg, Direction, u64)> {
        if is_news(self.calling_receives, told.calling_receives) {
            Some((Leg::Calling, Direction::Receives, self.calling_receives))
        } else if is_news(self.calling_sends, told.calling_sends) {
            Some((Leg::Calling, Direction::Sends, self.calling_sends))
        } else if is_news(self.called_receives, told.called_receives) {
            Some((Leg::Called, Direction::Receives, self.called_receives))
        } else if is_news(self.called_sends, told.called_sends) {
            Some((Leg::Called, Direction::Sends, self.called_sends))
        } else {
            None
        }
    }

    /// So many of a leg and a direction are told.
    pub(crate) fn tell(&mut self, leg: Leg, direction: Direction, count: u64) {
        match (leg, direction) {
            (Leg::Calling, Direction::Receives) => self.calling_receives = count,
            (Leg::Calling, Direction::Sends) => self.calling_sends = count,
            (Leg::Called, Direction::Receives) => self.called_receives = count,
            (Leg::Called, Direction::Sends) => self.called_sends = count,
        }
    }

    /// All of them; at most the greatest count.
    pub(crate) fn sum(&self) -> u64 {
        self.calling_receives
            .saturating_add(self.calling_sends)
            .saturating_add(self.called_receives)
            .saturating_add(self.called_sends)
    }
}

/// Whether a count is to be told: it is the first failure, or 100 more than were told.
fn is_news(count: u64, told: u64) -> bool {
    let more = count.saturating_sub(told);
    more >= MORE || (told == 0 && more > 0)
}
