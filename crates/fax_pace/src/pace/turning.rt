//! What is told of turns.
ghost use Rattle.std.specs.Prelude.{◌≡◌};

use super::RealPace;
use super::sip::tell_sip;
use crate::redial_side::RedialSide;
use crate::seen::SeenLines;
use crate::sip_side::SipSide;
use fax_desk::tell_turn;
use fax_line::SLOTS;
use std::rt::Clock;

impl<'a, C: Clock, R: RedialSide + Drop, S: SipSide + Drop> RealPace<'a, C, R, S> {
    /// Tells what the turn that was ordered came to, of each line that was not left at rest in it, and does not wait.
    pub(super) fn tell_turned<L: SeenLines>(&mut self, seen: &L)
        ensures { self.new ≡ self.old }
    {
        let Some(slot) = self.rounds.turned.take() else {
            return;
        };
        let looks = self.rounds.looks(slot);
        let rounds = seen.len() / SLOTS + 1;
        for round in 0..rounds {
            let i = round.saturating_mul(SLOTS).saturating_add(slot);
            if i < seen.len() {
                self.see_line(i, looks, seen);
            }
        }
    }

    /// Tells what the turns of the lines that wait came to, of which what is to be stored was put.
    pub(super) fn tell_stored<L: SeenLines>(&mut self, seen: &L)
        ensures { self.new ≡ self.old }
    {
        for i in 0..seen.len() {
            if seen.waits(i) {
                let is_stored = self.waking.is_stored(i);
                self.tell_line(i, false, is_stored, seen);
            }
        }
    }

    /// Tells what the turn of its slot came to for line i, where it does not wait. Where something may come over its legs still, and where
    /// they are to be asked, it is to be woken.
    fn see_line<L: SeenLines>(&mut self, i: usize, looks: bool, seen: &L)
        ensures { self.new ≡ self.old }
    {
        if !seen.waits(i) {
            self.tell_line(i, looks, true, seen);
        }
        self.tell_frames(i, seen);
        self.waking.see(i, looks, seen);
    }

    /// Tells what the turn of line i came to, where it had one, whose page was stored or not, where it confirmed one. Where its question
    /// is to be looked at, that is noted.
    fn tell_line<L: SeenLines>(&mut self, i: usize, looks: bool, is_stored: bool, seen: &L)
        ensures { self.new ≡ self.old }
    {
        let has_turned = seen.has_turned(i);
        if has_turned {
            self.tell_turn(i, is_stored, seen);
        }
        let asks_for_a_call = (has_turned || looks) && seen.asks_for_a_call(i);
        if self.desk.is_due(i, asks_for_a_call) {
            let _ = self.waking.to_ask.push(i);
        }
    }

    /// Tells those who watch line i what happened in its calls.
    fn tell_frames<L: SeenLines>(&mut self, i: usize, seen: &L)
        ensures { self.new ≡ self.old }
    {
        if self.ladders.has(i)
            && let Some(name) = self.desk.name(i)
        {
            self.ladders.see(i, name, seen, &mut self.teller);
        }
    }

    /// Tells what the turn of line i came to, whose page was stored or not.
    fn tell_turn<L: SeenLines>(&mut self, i: usize, is_stored: bool, seen: &L)
        ensures { self.new ≡ self.old }
    {
        let now = self.rounds.now;
        if let Some(turn) = seen.turn(i, is_stored) {
            tell_turn(&mut self.desk, i, turn, now, &mut self.teller);
        }
        tell_sip(&mut self.sip, &mut self.teller, now, i);
        if let Some(name) = self.desk.name(i) {
            self.teller.tell_failures(i, name, seen, now);
            self.teller.tell_refusals(i, name, seen, now);
        }
    }
}
