//! What gives the orders.
ghost use Rattle.std.specs.Prelude.{◌≡◌, ℕ, List, [], ◌∷◌, Option};
ghost use Rattle.fax_gateway.specs.Wires.{Grows};
ghost use Rattle.fax_line.specs.Words.{Answers, Asks, Word};
ghost use Rattle.fax_line.specs.declared.asked.LineAnswer.{LineAnswer as AnsweredShown};
ghost use Rattle.fax_line.specs.declared.order.Order.{Order as OrderShown};

use crate::asked::{LineAnswer, LineRequest};
use crate::lines::Lines;
use crate::settling::PutResult;
use crate::store::RunStore;
use fax_wires::repeat::TimedWire;

/// What is to be done next, and when.
#[derive(Clone, Copy, PartialEq, Eq)]
pub enum Order {
    /// The next slot has its turn.
    Turn {
        now: u64,
    },
    /// This is asked of a line, counted from 0.
    Ask {
        line: usize,
        now: u64,
        what: LineRequest,
    },
    /// Something may have come over the wire of a line, counted from 0: it is not left at rest in the next turn of its slot.
    Wake {
        line: usize,
    },
}

/// What says what is to be done next: a clock, and those who give orders. It sees the lines, and may report of them. Lines do
/// not ask their wires whether something came while nothing is due on them: a pace that is not told of it wakes each of them
/// before the turn of its slot.
///
/// It is shown what keeps the pages of the run, where there is one, and changes nothing of what that keeps.
pub trait Pace<W: TimedWire + Drop, K: RunStore> {
    /// Of one that tells it: what it answered to `next`, and what it was told of that which it asked of lines, the newest first.
    ghost words: { Self → Option (List Word) };

    /// What is made of it where it answers what is to be done next. By default nothing is told of that.
    ghost gives: { Option OrderShown → Self → Self → Type 0 } = { λ order old new. Unit {0} };

    /// What is made of it where it is told what a line answered. By default nothing is told of that.
    ghost hears: { ℕ → Option AnsweredShown → Self → Self → Type 0 } = { λ line answer old new. Unit {0} };

    /// What is made of it where it sees what a turn came to. By default nothing is told of that.
    ghost sees: { Self → Self → Type 0 } = { λ old new. Unit {0} };

    /// What is made of it where it sees that turns have ended of which something was stored, and with it what keeps the pages as that is
    /// then. By default nothing is told of that.
    ghost sees_stored: { K → Self → Self → Type 0 } = { λ store old new. Unit {0} };

    /// What is to be done next, once it is due. `None`: the run ends.
    fn next(&mut self, lines: &Lines<W>, store: Option<&K>) -> Option<Order>
        ensures words { Grows (Asks result ∷ []) (words self.old) (words self.new) }
        ensures gives { gives result self.old self.new };

    /// A slot had its turn. A line of it that was turned, and waits, is shown once what is to be stored of its turn was stored.
    fn turned(&mut self, lines: &Lines<W>, store: Option<&K>)
        ensures words { words self.new ≡ words self.old }
        ensures sees { sees self.old self.new };

    /// The pages that the lines which wait confirmed are about to be put. What goes with them, as the tags of their calls, may be told to
    /// the store.
    fn before_put(&mut self, lines: &Lines<W>, store: &mut K)
        ensures same { K.is_same store.old store.new }
        ensures words { words self.new ≡ words self.old }
        ensures sees { sees self.old self.new };

    /// They were put, and what came of that.
    fn after_put(&mut self, lines: &Lines<W>, end: &PutResult)
        ensures words { words self.new ≡ words self.old }
        ensures sees { sees self.old self.new };

    /// The turns of the lines that wait have ended. The jobs that ended in them wait on the store still.
    fn stored(&mut self, lines: &Lines<W>, store: &K)
        ensures words { words self.new ≡ words self.old }
        ensures sees { sees self.old self.new }
        ensures sees_stored { sees_stored store.now self.old self.new };

    /// What was asked of a line by an order is done, and the line answered so. `None`: there is no such line.
    fn done(&mut self, line: usize, answer: Option<LineAnswer>)
        ensures words { Grows (Answers line answer ∷ []) (words self.old) (words self.new) }
        ensures hears { hears line answer self.old self.new };
}
