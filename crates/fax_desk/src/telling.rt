//! Telling what happened.
ghost use Rattle.std.specs.Prelude.{◌≡◌};
ghost use Rattle.fax_desk.specs.Desks.{name_at, told_at, turned_at};
ghost use Rattle.fax_desk.specs.Telling.{TellsAt, TellsIf, TellsOf, Tells, told_list};

use crate::desk::Desk;
use crate::told::{LineEvent, Turn, TurnEvents};

/// What hears what happens.
pub trait Listener {
    ghost use Rattle.std.specs.Prelude.{ℕ, List};
    ghost use Rattle.fax_desk.specs.declared.told.LineEvent.{LineEvent as HappenedShown};

    /// What is made of it where it is told this of the line of this name, at this moment.
    ghost tells: { List ℕ → ℕ → HappenedShown → Self → Self → Type 0 };

    /// It is told this of the line of this name.
    fn tell(&mut self, line: &str, at: u64, what: LineEvent)
        ensures { tells line.now at what self.old self.new };
}

/// It is told this, where there is something.
fn tell_if<L: Listener>(listener: &mut L, line: &str, at: u64, what: Option<LineEvent>)
    ensures { TellsIf L.tells line.now at what listener.old listener.new }
{
    match what {
        Some(what) => listener.tell(line, at, what),
        None => {}
    }
}

/// It is told all of this, in this order.
fn tell_told<L: Listener>(listener: &mut L, line: &str, at: u64, told: TurnEvents)
    ensures { Tells L.tells line.now at (told_list told) listener.old listener.new }
{
    tell_if(listener, line, at, told.not_stored);
    tell_if(listener, line, at, told.page);
    tell_if(listener, line, at, told.refused);
    tell_if(listener, line, at, told.ended);
    tell_if(listener, line, at, told.job);
    tell_if(listener, line, at, told.dialled);
}

/// Line i had a turn: exactly what is told of that is told, of the line of its name.
pub fn tell_turn<L: Listener>(desk: &mut Desk, i: usize, turn: Turn, now: u64, listener: &mut L)
    ensures told { TellsAt L.tells (name_at desk.old.names.items i)
        (told_at desk.old.cards.items i turn) now listener.old listener.new }
    ensures cards { desk.new.cards.items ≡ turned_at desk.old.cards.items i turn }
    ensures same { desk.new ≡ record desk.old { cards = desk.new.cards } }
{
    let told = desk.turn(i, turn);
    match told {
        Some(told) => match desk.name(i) {
            Some(name) => tell_told(listener, name, now, told),
            None => {}
        },
        None => {}
    }
}

/// This happened on line i: it is told, of the line of its name.
pub fn tell_at<L: Listener>(desk: &Desk, i: usize, what: LineEvent, now: u64, listener: &mut L)
    ensures { TellsOf L.tells (name_at desk.now.names.items i) what now listener.old listener.new }
{
    match desk.name(i) {
        Some(name) => listener.tell(name, now, what),
        None => {}
    }
}
