//! A whole run of a server.
ghost use Rattle.std.specs.Prelude.{◌≡◌, List, []};
ghost use Rattle.fax_line.specs.Operations.{AreFree, AreRising, LinesWent, slot_before};
ghost use Rattle.fax_line.specs.Places.{PlaceValue};
ghost use Rattle.fax_line.specs.Settling.{SetAside};
ghost use Rattle.fax_line.specs.StoredRuns.{FreeWhere, IsFreeWhere, RanIf, Settles, SettlesIf, StoresIf, TurnEnds};
ghost use Rattle.fax_line.specs.Pacing.{PacedToEnd, SawStored, SeesStored, SeesTurn};
ghost use Rattle.fax_line.specs.Runs.{AreServed, DoneOrder, Ends, latest, next_slot, none_waits, operations_of};

use crate::lines::Lines;
use crate::order::{Order, Pace};
use crate::store::RunStore;
use fax_wires::repeat::TimedWire;

/// Does what is ordered, until the run ends. A moment before another that came reads as the latest. Whatever the orders, and
/// whatever comes over the wires: each order was done once, and the operations that they came to are all that was done; each line went
/// through those that are its own, by itself, in the order of their moments. In the turn of its slot a line is turned, or left at rest
/// where nothing is due on it and it was not woken since it was turned last.
///
/// Where there is a store, a line that confirmed a page in its turn, or a job of which ended, waits after it, and does nothing more until
/// that was stored: once in each round of the slots, of all such lines at once; before something is asked of one of them; and where the
/// run ends. The pages are put, then what confirms them goes out, and then the store is told of each job that ended. What the other
/// lines gave goes out after their turns; where there is no store, that of all.
pub fn serve<W: TimedWire + Drop, K: RunStore, P: Pace<W, K>>(
    lines: &mut Lines<W>,
    store: &mut Option<K>,
    pace: &mut P,
)
    requires { AreFree lines.old.lines }
    ensures ran { (done : List DoneOrder)
        × LinesWent (operations_of done) lines.old.lines lines.new.lines
        × (lines.new.slot ≡ next_slot lines.old.slot done)
        × AreServed lines.old.slot done none_waits
        × AreRising (operations_of done) (latest done)
        × Ends done (P.words pace.old) (P.words pace.new)
        × RanIf K.is_same K.puts K.notes K.ends
        done lines.old.lines lines.new.lines store.old store.new
        × PacedToEnd P.gives P.hears P.sees done pace.old pace.new }
    ensures free { AreFree lines.new.lines }
{
    let mut latest = 0u64;
    for _ in 0..u64::MAX {
        let Some(order) = pace.next(lines, store.as_ref()) else {
            store_waiting(lines, store, pace);
            return;
        };
        match order {
            Order::Turn { now } => {
                latest = latest.max(now);
                lines.turn(latest);
                end_turn(lines, store, pace);
            }
            Order::Ask { line, now, what } => {
                latest = latest.max(now);
                store_before(lines, store, pace, line);
                let answer = lines.ask(line, what, latest);
                pace.done(line, answer);
            }
            Order::Wake { line } => lines.wake(line),
        }
    }
    store_waiting(lines, store, pace);
}

/// The end of the turn of the slot that had the last one.
fn end_turn<W: TimedWire + Drop, K: RunStore, P: Pace<W, K>>(
    lines: &mut Lines<W>,
    store: &mut Option<K>,
    pace: &mut P,
)
    ensures slot { lines.new.slot ≡ lines.old.slot }
    ensures words { P.words pace.new ≡ P.words pace.old }
    ensures sees { SeesTurn P.sees pace.old pace.new }
    ensures ends { TurnEnds K.is_same K.puts K.notes K.ends
        (slot_before lines.old.slot) lines.old.lines lines.new.lines store.old store.new }
    ensures round { lines.old.slot ≡ 0 → FreeWhere store.old lines.new.lines }
{
    match store {
        Some(store) => end_stored_turn(lines, store, pace),
        None => {
            lines.let_out_slot();
            pace.turned(lines, store.as_ref());
        }
    }
}

/// The same where there is a store: what waits is stored once in each round of the slots.
fn end_stored_turn<W: TimedWire + Drop, K: RunStore, P: Pace<W, K>>(
    lines: &mut Lines<W>,
    store: &mut K,
    pace: &mut P,
)
    ensures slot { lines.new.slot ≡ lines.old.slot }
    ensures words { P.words pace.new ≡ P.words pace.old }
    ensures sees { SeesTurn P.sees pace.old pace.new }
    ensures ends { (aside : List PlaceValue)
        × SetAside (slot_before lines.old.slot) lines.old.lines aside
        × LinesWent [] lines.old.lines aside
        × SettlesIf K.is_same K.puts K.notes K.ends aside lines.new.lines store.old store.new }
    ensures round { lines.old.slot ≡ 0 → AreFree lines.new.lines }
{
    lines.set_aside();
    pace.turned(lines, Some(&*store));
    if lines.slot() == 0 {
        settle(lines, store, pace);
    }
}

/// What waits is stored, where something does.
fn store_waiting<W: TimedWire + Drop, K: RunStore, P: Pace<W, K>>(
    lines: &mut Lines<W>,
    store: &mut Option<K>,
    pace: &mut P,
)
    ensures slot { lines.new.slot ≡ lines.old.slot }
    ensures words { P.words pace.new ≡ P.words pace.old }
    ensures sees { SeesStored P.sees pace.old pace.new }
    ensures stores { StoresIf K.is_same K.puts K.notes K.ends
        lines.old.lines lines.new.lines store.old store.new }
    ensures free { FreeWhere store.old lines.new.lines }
{
    if let Some(store) = store
        && lines.some_wait()
    {
        settle(lines, store, pace);
    }
}

/// The same where this line waits.
fn store_before<W: TimedWire + Drop, K: RunStore, P: Pace<W, K>>(
    lines: &mut Lines<W>,
    store: &mut Option<K>,
    pace: &mut P,
    line: usize,
)
    ensures slot { lines.new.slot ≡ lines.old.slot }
    ensures words { P.words pace.new ≡ P.words pace.old }
    ensures sees { SeesStored P.sees pace.old pace.new }
    ensures stores { StoresIf K.is_same K.puts K.notes K.ends
        lines.old.lines lines.new.lines store.old store.new }
    ensures free { IsFreeWhere store.old line lines.new.lines }
{
    if lines.waits(line) {
        store_waiting(lines, store, pace);
    }
}

/// What is to be stored of the turns of the lines that wait is stored. The end of these turns, with what their jobs came to, is told before
/// the store notes that they ended: a job whose end nobody was told is sent again.
fn settle<W: TimedWire + Drop, K: RunStore, P: Pace<W, K>>(
    lines: &mut Lines<W>,
    store: &mut K,
    pace: &mut P,
)
    ensures slot { lines.new.slot ≡ lines.old.slot }
    ensures words { P.words pace.new ≡ P.words pace.old }
    ensures sees { SeesStored P.sees pace.old pace.new }
    ensures settles { Settles K.is_same K.puts K.notes K.ends
        (λ kept. SawStored P.sees_stored kept pace.new)
        lines.old.lines lines.new.lines store.old store.new }
{
    pace.before_put(lines, store);
    let end = lines.settle(store);
    pace.after_put(lines, &end);
    pace.stored(lines, store);
    lines.tell_store(&end, store);
    lines.free();
}
