//! A page is stored before what confirms it goes out.
ghost use Rattle.std.specs.Prelude.{◌≡◌, ◌<◌, ℕ, Bool, List, ◌∷◌, ◌++◌, OnOk, OnErr, Option, is_ok, length};
ghost use Rattle.fax_wires.specs.repeat.Policies.{IsToldAs};
ghost use Rattle.fax_wires.specs.holding.Holding.{as_told};
ghost use Rattle.fax_wires.specs.holding.Storing.{HasDone, HoldsAfter, LegAction, PutsIf};
ghost use Rattle.fax_wires.specs.holding.Storing.{Turn as TurnAction};

use crate::holding::holding::HoldingWire;
use crate::repeat::TimedWire;
use thiserror::Error;

/// Pages were not stored, or it is not known whether they were.
#[derive(Clone, Copy, PartialEq, Eq, Debug, Error)]
#[error("a page was not kept")]
pub struct StoreFault;

/// Where pages are stored.
pub trait PageStore<P> {
    /// It keeps these pages, in this order, whatever crash follows.
    ghost keeps: { Self → List P → Type 0 };

    /// What a put of these pages makes of it, all of them at once, which were stored or not. By default nothing is told of that.
    ghost puts: { List P → Bool → Self → Self → Type 0 } = { λ pages is_stored old new. Unit {0} };

    /// Keeps pages after the others, in their order. At an `Err` each of them may be stored or not.
    fn store_all(&mut self, pages: &[P]) -> Result<(), StoreFault>
        ensures kept { OnOk result ((before : List P)
            → keeps self.old before → keeps self.new (before ++ pages.now)) }
        ensures puts { puts pages.now (is_ok result) self.old self.new };
}

/// Keeps pages, all of them at once. Where there are none the store is not asked.
pub fn store_pages<P, K: PageStore<P>>(store: &mut K, pages: &[P]) -> Result<(), StoreFault>
    ensures kept { OnOk result ((before : List P)
        → K.keeps store.old before → K.keeps store.new (before ++ pages.now)) }
    ensures some { OnErr result (0 < length pages.now) }
    ensures puts { PutsIf K.puts pages.now (is_ok result) store.old store.new }
{
    if pages.is_empty() {
        return Ok(());
    }
    store.store_all(pages)
}

/// The end of a turn, which confirmed a page or not, that is stored or not. Where it confirmed none, and where its page is stored, what
/// it gave on the calling leg goes out; where its page is not stored that does not go out, and the leg is silenced until the next call
/// begins. A datagram whose send fails is lost.
pub fn end_turn<W: TimedWire + Drop>(wire: &mut HoldingWire<W>, confirms: bool, is_stored: bool)
    ensures settled { (actions : List LegAction) (given : Option (List ℕ))
        → HoldsAfter actions given wire.old
        → HasDone (TurnAction given confirms is_stored ∷ actions) wire.new }
    ensures told { IsToldAs (as_told wire.old) (as_told wire.new) }
    ensures peers { wire.new.peers ≡ wire.old.peers }
{
    if confirms && !is_stored {
        wire.silence();
    } else {
        let _ = wire.release();
    }
}
