//! What a leg hands out, where that is tapped.
ghost use Rattle.std.specs.Prelude.{◌≡◌, ◌++◌, ◌∷◌, [], true, false, IfNone, IfSome, OnErr, OnOk};
ghost use Rattle.fax_legs.specs.Taps.{Keeps, Notes};

use fax_bits::{NoMemory, Octets};
use std::alloc::Global;
use std::cell::Cell;

/// Copies of the datagrams that a leg hands out in a turn, while it is switched on. So it has as many at most, and as many octets, as a
/// turn receives.
pub(crate) struct Tap {
    alloc: Global,
    is_on: Cell<bool>,
    datagrams: Vec<Octets>,
    /// Whether memory was refused for one of the turn.
    is_lacking: bool,
}

impl Drop for Tap {
    fn drop(self) {
        let Tap {
            alloc: _alloc,
            is_on: _is_on,
            datagrams: _datagrams,
            is_lacking: _is_lacking,
        } = self;
    }
}

impl Tap {
    /// It is switched off, and nothing was handed out.
    pub(crate) fn new(alloc: Global) -> Self
        ensures datagrams { result.datagrams.items ≡ [] }
        ensures lacking { result.is_lacking ≡ false }
    {
        Tap {
            alloc,
            is_on: Cell::new(false),
            datagrams: Vec::new(alloc),
            is_lacking: false,
        }
    }

    /// From now on it copies what is handed out, or no more.
    pub(crate) fn set_on(&self, is_on: bool) {
        self.is_on.set(is_on);
    }

    /// A turn begins: nothing was handed out in it.
    pub(crate) fn begin_turn(&mut self)
        ensures datagrams { self.new.datagrams.items ≡ [] }
        ensures lacking { self.new.is_lacking ≡ false }
    {
        self.datagrams.clear();
        self.is_lacking = false;
    }

    /// A datagram is handed out.
    pub(crate) fn note(&mut self, octets: &[u8])
        ensures { Notes octets.now self.old self.new }
    {
        if !self.is_on.get() {
            return;
        }
        self.keep(octets);
    }

    /// It is copied after the others, or memory is refused for it.
    fn keep(&mut self, octets: &[u8])
        ensures { Keeps octets.now self.old self.new }
    {
        let Err(NoMemory) = self.add(octets) else {
            return;
        };
        self.is_lacking = true;
    }

    /// It is copied after the others. An `Err` leaves them as they were.
    fn add(&mut self, octets: &[u8]) -> Result<(), NoMemory>
        ensures lacking { self.new.is_lacking ≡ self.old.is_lacking }
        ensures ok { OnOk result (self.new.datagrams.items
            ≡ self.old.datagrams.items ++ octets.now ∷ []) }
        ensures err { OnErr result (self.new.datagrams.items ≡ self.old.datagrams.items) }
    {
        let copy = octets.to_vec(self.alloc)?;
        self.datagrams.push(Octets::from_vec(copy))?;
        Ok(())
    }

    /// The copies of the turn. `None`: memory was refused for one.
    pub(crate) fn datagrams(&self) -> Option<&[Octets]>
        ensures some { IfSome result (λ datagrams. datagrams.now ≡ self.now.datagrams.items) }
        ensures none { IfNone result (self.now.is_lacking ≡ true) }
        ensures all { IfSome result (λ datagrams. self.now.is_lacking ≡ false) }
    {
        if self.is_lacking {
            return None;
        }
        Some(self.datagrams.as_slice())
    }
}
