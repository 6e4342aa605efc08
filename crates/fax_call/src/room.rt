//! Room for a packet to come.
ghost use Rattle.std.specs.Prelude.{◌≡◌, ◌≤◌, [], IsOk, IfOk, OnOk, OnErr, vec_capacity};

use fax_bits::NoMemory;
use std::alloc::Global;
use std::marker::Model;
use std::mem;

/// Room that was taken before the packet is there which it is for, seen as how many octets it holds.
pub(crate) struct Room {
    /// It is empty: what is written goes with it.
    octets: Vec<u8>,
}

impl Drop for Room {
    fn drop(self) {
        let Room { octets: _octets } = self;
    }
}

impl Model for Room {
    ghost use Rattle.std.specs.Prelude.{◌≡◌, ℕ, [], vec_capacity};

    ghost Value = { ℕ };

    ghost view = { λ r. vec_capacity r.octets };

    ghost invariant = { λ r. r.octets.items ≡ [] };
}

impl Room {
    /// No room. It takes no memory.
    pub fn none(alloc: Global) -> Self
        ensures { result ≡ 0 }
    {
        Room {
            octets: Vec::new(alloc),
        }
    }

    /// Room for so many octets at least. It takes memory where there is room for fewer. An `Err` changes nothing.
    pub fn reserve(&mut self, alloc: Global, octets: usize) -> Result<(), NoMemory>
        ensures room { OnOk result (octets ≤ self.new) }
        ensures spared { octets ≤ self.old → IsOk result }
        ensures err { OnErr result (self.new ≡ self.old) }
    {
        if self.octets.capacity() < octets {
            self.octets = Vec::with_capacity(alloc, octets)?;
        }
        Ok(())
    }

    /// Gives room for so many octets away: what was reserved, or memory of its own where that holds fewer. An `Err`
    /// changes nothing.
    pub fn take(&mut self, alloc: Global, octets: usize) -> Result<Vec<u8>, NoMemory>
        ensures empty { IfOk result (λ room. room.items ≡ []) }
        ensures room { IfOk result (λ room. octets ≤ vec_capacity room) }
        ensures spared { octets ≤ self.old → IsOk result }
        ensures err { OnErr result (self.new ≡ self.old) }
    {
        self.reserve(alloc, octets)?;
        Ok(mem::replace(&mut self.octets, Vec::new(alloc)))
    }
}
