//! Room for a packet.
ghost use Rattle.std.specs.Prelude.{◌≡◌, ◌≤◌, [], IfOk, OnOk, OnErr, vec_capacity};

use crate::pending::LONGEST;
use fax_bits::NoMemory;
use std::alloc::Global;
use std::marker::Model;

/// Room for one packet, where it is reserved. Seen as the number of packets that have room.
pub(crate) struct Room {
    octets: Option<Vec<u8>>,
}

impl Drop for Room {
    fn drop(self) {
        let Room { octets: _octets } = self;
    }
}

impl Model for Room {
    ghost use Rattle.std.specs.Prelude.{◌≡◌, ◌≤◌, [], ℕ, is_some, vec_capacity, if◌then◌else◌};
    ghost use Rattle.std.specs.Option.{ForSome};
    ghost use Rattle.fax_answer.specs.declared.pending.TheConstants.{LONGEST};

    ghost Value = { ℕ };

    ghost view = { λ room. if is_some room.octets then 1 else 0 };

    ghost invariant = { λ room.
        ForSome room.octets (λ octets. (octets.items ≡ []) × (LONGEST ≤ vec_capacity octets)) };
}

impl Room {
    /// None is reserved. It takes no memory.
    pub fn none() -> Self
        ensures { result ≡ 0 }
    {
        Room { octets: None }
    }

    /// Reserves it, where it is not. An `Err` changes nothing.
    pub fn reserve(&mut self, alloc: Global) -> Result<(), NoMemory>
        ensures room { OnOk result (self.new ≡ 1) }
        ensures err { OnErr result (self.new ≡ self.old) }
    {
        if self.octets.is_none() {
            self.octets = Some(Vec::with_capacity(alloc, LONGEST)?);
        }
        Ok(())
    }

    /// A list without octets and with room for any packet: the one that is reserved, and else a new one, which takes
    /// memory. An `Err` changes nothing.
    pub fn take(&mut self, alloc: Global) -> Result<Vec<u8>, NoMemory>
        ensures empty { IfOk result (λ octets. octets.items ≡ []) }
        ensures enough { IfOk result (λ octets. LONGEST ≤ vec_capacity octets) }
        ensures taken { OnOk result (self.new ≡ 0) }
        ensures err { OnErr result (self.new ≡ self.old) }
        ensures spared { OnErr result (self.old ≡ 0) }
    {
        match self.octets.take() {
            Some(octets) => Ok(octets),
            None => Ok(Vec::with_capacity(alloc, LONGEST)?),
        }
    }
}
