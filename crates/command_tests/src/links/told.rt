//! What went over a line.
ghost use Rattle.std.specs.Prelude.{◌≡◌, ◌∷◌, List, [], Option, Some, None, IfSome, MatchOption, cond};
ghost use Rattle.fax_gateway.specs.Wires.{Grows};

use fax_bits::Octets;
use std::alloc::Global;
use std::marker::Model;

/// What went over a line, the newest first, until memory for it was lacking.
#[derive(Drop)]
pub(crate) struct Told<T> {
    items: Vec<T>,
    is_whole: bool,
}

impl<T> Model for Told<T> {
    ghost Value = { Option (List T) };

    ghost view = { λ told. cond told.is_whole (Some told.items.items) None };
}

impl<T: Drop> Told<T> {
    /// Nothing went over it.
    pub fn nothing(alloc: Global) -> Self
        ensures { result ≡ Some [] }
    {
        Told {
            items: Vec::new(alloc),
            is_whole: true,
        }
    }

    /// One more is told, where it is held.
    pub fn note(&mut self, item: Option<T>)
        ensures { MatchOption item (self.new ≡ None) (λ item. Grows (item ∷ []) self.old self.new) }
    {
        let Some(item) = item else {
            self.is_whole = false;
            return;
        };
        if self.items.insert(0, item).is_err() {
            self.is_whole = false;
        }
    }

    /// All of it, where that is told.
    pub fn whole(&self) -> Option<&[T]>
        ensures { MatchOption result (self.now ≡ None) (λ items. self.now ≡ Some items.now) }
    {
        if self.is_whole {
            Some(self.items.as_slice())
        } else {
            None
        }
    }
}

/// These octets, where memory is there.
pub(crate) fn held(alloc: Global, octets: &[u8]) -> Option<Octets>
    ensures { IfSome result (λ held. held ≡ octets.now) }
{
    match Vec::from_slice(alloc, octets) {
        Ok(octets) => Some(Octets::from_vec(octets)),
        Err(_) => None,
    }
}
