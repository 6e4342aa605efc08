//! Elements that turn: from a place on they get the other colour.
ghost use Rattle.std.specs.Prelude.{ℕ, ◌≡◌, ◌≤◌, ◌<◌, ◌+◌, ◌-◌, ◌++◌, length, take, drop, replicate, slice_index_or, vec_len, vec_capacity};
ghost use Rattle.fax_runcodes.specs.Rows.{other, colour_before};
ghost use Rattle.fax_runcodes.specs.Painted.{painted, AreRising};

use crate::RowBuilder;

impl RowBuilder {
    /// Gives the elements from a place on the other colour. They all have that of the element before
    /// them, or white where none is. It takes no memory.
    #[inline]
    pub fn turn(&mut self, place: u16)
        requires within { place < length self.old }
        requires same { drop place self.old
            ≡ replicate (length self.old - place) (colour_before self.old place) }
        ensures { self.new ≡ take place self.old
            ++ replicate (length self.old - place) (other (colour_before self.old place)) }
    {
        self.changes.push_reserved(place);
    }

    /// Gives the elements from each of these places on the other colour, from left to right. From the
    /// first place on they all have that of the element before them, or white where none is. It takes
    /// no memory.
    #[inline]
    pub fn turn_at_all(&mut self, places: &[u16])
        requires rising { AreRising 0 places.now (length self.old) }
        requires same { let first : ℕ = slice_index_or places.now 0 (length self.old)
            in drop first self.old
            ≡ replicate (length self.old - first) (colour_before self.old first) }
        ensures { let first : ℕ = slice_index_or places.now 0 (length self.old)
            in self.new ≡ take first self.old
            ++ painted (colour_before self.old first) first places.now (length self.old) }
    {
        push_all(&mut self.changes, places);
    }

    /// Takes away all elements but the first n. It takes no memory.
    #[inline]
    pub fn shorten(&mut self, n: u16)
        requires { n ≤ length self.old }
        ensures { self.new ≡ take n self.old }
    {
        let mut count = self.changes.len();
        while count > 0 && self.changes[count - 1] >= n {
            count -= 1;
        }
        self.changes.truncate(count);
        self.len = n;
    }
}

/// Pushes all of these.
#[inline]
fn push_all(changes: &mut Vec<u16>, places: &[u16])
    requires room { vec_len changes.old + length places.now ≤ vec_capacity changes.old }
    ensures items { changes.new.items ≡ changes.old.items ++ places.now }
    ensures room { vec_capacity changes.new ≡ vec_capacity changes.old }
{
    for place in places {
        changes.push_reserved(*place);
    }
}
