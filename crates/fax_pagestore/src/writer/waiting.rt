//! Bits that wait to be given.
ghost use Rattle.std.specs.Prelude.{ℕ, List, Bool, [], ◌≡◌, ◌≢◌, ◌≤◌, ◌*◌, ◌⊎◌, ◌++◌, take, drop, length, IfOk};
ghost use Rattle.fax_bits.specs.Laws.{AreOctets};
ghost use Rattle.fax_bits.specs.Writing.{IsPadded};

use crate::front::drop_front;
use fax_bits::{BitWriter, NoMemory, Octets};
use std::alloc::Global;
use std::marker::Model;
use std::mem;

/// Bits in order. Those in front that were given are kept until more bits are written.
pub(super) struct Waiting {
    octets: Vec<u8>,
    /// How many of the octets were given, and how many bits the others hold.
    given: usize,
    bits: u128,
}

impl Drop for Waiting {
    fn drop(self) {
        let Waiting {
            octets: _octets,
            given: _given,
            bits: _bits,
        } = self;
    }
}

impl Model for Waiting {
    ghost use Rattle.std.specs.Prelude.{List, Bool, ◌≤◌, ◌*◌, take, drop, length};
    ghost use Rattle.fax_bits.specs.Bits.{bits_of};
    ghost use Rattle.fax_bits.specs.Writing.{IsPadded};

    ghost Value = { List Bool };

    ghost view = { λ w. take w.bits (bits_of (drop w.given w.octets.items)) };

    // The last octet is filled with zeros.
    ghost invariant = { λ w. (w.given ≤ length w.octets.items)
        × (w.bits ≤ 8 * length (drop w.given w.octets.items))
        × IsPadded (drop w.given w.octets.items)
        (take w.bits (bits_of (drop w.given w.octets.items))) };
}

impl Waiting {
    /// No bits. It takes no memory.
    pub fn none(alloc: Global) -> Self
        ensures { result ≡ [] }
    {
        Waiting {
            octets: Vec::new(alloc),
            given: 0,
            bits: 0,
        }
    }

    /// The bits of a writer. It takes no memory.
    pub fn of(writer: BitWriter) -> Self
        ensures { result ≡ writer }
    {
        let bits = writer.bits();
        Waiting {
            octets: writer.finish().into_vec(),
            given: 0,
            bits,
        }
    }

    /// How many bits there are.
    pub fn bits(&self) -> u128
        ensures { result ≡ length self.now }
    {
        self.bits
    }

    /// Takes the bits out. It takes no memory.
    pub fn take(&mut self) -> Self
        ensures taken { result ≡ self.old }
        ensures none { self.new ≡ [] }
    {
        let none = Waiting::none(*self.octets.allocator());
        mem::replace(self, none)
    }

    /// A writer of these bits, in the memory that they have. It takes none.
    pub fn into_writer(self) -> BitWriter
        ensures { result ≡ self }
    {
        let Waiting {
            mut octets,
            given,
            bits,
        } = self;
        drop_front(&mut octets, given);
        let mut writer = BitWriter::of_octets(Octets::from_vec(octets));
        writer.cut(bits);
        writer
    }

    /// Keeps the first n bits. It takes no memory.
    pub fn cut(&mut self, n: u128)
        requires { n ≤ length self.old }
        ensures { self.new ≡ take n self.old }
    {
        let mut writer = self.take().into_writer();
        writer.cut(n);
        *self = Waiting::of(writer);
    }

    /// The first n octets of these bits and others after them, where there are as many bits here or none
    /// after them.
    pub fn front(&self, n: usize) -> Result<Octets, NoMemory>
        ensures front { IfOk result (λ front. (octets : List ℕ) (more : List Bool)
            → AreOctets octets → IsPadded octets (self.now ++ more)
            → (8 * n ≤ length self.now) ⊎ (more ≡ []) → front ≡ take n octets) }
        ensures few { IfOk result (λ front. length front ≤ n) }
        ensures some { IfOk result (λ front. 1 ≤ n → self.now ≢ [] → 1 ≤ length front) }
    {
        let front = first(*self.octets.allocator(), &self.octets[self.given..], n)?;
        Ok(front)
    }

    /// Passes the first n octets, or all bits. It takes no memory.
    pub fn pass(&mut self, n: usize)
        ensures { self.new ≡ drop (8 * n) self.old }
    {
        let left = self.octets.len() - self.given;
        self.given += n.min(left);
        self.bits = self.bits.saturating_sub(8 * n as u128);
    }
}

/// A copy of the first n octets, or of all.
fn first(alloc: Global, octets: &[u8], n: usize) -> Result<Octets, NoMemory>
    ensures first { IfOk result (λ first. first ≡ take n octets.now) }
    ensures octets { AreOctets octets.now }
{
    let first = Vec::from_slice(alloc, &octets[..n.min(octets.len())])?;
    Ok(Octets::from_vec(first))
}
