//! A writer of bits.
ghost use Rattle.std.specs.Prelude.{ℕ, ◌≡◌, IfOk, ◌+◌, ◌-◌, ◌*◌, ◌<◌, ◌≤◌, ◌^◌, ◌++◌, [], false, length, replicate, take, vec_len, vec_capacity, OnOk, OnErr};
ghost use Rattle.std.specs.Int.{to_be_bytes, w32};
ghost use Rattle.fax_bits.specs.Bits.{bits_of, word_bits};
ghost use Rattle.fax_bits.specs.Writing.{IsPadded};

use crate::memory::NoMemory;
use crate::octets::Octets;
use std::alloc::Global;
use std::marker::Model;
use std::mem;

/// Holds bits, the most significant bit of an octet first.
pub struct BitWriter {
    octets: Vec<u8>,
    /// The bits of four octets that are not whole yet, and how many they are.
    pending: u64,
    count: u32,
}

impl Drop for BitWriter {
    fn drop(self) {
        let BitWriter {
            octets: _octets,
            pending: _pending,
            count: _count,
        } = self;
    }
}

impl Model for BitWriter {
    ghost use Rattle.std.specs.Prelude.{◌^◌, ◌<◌, ◌≤◌, ◌+◌, ◌/◌, ◌++◌, List, Bool, vec_len, vec_capacity};
    ghost use Rattle.fax_bits.specs.Bits.{bits_of, word_bits};

    ghost Value = { List Bool };

    ghost view = { λ w. bits_of w.octets.items ++ word_bits w.count w.pending };

    // There is room for the octets that are not whole.
    ghost invariant = { λ w. (w.count < 32) × (w.pending < 2 ^ w.count)
        × (vec_len w.octets + (w.count + 7) / 8 ≤ vec_capacity w.octets) };
}

impl BitWriter {
    /// A writer of no bits.
    pub fn new(alloc: Global) -> Self
        ensures { result ≡ [] }
    {
        BitWriter::of_octets(Octets::from_vec(Vec::new(alloc)))
    }

    /// A writer of the bits of octets, in the memory that they have. It takes none.
    #[inline]
    pub fn of_octets(octets: Octets) -> Self
        ensures { result ≡ bits_of octets }
    {
        BitWriter {
            octets: octets.into_vec(),
            pending: 0,
            count: 0,
        }
    }

    /// How many bits it holds.
    pub fn bits(&self) -> u128
        ensures { result ≡ length self.now }
    {
        8 * self.octets.len() as u128 + u128::from(self.count)
    }

    /// Adds the low n bits of a word, at most 32, the most significant first. An `Err` changes nothing.
    #[inline]
    pub fn put(&mut self, word: u32, n: u32) -> Result<(), NoMemory>
        requires { n ≤ 32 }
        ensures ok { OnOk result (self.new ≡ self.old ++ word_bits n word) }
        ensures err { OnErr result (self.new ≡ self.old) }
    {
        let all = joined(self.pending, word, n);
        let total = self.count + n;
        self.octets.reserve(8)?;
        if total < 32 {
            self.pending = all;
            self.count = total;
        } else {
            let rest = total - 32;
            push_word(&mut self.octets, (all >> rest) as u32);
            self.pending = low_bits(all, rest);
            self.count = rest;
        }
        Ok(())
    }

    /// Adds n bits of 0. An `Err` changes nothing.
    pub fn zeros(&mut self, n: u32) -> Result<(), NoMemory>
        ensures ok { OnOk result (self.new ≡ self.old ++ replicate n false) }
        ensures err { OnErr result (self.new ≡ self.old) }
    {
        if n <= 32 {
            return self.put(0, n);
        }
        let more = u64::from(self.count) + u64::from(n) - 32;
        let whole = (more / 8) as usize;
        self.octets.reserve(whole + 5)?;
        push_word(&mut self.octets, (self.pending << (32 - self.count)) as u32);
        let len = self.octets.len();
        if self.octets.resize(len + whole, 0).is_err() {
            unreachable!();
        }
        self.pending = 0;
        self.count = (more % 8) as u32;
        Ok(())
    }

    /// Keeps the first n bits. It takes no memory.
    pub fn cut(&mut self, n: u128)
        requires { n ≤ length self.old }
        ensures { self.new ≡ take n self.old }
    {
        let whole = 8 * self.octets.len() as u128;
        if n >= whole {
            let count = (n - whole) as u32;
            self.pending >>= self.count - count;
            self.count = count;
        } else {
            let index = (n / 8) as usize;
            let count = (n % 8) as u32;
            let last = self.octets[index];
            self.octets.truncate(index);
            self.pending = u64::from(last) >> (8 - count);
            self.count = count;
        }
    }

    /// The octets, with fewer than eight zeros after the bits. It takes no memory.
    pub fn finish(self) -> Octets
        ensures { IsPadded result self }
    {
        let BitWriter {
            mut octets,
            pending,
            count,
        } = self;
        let last = u32::to_be_bytes((pending << (32 - count)) as u32);
        let whole = ((count + 7) / 8) as usize;
        if octets.extend_from_slice(&last[..whole]).is_err() {
            unreachable!();
        }
        Octets::from_vec(octets)
    }

    /// Takes the bits out into a writer that has room for so many octets more. An `Err` changes nothing.
    #[inline]
    pub fn take_with_room(&mut self, octets: usize) -> Result<RoomyWriter, NoMemory>
        ensures ok { IfOk result (λ roomy. (roomy.bits ≡ self.old) × (8 * octets ≤ roomy.room)) }
        ensures empty { OnOk result (self.new ≡ []) }
        ensures err { OnErr result (self.new ≡ self.old) }
    {
        self.octets.reserve(octets.saturating_add(4))?;
        let none = Vec::new(*self.octets.allocator());
        let roomy = RoomyWriter {
            octets: mem::replace(&mut self.octets, none),
            pending: self.pending,
            count: self.count,
        };
        self.pending = 0;
        self.count = 0;
        Ok(roomy)
    }
}

/// Holds bits, as a [`BitWriter`] does, and has room for more: what is put into it takes no memory.
pub struct RoomyWriter {
    octets: Vec<u8>,
    /// Its low bits are those of four octets that are not whole yet. What stands above them is of no
    /// account.
    pending: u64,
    count: u32,
}

impl Drop for RoomyWriter {
    fn drop(self) {
        let RoomyWriter {
            octets: _octets,
            pending: _pending,
            count: _count,
        } = self;
    }
}

impl Model for RoomyWriter {
    ghost use Rattle.std.specs.Prelude.{◌<◌, ◌≤◌, ◌+◌, ◌-◌, ◌*◌, ◌++◌, vec_len, vec_capacity};
    ghost use Rattle.fax_bits.specs.Bits.{bits_of, word_bits};
    ghost use Rattle.fax_bits.specs.Writing.{Roomy};

    ghost Value = { Roomy };

    ghost view = { λ w. record {
      bits = bits_of w.octets.items ++ word_bits w.count w.pending;
      room = 8 * vec_capacity w.octets - (8 * vec_len w.octets + w.count);
    } };

    ghost invariant = { λ w. (w.count < 32)
        × (8 * vec_len w.octets + w.count ≤ 8 * vec_capacity w.octets) };
}

impl RoomyWriter {
    /// Adds the n bits of a word, at most 32, the most significant first. It takes no memory.
    #[inline(always)]
    pub fn put(&mut self, word: u32, n: u32)
        requires few { n ≤ 32 }
        requires word { word < 2 ^ n }
        requires room { n ≤ self.old.room }
        ensures bits { self.new.bits ≡ self.old.bits ++ word_bits n word }
        ensures room { self.new.room ≡ self.old.room - n }
    {
        let all = (self.pending << n) | u64::from(word);
        let total = self.count + n;
        self.pending = all;
        if total < 32 {
            self.count = total;
        } else {
            let after = total - 32;
            push_word(&mut self.octets, ((all >> after) % (1 << 32)) as u32);
            self.count = after;
        }
    }

    /// The writer of its bits. It takes no memory.
    #[inline]
    pub fn into_writer(self) -> BitWriter
        ensures { result ≡ self.bits }
    {
        let RoomyWriter {
            octets,
            pending,
            count,
        } = self;
        BitWriter {
            octets,
            pending: low_bits(pending, count),
            count,
        }
    }
}

/// Adds the four octets of a word, for which there is room.
#[inline]
fn push_word(octets: &mut Vec<u8>, word: u32)
    requires { vec_len octets.old + 4 ≤ vec_capacity octets.old }
    ensures items { octets.new.items ≡ octets.old.items ++ to_be_bytes w32 word }
    ensures len { vec_len octets.new ≡ vec_len octets.old + 4 }
    ensures capacity { vec_capacity octets.new ≡ vec_capacity octets.old }
{
    let [a, b, c, d] = u32::to_be_bytes(word);
    octets.push_reserved(a);
    octets.push_reserved(b);
    octets.push_reserved(c);
    octets.push_reserved(d);
}

/// The low n bits of a word.
#[inline]
fn low_bits(word: u64, n: u32) -> u64
    requires { n ≤ 32 }
    ensures bits { word_bits n result ≡ word_bits n word }
    ensures below { result < 2 ^ n }
{
    word & ((1 << n) - 1)
}

/// The bits before, and then the low n bits of a word.
#[inline]
fn joined(before: u64, word: u32, n: u32) -> u64
    requires few { n ≤ 32 }
    requires before { before < 2 ^ 31 }
    ensures bits { (k : ℕ) → word_bits (k + n) result ≡ word_bits k before ++ word_bits n word }
    ensures below { (k : ℕ) → before < 2 ^ k → result < 2 ^ (k + n) }
{
    (before << n) | low_bits(u64::from(word), n)
}
