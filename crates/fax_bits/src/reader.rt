//! A reader of bits.
ghost use Rattle.std.specs.Prelude.{ℕ, Bool, false, List, ◌∷◌, replicate, slice_index, ◌≡◌, ◌+◌, ◌*◌, ◌<◌, ◌≤◌, ◌^◌, length, drop, take, min, IfSome, IsSome, IsTrue, ◌↔◌};
ghost use Rattle.fax_bits.specs.Bits.{bits_of, word_bits};

use std::marker::Model;

/// Reads the bits of octets in order, the most significant first.
#[derive(Drop)]
pub struct BitReader<'a> {
    octets: &'a [u8],
    /// The octet in which the next bit stands, and how many of its bits were passed.
    index: usize,
    bit: u32,
}

impl<'a> Model for BitReader<'a> {
    ghost use Rattle.std.specs.Prelude.{◌+◌, ◌*◌, ◌≤◌, ◌<◌, drop, length};
    ghost use Rattle.fax_bits.specs.Reading.{Place};
    ghost use Rattle.fax_bits.specs.Bits.{bits_of};

    ghost Value = { Place };

    ghost view = { λ r. record {
      passed = 8 * r.index + r.bit;
      left = drop (8 * r.index + r.bit) (bits_of r.octets.now);
    } };

    ghost invariant = { λ r. (r.bit < 8) × (8 * r.index + r.bit ≤ 8 * length r.octets.now) };
}

impl<'a> BitReader<'a> {
    ghost use Rattle.fax_bits.specs.Reading.{Passes, padded};

    /// A reader at the first bit.
    pub fn new(octets: &'a [u8]) -> Self
        ensures { result ≡ record { passed = 0; left = bits_of octets.now } }
    {
        BitReader {
            octets,
            index: 0,
            bit: 0,
        }
    }

    /// How many bits were passed.
    pub fn place(&self) -> u128
        ensures { result ≡ self.now.passed }
    {
        8 * self.index as u128 + u128::from(self.bit)
    }

    /// How many bits are left.
    pub fn left(&self) -> u128
        ensures { result ≡ length self.now.left }
    {
        8 * (self.octets.len() - self.index) as u128 - u128::from(self.bit)
    }

    /// How many of the next 56 bits are left: 56 where there are as many.
    #[inline]
    pub fn known(&self) -> u32
        ensures { result ≡ min 56 (length self.now.left) }
    {
        let octets = self.octets.len() - self.index;
        if octets >= 8 {
            56
        } else {
            8 * octets as u32 - self.bit
        }
    }

    /// Whether n bits are left, for n up to 56.
    #[inline]
    pub fn has(&self, n: u32) -> bool
        requires { n ≤ 56 }
        ensures { IsTrue result ↔ (n ≤ length self.now.left) }
    {
        let octets = self.octets.len() - self.index;
        octets >= 8 || n <= 8 * octets as u32 - self.bit
    }

    /// The next 56 bits as a number, with zeros past the end. With [`BitReader::has`] it serves a
    /// look-up that needs one test for the end.
    #[inline]
    pub fn window(&self) -> u64
        ensures bits { word_bits 56 result ≡ padded 56 self.now.left }
        ensures word { result < 2 ^ 56 }
    {
        (eight_at(self.octets, self.index) << self.bit) >> 8
    }

    /// Passes n bits.
    #[inline]
    pub fn skip(&mut self, n: u32)
        requires { n ≤ length self.old.left }
        ensures { Passes self.old self.new (take n self.old.left) }
    {
        let total = u64::from(self.bit) + u64::from(n);
        self.index += (total / 8) as usize;
        self.bit = (total % 8) as u32;
    }

    /// The next n bits, from 1 to 24 of them, as a number, or `None` where fewer are left. It looks at
    /// four octets at most.
    #[inline]
    pub fn peek(&self, n: u32) -> Option<u32>
        requires some { 1 ≤ n }
        requires few { n ≤ 24 }
        ensures found { IsSome result ↔ (n ≤ length self.now.left) }
        ensures bits { IfSome result (λ word. word_bits n word ≡ take n self.now.left) }
        ensures word { IfSome result (λ word. word < 2 ^ n) }
    {
        if !self.has(n) {
            return None;
        }
        let word = four_at(self.octets, self.index);
        Some(bits_inside(word, self.bit, n))
    }

    /// Passes the zeros up to the next 1, or to the end where no 1 is left, and answers how many they
    /// were.
    pub fn skip_zeros(&mut self) -> u128
        ensures passes { Passes self.old self.new (replicate result false) }
        ensures stops { (rest : List Bool) → self.new.left ≡ false ∷ rest → ⊥ }
    {
        let start = self.place();
        loop {
            let zeros = self.zeros_ahead();
            self.skip(zeros);
            if zeros < 56 {
                return self.place() - start;
            }
        }
    }

    /// How many zeros stand before the next 1 or the end; 56 where there are more.
    fn zeros_ahead(&self) -> u32
        ensures zeros { take result self.now.left ≡ replicate result false }
        ensures within { result ≤ length self.now.left }
        ensures stops { result < 56
            → (rest : List Bool) → drop result self.now.left ≡ false ∷ rest → ⊥ }
    {
        let zeros = self.window().leading_zeros() - 8;
        zeros.min(self.known())
    }

    /// An equal reader.
    #[inline]
    pub fn copy(&self) -> BitReader<'a>
        ensures { result ≡ self.now }
    {
        BitReader {
            octets: self.octets,
            index: self.index,
            bit: self.bit,
        }
    }
}

/// The four octets from one on as a number, with zeros past the end.
#[inline]
fn four_at(octets: &[u8], index: usize) -> u32
    requires { index ≤ length octets.now }
    ensures word { let rest = drop index octets.now in result ≡ 16777216 * slice_index rest 0
        + 65536 * slice_index rest 1 + 256 * slice_index rest 2 + slice_index rest 3 }
    ensures octets { (i : ℕ) → slice_index (drop index octets.now) i < 256 }
{
    match &octets[index..] {
        [a, b, c, d, ..] => u32::from_be_bytes([*a, *b, *c, *d]),
        [a, b, c] => u32::from_be_bytes([*a, *b, *c, 0]),
        [a, b] => u32::from_be_bytes([*a, *b, 0, 0]),
        [a] => u32::from_be_bytes([*a, 0, 0, 0]),
        [] => 0,
    }
}

/// n bits of a word of 32, after the first few.
#[inline]
fn bits_inside(word: u32, before: u32, n: u32) -> u32
    requires within { before + n ≤ 32 }
    requires some { 1 ≤ n }
    ensures bits { word_bits n result ≡ take n (drop before (word_bits 32 word)) }
    ensures word { result < 2 ^ n }
{
    (word << before) >> (32 - n)
}

/// The eight octets from one on as a number, with zeros past the end.
#[inline]
fn eight_at(octets: &[u8], index: usize) -> u64
    requires { index ≤ length octets.now }
    ensures word { let rest = drop index octets.now
        in result ≡ 72057594037927936 * slice_index rest 0
        + 281474976710656 * slice_index rest 1 + 1099511627776 * slice_index rest 2
        + 4294967296 * slice_index rest 3 + 16777216 * slice_index rest 4
        + 65536 * slice_index rest 5 + 256 * slice_index rest 6 + slice_index rest 7 }
    ensures octets { (i : ℕ) → slice_index (drop index octets.now) i < 256 }
{
    match &octets[index..] {
        [a, b, c, d, e, f, g, h, ..] => u64::from_be_bytes([*a, *b, *c, *d, *e, *f, *g, *h]),
        rest => last_octets(rest),
    }
}

/// Fewer than eight octets as the front of eight, with zeros after them.
#[cold]
#[inline(never)]
fn last_octets(rest: &[u8]) -> u64
    requires { length rest.now < 8 }
    ensures word { result ≡ 72057594037927936 * slice_index rest.now 0
        + 281474976710656 * slice_index rest.now 1 + 1099511627776 * slice_index rest.now 2
        + 4294967296 * slice_index rest.now 3 + 16777216 * slice_index rest.now 4
        + 65536 * slice_index rest.now 5 + 256 * slice_index rest.now 6 + slice_index rest.now 7 }
{
    match rest {
        [a, b, c, d, e, f, g, ..] => u64::from_be_bytes([*a, *b, *c, *d, *e, *f, *g, 0]),
        [a, b, c, d, e, f] => u64::from_be_bytes([*a, *b, *c, *d, *e, *f, 0, 0]),
        [a, b, c, d, e] => u64::from_be_bytes([*a, *b, *c, *d, *e, 0, 0, 0]),
        [a, b, c, d] => u64::from_be_bytes([*a, *b, *c, *d, 0, 0, 0, 0]),
        [a, b, c] => u64::from_be_bytes([*a, *b, *c, 0, 0, 0, 0, 0]),
        [a, b] => u64::from_be_bytes([*a, *b, 0, 0, 0, 0, 0, 0]),
        [a] => u64::from_be_bytes([*a, 0, 0, 0, 0, 0, 0, 0]),
        [] => 0,
    }
}
