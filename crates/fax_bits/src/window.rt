//! A window of 56 bits, as a number, the most significant first.
ghost use Rattle.std.specs.Prelude.{◌≡◌, ◌++◌, ◌<◌, ◌≤◌, ◌^◌, drop, false, replicate};
ghost use Rattle.fax_bits.specs.Bits.{word_bits};

/// The bits of a window after the first n, with n zeros after them.
#[inline]
pub fn after(window: u64, n: u32) -> u64
    requires window { window < 2 ^ 56 }
    requires few { n ≤ 56 }
    ensures bits { word_bits 56 result ≡ drop n (word_bits 56 window) ++ replicate n false }
    ensures window { result < 2 ^ 56 }
{
    (window << n) % (1 << 56)
}
