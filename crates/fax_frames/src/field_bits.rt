//! Bits 1 to 24 of an information field, as one number whose highest bit is bit 1.
ghost use Rattle.std.specs.Prelude.{◌≡◌, ◌+◌, ◌<◌, ◌≤◌};
ghost use Rattle.fax_frames.specs.FieldBits.{bits_of_octets, code_at, has_bit};

// The bits of three octets.
pub(crate) fn bits_of_octets(first: u8, second: u8, third: u8) -> u32
    ensures { result ≡ bits_of_octets first second third }
{
    (u32::from(first) << 16) + (u32::from(second) << 8) + u32::from(third)
}

// The bits from first to last, as a number whose highest bit is the first.
pub(crate) fn code_at(bits: u32, first: u32, last: u32) -> u32
    requires low { 0 < first }
    requires ordered { first ≤ last }
    requires high { last ≤ 24 }
    ensures { result ≡ code_at first last bits }
{
    (bits >> (24 - last)) % (1 << (last + 1 - first))
}

// Bit n.
pub(crate) fn has_bit(bits: u32, n: u32) -> bool
    requires low { 0 < n }
    requires high { n ≤ 24 }
    ensures { result ≡ has_bit n bits }
{
    code_at(bits, n, n) == 1
}
