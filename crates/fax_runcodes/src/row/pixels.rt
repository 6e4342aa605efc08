//! Rows as packed picture elements.
ghost use Rattle.std.specs.Prelude.{◌≡◌, ◌≤◌, ◌<◌, ◌*◌, ◌-◌, ◌%◌, ◌+◌, ◌++◌, length, take, drop, replicate, map, true};
ghost use Rattle.std.specs.Int.{to_le_bytes, w32};
ghost use Rattle.fax_bits.specs.Bits.{bits_of};
ghost use Rattle.fax_runcodes.specs.Pixels.{pixel};
ghost use Rattle.fax_runcodes.specs.Masks.{with_bits};

use crate::RowRef;

impl<'a> RowRef<'a> {
    /// Puts its picture elements into octets that just hold them: eight in an octet, the leftmost in the
    /// most significant bit, 1 for black. It takes no memory.
    pub fn put_pixels(&self, octets: &mut [u8])
        requires { length self.now ≡ 8 * length octets.old }
        ensures bits { bits_of octets.new ≡ map pixel self.now }
        ensures same_room { length octets.new ≡ length octets.old }
    {
        octets.fill(0);
        let places = self.places;
        let pairs = places.len() / 2;
        for i in 0..pairs {
            set_bits(octets, places[2 * i], places[2 * i + 1]);
        }
        if places.len() % 2 == 1 {
            set_bits(octets, places[places.len() - 1], self.elements);
        }
    }
}

/// The bits of four octets from a place on, the most significant of an octet first. The first octet is the
/// lowest of the number.
const BITS_FROM: [u32; 32] = [
    0xffff_ffff,
    0xffff_ff7f,
    0xffff_ff3f,
    0xffff_ff1f,
    0xffff_ff0f,
    0xffff_ff07,
    0xffff_ff03,
    0xffff_ff01,
    0xffff_ff00,
    0xffff_7f00,
    0xffff_3f00,
    0xffff_1f00,
    0xffff_0f00,
    0xffff_0700,
    0xffff_0300,
    0xffff_0100,
    0xffff_0000,
    0xff7f_0000,
    0xff3f_0000,
    0xff1f_0000,
    0xff0f_0000,
    0xff07_0000,
    0xff03_0000,
    0xff01_0000,
    0xff00_0000,
    0x7f00_0000,
    0x3f00_0000,
    0x1f00_0000,
    0x0f00_0000,
    0x0700_0000,
    0x0300_0000,
    0x0100_0000,
];

/// The bits of four octets up to a place and with it, told likewise.
const BITS_UP_TO: [u32; 32] = [
    0x0000_0080,
    0x0000_00c0,
    0x0000_00e0,
    0x0000_00f0,
    0x0000_00f8,
    0x0000_00fc,
    0x0000_00fe,
    0x0000_00ff,
    0x0000_80ff,
    0x0000_c0ff,
    0x0000_e0ff,
    0x0000_f0ff,
    0x0000_f8ff,
    0x0000_fcff,
    0x0000_feff,
    0x0000_ffff,
    0x0080_ffff,
    0x00c0_ffff,
    0x00e0_ffff,
    0x00f0_ffff,
    0x00f8_ffff,
    0x00fc_ffff,
    0x00fe_ffff,
    0x00ff_ffff,
    0x80ff_ffff,
    0xc0ff_ffff,
    0xe0ff_ffff,
    0xf0ff_ffff,
    0xf8ff_ffff,
    0xfcff_ffff,
    0xfeff_ffff,
    0xffff_ffff,
];

/// Sets the bits of octets from one place to another, the most significant bit of an octet first. It takes
/// four octets at once: whether the bits end in those in which they begin is easier to foresee than for one.
#[inline]
fn set_bits(octets: &mut [u8], from: u16, to: u16)
    requires some { from < to }
    requires within { to ≤ 8 * length octets.old }
    requires fours { length octets.old % 4 ≡ 0 }
    ensures bits { bits_of octets.new ≡ take from (bits_of octets.old)
        ++ (replicate (to - from) true ++ drop to (bits_of octets.old)) }
    ensures same_room { length octets.new ≡ length octets.old }
{
    let first = usize::from(from / 32);
    let last = usize::from((to - 1) / 32);
    let head = BITS_FROM[usize::from(from % 32)];
    let tail = BITS_UP_TO[usize::from((to - 1) % 32)];
    if first == last {
        set_masked(octets, first, head & tail);
    } else {
        set_masked(octets, first, head);
        set_masked(octets, last, tail);
        if last > first + 1 {
            octets[4 * (first + 1)..4 * last].fill(0xff);
        }
    }
}

/// Sets the bits of a mask in the four octets of a place.
#[inline]
fn set_masked(octets: &mut [u8], place: usize, mask: u32)
    requires { 4 * place + 4 ≤ length octets.old }
    ensures { octets.new ≡ with_bits octets.old (4 * place) (to_le_bytes w32 mask) }
{
    let [a, b, c, d] = u32::to_le_bytes(mask);
    let i = 4 * place;
    octets[i] |= a;
    octets[i + 1] |= b;
    octets[i + 2] |= c;
    octets[i + 3] |= d;
}
