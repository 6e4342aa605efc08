//! Rows, painted from octets.
ghost use Rattle.std.specs.Prelude.{◌≡◌, ◌≤◌, ◌+◌, ◌-◌, ◌*◌, ◌++◌, ◌<◌, map, length};
ghost use Rattle.fax_bits.specs.Bits.{bit, bits_of, word_bits};
ghost use Rattle.fax_pbm.specs.Pictures.{element};

use fax_runcodes::{Colour, RowBuilder};

/// Paints the elements of octets.
pub(crate) fn paint_octets(row: &mut RowBuilder, octets: &[u8])
    requires { length row.old + 8 * length octets.now ≤ 2432 }
    ensures { row.new ≡ row.old ++ map element (bits_of octets.now) }
{
    for octet in octets {
        paint_octet(row, *octet);
    }
}

/// Paints the elements of an octet.
#[inline]
fn paint_octet(row: &mut RowBuilder, octet: u8)
    requires { length row.old + 8 ≤ 2432 }
    ensures { row.new ≡ row.old ++ map element (word_bits 8 octet) }
{
    match octet {
        0x00 => row.paint(Colour::White, 8),
        0xff => row.paint(Colour::Black, 8),
        _ => paint_bits(row, octet),
    }
}

/// Paints the elements of an octet one by one.
fn paint_bits(row: &mut RowBuilder, octet: u8)
    requires { length row.old + 8 ≤ 2432 }
    ensures { row.new ≡ row.old ++ map element (word_bits 8 octet) }
{
    for i in 0..8u32 {
        row.paint(colour_at(octet, i), 1);
    }
}

/// The element at a place in an octet.
#[tactic(auto, unfolding(fax_bits::specs::Bits::bit))]
fn colour_at(octet: u8, place: u32) -> Colour
    requires { place < 8 }
    ensures { result ≡ element (bit octet (7 - place)) }
{
    if (octet >> (7 - place)) % 2 == 1 {
        Colour::Black
    } else {
        Colour::White
    }
}
