//! Short runs, read in pairs: a white one and the black one after it.
ghost use Rattle.std.specs.Prelude.{◌≡◌, ◌++◌, ◌+◌, ◌≤◌, ◌<◌, ◌^◌, IsTrue, drop, false, length, replicate, take};
ghost use Rattle.fax_bits.specs.Bits.{word_bits};
ghost use Rattle.fax_bits.specs.Reading.{Place, Passes};
ghost use Rattle.fax_mhcode.specs.Pairs.{GoesOn};

use fax_bits::BitReader;
use fax_runcodes::{RowBuilder, pair_at};

/// How many pairs are looked for in one window of 56 bits. The words of each have 11 bits at most.
const PAIRS: u32 = 5;

/// Reads pairs of short runs into a builder, as long as look-ups find them and so many elements are left
/// for them, and answers how many elements are left then. Where it ends, the runs are read one by one.
#[inline]
pub(crate) fn read_pairs(line: &mut RowBuilder, reader: &mut BitReader, left: u16) -> u16
    requires room { length line.old + left ≤ 2432 }
    ensures goes_on { GoesOn reader.old line.old left reader.new line.new result }
    ensures left { length line.new + result ≡ length line.old + left }
    ensures ahead { length reader.new.left ≤ length reader.old.left }
{
    let mut left = left;
    while reader.has(56) {
        let painted = paint_pairs(line, reader.window(), left);
        reader.skip(painted.bits);
        left = painted.left;
        if !painted.goes_on {
            break;
        }
    }
    left
}

/// What was painted of a window.
#[derive(Clone, Copy)]
struct Painted {
    /// How many of its bits were used.
    bits: u32,
    /// How many elements are left.
    left: u16,
    /// Whether more pairs may follow.
    goes_on: bool,
}

/// Paints the pairs of short runs that begin 56 bits, five of them at most, as long as so many elements are
/// left for them.
#[inline]
fn paint_pairs(line: &mut RowBuilder, window: u64, left: u16) -> Painted
    requires window { window < 2 ^ 56 }
    requires room { length line.old + left ≤ 2432 }
    ensures goes_on { (here there : Place)
        → take 56 here.left ≡ word_bits 56 window → Passes here there (take result.bits here.left)
        → GoesOn here line.old left there line.new result.left }
    ensures left { length line.new + result.left ≡ length line.old + left }
    ensures bits { result.bits ≤ 55 }
    ensures fewer { IsTrue result.goes_on → result.left < left }
{
    // What is left of the window, at the top of 64 bits.
    let mut rest = window << 8;
    let (mut bits, mut left) = (0, left);
    for _ in 0..PAIRS {
        let Some(pair) = pair_at(rest >> 8) else {
            return Painted {
                bits,
                left,
                goes_on: false,
            };
        };
        let (white, black) = (u16::from(pair.white), pair.black);
        if white + black > left {
            return Painted {
                bits,
                left,
                goes_on: false,
            };
        }
        line.paint_pair(white, black);
        left -= white + black;
        let used = u32::from(pair.bits);
        bits += used;
        rest <<= used;
    }
    Painted {
        bits,
        left,
        goes_on: true,
    }
}
