//! The mode whose word begins bits (ITU-T T.4, table 4/T.4).
ghost use Rattle.std.specs.Prelude.{List, Bool, length, ◌≡◌, ◌++◌, IfOk, IfErr, IfSome, IsNone};
ghost use Rattle.fax_bits.specs.Reading.{Passes};
ghost use Rattle.fax_bits.specs.Bits.{word_bits};
ghost use Rattle.fax_mhcode.specs.declared.fault.LineFault.{LineFault};
ghost use Rattle.fax_mrcode.specs.declared.mode.Mode.{Mode};
ghost use Rattle.fax_mrcode.specs.Modes.{mode_word};

use super::verticals::vertical_word;
use crate::Mode;
use fax_bits::BitReader;
use fax_mhcode::LineFault;

/// How many bits the word of pass mode has.
pub(super) const PASS_BITS: u32 = 4;

/// How many bits the word of horizontal mode has.
pub(super) const HORIZONTAL_BITS: u32 = 3;

/// A mode and how many bits its word has.
#[derive(Clone, Copy)]
struct ModeWord {
    mode: Mode,
    bits: u32,
}

/// Passes the mode word that begins what is left. An `Err` leaves the reader where it stood.
#[inline]
pub(super) fn read_mode(reader: &mut BitReader) -> Result<Mode, LineFault>
    ensures ok { IfOk result (λ mode. Passes reader.old reader.new (mode_word mode)) }
    ensures fault { IfErr result (λ fault. (fault ≡ LineFault.NoMode)
        × ((mode : Mode) (rest : List Bool) → reader.old.left ≡ mode_word mode ++ rest → ⊥)) }
{
    let Some(word) = word_of(reader.window() << 8) else {
        return Err(LineFault::NoMode);
    };
    if !reader.has(word.bits) {
        return Err(LineFault::NoMode);
    }
    reader.skip(word.bits);
    Ok(word.mode)
}

/// The mode word that begins 64 bits, which are those of a number, the most significant first.
#[inline]
fn word_of(window: u64) -> Option<ModeWord>
    ensures size { IfSome result (λ word. length (mode_word word.mode) ≡ word.bits) }
    ensures begins { IfSome result
        (λ word. (rest : List Bool) × (word_bits 64 window ≡ mode_word word.mode ++ rest)) }
    ensures none { IsNone result
        → (mode : Mode) (rest : List Bool) → word_bits 64 window ≡ mode_word mode ++ rest → ⊥ }
{
    let vertical = vertical_word(window);
    if vertical.bits > 0 {
        return Some(ModeWord {
            mode: Mode::Vertical(vertical.offset),
            bits: u32::from(vertical.bits),
        });
    }
    match window >> 60 {
        0b0001 => Some(ModeWord {
            mode: Mode::Pass,
            bits: PASS_BITS,
        }),
        0b0010 | 0b0011 => Some(ModeWord {
            mode: Mode::Horizontal,
            bits: HORIZONTAL_BITS,
        }),
        _ => None,
    }
}
