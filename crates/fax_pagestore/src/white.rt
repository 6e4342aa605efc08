//! Rows that are white throughout, each passed in one step with the EOL after it.
ghost use Rattle.std.specs.Prelude.{◌≡◌, ◌<◌, ◌≤◌, ◌++◌, List, Bool, true, false, IfSome, IsNone, length, replicate};
ghost use Rattle.fax_bits.specs.Bits.{word_bits};
ghost use Rattle.fax_bits.specs.Reading.{Passes, padded};
ghost use Rattle.fax_runcodes.specs.declared.Colour.TheVariants.{White};
ghost use Rattle.fax_runcodes.specs.Widths.{elements_of};
ghost use Rattle.fax_mhcode.specs.Lines as mh;
ghost use Rattle.fax_mrcode.specs.Lines as mr;
ghost use Rattle.fax_pagestore.specs.PageTexts.{end_of_line, IsSeparator, SpellsRow};
ghost use Rattle.fax_pagestore.specs.PageFaults.{row_before};

use crate::Coding;
use crate::reading::WINDOW_BITS;
use fax_bits::BitReader;
use fax_runcodes::{Colour, RowBuilder, Width};

/// The bits of a white line and of the EOL after it, with no fill between them, as a number of so many
/// bits, the first the most significant.
#[derive(Clone, Copy)]
struct LineAndEol {
    word: u64,
    bits: u32,
}

/// The make-up word of 1728, the terminating word of 0 and the EOL (ITU-T T.4, tables 3a/T.4 and 2/T.4,
/// and 4.1.2).
const WHITE_1728: LineAndEol = LineAndEol {
    word: 0b010011011_00110101_000000000001,
    bits: 29,
};

/// The make-up word of 2048, the terminating word of 0 and the EOL (ITU-T T.4, tables 3b/T.4 and 2/T.4,
/// and 4.1.2).
const WHITE_2048: LineAndEol = LineAndEol {
    word: 0b000000010011_00110101_000000000001,
    bits: 32,
};

/// The make-up word of 2432, the terminating word of 0 and the EOL (ITU-T T.4, tables 3b/T.4 and 2/T.4,
/// and 4.1.2).
const WHITE_2432: LineAndEol = LineAndEol {
    word: 0b000000011101_00110101_000000000001,
    bits: 32,
};

/// A two-dimensional line that is white like the row before, which is V0, and the EOL (ITU-T T.4, table
/// 4/T.4 and 4.1.2).
const WHITE_AGAIN: LineAndEol = LineAndEol {
    word: 0b1_000000000001,
    bits: 13,
};

/// A one-dimensional line that is white throughout, in two words, and an EOL.
#[inline(always)]
fn white_line(width: Width) -> LineAndEol
    ensures spelt { (text : List Bool)
        × mh.SpellsLine (elements_of width) text (replicate (elements_of width) White)
        × (word_bits result.bits result.word ≡ text ++ end_of_line) }
    ensures few { result.bits ≤ 32 }
{
    match width {
        Width::W1728 => WHITE_1728,
        Width::W2048 => WHITE_2048,
        Width::W2432 => WHITE_2432,
    }
}

/// The bits of a white line after n rows and this tag, and of an EOL. Where the tag is 0 the last of the
/// rows is kept, and without a row that is white too there is no such line.
#[inline(always)]
fn white_line_after(width: Width, tag: bool, kept: &RowBuilder, n: u32) -> Option<LineAndEol>
    requires { tag ≡ false → 0 < n → length kept.now ≡ elements_of width }
    ensures spelt { IfSome result (λ line. (text : List Bool) × SpellsRow (elements_of width)
        tag (row_before n kept.now) text (replicate (elements_of width) White)
        × (word_bits line.bits line.word ≡ text ++ end_of_line)) }
    ensures few { IfSome result (λ line. line.bits ≤ 32) }
{
    if tag {
        return Some(white_line(width));
    }
    if n > 0 && kept.lend().changes().is_empty() {
        return Some(WHITE_AGAIN);
    }
    None
}

/// Passes a white line after n rows and this tag, the EOL that follows it with no fill, and the tag of
/// that, and answers the tag. The row is kept in place of the one before. The window is the reader's.
/// `None` says that the bits may begin with something else, and changes nothing.
#[inline(always)]
pub(crate) fn pass_white_row(
    kept: &mut RowBuilder,
    reader: &mut BitReader,
    window: u64,
    width: Width,
    coding: Coding,
    tag: bool,
    n: u32,
) -> Option<bool>
    requires window { word_bits 56 window ≡ padded 56 reader.old.left }
    requires width { tag ≡ false → 0 < n → length kept.old ≡ elements_of width }
    ensures some { IfSome result (λ next. (text separator : List Bool)
        × SpellsRow (elements_of width) tag (row_before n kept.old) text kept.new
        × IsSeparator coding next separator × Passes reader.old reader.new (text ++ separator)) }
    ensures none { IsNone result → (reader.new ≡ reader.old) × (kept.new ≡ kept.old) }
{
    let line = white_line_after(width, tag, kept, n)?;
    if !reader.has(WINDOW_BITS) || window >> (WINDOW_BITS - line.bits) != line.word {
        return None;
    }
    kept.clear();
    kept.paint(Colour::White, width.elements());
    match coding {
        Coding::Mh => {
            reader.skip(line.bits);
            Some(true)
        }
        Coding::Mr => {
            reader.skip(line.bits + 1);
            Some((window >> (WINDOW_BITS - line.bits - 1)) % 2 == 1)
        }
    }
}
