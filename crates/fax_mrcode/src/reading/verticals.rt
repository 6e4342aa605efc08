//! The word of vertical mode that begins bits, by a table (ITU-T T.4, table 4/T.4).
//! The table and the constants at the end are made by `tools/code-tables`.
ghost use Rattle.std.specs.Prelude.{List, Bool, slice_index_or, length, ◌<◌, ◌≤◌, ◌≡◌, ◌++◌, ◌^◌};
ghost use Rattle.fax_bits.specs.Bits.{word_bits};
ghost use Rattle.fax_mrcode.specs.declared.mode.Mode.{Mode};
ghost use Rattle.fax_mrcode.specs.declared.mode.Offset.{Offset};
ghost use Rattle.fax_mrcode.specs.Modes.{mode_word};
ghost use Rattle.fax_mrcode.specs.Starts.{IsBack};

use crate::Offset;

/// How far a1 lies from b1, and how many bits say so: none where no word of vertical mode does. Where a1
/// lies two or three elements left of b1, the next b1 is looked for 2 changing places further back than
/// else: the changing place before b1 may be right of a1.
#[derive(Clone, Copy)]
pub(super) struct VerticalWord {
    pub(super) offset: Offset,
    pub(super) bits: u8,
    pub(super) back: u16,
}

/// The word of vertical mode that begins 64 bits, which are those of a number, the most significant
/// first.
#[inline]
pub(super) fn vertical_word(window: u64) -> VerticalWord
    ensures few { result.bits ≤ 7 }
    ensures size { 0 < result.bits
        → length (mode_word (Mode.Vertical result.offset)) ≡ result.bits }
    ensures back { IsBack result.offset result.back }
    ensures begins { 0 < result.bits → (rest : List Bool)
        × (word_bits 64 window ≡ mode_word (Mode.Vertical result.offset) ++ rest) }
    ensures none { result.bits ≡ 0 → (offset : Offset) (rest : List Bool)
        → word_bits 64 window ≡ mode_word (Mode.Vertical offset) ++ rest → ⊥ }
{
    word_at((window >> 57) as usize)
}

/// The entry of these 7 bits.
#[inline]
fn word_at(index: usize) -> VerticalWord
    requires { index < 128 }
    ensures { result ≡ slice_index_or VERTICAL_WORDS index NOT_VERTICAL }
{
    VERTICAL_WORDS[index]
}

/// By the first 7 bits.
static VERTICAL_WORDS: [VerticalWord; 128] = [
    NOT_VERTICAL,
    NOT_VERTICAL,
    LEFT3,
    RIGHT3,
    LEFT2,
    LEFT2,
    RIGHT2,
    RIGHT2,
    NOT_VERTICAL,
    NOT_VERTICAL,
    NOT_VERTICAL,
    NOT_VERTICAL,
    NOT_VERTICAL,
    NOT_VERTICAL,
    NOT_VERTICAL,
    NOT_VERTICAL,
    NOT_VERTICAL,
    NOT_VERTICAL,
    NOT_VERTICAL,
    NOT_VERTICAL,
    NOT_VERTICAL,
    NOT_VERTICAL,
    NOT_VERTICAL,
    NOT_VERTICAL,
    NOT_VERTICAL,
    NOT_VERTICAL,
    NOT_VERTICAL,
    NOT_VERTICAL,
    NOT_VERTICAL,
    NOT_VERTICAL,
    NOT_VERTICAL,
    NOT_VERTICAL,
    LEFT1,
    LEFT1,
    LEFT1,
    LEFT1,
    LEFT1,
    LEFT1,
    LEFT1,
    LEFT1,
    LEFT1,
    LEFT1,
    LEFT1,
    LEFT1,
    LEFT1,
    LEFT1,
    LEFT1,
    LEFT1,
    RIGHT1,
    RIGHT1,
    RIGHT1,
    RIGHT1,
    RIGHT1,
    RIGHT1,
    RIGHT1,
    RIGHT1,
    RIGHT1,
    RIGHT1,
    RIGHT1,
    RIGHT1,
    RIGHT1,
    RIGHT1,
    RIGHT1,
    RIGHT1,
    ZERO,
    ZERO,
    ZERO,
    ZERO,
    ZERO,
    ZERO,
    ZERO,
    ZERO,
    ZERO,
    ZERO,
    ZERO,
    ZERO,
    ZERO,
    ZERO,
    ZERO,
    ZERO,
    ZERO,
    ZERO,
    ZERO,
    ZERO,
    ZERO,
    ZERO,
    ZERO,
    ZERO,
    ZERO,
    ZERO,
    ZERO,
    ZERO,
    ZERO,
    ZERO,
    ZERO,
    ZERO,
    ZERO,
    ZERO,
    ZERO,
    ZERO,
    ZERO,
    ZERO,
    ZERO,
    ZERO,
    ZERO,
    ZERO,
    ZERO,
    ZERO,
    ZERO,
    ZERO,
    ZERO,
    ZERO,
    ZERO,
    ZERO,
    ZERO,
    ZERO,
    ZERO,
    ZERO,
    ZERO,
    ZERO,
    ZERO,
    ZERO,
    ZERO,
    ZERO,
    ZERO,
    ZERO,
    ZERO,
    ZERO,
];

const NOT_VERTICAL: VerticalWord = VerticalWord {
    offset: Offset::Zero,
    bits: 0,
    back: 0,
};

const ZERO: VerticalWord = VerticalWord {
    offset: Offset::Zero,
    bits: 1,
    back: 0,
};

const RIGHT1: VerticalWord = VerticalWord {
    offset: Offset::Right1,
    bits: 3,
    back: 0,
};

const RIGHT2: VerticalWord = VerticalWord {
    offset: Offset::Right2,
    bits: 6,
    back: 0,
};

const RIGHT3: VerticalWord = VerticalWord {
    offset: Offset::Right3,
    bits: 7,
    back: 0,
};

const LEFT1: VerticalWord = VerticalWord {
    offset: Offset::Left1,
    bits: 3,
    back: 0,
};

const LEFT2: VerticalWord = VerticalWord {
    offset: Offset::Left2,
    bits: 6,
    back: 2,
};

const LEFT3: VerticalWord = VerticalWord {
    offset: Offset::Left3,
    bits: 7,
    back: 2,
};
