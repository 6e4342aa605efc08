//! The words in which runs are written.
//! The tables at the end are made by `tools/code-tables`.
ghost use Rattle.std.specs.Prelude.{slice_index_or, ◌≡◌, ◌*◌, ◌<◌, ◌≤◌};
ghost use Rattle.fax_runcodes.specs.CodeTables.{make_up_words, terminating_words};
ghost use Rattle.fax_runcodes.specs.Spelling.{word_for};
ghost use Rattle.fax_runcodes.specs.Entries.{IsWrittenAs};

use crate::Colour;

/// A code word as it is written: its bits are the low ones of a number, the first of them the most
/// significant.
#[derive(Clone, Copy, PartialEq, Eq)]
pub(crate) struct WrittenWord {
    pub word: u32,
    pub bits: u32,
}

impl WrittenWord {
    ghost use Rattle.std.specs.Prelude.{◌≡◌, ◌+◌, ◌<◌, ◌≤◌, ◌^◌, ◌++◌};
    ghost use Rattle.fax_bits.specs.Bits.{word_bits};

    /// The word where it stands in a table. (Read part by part, it is not taken apart again.)
    #[inline]
    fn read(&self) -> WrittenWord
        ensures { result ≡ self.now }
    {
        WrittenWord {
            word: self.word,
            bits: self.bits,
        }
    }

    /// The bits of this word and then those of another.
    #[inline]
    pub(crate) fn then(self, next: WrittenWord) -> WrittenWord
        requires below { self.word < 2 ^ self.bits }
        requires next_below { next.word < 2 ^ next.bits }
        requires few { self.bits + next.bits < 32 }
        ensures text { word_bits result.bits result.word
            ≡ word_bits self.bits self.word ++ word_bits next.bits next.word }
        ensures bits { result.bits ≡ self.bits + next.bits }
        ensures below { result.word < 2 ^ result.bits }
    {
        WrittenWord {
            word: (self.word << next.bits) | next.word,
            bits: self.bits + next.bits,
        }
    }
}

/// A word and how many bits it has.
macro_rules! written {
    ($word:literal, $bits:literal) => {
        WrittenWord {
            word: $word,
            bits: $bits,
        }
    };
}

/// What stands in the place of a make-up word where a run has none.
const NO_BITS: WrittenWord = written!(0, 0);

/// The make-up word of so many times 64 elements of a colour; no bits for none.
#[inline]
pub(crate) fn make_up_word(colour: Colour, times: u32) -> WrittenWord
    requires { times ≤ 40 }
    ensures { IsWrittenAs (word_for (make_up_words colour) (64 * times)) result }
{
    match colour {
        Colour::White => white_make_up(times),
        Colour::Black => black_make_up(times),
    }
}

/// The terminating word of a run of a colour.
#[inline]
pub(crate) fn terminating_word(colour: Colour, run: u32) -> WrittenWord
    requires { run < 64 }
    ensures { IsWrittenAs (word_for (terminating_words colour) run) result }
{
    match colour {
        Colour::White => white_terminating(run),
        Colour::Black => black_terminating(run),
    }
}

#[inline]
fn white_terminating(run: u32) -> WrittenWord
    requires { run < 64 }
    ensures { result ≡ slice_index_or WHITE_TERMINATING run (record { word = 0; bits = 0 }) }
{
    WHITE_TERMINATING[run as usize].read()
}

#[inline]
fn black_terminating(run: u32) -> WrittenWord
    requires { run < 64 }
    ensures { result ≡ slice_index_or BLACK_TERMINATING run (record { word = 0; bits = 0 }) }
{
    BLACK_TERMINATING[run as usize].read()
}

#[inline]
fn white_make_up(times: u32) -> WrittenWord
    requires { times < 41 }
    ensures { result ≡ slice_index_or WHITE_MAKE_UP times (record { word = 0; bits = 0 }) }
{
    WHITE_MAKE_UP[times as usize].read()
}

#[inline]
fn black_make_up(times: u32) -> WrittenWord
    requires { times < 41 }
    ensures { result ≡ slice_index_or BLACK_MAKE_UP times (record { word = 0; bits = 0 }) }
{
    BLACK_MAKE_UP[times as usize].read()
}

/// The terminating words of white runs (ITU-T T.4, table 2), by the run.
static WHITE_TERMINATING: [WrittenWord; 64] = [
    written!(0b00110101, 8),
    written!(0b000111, 6),
    written!(0b0111, 4),
    written!(0b1000, 4),
    written!(0b1011, 4),
    written!(0b1100, 4),
    written!(0b1110, 4),
    written!(0b1111, 4),
    written!(0b10011, 5),
    written!(0b10100, 5),
    written!(0b00111, 5),
    written!(0b01000, 5),
    written!(0b001000, 6),
    written!(0b000011, 6),
    written!(0b110100, 6),
    written!(0b110101, 6),
    written!(0b101010, 6),
    written!(0b101011, 6),
    written!(0b0100111, 7),
    written!(0b0001100, 7),
    written!(0b0001000, 7),
    written!(0b0010111, 7),
    written!(0b0000011, 7),
    written!(0b0000100, 7),
    written!(0b0101000, 7),
    written!(0b0101011, 7),
    written!(0b0010011, 7),
    written!(0b0100100, 7),
    written!(0b0011000, 7),
    written!(0b00000010, 8),
    written!(0b00000011, 8),
    written!(0b00011010, 8),
    written!(0b00011011, 8),
    written!(0b00010010, 8),
    written!(0b00010011, 8),
    written!(0b00010100, 8),
    written!(0b00010101, 8),
    written!(0b00010110, 8),
    written!(0b00010111, 8),
    written!(0b00101000, 8),
    written!(0b00101001, 8),
    written!(0b00101010, 8),
    written!(0b00101011, 8),
    written!(0b00101100, 8),
    written!(0b00101101, 8),
    written!(0b00000100, 8),
    written!(0b00000101, 8),
    written!(0b00001010, 8),
    written!(0b00001011, 8),
    written!(0b01010010, 8),
    written!(0b01010011, 8),
    written!(0b01010100, 8),
    written!(0b01010101, 8),
    written!(0b00100100, 8),
    written!(0b00100101, 8),
    written!(0b01011000, 8),
    written!(0b01011001, 8),
    written!(0b01011010, 8),
    written!(0b01011011, 8),
    written!(0b01001010, 8),
    written!(0b01001011, 8),
    written!(0b00110010, 8),
    written!(0b00110011, 8),
    written!(0b00110100, 8),
];

/// The terminating words of black runs (ITU-T T.4, table 2), by the run.
static BLACK_TERMINATING: [WrittenWord; 64] = [
    written!(0b0000110111, 10),
    written!(0b010, 3),
    written!(0b11, 2),
    written!(0b10, 2),
    written!(0b011, 3),
    written!(0b0011, 4),
    written!(0b0010, 4),
    written!(0b00011, 5),
    written!(0b000101, 6),
    written!(0b000100, 6),
    written!(0b0000100, 7),
    written!(0b0000101, 7),
    written!(0b0000111, 7),
    written!(0b00000100, 8),
    written!(0b00000111, 8),
    written!(0b000011000, 9),
    written!(0b0000010111, 10),
    written!(0b0000011000, 10),
    written!(0b0000001000, 10),
    written!(0b00001100111, 11),
    written!(0b00001101000, 11),
    written!(0b00001101100, 11),
    written!(0b00000110111, 11),
    written!(0b00000101000, 11),
    written!(0b00000010111, 11),
    written!(0b00000011000, 11),
    written!(0b000011001010, 12),
    written!(0b000011001011, 12),
    written!(0b000011001100, 12),
    written!(0b000011001101, 12),
    written!(0b000001101000, 12),
    written!(0b000001101001, 12),
    written!(0b000001101010, 12),
    written!(0b000001101011, 12),
    written!(0b000011010010, 12),
    written!(0b000011010011, 12),
    written!(0b000011010100, 12),
    written!(0b000011010101, 12),
    written!(0b000011010110, 12),
    written!(0b000011010111, 12),
    written!(0b000001101100, 12),
    written!(0b000001101101, 12),
    written!(0b000011011010, 12),
    written!(0b000011011011, 12),
    written!(0b000001010100, 12),
    written!(0b000001010101, 12),
    written!(0b000001010110, 12),
    written!(0b000001010111, 12),
    written!(0b000001100100, 12),
    written!(0b000001100101, 12),
    written!(0b000001010010, 12),
    written!(0b000001010011, 12),
    written!(0b000000100100, 12),
    written!(0b000000110111, 12),
    written!(0b000000111000, 12),
    written!(0b000000100111, 12),
    written!(0b000000101000, 12),
    written!(0b000001011000, 12),
    written!(0b000001011001, 12),
    written!(0b000000101011, 12),
    written!(0b000000101100, 12),
    written!(0b000001011010, 12),
    written!(0b000001100110, 12),
    written!(0b000001100111, 12),
];

/// The make-up words of white runs (ITU-T T.4, tables 3a and 3b), by the run in units of 64 elements.
static WHITE_MAKE_UP: [WrittenWord; 41] = [
    NO_BITS,
    written!(0b11011, 5),
    written!(0b10010, 5),
    written!(0b010111, 6),
    written!(0b0110111, 7),
    written!(0b00110110, 8),
    written!(0b00110111, 8),
    written!(0b01100100, 8),
    written!(0b01100101, 8),
    written!(0b01101000, 8),
    written!(0b01100111, 8),
    written!(0b011001100, 9),
    written!(0b011001101, 9),
    written!(0b011010010, 9),
    written!(0b011010011, 9),
    written!(0b011010100, 9),
    written!(0b011010101, 9),
    written!(0b011010110, 9),
    written!(0b011010111, 9),
    written!(0b011011000, 9),
    written!(0b011011001, 9),
    written!(0b011011010, 9),
    written!(0b011011011, 9),
    written!(0b010011000, 9),
    written!(0b010011001, 9),
    written!(0b010011010, 9),
    written!(0b011000, 6),
    written!(0b010011011, 9),
    written!(0b00000001000, 11),
    written!(0b00000001100, 11),
    written!(0b00000001101, 11),
    written!(0b000000010010, 12),
    written!(0b000000010011, 12),
    written!(0b000000010100, 12),
    written!(0b000000010101, 12),
    written!(0b000000010110, 12),
    written!(0b000000010111, 12),
    written!(0b000000011100, 12),
    written!(0b000000011101, 12),
    written!(0b000000011110, 12),
    written!(0b000000011111, 12),
];

/// The make-up words of black runs (ITU-T T.4, tables 3a and 3b), by the run in units of 64 elements.
static BLACK_MAKE_UP: [WrittenWord; 41] = [
    NO_BITS,
    written!(0b0000001111, 10),
    written!(0b000011001000, 12),
    written!(0b000011001001, 12),
    written!(0b000001011011, 12),
    written!(0b000000110011, 12),
    written!(0b000000110100, 12),
    written!(0b000000110101, 12),
    written!(0b0000001101100, 13),
    written!(0b0000001101101, 13),
    written!(0b0000001001010, 13),
    written!(0b0000001001011, 13),
    written!(0b0000001001100, 13),
    written!(0b0000001001101, 13),
    written!(0b0000001110010, 13),
    written!(0b0000001110011, 13),
    written!(0b0000001110100, 13),
    written!(0b0000001110101, 13),
    written!(0b0000001110110, 13),
    written!(0b0000001110111, 13),
    written!(0b0000001010010, 13),
    written!(0b0000001010011, 13),
    written!(0b0000001010100, 13),
    written!(0b0000001010101, 13),
    written!(0b0000001011010, 13),
    written!(0b0000001011011, 13),
    written!(0b0000001100100, 13),
    written!(0b0000001100101, 13),
    written!(0b00000001000, 11),
    written!(0b00000001100, 11),
    written!(0b00000001101, 11),
    written!(0b000000010010, 12),
    written!(0b000000010011, 12),
    written!(0b000000010100, 12),
    written!(0b000000010101, 12),
    written!(0b000000010110, 12),
    written!(0b000000010111, 12),
    written!(0b000000011100, 12),
    written!(0b000000011101, 12),
    written!(0b000000011110, 12),
    written!(0b000000011111, 12),
];
