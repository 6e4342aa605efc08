//! Runs, written where there is room.
ghost use Rattle.std.specs.Prelude.{◌≡◌, ◌+◌, ◌^◌, ◌<◌, ◌≤◌, ◌++◌};
ghost use Rattle.fax_bits.specs.Bits.{word_bits};
ghost use Rattle.fax_runcodes.specs.Rows.{other};
ghost use Rattle.fax_runcodes.specs.Spelling.{written_run};

use crate::Colour;
use crate::run::LONGEST_WRITTEN_RUN;
use crate::tables::written::{WrittenWord, make_up_word, terminating_word};
use fax_bits::RoomyWriter;

/// Writes a word of n bits, at most 5, and after it a run of a colour and a run of the other colour,
/// each as [`crate::write_run`] does. Together they are of at most 57 bits. It takes no memory.
#[inline(always)]
pub fn put_two_runs(
    writer: &mut RoomyWriter,
    word: u32,
    n: u32,
    colour: Colour,
    first: u32,
    second: u32,
)
    requires few { n ≤ 5 }
    requires word { word < 2 ^ n }
    requires first { first ≤ LONGEST_WRITTEN_RUN }
    requires second { second ≤ LONGEST_WRITTEN_RUN }
    requires room { 57 ≤ writer.old.room }
    ensures bits { writer.new.bits ≡ writer.old.bits
        ++ (word_bits n word ++ (written_run colour first ++ written_run (other colour) second)) }
    ensures room { writer.old.room ≤ writer.new.room + 57 }
{
    let before = WrittenWord { word, bits: n };
    if first < 64 && second < 64 {
        let both = short_run_word(colour, first).then(short_run_word(colour.other(), second));
        put_word(writer, before.then(both));
    } else {
        put_word(writer, before.then(run_word(colour, first)));
        put_word(writer, run_word(colour.other(), second));
    }
}

/// Writes a run of n elements of a colour, as [`crate::write_run`] does. It is of at most 26 bits. It
/// takes no memory.
#[inline]
pub fn put_run(writer: &mut RoomyWriter, colour: Colour, n: u32)
    requires run { n ≤ LONGEST_WRITTEN_RUN }
    requires room { 26 ≤ writer.old.room }
    ensures bits { writer.new.bits ≡ writer.old.bits ++ written_run colour n }
    ensures room { writer.old.room ≤ writer.new.room + 26 }
{
    put_word(writer, run_word(colour, n));
}

/// The bits in which a run of n elements of a colour is written: from 64 on the make-up word of the
/// largest multiple of 64, and then the terminating word of the rest (ITU-T T.4, 4.1.1).
#[inline]
pub(crate) fn run_word(colour: Colour, n: u32) -> WrittenWord
    requires { n ≤ LONGEST_WRITTEN_RUN }
    ensures text { word_bits result.bits result.word ≡ written_run colour n }
    ensures below { result.word < 2 ^ result.bits }
    ensures few { result.bits ≤ 26 }
{
    make_up_word(colour, n / 64).then(terminating_word(colour, n % 64))
}

/// The bits in which a run of fewer than 64 elements is written.
#[inline]
fn short_run_word(colour: Colour, n: u32) -> WrittenWord
    requires { n < 64 }
    ensures text { word_bits result.bits result.word ≡ written_run colour n }
    ensures below { result.word < 2 ^ result.bits }
    ensures few { result.bits ≤ 13 }
{
    terminating_word(colour, n)
}

/// Writes the bits of a word.
#[inline(always)]
fn put_word(writer: &mut RoomyWriter, word: WrittenWord)
    requires few { word.bits ≤ 32 }
    requires below { word.word < 2 ^ word.bits }
    requires room { word.bits ≤ writer.old.room }
    ensures bits { writer.new.bits ≡ writer.old.bits ++ word_bits word.bits word.word }
    ensures room { writer.old.room ≡ writer.new.room + word.bits }
{
    writer.put(word.word, word.bits);
}
