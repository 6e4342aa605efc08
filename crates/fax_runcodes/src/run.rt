//! Runs, read and written.
ghost use Rattle.std.specs.Prelude.{List, Bool, ℕ, ◌≡◌, ◌≢◌, ◌↔◌, ◌+◌, ◌^◌, ◌<◌, ◌≤◌, IfOk, IfErr, IfSome, OnOk, OnErr, Ok, Err, ◌++◌};
ghost use Rattle.fax_bits.specs.Bits.{word_bits};
ghost use Rattle.fax_bits.specs.Reading.{Passes};
ghost use Rattle.fax_runcodes.specs.declared.fault.RunFault.{RunFault};
ghost use Rattle.fax_runcodes.specs.Entries.{IsEntryAt, IsRunAt, PassesWord};
ghost use Rattle.fax_runcodes.specs.Lookups.{BeginsWithNone, IsFoundAt, no_run};
ghost use Rattle.fax_runcodes.specs.RunFaults.{Stops, FailsRun, ReadsRun, longest_run};
ghost use Rattle.fax_runcodes.specs.Spelling.{SpellsRun, written_run};

use crate::Colour;
use crate::fault::RunFault;
use crate::tables::{CodeWord, black, white};
use crate::writing::run_word;
use fax_bits::{BitReader, BitWriter, NoMemory, after};

/// The longest run that is written, in elements: what one make-up word and one terminating word stand
/// for (ITU-T T.4, 4.1.1).
pub const LONGEST_WRITTEN_RUN: u16 = 2560 + 63;

/// The longest run that is read, in elements (this project's profile): the greatest width of a row.
const LONGEST_RUN: u16 = 2432;

/// Reads a run of a colour, in elements: make-up words, of which it takes any number (ITU-T T.4, 4.1.1,
/// has at most one; more are this project's profile), and then a terminating word. An `Err` leaves the
/// reader where it stood.
#[inline(always)]
pub fn read_run(reader: &mut BitReader, colour: Colour) -> Result<u16, RunFault>
    ensures ok { IfOk result (λ run. (text : List Bool)
        × SpellsRun colour text run × Passes reader.old reader.new text) }
    ensures short { IfOk result (λ run. run ≤ longest_run) }
    ensures fault { IfErr result (λ fault. FailsRun colour reader.old.left fault) }
    ensures err { OnErr result (reader.new ≡ reader.old) }

    // What can be read is read, and a fault comes only where it is met.
    ensures reads { (run : ℕ) (rest : List Bool)
        → ReadsRun colour reader.old.left run rest → result ≡ Ok run }
    ensures fails { (fault : RunFault)
        → FailsRun colour reader.old.left fault → result ≡ Err fault }
{
    match run_at(colour, reader.window()) {
        Some(run) if reader.has(run.bits) => {
            reader.skip(run.bits);
            Ok(run.elements)
        }
        _ => read_long_run(reader, colour),
    }
}

/// Writes a run of n elements of a colour: from 64 on the make-up word of the largest multiple of 64,
/// and then the terminating word of the rest (ITU-T T.4, 4.1.1). An `Err` changes nothing.
#[inline]
pub fn write_run(writer: &mut BitWriter, colour: Colour, n: u16) -> Result<(), NoMemory>
    requires { n ≤ LONGEST_WRITTEN_RUN }
    ensures ok { OnOk result (writer.new ≡ writer.old ++ written_run colour n) }
    ensures err { OnErr result (writer.new ≡ writer.old) }
{
    let word = run_word(colour, u32::from(n));
    writer.put(word.word, word.bits)
}

/// The word of a colour that begins 56 bits, which are those of a number, the most significant first.
/// Where no word begins them, [`CodeWord::is_none`] of the answer.
#[inline]
pub fn word_at(colour: Colour, window: u64) -> CodeWord
    requires { window < 2 ^ 56 }
    ensures none { (result.run ≡ no_run) ↔ BeginsWithNone colour (word_bits 56 window) }
    ensures found { result.run ≢ no_run → IsFoundAt colour (word_bits 56 window) result }
{
    look_up(colour, window)
}

/// A run whose words were found, and how many bits they have.
#[derive(Clone, Copy)]
pub(crate) struct FoundRun {
    elements: u16,
    bits: u32,
}

/// The run of a colour that begins 56 bits, where it has one make-up word at most and is not too long. It
/// is the fast way: where it answers `None`, the words are read one by one.
#[inline]
fn run_at(colour: Colour, window: u64) -> Option<FoundRun>
    requires { window < 2 ^ 56 }
    ensures { IfSome result (λ run. IsRunAt colour (word_bits 56 window) run) }
{
    let first = look_up(colour, window);
    let bits = u32::from(first.bits);
    if first.run < 64 {
        return Some(FoundRun {
            elements: first.run,
            bits,
        });
    }
    if first.run > LONGEST_RUN {
        return None;
    }
    let last = look_up(colour, after(window, bits));
    let elements = first.run + last.run;
    if last.run >= 64 || elements > LONGEST_RUN {
        return None;
    }
    Some(FoundRun {
        elements,
        bits: bits + u32::from(last.bits),
    })
}

/// Reads a run word by word. An `Err` leaves the reader where it stood.
#[inline]
fn read_long_run(reader: &mut BitReader, colour: Colour) -> Result<u16, RunFault>
    ensures ok { IfOk result (λ run. (text : List Bool)
        × SpellsRun colour text run × Passes reader.old reader.new text) }
    ensures short { IfOk result (λ run. run ≤ longest_run) }
    ensures fault { IfErr result (λ fault. FailsRun colour reader.old.left fault) }
    ensures err { OnErr result (reader.new ≡ reader.old) }

    // What can be read is read, and a fault comes only where it is met.
    ensures reads { (run : ℕ) (rest : List Bool)
        → ReadsRun colour reader.old.left run rest → result ≡ Ok run }
    ensures fails { (fault : RunFault)
        → FailsRun colour reader.old.left fault → result ≡ Err fault }
{
    let mut ahead = reader.copy();
    let run = read_words(&mut ahead, colour)?;
    *reader = ahead;
    Ok(run)
}

/// Reads the words of a run. After an `Err` the reader stands anywhere.
#[inline(never)]
fn read_words(reader: &mut BitReader, colour: Colour) -> Result<u16, RunFault>
    ensures ok { IfOk result (λ run. (text : List Bool)
        × SpellsRun colour text run × Passes reader.old reader.new text) }
    ensures short { IfOk result (λ run. run ≤ longest_run) }
    ensures fault { IfErr result (λ fault. FailsRun colour reader.old.left fault) }
{
    let mut run = 0;
    loop {
        let word = read_word(reader, colour)?;
        run += word;
        if run > LONGEST_RUN {
            return Err(RunFault::TooLong);
        }
        if word < 64 {
            return Ok(run);
        }
    }
}

/// Reads a word of a colour, and answers the run that it stands for.
fn read_word(reader: &mut BitReader, colour: Colour) -> Result<u16, RunFault>
    ensures ok { IfOk result (λ run. PassesWord colour reader.old reader.new run) }
    ensures fault { IfErr result (λ fault. (run : ℕ) → Stops colour run reader.old.left fault) }
    ensures err { OnErr result (reader.new ≡ reader.old) }
{
    let known = reader.known();
    let word = look_up(colour, reader.window());
    if word.is_none() {
        return Err(if known < 8 {
            RunFault::End
        } else {
            RunFault::NoWord
        });
    }
    let bits = u32::from(word.bits);
    if bits > known {
        return Err(RunFault::End);
    }
    reader.skip(bits);
    Ok(word.run)
}

/// The word that begins 56 bits, or none where they begin with eight zeros.
#[inline]
fn look_up(colour: Colour, window: u64) -> CodeWord
    requires { window < 2 ^ 56 }
    ensures { IsEntryAt colour (word_bits 56 window) result }
{
    match colour {
        Colour::White => white_word(window),
        Colour::Black => black_word(window),
    }
}

#[inline]
fn white_word(window: u64) -> CodeWord
    requires { window < 2 ^ 56 }
    ensures { IsEntryAt Colour.White (word_bits 56 window) result }
{
    if window >= 1 << 49 {
        white::first_nine((window >> 47) as usize)
    } else {
        white::first_twelve((window >> 44) as usize)
    }
}

#[inline]
fn black_word(window: u64) -> CodeWord
    requires { window < 2 ^ 56 }
    ensures { IsEntryAt Colour.Black (word_bits 56 window) result }
{
    if window >= 1 << 52 {
        black::first_six((window >> 50) as usize)
    } else if window >= 1 << 50 {
        black::first_twelve((window >> 44) as usize)
    } else {
        black::first_thirteen((window >> 43) as usize)
    }
}
