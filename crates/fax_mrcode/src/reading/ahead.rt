//! Bits ahead of a reader, in a window of 64 bits.
ghost use Rattle.std.specs.Prelude.{List, Bool, true, replicate, ◌<◌, ◌≤◌, ◌≡◌, ◌-◌, ◌++◌, IfSome};
ghost use Rattle.fax_bits.specs.Bits.{word_bits};
ghost use Rattle.fax_runcodes.specs.Rows.{other};
ghost use Rattle.fax_runcodes.specs.Spelling.{SpellsRun};
ghost use Rattle.fax_runcodes.specs.declared.Colour.TheVariants.{White, Black};
ghost use Rattle.fax_mrcode.specs.Windows.{ShowsAfter, FirstAre};

use fax_runcodes::{Colour, pair_at, word_at};

/// A window, the most significant bit first, and how many of its bits are left to read.
#[derive(Clone, Copy)]
pub(super) struct Ahead {
    pub(super) window: u64,
    pub(super) left: u32,
}

/// A run of fewer than 64 elements, and the bits after its word.
#[derive(Clone, Copy)]
struct ShortRun {
    run: u16,
    ahead: Ahead,
}

/// Two runs of fewer than 64 elements each, and the bits after their words.
#[derive(Clone, Copy)]
pub(super) struct ShortRuns {
    pub(super) first: u16,
    pub(super) second: u16,
    pub(super) ahead: Ahead,
}

/// The runs of a colour and of the other one whose words the bits begin with, where each is one word.
#[inline]
pub(super) fn short_runs(ahead: Ahead, colour: Colour) -> Option<ShortRuns>
    requires known { ahead.left ≤ 56 }
    ensures few { IfSome result (λ runs. (runs.first < 64) × (runs.second < 64)) }
    ensures after { IfSome result
        (λ runs. ShowsAfter ahead.window ahead.left runs.ahead.window runs.ahead.left) }
    ensures spelt { IfSome result (λ runs. (s t : List Bool)
        × SpellsRun colour s runs.first × SpellsRun (other colour) t runs.second
        × FirstAre ahead.window ahead.left runs.ahead.left (s ++ t)) }
{
    match colour {
        Colour::White => match white_and_black(ahead) {
            Some(runs) => Some(runs),
            None => one_by_one(ahead, colour),
        },
        Colour::Black => one_by_one(ahead, colour),
    }
}

/// A white run and a black one whose words the bits begin with, where one look-up finds both.
#[inline]
fn white_and_black(ahead: Ahead) -> Option<ShortRuns>
    requires known { ahead.left ≤ 56 }
    ensures few { IfSome result (λ runs. (runs.first < 64) × (runs.second < 64)) }
    ensures after { IfSome result
        (λ runs. ShowsAfter ahead.window ahead.left runs.ahead.window runs.ahead.left) }
    ensures spelt { IfSome result
        (λ runs. (s t : List Bool) × SpellsRun White s runs.first × SpellsRun Black t runs.second
        × FirstAre ahead.window ahead.left runs.ahead.left (s ++ t)) }
{
    let Some(pair) = pair_at(ahead.window >> 8) else {
        return None;
    };
    let bits = u32::from(pair.bits);
    if bits > ahead.left {
        return None;
    }
    Some(ShortRuns {
        first: u16::from(pair.white),
        second: pair.black,
        ahead: past(ahead, bits),
    })
}

/// The runs of a colour and of the other one, each by a look-up of its own.
#[inline]
fn one_by_one(ahead: Ahead, colour: Colour) -> Option<ShortRuns>
    requires known { ahead.left ≤ 56 }
    ensures few { IfSome result (λ runs. (runs.first < 64) × (runs.second < 64)) }
    ensures after { IfSome result
        (λ runs. ShowsAfter ahead.window ahead.left runs.ahead.window runs.ahead.left) }
    ensures spelt { IfSome result (λ runs. (s t : List Bool)
        × SpellsRun colour s runs.first × SpellsRun (other colour) t runs.second
        × FirstAre ahead.window ahead.left runs.ahead.left (s ++ t)) }
{
    let Some(first) = short_run(ahead, colour) else {
        return None;
    };
    let Some(second) = short_run(first.ahead, colour.other()) else {
        return None;
    };
    Some(ShortRuns {
        first: first.run,
        second: second.run,
        ahead: second.ahead,
    })
}

/// The run whose word the bits begin with, where it is one word.
#[inline]
fn short_run(ahead: Ahead, colour: Colour) -> Option<ShortRun>
    requires known { ahead.left ≤ 56 }
    ensures few { IfSome result (λ short. short.run < 64) }
    ensures after { IfSome result
        (λ short. ShowsAfter ahead.window ahead.left short.ahead.window short.ahead.left) }
    ensures spelt { IfSome result (λ short. (text : List Bool) × SpellsRun colour text short.run
        × FirstAre ahead.window ahead.left short.ahead.left text) }
{
    let word = word_at(colour, ahead.window >> 8);
    let bits = u32::from(word.bits);
    if word.run >= 64 || bits > ahead.left {
        return None;
    }
    Some(ShortRun {
        run: word.run,
        ahead: past(ahead, bits),
    })
}

/// How many ones the bits begin with.
#[inline]
pub(super) fn ones(ahead: Ahead) -> u32
    ensures few { result ≤ ahead.left }
    ensures ones { (more : List Bool)
        × (word_bits 64 ahead.window ≡ replicate result true ++ more) }
{
    let zeros_for_ones = u64::MAX - ahead.window;
    zeros_for_ones.leading_zeros().min(ahead.left)
}

/// The bits after the first n.
#[inline]
pub(super) fn past(ahead: Ahead, n: u32) -> Ahead
    requires known { ahead.left ≤ 56 }
    requires within { n ≤ ahead.left }
    ensures left { result.left ≡ ahead.left - n }
    ensures after { ShowsAfter ahead.window ahead.left result.window result.left }
{
    Ahead {
        window: ahead.window << n,
        left: ahead.left - n,
    }
}
