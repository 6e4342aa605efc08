//! White runs with the black ones after them, looked up at once.
ghost use Rattle.std.specs.Prelude.{◌≡◌, ◌<◌, ◌^◌, IfSome, IsNone};
ghost use Rattle.fax_bits.specs.Bits.{word_bits};
ghost use Rattle.fax_runcodes.specs.Pairs.{IsPairAt, BeginsWithNoPair};

use crate::tables::{WordPair, pairs};

/// The white word and the black one after it that begin 56 bits, which are those of a number, the most
/// significant first, where both are terminating words (ITU-T T.4, table 2/T.4) of runs that are not empty
/// and have 11 bits together at most.
#[inline]
pub fn pair_at(window: u64) -> Option<WordPair>
    requires { window < 2 ^ 56 }
    ensures some { IfSome result (λ pair. IsPairAt (word_bits 56 window) pair) }
    ensures none { IsNone result → BeginsWithNoPair (word_bits 56 window) }
{
    let pair = pairs::first_eleven((window >> 45) as usize);
    if pair.bits == 0 { None } else { Some(pair) }
}
