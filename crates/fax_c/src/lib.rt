//! Page texts for programs in C: read into run lengths or into packed picture elements, and written from
//! run lengths.
//!
//! Each call takes numbers and slices, stands on a call of `fax_pagestore`, and answers an [`Outcome`].
//! Texts are those of ITU-T T.4, the most significant bit of an octet first. `fax_c.h`, in
//! this folder, declares the calls to C.
#![tactic(auto)]

ghost use Rattle.std.specs.Prelude.{◌≡◌, ◌≢◌, ◌≤◌, ◌<◌, [], length, drop, Result, Err};
ghost use Rattle.fax_runcodes.specs.Rows.{IsWidth};
ghost use Rattle.fax_pagestore.specs.declared.fault.PageFault.TheVariants as page_faults;
ghost use Rattle.fax_pagestore.specs.PageFaults.{HasNoEol};
ghost use Rattle.fax_c.specs.declared.outcome.FillCounts.{FillCounts};
ghost use Rattle.fax_c.specs.declared.outcome.Refusal.{Refusal};
ghost use Rattle.fax_c.specs.Outcomes.{told};
ghost use Rattle.fax_c.specs.Calls.{ReadsRuns, ReadsPixels, WritesRuns, coding_by, most_least_bits};

mod outcome;
mod page;
mod reading;
mod writing;

pub use outcome::{FillCounts, Outcome, Refusal};
use std::alloc::Global;

/// Reads the page that octets mean, in rows of `width` elements (1728, 2048 or 2432), each coded in one
/// dimension or, where `two_dimensional`, some in two. The lengths of its runs, in elements, white first
/// in each row and row after row, are put into `runs`.
#[unsafe(no_mangle)]
pub extern "C" fn fax_read_runs(
    alloc: Global,
    octets: &[u8],
    width: u16,
    two_dimensional: bool,
    runs: &mut [u16],
) -> Outcome
    ensures page { (answer : Result FillCounts Refusal)
        × ReadsRuns width (coding_by two_dimensional) octets.now runs.old runs.new answer
        × (result ≡ told answer) }
    ensures within { result.filled ≤ length runs.old }
    ensures after { drop result.filled runs.new ≡ drop result.filled runs.old }
    ensures untouched { result.status ≢ 0 → runs.new ≡ runs.old }
    ensures width_first { (IsWidth width → ⊥) → result ≡ told (Err Refusal.Width) }
    ensures no_eol_next { IsWidth width → HasNoEol (coding_by two_dimensional) octets.now
        → result ≡ told (Err (Refusal.Page page_faults.NoEol)) }
{
    Outcome::of(reading::read_runs(alloc, octets, width, two_dimensional, runs))
}

/// Reads the page that octets mean, as `fax_read_runs` does. Its picture elements, eight in an octet, the
/// leftmost in the most significant bit, 1 for black, row after row, are put into `pixels`.
#[unsafe(no_mangle)]
pub extern "C" fn fax_read_pixels(
    alloc: Global,
    octets: &[u8],
    width: u16,
    two_dimensional: bool,
    pixels: &mut [u8],
) -> Outcome
    ensures page { (answer : Result FillCounts Refusal)
        × ReadsPixels width (coding_by two_dimensional) octets.now pixels.old pixels.new answer
        × (result ≡ told answer) }
    ensures within { result.filled ≤ length pixels.old }
    ensures after { drop result.filled pixels.new ≡ drop result.filled pixels.old }
    ensures untouched { result.status ≢ 0 → pixels.new ≡ pixels.old }
    ensures width_first { (IsWidth width → ⊥) → result ≡ told (Err Refusal.Width) }
    ensures no_eol_next { IsWidth width → HasNoEol (coding_by two_dimensional) octets.now
        → result ≡ told (Err (Refusal.Page page_faults.NoEol)) }
{
    Outcome::of(reading::read_pixels(alloc, octets, width, two_dimensional, pixels))
}

/// Writes the page whose rows have these run lengths, in elements, white first in each row and row after
/// row. Its text, with `least_bits` bits at least for a line with its fill and EOL, is put into `octets`.
#[unsafe(no_mangle)]
pub extern "C" fn fax_write_runs(
    alloc: Global,
    runs: &[u16],
    width: u16,
    two_dimensional: bool,
    fine: bool,
    least_bits: u32,
    octets: &mut [u8],
) -> Outcome
    ensures page { (answer : Result FillCounts Refusal)
        × WritesRuns width (coding_by two_dimensional)
        fine least_bits runs.now octets.old octets.new answer × (result ≡ told answer) }
    ensures within { result.filled ≤ length octets.old }
    ensures after { drop result.filled octets.new ≡ drop result.filled octets.old }
    ensures untouched { result.status ≢ 0 → octets.new ≡ octets.old }
    ensures width_first { (IsWidth width → ⊥) → result ≡ told (Err Refusal.Width) }
    ensures least_bits_next { IsWidth width
        → most_least_bits < least_bits → result ≡ told (Err Refusal.LeastBits) }
    ensures no_runs_next { IsWidth width → least_bits ≤ most_least_bits
        → runs.now ≡ [] → result ≡ told (Err (Refusal.Page page_faults.Empty)) }
{
    Outcome::of(writing::write_runs(
        alloc,
        runs,
        width,
        two_dimensional,
        fine,
        least_bits,
        octets,
    ))
}
