//! Pages written.
ghost use Rattle.std.specs.Prelude.{◌≡◌, ◌≢◌, ◌++◌, ◌+◌, ◌≤◌, ◌<◌, List, [], ◌∷◌, ℕ, length, take, drop, Ok, Err, IfOk, IfErr, OnOk, OnErr, IfSome, IfNone};
ghost use Rattle.fax_pagestore.specs.PageRows.{AreRows};
ghost use Rattle.fax_runcodes.specs.Rows.{Elements, IsWidth, AreRuns};
ghost use Rattle.fax_runcodes.specs.Widths.{elements_of};
ghost use Rattle.fax_c.specs.Calls.{WritesRuns, RefusesRuns, AreRunsOf, AreRunsOfPage, coding_by, most_least_bits};

use crate::page::{coding_of, width_of};
use crate::reading::put;
use crate::{FillCounts, Refusal};
use fax_pagestore::{Format, MOST_ROWS, PackedRows, Page, PageFault, RowStore, write_page};
use fax_runcodes::{RowBuilder, Width};
use std::alloc::Global;

/// The most that may be asked for as the least bits of a line, as of the command.
const MOST_LEAST_BITS: u32 = 65_535;

/// Writes the page of these runs, and puts its text into a slice.
pub fn write_runs(
    alloc: Global,
    runs: &[u16],
    width: u16,
    two_dimensional: bool,
    fine: bool,
    least_bits: u32,
    octets: &mut [u8],
) -> Result<FillCounts, Refusal>
    ensures page { WritesRuns width
        (coding_by two_dimensional) fine least_bits runs.now octets.old octets.new result }
    ensures within { IfOk result (λ filled. filled.items ≤ length octets.old) }
    ensures after { IfOk result
        (λ filled. drop filled.items octets.new ≡ drop filled.items octets.old) }
    ensures untouched { OnErr result (octets.new ≡ octets.old) }
    ensures width_first { (IsWidth width → ⊥) → result ≡ Err Refusal.Width }
    ensures least_bits_next { IsWidth width
        → most_least_bits < least_bits → result ≡ Err Refusal.LeastBits }
    ensures no_runs_next { IsWidth width → least_bits ≤ most_least_bits
        → runs.now ≡ [] → result ≡ Err (Refusal.Page PageFault.Empty) }
{
    let width = width_of(width)?;
    if least_bits > MOST_LEAST_BITS {
        return Err(Refusal::LeastBits);
    }
    let rows: PackedRows = checked_rows(alloc, runs, width)?;
    let count = rows.len();
    let page = Page::new(Format { width, fine }, rows);
    let text = write_page(alloc, &page, coding_of(two_dimensional), least_bits)?;
    let Some(filled) = put(octets, 0, text.as_slice()) else {
        return Err(Refusal::Room(text.as_slice().len()));
    };
    Ok(FillCounts {
        rows: count,
        items: filled,
    })
}

/// The rows of the page whose runs these are. What is wrong with runs is told also where memory is refused.
fn checked_rows<S: RowStore>(alloc: Global, runs: &[u16], width: Width) -> Result<S, Refusal>
    ensures rows { IfOk result (λ rows. AreRows (elements_of width) (S.rows rows)) }
    ensures runs { IfOk result (λ rows. AreRunsOf runs.now (S.rows rows)) }
    ensures refusal { IfErr result (λ refusal. RefusesRuns (elements_of width) runs.now refusal) }
    ensures no_runs { runs.now ≡ [] → result ≡ Err (Refusal.Page PageFault.Empty) }
{
    let rows = rows_of_runs(alloc, runs, width);
    if let Err(Refusal::Page(PageFault::NoMemory)) = rows {
        check_runs(runs, width)?;
    }
    rows
}

/// The rows of the page whose runs these are. Where memory is refused, the runs after are not looked at.
fn rows_of_runs<S: RowStore>(alloc: Global, runs: &[u16], width: Width) -> Result<S, Refusal>
    ensures rows { IfOk result (λ rows. AreRows (elements_of width) (S.rows rows)) }
    ensures runs { IfOk result (λ rows. AreRunsOf runs.now (S.rows rows)) }
    ensures refusal { IfErr result (λ refusal. refusal ≢ Refusal.Page PageFault.NoMemory
        → RefusesRuns (elements_of width) runs.now refusal) }
    ensures no_runs { runs.now ≡ [] → result ≡ Err (Refusal.Page PageFault.Empty) }
{
    if runs.is_empty() {
        return Err(Refusal::Page(PageFault::Empty));
    }
    let mut rows = S::empty(alloc);
    let mut builder = RowBuilder::new(alloc)?;
    let mut rest = runs;
    while !rest.is_empty() {
        let number = rows.len();
        if number >= MOST_ROWS {
            return Err(Refusal::Page(PageFault::TooManyRows));
        }
        let Some(count) = builder.paint_row(rest, width) else {
            return Err(Refusal::Runs(number));
        };
        rows.push_lent(&builder.lend())?;
        rest = &rest[count..];
    }
    Ok(rows)
}

/// Tells what is wrong with runs of no page. It takes no memory.
fn check_runs(runs: &[u16], width: Width) -> Result<(), Refusal>
    ensures page { OnOk result (AreRunsOfPage (elements_of width) runs.now) }
    ensures refusal { IfErr result (λ refusal. RefusesRuns (elements_of width) runs.now refusal) }
    ensures no_runs { runs.now ≡ [] → result ≡ Err (Refusal.Page PageFault.Empty) }
{
    if runs.is_empty() {
        return Err(Refusal::Page(PageFault::Empty));
    }
    let mut rest = runs;
    let mut rows = 0;
    while !rest.is_empty() {
        if rows >= MOST_ROWS {
            return Err(Refusal::Page(PageFault::TooManyRows));
        }
        let Some(count) = row_in_front(rest, width) else {
            return Err(Refusal::Runs(rows));
        };
        rest = &rest[count..];
        rows += 1;
    }
    Ok(())
}

/// How many runs are those of a row of a width which stand in front of these; `None` where those of no such
/// row do.
fn row_in_front(runs: &[u16], width: Width) -> Option<usize>
    ensures some { IfSome result (λ count. (row : Elements)
        × AreRuns (take count runs.now) row × (length row ≡ elements_of width)) }
    ensures within { IfSome result (λ count. (0 < count) × (count ≤ length runs.now)) }
    ensures none { IfNone result ((row : Elements) (first more : List ℕ)
        → length row ≡ elements_of width → AreRuns first row → runs.now ≡ first ++ more → ⊥) }
{
    let elements = width.elements();
    let mut place = 0;
    for i in 0..runs.len() {
        let run = runs[i];
        if run > elements - place || (run == 0 && i > 0) {
            return None;
        }
        place += run;
        if place == elements {
            return Some(i + 1);
        }
    }
    None
}
