//! Pages read.
ghost use Rattle.std.specs.Prelude.{◌≡◌, ◌++◌, ◌+◌, ◌-◌, ◌≤◌, ◌<◌, List, [], ◌∷◌, ℕ, length, take, drop, replicate, true, false, Ok, Err, IfOk, IfErr, OnErr, IfSome, IfNone, IsNone};
ghost use Rattle.fax_runcodes.specs.Rows.{Elements, IsWidth, AreRuns};
ghost use Rattle.fax_pagestore.specs.PageTexts.{MeansRows};
ghost use Rattle.fax_pagestore.specs.PageFaults.{HasNoEol};
ghost use Rattle.fax_c.specs.Calls.{ReadsRuns, ReadsPixels, RefusesText, AreRunsOf, FillsRuns, FillsPixels, coding_by};

use crate::page::{coding_of, width_of};
use crate::{FillCounts, Refusal};
use fax_pagestore::{Format, PackedRows, Page, PageFault, RowStore, read_page};
use fax_runcodes::RowRef;
use std::alloc::Global;

/// Reads a page, and puts its runs into a slice.
pub fn read_runs(
    alloc: Global,
    octets: &[u8],
    width: u16,
    two_dimensional: bool,
    runs: &mut [u16],
) -> Result<FillCounts, Refusal>
    ensures page { ReadsRuns width (coding_by two_dimensional) octets.now runs.old runs.new result }
    ensures within { IfOk result (λ filled. filled.items ≤ length runs.old) }
    ensures after { IfOk result
        (λ filled. drop filled.items runs.new ≡ drop filled.items runs.old) }
    ensures untouched { OnErr result (runs.new ≡ runs.old) }
    ensures width_first { (IsWidth width → ⊥) → result ≡ Err Refusal.Width }
    ensures no_eol_next { IsWidth width → HasNoEol (coding_by two_dimensional) octets.now
        → result ≡ Err (Refusal.Page PageFault.NoEol) }
{
    let page = read_text(alloc, octets, width, two_dimensional)?;
    fill_runs(&page, runs)
}

/// Reads a page, and puts its picture elements into a slice.
pub fn read_pixels(
    alloc: Global,
    octets: &[u8],
    width: u16,
    two_dimensional: bool,
    pixels: &mut [u8],
) -> Result<FillCounts, Refusal>
    ensures page { ReadsPixels width
        (coding_by two_dimensional) octets.now pixels.old pixels.new result }
    ensures within { IfOk result (λ filled. filled.items ≤ length pixels.old) }
    ensures after { IfOk result
        (λ filled. drop filled.items pixels.new ≡ drop filled.items pixels.old) }
    ensures untouched { OnErr result (pixels.new ≡ pixels.old) }
    ensures width_first { (IsWidth width → ⊥) → result ≡ Err Refusal.Width }
    ensures no_eol_next { IsWidth width → HasNoEol (coding_by two_dimensional) octets.now
        → result ≡ Err (Refusal.Page PageFault.NoEol) }
{
    let page = read_text(alloc, octets, width, two_dimensional)?;
    fill_pixels(&page, pixels)
}

/// Reads a page. That the width is none, or that there is no EOL, is told before memory is taken.
fn read_text(
    alloc: Global,
    octets: &[u8],
    width: u16,
    two_dimensional: bool,
) -> Result<Page<PackedRows>, Refusal>
    ensures page { IfOk result
        (λ page. MeansRows width (coding_by two_dimensional) octets.now page.rows) }
    ensures refusal { IfErr result
        (λ refusal. RefusesText width (coding_by two_dimensional) octets.now refusal) }
    ensures width_first { (IsWidth width → ⊥) → result ≡ Err Refusal.Width }
    ensures no_eol_next { IsWidth width → HasNoEol (coding_by two_dimensional) octets.now
        → result ≡ Err (Refusal.Page PageFault.NoEol) }
{
    let format = Format {
        width: width_of(width)?,
        fine: false,
    };
    let page = read_page(alloc, octets, format, coding_of(two_dimensional))?;
    Ok(page)
}

/// Puts the runs of a page into a slice.
fn fill_runs<S: RowStore>(page: &Page<S>, runs: &mut [u16]) -> Result<FillCounts, Refusal>
    ensures puts { FillsRuns page.now.rows runs.old runs.new result }
    ensures within { IfOk result (λ filled. filled.items ≤ length runs.old) }
    ensures after { IfOk result
        (λ filled. drop filled.items runs.new ≡ drop filled.items runs.old) }
    ensures untouched { OnErr result (runs.new ≡ runs.old) }
{
    let wanted = count_all_runs(page);
    if wanted > runs.len() {
        return Err(Refusal::Room(wanted));
    }
    let rows = page.rows();
    let mut filled = 0;
    for i in 0..rows.len() {
        let row = rows.lend(i);
        filled = put_row(&row, count_runs(&row), runs, filled);
    }
    Ok(FillCounts {
        rows: rows.len(),
        items: filled,
    })
}

/// How many runs the rows of a page have.
fn count_all_runs<S: RowStore>(page: &Page<S>) -> usize
    ensures { (list : List ℕ) × AreRunsOf list page.now.rows × (length list ≡ result) }
{
    let rows = page.rows();
    let mut total = 0;
    for i in 0..rows.len() {
        total += count_runs(&rows.lend(i));
    }
    total
}

/// How many runs a row has.
fn count_runs(row: &RowRef<'_>) -> usize
    ensures runs { (list : List ℕ) × AreRuns list row.now × (length list ≡ result) }
    ensures few { result ≤ length row.now + 1 }
{
    row.changes().len() + 1
}

/// Puts the runs of a row, which are so many, into a slice, from a place on, and answers the place after
/// them.
fn put_row(row: &RowRef<'_>, count: usize, runs: &mut [u16], from: usize) -> usize
    requires some { 0 < length row.now }
    requires counted { (list : List ℕ) × AreRuns list row.now × (length list ≡ count) }
    requires room { from + count ≤ length runs.old }
    ensures end { result ≡ from + count }
    ensures within { result ≤ length runs.new }
    ensures runs { (list : List ℕ)
        × AreRuns list row.now × (take result runs.new ≡ take from runs.old ++ list) }
    ensures after { drop result runs.new ≡ drop result runs.old }
    ensures same_room { length runs.new ≡ length runs.old }
{
    let end = from + count;
    row.put_runs(&mut runs[from..end]);
    end
}

/// Puts the picture elements of a page into a slice.
fn fill_pixels<S: RowStore>(page: &Page<S>, pixels: &mut [u8]) -> Result<FillCounts, Refusal>
    ensures puts { FillsPixels page.now.rows pixels.old pixels.new result }
    ensures within { IfOk result (λ filled. filled.items ≤ length pixels.old) }
    ensures after { IfOk result
        (λ filled. drop filled.items pixels.new ≡ drop filled.items pixels.old) }
    ensures untouched { OnErr result (pixels.new ≡ pixels.old) }
{
    let rows = page.rows();
    let octets = usize::from(page.format().width.elements() / 8);
    let wanted = octets * rows.len() as usize;
    if wanted > pixels.len() {
        return Err(Refusal::Room(wanted));
    }
    let mut filled = 0;
    // from where on the rows are white, and not put yet
    let mut white = 0;
    for i in 0..rows.len() {
        let row = rows.lend(i);
        let from = filled;
        filled += octets;
        if row.changes().is_empty() {
            continue;
        }
        clear(pixels, white, from);
        row.put_pixels(&mut pixels[from..filled]);
        white = filled;
    }
    clear(pixels, white, filled);
    Ok(FillCounts {
        rows: rows.len(),
        items: filled,
    })
}

/// Puts zeros into a slice, from one place to another: the picture elements of white rows.
fn clear(octets: &mut [u8], from: usize, end: usize)
    requires order { from ≤ end }
    requires within { end ≤ length octets.old }
    ensures zeros { take end octets.new ≡ take from octets.old ++ replicate (end - from) 0 }
    ensures after { drop end octets.new ≡ drop end octets.old }
    ensures same_room { length octets.new ≡ length octets.old }
{
    octets[from..end].fill(0);
}

/// Puts items into a slice, from a place on, and answers the place after them, or `None` where they have
/// no room.
pub fn put<T: Copy>(slice: &mut [T], from: usize, items: &[T]) -> Option<usize>
    ensures some { IfSome result (λ end. (end ≡ from + length items.now)
        × (take end slice.new ≡ take from slice.old ++ items.now)) }
    ensures within { IfSome result (λ end. end ≤ length slice.old) }
    ensures same_room { length slice.new ≡ length slice.old }
    ensures after { IfSome result (λ end. drop end slice.new ≡ drop end slice.old) }
    ensures untouched { IsNone result → slice.new ≡ slice.old }
    ensures none { IfNone result (length slice.old < from + length items.now) }
{
    let end = from.checked_add(items.len())?;
    if end > slice.len() {
        return None;
    }
    slice[from..end].copy_from_slice(items);
    Some(end)
}
