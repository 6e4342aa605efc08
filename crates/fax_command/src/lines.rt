//! Lines of a text, and the lines that tell rows.
ghost use Rattle.std.specs.Prelude.{ℕ, ◌≡◌, ◌≢◌, ◌<◌, ◌^◌, ◌++◌, ◌∷◌, [], List, length, sum, map, decimal, IfOk, IfSome, IfNone, IsNone, IsSomeAnd, OnOk, slice_index};
ghost use Rattle.fax_runcodes.specs.Rows.{AreRuns};
ghost use Rattle.fax_runcodes.specs.Widths.{elements_of};
ghost use Rattle.fax_command.specs.RowLines.{line_of, lines_of, TellsRow, IsRowLine};

use fax_bits::NoMemory;
use fax_runcodes::{Row, RowFault, Width};
use itoa::Buffer;
use memchr::memchr;
use std::alloc::Global;

/// The first line of a text, and the text after it; none of an empty text.
pub fn first_line(text: &[u8]) -> Option<(&[u8], &[u8])>
    ensures none { IfNone result (text.now ≡ []) }
    ensures lines { IfSome result (λ cut. lines_of text.now ≡ cut.0.now ∷ lines_of cut.1.now) }
    ensures shorter { IfSome result (λ cut. length cut.1.now < length text.now) }
{
    if text.is_empty() {
        return None;
    }
    match line_feed(text) {
        Some(end) => Some((&text[..end], &text[end + 1..])),
        None => Some((text, b"")),
    }
}

/// The place of the first line feed.
fn line_feed(text: &[u8]) -> Option<usize>
    ensures within { IfSome result (λ place. place < length text.now) }
    ensures found { IfSome result (λ place. slice_index text.now place ≡ 10) }
    ensures before { IfSome result (λ place. (k : ℕ) → k < place → slice_index text.now k ≢ 10) }
    ensures none { IfNone result ((k : ℕ) → k < length text.now → slice_index text.now k ≢ 10) }
{
    memchr(b'\n', text)
}

/// The number of which a text is the decimal form.
fn number_of(text: &[u8]) -> Option<u16>
    ensures some { IfSome result (λ number. text.now ≡ decimal number) }
    ensures none { IfNone result ((number : ℕ) → number < 2 ^ 16 → text.now ≢ decimal number) }
{
    let Ok(digits) = std::str::from_utf8(text) else {
        return None;
    };
    let Ok(number) = digits.parse::<u16>() else {
        return None;
    };
    if Buffer::new().format(number).as_bytes() == text {
        Some(number)
    } else {
        None
    }
}

/// The numbers of which a line is made, with one space between.
fn numbers_of(alloc: Global, line: &[u8]) -> Result<Option<Vec<u16>>, NoMemory>
    ensures some { IfOk result
        (λ found. IfSome found (λ numbers. line.now ≡ line_of numbers.items)) }
    ensures only { (numbers : List ℕ)
        → 0 < sum numbers → sum numbers < 2 ^ 16 → line.now ≡ line_of numbers
        → IfOk result (λ found. IsSomeAnd found (λ v. v.items ≡ numbers)) }
{
    let mut numbers = Vec::new(alloc);
    for part in line.split(|octet| *octet == b' ') {
        let Some(number) = number_of(part) else {
            return Ok(None);
        };
        numbers.push(number)?;
    }
    Ok(Some(numbers))
}

/// The row of a width that a line tells.
pub fn row_of_line(alloc: Global, line: &[u8], width: Width) -> Result<Option<Row>, NoMemory>
    ensures some { IfOk result
        (λ found. IfSome found (λ row. (length row ≡ elements_of width) × TellsRow line.now row)) }
    ensures none { IfOk result
        (λ found. IfNone found (IsRowLine (elements_of width) line.now → ⊥)) }
{
    let Some(runs) = numbers_of(alloc, line)? else {
        return Ok(None);
    };
    let row = match Row::from_runs(alloc, runs.as_slice()) {
        Ok(row) => row,
        Err(RowFault::BadRuns) => return Ok(None),
        Err(RowFault::NoMemory) => return Err(NoMemory),
    };
    if row.width() == width.elements() {
        Ok(Some(row))
    } else {
        Ok(None)
    }
}
