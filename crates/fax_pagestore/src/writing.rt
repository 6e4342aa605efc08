//! Pages written as texts.
ghost use Rattle.std.specs.Prelude.{Bool, List, ◌++◌, ◌≡◌, ◌+◌, ◌-◌, None, length, is_none, option_copied, IfOk, OnOk, OnErr};
ghost use Rattle.std.specs.Option.{ForSome};
ghost use Rattle.fax_bits.specs.Writing.{IsPadded};
ghost use Rattle.fax_pagestore.specs.PageTexts.{end_of_line};
ghost use Rattle.fax_pagestore.specs.WrittenPages as spec;
ghost use Rattle.fax_pagestore.specs.WrittenPages.{WritesPage, WritesRows, WritesRow, ends_of_line, fill, tag_bits};

use crate::{Coding, Page, RowStore};
use fax_bits::{BitWriter, NoMemory, Octets};
use fax_mhcode::write_lent_line_1d;
use fax_mrcode::write_lent_line_2d;
use fax_runcodes::RowRef;
use std::alloc::Global;

/// EOL is a 1 after 11 zeros (ITU-T T.4, 4.1.2).
const END_OF_LINE: u32 = 1;

/// How many bits EOL has.
const END_OF_LINE_BITS: u32 = 12;

/// How many EOL stand after the EOL of the last line, so that there are six in a row (ITU-T T.4, 4.1.4
/// and 4.2.4).
pub(crate) const FURTHER_ENDS: u32 = 5;

/// Writes the text of a page: an EOL, each line with the least fill for which line, fill and EOL have at
/// least `least_bits` bits, and an EOL after it, and five more EOLs; in two-dimensional coding a tag bit
/// after each EOL.
pub fn write_page<S: RowStore>(
    alloc: Global,
    page: &Page<S>,
    coding: Coding,
    least_bits: u32,
) -> Result<Octets, NoMemory>
    ensures { IfOk result (λ octets. (text : List Bool)
        × WritesPage coding page.now.format.fine least_bits page.now.rows text
        × IsPadded octets text) }
{
    let mut writer = BitWriter::new(alloc);
    write_end_of_line(&mut writer, coding, true)?;
    write_rows(&mut writer, page, coding, least_bits)?;
    write_ends_of_line(&mut writer, coding, FURTHER_ENDS)?;
    Ok(writer.finish())
}

/// Writes the line of each row with its fill, and after it an EOL whose tag is 1 where the next line is
/// one-dimensional, and after the last (ITU-T T.4, 4.2.2 and 4.2.4).
fn write_rows<S: RowStore>(
    writer: &mut BitWriter,
    page: &Page<S>,
    coding: Coding,
    least_bits: u32,
) -> Result<(), NoMemory>
    ensures { OnOk result ((text : List Bool)
        × WritesRows coding page.now.format.fine least_bits 0 None page.now.rows text
        × (writer.new ≡ writer.old ++ text)) }
{
    let (rows, fine) = (page.rows(), page.format().fine);
    let count = rows.len();
    // the row before, where the next line is two-dimensional
    let mut reference = None;
    for index in 0..count {
        let row = rows.lend(index);
        write_filled_line(writer, reference.as_ref(), &row, least_bits)?;
        let next = index + 1;
        let tag = next == count || is_one_dimensional(coding, fine, next);
        write_end_of_line(writer, coding, tag)?;
        reference = (!tag).then_some(row);
    }
    Ok(())
}

/// Writes the line of a row, and the fewest zeros for which line, fill and EOL have at least `least_bits`
/// bits (ITU-T T.4, 4.1.3 and 4.2.3).
pub(crate) fn write_filled_line(
    writer: &mut BitWriter,
    reference: Option<&RowRef<'_>>,
    row: &RowRef<'_>,
    least_bits: u32,
) -> Result<(), NoMemory>
    requires { ForSome (option_copied reference) (λ before. length row.now ≡ length before) }
    ensures ok { OnOk result ((line : List Bool)
        × WritesRow (is_none (option_copied reference.entry)) (option_copied reference.entry)
        row.now line × (writer.new ≡ writer.old ++ (line ++ fill least_bits line))) }
    ensures err { OnErr result ((bits : List Bool) × (writer.new ≡ writer.old ++ bits)) }
{
    let before = writer.bits();
    write_line(writer, reference, row)?;
    // no fill where an EOL has as many bits by itself
    if least_bits <= END_OF_LINE_BITS {
        return Ok(());
    }
    let line_bits = writer.bits() - before;
    writer.zeros(fill_bits(line_bits, least_bits))
}

/// Writes the line of a row: in two dimensions against a reference, and without one in one dimension.
fn write_line(
    writer: &mut BitWriter,
    reference: Option<&RowRef<'_>>,
    row: &RowRef<'_>,
) -> Result<(), NoMemory>
    requires { ForSome (option_copied reference) (λ before. length row.now ≡ length before) }
    ensures ok { OnOk result ((line : List Bool)
        × WritesRow (is_none (option_copied reference.entry))
        (option_copied reference.entry) row.now line × (writer.new ≡ writer.old ++ line)) }
    ensures err { OnErr result (writer.new ≡ writer.old) }
{
    match reference {
        None => write_lent_line_1d(writer, row),
        Some(reference) => write_lent_line_2d(writer, reference, row),
    }
}

/// Whether the line of the row of this index is one-dimensional: in two-dimensional coding the first of
/// each K lines is (this project's profile).
pub(crate) fn is_one_dimensional(coding: Coding, fine: bool, index: u32) -> bool
    ensures { result ≡ spec.is_one_dimensional coding fine index }
{
    match coding {
        Coding::Mh => true,
        Coding::Mr => index % parameter_k(fine) == 0,
    }
}

/// T.4's parameter K: 2, or 4 where the resolution is the fine one (this project's profile).
fn parameter_k(fine: bool) -> u32
    ensures { result ≡ spec.parameter_k fine }
{
    if fine { 4 } else { 2 }
}

/// How many zeros stand between a line of so many bits and its EOL: the fewest for which line, fill and EOL
/// have at least `least_bits` bits.
fn fill_bits(line_bits: u128, least_bits: u32) -> u32
    ensures { result ≡ least_bits - (line_bits + 12) }
{
    let wanted = least_bits.saturating_sub(END_OF_LINE_BITS);
    if line_bits < u128::from(wanted) {
        wanted - line_bits as u32
    } else {
        0
    }
}

/// Writes so many EOLs, each with the tag 1 in two-dimensional coding (ITU-T T.4, 4.1.4 and 4.2.4).
pub(crate) fn write_ends_of_line(
    writer: &mut BitWriter,
    coding: Coding,
    count: u32,
) -> Result<(), NoMemory>
    ensures ok { OnOk result (writer.new ≡ writer.old ++ ends_of_line coding count) }
    ensures err { OnErr result ((bits : List Bool) × (writer.new ≡ writer.old ++ bits)) }
{
    for _ in 0..count {
        write_end_of_line(writer, coding, true)?;
    }
    Ok(())
}

/// Writes an EOL, and in two-dimensional coding the tag bit after it (ITU-T T.4, 4.1.2 and 4.2.2).
pub(crate) fn write_end_of_line(
    writer: &mut BitWriter,
    coding: Coding,
    tag: bool,
) -> Result<(), NoMemory>
    ensures ok { OnOk result (writer.new ≡ writer.old ++ (end_of_line ++ tag_bits coding tag)) }
    ensures err { OnErr result (writer.new ≡ writer.old) }
{
    match coding {
        Coding::Mh => writer.put(END_OF_LINE, END_OF_LINE_BITS),
        Coding::Mr => writer.put(2 * END_OF_LINE + u32::from(tag), END_OF_LINE_BITS + 1),
    }
}
