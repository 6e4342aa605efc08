//! Pictures, written.
ghost use Rattle.std.specs.Prelude.{◌≡◌, ◌*◌, ℕ, List, All, ◌++◌, ◌∷◌, [], codes, decimal, map, length, IfOk, OnOk, Ok};
ghost use Rattle.fax_bits.specs.Bits.{bits_of};
ghost use Rattle.fax_runcodes.specs.Pixels.{pixel};
ghost use Rattle.fax_pbm.specs.Pictures.{IsRaster, page_of};

use fax_bits::NoMemory;
use fax_pagestore::{Page, RowStore};
use fax_runcodes::RowRef;
use itoa::Buffer;
use std::alloc::Global;

/// How many octets the elements of the longest row fill, which has 2432.
const MOST_OCTETS_OF_ROW: usize = 304;

/// The octets of a page as a P4 picture (pbm(5)), with no comment. Of its resolution they say nothing.
pub fn write_pbm<S: RowStore>(alloc: Global, page: &Page<S>) -> Result<Vec<u8>, NoMemory>
    ensures { IfOk result (λ octets. page_of page.now.format.fine octets.items ≡ Ok page.now) }
{
    let rows = page.rows();
    let width = u32::from(page.format().width.elements());
    let mut octets = write_head(alloc, width, rows.len())?;
    push_rows(&mut octets, rows)?;
    Ok(octets)
}

/// The head of a picture.
fn write_head(alloc: Global, width: u32, height: u32) -> Result<Vec<u8>, NoMemory>
    ensures { IfOk result (λ octets.
        octets.items ≡ codes "P4\n" ++ (decimal width ++ 32 ∷ []) ++ (decimal height ++ 10 ∷ [])) }
{
    let mut octets = Vec::from_slice(alloc, b"P4\n")?;
    push_number(&mut octets, width, b' ')?;
    push_number(&mut octets, height, b'\n')?;
    Ok(octets)
}

/// Adds a number in decimal, and an octet after it.
fn push_number(octets: &mut Vec<u8>, number: u32, after: u8) -> Result<(), NoMemory>
    ensures { OnOk result (octets.new.items ≡ octets.old.items ++ (decimal number ++ after ∷ [])) }
{
    octets.extend_from_slice(Buffer::new().format(number).as_bytes())?;
    octets.push(after)?;
    Ok(())
}

/// Adds the elements of rows, each in octets of its own.
fn push_rows<S: RowStore>(octets: &mut Vec<u8>, rows: &S) -> Result<(), NoMemory>
    ensures { OnOk result ((raster : List ℕ) × (octets.new.items ≡ octets.old.items ++ raster)
        × ((size : ℕ) → All (λ row. length row ≡ 8 * size) (S.rows rows.now)
        → IsRaster size (S.rows rows.now) raster)) }
{
    for i in 0..rows.len() {
        push_row(octets, &rows.lend(i))?;
    }
    Ok(())
}

/// Adds the elements of a row.
fn push_row(octets: &mut Vec<u8>, row: &RowRef<'_>) -> Result<(), NoMemory>
    ensures { OnOk result ((more : List ℕ)
        × (octets.new.items ≡ octets.old.items ++ more) × (bits_of more ≡ map pixel row.now)) }
{
    let mut room = [0; MOST_OCTETS_OF_ROW];
    let elements = &mut room[..usize::from(row.width() / 8)];
    row.put_pixels(elements);
    octets.extend_from_slice(elements)?;
    Ok(())
}
