//! Pictures, read.
ghost use Rattle.std.specs.Prelude.{◌≡◌, ◌≢◌, ◌/◌, ◌*◌, ◌<◌, ◌≤◌, IfErr, IfOk, Ok, Err, length, true};
ghost use Rattle.fax_runcodes.specs.Widths.{elements_of};
ghost use Rattle.fax_pagestore.specs.PageRows.{AreRows};
ghost use Rattle.fax_pbm.specs.Pictures.{Gives, is_height, page_of, rows_of, raster_rows, width_of};

use crate::fault::PbmFault;
use crate::head::read_head;
use crate::painting::paint_octets;
use fax_bits::NoMemory;
use fax_pagestore::{Format, MOST_ROWS, PackedRows, Page, RowStore};
use fax_runcodes::{RowBuilder, Width};
use std::alloc::Global;

/// The page of a P4 picture (pbm(5)), in the fine resolution or the standard one, of which a picture says nothing. White
/// space and comments may stand before the width and before the height, a comment from a `#` to the end of its line; after
/// the height stands one white space, and then the rows, each in octets of its own, 1 for black.
#[tactic(auto, unfolding(crate::specs::Pictures::page_of))]
pub fn read_pbm(alloc: Global, octets: &[u8], fine: bool) -> Result<Page<PackedRows>, PbmFault>
    ensures ok { IfOk result (λ page. page_of fine octets.now ≡ Ok page) }
    ensures fault { IfErr result
        (λ fault. fault ≢ PbmFault.NoMemory → page_of fine octets.now ≡ Err fault) }
{
    let head = read_head(octets)?;
    let width = width_in(head.width)?;
    let rows = read_raster(alloc, width, head.height, head.raster)?;
    Ok(Page::new(Format { width, fine }, rows))
}

/// The width of so many elements.
fn width_in(elements: u32) -> Result<Width, PbmFault>
    ensures { Gives (λ width. width) result (width_of elements) }
{
    match elements {
        1728 => Ok(Width::W1728),
        2048 => Ok(Width::W2048),
        2432 => Ok(Width::W2432),
        _ => Err(PbmFault::BadWidth),
    }
}

/// So many rows of a raster, which has them and no more.
fn read_raster(
    alloc: Global,
    width: Width,
    height: u32,
    raster: &[u8],
) -> Result<PackedRows, PbmFault>
    ensures ok { IfOk result (λ rows. raster_rows (elements_of width) height raster.now ≡ Ok rows) }
    ensures are_rows { IfOk result (AreRows (elements_of width)) }
    ensures fault { IfErr result (λ fault. fault ≢ PbmFault.NoMemory
        → raster_rows (elements_of width) height raster.now ≡ Err fault) }
{
    if are_rows(height) {
        read_exactly(alloc, width, height, raster)
    } else {
        Err(PbmFault::BadHeight)
    }
}

/// Whether a page may have so many rows.
fn are_rows(height: u32) -> bool
    ensures { result ≡ is_height height }
{
    height > 0 && height <= MOST_ROWS
}

/// As many rows of a raster as a page may have.
fn read_exactly(
    alloc: Global,
    width: Width,
    height: u32,
    raster: &[u8],
) -> Result<PackedRows, PbmFault>
    requires { is_height height ≡ true }
    ensures ok { IfOk result (λ rows. raster_rows (elements_of width) height raster.now ≡ Ok rows) }
    ensures are_rows { IfOk result (AreRows (elements_of width)) }
    ensures fault { IfErr result (λ fault. fault ≢ PbmFault.NoMemory
        → raster_rows (elements_of width) height raster.now ≡ Err fault) }
{
    let size = usize::from(width.elements() / 8);
    let wanted = height as usize * size;
    if raster.len() < wanted {
        return Err(PbmFault::Cut);
    }
    if raster.len() > wanted {
        return Err(PbmFault::Longer);
    }
    let rows = read_rows(alloc, width, height, raster)?;
    Ok(rows)
}

/// The rows of a raster.
fn read_rows(
    alloc: Global,
    width: Width,
    height: u32,
    raster: &[u8],
) -> Result<PackedRows, NoMemory>
    requires { length raster.now ≡ height * (elements_of width / 8) }
    ensures { IfOk result (λ rows. rows ≡ rows_of (elements_of width / 8) height raster.now) }
{
    let size = usize::from(width.elements() / 8);
    let mut rows = PackedRows::empty(alloc);
    let mut row = RowBuilder::new(alloc)?;
    let mut rest = raster;
    for _ in 0..height {
        let (octets, after) = rest.split_at(size);
        row.clear();
        paint_octets(&mut row, octets);
        rows.push_lent(&row.lend())?;
        rest = after;
    }
    Ok(rows)
}
