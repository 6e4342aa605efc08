//! A TIFF, read.
ghost use Rattle.std.specs.Prelude.{◌≡◌, ◌≢◌, ◌≤◌, ◌⊎◌, List, IfErr, IfOk, IsOkAnd, Err, Ok, length};
ghost use Rattle.fax_pagestore.specs.Pages.{PageValue};
ghost use Rattle.fax_tiff.specs.declared.fault.TiffFault.{TiffFault};
ghost use Rattle.fax_tiff.specs.Directories.{Gives};
ghost use Rattle.fax_tiff.specs.ReadTiffs.{FailPages, FailsText, FailsTiff, MeanPages, MeansText, MeansTiff, most_pages, pages_at, texts_of};
ghost use Rattle.fax_tiff.specs.ReadTiffs as spec;

use crate::fault::TiffFault;
use crate::number::{ByteOrder, part, read_16, read_32};
use crate::page_text::{PageText, read_page_at};
use fax_pagestore::{PackedRows, Page, PageFault, RowStore, read_page};
use std::alloc::Global;

/// The most pages of a file: PageNumber has 16 bits (TIFF 6.0).
const MOST_PAGES: u32 = 65_535;

/// The octets before which a directory stands: the order of octets, 42, and the place of the first directory.
const HEAD_OCTETS: usize = 8;

/// Reads the pages of a TIFF of class F (RFC 2306): of either order of octets and of bits, with one strip a page or several, of
/// one-dimensional lines or also two-dimensional ones, with EOLs that end at an octet's end or not, and with a return to control or
/// without. Its work is bounded by the length of the octets, of which none is used twice. It takes memory for the pages and their
/// texts.
pub fn read_tiff(alloc: Global, octets: &[u8]) -> Result<Vec<Page<PackedRows>>, TiffFault>
    ensures ok { IfOk result (λ pages. MeansTiff octets.now pages.items) }
    ensures fault { IfErr result
        (λ fault. fault ≢ TiffFault.NoMemory → FailsTiff octets.now fault) }

    // Memory aside, octets that mean pages are read, and a fault comes wherever it is met.
    ensures reads { (pages : List PageValue) → MeansTiff octets.now pages
        → IsOkAnd result (λ read. read.items ≡ pages) ⊎ (result ≡ Err TiffFault.NoMemory) }
    ensures fails { (fault : TiffFault)
        → FailsTiff octets.now fault → (result ≡ Err fault) ⊎ (result ≡ Err TiffFault.NoMemory) }
{
    read_all(alloc, octets)
}

/// Reads the pages of a TIFF.
fn read_all(alloc: Global, octets: &[u8]) -> Result<Vec<Page<PackedRows>>, TiffFault>
    ensures ok { IfOk result (λ pages. MeansTiff octets.now pages.items) }
    ensures fault { IfErr result
        (λ fault. fault ≢ TiffFault.NoMemory → FailsTiff octets.now fault) }
{
    let texts = read_texts(alloc, octets)?;
    read_pages(alloc, texts.as_slice())
}

/// Reads the texts of the pages.
#[tactic(auto, unfolding(crate::specs::ReadTiffs::texts_of))]
fn read_texts(alloc: Global, octets: &[u8]) -> Result<Vec<PageText>, TiffFault>
    ensures ok { IfOk result (λ texts. texts_of octets.now ≡ Ok texts.items) }
    ensures fault { IfErr result
        (λ fault. fault ≢ TiffFault.NoMemory → texts_of octets.now ≡ Err fault) }
{
    let head = part(octets, 0, HEAD_OCTETS)?;
    let order = order_of(head)?;
    let first = read_32(order, head, 4);
    if first == 0 {
        return Err(TiffFault::NoPages);
    }
    read_chain(alloc, order, octets, first)
}

/// The order of octets that the head of a file says.
#[tactic(auto, unfolding(crate::specs::ReadTiffs::order_of))]
fn order_of(head: &[u8]) -> Result<ByteOrder, TiffFault>
    requires { 8 ≤ length head.now }
    ensures { Gives (λ order. order) result (spec.order_of head.now) }
{
    if head[0] == b'I' && head[1] == b'I' && read_16(ByteOrder::Little, head, 2) == 42 {
        return Ok(ByteOrder::Little);
    }
    if head[0] == b'M' && head[1] == b'M' && read_16(ByteOrder::Big, head, 2) == 42 {
        return Ok(ByteOrder::Big);
    }
    Err(TiffFault::NoTiff)
}

/// Reads the texts of the pages of a chain of directories, of which the first stands at this place.
fn read_chain(
    alloc: Global,
    order: ByteOrder,
    octets: &[u8],
    first: u32,
) -> Result<Vec<PageText>, TiffFault>
    ensures ok { IfOk result (λ texts.
        pages_at most_pages order octets.now first (length octets.now) ≡ Ok texts.items) }
    ensures fault { IfErr result (λ fault. fault ≢ TiffFault.NoMemory
        → pages_at most_pages order octets.now first (length octets.now) ≡ Err fault) }
{
    let mut texts = Vec::new(alloc);
    let mut place = first;
    let mut left = octets.len();
    for _ in 0..MOST_PAGES {
        if place == 0 {
            return Ok(texts);
        }
        let read = read_page_at(alloc, order, octets, place, left)?;
        texts.push(read.page)?;
        place = read.next;
        left = read.left;
    }
    if place == 0 {
        Ok(texts)
    } else {
        Err(TiffFault::TooManyPages)
    }
}

/// Reads the pages that texts mean.
fn read_pages(alloc: Global, texts: &[PageText]) -> Result<Vec<Page<PackedRows>>, TiffFault>
    ensures ok { IfOk result (λ pages. MeanPages texts.now pages.items) }
    ensures fault { IfErr result (λ fault. fault ≢ TiffFault.NoMemory → FailPages texts.now fault) }
{
    let mut pages = Vec::new(alloc);
    for text in texts {
        let page = read_text(alloc, text)?;
        pages.push(page)?;
    }
    Ok(pages)
}

/// Reads the page that a text means, of as many rows as are said.
fn read_text(alloc: Global, text: &PageText) -> Result<Page<PackedRows>, TiffFault>
    ensures ok { IfOk result (λ page. MeansText text.now page) }
    ensures fault { IfErr result (λ fault. fault ≢ TiffFault.NoMemory → FailsText text.now fault) }
{
    match read_page::<PackedRows>(alloc, text.text.as_slice(), text.format, text.coding) {
        Ok(page) => {
            if page.rows().len() == text.height {
                Ok(page)
            } else {
                Err(TiffFault::BadHeight)
            }
        }
        Err(fault) => match fault {
            PageFault::NoMemory => Err(TiffFault::NoMemory),
            _ => Err(TiffFault::BadPage(fault)),
        },
    }
}
