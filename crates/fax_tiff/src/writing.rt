//! A TIFF, written.
ghost use Rattle.std.specs.Prelude.{◌≡◌, ◌≢◌, ◌+◌, ◌^◌, ◌<◌, ◌≤◌, ◌⊎◌, ◌++◌, [], if◌then◌else◌, IfOk, OnOk, Err, length};
ghost use Rattle.fax_tiff.specs.WrittenTiffs.{end_of_page, fields_of, file_head, fraction, head_octets, pages_from, tiff_of};
ghost use Rattle.fax_tiff.specs.WrittenTiffs as spec;

use crate::coded::CodedPage;
use crate::fault::TiffWriteFault;
use crate::field::{Field, FieldValue, push_fields};
use crate::tags::{
    BITS_PER_SAMPLE, COMPRESSION, FILL_ORDER, IMAGE_LENGTH, IMAGE_WIDTH, NEW_SUBFILE_TYPE,
    PAGE_NUMBER, PHOTOMETRIC_INTERPRETATION, RESOLUTION_UNIT, ROWS_PER_STRIP, SAMPLES_PER_PIXEL,
    STRIP_BYTE_COUNTS, STRIP_OFFSETS, T4_OPTIONS, X_RESOLUTION, Y_RESOLUTION,
};
use fax_bits::NoMemory;
use std::alloc::Global;

/// Where the first directory stands.
const FIRST_PLACE: u32 = 8;

/// How many fields a directory has.
const FIELDS: u16 = 16;

/// How many octets stand before the strip of a page: its directory, and two fractions of eight octets.
const HEAD_OCTETS: usize = 214;

/// How many elements of a row an inch has, nominally (RFC 2306).
const ELEMENTS_AN_INCH: u32 = 204;

/// The TIFF of these pages, in their order, each numbered. It takes memory for the octets.
#[tactic(auto, unfolding(crate::specs::WrittenTiffs::tiff_of))]
pub fn write_tiff(alloc: Global, pages: &[CodedPage]) -> Result<Vec<u8>, TiffWriteFault>
    ensures ok { IfOk result (λ octets. octets.items ≡ tiff_of pages.now) }
    ensures some { IfOk result (λ octets. 0 < length pages.now) }
    ensures few { IfOk result (λ octets. length pages.now < 2 ^ 16) }
    ensures short { IfOk result (λ octets. length octets.items < 2 ^ 32) }
    ensures none { result ≡ Err TiffWriteFault.NoPages → pages.now ≡ [] }
    ensures long { result ≡ Err TiffWriteFault.TooLong
        → (2 ^ 16 ≤ length pages.now) ⊎ (2 ^ 32 ≤ length (tiff_of pages.now)) }
{
    if pages.is_empty() {
        return Err(TiffWriteFault::NoPages);
    }
    let Ok(total) = u16::try_from(pages.len()) else {
        return Err(TiffWriteFault::TooLong);
    };
    let mut octets = Vec::new(alloc);
    push_file_head(&mut octets)?;
    push_pages(&mut octets, total, pages)?;
    Ok(octets)
}

/// Adds the head of the file.
#[tactic(auto, unfolding(crate::specs::WrittenTiffs::file_head))]
fn push_file_head(octets: &mut Vec<u8>) -> Result<(), NoMemory>
    ensures { OnOk result (octets.new.items ≡ octets.old.items ++ file_head) }
{
    octets.extend_from_slice(b"II*\0")?;
    octets.extend_from_slice(&FIRST_PLACE.to_le_bytes())?;
    Ok(())
}

/// Adds pages, numbered from 0.
fn push_pages(octets: &mut Vec<u8>, total: u16, pages: &[CodedPage]) -> Result<(), TiffWriteFault>
    requires { length pages.now ≡ total }
    ensures ok { OnOk result (octets.new.items
        ≡ octets.old.items ++ pages_from (length octets.old.items) 0 total pages.now) }
    ensures short { OnOk result (0 < length pages.now → length octets.new.items < 2 ^ 32) }
    ensures none { result ≢ Err TiffWriteFault.NoPages }
    ensures long { result ≡ Err TiffWriteFault.TooLong → 2 ^ 32 ≤ length octets.old.items
        + length (pages_from (length octets.old.items) 0 total pages.now) }
{
    for (i, page) in pages.iter().enumerate() {
        let is_last = i + 1 == pages.len();
        push_page(octets, i as u16, total, page, is_last)?;
    }
    Ok(())
}

/// Adds a page: its directory, its resolutions and its strip.
#[tactic(auto, unfolding(crate::specs::WrittenTiffs::head_octets))]
fn push_page(
    octets: &mut Vec<u8>,
    number: u16,
    total: u16,
    page: &CodedPage,
    is_last: bool,
) -> Result<(), TiffWriteFault>
    ensures ok { let place = length octets.old.items in OnOk result (octets.new.items
        ≡ octets.old.items ++ (head_octets place number total (if is_last
        then 0 else end_of_page place page.now) page.now ++ page.now.strip)) }
    ensures short { OnOk result (end_of_page (length octets.old.items) page.now < 2 ^ 32) }
    ensures none { result ≢ Err TiffWriteFault.NoPages }
    ensures long { result ≡ Err TiffWriteFault.TooLong
        → 2 ^ 32 ≤ end_of_page (length octets.old.items) page.now }
{
    let after_head = octets.len().saturating_add(HEAD_OCTETS);
    let Ok(end) = u32::try_from(after_head.saturating_add(page.strip.len())) else {
        return Err(TiffWriteFault::TooLong);
    };
    let place = octets.len() as u32;
    let next = if is_last { 0 } else { end };
    octets.extend_from_slice(&FIELDS.to_le_bytes())?;
    push_fields(octets, &fields(place, number, total, page))?;
    octets.extend_from_slice(&next.to_le_bytes())?;
    push_fraction(octets, ELEMENTS_AN_INCH)?;
    push_fraction(octets, lines_an_inch(page.format.fine))?;
    octets.extend_from_slice(page.strip.as_slice())?;
    Ok(())
}

/// How many lines an inch has, nominally.
fn lines_an_inch(fine: bool) -> u32
    ensures { result ≡ spec.lines_an_inch fine }
{
    if fine { 196 } else { 98 }
}

/// Adds a whole number as a fraction.
#[tactic(auto, unfolding(crate::specs::WrittenTiffs::fraction))]
fn push_fraction(octets: &mut Vec<u8>, number: u32) -> Result<(), NoMemory>
    ensures { OnOk result (octets.new.items ≡ octets.old.items ++ fraction number) }
{
    octets.extend_from_slice(&number.to_le_bytes())?;
    octets.extend_from_slice(&1u32.to_le_bytes())?;
    Ok(())
}

/// The fields of a page whose directory stands at this place, that has this number, from 0, of so many.
#[tactic(auto, unfolding(crate::specs::WrittenTiffs::fields_of))]
fn fields(place: u32, number: u16, total: u16, page: &CodedPage) -> [Field; 16]
    requires { end_of_page place page.now < 2 ^ 32 }
    ensures { result ≡ fields_of place number total page.now }
{
    let octets = page.strip.len() as u32;
    [
        Field::long(NEW_SUBFILE_TYPE, 2),
        Field::short(IMAGE_WIDTH, page.format.width.elements()),
        Field::long(IMAGE_LENGTH, page.height),
        Field::short(BITS_PER_SAMPLE, 1),
        Field::short(COMPRESSION, 3),
        Field::short(PHOTOMETRIC_INTERPRETATION, 0),
        Field::short(FILL_ORDER, 1),
        Field::long(STRIP_OFFSETS, place + 214),
        Field::short(SAMPLES_PER_PIXEL, 1),
        Field::long(ROWS_PER_STRIP, page.height),
        Field::long(STRIP_BYTE_COUNTS, octets),
        Field::rational(X_RESOLUTION, place + 198),
        Field::rational(Y_RESOLUTION, place + 206),
        Field::long(T4_OPTIONS, 0),
        Field::short(RESOLUTION_UNIT, 2),
        Field::shorts(PAGE_NUMBER, number, total),
    ]
}
