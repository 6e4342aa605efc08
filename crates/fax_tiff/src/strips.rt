//! The strips of a page.
ghost use Rattle.std.specs.Prelude.{◌≡◌, ◌≢◌, ◌*◌, ◌++◌, IfErr, IfOk, OnOk, Err, Ok, length};
ghost use Rattle.fax_tiff.specs.Directories.{Gives};
ghost use Rattle.fax_tiff.specs.ReadTiffs.{in_order, return_to_control, strip_at, strips_from, strips_of};
ghost use Rattle.fax_tiff.specs.ReadTiffs as spec;
ghost use Rattle.fax_tiff.specs.Shown.{directory_shown, numbers_shown};

use crate::directory::{Directory, Numbers, read_number_at, read_numbers};
use crate::fault::TiffFault;
use crate::number::{ByteOrder, part, spend};
use crate::tags::{STRIP_BYTE_COUNTS, STRIP_OFFSETS};
use fax_bits::NoMemory;
use fax_pagestore::Coding;
use std::alloc::{AllocError, Global};

/// How many octets of the file a strip uses beside its own: those that say where it stands.
const PLACE_OCTETS: usize = 4;

/// Six EOLs in one dimension (ITU-T T.4, 4.1.4).
const RETURN_1D: [u8; 9] = [0x00, 0x10, 0x01, 0x00, 0x10, 0x01, 0x00, 0x10, 0x01];

/// Six EOLs with their tags, after two zeros (ITU-T T.4, 4.2.4).
const RETURN_2D: [u8; 10] = [0x00, 0x06, 0x00, 0x30, 0x01, 0x80, 0x0c, 0x00, 0x60, 0x03];

/// The strips of a page, one after the other, and what is left of so many octets of the file. It takes memory for them.
#[tactic(auto, unfolding(crate::specs::ReadTiffs::strips_of))]
pub(crate) fn gather_strips(
    alloc: Global,
    order: ByteOrder,
    octets: &[u8],
    directory: &Directory<'_>,
    left: usize,
) -> Result<(Vec<u8>, usize), TiffFault>
    requires { length directory.now.entries.now ≡ 12 * directory.now.count }
    ensures ok { IfOk result (λ r.
        strips_of order octets.now (directory_shown directory.now) left ≡ Ok (r.0.items, r.1)) }
    ensures fault { IfErr result (λ fault. fault ≢ TiffFault.NoMemory
        → strips_of order octets.now (directory_shown directory.now) left ≡ Err fault) }
{
    let places = read_numbers(order, STRIP_OFFSETS, octets, directory)?;
    let counts = read_numbers(order, STRIP_BYTE_COUNTS, octets, directory)?;
    if places.count != counts.count {
        return Err(TiffFault::BadField(STRIP_BYTE_COUNTS));
    }
    gather_from(alloc, order, octets, &places, &counts, left)
}

/// As many strips as there are places.
fn gather_from(
    alloc: Global,
    order: ByteOrder,
    octets: &[u8],
    places: &Numbers<'_>,
    counts: &Numbers<'_>,
    left: usize,
) -> Result<(Vec<u8>, usize), TiffFault>
    ensures ok { IfOk result (λ r. strips_from places.now.count order octets.now
        (numbers_shown places.now) (numbers_shown counts.now) 0 left ≡ Ok (r.0.items, r.1)) }
    ensures fault { IfErr result (λ fault. fault ≢ TiffFault.NoMemory
        → strips_from places.now.count order octets.now (numbers_shown places.now)
        (numbers_shown counts.now) 0 left ≡ Err fault) }
{
    let mut strips = Vec::new(alloc);
    let mut rest = left;
    for i in 0..places.count {
        let read = read_strip(order, octets, places, counts, i, rest)?;
        strips.extend_from_slice(read.0)?;
        rest = read.1;
    }
    Ok((strips, rest))
}

/// A strip, counted from 0, and what is left of so many octets of the file.
#[tactic(auto, unfolding(crate::specs::ReadTiffs::strip_at))]
fn read_strip<'a>(
    order: ByteOrder,
    octets: &'a [u8],
    places: &Numbers<'_>,
    counts: &Numbers<'_>,
    i: u32,
    left: usize,
) -> Result<(&'a [u8], usize), TiffFault>
    ensures { Gives (λ r. (r.0.now, r.1)) result
        (strip_at order octets.now (numbers_shown places.now) (numbers_shown counts.now) i left) }
{
    let place = read_number_at(order, places, i)? as usize;
    let count = read_number_at(order, counts, i)? as usize;
    let after = spend(left, count + PLACE_OCTETS)?;
    let strip = part(octets, place, count)?;
    Ok((strip, after))
}

/// The text of a page: its strips, with the most significant bit of an octet first, and a return to control after them.
#[tactic(auto, unfolding(crate::specs::ReadTiffs::text_of))]
pub(crate) fn text_of(
    alloc: Global,
    reversed: bool,
    coding: Coding,
    strips: Vec<u8>,
) -> Result<Vec<u8>, NoMemory>
    ensures { IfOk result (λ text. text.items ≡ spec.text_of reversed coding strips.items) }
{
    let mut text = octets_in_order(alloc, reversed, strips)?;
    push_return(&mut text, coding)?;
    Ok(text)
}

/// Octets with the most significant bit first.
#[tactic(auto, unfolding(crate::specs::ReadTiffs::in_order))]
fn octets_in_order(alloc: Global, reversed: bool, octets: Vec<u8>) -> Result<Vec<u8>, AllocError>
    ensures { IfOk result (λ ordered. ordered.items ≡ in_order reversed octets.items) }
{
    if !reversed {
        return Ok(octets);
    }
    octets
        .iter()
        .map(|octet| octet.reverse_bits())
        .collect(alloc)
}

/// Adds six EOLs, which end a text.
#[tactic(auto, unfolding(crate::specs::ReadTiffs::return_to_control))]
fn push_return(text: &mut Vec<u8>, coding: Coding) -> Result<(), NoMemory>
    ensures { OnOk result (text.new.items ≡ text.old.items ++ return_to_control coding) }
{
    match coding {
        Coding::Mh => text.extend_from_slice(&RETURN_1D)?,
        Coding::Mr => text.extend_from_slice(&RETURN_2D)?,
    }
    Ok(())
}
