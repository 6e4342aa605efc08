//! Directories of a file, and the values of their fields (TIFF 6.0, section 2).
ghost use Rattle.std.specs.Prelude.{◌≡◌, ◌<◌, ◌^◌, ◌*◌, IfOk, IfSome, length, option_map};
ghost use Rattle.fax_tiff.specs.Directories.{Gives, directory_at, entry_of, fraction_of, number_at, number_of, number_or, numbers_of, values_at, wanted};
ghost use Rattle.fax_tiff.specs.Directories as spec;
ghost use Rattle.fax_tiff.specs.Shown.{directory_shown, numbers_shown};

use crate::fault::TiffFault;
use crate::number::{ByteOrder, part, read_16, read_32};

/// How many octets a field has.
const ENTRY_OCTETS: usize = 12;

/// The types of values that are read: numbers of 16 and of 32 bits, and fractions of two of the latter.
const SHORT: u16 = 3;

const LONG: u16 = 4;

const RATIONAL: u16 = 5;

/// A directory: how many fields it has, these, and where the next one stands; 0 says that there is none.
#[derive(Clone, Copy)]
pub(crate) struct Directory<'a> {
    pub count: u16,
    pub entries: &'a [u8],
    pub next: u32,
}

/// The values of a field of numbers: whether they have 32 bits, or 16; how many they are; and their octets.
#[derive(Clone, Copy)]
pub(crate) struct Numbers<'a> {
    pub long: bool,
    pub count: u32,
    pub octets: &'a [u8],
}

/// Reads the directory that stands at a place.
#[tactic(auto, unfolding(crate::specs::Directories::directory_at))]
pub(crate) fn read_directory(
    order: ByteOrder,
    octets: &[u8],
    place: usize,
) -> Result<Directory<'_>, TiffFault>
    requires { place < 2 ^ 32 }
    ensures gives { Gives directory_shown result (directory_at order octets.now place) }
    ensures whole { IfOk result (λ directory. length directory.entries.now ≡ 12 * directory.count) }
{
    let head = part(octets, place, 2)?;
    let count = read_16(order, head, 0);
    let size = ENTRY_OCTETS * usize::from(count);
    let entries = part(octets, place + 2, size)?;
    let next = part(octets, place + 2 + size, 4)?;
    Ok(Directory {
        count,
        entries,
        next: read_32(order, next, 0),
    })
}

/// The first field of a tag.
fn find_entry<'a>(order: ByteOrder, tag: u16, directory: &Directory<'a>) -> Option<&'a [u8]>
    requires { length directory.now.entries.now ≡ 12 * directory.now.count }
    ensures found { option_map (λ entry. entry.now) result
        ≡ entry_of order tag directory.now.count directory.now.entries.now }
    ensures size { IfSome result (λ entry. length entry.now ≡ 12) }
{
    let mut rest = directory.entries;
    for _ in 0..directory.count {
        let (entry, after) = rest.split_at(ENTRY_OCTETS);
        if read_16(order, entry, 0) == tag {
            return Some(entry);
        }
        rest = after;
    }
    None
}

/// The field of a tag, which has to be there.
#[tactic(auto, unfolding(crate::specs::Directories::wanted))]
fn find_wanted<'a>(
    order: ByteOrder,
    tag: u16,
    directory: &Directory<'a>,
) -> Result<&'a [u8], TiffFault>
    requires { length directory.now.entries.now ≡ 12 * directory.now.count }
    ensures gives { Gives
        (λ entry. entry.now) result (wanted order tag (directory_shown directory.now)) }
    ensures size { IfOk result (λ entry. length entry.now ≡ 12) }
{
    match find_entry(order, tag, directory) {
        Some(entry) => Ok(entry),
        None => Err(TiffFault::Lacks(tag)),
    }
}

/// The number that a field has, which has one.
#[tactic(auto, unfolding(crate::specs::Directories::number_in))]
fn number_in(order: ByteOrder, tag: u16, entry: &[u8]) -> Result<u32, TiffFault>
    requires { length entry.now ≡ 12 }
    ensures { Gives (λ n. n) result (spec.number_in order tag entry.now) }
{
    if read_32(order, entry, 4) == 1 && read_16(order, entry, 2) == SHORT {
        return Ok(u32::from(read_16(order, entry, 8)));
    }
    if read_32(order, entry, 4) == 1 && read_16(order, entry, 2) == LONG {
        return Ok(read_32(order, entry, 8));
    }
    Err(TiffFault::BadField(tag))
}

/// The number of the field of a tag, which has to be there.
#[tactic(auto, unfolding(crate::specs::Directories::number_of))]
pub(crate) fn read_number(
    order: ByteOrder,
    tag: u16,
    directory: &Directory<'_>,
) -> Result<u32, TiffFault>
    requires { length directory.now.entries.now ≡ 12 * directory.now.count }
    ensures { Gives (λ n. n) result (number_of order tag (directory_shown directory.now)) }
{
    let entry = find_wanted(order, tag, directory)?;
    number_in(order, tag, entry)
}

/// The number of the field of a tag, or this one where the field is not there.
#[tactic(auto, unfolding(crate::specs::Directories::number_or))]
pub(crate) fn read_number_or(
    order: ByteOrder,
    tag: u16,
    default: u32,
    directory: &Directory<'_>,
) -> Result<u32, TiffFault>
    requires { length directory.now.entries.now ≡ 12 * directory.now.count }
    ensures { Gives (λ n. n) result (number_or order tag default (directory_shown directory.now)) }
{
    match find_entry(order, tag, directory) {
        Some(entry) => number_in(order, tag, entry),
        None => Ok(default),
    }
}

/// The fraction of the field of a tag, which has to be there: above, and below.
#[tactic(auto, unfolding(crate::specs::Directories::fraction_of))]
pub(crate) fn read_fraction(
    order: ByteOrder,
    tag: u16,
    octets: &[u8],
    directory: &Directory<'_>,
) -> Result<(u32, u32), TiffFault>
    requires { length directory.now.entries.now ≡ 12 * directory.now.count }
    ensures { Gives
        (λ n. n) result (fraction_of order tag octets.now (directory_shown directory.now)) }
{
    let entry = find_wanted(order, tag, directory)?;
    if read_32(order, entry, 4) == 1 && read_16(order, entry, 2) == RATIONAL {
        let parts = part(octets, read_32(order, entry, 8) as usize, 8)?;
        return Ok((read_32(order, parts, 0), read_32(order, parts, 4)));
    }
    Err(TiffFault::BadField(tag))
}

/// The octets of the values of a field, so many: in the field where there are at most four, else where it says.
#[tactic(auto, unfolding(crate::specs::Directories::values_at))]
fn read_values<'a>(
    order: ByteOrder,
    octets: &'a [u8],
    entry: &'a [u8],
    size: usize,
) -> Result<&'a [u8], TiffFault>
    requires { length entry.now ≡ 12 }
    ensures { Gives (λ values. values.now) result (values_at order octets.now entry.now size) }
{
    if size <= 4 {
        return Ok(&entry[8..]);
    }
    part(octets, read_32(order, entry, 8) as usize, size)
}

/// The numbers of a field.
#[tactic(auto, unfolding(crate::specs::Directories::numbers_in))]
fn numbers_in<'a>(
    order: ByteOrder,
    tag: u16,
    octets: &'a [u8],
    entry: &'a [u8],
) -> Result<Numbers<'a>, TiffFault>
    requires { length entry.now ≡ 12 }
    ensures { Gives numbers_shown result (spec.numbers_in order tag octets.now entry.now) }
{
    let count = read_32(order, entry, 4);
    match read_16(order, entry, 2) {
        SHORT => Ok(Numbers {
            long: false,
            count,
            octets: read_values(order, octets, entry, 2 * count as usize)?,
        }),
        LONG => Ok(Numbers {
            long: true,
            count,
            octets: read_values(order, octets, entry, 4 * count as usize)?,
        }),
        _ => Err(TiffFault::BadField(tag)),
    }
}

/// The numbers of the field of a tag, which has to be there.
#[tactic(auto, unfolding(crate::specs::Directories::numbers_of))]
pub(crate) fn read_numbers<'a>(
    order: ByteOrder,
    tag: u16,
    octets: &'a [u8],
    directory: &Directory<'a>,
) -> Result<Numbers<'a>, TiffFault>
    requires { length directory.now.entries.now ≡ 12 * directory.now.count }
    ensures { Gives numbers_shown
        result (numbers_of order tag octets.now (directory_shown directory.now)) }
{
    let entry = find_wanted(order, tag, directory)?;
    numbers_in(order, tag, octets, entry)
}

/// One of the numbers of a field, counted from 0.
#[tactic(auto, unfolding(crate::specs::Directories::number_at))]
pub(crate) fn read_number_at(
    order: ByteOrder,
    numbers: &Numbers<'_>,
    i: u32,
) -> Result<u32, TiffFault>
    ensures { Gives (λ n. n) result (number_at order (numbers_shown numbers.now) i) }
{
    if numbers.long {
        let four = part(numbers.octets, 4 * i as usize, 4)?;
        Ok(read_32(order, four, 0))
    } else {
        let two = part(numbers.octets, 2 * i as usize, 2)?;
        Ok(u32::from(read_16(order, two, 0)))
    }
}
