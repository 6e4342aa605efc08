//! What the fields of a page say (RFC 2306).
ghost use Rattle.std.specs.Prelude.{◌≡◌, ◌*◌, ◌<◌, ◌^◌, length};
ghost use Rattle.fax_tiff.specs.Directories.{Gives};
ghost use Rattle.fax_tiff.specs.ReadTiffs.{coding_of, format_of, only, reversed_of};
ghost use Rattle.fax_tiff.specs.ReadTiffs as spec;
ghost use Rattle.fax_tiff.specs.Shown.{directory_shown};

use crate::directory::{Directory, read_fraction, read_number, read_number_or};
use crate::fault::TiffFault;
use crate::number::ByteOrder;
use crate::tags::{
    BITS_PER_SAMPLE, COMPRESSION, FILL_ORDER, IMAGE_WIDTH, PHOTOMETRIC_INTERPRETATION,
    RESOLUTION_UNIT, SAMPLES_PER_PIXEL, T4_OPTIONS, Y_RESOLUTION,
};
use fax_pagestore::{Coding, Format};
use fax_runcodes::Width;

/// A field that has to have this value; where it is not there, it has that one.
#[tactic(auto, unfolding(crate::specs::ReadTiffs::only))]
fn check_only(
    order: ByteOrder,
    tag: u16,
    default: u32,
    value: u32,
    directory: &Directory<'_>,
) -> Result<(), TiffFault>
    requires { length directory.now.entries.now ≡ 12 * directory.now.count }
    ensures { Gives
        (λ done. done) result (only order tag default value (directory_shown directory.now)) }
{
    let n = read_number_or(order, tag, default, directory)?;
    if n == value {
        Ok(())
    } else {
        Err(TiffFault::BadField(tag))
    }
}

/// Elements of one bit, 0 for white, in the coding of ITU-T T.4.
#[tactic(auto, unfolding(crate::specs::ReadTiffs::is_fax))]
pub(crate) fn check_fax(order: ByteOrder, directory: &Directory<'_>) -> Result<(), TiffFault>
    requires { length directory.now.entries.now ≡ 12 * directory.now.count }
    ensures { Gives (λ done. done) result (spec.is_fax order (directory_shown directory.now)) }
{
    check_only(order, BITS_PER_SAMPLE, 1, 1, directory)?;
    check_only(order, SAMPLES_PER_PIXEL, 1, 1, directory)?;
    check_only(order, COMPRESSION, 1, 3, directory)?;
    check_only(order, PHOTOMETRIC_INTERPRETATION, 0, 0, directory)
}

/// The width of so many elements.
#[tactic(auto, unfolding(crate::specs::ReadTiffs::width_of))]
fn width_of(elements: u32) -> Result<Width, TiffFault>
    ensures { Gives (λ width. width) result (spec.width_of elements) }
{
    match elements {
        1728 => Ok(Width::W1728),
        2048 => Ok(Width::W2048),
        2432 => Ok(Width::W2432),
        _ => Err(TiffFault::BadField(IMAGE_WIDTH)),
    }
}

/// Whether so many lines an inch, a fraction, are the fine resolution.
#[tactic(auto, unfolding(crate::specs::ReadTiffs::is_fine))]
fn is_fine(above: u64, below: u64) -> Result<bool, TiffFault>
    requires { below < 2 ^ 40 }
    ensures { Gives (λ fine. fine) result (spec.is_fine above below) }
{
    if above < 147 * below {
        Ok(false)
    } else if above < 294 * below {
        Ok(true)
    } else {
        Err(TiffFault::BadField(Y_RESOLUTION))
    }
}

/// Whether so many lines a unit are the fine resolution.
#[tactic(auto, unfolding(crate::specs::ReadTiffs::fine_by))]
fn fine_by(unit: u32, resolution: (u32, u32)) -> Result<bool, TiffFault>
    ensures { Gives (λ fine. fine) result (spec.fine_by unit resolution) }
{
    let (above, below) = (u64::from(resolution.0), u64::from(resolution.1));
    match unit {
        2 => is_fine(above, below),
        3 => is_fine(254 * above, 100 * below),
        _ => Err(TiffFault::BadField(RESOLUTION_UNIT)),
    }
}

/// The format of a page.
#[tactic(auto, unfolding(crate::specs::ReadTiffs::format_of))]
pub(crate) fn read_format(
    order: ByteOrder,
    octets: &[u8],
    directory: &Directory<'_>,
) -> Result<Format, TiffFault>
    requires { length directory.now.entries.now ≡ 12 * directory.now.count }
    ensures { Gives
        (λ format. format) result (format_of order octets.now (directory_shown directory.now)) }
{
    let width = width_of(read_number(order, IMAGE_WIDTH, directory)?)?;
    let resolution = read_fraction(order, Y_RESOLUTION, octets, directory)?;
    let unit = read_number_or(order, RESOLUTION_UNIT, 2, directory)?;
    let fine = fine_by(unit, resolution)?;
    Ok(Format { width, fine })
}

/// What T4Options say of the coding.
#[tactic(auto, unfolding(crate::specs::ReadTiffs::coding_by))]
fn coding_by(options: u32) -> Result<Coding, TiffFault>
    ensures { Gives (λ coding. coding) result (spec.coding_by options) }
{
    match options {
        0 | 4 => Ok(Coding::Mh),
        1 | 5 => Ok(Coding::Mr),
        _ => Err(TiffFault::BadField(T4_OPTIONS)),
    }
}

/// How the lines of a page are coded.
#[tactic(auto, unfolding(crate::specs::ReadTiffs::coding_of))]
pub(crate) fn read_coding(order: ByteOrder, directory: &Directory<'_>) -> Result<Coding, TiffFault>
    requires { length directory.now.entries.now ≡ 12 * directory.now.count }
    ensures { Gives (λ coding. coding) result (coding_of order (directory_shown directory.now)) }
{
    let options = read_number_or(order, T4_OPTIONS, 0, directory)?;
    coding_by(options)
}

/// Whether a fill order has the least significant bit first.
#[tactic(auto, unfolding(crate::specs::ReadTiffs::reversed_by))]
fn reversed_by(fill_order: u32) -> Result<bool, TiffFault>
    ensures { Gives (λ reversed. reversed) result (spec.reversed_by fill_order) }
{
    match fill_order {
        1 => Ok(false),
        2 => Ok(true),
        _ => Err(TiffFault::BadField(FILL_ORDER)),
    }
}

/// Whether the least significant bit of an octet is the first.
#[tactic(auto, unfolding(crate::specs::ReadTiffs::reversed_of))]
pub(crate) fn read_reversed(order: ByteOrder, directory: &Directory<'_>) -> Result<bool, TiffFault>
    requires { length directory.now.entries.now ≡ 12 * directory.now.count }
    ensures { Gives
        (λ reversed. reversed) result (reversed_of order (directory_shown directory.now)) }
{
    let fill_order = read_number_or(order, FILL_ORDER, 1, directory)?;
    reversed_by(fill_order)
}
