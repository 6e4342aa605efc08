//! Parts of a file, and the numbers that stand in it, in either order of octets (TIFF 6.0, section 2).
ghost use Rattle.std.specs.Prelude.{◌≡◌, ◌+◌, ◌≤◌, IfOk, length};
ghost use Rattle.fax_tiff.specs.Directories.{Gives, number_16, number_32, part_of};
ghost use Rattle.fax_tiff.specs.Directories as spec;

use crate::fault::TiffFault;

/// The order of the octets of a number.
#[derive(Clone, Copy, PartialEq, Eq)]
pub(crate) enum ByteOrder {
    /// The most significant octet first.
    Big,
    /// The least significant octet first.
    Little,
}

/// So many octets from a place on.
#[tactic(auto, unfolding(crate::specs::Directories::part_of))]
pub(crate) fn part(octets: &[u8], place: usize, count: usize) -> Result<&[u8], TiffFault>
    ensures gives { Gives (λ part. part.now) result (part_of octets.now place count) }
    ensures size { IfOk result (λ part. length part.now ≡ count) }
{
    if place > octets.len() {
        return Err(TiffFault::Cut);
    }
    let (_, after) = octets.split_at(place);
    if count > after.len() {
        return Err(TiffFault::Cut);
    }
    let (found, _) = after.split_at(count);
    Ok(found)
}

/// The number of 16 bits that stands in octets from a place on.
#[tactic(auto, unfolding(crate::specs::Directories::number_16))]
pub(crate) fn read_16(order: ByteOrder, octets: &[u8], place: usize) -> u16
    requires { place + 2 ≤ length octets.now }
    ensures { result ≡ number_16 order octets.now place }
{
    let first = u16::from(octets[place]);
    let second = u16::from(octets[place + 1]);
    match order {
        ByteOrder::Big => 256 * first + second,
        ByteOrder::Little => first + 256 * second,
    }
}

/// The number of 32 bits that stands in octets from a place on.
#[tactic(auto, unfolding(crate::specs::Directories::number_32))]
pub(crate) fn read_32(order: ByteOrder, octets: &[u8], place: usize) -> u32
    requires { place + 4 ≤ length octets.now }
    ensures { result ≡ number_32 order octets.now place }
{
    let first = u32::from(read_16(order, octets, place));
    let second = u32::from(read_16(order, octets, place + 2));
    match order {
        ByteOrder::Big => 65_536 * first + second,
        ByteOrder::Little => first + 65_536 * second,
    }
}

/// What is left of so many octets of the file once so many more are used: none is needed twice.
#[tactic(auto, unfolding(crate::specs::Directories::spend))]
pub(crate) fn spend(left: usize, count: usize) -> Result<usize, TiffFault>
    ensures { Gives (λ n. n) result (spec.spend left count) }
{
    if count > left {
        return Err(TiffFault::Overlap);
    }
    Ok(left - count)
}
