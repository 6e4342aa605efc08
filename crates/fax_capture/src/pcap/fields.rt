//! Fields of headers.
ghost use Rattle.std.specs.Prelude.{◌≡◌, ◌+◌, ◌≤◌, IfOk, length};
ghost use Rattle.fax_capture.specs.pcap.Fields.{Gives, front_of, number_16, number_32, number_64};

/// The order of the octets of a number.
#[derive(Clone, Copy, PartialEq, Eq)]
pub enum ByteOrder {
    /// The most significant octet first.
    Big,
    /// The least significant octet first.
    Little,
}

/// So many octets, and those after them; this fault where there are fewer.
#[tactic(auto, unfolding(crate::specs::pcap::Fields::front_of))]
pub(crate) fn split_front<E: Copy + Drop>(
    fault: E,
    count: usize,
    octets: &[u8],
) -> Result<(&[u8], &[u8]), E>
    ensures gives { Gives
        (λ parts. (parts.0.now, parts.1.now)) result (front_of fault count octets.now) }
    ensures front { IfOk result (λ parts. length parts.0.now ≡ count) }
    ensures after { IfOk result (λ parts. count + length parts.1.now ≡ length octets.now) }
{
    if octets.len() < count {
        return Err(fault);
    }
    Ok(octets.split_at(count))
}

/// The number of 16 bits that stands in octets from a place on.
#[tactic(auto, unfolding(crate::specs::pcap::Fields::number_16))]
pub(crate) fn read_16(order: ByteOrder, octets: &[u8], place: usize) -> u16
    requires { place + 2 ≤ length octets.now }
    ensures { result ≡ number_16 order octets.now place }
{
    let first = u16::from(octets[place]);
    let second = u16::from(octets[place + 1]);
    match order {
        ByteOrder::Big => 256 * first + second,
        ByteOrder::Little => first + 256 * second,
    }
}

/// The number of 32 bits that stands in octets from a place on.
#[tactic(auto, unfolding(crate::specs::pcap::Fields::number_32))]
pub(crate) fn read_32(order: ByteOrder, octets: &[u8], place: usize) -> u32
    requires { place + 4 ≤ length octets.now }
    ensures { result ≡ number_32 order octets.now place }
{
    let first = u32::from(read_16(order, octets, place));
    let second = u32::from(read_16(order, octets, place + 2));
    match order {
        ByteOrder::Big => 65_536 * first + second,
        ByteOrder::Little => first + 65_536 * second,
    }
}

/// The number of 64 bits that stands in octets from a place on.
#[tactic(auto, unfolding(crate::specs::pcap::Fields::number_64))]
pub(crate) fn read_64(order: ByteOrder, octets: &[u8], place: usize) -> u64
    requires { place + 8 ≤ length octets.now }
    ensures { result ≡ number_64 order octets.now place }
{
    let first = u64::from(read_32(order, octets, place));
    let second = u64::from(read_32(order, octets, place + 4));
    match order {
        ByteOrder::Big => 4_294_967_296 * first + second,
        ByteOrder::Little => first + 4_294_967_296 * second,
    }
}
