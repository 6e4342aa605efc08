//! Interfaces, as pcapng describes them.
ghost use Rattle.std.specs.Prelude.{◌≡◌, ◌<◌, ◌≤◌, ◌*◌, ◌/◌, ◌^◌, length};
ghost use Rattle.fax_capture.specs.pcap.Blocks.{option_shown};
ghost use Rattle.fax_capture.specs.pcap.Captures.{first_eight, first_octet, interface_in, moment_of, moved_by, nanoseconds, option_at, times_in, times_with, untold};
ghost use Rattle.fax_capture.specs.pcap.Fields.{Gives};

use crate::pcap::fault::CaptureFault;
use crate::pcap::fields::{ByteOrder, read_16, read_32, read_64, split_front};
use crate::pcap::link::LinkType;

/// What is described of an interface.
#[derive(Clone, Copy, PartialEq, Eq)]
pub(crate) struct Interface {
    pub link: LinkType,
    /// The most octets of a packet that are captured; 0 sets no bound.
    pub most_octets: u32,
    pub times: Times,
}

/// What the times of an interface mean.
#[derive(Clone, Copy, PartialEq, Eq)]
pub(crate) struct Times {
    /// Their unit: below 128 a decimal place of a second, else a binary one.
    pub resolution: u8,
    /// The seconds that are added to them, as two's complement.
    pub offset: u64,
}

/// Where nothing is told of them: microseconds since 1970.
const UNTOLD: Times = Times {
    resolution: 6,
    offset: 0,
};

/// The codes of the options that are read.
const END_OF_OPTIONS: u16 = 0;

const RESOLUTION: u16 = 9;

const OFFSET: u16 = 14;

const NANOSECONDS_OF_SECOND: u128 = 1_000_000_000;

/// The interface that a body describes.
#[tactic(auto, unfolding(crate::specs::pcap::Captures::interface_in, crate::specs::pcap::Fields::front_of))]
pub(crate) fn read_interface(order: ByteOrder, body: &[u8]) -> Result<Interface, CaptureFault>
    ensures { Gives (λ i. i) result (interface_in order body.now) }
{
    let (fixed, options) = split_front(CaptureFault::Damaged, 8, body)?;
    Ok(Interface {
        link: LinkType::from_number(read_16(order, fixed, 0)),
        most_octets: read_32(order, fixed, 4),
        times: read_times(order, options)?,
    })
}

/// What options tell of times.
fn read_times(order: ByteOrder, options: &[u8]) -> Result<Times, CaptureFault>
    ensures { Gives (λ t. t) result (times_in (length options.now) order options.now untold) }
{
    let mut times = UNTOLD;
    let mut rest = options;
    for _ in 0..options.len() {
        if rest.len() < 4 {
            return Ok(times);
        }
        let option = read_option(order, rest)?;
        if option.code == END_OF_OPTIONS {
            return Ok(times);
        }
        times = read_option_of_times(order, &option, times)?;
        rest = option.after;
    }
    Ok(times)
}

/// What is told of times, once one more option was read.
#[tactic(auto, unfolding(crate::specs::pcap::Captures::times_with))]
fn read_option_of_times(
    order: ByteOrder,
    option: &InterfaceOption<'_>,
    times: Times,
) -> Result<Times, CaptureFault>
    ensures { Gives (λ t. t) result (times_with order (option_shown option.now) times) }
{
    match option.code {
        RESOLUTION => Ok(Times {
            resolution: read_octet(option.value)?,
            ..times
        }),
        OFFSET => Ok(Times {
            offset: read_eight(order, option.value)?,
            ..times
        }),
        _ => Ok(times),
    }
}

/// The first octet of the value of an option.
#[tactic(auto, unfolding(crate::specs::pcap::Captures::first_octet, crate::specs::pcap::Fields::front_of))]
fn read_octet(value: &[u8]) -> Result<u8, CaptureFault>
    ensures { Gives (λ r. r) result (first_octet value.now) }
{
    let (octet, _) = split_front(CaptureFault::Damaged, 1, value)?;
    Ok(octet[0])
}

/// The number in the first eight octets of the value of an option.
#[tactic(auto, unfolding(crate::specs::pcap::Captures::first_eight, crate::specs::pcap::Fields::front_of))]
fn read_eight(order: ByteOrder, value: &[u8]) -> Result<u64, CaptureFault>
    ensures { Gives (λ r. r) result (first_eight order value.now) }
{
    let (octets, _) = split_front(CaptureFault::Damaged, 8, value)?;
    Ok(read_64(order, octets, 0))
}

/// An option: its code, its value, and the octets after it.
#[derive(Drop)]
struct InterfaceOption<'a> {
    code: u16,
    value: &'a [u8],
    after: &'a [u8],
}

/// The first of some options.
#[tactic(auto, unfolding(crate::specs::pcap::Captures::option_at, crate::specs::pcap::Fields::front_of))]
fn read_option(order: ByteOrder, octets: &[u8]) -> Result<InterfaceOption<'_>, CaptureFault>
    ensures { Gives option_shown result (option_at order octets.now) }
{
    let (header, rest) = split_front(CaptureFault::Damaged, 4, octets)?;
    let length = usize::from(read_16(order, header, 2));
    let (value, after) = split_front(CaptureFault::Damaged, 4 * ((length + 3) / 4), rest)?;
    Ok(InterfaceOption {
        code: read_16(order, header, 0),
        value: &value[..length],
        after,
    })
}

/// The moment that a count of the units of an interface says, in nanoseconds since 1970.
pub(crate) fn moment(times: Times, count: u64) -> u128
    ensures { result ≡ moment_of times count }
{
    moved(times.offset, nanoseconds_of(times.resolution, count))
}

/// A time to which seconds are added, as two's complement, or 1970.
#[tactic(auto, unfolding(crate::specs::pcap::Captures::moved_by))]
fn moved(offset: u64, time: u128) -> u128
    requires { time < 2 ^ 100 }
    ensures { result ≡ moved_by offset time }
{
    let seconds = u128::from(offset);
    if offset < 9_223_372_036_854_775_808 {
        time + NANOSECONDS_OF_SECOND * seconds
    } else {
        time.saturating_sub(NANOSECONDS_OF_SECOND * (18_446_744_073_709_551_616 - seconds))
    }
}

/// The nanoseconds of a time in the units of an interface.
#[tactic(auto, unfolding(crate::specs::pcap::Captures::nanoseconds))]
fn nanoseconds_of(resolution: u8, count: u64) -> u128
    ensures is { result ≡ nanoseconds resolution count }
    ensures small { result < 2 ^ 100 }
{
    let most = NANOSECONDS_OF_SECOND * u128::from(count);
    if resolution < 128 {
        divided(most, 10, resolution)
    } else {
        divided(most, 2, resolution - 128)
    }
}

/// A number divided by a power of a base.
fn divided(number: u128, base: u128, power: u8) -> u128
    requires { 0 < base }
    ensures is { result ≡ number / (base ^ power) }
    ensures less { result ≤ number }
{
    let mut quotient = number;
    for _ in 0..power {
        quotient /= base;
    }
    quotient
}
