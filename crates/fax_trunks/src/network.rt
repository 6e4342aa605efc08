//! Networks from which calls are taken.
ghost use Rattle.std.specs.Prelude.{◌≡◌, ◌%◌, ◌/◌, ◌^◌, IfErr, IfOk};
ghost use Rattle.std.specs.List.{list_any};
ghost use Rattle.fax_trunks.specs.Hosts.{bits_of, host_of, width_of};
ghost use Rattle.fax_trunks.specs.Networks.{is_within, network_of, IsFaultOf, IsNetwork};

use crate::host::Host;
use crate::network_fault::NetworkFault;
use crate::text::{cut, number_of};
use std::net::IpAddr;

/// A network: all hosts of a family whose first bits are those of one of them.
#[derive(Clone, Copy)]
pub struct Network {
    /// One of its hosts.
    pub host: Host,
    /// How many bits after the first ones are free.
    pub free: u32,
}

impl Network {
    /// The network of the addresses whose first `length` bits are those of this one, in which no bit after them is set.
    pub fn new(address: IpAddr, length: u8) -> Result<Self, NetworkFault>
        ensures { result ≡ network_of address length }
    {
        let width = width(address);
        let length = u32::from(length);
        if length > width {
            return Err(NetworkFault::TooLong);
        }
        let free = width - length;
        if last_bits(bits(address), free) != 0 {
            return Err(NetworkFault::BitsBeyond);
        }
        Ok(Network {
            host: Host::of(address),
            free,
        })
    }

    /// Reads `ADDRESS/LENGTH`, as `198.51.100.0/28` and `2001:db8::/32` (RFC 4632, 3.1; RFC 4291, 2.3).
    pub fn read(text: &str) -> Result<Self, NetworkFault>
        ensures ok { IfOk result (IsNetwork text.now) }
        ensures fault { IfErr result (IsFaultOf text.now) }
    {
        let Some((address, length)) = cut(text, '/') else {
            return Err(NetworkFault::NoLength);
        };
        let Ok(address) = address.parse::<IpAddr>() else {
            return Err(NetworkFault::BadAddress);
        };
        let Some(length) = number_of(length) else {
            return Err(NetworkFault::BadLength);
        };
        Network::new(address, length)
    }

    /// Whether a host is within it.
    pub fn contains(&self, host: Host) -> bool
        ensures { result ≡ is_within host self.now }
    {
        host.family.is_same(self.host.family)
            && first_bits(host.bits, self.free) == first_bits(self.host.bits, self.free)
    }
}

/// Whether an address is within some of these networks. Without any, none is.
pub fn allows(networks: &[Network], address: IpAddr) -> bool
    ensures { result ≡ list_any (is_within (host_of address)) networks.now }
{
    let host = Host::of(address);
    networks.iter().any(|network| network.contains(host))
}

/// How many bits an address has.
fn width(address: IpAddr) -> u32
    ensures { result ≡ width_of address }
{
    match address {
        IpAddr::V4(_) => 32,
        IpAddr::V6(_) => 128,
    }
}

/// The bits of an address.
fn bits(address: IpAddr) -> u128
    ensures { result ≡ bits_of address }
{
    match address {
        IpAddr::V4(address) => u128::from(address.to_bits()),
        IpAddr::V6(address) => address.to_bits(),
    }
}

/// Bits without so many of the last ones.
fn first_bits(bits: u128, free: u32) -> u128
    ensures { result ≡ bits / 2 ^ free }
{
    if free >= u128::BITS {
        0
    } else {
        bits / 2u128.pow(free)
    }
}

/// So many of the last bits.
fn last_bits(bits: u128, free: u32) -> u128
    ensures { result ≡ bits % 2 ^ free }
{
    if free >= u128::BITS {
        bits
    } else {
        bits % 2u128.pow(free)
    }
}
