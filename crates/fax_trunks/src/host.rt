//! Addresses by their bits.
ghost use Rattle.std.specs.Prelude.{◌≡◌};
ghost use Rattle.fax_trunks.specs.Hosts.{host_of, is_same as same, of_six};

use std::net::IpAddr;

/// The family of an address.
#[derive(Clone, Copy, Default)]
pub enum Family {
    /// IPv4: 32 bits.
    #[default]
    Four,
    /// IPv6: 128 bits.
    Six,
}

impl Family {
    /// Whether two families are one.
    pub(crate) fn is_same(self, other: Self) -> bool
        ensures { result ≡ same self other }
    {
        matches!(
            (self, other),
            (Family::Four, Family::Four) | (Family::Six, Family::Six)
        )
    }
}

/// Who calls: the family of an address and its bits, the first one the most significant. An IPv4-mapped address, `::ffff:a.b.c.d` (RFC
/// 4291, 2.5.5.2), is the IPv4 one.
#[derive(Clone, Copy, Default)]
pub struct Host {
    /// The family.
    pub family: Family,
    /// The bits: below 2^32 where it is IPv4.
    pub bits: u128,
}

impl Host {
    /// The host of an address.
    pub fn of(address: IpAddr) -> Self
        ensures { result ≡ host_of address }
    {
        match address {
            IpAddr::V4(address) => Host {
                family: Family::Four,
                bits: u128::from(address.to_bits()),
            },
            IpAddr::V6(address) => of_bits(address.to_bits()),
        }
    }
}

/// The host of the bits of an IPv6 address.
fn of_bits(bits: u128) -> Host
    ensures { result ≡ of_six bits }
{
    const MAPPED: u128 = 0x1_0000_0000;
    if bits / MAPPED == 0xffff {
        Host {
            family: Family::Four,
            bits: bits % MAPPED,
        }
    } else {
        Host {
            family: Family::Six,
            bits,
        }
    }
}
