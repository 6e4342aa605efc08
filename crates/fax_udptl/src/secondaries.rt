//! The packets that stand after a datagram's primary.
ghost use Rattle.std.specs.Prelude.{◌≡◌, take, drop, length, Ok};
ghost use Rattle.fax_udptl.specs.Datagrams.{secondaries_at};
ghost use Rattle.fax_udptl.specs.Reading.{Gives};

use crate::fault::UdptlFault;
use crate::grammar::{check_packets, first_packet, read_length};
use std::marker::Model;
use std::mem;

/// The packets of a datagram that stand after its primary, the nearest first: an iterator that walks the
/// octets anew.
#[derive(Drop)]
pub struct Secondaries<'a> {
    octets: &'a [u8],
    left: u16,
}

impl<'a> Model for Secondaries<'a> {
    ghost use Rattle.std.specs.Prelude.{List, ℕ};
    ghost use Rattle.fax_udptl.specs.Reading.{packets_in, HasPackets};

    ghost Value = { List (List ℕ) };

    ghost view = { λ s. packets_in s.left s.octets.now };

    ghost invariant = { λ s. HasPackets s.left s.octets.now };
}

impl<'a> Secondaries<'a> {
    /// How many are left.
    pub(crate) fn left(&self) -> u16
        ensures { result ≡ length self.now }
    {
        self.left
    }

    /// The same again.
    pub(crate) fn copy(&self) -> Self
        ensures { result ≡ self.now }
    {
        Secondaries {
            octets: self.octets,
            left: self.left,
        }
    }

    /// The first n of them.
    pub(crate) fn first(&self, n: u16) -> Self
        ensures { result ≡ take n self.now }
    {
        Secondaries {
            octets: self.octets,
            left: self.left.min(n),
        }
    }

    /// Takes the first n off, or all where they are fewer.
    pub(crate) fn take_first(&mut self, n: u16) -> Self
        ensures taken { result ≡ take n self.old }
        ensures others { self.new ≡ drop n self.old }
    {
        if self.left() <= n {
            return mem::take(self);
        }
        let front = self.first(n);
        for _ in 0..n {
            self.next();
        }
        front
    }
}

impl<'a> Default for Secondaries<'a> {
    ghost use Rattle.std.specs.Prelude.{◌≡◌, []};

    ghost is_default = { λ s. s ≡ [] };

    fn default() -> Self {
        Secondaries {
            octets: Default::default(),
            left: 0,
        }
    }
}

impl<'a> Iterator for Secondaries<'a> {
    type Item = &'a [u8];

    ghost use Rattle.std.specs.Iterator.{YieldsFirstRef, item_count};

    ghost next_gives = { YieldsFirstRef (λ s. s) };

    ghost remaining = { item_count (λ s. s) };

    fn next(&mut self) -> Option<&'a [u8]> {
        let (packet, after) = first_packet(self.left, self.octets)?;
        self.octets = after;
        self.left -= 1;
        Some(packet)
    }
}

/// The secondaries of a datagram, from the octets after its primary.
#[tactic(auto, using(crate::proofs::PacketLemmas::none_left, crate::proofs::PacketLemmas::none_stand), unfolding(crate::specs::Datagrams::secondaries_at))]
pub(crate) fn read_secondaries(octets: &[u8]) -> Result<Secondaries<'_>, UdptlFault>
    ensures { Gives (λ s. s) result (secondaries_at octets.now) }
{
    let (recovery, rest) = octets.split_first().ok_or(UdptlFault::Short)?;
    if *recovery >= 128 {
        return Ok(Secondaries::default());
    }
    let (left, octets) = read_length(rest)?;
    check_packets(left, octets)?;
    Ok(Secondaries { octets, left })
}
