//! Datagrams.
ghost use Rattle.std.specs.Prelude.{◌≡◌, Ok, Err, MatchResult};
ghost use Rattle.fax_udptl.specs.Datagrams.{datagram_of};

use crate::fault::UdptlFault;
use crate::grammar::read_packet;
use crate::secondaries::{Secondaries, read_secondaries};
use std::marker::Model;

/// A datagram, which borrows its packets from the octets that it was read from.
#[derive(Drop)]
pub struct Datagram<'a> {
    number: u16,
    primary: &'a [u8],
    secondaries: Secondaries<'a>,
}

impl<'a> Model for Datagram<'a> {
    ghost use Rattle.fax_udptl.specs.Datagrams.{DatagramValue};

    ghost Value = { DatagramValue };

    ghost view = { λ d.
        record { number = d.number; primary = d.primary.now; secondaries = d.secondaries } };
}

impl<'a> Datagram<'a> {
    /// Its number.
    pub fn number(&self) -> u16
        ensures { result ≡ self.now.number }
    {
        self.number
    }

    /// Its primary packet.
    pub fn primary(&self) -> &'a [u8]
        ensures { result.now ≡ self.now.primary }
    {
        self.primary
    }

    /// The packets just before the primary, the nearest first.
    pub fn secondaries(&self) -> Secondaries<'a>
        ensures { result ≡ self.now.secondaries }
    {
        self.secondaries.copy()
    }
}

/// Reads octets as a datagram (ITU-T T.38, UDPTL). `Short` says that they end inside it, and `BadLength` that a
/// length or the count begins with the bits 11, whichever comes first. Forward error correction, and octets
/// after the last secondary, are not read. It takes no memory, and its time is linear in the octets.
#[tactic(auto, unfolding(crate::specs::Datagrams::datagram_of))]
pub fn read<'a>(octets: &'a [u8]) -> Result<Datagram<'a>, UdptlFault>
    ensures { MatchResult result
        (λ d. datagram_of octets.now ≡ Ok d) (λ e. datagram_of octets.now ≡ Err e) }
{
    let (high, rest) = octets.split_first().ok_or(UdptlFault::Short)?;
    let (low, rest) = rest.split_first().ok_or(UdptlFault::Short)?;
    let (primary, rest) = read_packet(rest)?;
    let secondaries = read_secondaries(rest)?;
    Ok(Datagram {
        number: u16::from_be_bytes([*high, *low]),
        primary,
        secondaries,
    })
}
