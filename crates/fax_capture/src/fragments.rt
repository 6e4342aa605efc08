//! Fragments of datagrams, put together.
ghost use Rattle.std.specs.Prelude.{◌≡◌, ◌+◌, not, nat_lt, IfOk, OnOk};
ghost use Rattle.fax_capture.specs.Fragments.{begun_as, goes_on, grown, whole_of};

use crate::address::Role;
use crate::pcap::{Datagram, Fragment};
use fax_bits::NoMemory;
use std::alloc::Global;
use std::marker::Model;

/// The most octets of data of a datagram of UDP.
const MOST_OF_DATA: usize = 65_527;

/// What came of a datagram so far: the hosts between which it goes, the number of its fragments, from whom it is, how many octets of
/// data it has, and the first ones.
#[derive(Drop)]
pub(crate) struct Unfinished {
    source: Vec<u8>,
    destination: Vec<u8>,
    number: u32,
    role: Role,
    length: u16,
    octets: Vec<u8>,
}

impl Model for Unfinished {
    ghost use Rattle.fax_capture.specs.Fragments.{UnfinishedValue};

    ghost Value = { UnfinishedValue };

    ghost view = { λ u. record {
      source = u.source.items;
      destination = u.destination.items;
      number = u.number;
      role = u.role;
      length = u.length;
      octets = u.octets.items;
    } };
}

/// A datagram that was put together: from whom it is, and its data.
#[derive(Drop)]
pub(crate) struct Whole {
    pub role: Role,
    pub octets: Vec<u8>,
}

impl Model for Whole {
    ghost use Rattle.fax_capture.specs.Fragments.{WholeValue};

    ghost Value = { WholeValue };

    ghost view = { λ w. record { role = w.role; octets = w.octets.items } };
}

/// What is under way of a datagram of this role, where it is the first of fragments.
pub(crate) fn begun(
    alloc: Global,
    role: Role,
    datagram: &Datagram<'_>,
) -> Result<Option<Unfinished>, NoMemory>
    ensures { IfOk result (λ u. u ≡ begun_as role datagram.now datagram.now.fragments) }
{
    let Some(number) = datagram.fragments() else {
        return Ok(None);
    };
    Ok(Some(Unfinished {
        source: Vec::from_slice(alloc, datagram.source().host())?,
        destination: Vec::from_slice(alloc, datagram.destination().host())?,
        number,
        role,
        length: datagram.length(),
        octets: Vec::from_slice(alloc, datagram.octets())?,
    }))
}

/// Whether a datagram has room for so many octets from a place on.
fn fits(place: usize, count: usize) -> bool
    ensures { result ≡ not (nat_lt 65527 (place + count)) }
{
    place <= MOST_OF_DATA && count <= MOST_OF_DATA - place
}

impl Unfinished {
    /// Whether a fragment goes on where those before it end.
    pub fn goes_on(&self, fragment: &Fragment<'_>) -> bool
        ensures { result ≡ goes_on self.now fragment.now }
    {
        self.source.as_slice() == fragment.source()
            && self.destination.as_slice() == fragment.destination()
            && self.number == fragment.number()
            && self.octets.len() == fragment.place()
            && fits(fragment.place(), fragment.octets().len())
    }

    /// Adds a fragment.
    pub fn grow(&mut self, fragment: &Fragment<'_>) -> Result<(), NoMemory>
        ensures { OnOk result (self.new ≡ grown self.old fragment.now) }
    {
        if self.octets.extend_from_slice(fragment.octets()).is_err() {
            return Err(NoMemory);
        }
        Ok(())
    }

    /// The datagram, where all octets that its header counts are there.
    pub fn whole(self) -> Option<Whole>
        ensures { result ≡ whole_of self }
    {
        let length = usize::from(self.length);
        let mut octets = self.octets;
        if octets.len() < length {
            return None;
        }
        octets.truncate(length);
        Some(Whole {
            role: self.role,
            octets,
        })
    }
}
