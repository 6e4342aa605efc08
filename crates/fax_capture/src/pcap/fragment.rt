//! Fragments of UDP datagrams.
ghost use Rattle.std.specs.Prelude.{◌≡◌};

use std::marker::Model;

/// A fragment of a UDP datagram that is not its first one, so that it has no ports.
#[derive(Drop)]
pub struct Fragment<'a> {
    pub(crate) source: &'a [u8],
    pub(crate) destination: &'a [u8],
    pub(crate) number: u32,
    pub(crate) place: usize,
    pub(crate) is_last: bool,
    pub(crate) octets: &'a [u8],
}

impl<'a> Model for Fragment<'a> {
    ghost use Rattle.fax_capture.specs.pcap.Datagrams.{FragmentValue};

    ghost Value = { FragmentValue };

    ghost view = { λ f. record {
      source = f.source.now;
      destination = f.destination.now;
      number = f.number;
      place = f.place;
      is_last = f.is_last;
      octets = f.octets.now;
    } };
}

impl<'a> Fragment<'a> {
    /// The octets of the address of the host that sent it.
    pub fn source(&self) -> &'a [u8]
        ensures { result.now ≡ self.now.source }
    {
        self.source
    }

    /// The octets of the address of the host that it was sent to.
    pub fn destination(&self) -> &'a [u8]
        ensures { result.now ≡ self.now.destination }
    {
        self.destination
    }

    /// The number that it shares with the first one.
    pub fn number(&self) -> u32
        ensures { result ≡ self.now.number }
    {
        self.number
    }

    /// How many octets of the datagram's data come before its own.
    pub fn place(&self) -> usize
        ensures { result ≡ self.now.place }
    {
        self.place
    }

    /// Whether none follows it.
    pub fn is_last(&self) -> bool
        ensures { result ≡ self.now.is_last }
    {
        self.is_last
    }

    /// Its data, as far as it is there.
    pub fn octets(&self) -> &'a [u8]
        ensures { result.now ≡ self.now.octets }
    {
        self.octets
    }
}
