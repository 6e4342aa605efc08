//! UDP datagrams and who sent them.
ghost use Rattle.std.specs.Prelude.{◌≡◌};

use std::marker::Model;

/// A host and a port.
#[derive(Drop)]
pub struct Endpoint<'a> {
    pub(crate) host: &'a [u8],
    pub(crate) port: u16,
}

impl<'a> Model for Endpoint<'a> {
    ghost use Rattle.fax_capture.specs.pcap.Datagrams.{EndpointValue};

    ghost Value = { EndpointValue };

    ghost view = { λ e. record { host = e.host.now; port = e.port } };
}

impl<'a> Endpoint<'a> {
    /// The octets of the host's address: 4 of IPv4, or 16 of IPv6.
    pub fn host(&self) -> &'a [u8]
        ensures { result.now ≡ self.now.host }
    {
        self.host
    }

    /// The port.
    pub fn port(&self) -> u16
        ensures { result ≡ self.now.port }
    {
        self.port
    }
}

/// A UDP datagram, or what was captured of one, or what its first fragment has of it.
#[derive(Drop)]
pub struct Datagram<'a> {
    pub(crate) source: Endpoint<'a>,
    pub(crate) destination: Endpoint<'a>,
    pub(crate) fragments: Option<u32>,
    pub(crate) length: u16,
    pub(crate) is_whole: bool,
    pub(crate) octets: &'a [u8],
}

impl<'a> Model for Datagram<'a> {
    ghost use Rattle.fax_capture.specs.pcap.Datagrams.{DatagramValue};

    ghost Value = { DatagramValue };

    ghost view = { λ d.
        record {
          source = d.source;
          destination = d.destination;
          fragments = d.fragments;
          length = d.length;
          is_whole = d.is_whole;
          octets = d.octets.now;
        } };
}

impl<'a> Datagram<'a> {
    /// Who sent it.
    pub fn source(&self) -> &Endpoint<'a>
        ensures { result.now ≡ self.now.source }
    {
        &self.source
    }

    /// Whom it was sent to.
    pub fn destination(&self) -> &Endpoint<'a>
        ensures { result.now ≡ self.now.destination }
    {
        &self.destination
    }

    /// The number that its fragments share, where it went in fragments and this is the first one.
    pub fn fragments(&self) -> Option<u32>
        ensures { result ≡ self.now.fragments }
    {
        self.fragments
    }

    /// How many octets of data it has, of which all may not be there.
    pub fn length(&self) -> u16
        ensures { result ≡ self.now.length }
    {
        self.length
    }

    /// Whether all of its data is there.
    pub fn is_whole(&self) -> bool
        ensures { result ≡ self.now.is_whole }
    {
        self.is_whole
    }

    /// Its data, as far as it is there.
    pub fn octets(&self) -> &'a [u8]
        ensures { result.now ≡ self.now.octets }
    {
        self.octets
    }
}
