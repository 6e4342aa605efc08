//! The addresses of the two machines of a call.
ghost use Rattle.std.specs.Prelude.{◌≡◌, ◌↔◌, IsTrue, bytes_eq, true, false};
ghost use Rattle.fax_capture.specs.Addresses.{AreApart, HasPort, IsAt, IsAtKnown, IsRole, ShareAPort, called_of, caller_of, has_port, host_octets, is_at, is_in_fragments, is_passed_over};

use crate::machines::Machines;
use crate::pcap::{Datagram, Endpoint};

/// The address of a host.
#[derive(Clone, Copy, PartialEq, Eq)]
pub enum Host {
    V4([u8; 4]),
    V6([u8; 16]),
}

impl Host {
    /// The octets of its address.
    fn octets(&self) -> &[u8]
        ensures { result.now ≡ host_octets self.now }
    {
        match self {
            Host::V4(host) => host.as_slice(),
            Host::V6(host) => host.as_slice(),
        }
    }

    /// Whether its address has these octets.
    pub(crate) fn has(&self, octets: &[u8]) -> bool
        ensures means { IsTrue result ↔ (host_octets self.now ≡ octets.now) }
        ensures is { result ≡ bytes_eq (host_octets self.now) octets.now }
    {
        self.octets() == octets
    }
}

/// Where a machine is: its host, and its port, where not every port of the host is meant.
#[derive(Clone, Copy, PartialEq, Eq)]
pub struct Address {
    pub host: Host,
    pub port: Option<u16>,
}

impl Address {
    /// Whether no endpoint is at both addresses.
    pub fn is_apart_from(&self, other: &Address) -> bool
        ensures { IsTrue result ↔ AreApart self.now other.now }
    {
        !self.has_host(other.host.octets()) || !self.shares_a_port(other.port)
    }

    /// Whether both mean a port.
    fn shares_a_port(&self, port: Option<u16>) -> bool
        ensures { IsTrue result ↔ ShareAPort self.now.port port }
    {
        match (self.port, port) {
            (Some(one), Some(other)) => one == other,
            _ => true,
        }
    }

    /// Whether this is where an endpoint is.
    pub(crate) fn is_at(&self, endpoint: &Endpoint<'_>) -> bool
        ensures means { IsTrue result ↔ IsAt self.now endpoint.now }
        ensures is { result ≡ is_at self.now endpoint.now }
    {
        self.has_host(endpoint.host()) && self.has_port(endpoint.port())
    }

    /// Whether the host has these octets.
    fn has_host(&self, octets: &[u8]) -> bool
        ensures means { IsTrue result ↔ (host_octets self.now.host ≡ octets.now) }
        ensures is { result ≡ bytes_eq (host_octets self.now.host) octets.now }
    {
        self.host.has(octets)
    }

    /// Whether this port is meant.
    fn has_port(&self, port: u16) -> bool
        ensures means { IsTrue result ↔ HasPort self.now.port port }
        ensures is { result ≡ has_port self.now.port port }
    {
        match self.port {
            Some(wanted) => wanted == port,
            None => true,
        }
    }
}

/// What a datagram is to the two machines.
#[derive(Clone, Copy, PartialEq, Eq)]
pub(crate) enum Role {
    FromCaller,
    FromCalled,
    ToCaller,
    ToCalled,
    /// The caller sent it, in fragments.
    CallerInFragments,
    /// The called machine sent it, in fragments.
    CalledInFragments,
    Unrelated,
}

impl Role {
    /// Whether a datagram is counted alone.
    pub fn is_passed_over(self) -> bool
        ensures { result ≡ is_passed_over self }
    {
        match self {
            Role::CallerInFragments | Role::CalledInFragments | Role::Unrelated => true,
            Role::FromCaller | Role::FromCalled | Role::ToCaller | Role::ToCalled => false,
        }
    }
}

/// What a datagram is to the caller and the called machine, as far as they are known.
pub(crate) fn role_of(machines: &Machines, datagram: &Datagram<'_>) -> Role
    ensures { IsRole (caller_of machines.now) (called_of machines.now) datagram.now result }
{
    let caller = machines.caller();
    let called = machines.called();
    if is_at_known(caller, datagram.source()) {
        role_of_sent(Role::FromCaller, Role::CallerInFragments, datagram)
    } else if is_at_known(called, datagram.source()) {
        role_of_sent(Role::FromCalled, Role::CalledInFragments, datagram)
    } else if is_at_known(caller, datagram.destination()) {
        Role::ToCaller
    } else if is_at_known(called, datagram.destination()) {
        Role::ToCalled
    } else {
        Role::Unrelated
    }
}

/// Whether an address is known, and is where an endpoint is.
fn is_at_known(address: Option<Address>, endpoint: &Endpoint<'_>) -> bool
    ensures { IsTrue result ↔ IsAtKnown address endpoint.now }
{
    match address {
        Some(address) => address.is_at(endpoint),
        None => false,
    }
}

/// The first role of a datagram that one of the two sent; where it went in fragments, the second one.
fn role_of_sent(role: Role, in_fragments: Role, datagram: &Datagram<'_>) -> Role
    ensures whole { is_in_fragments datagram.now ≡ false → result ≡ role }
    ensures fragments { is_in_fragments datagram.now ≡ true → result ≡ in_fragments }
{
    if datagram.fragments().is_some() && !datagram.is_whole() {
        in_fragments
    } else {
        role
    }
}
