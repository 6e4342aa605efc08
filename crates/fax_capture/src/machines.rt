//! The two machines of a capture, as they are said, or as its first signals find them.
ghost use Rattle.std.specs.Prelude.{◌≡◌};
ghost use Rattle.fax_capture.specs.Addresses.{called_of, caller_of};
ghost use Rattle.fax_capture.specs.Machines.{address_of, call_of, called_found, caller_found, host_of, machines_by, machines_with};

use crate::address::{Address, Host};
use crate::pcap::{Datagram, Endpoint};
use crate::signal::{CED, CNG, is_primary};

/// The machines of a capture that are known.
#[derive(Clone, Copy, PartialEq, Eq)]
pub enum Machines {
    /// The caller and the called machine.
    Known(Address, Address),
    /// The caller, and the host of the gateway that it called.
    CallerKnown(Address, Host),
    /// They are to be found: by the first CNG or CED, and the first of the call that goes on from the gateway's host.
    Unknown,
}

impl Machines {
    /// The caller.
    pub fn caller(&self) -> Option<Address>
        ensures { result ≡ caller_of self.now }
    {
        match self {
            Machines::Known(caller, _) | Machines::CallerKnown(caller, _) => Some(*caller),
            Machines::Unknown => None,
        }
    }

    /// The called machine.
    pub fn called(&self) -> Option<Address>
        ensures { result ≡ called_of self.now }
    {
        match self {
            Machines::Known(_, called) => Some(*called),
            Machines::CallerKnown(_, _) | Machines::Unknown => None,
        }
    }

    /// The machines that are known after one datagram more.
    pub(crate) fn with(self, datagram: &Datagram<'_>) -> Machines
        ensures { result ≡ machines_with self datagram.now }
    {
        if is_primary(CNG, datagram.octets()) {
            self.with_call(datagram.source(), datagram.destination())
        } else if is_primary(CED, datagram.octets()) {
            self.with_call(datagram.destination(), datagram.source())
        } else {
            self
        }
    }

    /// The machines that are known after a call from one endpoint to another.
    fn with_call(self, from: &Endpoint<'_>, to: &Endpoint<'_>) -> Machines
        ensures { result ≡ machines_by self from.now to.now }
    {
        match self {
            Machines::Known(_, _) => self,
            Machines::CallerKnown(caller, gateway) => {
                if gateway.has(from.host()) && !caller.is_at(from) {
                    called_found(caller, gateway, address_of(to))
                } else {
                    self
                }
            }
            Machines::Unknown => caller_found(address_of(from), host_of(to.host())),
        }
    }
}

/// The machines where a caller was found, and the gateway that it called.
fn caller_found(caller: Option<Address>, gateway: Option<Host>) -> Machines
    ensures { result ≡ caller_found caller gateway }
{
    match (caller, gateway) {
        (Some(caller), Some(gateway)) => Machines::CallerKnown(caller, gateway),
        _ => Machines::Unknown,
    }
}

/// The machines where the called one was found, too.
fn called_found(caller: Address, gateway: Host, called: Option<Address>) -> Machines
    ensures { result ≡ called_found caller gateway called }
{
    match called {
        Some(called) => Machines::Known(caller, called),
        None => Machines::CallerKnown(caller, gateway),
    }
}

/// The address of an endpoint.
fn address_of(endpoint: &Endpoint<'_>) -> Option<Address>
    ensures { result ≡ address_of endpoint.now }
{
    match host_of(endpoint.host()) {
        Some(host) => Some(Address {
            host,
            port: Some(endpoint.port()),
        }),
        None => None,
    }
}

/// The host with an address of these octets.
fn host_of(octets: &[u8]) -> Option<Host>
    ensures { result ≡ host_of octets.now }
{
    match octets.len() {
        4 => {
            let mut host = [0; 4];
            host.copy_from_slice(octets);
            Some(Host::V4(host))
        }
        16 => {
            let mut host = [0; 16];
            host.copy_from_slice(octets);
            Some(Host::V6(host))
        }
        _ => None,
    }
}
