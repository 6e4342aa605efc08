//! What `faxgate capture` is asked for.
ghost use Rattle.std.specs.Prelude.{IfOk, IfSome};
ghost use Rattle.clap.specs.Words.{found_of, rows_of};
ghost use Rattle.fax_request.specs.Requests.{AreCaptureOptionsOf, AreMachinesAt, AreMachinesOf, HasOctets, IsCallOf, IsHostOf, SaysAddress};

use crate::arguments::{refused_address, refused_half, refused_machines};
use crate::given::{number_of, text_of};
use clap::{ArgMatches, Error};
use fax_capture::{Address, CaptureOptions, Host, Machines};
use std::alloc::Global;
use std::net::{IpAddr, SocketAddr};

/// The options that were given to `faxgate capture`.
pub(crate) fn capture_options_of(
    alloc: Global,
    given: &ArgMatches<'_>,
) -> Result<CaptureOptions, Error>
    ensures { IfOk result (AreCaptureOptionsOf (rows_of (found_of given.now))) }
{
    Ok(CaptureOptions {
        machines: machines_of(alloc, given)?,
        call: call_of(given),
    })
}

/// The machines that were given; where neither was, they are to be found.
fn machines_of(alloc: Global, given: &ArgMatches<'_>) -> Result<Machines, Error>
    ensures { IfOk result (AreMachinesOf (rows_of (found_of given.now))) }
{
    match (text_of(given, "caller"), text_of(given, "called")) {
        (Some(caller), Some(called)) => machines_in(alloc, caller, called),
        (None, None) => Ok(Machines::Unknown),
        _ => Err(refused_half(alloc)),
    }
}

/// The machines at the addresses that two texts say.
fn machines_in(alloc: Global, caller: &str, called: &str) -> Result<Machines, Error>
    ensures { IfOk result (AreMachinesAt caller.now called.now) }
{
    let caller = address_in(alloc, "caller", caller)?;
    let called = address_in(alloc, "called", called)?;
    if !caller.is_apart_from(&called) {
        return Err(refused_machines(alloc));
    }
    Ok(Machines::Known(caller, called))
}

/// The call that is asked for, where one is.
fn call_of(given: &ArgMatches<'_>) -> Option<u64>
    ensures { IsCallOf (rows_of (found_of given.now)) result }
{
    match number_of(given, "call", 0, u64::MAX, 0) {
        0 => None,
        call => Some(call),
    }
}

/// The address that the text of an option says.
fn address_in(alloc: Global, option: &str, text: &str) -> Result<Address, Error>
    ensures { IfOk result (SaysAddress text.now) }
{
    match read_address(text) {
        Some(address) => Ok(address),
        None => Err(refused_address(alloc, option, text)),
    }
}

/// The address that a text says: of a host, or of a host and a port.
fn read_address(text: &str) -> Option<Address>
    ensures { IfSome result (SaysAddress text.now) }
{
    if let Ok(host) = text.parse::<IpAddr>() {
        return Some(Address {
            host: host_of(host),
            port: None,
        });
    }
    match text.parse::<SocketAddr>() {
        Ok(address) => Some(Address {
            host: host_of(address.ip()),
            port: Some(address.port()),
        }),
        Err(_) => None,
    }
}

/// The host of an address; that of IPv4 for which one of IPv6 stands.
fn host_of(host: IpAddr) -> Host
    ensures { IsHostOf host result }
{
    match host {
        IpAddr::V4(address) => Host::V4(address.octets()),
        IpAddr::V6(address) => octets_of(address.to_canonical()),
    }
}

/// A host by the octets of its address.
fn octets_of(host: IpAddr) -> Host
    ensures { HasOctets host result }
{
    match host {
        IpAddr::V4(address) => Host::V4(address.octets()),
        IpAddr::V6(address) => Host::V6(address.octets()),
    }
}
