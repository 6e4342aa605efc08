//! What is told of the datagrams of a capture.
use crate::console::Console;
use crate::failures::tell;
use fax_capture::{Address, CaptureOptions, Counts, Host, Machines};
use std::net::{IpAddr, SocketAddr};

/// Tells which machines were found, or each of the two addresses of which nothing came, how many calls there are, where it is not one, what was passed over, where
/// anything was, and that the addresses seem to be exchanged.
pub(crate) fn tell_counts(console: &Console, options: CaptureOptions, counts: Counts) {
    if options.machines == Machines::Unknown {
        tell_found(console, counts.machines);
    }
    if let Some(caller) = options.machines.caller() {
        tell_machine(console, "caller", caller, counts.from_caller);
    }
    if let Some(called) = options.machines.called() {
        tell_machine(console, "called", called, counts.from_called);
    }
    tell_calls(console, counts);
    tell_passed_over(
        console,
        counts.in_fragments,
        "the two machines that went in fragments",
    );
    tell_passed_over(console, counts.passed_over, "other hosts or ports");
    if counts.exchanged > 0 {
        tell(
            console,
            "the caller answers calls (CED), or the called machine makes them (CNG): are both addresses exchanged?",
        );
    }
}

/// Tells which machines were found.
fn tell_found(console: &Console, machines: Machines) {
    match machines {
        Machines::Known(caller, called) => {
            let caller = socket_of(caller);
            let called = socket_of(called);
            tell(
                console,
                format_args!("found --caller {caller} --called {called}"),
            )
        }
        Machines::CallerKnown(caller, _) => {
            let caller = socket_of(caller);
            tell(
                console,
                format_args!("found --caller {caller}, and no called machine"),
            )
        }
        Machines::Unknown => tell(console, "no machine was found: none sent CNG or CED"),
    }
}

/// Tells an address of which no datagram came.
fn tell_machine(console: &Console, option: &str, address: Address, count: u64) {
    if count == 0 {
        tell_silence(console, option, address);
    }
}

/// The address of a machine that was found, which has a port.
fn socket_of(address: Address) -> SocketAddr {
    SocketAddr::new(ip_of(address.host), address.port.unwrap_or(0))
}

/// Tells how many calls the caller made, where it is not one, and what was passed over of others than the one that is asked for.
fn tell_calls(console: &Console, counts: Counts) {
    if counts.calls > 1 {
        tell(
            console,
            format_args!("the caller made {} calls", counts.calls),
        );
    }
    tell_passed_over(console, counts.of_other_calls, "other calls");
}

/// Tells how many datagrams of someone were passed over, where any was.
fn tell_passed_over(console: &Console, count: u64, whose: &str) {
    match count {
        0 => {}
        1 => tell(
            console,
            format_args!("1 datagram of {whose} was passed over"),
        ),
        count => tell(
            console,
            format_args!("{count} datagrams of {whose} were passed over"),
        ),
    }
}

/// Tells an address of which no datagram came.
fn tell_silence(console: &Console, option: &str, address: Address) {
    let host = ip_of(address.host);
    match address.port {
        Some(port) => {
            let address = SocketAddr::new(host, port);
            tell(
                console,
                format_args!("--{option} {address}: no datagram came from there"),
            )
        }
        None => tell(
            console,
            format_args!("--{option} {host}: no datagram came from there"),
        ),
    }
}

/// The address of a host.
fn ip_of(host: Host) -> IpAddr {
    match host {
        Host::V4(octets) => IpAddr::from(octets),
        Host::V6(octets) => IpAddr::from(octets),
    }
}
