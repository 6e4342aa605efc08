//! Where the answer to a request goes.
ghost use Rattle.std.specs.Prelude.{◌≡◌, codes, is_some, true};
ghost use Rattle.std.specs.Net.Socket.{socket_ip};
ghost use Rattle.fax_sip.specs.Parameters.{parameter_of};

use fax_sip::{parameter, read_via};
use std::net::SocketAddr;
use std::str;

/// Where the answer to a request goes whose first hop is this and that came from there (RFC 3261, 18.2.2; RFC 3581, 4): to the host that it came from, at the port
/// that it came from where the hop has `rport`, and else at the port of its sender, 5060 where none is told.
pub fn answer_address(hop: &[u8], from: SocketAddr) -> SocketAddr
    ensures host { socket_ip result ≡ socket_ip from }
    ensures as_it_came { is_some (parameter_of (codes "rport") hop.now) ≡ true → result ≡ from }
{
    if parameter(hop, "rport").is_some() {
        return from;
    }
    SocketAddr::new(from.ip(), port_of(hop))
}

/// The port of a hop's sender.
fn port_of(hop: &[u8]) -> u16 {
    match read_via(hop) {
        Some(via) => port_in(via.sent_by),
        None => 5060,
    }
}

/// The port of a host and a port.
fn port_in(sent_by: &[u8]) -> u16 {
    let Ok(text) = str::from_utf8(sent_by) else {
        return 5060;
    };
    match text.rsplit_once(':') {
        Some((_, digits)) => digits.parse::<u16>().unwrap_or(5060),
        None => 5060,
    }
}
