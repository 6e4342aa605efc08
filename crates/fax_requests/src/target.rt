//! Where requests go.
use fax_sip::{Message, Name, Start, uri_of};
use std::net::{IpAddr, SocketAddr};
use std::str;

/// Where a `sip` address lies whose host is an IP address, at 5060 where it tells no port; none of another.
pub fn address_of(uri: &[u8]) -> Option<SocketAddr> {
    let text = match str::from_utf8(uri) {
        Ok(text) => text,
        Err(_) => return None,
    };
    let (scheme, rest) = text.split_once(':')?;
    if !scheme.eq_ignore_ascii_case("sip") {
        return None;
    }
    let rest = match rest.rsplit_once('@') {
        Some((_, host)) => host,
        None => rest,
    };
    let host = match rest.split_once(';') {
        Some((host, _)) => host,
        None => rest,
    };
    address_in(host)
}

/// Where a request is to go next (RFC 3261, 8.1.2): where its first `Route` lies, or its Request-URI where it has none; none where that host is no IP address.
pub fn next_hop(request: &Message<'_>) -> Option<SocketAddr> {
    if let Some(route) = request.elements(Name::Route).next() {
        return address_of(uri_of(route));
    }
    match request.start {
        Start::Request(_, uri) => address_of(uri),
        Start::Answer(_) => None,
    }
}

/// The address of a host and a port.
fn address_in(host: &str) -> Option<SocketAddr> {
    if let Ok(address) = host.parse::<SocketAddr>() {
        return Some(address);
    }
    let bare = match host.strip_prefix('[') {
        Some(rest) => rest.strip_suffix(']')?,
        None => host,
    };
    match bare.parse::<IpAddr>() {
        Ok(ip) => Some(SocketAddr::new(ip, 5060)),
        Err(_) => None,
    }
}
