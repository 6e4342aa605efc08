//! Addresses, and sockets at them.
ghost use Rattle.std.specs.Prelude.{◌≡◌, IfErr};
ghost use Rattle.std.specs.Net.Addr.{is_ipv4};
ghost use Rattle.std.specs.Net.Socket.{socket_ip, socket_port};
ghost use Rattle.fax_send_receive.specs.Faults.{IsAddressFault};

use crate::run_fault::RunFault;
use std::io;
use std::net::{IpAddr, Ipv4Addr, Ipv6Addr, Net, SocketAddr, ToSocketAddrs, UdpSocket};

/// The first machine that an address names.
pub(crate) fn address_of<'a, H: Net>(host: &H, text: &'a str) -> Result<SocketAddr, RunFault<'a>>
    ensures { IfErr result (IsAddressFault text.entry.now) }
{
    match text.to_socket_addrs(host) {
        Ok(mut found) => match found.next() {
            Some(address) => Ok(address),
            None => Err(RunFault::Address(text, io::Error::from(io::ErrorKind::AddrNotAvailable))),
        },
        Err(error) => Err(RunFault::Address(text, error)),
    }
}

/// A socket at this address, which was written so, and which does not wait.
pub(crate) fn socket_at<'a, H: Net>(
    host: &H,
    text: &'a str,
    here: SocketAddr,
) -> Result<UdpSocket, RunFault<'a>>
    ensures { IfErr result (IsAddressFault text.entry.now) }
{
    match open_socket(host, here) {
        Ok(socket) => Ok(socket),
        Err(error) => Err(RunFault::Address(text, error)),
    }
}

/// A socket at this address, which does not wait.
fn open_socket<H: Net>(host: &H, here: SocketAddr) -> io::Result<UdpSocket> {
    let socket = host.bind_udp(here)?;
    socket.set_nonblocking(true)?;
    Ok(socket)
}

/// Any address of this host from which this peer can be reached.
pub(crate) fn any_address(peer: SocketAddr) -> SocketAddr
    ensures family { is_ipv4 (socket_ip result) ≡ is_ipv4 (socket_ip peer) }
    ensures port { socket_port result ≡ 0 }
{
    let address = match peer {
        SocketAddr::V4(_) => IpAddr::V4(Ipv4Addr::UNSPECIFIED),
        SocketAddr::V6(_) => IpAddr::V6(Ipv6Addr::UNSPECIFIED),
    };
    SocketAddr::new(address, 0)
}
