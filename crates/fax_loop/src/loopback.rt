//! UDP sockets of the loopback interface.
use crate::opens_pairs::OpensPairs;
use std::io;
use std::net::{IpAddr, Ipv4Addr, Net, SocketAddr, UdpSocket};

/// The loopback interface of a network.
#[derive(Drop)]
pub struct Loopback<'n, N: Net> {
    net: &'n N,
}

impl<'n, N: Net> Loopback<'n, N> {
    /// That of this network.
    pub fn of(net: &'n N) -> Self {
        Loopback { net }
    }
}

impl<'n, N: Net> OpensPairs for Loopback<'n, N> {
    type Socket = UdpSocket;

    fn pair(&self) -> io::Result<(UdpSocket, UdpSocket)> {
        let here = loopback_socket(self.net)?;
        let there = loopback_socket(self.net)?;
        connect(&here, &there)?;
        connect(&there, &here)?;
        Ok((here, there))
    }
}

/// A socket of the loopback interface that does not wait.
fn loopback_socket<N: Net>(net: &N) -> io::Result<UdpSocket> {
    let socket = net.bind_udp(SocketAddr::new(IpAddr::V4(Ipv4Addr::LOCALHOST), 0))?;
    socket.set_nonblocking(true)?;
    Ok(socket)
}

/// Makes a socket the only peer of another.
fn connect(socket: &UdpSocket, peer: &UdpSocket) -> io::Result<()> {
    socket.connect(peer.local_addr()?)
}
