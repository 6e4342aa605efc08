//! The system's own sockets.
ghost use Rattle.std.specs.Prelude.{◌≤◌};

use crate::carrier::Carrier;
use libc::close;
use libc::net::{
    _SS_SIZE, AF_UNIX, MSG_NOSIGNAL, SO_SNDTIMEO, SOCK_CLOEXEC, SOCK_DGRAM, SOL_SOCKET, sendto,
    setsockopt, socket,
};
use std::io;
use std::net::Net;

/// Whoever does not take a datagram is waited for so many seconds at most.
const MOST_SECONDS: i64 = 1;

/// The system's own sockets, a new one for each datagram. They tell nothing.
#[derive(Drop)]
pub struct LocalSockets<'n, N: Net> {
    /// What may open sockets.
    pub net: &'n N,
}

impl<N: Net> Carrier for LocalSockets<'_, N> {
    fn carry(&mut self, address: &[u8], octets: &[u8]) -> io::Result<()> {
        let length = address.len();
        if length > _SS_SIZE {
            return Err(io::Error::other("the address is too long"));
        }
        let mut whole = [0u8; _SS_SIZE];
        whole[..length].copy_from_slice(address);
        let descriptor = unsafe { socket(AF_UNIX, SOCK_DGRAM | SOCK_CLOEXEC, 0) };
        if descriptor < 0 {
            return Err(last_error());
        }
        let sent = send_over(descriptor, &whole, length as u32, octets);
        close(descriptor);
        sent
    }
}

/// Sends octets over a socket, to the address that stands in so many of these octets.
fn send_over(
    descriptor: i32,
    address: &[u8; _SS_SIZE],
    length: u32,
    octets: &[u8],
) -> io::Result<()>
    requires { length ≤ 128 }
{
    let mut longest = [0u8; 16];
    longest[..8].copy_from_slice(&MOST_SECONDS.to_ne_bytes());
    if unsafe { setsockopt(descriptor, SOL_SOCKET, SO_SNDTIMEO, &longest, 16) } < 0 {
        return Err(last_error());
    }
    if unsafe { sendto(descriptor, octets, MSG_NOSIGNAL, address, length) } < 0 {
        return Err(last_error());
    }
    Ok(())
}

/// Why the last call of the system failed.
fn last_error() -> io::Error {
    io::Error::from_raw_os_error(os::errno())
}
