//! How datagrams are sent.
ghost use Rattle.std.specs.Prelude.{◌≡◌, ◌≤◌, length, option_map};
ghost use Rattle.fax_udptl.specs.Datagrams.{datagram_of};
ghost use Rattle.fax_legs.specs.Bounding.{cut_as, sent_as};
ghost use Rattle.fax_legs.specs.Sockets.{handed};

use crate::bounding::{Limits, cut};
use crate::socket::DatagramSocket;
use std::io;

/// How many octets datagrams mostly have at most.
const FEW_OCTETS: usize = 1500;

/// No datagram of UDP has more.
const MOST_OCTETS: usize = 65_536;

/// Sends a datagram as the limits have it, where the socket is connected to.
pub(crate) fn send_bounded<S: DatagramSocket>(
    socket: &mut S,
    limits: Limits,
    octets: &[u8],
) -> io::Result<usize>
    ensures { S.known socket.new
        ≡ option_map (handed (sent_as limits octets.now)) (S.known socket.old) }
{
    if octets.len() <= FEW_OCTETS {
        send_few(socket, limits, octets)
    } else if octets.len() <= MOST_OCTETS {
        send_many(socket, limits, octets)
    } else {
        socket.send_octets(octets)
    }
}

/// The same of one of few octets.
fn send_few<S: DatagramSocket>(socket: &mut S, limits: Limits, octets: &[u8]) -> io::Result<usize>
    requires { length octets.now ≤ 1500 }
    ensures { S.known socket.new ≡ option_map
        (handed (cut_as limits octets.now (datagram_of octets.now))) (S.known socket.old) }
{
    let mut room = [0u8; FEW_OCTETS];
    match cut(limits, octets, &mut room) {
        Some(end) => socket.send_octets(&room[..end]),
        None => socket.send_octets(octets),
    }
}

/// The same of any. It is a function of its own, so that others do not pay for its buffer.
#[cold]
#[inline(never)]
fn send_many<S: DatagramSocket>(socket: &mut S, limits: Limits, octets: &[u8]) -> io::Result<usize>
    requires { length octets.now ≤ 65536 }
    ensures { S.known socket.new ≡ option_map
        (handed (cut_as limits octets.now (datagram_of octets.now))) (S.known socket.old) }
{
    let mut room = [0u8; MOST_OCTETS];
    match cut(limits, octets, &mut room) {
        Some(end) => socket.send_octets(&room[..end]),
        None => socket.send_octets(octets),
    }
}
