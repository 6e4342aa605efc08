//! A page and a wire over sockets of the loopback interface, and a page of text for lines over such sockets.
use fax_command::{Output, PageOptions, StdSink, StdSource, run_page};
use fax_gateway::{Leg, Settings, Wire, WireFault};
use fax_loop::{Loopback, SocketLines, UdpWire, run_loop};
use fax_pagestore::{Coding, Format};
use fax_runcodes::Width;
use std::alloc::{AllocError, Global};
use std::io;
use std::net::{IpAddr, Ipv4Addr, Net, SocketAddr, UdpSocket};
use std::test::Fail;

#[test]
fn a_page_over_sockets(rt: HostRuntime) {
    let page: &[u8] = b"0014d9a8008008008008008008";
    let mut text = Vec::new(rt.alloc());
    let mut source = StdSource::new(page);
    let mut sink = StdSink::new(&mut text);
    let lines = SocketLines::over(Loopback::of(&rt));
    let status = run_loop(
        &lines,
        rt.alloc(),
        &mut source,
        &mut sink,
        Settings::default(),
    );
    let wanted = b"job 0 1728 standard 1 1 Delivered\n1728\n".as_slice();
    assert!(rt; status == 0 && text.as_slice() == wanted);
}

/// Strokes of black on white, over 100 picture elements.
const STROKES: &str = " 3 17 5 15 2 18 4 16 6 14";

/// Adds the line of a row: a margin, so many times the strokes, and what ends the row.
fn push_line(lines: &mut Vec<u8>, margin: &str, times: u8, end: &str) -> Result<(), AllocError> {
    lines.extend_from_slice(margin.as_bytes())?;
    for _ in 0..times {
        lines.extend_from_slice(STROKES.as_bytes())?;
    }
    lines.extend_from_slice(end.as_bytes())
}

/// The lines of twice so many rows of 1,728 elements, of strokes as text has them.
pub(crate) fn lines_of_text(alloc: Global, twice: u32) -> Result<Vec<u8>, AllocError> {
    let mut lines = Vec::new(alloc);
    for _ in 0..twice {
        push_line(&mut lines, "128", 15, " 8 92\n")?;
        push_line(&mut lines, "60", 16, " 8 60\n")?;
    }
    Ok(lines)
}

/// The exit status and the hex text of the page that these lines tell, in one-dimensional lines.
pub(crate) fn page_of(alloc: Global, lines: &[u8]) -> (u8, Vec<u8>) {
    let options = PageOptions {
        format: Format {
            width: Width::W1728,
            fine: false,
        },
        coding: Coding::Mh,
        least_bits: 0,
        output: Output::Octets,
    };
    let mut page = Vec::new(alloc);
    let mut source = StdSource::new(lines);
    let mut sink = StdSink::new(&mut page);
    let status = run_page(alloc, &mut source, &mut sink, options);
    (status, page)
}

/// A socket of the loopback interface that does not wait.
fn loopback_socket<R: Net>(net: &R) -> io::Result<UdpSocket> {
    let socket = net.bind_udp(SocketAddr::new(IpAddr::V4(Ipv4Addr::LOCALHOST), 0))?;
    socket.set_nonblocking(true)?;
    Ok(socket)
}

/// Two such sockets, each of which is the other's only peer.
pub(crate) fn socket_pair<R: Net>(net: &R) -> io::Result<(UdpSocket, UdpSocket)> {
    let here = loopback_socket(net)?;
    let there = loopback_socket(net)?;
    here.connect(there.local_addr()?)?;
    there.connect(here.local_addr()?)?;
    Ok((here, there))
}

/// Whether the next receive on a leg brings these octets.
fn gives(wire: &mut UdpWire<UdpSocket>, leg: Leg, octets: &[u8]) -> bool {
    let mut buffer = [0; 100];
    match wire.receive(leg, &mut buffer) {
        Ok(Some(count)) => is_in_front(&buffer, count, octets),
        _ => false,
    }
}

/// Whether it brings none.
fn gives_none(wire: &mut UdpWire<UdpSocket>, leg: Leg) -> bool {
    wire.receive(leg, &mut [0; 100]) == Ok(None)
}

/// Whether these octets come to a socket.
fn comes_to(socket: &UdpSocket, octets: &[u8]) -> io::Result<bool> {
    let mut buffer = [0; 100];
    let count = socket.recv(&mut buffer)?;
    Ok(is_in_front(&buffer, count, octets))
}

/// Whether so many octets in front of others are these.
fn is_in_front(all: &[u8], count: usize, octets: &[u8]) -> bool {
    match all.get(..count) {
        Some(front) => front == octets,
        None => false,
    }
}

/// Whether datagrams go over a wire on their legs, to these peers and from them.
fn goes_both_ways(
    wire: &mut UdpWire<UdpSocket>,
    caller: &UdpSocket,
    answerer: &UdpSocket,
) -> io::Result<bool> {
    let begins_still = gives_none(wire, Leg::Calling);
    caller.send(b"first")?;
    caller.send(b"")?;
    answerer.send(b"third")?;
    let calling_gives = gives(wire, Leg::Calling, b"first")
        && gives(wire, Leg::Calling, b"")
        && gives_none(wire, Leg::Calling);
    let called_gives = gives(wire, Leg::Called, b"third");
    let is_sent = wire.send(Leg::Called, b"back") == Ok(()) && comes_to(answerer, b"back")?;
    Ok(begins_still && calling_gives && called_gives && is_sent)
}

/// Whether a datagram of the called leg is sent, and the system tells of it at the next receive.
fn is_told_of_a_loss(wire: &mut UdpWire<UdpSocket>) -> bool {
    wire.send(Leg::Called, b"lost") == Ok(())
        && wire.receive(Leg::Called, &mut [0; 100]) == Err(WireFault)
}

/// Datagrams go over a wire on their legs; a receive that fails is counted.
#[test]
fn a_wire_over_sockets(rt: HostRuntime) -> Result<(), Fail> {
    let (calling, caller) = socket_pair(&rt)?;
    let (called, answerer) = socket_pair(&rt)?;
    let mut wire = UdpWire::new(calling, called);
    let goes = goes_both_ways(&mut wire, &caller, &answerer);
    // where the peer is gone, the system tells it of the next datagram
    drop(answerer);
    let is_told = is_told_of_a_loss(&mut wire);
    assert!(rt; goes? && is_told);
    Ok(())
}
