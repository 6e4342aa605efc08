//! Terminals, to which the other machine of a call is played as time goes on.
use crate::loops::socket_pair;
use fax_gateway::Settings;
use fax_jobs::{Job, Outcome};
use fax_legs::{LegSocket, UdpWire};
use fax_pagestore::{Coding, Format, PackedRows, Page, RowStore, read_page};
use fax_runcodes::Width;
use fax_terminal::{Pace, PageStore, SentJob, StoreFault, WireEnd, receive_call, send_job};
use fax_wires::repeat::{RepeatPolicy, RepeatingWire};
use std::alloc::Global;
use std::io;
use std::net::{Net, UdpSocket};
use std::test::Fail;

/// What the other machine sends: before which turn, counted from 0, the octets of the datagram, and how many zeros come after these.
type Coming = (u64, &'static [u8], usize);

/// A machine sends a page of one white row: DCS and a training check, the image and an EOP, and a DCN (ITU-T T.30, figure 5-2).
const CALLER: &[Coming] = &[
    (
        4,
        b"\x00\x00\x0c\xc0\x02\x80\x00\x05\xff\xc8\xc1\x00\x40\x00\x40\x00\x00",
        0,
    ),
    (4, b"\x00\x01\x01\x08\x00\x00", 0),
    (4, b"\x00\x02\x81\x31\xc2\x01\xf0\x01\x2b", 302),
    (6, b"\x00\x03\x01\x08\x00\x00", 0),
    (
        6,
        b"\x00\x04\x12\xc2\x01\xf0\x00\x0c\x00\x14\xd9\xa8\x00\x80\x08\x00\x80\x08\x00\x80\x08\x00\x00",
        0,
    ),
    (6, b"\x00\x05\x01\x06\x00\x00", 0),
    (
        6,
        b"\x00\x06\x09\xc0\x02\x80\x00\x02\xff\xc8\xf4\x40\x00\x00",
        0,
    ),
    (9, b"\x00\x07\x01\x06\x00\x00", 0),
    (
        9,
        b"\x00\x08\x09\xc0\x02\x80\x00\x02\xff\xc8\xdf\x40\x00\x00",
        0,
    ),
];

/// A machine takes a page: a DIS, a CFR, an MCF (figure 5-1).
const CALLED: &[Coming] = &[
    (
        2,
        b"\x00\x00\x0c\xc0\x02\x80\x00\x05\xff\xc8\x01\x00\x40\x00\x40\x00\x00",
        0,
    ),
    (
        43,
        b"\x00\x01\x09\xc0\x02\x80\x00\x02\xff\xc8\x21\x40\x00\x00",
        0,
    ),
    (
        48,
        b"\x00\x02\x09\xc0\x02\x80\x00\x02\xff\xc8\x31\x40\x00\x00",
        0,
    ),
];

/// That page, coded in one dimension: EOL, a row, and six EOLs (ITU-T T.4, 4.1).
const PAGE: [u8; 13] = [
    0x00, 0x14, 0xd9, 0xa8, 0x00, 0x80, 0x08, 0x00, 0x80, 0x08, 0x00, 0x80, 0x08,
];

const FORMAT: Format = Format {
    width: Width::W1728,
    fine: false,
};

/// Time that goes on by 40 ms a turn. Before a turn the other machine sends what it has to.
#[derive(Drop)]
struct Script<'a> {
    socket: &'a UdpSocket,
    comes: &'static [Coming],
    turn: u64,
    delivered: u32,
}

impl<'a> Script<'a> {
    fn new(socket: &'a UdpSocket, comes: &'static [Coming]) -> Self {
        Script {
            socket,
            comes,
            turn: 0,
            delivered: 0,
        }
    }
}

impl Pace for Script<'_> {
    fn wait(&mut self) -> Option<u64> {
        let mut datagram = [0; 400];
        for (at, octets, zeros) in self.comes {
            if *at == self.turn {
                let length = octets.len().saturating_add(*zeros).min(400);
                let front = octets.len().min(length);
                datagram[..front].copy_from_slice(&octets[..front]);
                datagram[front..].fill(0);
                self.socket.send(&datagram[..length]).ok()?;
            }
        }
        let moment = self.turn.saturating_mul(40);
        self.turn = self.turn.saturating_add(1);
        Some(moment)
    }

    fn tell(&mut self, delivered: u32) {
        self.delivered = delivered;
    }
}

/// How many pages were kept, and how many rows the last of them has.
#[derive(Drop)]
struct Counts {
    pages: u32,
    rows: u32,
}

impl PageStore<PackedRows> for Counts {
    ghost keeps = { λ page is_kept old new. Unit {0} };

    fn keep(&mut self, page: &Page<PackedRows>) -> Result<(), StoreFault> {
        self.pages = self.pages.saturating_add(1);
        self.rows = page.rows().len();
        Ok(())
    }
}

/// An end over sockets of the loopback interface, whose peer is this other socket.
fn open_end<R: Net>(
    net: &R,
) -> io::Result<(WireEnd<RepeatingWire<UdpWire<UdpSocket>>>, UdpSocket)> {
    let (here, there) = socket_pair(net)?;
    let (beside, _) = socket_pair(net)?;
    let mut leg = LegSocket::new(here, 3)?;
    leg.fix_peer(there.local_addr()?)?;
    let wire = UdpWire::new(leg, LegSocket::new(beside, 3)?);
    let end = WireEnd {
        wire: RepeatingWire::new(wire, RepeatPolicy::Never),
    };
    Ok((end, there))
}

/// How many pages are kept of the call that is played, and how many rows.
fn receive<R: Net>(net: &R, alloc: Global) -> io::Result<Option<(u32, u32)>> {
    let (mut end, socket) = open_end(net)?;
    let mut pace = Script::new(&socket, CALLER);
    let mut counts = Counts { pages: 0, rows: 0 };
    let settings = Settings::default();
    // an octet is no datagram: it rings, and no more
    match receive_call(alloc, &mut pace, &mut end, &[0], &mut counts, settings) {
        Ok(()) => Ok(Some((counts.pages, counts.rows))),
        Err(_) => Ok(None),
    }
}

#[test]
fn a_terminal_takes_a_page(rt: HostRuntime) -> Result<(), Fail> {
    assert!(rt; receive(&rt, rt.alloc())? == Some((1, 1)));
    Ok(())
}

/// What is told of the call that is played, and of how many pages as it went on.
fn send<R: Net>(net: &R, alloc: Global) -> io::Result<Option<(SentJob, u32)>> {
    let (mut end, socket) = open_end(net)?;
    let mut pace = Script::new(&socket, CALLED);
    let Some(job) = job_of(alloc) else {
        return Ok(None);
    };
    match send_job(alloc, &mut pace, &mut end, &job, Settings::default()) {
        Ok(sent) => Ok(Some((sent, pace.delivered))),
        Err(_) => Ok(None),
    }
}

/// A job of that page.
fn job_of(alloc: Global) -> Option<Job<PackedRows>> {
    let page = read_page(alloc, &PAGE, FORMAT, Coding::Mh).ok()?;
    Job::of_page(alloc, 0, page).ok()
}

#[test]
fn a_terminal_sends_a_page(rt: HostRuntime) -> Result<(), Fail> {
    let delivered = SentJob {
        outcome: Outcome::Delivered,
        delivered: 1,
    };
    assert!(rt; send(&rt, rt.alloc())? == Some((delivered, 1)));
    Ok(())
}
