//! Legs over UDP sockets.
ghost use Rattle.std.specs.Prelude.{◌≡◌, ◌+◌, ◌≤◌, min, length, slice_get, Some, IfOk, IfSome, IsTrue, ◌↔◌};
ghost use Rattle.fax_gateway.specs.Wires.{greatest_count};

use crate::clock_pace::ClockPace;
use crate::watch::Watch;
use fax_gateway::{Leg, Wire, WireFault};
use fax_wires::repeat::{Bounds, LegState, LegWire, NoRoute, Peer, TimedWire};
use std::cell::Cell;
use std::io;
use std::io::ErrorKind;
use std::net::{SocketAddr, UdpSocket};
use std::rt::Clock;

/// How long after a call what still comes of it begins no other one, in milliseconds.
const SETTLING_MS: u64 = 3_000;

/// How long a wait for a call is at once, in milliseconds: while something is to be sent again, and else.
const BUSY_MS: i32 = 5;

const IDLE_MS: i32 = 1_000;

/// The most datagrams of others that a receive passes over.
const MOST_FOREIGN: u8 = 64;

/// The socket of a run, which does not wait, and what failed at it.
pub(crate) struct Port {
    socket: UdpSocket,
    /// How many sends and receives failed.
    count: Cell<u64>,
    /// What the last failure was.
    last: Cell<Option<ErrorKind>>,
}

impl Drop for Port {
    fn drop(self) {
        let Port {
            socket: _socket,
            count: _count,
            last: _last,
        } = self;
    }
}

impl Port {
    /// Nothing failed at this socket.
    pub(crate) fn new(socket: UdpSocket) -> Self
        ensures { result.socket ≡ socket }
    {
        Port {
            socket,
            count: Cell::new(0),
            last: Cell::new(None),
        }
    }

    /// The socket.
    pub(crate) fn socket(&self) -> &UdpSocket
        ensures { result.now ≡ self.now.socket }
    {
        &self.socket
    }

    /// One more send or receive failed.
    fn add(&self, error: &io::Error) {
        self.count.set(self.count.get().saturating_add(1));
        self.last.set(Some(error.kind()));
    }

    /// Tells the failures at this address, if there were any.
    pub(crate) fn tell(&self, watch: &Watch, address: &str) {
        if let Some(kind) = self.last.get() {
            let count = self.count.get();
            watch.tell_trouble(format_args!(
                "{address}: {count} sends or receives failed, the last: {kind}"
            ));
        }
    }
}

/// A leg over a socket, with one peer. What others send is dropped.
pub(crate) struct UdpLeg<'a> {
    port: &'a Port,
    peer: SocketAddr,
    /// How many receives and sends failed.
    failures: u64,
}

impl Drop for UdpLeg<'_> {
    fn drop(self) {
        let UdpLeg {
            port: _port,
            peer: _peer,
            failures: _failures,
        } = self;
    }
}

impl<'a> UdpLeg<'a> {
    /// A leg over this socket, to this peer.
    pub(crate) fn new(port: &'a Port, peer: SocketAddr) -> Self
        ensures { result.failures ≡ 0 }
    {
        UdpLeg {
            port,
            peer,
            failures: 0,
        }
    }

    /// Receives a datagram of the peer into the front of the buffer, and says how many octets it has. `None`: nothing of it has
    /// come.
    fn receive_of_peer(&self, buffer: &mut [u8]) -> io::Result<Option<usize>>
        ensures { IfOk result (λ came. IfSome came (λ count. count ≤ length buffer.new)) }
    {
        for _ in 0..MOST_FOREIGN {
            match self.port.socket.recv_from(buffer) {
                Ok((count, from)) if from == self.peer => return Ok(Some(count)),
                Ok(_) => {}
                Err(error) if error.kind() == ErrorKind::WouldBlock => return Ok(None),
                Err(error) => return Err(error),
            }
        }
        Ok(None)
    }

    /// One more call failed.
    fn fail(&mut self, error: &io::Error) -> WireFault
        ensures { self.new.failures ≡ min (self.old.failures + 1) greatest_count }
    {
        self.port.add(error);
        self.failures = self.failures.saturating_add(1);
        WireFault
    }
}

/// What came and what was sent is not told of sockets. Both legs are the one.
impl Wire for UdpLeg<'_> {
    ghost use Rattle.std.specs.Prelude.{None};

    ghost known = { λ leg. record { failures = leg.failures; received = None; sent = None } };

    fn receive(&mut self, _leg: Leg, buffer: &mut [u8]) -> Result<Option<usize>, WireFault> {
        match self.receive_of_peer(buffer) {
            Ok(came) => Ok(came),
            Err(error) => Err(self.fail(&error)),
        }
    }

    fn send(&mut self, _leg: Leg, octets: &[u8]) -> Result<(), WireFault> {
        match self.port.socket.send_to(octets, self.peer) {
            Ok(_) => Ok(()),
            Err(error) => Err(self.fail(&error)),
        }
    }
}

/// It has one peer, for ever, and takes no word of another.
impl LegWire for UdpLeg<'_> {
    ghost use Rattle.std.specs.Prelude.{refl};
    ghost use Rattle.fax_wires.specs.repeat.Telling.{hears_none};

    ghost keeps_on_receive = { λ at old new made. hears_none at };

    ghost keeps_on_send = { λ at octets is_sent old new made. refl };

    fn set_peer(&mut self, _leg: Leg, _peer: Peer) -> Result<(), NoRoute> {
        Err(NoRoute)
    }

    fn cut(&mut self, _leg: Leg) {}

    fn begin(&mut self, _leg: Leg, _bounds: Bounds) {}

    fn hang_up(&mut self, _leg: Leg) {}

    fn settle(&mut self, _leg: Leg, _is_on: bool) {}

    fn leg_state(&self, _leg: Leg) -> LegState {
        LegState {
            has_peer: false,
            is_fixed: false,
            is_heard: false,
            is_gone: false,
        }
    }
}

/// Who calls, and how many octets the first datagram of the call has.
#[derive(Clone, Copy, PartialEq, Eq)]
pub(crate) struct Call {
    pub peer: SocketAddr,
    pub octets: usize,
}

/// A call that is over: its wire, which may have something to send again, and its peer.
#[derive(Drop)]
pub(crate) struct LastCall<W: TimedWire + Drop> {
    pub wire: W,
    pub peer: SocketAddr,
}

/// Awaits the first datagram of a call, while what is left of the last call is sent again. It stands at the front of the
/// buffer. Within 3 s after the last call a datagram of the same peer begins another call only if it is numbered as the first
/// of one. `None`: there is no time any more.
pub(crate) fn await_call<W: TimedWire + Drop, H: Clock>(
    port: &Port,
    pace: &mut ClockPace<'_, H>,
    last: &mut Option<LastCall<W>>,
    buffer: &mut [u8],
) -> Option<Call>
    ensures { IfSome result (λ call. call.octets ≤ length buffer.new) }
{
    let settled = pace.wait_for(0)?.saturating_add(SETTLING_MS);
    for _ in 0..u64::MAX {
        let now = pace.wait_for(wait_of(last))?;
        if let Some(last) = last {
            last.wire.go_on(now);
        }
        let Ok((octets, peer)) = port.socket.recv_from(buffer) else {
            continue;
        };
        if now >= settled || !is_peer_of(last, peer) || is_numbered_first(&buffer[..octets]) {
            return Some(Call { peer, octets });
        }
    }
    None
}

/// How long the next wait is, in milliseconds.
fn wait_of<W: TimedWire + Drop>(last: &Option<LastCall<W>>) -> i32 {
    match last {
        Some(last) if last.wire.next_due().is_some() => BUSY_MS,
        _ => IDLE_MS,
    }
}

/// Whether the last call was with this peer.
fn is_peer_of<W: TimedWire + Drop>(last: &Option<LastCall<W>>, peer: SocketAddr) -> bool {
    match last {
        Some(last) => last.peer == peer,
        None => false,
    }
}

/// Whether a datagram is numbered as the first of a call (ITU-T T.38, annex C: the number is its first two octets).
fn is_numbered_first(octets: &[u8]) -> bool
    ensures { IsTrue result
        ↔ ((slice_get octets.now 0 ≡ Some 0) × (slice_get octets.now 1 ≡ Some 0)) }
{
    octets.first() == Some(&0) && octets.get(1) == Some(&0)
}

/// Sends again what is left of a call, until nothing of it is to be sent again, or there is no time any more. What comes is
/// dropped.
pub(crate) fn keep_repeating<W: TimedWire + Drop, H: Clock>(
    pace: &mut ClockPace<'_, H>,
    wire: &mut W,
) {
    let mut buffer = [0; 1];
    for _ in 0..u64::MAX {
        if wire.next_due().is_none() {
            return;
        }
        let Some(now) = pace.wait_for(BUSY_MS) else {
            return;
        };
        wire.go_on(now);
        let _ = wire.receive(Leg::Calling, &mut buffer);
    }
}
