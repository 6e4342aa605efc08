//! The socket of a leg.
ghost use Rattle.std.specs.Prelude.{◌≡◌, ◌≤◌, ◌||◌, Ok, None, Some, false, true, is_ok, is_some, length, option_map, IfOk, IfSome, IsOk, IsSome, OnErr, OnOk};
ghost use Rattle.fax_wires.specs.repeat.Peers.{bounded, cut_off, gone, said, settled, state_of};
ghost use Rattle.fax_legs.specs.Counts.{one_not_received, one_received};
ghost use Rattle.fax_legs.specs.HangUps.{HandsOut};
ghost use Rattle.fax_legs.specs.Handing.{may_have, nothing_handed};
ghost use Rattle.fax_legs.specs.Legs.{HearsSystem, Receives, at_address, call_settled, fixed, gone_call, new_leg, no_call, sent_by, sent_to};
ghost use Rattle.fax_legs.specs.Sockets.{connected};
ghost use Rattle.fax_legs.specs.declared.hang_up.Standing.TheVariants as standings;

use crate::handing::Handed;
use crate::hang_up::GOODBYE_OCTETS;
use crate::leg_peer::LegPeer;
use crate::sending::send_bounded;
use crate::socket::DatagramSocket;
use crate::tap::Tap;
use fax_bits::Octets;
use fax_wires::repeat::{Bounds, LegState, Peer};
use std::alloc::Global;
use std::cell::Cell;
use std::io;
use std::io::ErrorKind;
use std::marker::Model;
use std::net::SocketAddr;
use std::os::fd::RawFd;

/// The most datagrams that are dropped where a leg gets another peer: more than a socket keeps.
const MOST_DROPPED: u16 = 4096;

/// Where so many octets were received in a turn, the next datagram waits for the next turn: sixteen of an honest peer have fewer,
/// and what a turn costs is bounded, however long datagrams are.
const MOST_RECEIVED: usize = 16_384;

/// What went over a leg. Counts stop at the greatest `u64`.
#[derive(Clone, Copy, PartialEq, Eq, Default)]
pub struct LegCounts {
    /// Datagrams that came.
    pub received: u64,
    /// Datagrams that were handed to the system, repeats with them.
    pub sent: u64,
    pub receive_failures: u64,
    pub send_failures: u64,
    /// Datagrams that were dropped, since no peer was known, or none was when they were handed over first.
    pub unsent: u64,
}

/// The socket of a leg. It is connected to its peer once that is known, and does not wait.
pub struct LegSocket<S: DatagramSocket + Drop> {
    socket: S,
    peer: LegPeer,
    /// What it was handed over in the call that is on.
    handed: Handed,
    /// How many packets before its own a datagram has at most, where nothing else is said.
    redundancy: u8,
    /// Whether the system tells when a datagram comes.
    is_watched: Cell<bool>,
    /// Whether a datagram may have come that was not received. Where the leg is not watched one always may.
    may_have_come: Cell<bool>,
    /// How many octets were received in the turn that is on.
    received: usize,
    counts: LegCounts,
    /// What it hands out, where that can be tapped.
    tap: Option<Tap>,
}

impl<S: DatagramSocket + Drop> Drop for LegSocket<S> {
    fn drop(self) {
        let LegSocket {
            socket: _socket,
            peer: _peer,
            handed: _handed,
            redundancy: _redundancy,
            is_watched: _is_watched,
            may_have_come: _may_have_come,
            received: _received,
            counts: _counts,
            tap: _tap,
        } = self;
    }
}

/// Contracts see all but whether the system is asked at all, and what is tapped.
impl<S: DatagramSocket + Drop> Model for LegSocket<S> {
    ghost use Rattle.fax_legs.specs.Legs.{LegValue, peer_of};
    ghost use Rattle.fax_legs.specs.Sockets.{IsConnected};

    ghost Value = { LegValue };

    ghost view = { λ leg.
        record {
          peer = peer_of leg.peer;
          call = leg.peer.call;
          handed = leg.handed;
          redundancy = leg.redundancy;
          counts = leg.counts;
          socket = S.known leg.socket;
        } };

    ghost invariant = { λ leg. IsConnected leg.peer.address (S.known leg.socket) };
}

impl<S: DatagramSocket + Drop> LegSocket<S> {
    /// A leg over this socket, whose peer is not known, of a line whose datagrams have at most so many packets before their
    /// own. It waits no more. An `Err` is that of the system.
    pub fn new(socket: S, redundancy: u8) -> io::Result<Self>
        ensures { IfOk result (λ leg. leg ≡ new_leg redundancy (S.known socket)) }
    {
        let mut socket = socket;
        socket.wait_not()?;
        Ok(LegSocket {
            socket,
            peer: LegPeer::new(),
            handed: Handed::new(),
            redundancy,
            is_watched: Cell::new(false),
            may_have_come: Cell::new(true),
            received: 0,
            counts: LegCounts::default(),
            tap: None,
        })
    }

    /// From now on it can be tapped.
    pub fn add_tap(&mut self, alloc: Global)
        ensures { self.new ≡ self.old }
    {
        self.tap = Some(Tap::new(alloc));
    }

    /// From now on datagrams go to this peer and come from it alone; those that came before and were not received are
    /// dropped. One without an address is the sender of the first that comes; until then none is sent. An `Err` is that of
    /// the system, and the peer is as before.
    pub fn set_peer(&mut self, peer: Peer) -> io::Result<()>
        ensures ok { OnOk result (self.new ≡ record self.old {
          peer = said peer self.old.peer;
          socket = option_map (connected peer.address) self.old.socket;
        }) }
        ensures err { OnErr result (self.new ≡ self.old) }
    {
        turn_to(&mut self.socket, peer.address)?;
        self.peer.set(peer);
        self.may_have_come.set(true);
        Ok(())
    }

    /// The same of the peer that its line has for ever: it is not cut.
    pub fn fix_peer(&mut self, address: SocketAddr) -> io::Result<()>
        ensures ok { OnOk result (self.new
            ≡ record self.old {
              peer = fixed (said (at_address address) self.old.peer);
              socket = option_map (connected (Some address)) self.old.socket;
            }) }
        ensures err { OnErr result (self.new ≡ self.old) }
    {
        self.set_peer(Peer {
            address: Some(address),
            bounds: Bounds::default(),
        })?;
        self.peer.fix();
        Ok(())
    }

    /// From now on it has no peer, but where its line has one for ever: what it is to send is dropped, and nothing that comes is
    /// heard.
    pub fn cut(&mut self)
        ensures { self.new ≡ record self.old { peer = cut_off self.old.peer } }
    {
        self.peer.cut();
    }

    /// A call begins, whose datagrams are bounded so. Nothing is known of its peer's call, and it was handed nothing yet.
    pub fn begin(&mut self, bounds: Bounds)
        ensures { self.new ≡ record self.old
            { peer = bounded bounds self.old.peer; call = no_call; handed = nothing_handed } }
    {
        self.peer.begin(bounds);
        self.handed = Handed::new();
    }

    /// The peer's call is gone: from now on a datagram with a DCN is received once a turn, as if it had come, until the call of
    /// the leg is over.
    pub fn hang_up(&mut self)
        ensures { self.new
            ≡ record self.old { peer = gone self.old.peer; call = gone_call self.old.call } }
    {
        self.peer.hang_up();
    }

    /// A turn begins, and the call of the leg is on or not. Where it is, a DCN that was handed out is handed out once
    /// more; else all is forgotten that was known of the peer's call.
    pub fn settle(&mut self, is_on: bool)
        ensures { self.new ≡ record self.old
            { peer = settled is_on self.old.peer; call = call_settled is_on self.old.call } }
    {
        self.peer.settle(is_on);
        self.received = 0;
        if let Some(tap) = &mut self.tap {
            tap.begin_turn();
        }
    }

    /// Its peer, where that is known.
    pub fn peer(&self) -> Option<SocketAddr>
        ensures { result ≡ self.now.peer.address }
    {
        self.peer.address
    }

    /// Whether its peer is known.
    pub fn has_peer(&self) -> bool
        ensures { result ≡ is_some self.now.peer.address }
    {
        self.peer.address.is_some()
    }

    /// Whether its line has the peer for ever.
    pub fn is_fixed(&self) -> bool
        ensures { result ≡ self.now.peer.is_fixed }
    {
        self.peer.is_fixed
    }

    /// Whether the peer's call was said to be gone.
    pub fn is_hung_up(&self) -> bool
        ensures { result ≡ self.now.peer.is_gone }
    {
        self.peer.call.is_gone()
    }

    /// Whether a datagram came in the call that is on.
    pub fn is_heard(&self) -> bool
        ensures { result ≡ self.now.peer.is_heard }
    {
        self.peer.is_heard
    }

    /// What is known of its peer.
    pub fn state(&self) -> LegState
        ensures { result ≡ state_of (Some self.now.peer) }
    {
        LegState {
            has_peer: self.may_hear(),
            is_fixed: self.peer.is_fixed,
            is_heard: self.peer.is_heard,
            is_gone: self.peer.call.is_gone(),
        }
    }

    /// What went over it.
    pub fn counts(&self) -> LegCounts
        ensures { result ≡ self.now.counts }
    {
        self.counts
    }

    /// The descriptor of the socket.
    pub fn descriptor(&self) -> RawFd {
        self.socket.descriptor()
    }

    /// From now on the system tells when a datagram comes, or no more: where it does the leg is woken then.
    pub fn set_watched(&self, is_watched: bool) {
        self.is_watched.set(is_watched);
        self.wake();
    }

    /// A datagram may have come.
    pub fn wake(&self) {
        self.may_have_come.set(true);
    }

    /// From now on the datagrams that it hands out in a turn are copied, or no more; never those of a leg that cannot be tapped.
    pub fn set_tapped(&self, is_tapped: bool) {
        if let Some(tap) = &self.tap {
            tap.set_on(is_tapped);
        }
    }

    /// The datagrams that it handed out since the last turn began, in their order, where it was tapped all the time. `None`: memory was
    /// refused for one of them, or it cannot be tapped.
    pub fn tapped(&self) -> Option<&[Octets]> {
        match &self.tap {
            Some(tap) => tap.datagrams(),
            None => None,
        }
    }

    /// Whether a receive may bring something: one that has come, or a DCN where the peer's call is gone.
    pub fn asks(&self) -> bool
        ensures gone { self.now.peer.is_gone ≡ true → result ≡ true }
        ensures nobody { self.now.peer.is_gone ≡ false
            → self.now.peer.address ≡ None → self.now.peer.learns ≡ false → result ≡ false }
    {
        self.is_hung_up() || (self.may_hear() && self.may_have_come.get())
    }

    /// Whether there is a peer to hear, or one to learn.
    fn may_hear(&self) -> bool
        ensures { result ≡ (is_some self.now.peer.address || self.now.peer.learns) }
    {
        self.peer.address.is_some() || self.peer.learns
    }

    /// Receives a datagram into the front of the buffer, and says how many octets it has: the one with a DCN where the peer's
    /// call is gone and none was received in this turn, and else one that has come. `None`: none has. While there is no peer,
    /// and none is to be learned, none comes.
    pub fn receive(&mut self, buffer: &mut [u8]) -> io::Result<Option<usize>>
        ensures fits { IfOk result (λ came. IfSome came (λ count. count ≤ length buffer.new)) }
        ensures makes { Receives self.old self.new }
        ensures goodbye { self.old.call.standing ≡ standings.Gone
            → 14 ≤ length buffer.old → result ≡ Ok (Some 14) }
        ensures handed { self.old.call.standing ≡ standings.Gone
            → 14 ≤ length buffer.old → HandsOut self.old.call self.new.call buffer.old buffer.new }
        ensures kept { self.old.call.standing ≡ standings.Gone
            → 14 ≤ length buffer.old → self.new ≡ record self.old { call = self.new.call } }
        ensures heard { (self.old.call.standing ≡ standings.Gone → ⊥)
            → HearsSystem buffer.new result self.old self.new }
        ensures deaf { (self.old.call.standing ≡ standings.Gone → ⊥)
            → self.old.peer.address ≡ None → self.old.peer.learns ≡ false → result ≡ Ok None }
    {
        if self.peer.call.hand_out(buffer) {
            self.note(buffer, GOODBYE_OCTETS);
            return Ok(Some(GOODBYE_OCTETS));
        }
        self.hear(buffer)
    }

    /// Receives a datagram that has come. Of a leg that is watched the system is asked only where one may have, and of any leg only
    /// until a turn has received enough. It is counted, or that it could not be received.
    fn hear(&mut self, buffer: &mut [u8]) -> io::Result<Option<usize>>
        ensures fits { IfOk result (λ came. IfSome came (λ count. count ≤ length buffer.new)) }
        ensures heard { HearsSystem buffer.new result self.old self.new }
        ensures deaf { self.old.peer.address ≡ None
            → self.old.peer.learns ≡ false → result ≡ Ok None }
    {
        if !self.may_have_come.get() || self.received >= MOST_RECEIVED {
            return Ok(None);
        }
        if self.peer.address.is_some() {
            self.hear_peer(buffer)
        } else if self.peer.learns {
            self.hear_first(buffer)
        } else {
            Ok(None)
        }
    }

    /// Receives one that has come from the peer.
    fn hear_peer(&mut self, buffer: &mut [u8]) -> io::Result<Option<usize>>
        requires { IsSome self.old.peer.address }
        ensures fits { IfOk result (λ came. IfSome came (λ count. count ≤ length buffer.new)) }
        ensures heard { HearsSystem buffer.new result self.old self.new }
    {
        match self.socket.receive_octets(buffer) {
            Ok(count) => {
                self.peer.hear(&buffer[..count]);
                self.note(buffer, count);
                self.count(count);
                Ok(Some(count))
            }
            Err(error) => self.hear_none(error),
        }
    }

    /// Receives the first one that has come, whose sender becomes the peer.
    fn hear_first(&mut self, buffer: &mut [u8]) -> io::Result<Option<usize>>
        requires nobody { self.old.peer.address ≡ None }
        requires learns { self.old.peer.learns ≡ true }
        ensures fits { IfOk result (λ came. IfSome came (λ count. count ≤ length buffer.new)) }
        ensures heard { HearsSystem buffer.new result self.old self.new }
    {
        match receive_first(&mut self.socket, buffer) {
            Ok((count, from)) => {
                self.peer.learn(from, &buffer[..count]);
                self.note(buffer, count);
                self.count(count);
                Ok(Some(count))
            }
            Err(error) => self.hear_none(error),
        }
    }

    /// A datagram of so many octets is handed out in the front of a buffer: it is copied, where the leg is tapped.
    fn note(&mut self, buffer: &[u8], octets: usize)
        ensures { self.new ≡ self.old }
    {
        if let Some(tap) = &mut self.tap {
            tap.note(&buffer[..octets.min(buffer.len())]);
        }
    }

    /// A datagram of so many octets was received.
    fn count(&mut self, octets: usize)
        ensures { self.new ≡ record self.old { counts = one_received self.old.counts } }
    {
        self.received = self.received.saturating_add(octets);
        self.counts.received = self.counts.received.saturating_add(1);
    }

    /// None has come, or it could not be received, which is counted.
    fn hear_none(&mut self, error: io::Error) -> io::Result<Option<usize>>
        ensures some { IfOk result (λ came. came ≡ None) }
        ensures none { OnOk result (self.new ≡ self.old) }
        ensures failed { OnErr result (self.new
            ≡ record self.old { counts = one_not_received self.old.counts }) }
    {
        if error.kind() == ErrorKind::WouldBlock {
            self.may_have_come.set(!self.is_watched.get());
            return Ok(None);
        }
        self.counts.receive_failures = self.counts.receive_failures.saturating_add(1);
        Err(error)
    }

    /// Sends a datagram, as the bounds have it, without the packets that were handed over while there was no peer. It is counted, or
    /// that it could not be sent. While there is no peer it is dropped, and where its own packet is one of those; that is counted.
    pub fn send(&mut self, octets: &[u8]) -> io::Result<()>
        ensures sent { self.new ≡ sent_by octets.now (is_ok result) self.old.peer.address self.old }
        ensures unsent { self.old.peer.address ≡ None → IsOk result }
        ensures missed { may_have self.old.handed octets.now ≡ None → IsOk result }
    {
        if self.peer.address.is_none() {
            self.handed.note(false, octets);
            self.counts.unsent = self.counts.unsent.saturating_add(1);
            return Ok(());
        }
        let before = self.handed.may_have(octets);
        self.handed.note(true, octets);
        self.send_after(before, octets)
    }

    /// Sends a datagram to the peer, with no more packets before its own than so many; where not its own either, it is dropped.
    fn send_after(&mut self, before: Option<u16>, octets: &[u8]) -> io::Result<()>
        requires { IsSome self.old.peer.address }
        ensures sent { IfSome self.old.peer.address
            (λ peer. self.new ≡ sent_to peer octets.now (is_ok result) before self.old) }
        ensures missed { before ≡ None → IsOk result }
    {
        let Some(before) = before else {
            self.counts.unsent = self.counts.unsent.saturating_add(1);
            return Ok(());
        };
        let limits = self.peer.limits(self.redundancy).at_most(before);
        match send_bounded(&mut self.socket, limits, octets) {
            Ok(_) => {
                self.counts.sent = self.counts.sent.saturating_add(1);
                Ok(())
            }
            Err(error) => {
                self.counts.send_failures = self.counts.send_failures.saturating_add(1);
                Err(error)
            }
        }
    }
}

/// From now on datagrams go to this address and come from it alone, or come from everywhere where there is none; those that came
/// before and were not received are dropped. An `Err`: it is connected as before.
fn turn_to<S: DatagramSocket>(socket: &mut S, address: Option<SocketAddr>) -> io::Result<()>
    ensures ok { OnOk result (S.known socket.new
        ≡ option_map (connected address) (S.known socket.old)) }
    ensures err { OnErr result (S.known socket.new ≡ S.known socket.old) }
{
    match address {
        Some(address) => socket.connect_to(address)?,
        None => socket.disconnect()?,
    }
    drop_waiting(socket);
    Ok(())
}

/// Drops what came and was not received.
fn drop_waiting<S: DatagramSocket>(socket: &mut S)
    ensures { S.known socket.new ≡ S.known socket.old }
{
    let mut octets = [0u8; 1];
    for _ in 0..MOST_DROPPED {
        match socket.receive_octets(&mut octets) {
            Err(error) if error.kind() == ErrorKind::WouldBlock => return,
            Ok(_) | Err(_) => {}
        }
    }
}

/// Receives a datagram, and connects to its sender.
fn receive_first<S: DatagramSocket>(
    socket: &mut S,
    buffer: &mut [u8],
) -> io::Result<(usize, SocketAddr)>
    ensures fits { IfOk result (λ came. came.0 ≤ length buffer.new) }
    ensures ok { IfOk result
        (λ came. S.known socket.new ≡ option_map (connected (Some came.1)) (S.known socket.old)) }
    ensures err { OnErr result (S.known socket.new ≡ S.known socket.old) }
{
    let (count, from) = socket.receive_from(buffer)?;
    socket.connect_to(from)?;
    drop_waiting(socket);
    Ok((count, from))
}
