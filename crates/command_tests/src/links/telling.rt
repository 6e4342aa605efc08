//! Ends and a wire over sockets, which tell what goes over them.
ghost use Rattle.std.specs.Prelude.{◌≡◌, ◌+◌, ◌≤◌, ℕ, List, [], ◌∷◌, None, Some, IfOk, IfSome, length, min, option_copied};
ghost use Rattle.fax_gateway.specs.declared.leg.Leg.TheVariants as legs;
ghost use Rattle.fax_loop.specs.Links.{came_called, came_calling};
ghost use Rattle.fax_gateway.specs.Wires.{failures_after, greatest_count, receipt_of};

use crate::links::told::{Told, held};
use fax_bits::Octets;
use fax_gateway::{Leg, Wire, WireFault};
use fax_terminal::End;
use std::alloc::Global;
use std::io::ErrorKind;
use std::marker::Model;
use std::net::UdpSocket;

/// A machine's end of a leg, over a socket that does not wait.
#[derive(Drop)]
pub(crate) struct TellingEnd {
    pub alloc: Global,
    pub socket: UdpSocket,
    pub received: Told<Octets>,
    pub sent: Told<Octets>,
}

impl End for TellingEnd {
    ghost told = { λ end. record { received = end.received; sent = end.sent } };

    fn receive(&mut self, buffer: &mut [u8]) -> Option<usize> {
        match self.socket.recv(buffer) {
            Ok(count) => {
                self.received.note(held(self.alloc, &buffer[..count]));
                Some(count)
            }
            Err(_) => None,
        }
    }

    fn send(&mut self, octets: &[u8]) {
        self.sent.note(held(self.alloc, octets));
        match self.socket.send(octets) {
            Ok(_) | Err(_) => {}
        }
    }
}

/// What a receive answered, into a buffer of so many octets.
#[derive(Drop)]
pub(crate) struct Received {
    pub leg: Leg,
    room: usize,
    pub came: Option<Octets>,
    failed: bool,
}

impl Model for Received {
    ghost use Rattle.fax_gateway.specs.Wires.{Receipt, Came, Nothing, Failed};
    ghost use Rattle.std.specs.Prelude.{cond, option_map, unwrap_or};

    ghost Value = { Receipt };

    ghost view = { λ r. cond r.failed (Failed r.leg r.room)
        (unwrap_or (option_map (Came r.leg r.room) r.came) (Nothing r.leg r.room)) };
}

impl Received {
    /// What a receive on a leg answered, where a datagram that came can be held.
    fn of(
        alloc: Global,
        leg: Leg,
        buffer: &[u8],
        answer: &Result<Option<usize>, WireFault>,
    ) -> Option<Self>
        requires { IfOk answer.now (λ came. IfSome came (λ count. count ≤ length buffer.now)) }
        ensures { IfSome result (λ received. received ≡ receipt_of leg buffer.now answer.now) }
    {
        match *answer {
            Ok(Some(count)) => {
                let came = held(alloc, &buffer[..count])?;
                Some(Received {
                    leg,
                    room: buffer.len(),
                    came: Some(came),
                    failed: false,
                })
            }
            Ok(None) => Some(Received {
                leg,
                room: buffer.len(),
                came: None,
                failed: false,
            }),
            Err(WireFault) => Some(Received {
                leg,
                room: buffer.len(),
                came: None,
                failed: true,
            }),
        }
    }

    /// The datagram that it brought, where it is one of this leg.
    pub fn came_on(&self, at: Leg) -> Option<&Octets>
        ensures calling { (octets : List ℕ) → option_copied result ≡ Some octets
            → at ≡ legs.Calling → came_calling (self.now ∷ []) ≡ octets ∷ [] }
        ensures called { (octets : List ℕ) → option_copied result ≡ Some octets
            → at ≡ legs.Called → came_called (self.now ∷ []) ≡ octets ∷ [] }
        ensures not_calling { option_copied result ≡ None
            → at ≡ legs.Calling → came_calling (self.now ∷ []) ≡ [] }
        ensures not_called { option_copied result ≡ None
            → at ≡ legs.Called → came_called (self.now ∷ []) ≡ [] }
    {
        if self.failed || self.leg != at {
            return None;
        }
        self.came.as_ref()
    }
}

/// A datagram that was handed over.
#[derive(Drop)]
pub(crate) struct Sent {
    pub leg: Leg,
    pub octets: Octets,
}

impl Model for Sent {
    ghost use Rattle.fax_gateway.specs.Wires.{HandedDatagram};

    ghost Value = { HandedDatagram };

    ghost view = { λ sent. record { leg = sent.leg; octets = sent.octets } };
}

impl Sent {
    /// A datagram that is handed over, where it can be held.
    fn of(alloc: Global, leg: Leg, octets: &[u8]) -> Option<Self>
        ensures { IfSome result (λ sent. sent ≡ record { leg = leg; octets = octets.now }) }
    {
        let octets = held(alloc, octets)?;
        Some(Sent { leg, octets })
    }
}

/// A gateway's wire over two sockets that do not wait.
#[derive(Drop)]
pub(crate) struct TellingWire {
    pub alloc: Global,
    pub calling: UdpSocket,
    pub called: UdpSocket,
    pub failures: u64,
    pub received: Told<Received>,
    pub sent: Told<Sent>,
}

impl TellingWire {
    /// The socket of a leg.
    fn socket(&self, leg: Leg) -> &UdpSocket {
        match leg {
            Leg::Calling => &self.calling,
            Leg::Called => &self.called,
        }
    }

    /// One more call failed.
    fn fail(&mut self) -> WireFault
        ensures failures { self.new.failures ≡ min (self.old.failures + 1) greatest_count }
        ensures received { self.new.received ≡ self.old.received }
        ensures sent { self.new.sent ≡ self.old.sent }
    {
        self.failures = self.failures.saturating_add(1);
        WireFault
    }

    /// What is received on a leg.
    fn next(&mut self, leg: Leg, buffer: &mut [u8]) -> Result<Option<usize>, WireFault>
        ensures fits { IfOk result (λ came. IfSome came (λ count. count ≤ length buffer.new)) }
        ensures failures { self.new.failures ≡ failures_after self.old.failures result }
        ensures received { self.new.received ≡ self.old.received }
        ensures sent { self.new.sent ≡ self.old.sent }
    {
        match self.socket(leg).recv(buffer) {
            Ok(count) => Ok(Some(count)),
            Err(error) if error.kind() == ErrorKind::WouldBlock => Ok(None),
            Err(_) => Err(self.fail()),
        }
    }
}

impl Wire for TellingWire {
    ghost known = { λ wire.
        record { failures = wire.failures; received = wire.received; sent = wire.sent } };

    fn receive(&mut self, leg: Leg, buffer: &mut [u8]) -> Result<Option<usize>, WireFault> {
        let answer = self.next(leg, buffer);
        self.received
            .note(Received::of(self.alloc, leg, buffer, &answer));
        answer
    }

    fn send(&mut self, leg: Leg, octets: &[u8]) -> Result<(), WireFault> {
        self.sent.note(Sent::of(self.alloc, leg, octets));
        match self.socket(leg).send(octets) {
            Ok(_) => Ok(()),
            Err(_) => Err(self.fail()),
        }
    }
}
