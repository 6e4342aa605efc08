//! What a call has on its leg.
ghost use Rattle.std.specs.Prelude.{ℕ, List, [], ◌∷◌, ◌≡◌, ◌<◌, ◌≤◌, length, IfSome, IfOk, OnOk, OnErr};
ghost use Rattle.fax_udptl.specs.Datagrams.{DatagramValue};
ghost use Rattle.fax_udptl.specs.Sending.{most_redundancy};
ghost use Rattle.fax_gateway.specs.Setups.{Setup};
ghost use Rattle.fax_gateway.specs.Legs.{sent};
ghost use Rattle.fax_gateway.specs.Reached.{IsLeg, leg_alone, most_octets, sent_if, given_with};

use fax_bits::{NoMemory, Octets};
use fax_udptl::{Receiver, Sender};
use std::alloc::Global;

/// How many octets a packet of either leg has at most.
pub(crate) const MOST_OCTETS: usize = 100;

/// What numbers and reads the datagrams of a call on a leg, which each call has anew.
pub struct Endpoint {
    pub receiver: Receiver,
    pub sender: Sender,
}

impl Drop for Endpoint {
    fn drop(self) {
        let Endpoint {
            receiver: _receiver,
            sender: _sender,
        } = self;
    }
}

impl Endpoint {
    /// A leg on which nothing came and nothing was given: its datagrams have so many of the packets before their own. It takes
    /// memory for these.
    pub fn new(alloc: Global, redundancy: u8) -> Result<Self, NoMemory>
        requires { redundancy ≤ most_redundancy }
        ensures { IfOk result
            (λ leg. (setup : Setup) → redundancy ≡ setup.redundancy → IsLeg setup [] [] leg) }
    {
        let sender = Sender::new(alloc, redundancy)?;
        Ok(Endpoint {
            receiver: Receiver::new(),
            sender,
        })
    }

    /// The same with the memory of its first datagram.
    pub(crate) fn with_room(alloc: Global, redundancy: u8) -> Result<Self, NoMemory>
        requires { redundancy ≤ most_redundancy }
        ensures fresh { IfOk result
            (λ leg. (setup : Setup) → redundancy ≡ setup.redundancy → IsLeg setup [] [] leg) }
        ensures room { IfOk result (λ leg. most_octets < leg.sender.spare) }
    {
        let mut leg = Endpoint::new(alloc, redundancy)?;
        leg.reserve(MOST_OCTETS)?;
        Ok(leg)
    }

    /// Takes the memory of the next datagram, where its packet has at most so many octets. An `Err` changes nothing.
    pub(crate) fn reserve(&mut self, octets: usize) -> Result<(), NoMemory>
        requires { octets ≤ most_octets }
        ensures room { OnOk result (octets < self.new.sender.spare) }
        ensures reached { (setup : Setup) (arrived : List DatagramValue) (given : List (List ℕ))
            → IsLeg setup arrived given self.old → IsLeg setup arrived given self.new }
        ensures same { leg_alone self.new ≡ leg_alone self.old }
        ensures err { OnErr result (self.new ≡ self.old) }
    {
        self.sender.reserve(octets)
    }

    /// The octets of the datagram of the next packet, whose memory is reserved.
    pub(crate) fn send(&mut self, packet: &[u8]) -> Octets
        requires short { length packet.now ≤ most_octets }
        requires room { length packet.now < self.old.sender.spare }
        ensures { (setup : Setup) (arrived : List DatagramValue) (given : List (List ℕ))
            → IsLeg setup arrived given self.old → (result ≡ sent setup given packet.now)
            × IsLeg setup arrived (packet.now ∷ given) self.new }
    {
        match self.sender.send(packet) {
            Ok(octets) => octets,
            Err(_) => unreachable!(),
        }
    }

    /// The same of a packet that may be given.
    pub(crate) fn send_if(&mut self, packet: Option<Octets>) -> Option<Octets>
        requires short { IfSome packet (λ packet. length packet ≤ most_octets) }
        requires room { IfSome packet (λ packet. length packet < self.old.sender.spare) }
        ensures { (setup : Setup) (arrived : List DatagramValue) (given : List (List ℕ))
            → IsLeg setup arrived given self.old → (result ≡ sent_if setup given packet)
            × IsLeg setup arrived (given_with packet given) self.new }
    {
        match packet {
            None => None,
            Some(packet) => Some(self.send(packet.as_slice())),
        }
    }
}
