//! A receiver of datagrams, which decides each slot of a call once.
ghost use Rattle.std.specs.Prelude.{ℕ, List, [], ◌∷◌, ◌++◌, ◌≡◌, ◌+◌, ◌-◌, ◌%◌, ◌<◌, ◌≤◌, take, length, reverse, None, Some, Ok, Err, MatchOption, IsSome, IfSome, IfOk, IfErr, OnErr, IsTrue, ◌↔◌};
ghost use Rattle.fax_udptl.specs.Datagrams.{datagram_of};
ghost use Rattle.fax_udptl.specs.Slots.{nearest};
ghost use Rattle.fax_udptl.specs.Taking.{Takes, slots_in};

use crate::datagram::{Datagram, read};
use crate::fault::UdptlFault;
use crate::packets::Packets;
use crate::secondaries::Secondaries;
use std::marker::Model;

/// The slots that a datagram decides: missing ones, and packets after them.
#[derive(Drop)]
pub struct Decided<'a> {
    from: u16,
    lost: u16,
    secondaries: Secondaries<'a>,
    primary: Option<&'a [u8]>,
}

impl<'a> Model for Decided<'a> {
    ghost use Rattle.std.specs.Prelude.{◌≡◌, [], ◌++◌, reverse, None};
    ghost use Rattle.fax_udptl.specs.Reading.{text_list};
    ghost use Rattle.fax_udptl.specs.Taking.{DecidedValue};

    ghost Value = { DecidedValue };

    ghost view = { λ d. record {
      from = d.from;
      lost = d.lost;
      packets = reverse d.secondaries ++ text_list d.primary;
    } };

    ghost invariant = { λ d. d.primary ≡ None → d.secondaries ≡ [] };
}

impl<'a> Decided<'a> {
    /// What the first datagram of a call decides.
    fn by_first(datagram: &Datagram<'a>) -> Self
        ensures few { length datagram.now.secondaries < 65536 }
        ensures made { let d = datagram.now in result ≡ record {
          from = (65536 + d.number - length d.secondaries) % 65536;
          lost = 0;
          packets = reverse d.secondaries ++ d.primary ∷ [];
        } }
    {
        let secondaries = datagram.secondaries();
        Decided {
            from: datagram.number().wrapping_sub(secondaries.left()),
            lost: 0,
            secondaries,
            primary: Some(datagram.primary()),
        }
    }

    /// What a datagram decides whose number lies so far past the expected one.
    fn by_later(expected: u16, ahead: u16, datagram: &Datagram<'a>) -> Self
        ensures { let d = datagram.now in result ≡ record {
          from = expected;
          lost = ahead - length d.secondaries;
          packets = reverse (take ahead d.secondaries) ++ d.primary ∷ [];
        } }
    {
        let secondaries = datagram.secondaries();
        Decided {
            from: expected,
            lost: ahead.saturating_sub(secondaries.left()),
            secondaries: secondaries.first(ahead),
            primary: Some(datagram.primary()),
        }
    }

    /// What a late datagram decides: nothing.
    fn by_late(expected: u16, datagram: &Datagram<'a>) -> Self
        ensures { result ≡ record { from = expected; lost = 0; packets = [] } }
    {
        Decided {
            from: expected,
            lost: 0,
            secondaries: datagram.secondaries().first(0),
            primary: None,
        }
    }

    /// The first slot's number, or the next slot's where none is decided.
    pub fn from(&self) -> u16
        ensures { result ≡ self.now.from }
    {
        self.from
    }

    /// Whether no slot is decided, as by a late datagram. It walks over no packet.
    pub fn is_empty(&self) -> bool
        ensures { IsTrue result ↔ (slots_in self.now ≡ []) }
    {
        self.lost == 0 && self.secondaries.left() == 0 && self.primary.is_none()
    }

    /// The packet of the one slot that is decided, where no other slot is. It walks over no packet.
    pub fn only(&self) -> Option<&'a [u8]>
        ensures some { IfSome result (λ packet. slots_in self.now ≡ Some packet.now ∷ []) }
        ensures none { (packet : List ℕ) → slots_in self.now ≡ Some packet ∷ [] → IsSome result }
    {
        if self.lost == 0 && self.secondaries.left() == 0 {
            self.primary
        } else {
            None
        }
    }

    /// How many slots are missing. They are the first ones.
    pub fn lost(&self) -> u16
        ensures { result ≡ self.now.lost }
    {
        self.lost
    }

    /// The packets in the slots after these, in order.
    pub fn packets(&self) -> Packets<'a>
        ensures { result ≡ self.now.packets }
    {
        Packets::new(self.secondaries.copy(), self.primary)
    }
}

/// Takes the datagrams of a call in the order in which they come. Seen as the number that it expects next,
/// which is none before the first.
pub struct Receiver {
    expected: Option<u16>,
}

impl Drop for Receiver {
    fn drop(self) {
        let Receiver {
            expected: _expected,
        } = self;
    }
}

impl Model for Receiver {
    ghost use Rattle.std.specs.Prelude.{ℕ, Option};

    ghost Value = { Option ℕ };

    ghost view = { λ receiver. receiver.expected };
}

impl Receiver {
    /// A receiver to which nothing came.
    pub fn new() -> Self
        ensures { result ≡ None }
    {
        Receiver { expected: None }
    }

    /// A receiver equal to this one.
    pub fn copy(&self) -> Self
        ensures { result ≡ self.now }
    {
        Receiver {
            expected: self.expected,
        }
    }

    /// Takes the octets of a datagram that came, and answers the slots that it decides: those from the
    /// expected one to its own, and none where it is late. An `Err` is that of reading the octets, and changes
    /// nothing. It takes no memory.
    pub fn take<'a>(&mut self, octets: &'a [u8]) -> Result<Decided<'a>, UdptlFault>
        ensures fault { IfErr result (λ e. datagram_of octets.now ≡ Err e) }
        ensures err { OnErr result (self.new ≡ self.old) }
        ensures taken { IfOk result (λ decided. Takes octets.now self.old self.new decided) }
    {
        let datagram = read(octets)?;
        let number = datagram.number();
        let Some(expected) = self.expected else {
            self.expected = Some(number.wrapping_add(1));
            return Ok(Decided::by_first(&datagram));
        };
        let Some(ahead) = distance(expected, number) else {
            return Ok(Decided::by_late(expected, &datagram));
        };
        self.expected = Some(number.wrapping_add(1));
        Ok(Decided::by_later(expected, ahead, &datagram))
    }
}

/// How far a number lies past the expected one, or `None` where it is late.
fn distance(expected: u16, number: u16) -> Option<u16>
    ensures { (e : ℕ) → 65536 ≤ e → e % 65536 ≡ expected
        → MatchOption result (nearest e number < e) (λ n. nearest e number ≡ e + n) }
{
    let ahead = number.wrapping_sub(expected);
    if ahead < 32768 { Some(ahead) } else { None }
}
