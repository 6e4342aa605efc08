//! What a leg was handed over while it had no peer: a peer who comes late hears nothing of it.
ghost use Rattle.std.specs.Prelude.{◌≡◌};
ghost use Rattle.fax_legs.specs.Handing.{before_own, handed_over, may_have, noted, nothing_handed, since_after, since_of};

use crate::hang_up::{is_late, newer};

/// No datagram has so many packets.
const ALL_PACKETS: u16 = u16::MAX;

/// What was handed over on a leg in a call.
#[derive(Clone, Copy, PartialEq, Eq)]
pub(crate) struct Handed {
    /// The number of the newest datagram.
    newest: Option<u16>,
    /// How many packets, the newest and those before it, were handed over since there is a peer. It stops at the greatest, and is that
    /// where there was one all the time.
    since: u16,
}

impl Handed {
    /// A call begins.
    pub(crate) fn new() -> Self
        ensures { result ≡ nothing_handed }
    {
        Handed {
            newest: None,
            since: ALL_PACKETS,
        }
    }

    /// How many packets before its own a datagram may have, so that each was handed over since there is a peer. `None`: not its own
    /// either.
    pub(crate) fn may_have(&self, octets: &[u8]) -> Option<u16>
        ensures { result ≡ may_have self.now octets.now }
    {
        let [high, low, ..] = octets else {
            return Some(ALL_PACKETS);
        };
        before_own(self.since_of(u16::from_be_bytes([*high, *low])))
    }

    /// A datagram is handed over, while there is a peer or not.
    pub(crate) fn note(&mut self, has_peer: bool, octets: &[u8])
        ensures { self.new ≡ handed_over has_peer octets.now self.old }
    {
        let [high, low, ..] = octets else {
            return;
        };
        self.note_number(has_peer, u16::from_be_bytes([*high, *low]));
    }

    /// The same of one of this number.
    fn note_number(&mut self, has_peer: bool, number: u16)
        ensures { self.new ≡ noted has_peer number self.old }
    {
        self.since = if has_peer {
            self.since_after(number)
        } else {
            0
        };
        self.newest = newer(self.newest, number);
    }

    /// How many packets of a datagram of this number, its own and those before it, were handed over since there is a peer.
    fn since_of(&self, number: u16) -> u16
        ensures { result ≡ since_of self.now.newest self.now.since number }
    {
        match self.newest {
            None => self.since,
            Some(newest) if is_late(newest, number) => {
                self.since.saturating_sub(newest.wrapping_sub(number))
            }
            Some(newest) => self.since.saturating_add(number.wrapping_sub(newest)),
        }
    }

    /// The same of the newest, once that one was handed over.
    fn since_after(&self, number: u16) -> u16
        ensures { result ≡ since_after self.now.newest self.now.since number }
    {
        match self.newest {
            Some(newest) if is_late(newest, number) => self.since,
            _ => self.since_of(number),
        }
    }
}

/// How many packets come before a datagram's own, where so many may be sent of it. `None`: none may.
fn before_own(packets: u16) -> Option<u16>
    ensures { result ≡ before_own packets }
{
    if packets == 0 {
        None
    } else {
        Some(packets - 1)
    }
}
