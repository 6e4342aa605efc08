//! A wire over memory, for tests.
ghost use Rattle.std.specs.Prelude.{◌≡◌, ◌+◌, ◌<◌, min};
ghost use Rattle.fax_gateway.specs.Wires.{greatest_count};

use super::call::{COMES, Sends, put};
use fax_gateway::{Leg, Wire, WireFault};

/// Calls that fail: from this on, so many of them.
#[derive(Clone, Copy)]
pub(super) struct Fails {
    pub from: u32,
    pub count: u32,
}

impl Fails {
    pub const NONE: Fails = Fails { from: 0, count: 0 };

    pub const ALL: Fails = Fails {
        from: 0,
        count: u32::MAX,
    };

    fn has(self, call: u32) -> bool {
        call.wrapping_sub(self.from) < self.count
    }
}

/// A wire that wants no memory: what comes on it is nothing, or what comes in a whole call; and which receives and sends fail is told,
/// counted from 0. A receive that brings none ends its leg's turn, and so does one that fails, which brings nothing.
#[derive(Drop)]
pub(super) struct ListWire {
    is_call: bool,
    failing_receives: Fails,
    failing_sends: Fails,
    /// The turn of the calling and of the called leg, and which of the datagrams that come is looked at next there.
    turns: [u32; 2],
    next: [usize; 2],
    pub receives: u32,
    /// The octets that the last buffer had.
    pub room: usize,
    failures: u64,
    pub sends: Sends,
}

impl ListWire {
    pub fn new(is_call: bool, failing_receives: Fails, failing_sends: Fails) -> Self {
        ListWire {
            is_call,
            failing_receives,
            failing_sends,
            turns: [0; 2],
            next: [0; 2],
            receives: 0,
            room: 0,
            failures: 0,
            sends: Sends::none(),
        }
    }

    /// What comes next on a leg in its turn, which ends where nothing does.
    fn come(&mut self, leg: Leg) -> Option<(&'static [u8], usize)>
        ensures { self.new.failures ≡ self.old.failures }
    {
        let i = place_of(leg);
        if self.is_call {
            if let Some((octets, zeros, next)) = coming(leg, self.turns[i], self.next[i]) {
                self.next[i] = next;
                return Some((octets, zeros));
            }
        }
        self.turns[i] = self.turns[i].saturating_add(1);
        None
    }

    /// One more call failed.
    fn fail(&mut self) -> WireFault
        ensures { self.new.failures ≡ min (self.old.failures + 1) greatest_count }
    {
        self.failures = self.failures.saturating_add(1);
        WireFault
    }
}

/// What comes on a leg up to a turn, from a place on of all that comes: its octets, the zeros after them, and the place after it.
fn coming(leg: Leg, turn: u32, from: usize) -> Option<(&'static [u8], usize, usize)> {
    for (i, (at, on, octets, zeros)) in COMES.iter().enumerate() {
        if i >= from && *on == leg && *at <= turn {
            return Some((octets, *zeros, i.saturating_add(1)));
        }
    }
    None
}

/// The place of a leg.
fn place_of(leg: Leg) -> usize
    ensures { result < 2 }
{
    match leg {
        Leg::Calling => 0,
        Leg::Called => 1,
    }
}

impl Wire for ListWire {
    ghost use Rattle.std.specs.Prelude.{None};

    ghost known = { λ wire. record { failures = wire.failures; received = None; sent = None } };

    fn receive(&mut self, leg: Leg, buffer: &mut [u8]) -> Result<Option<usize>, WireFault> {
        self.room = buffer.len();
        let fails = self.failing_receives.has(self.receives);
        self.receives = self.receives.saturating_add(1);
        if fails {
            let i = place_of(leg);
            self.turns[i] = self.turns[i].saturating_add(1);
            return Err(self.fail());
        }
        match self.come(leg) {
            Some((octets, zeros)) => Ok(Some(put(octets, zeros, buffer))),
            None => Ok(None),
        }
    }

    fn send(&mut self, leg: Leg, octets: &[u8]) -> Result<(), WireFault> {
        let turn = self.turns[1].saturating_sub(1);
        let fails = self.failing_sends.has(self.sends.count);
        self.sends.note(turn, leg, octets);
        if fails { Err(self.fail()) } else { Ok(()) }
    }
}
