//! How the end of a peer's call is brought in where a word says it: a datagram with a DCN is handed out, as if it had come.
ghost use Rattle.std.specs.Prelude.{◌≡◌, ◌≤◌, ◌↔◌, true, false, length, IsTrue};
ghost use Rattle.fax_legs.specs.HangUps.{HandsOut, due_again, goodbye, is_over, newer_of, newest_after, number_after, is_late};

/// How many octets a datagram with a DCN has.
pub(crate) const GOODBYE_OCTETS: usize = 14;

/// Whether the peer's call is gone.
#[derive(Clone, Copy, PartialEq, Eq)]
pub(crate) enum Standing {
    /// Nothing says so.
    There,
    /// It is, and a DCN is to be handed out.
    Gone,
    /// It is, and a DCN was handed out in this turn.
    Told,
}

/// What is known of the peer's part in the call that is on on a leg.
#[derive(Clone, Copy, PartialEq, Eq)]
pub(crate) struct PeerCall {
    /// The number of the newest datagram of the call.
    newest: Option<u16>,
    standing: Standing,
}

impl PeerCall {
    /// Nothing has come of it.
    pub(crate) fn new() -> Self
        ensures { result ≡ record { newest = None; standing = Standing.There } }
    {
        PeerCall {
            newest: None,
            standing: Standing::There,
        }
    }

    /// It is gone.
    pub(crate) fn hang_up(&mut self)
        ensures { self.new ≡ record self.old { standing = Standing.Gone } }
    {
        self.standing = Standing::Gone;
    }

    /// Whether it is gone.
    pub(crate) fn is_gone(&self) -> bool
        ensures { result ≡ is_over self.now.standing }
    {
        self.standing != Standing::There
    }

    /// Another turn begins in which the leg's call is on: a DCN that was handed out is handed out once more.
    pub(crate) fn go_on(&mut self)
        ensures { self.new ≡ record self.old { standing = due_again self.old.standing } }
    {
        if self.standing == Standing::Told {
            self.standing = Standing::Gone;
        }
    }

    /// A datagram came.
    pub(crate) fn note(&mut self, octets: &[u8])
        ensures { self.new ≡ record self.old { newest = newest_after self.old.newest octets.now } }
    {
        let [high, low, ..] = octets else {
            return;
        };
        let number = u16::from_be_bytes([*high, *low]);
        match self.newest {
            Some(newest) if is_late(newest, number) => {}
            _ => self.newest = Some(number),
        }
    }

    /// Where it is gone, and no DCN was handed out in this turn, hands one out: a datagram after the newest, in the front of a
    /// buffer that has room for it. It answers whether it did.
    pub(crate) fn hand_out(&mut self, buffer: &mut [u8]) -> bool
        ensures due { IsTrue result
            ↔ ((self.old.standing ≡ Standing.Gone) × (14 ≤ length buffer.old)) }
        ensures handed { result ≡ true → HandsOut self.old self.new buffer.old buffer.new }
        ensures none { result ≡ false → self.new ≡ self.old }
        ensures left { result ≡ false → buffer.new ≡ buffer.old }
    {
        if self.standing != Standing::Gone || buffer.len() < GOODBYE_OCTETS {
            return false;
        }
        let number = number_after(self.newest);
        buffer[..GOODBYE_OCTETS].copy_from_slice(&goodbye(number));
        self.newest = Some(number);
        self.standing = Standing::Told;
        true
    }
}

/// Whether a number lies before the newest one, or is that.
pub(crate) fn is_late(newest: u16, number: u16) -> bool
    ensures { result ≡ is_late newest number }
{
    newest.wrapping_sub(number) < 32_768
}

/// The number of the newest datagram, once one of this number came.
pub(crate) fn newer(newest: Option<u16>, number: u16) -> Option<u16>
    ensures { result ≡ newer_of newest number }
{
    match newest {
        Some(newest) if is_late(newest, number) => Some(newest),
        _ => Some(number),
    }
}

/// The number after the newest one.
fn number_after(newest: Option<u16>) -> u16
    ensures { result ≡ number_after newest }
{
    match newest {
        None => 0,
        Some(newest) => newest.wrapping_add(1),
    }
}

/// The datagram of this number with a DCN.
fn goodbye(number: u16) -> [u8; GOODBYE_OCTETS]
    ensures { result ≡ goodbye number }
{
    let high = (number / 256) as u8;
    let low = (number % 256) as u8;
    [
        high, low, 9, 0xC0, 3, 0x18, 0, 2, 0xFF, 0xC8, 0x5F, 0x40, 0, 0,
    ]
}
