//! What came from a client and was not heard yet.
ghost use Rattle.std.specs.Prelude.{◌≡◌, ◌≤◌, true, [], length, take, drop, IfNone, IfSome};
ghost use Rattle.fax_clients.specs.Clients.{ComesOn, IsHeard, IsKept, nothing_said};

use fax_control::{ClientLines, HeardLine};
use std::io::{ErrorKind, Read};
use std::marker::Model;

/// How many octets are read at once.
const ROOM: usize = 512;

/// The octets that were read last, and what has come of a line.
pub(crate) struct Inbox {
    octets: [u8; 512],
    /// The octets from here up to the end were not heard yet.
    start: usize,
    end: usize,
    lines: ClientLines,
    /// Whether more may come.
    is_open: bool,
}

impl Drop for Inbox {
    fn drop(self) {
        let Inbox {
            octets: _octets,
            start: _start,
            end: _end,
            lines: _lines,
            is_open: _is_open,
        } = self;
    }
}

/// Contracts see whether more may come, the octets that were not heard yet, and what has come of a line.
impl Model for Inbox {
    ghost use Rattle.std.specs.Prelude.{◌≤◌, take, drop};
    ghost use Rattle.fax_clients.specs.Clients.{ClientInput};

    ghost Value = { ClientInput };

    ghost view = { λ b. record {
      more = b.is_open;
      unheard = drop b.start (take b.end b.octets);
      begun = b.lines;
    } };

    ghost invariant = { λ b. (b.start ≤ b.end) × (b.end ≤ 512) };
}

impl Inbox {
    /// Nothing has come.
    pub(crate) fn new() -> Self
        ensures { result ≡ nothing_said }
    {
        Inbox {
            octets: [0; ROOM],
            start: 0,
            end: 0,
            lines: ClientLines::new(),
            is_open: true,
        }
    }

    /// Whether more may come.
    pub(crate) fn is_open(&self) -> bool
        ensures { result ≡ self.now.more }
    {
        self.is_open
    }

    /// Whether all that was read was heard.
    pub(crate) fn is_heard(&self) -> bool
        ensures { result ≡ true → self.now.unheard ≡ [] }
    {
        self.start == self.end
    }

    /// Reads what has come, where all that was read before was heard. After the end of the stream, or a read that failed,
    /// nothing more comes.
    pub(crate) fn read<S: Read>(&mut self, stream: &mut S)
        ensures { ComesOn self.old self.new }
    {
        if !self.is_open || !self.is_heard() {
            return;
        }
        match stream.read(&mut self.octets) {
            Ok(0) => self.is_open = false,
            Ok(count) => {
                self.start = 0;
                self.end = count;
            }
            Err(error) => self.is_open = is_passing(error.kind()),
        }
    }

    /// The next line of what was read, if one ends there.
    pub(crate) fn hear(&mut self) -> Option<HeardLine>
        ensures none { IfNone result (IsKept self.old self.new) }
        ensures heard { IfSome result (λ heard. IsHeard heard self.old self.new) }
    {
        let unheard = part(&self.octets, self.start, self.end);
        let (heard, rest) = self.lines.hear(unheard);
        self.start = self.end.saturating_sub(rest.len());
        heard
    }
}

/// The octets from a place up to another one.
fn part(octets: &[u8], start: usize, end: usize) -> &[u8]
    requires ordered { start ≤ end }
    requires within { end ≤ length octets.now }
    ensures { result.now ≡ drop start (take end octets.now) }
{
    &octets[start..end]
}

/// Whether a stream with this fault may be tried again.
pub(crate) fn is_passing(kind: ErrorKind) -> bool {
    kind == ErrorKind::WouldBlock || kind == ErrorKind::Interrupted
}
