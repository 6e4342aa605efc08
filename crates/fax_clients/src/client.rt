//! A client.
ghost use Rattle.std.specs.Prelude.{◌≡◌, is_some, IfNone, IfSome, OnOk, OnErr};
ghost use Rattle.fax_clients.specs.Clients.{HearsLine, HearsNoLine, IsAsked, IsServed, IsTold, IsToldOfLine, answered, counted, is_line, silent, wanting, watching};

use crate::inbox::Inbox;
use crate::outbox::Outbox;
use crate::stream::Stream;
use fax_bits::NoMemory;
use fax_control::HeardLine;
use std::alloc::Global;
use std::marker::Model;
use std::os::fd::RawFd;

/// Who says words and reads answers.
pub(crate) struct Client {
    stream: Stream,
    inbox: Inbox,
    outbox: Outbox,
    /// How many lines all clients had said when this one said its last, or came in.
    last_line: u64,
    /// Whether another one takes its place.
    is_let_go: bool,
    /// The number of the line that it watches.
    watches: Option<usize>,
}

impl Drop for Client {
    fn drop(self) {
        let Client {
            stream: _stream,
            inbox: _inbox,
            outbox: _outbox,
            last_line: _last_line,
            is_let_go: _is_let_go,
            watches: _watches,
        } = self;
    }
}

/// Contracts see what came of it, what it is told, and which line it watches.
impl Model for Client {
    ghost use Rattle.fax_clients.specs.Clients.{ClientValue};

    ghost Value = { ClientValue };

    ghost view = { λ c. record { said = c.inbox; told = c.outbox; watches = c.watches } };
}

impl Client {
    /// A client that said nothing, which comes in after so many lines of others.
    pub(crate) fn new(alloc: Global, stream: Stream, lines: u64) -> Self
        ensures { result ≡ silent }
    {
        Client {
            stream,
            inbox: Inbox::new(),
            outbox: Outbox::new(alloc),
            last_line: lines,
            is_let_go: false,
            watches: None,
        }
    }

    /// Where nothing that it said waits and nothing is being written to it: how many lines all clients had said when it said its last.
    pub(crate) fn silent_since(&self) -> Option<u64> {
        if self.inbox.is_heard() && !self.outbox.is_writing() {
            Some(self.last_line)
        } else {
            None
        }
    }

    /// It goes, since another one takes its place.
    pub(crate) fn let_go(&mut self)
        ensures { self.new ≡ self.old }
    {
        self.is_let_go = true;
    }

    /// From now on it is told events.
    pub(crate) fn want_events(&mut self) -> Result<(), NoMemory>
        ensures ok { OnOk result (self.new ≡ wanting self.old) }
        ensures err { OnErr result (self.new ≡ self.old) }
    {
        self.outbox.want_events()
    }

    /// From now on it watches the line of this number, and no other.
    pub(crate) fn watch(&mut self, line: usize)
        ensures { self.new ≡ watching line self.old }
    {
        self.watches = Some(line);
    }

    /// Whether it watches the line of this number.
    pub(crate) fn watches(&self, line: usize) -> bool
        ensures { result ≡ is_line line self.now.watches }
    {
        match self.watches {
            Some(watched) => watched == line,
            None => false,
        }
    }

    /// It is told an event of the line of this number, where it watches that one, and wants events.
    pub(crate) fn tell_watched(&mut self, line: usize, event: &[u8])
        ensures { IsToldOfLine line event.now self.old self.new }
    {
        if !self.watches(line) {
            return;
        }
        self.outbox.tell(event);
    }

    /// Whether more may come from it.
    pub(crate) fn says_more(&self) -> bool
        ensures { result ≡ self.now.said.more }
    {
        self.inbox.is_open()
    }

    /// Whether a line may wait that it said.
    pub(crate) fn is_waiting(&self) -> bool {
        !self.inbox.is_heard() && !self.outbox.is_writing()
    }

    /// The descriptor that it is waited for to say something; none where it is not heard now.
    pub(crate) fn heard_from(&self) -> Option<RawFd> {
        if self.inbox.is_open() && self.inbox.is_heard() && !self.outbox.is_writing() {
            Some(self.stream.input())
        } else {
            None
        }
    }

    /// The descriptor that is waited for to take octets; none where none are to be told.
    pub(crate) fn told_over(&mut self) -> Option<RawFd>
        ensures { IsAsked self.old self.new }
    {
        self.outbox.go_on();
        if self.outbox.is_writing() {
            Some(self.stream.output())
        } else {
            None
        }
    }

    /// The descriptor over which it is told events, so that its end is seen also while there is none to tell.
    pub(crate) fn events_over(&self) -> Option<RawFd> {
        if self.outbox.tells_events() {
            Some(self.stream.output())
        } else {
            None
        }
    }

    /// Reads what it said, and writes what it takes, where it is ready for that. A write of nothing, where it takes nothing any
    /// more, is its last.
    pub(crate) fn serve(&mut self, says: bool, takes: bool)
        ensures { IsServed self.old self.new }
    {
        if says {
            self.inbox.read(&mut self.stream);
        }
        if takes {
            self.outbox.write(&mut self.stream);
        }
    }

    /// The next line that it said, after so many of all clients. It is heard no further while a text is being written.
    pub(crate) fn hear(&mut self, lines: u64) -> Option<HeardLine>
        ensures none { IfNone result (HearsNoLine self.old self.new) }
        ensures heard { IfSome result (λ heard. HearsLine heard self.old self.new) }
    {
        if self.outbox.is_writing() {
            return None;
        }
        let heard = self.inbox.hear();
        if heard.is_some() {
            self.last_line = lines;
        }
        heard
    }

    /// It is answered.
    pub(crate) fn answer(&mut self, text: Vec<u8>)
        ensures { self.new ≡ answered text.items self.old }
    {
        self.outbox.put(text);
    }

    /// It is told an event, where it wants events.
    pub(crate) fn tell(&mut self, line: &[u8])
        ensures { IsTold line.now self.old self.new }
    {
        self.outbox.tell(line);
    }

    /// Whether it wants events.
    pub(crate) fn tells_events(&self) -> bool
        ensures { result ≡ is_some self.now.told.events }
    {
        self.outbox.tells_events()
    }

    /// How many lines of events it lost since this was asked.
    pub(crate) fn take_lost(&mut self) -> u64
        ensures lost { result ≡ self.old.told.lost }
        ensures counted { self.new ≡ counted self.old }
    {
        self.outbox.take_lost()
    }

    /// Whether it is there still: it takes octets, and says more, or is told something; and it was not let go.
    pub(crate) fn stays(&self) -> bool {
        !self.is_let_go
            && self.outbox.is_open()
            && (self.inbox.is_open()
                || !self.inbox.is_heard()
                || self.outbox.is_writing()
                || self.outbox.tells_events())
    }
}
