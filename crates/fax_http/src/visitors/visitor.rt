//! A visitor.
ghost use Rattle.std.specs.Prelude.{◌≡◌, IfErr, IfOk, IfSome, OnErr, OnOk};
ghost use Rattle.fax_http.specs.Connections.{answered_by, nothing_heard, unanswered};
ghost use Rattle.fax_http.specs.PicturePaths.{AsksForPath};
ghost use Rattle.fax_http.specs.visitors.Visits.{IsRead, IsServed, IsWritten};

use crate::{Answer, Connection, Question};
use mio::net::TcpStream;
use std::alloc::{AllocError, Global};
use std::io::{ErrorKind, Read, Write};
use std::marker::Model;
use std::net::Shutdown;

/// The longest that a connection is open, in milliseconds.
const MOST_MS: u64 = 5_000;

/// How many octets are read at once.
const ROOM: usize = 1_024;

/// A connection, over its stream, which does not wait.
pub(crate) struct Visitor {
    stream: TcpStream,
    connection: Connection,
    /// When it came, and when it said something last.
    since: u64,
    last: u64,
    /// Whether it says no more.
    has_ended: bool,
    /// Whether it was told that nothing comes any more.
    is_shut: bool,
    /// Whether it failed.
    is_gone: bool,
}

impl Drop for Visitor {
    fn drop(self) {
        let Visitor {
            stream: _stream,
            connection: _connection,
            since: _since,
            last: _last,
            has_ended: _has_ended,
            is_shut: _is_shut,
            is_gone: _is_gone,
        } = self;
    }
}

/// Contracts see its connection.
impl Model for Visitor {
    ghost use Rattle.fax_http.specs.Connections.{ConnectionValue};

    ghost Value = { ConnectionValue };

    ghost view = { λ v. v.connection };
}

impl Visitor {
    /// One that comes now.
    pub(crate) fn new(alloc: Global, stream: TcpStream, now: u64) -> Self
        ensures { result ≡ nothing_heard }
    {
        Visitor {
            stream,
            connection: Connection::new(alloc),
            since: now,
            last: now,
            has_ended: false,
            is_shut: false,
            is_gone: false,
        }
    }

    /// When it said something last.
    pub(crate) fn last(&self) -> u64 {
        self.last
    }

    /// Reads what it said, and writes what it takes.
    pub(crate) fn serve(&mut self, now: u64)
        ensures { IsServed self.old self.new }
    {
        self.read(now);
        self.write();
        self.shut();
    }

    /// Reads what it said. Without memory for that it is gone.
    fn read(&mut self, now: u64)
        ensures { IsRead self.old self.new }
    {
        if self.has_ended || self.is_gone {
            return;
        }
        let mut octets = [0u8; ROOM];
        match self.stream.read(&mut octets) {
            Ok(0) => self.has_ended = true,
            Ok(count) => {
                self.last = now;
                let heard = self.connection.hear(front(&octets, count));
                self.is_gone = heard.is_err();
            }
            Err(error) => self.is_gone = !is_passing(error.kind()),
        }
    }

    /// Writes what it takes of its answer.
    fn write(&mut self)
        ensures { IsWritten self.old self.new }
    {
        if self.is_gone || self.connection.left().is_empty() {
            return;
        }
        match self.stream.write(self.connection.left()) {
            Ok(count) => self.connection.wrote(count),
            Err(error) => self.is_gone = !is_passing(error.kind()),
        }
    }

    /// After the answer it is told that nothing more comes: it has the answer whole, whatever it still says.
    fn shut(&mut self)
        ensures { self.new ≡ self.old }
    {
        if !self.is_shut && self.connection.is_over() {
            self.is_shut = true;
            let _ = self.stream.shutdown(Shutdown::Write);
        }
    }

    /// What it asks for, where that was not answered.
    pub(crate) fn asked(&self) -> Option<Question>
        ensures { result ≡ unanswered self.now }
    {
        self.connection.asked()
    }

    /// The path that it asks for.
    pub(crate) fn path(&self) -> Option<&[u8]>
        ensures { IfSome result (λ path. AsksForPath self.now.heard path.now) }
    {
        self.connection.path()
    }

    /// It is answered. Without memory for that it is gone.
    pub(crate) fn answer(&mut self, answer: &Answer<'_>) -> Result<(), AllocError>
        ensures ok { OnOk result (self.new ≡ answered_by answer.now self.old) }
        ensures err { OnErr result (self.new ≡ self.old) }
    {
        let answered = self.connection.answer(answer);
        self.is_gone = answered.is_err();
        answered
    }

    /// Whether it is there still: it did not fail, its time is not over, and it says more or is still to be told something.
    pub(crate) fn stays(&self, now: u64) -> bool {
        let is_done = self.has_ended && self.connection.left().is_empty() && self.asked().is_none();
        !self.is_gone && !is_done && now.saturating_sub(self.since) < MOST_MS
    }
}

/// The octets at the front, so many.
fn front(octets: &[u8], count: usize) -> &[u8] {
    if count < octets.len() {
        &octets[..count]
    } else {
        octets
    }
}

/// Whether a stream with this fault may be tried again.
fn is_passing(kind: ErrorKind) -> bool {
    kind == ErrorKind::WouldBlock || kind == ErrorKind::Interrupted
}
