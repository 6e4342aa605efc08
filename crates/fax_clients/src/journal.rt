//! What keeps a record of all events beside the clients of a control socket.
ghost use Rattle.std.specs.Prelude.{◌≡◌, IfOk};
ghost use Rattle.fax_clients.specs.Clients.{HasTold, WritesOn, counted_output, new_journal};

use crate::outbox::Outbox;
use crate::ready::is_writable;
use fax_bits::NoMemory;
use std::alloc::Global;
use std::io::{Stdout, Write};
use std::marker::Model;
use std::os::fd::RawFd;

/// The descriptor of standard output.
const STANDARD_OUTPUT: RawFd = 1;

/// The most lines that are written at one time.
const MOST_LINES: u8 = 64;

/// The most octets that standard output takes at once without waiting, where it is ready.
const MOST_AT_ONCE: usize = 4096;

/// Standard output, which has all events, a line each. It is nobody who hears them, and it says no words.
pub(crate) struct Journal {
    output: Bounded,
    outbox: Outbox,
}

impl Drop for Journal {
    fn drop(self) {
        let Journal {
            output: _output,
            outbox: _outbox,
        } = self;
    }
}

/// Contracts see what it is still to be told.
impl Model for Journal {
    ghost use Rattle.fax_clients.specs.Clients.{ClientOutput};

    ghost Value = { ClientOutput };

    ghost view = { λ j. j.outbox };
}

impl Journal {
    /// Standard output, which was told nothing.
    pub(crate) fn new(alloc: Global, output: Stdout) -> Result<Self, NoMemory>
        ensures { IfOk result (λ journal. journal ≡ new_journal) }
    {
        let mut outbox = Outbox::new(alloc);
        outbox.want_events()?;
        Ok(Journal {
            output: Bounded(output),
            outbox,
        })
    }

    /// It is told an event.
    pub(crate) fn tell(&mut self, line: &[u8])
        ensures { HasTold line.now self.old self.new }
    {
        self.outbox.tell(line);
    }

    /// Writes what it takes without waiting, so many lines at most. After a write that failed nothing is written any more.
    pub(crate) fn go_on(&mut self)
        ensures { WritesOn self.old self.new }
    {
        for _ in 0..MOST_LINES {
            self.outbox.go_on();
            if !self.is_ready() {
                return;
            }
            self.outbox.write(&mut self.output);
        }
    }

    /// Whether it is to be told something, and takes it now.
    fn is_ready(&self) -> bool {
        self.is_writing() && is_writable(STANDARD_OUTPUT)
    }

    /// Whether it is to be told something, which it may take.
    pub(crate) fn is_writing(&self) -> bool {
        self.outbox.is_open() && self.outbox.is_writing()
    }

    /// How many lines it lost since this was asked.
    pub(crate) fn take_lost(&mut self) -> u64
        ensures { self.new ≡ counted_output self.old }
    {
        self.outbox.take_lost()
    }
}

/// An output to which so much is written at once that it does not wait, where it is ready.
#[derive(Drop)]
struct Bounded(Stdout);

impl Write for Bounded {
    fn write(&mut self, octets: &[u8]) -> std::io::Result<usize> {
        let most = octets.len().min(MOST_AT_ONCE);
        self.0.write(&octets[..most])
    }

    fn flush(&mut self) -> std::io::Result<()> {
        Ok(())
    }
}
