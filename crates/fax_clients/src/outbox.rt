//! What a client is still to be told.
ghost use Rattle.std.specs.Prelude.{◌≡◌, ◌<◌, [], Some, length, is_some, unwrap_or, flat_map, string_bytes, IfOk, MatchBool, OnOk, OnErr};
ghost use Rattle.fax_control.specs.events.Queues.{Lost, lost_lines, tellings_of};
ghost use Rattle.fax_clients.specs.Clients.{GoesOn, HasTold, IsWritten, nothing_told, telling_text};

use crate::inbox::is_passing;
use fax_bits::NoMemory;
use fax_control::events::{Due, EventQueue};
use std::alloc::Global;
use std::io::Write;
use std::marker::Model;

/// The text that is being written, and the lines of events that wait after it.
pub(crate) struct Outbox {
    alloc: Global,
    text: Vec<u8>,
    /// How much of the text was written.
    written: usize,
    events: Option<EventQueue>,
    /// How many lines of events were lost, as far as was told.
    lost: u64,
    /// Whether the stream takes more.
    is_open: bool,
}

impl Drop for Outbox {
    fn drop(self) {
        let Outbox {
            alloc: _alloc,
            text: _text,
            written: _written,
            events: _events,
            lost: _lost,
            is_open: _is_open,
        } = self;
    }
}

/// Contracts see what is left of the text, the events as they wait for their reader, and how many were lost.
impl Model for Outbox {
    ghost use Rattle.std.specs.Prelude.{◌≤◌, length, drop, option_map};
    ghost use Rattle.fax_control.specs.events.Queues.{due_of};
    ghost use Rattle.fax_clients.specs.Clients.{ClientOutput};

    ghost Value = { ClientOutput };

    ghost view = { λ b. record {
      due = drop b.written b.text.items;
      events = option_map due_of b.events;
      lost = b.lost;
    } };

    ghost invariant = { λ b. b.written ≤ length b.text.items };
}

impl Outbox {
    /// Nothing is to be told, and no events.
    pub(crate) fn new(alloc: Global) -> Self
        ensures { result ≡ nothing_told }
    {
        Outbox {
            alloc,
            text: Vec::new(alloc),
            written: 0,
            events: None,
            lost: 0,
            is_open: true,
        }
    }

    /// Whether the stream takes more.
    pub(crate) fn is_open(&self) -> bool {
        self.is_open
    }

    /// Whether a text is being written.
    pub(crate) fn is_writing(&self) -> bool
        ensures { MatchBool result (0 < length self.now.due) (self.now.due ≡ []) }
    {
        self.written < self.text.len()
    }

    /// Whether events are told.
    pub(crate) fn tells_events(&self) -> bool
        ensures { result ≡ is_some self.now.events }
    {
        self.events.is_some()
    }

    /// From now on events are told.
    pub(crate) fn want_events(&mut self) -> Result<(), NoMemory>
        ensures ok { OnOk result (self.new
            ≡ record self.old { events = Some (unwrap_or self.old.events []) }) }
        ensures err { OnErr result (self.new ≡ self.old) }
    {
        if self.events.is_none() {
            self.events = Some(EventQueue::new(self.alloc)?);
        }
        Ok(())
    }

    /// The text is written next. What was left of the one before is not.
    pub(crate) fn put(&mut self, text: Vec<u8>)
        ensures { self.new ≡ record self.old { due = text.items } }
    {
        self.written = 0;
        self.text = text;
    }

    /// A line of an event waits after the others, or is lost.
    pub(crate) fn tell(&mut self, line: &[u8])
        ensures { HasTold line.now self.old self.new }
    {
        let Some(events) = &mut self.events else {
            return;
        };
        match line.to_vec(self.alloc) {
            Ok(line) => events.push(line),
            Err(_) => self.lost = self.lost.saturating_add(1),
        }
    }

    /// Where no text is being written, the next line of an event is. Without memory for it it is lost.
    pub(crate) fn go_on(&mut self)
        ensures { GoesOn self.old self.new }
    {
        if self.is_writing() {
            return;
        }
        let Some(events) = &mut self.events else {
            return;
        };
        let Some(due) = events.take() else {
            return;
        };
        self.lost = self.lost.saturating_add(due.lost);
        let lines = u64::from(due.line.is_some());
        match text_of(self.alloc, due) {
            Ok(text) => self.put(text),
            Err(_) => self.lost = self.lost.saturating_add(lines),
        }
    }

    /// Writes what the stream takes of the text. A write that failed is the last.
    pub(crate) fn write<S: Write>(&mut self, stream: &mut S)
        ensures { IsWritten self.old self.new }
    {
        match stream.write(&self.text[self.written..]) {
            Ok(0) => self.is_open = false,
            Ok(count) => self.written += count,
            Err(error) => self.is_open = is_passing(error.kind()),
        }
    }

    /// How many lines of events were lost since this was asked.
    pub(crate) fn take_lost(&mut self) -> u64
        ensures lost { result ≡ self.old.lost }
        ensures counted { self.new ≡ record self.old { lost = 0 } }
    {
        let lost = self.lost;
        self.lost = 0;
        lost
    }
}

/// What a reader of events is told: a line that says how many were lost, if any were, and the next one.
fn text_of(alloc: Global, due: Due) -> Result<Vec<u8>, NoMemory>
    ensures { IfOk result (λ text. text.items ≡ flat_map telling_text (tellings_of due)) }
{
    let mut text = lost_text(alloc, due.lost)?;
    match due.line {
        Some(line) => {
            text.extend_from_slice(line.as_slice())?;
            Ok(text)
        }
        None => Ok(text),
    }
}

/// What a reader of events is told where so many lines were lost: nothing where none were.
fn lost_text(alloc: Global, lost: u64) -> Result<Vec<u8>, NoMemory>
    ensures { IfOk result (λ text. text.items ≡ flat_map telling_text (lost_lines lost)) }
{
    if lost == 0 {
        return Ok(Vec::new(alloc));
    }
    let line = lost_line(alloc, lost)?;
    Ok(line.into_bytes())
}

/// The line that says that so many lines were lost.
fn lost_line(alloc: Global, lost: u64) -> Result<String, NoMemory>
    ensures { IfOk result (λ line. string_bytes line ≡ telling_text (Lost lost)) }
{
    Ok(format!(in alloc; "{{\"event\":\"lost\",\"lines\":{lost}}}\n")?)
}
