//! The switch: all calls.
ghost use Rattle.std.specs.Prelude.{◌≡◌, ◌<◌, ◌≤◌, length, filter, OnErr, OnOk};
ghost use Rattle.std.specs.Vec.{vec_len};
ghost use Rattle.fax_switch.specs.Calls.{begun_by};
ghost use Rattle.fax_switch.specs.Tables.{begun, has_room, is_on as is_still_on, new_entry, row, stepped_first, swept, with_new};

use crate::call::{Entry, Stage, come, dial};
use crate::event::Event;
use std::alloc::{AllocError, Global};
use std::marker::Model;

/// All calls, each with what is to be done for it, of so many at most.
pub struct Switch {
    entries: Vec<Entry>,
    next: u64,
    most: usize,
}

impl Drop for Switch {
    fn drop(self) {
        let Switch {
            entries: _entries,
            next: _next,
            most: _most,
        } = self;
    }
}

/// Contracts see the entries, the number of the next call, and how many there may be.
impl Model for Switch {
    ghost use Rattle.fax_switch.specs.Tables.{Table};

    ghost Value = { Table };

    ghost view = { λ switch.
        record { next = switch.next; most = switch.most; entries = switch.entries.items } };
}

impl Switch {
    /// No call, of so many at most. It takes no memory.
    pub fn new(alloc: Global, most: usize) -> Self
        ensures { result ≡ begun most }
    {
        Switch {
            entries: Vec::new(alloc),
            next: 0,
            most,
        }
    }

    /// Something happens at a moment. Then `entries` tells what is to be done. `Err` means that memory for one more call was refused: then
    /// nothing happened, and what was to be done for calls that are over is told no more.
    #[tactic(auto, using(crate::proofs::Stepping::first_stepped))]
    pub fn hear(&mut self, now: u64, event: Event) -> Result<(), AllocError>
        ensures ok { OnOk result (self.new ≡ row self.old now event) }
        ensures err { OnErr result (self.new ≡ swept self.old) }
    {
        self.sweep();
        let count = self.entries.len();
        self.add(now, event)?;
        self.step(count, now, event);
        Ok(())
    }

    /// Each call, with what is to be done for it since something happened last.
    pub fn entries(&self) -> &[Entry]
        ensures { result.now ≡ self.now.entries }
    {
        self.entries.as_slice()
    }

    /// Calls that are over are let go of.
    fn sweep(&mut self)
        ensures { self.new ≡ swept self.old }
    {
        sweep(&mut self.entries);
    }

    /// The call that an event begins is one more.
    fn add(&mut self, now: u64, event: Event) -> Result<(), AllocError>
        ensures ok { OnOk result (self.new ≡ with_new (new_entry self.old now event) self.old) }
        ensures err { OnErr result (self.new ≡ self.old) }
    {
        if self.next < u64::MAX {
            self.add_begun(now, event)
        } else {
            Ok(())
        }
    }

    /// The same while there are numbers.
    fn add_begun(&mut self, now: u64, event: Event) -> Result<(), AllocError>
        requires { self.old.next < 18446744073709551615 }
        ensures ok { OnOk result (self.new
            ≡ with_new (begun_by (has_room self.old) self.old.next now event) self.old) }
        ensures err { OnErr result (self.new ≡ self.old) }
    {
        let room = self.entries.len() < self.most;
        match begin(room, self.next, now, event) {
            Some(entry) => {
                self.entries.push(entry)?;
                self.next += 1;
                Ok(())
            }
            None => Ok(()),
        }
    }

    /// So many of the first calls hear an event.
    fn step(&mut self, count: usize, now: u64, event: Event)
        requires { count ≤ length self.old.entries }
        ensures { self.new
            ≡ record self.old { entries = stepped_first count now event self.old.entries } }
    {
        step(&mut self.entries, count, now, event);
    }
}

/// The call that an event begins, where there is room or none.
fn begin(room: bool, id: u64, now: u64, event: Event) -> Option<Entry>
    ensures { result ≡ begun_by room id now event }
{
    match event {
        Event::Came(route, said) => Some(come(room, id, route, now, said)),
        Event::Dialled(on, choice) => Some(dial(room, id, on, choice)),
        Event::Elapsed
        | Event::Rung(_, _)
        | Event::NotRung(_, _)
        | Event::CallOver(_)
        | Event::JobOver(_)
        | Event::Within(_, _) => None,
    }
}

/// Whether a call is not over.
fn is_on(entry: &Entry) -> bool
    ensures { result ≡ is_still_on entry.now }
{
    match entry.call.stage {
        Stage::Over => false,
        Stage::Asking(_, _)
        | Stage::Dropped(_)
        | Stage::Placing(_, _)
        | Stage::Cancelling(_)
        | Stage::Talking(_, _) => true,
    }
}

/// Calls that are over are let go of.
fn sweep(entries: &mut Vec<Entry>)
    ensures { entries.new.items ≡ filter is_still_on entries.old.items }
{
    entries.retain(|entry| is_on(entry));
}

/// So many of the first calls hear an event.
fn step(entries: &mut Vec<Entry>, count: usize, now: u64, event: Event)
    requires { count ≤ length entries.old.items }
    ensures { entries.new.items ≡ stepped_first count now event entries.old.items }
{
    for i in 0..count {
        let entry = entries[i];
        entries[i] = entry.call.after(now, event);
    }
}
