//! What happened at an event.
ghost use Rattle.std.specs.Prelude.{◌≡◌, ◌++◌, ◌∷◌, [], option_map, slice_get, IfOk, OnOk};
ghost use Rattle.fax_descriptions.specs.Tales.{last_with, paragraph_text};
ghost use Rattle.fax_descriptions.specs.Tellings.{shown_of};

use crate::lane::Lane;
use crate::paragraph::paragraph_of;
use fax_bits::NoMemory;
use std::alloc::Global;
use std::marker::Model;

/// A thing that happened, in words.
#[derive(Drop)]
pub(crate) struct Entry {
    pub lane: Lane,
    pub words: String,
}

/// The same, as it is shown.
#[derive(Clone, Copy)]
pub struct Told<'a> {
    pub lane: Lane,
    pub words: &'a str,
}

/// What happened at an event, in the order in which it happened. Nothing is promised of a tale after an `Err`.
pub struct Tale {
    alloc: Global,
    entries: Vec<Entry>,
}

impl Drop for Tale {
    fn drop(self) {
        let Tale {
            alloc: _alloc,
            entries: _entries,
        } = self;
    }
}

/// Contracts see the list of what is told: where each thing happened, and its words.
impl Model for Tale {
    ghost use Rattle.std.specs.Prelude.{List, map};
    ghost use Rattle.fax_descriptions.specs.Tellings.{Description, telling_of};

    ghost Value = { List Description };

    ghost view = { λ tale. map telling_of tale.entries.items };
}

impl Tale {
    /// Nothing has happened.
    pub fn new(alloc: Global) -> Self
        ensures { result ≡ [] }
    {
        Tale {
            alloc,
            entries: Vec::new(alloc),
        }
    }

    /// One thing more happened.
    pub fn tell(&mut self, lane: Lane, words: &str) -> Result<(), NoMemory>
        ensures { OnOk result (self.new
            ≡ self.old ++ record { lane = lane; words = words.now } ∷ []) }
    {
        let words = String::from_str(self.alloc, words)?;
        self.entries.push(Entry { lane, words })?;
        Ok(())
    }

    /// More words of what happened last; where nothing has, they are told of the gateway itself.
    pub fn add(&mut self, more: &str) -> Result<(), NoMemory>
        ensures { OnOk result (self.new ≡ last_with more.now self.old) }
    {
        let Some(last) = self.entries.len().checked_sub(1) else {
            return self.tell(Lane::Inside, more);
        };
        self.entries[last].words.push_str(more)?;
        Ok(())
    }

    /// What happened in another tale happened after it.
    pub fn append(&mut self, mut other: Tale) -> Result<(), NoMemory>
        ensures { OnOk result (self.new ≡ self.old ++ other) }
    {
        self.entries.append(&mut other.entries)?;
        Ok(())
    }

    /// Thing i of those that happened, counted from 0. `None`: not so many did.
    pub fn told(&self, i: usize) -> Option<Told<'_>>
        ensures { option_map shown_of result ≡ slice_get self.now i }
    {
        match self.entries.get(i) {
            Some(entry) => Some(Told {
                lane: entry.lane,
                words: entry.words.as_str(),
            }),
            None => None,
        }
    }

    /// The lines that tell it at a moment in milliseconds.
    pub fn paragraph(&self, moment: u64) -> Result<Vec<u8>, NoMemory>
        ensures { IfOk result (λ text. text.items ≡ paragraph_text moment self.now) }
    {
        paragraph_of(self.alloc, moment, self.entries.as_slice())
    }
}
