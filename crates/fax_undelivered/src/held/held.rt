//! The pages of all lines that wait in memory, and those of jobs that failed.
ghost use Rattle.std.specs.Prelude.{◌≡◌, ◌++◌, ◌∷◌, [], false, IfOk, OnOk, OnErr};
ghost use Rattle.fax_undelivered.specs.StoredEnds.{card_for};
ghost use Rattle.fax_undelivered.specs.held.Files.{IsMended, IsOver, can_be_used, leaves, octets_of};
ghost use Rattle.fax_undelivered.specs.held.Held.{EndsJob, HoldsPage, IsNotPut, NotesPage};
ghost use Rattle.fax_undelivered.specs.held.Lines.{ChangesIf, fresh};

use crate::Undelivered;
use crate::held::memory_file::MemoryFile;
use crate::held::opening::{open_in_memory, opened_anew};
use crate::held::texts::{HeldTexts, JobEnd};
use fax_bits::NoMemory;
use fax_line::PageToStore;
use fax_queue::Queue;
use std::alloc::Global;
use std::mem;

/// The pages of lines, which are counted from 0, that wait in memory, and those of jobs that failed.
pub struct HeldPages {
    alloc: Global,
    /// Which pages of each line wait.
    pub queues: Vec<Queue>,
    /// Their texts, where they are there.
    texts: Vec<HeldTexts>,
    /// The pages of jobs that failed.
    pub undelivered: Undelivered<MemoryFile>,
}

impl Drop for HeldPages {
    fn drop(self) {
        let HeldPages {
            alloc: _alloc,
            queues: _queues,
            texts: _texts,
            undelivered: _undelivered,
        } = self;
    }
}

impl HeldPages {
    /// Of no line, and no job failed so far.
    pub fn new(alloc: Global) -> Result<Self, NoMemory>
        ensures queues { IfOk result (λ held. held.queues.items ≡ []) }
        ensures texts { IfOk result (λ held. held.texts.items ≡ []) }
        ensures second { IfOk result (λ held. IsOver [] [] held.undelivered) }
    {
        Ok(HeldPages {
            alloc,
            queues: Vec::new(alloc),
            texts: Vec::new(alloc),
            undelivered: open_in_memory(alloc)?,
        })
    }

    /// One more line, of this name, none of whose pages waits.
    pub fn add_line(&mut self, name: &str) -> Result<(), NoMemory>
        ensures queues { OnOk result (self.new.queues.items
            ≡ self.old.queues.items ++ fresh name.now ∷ []) }
        ensures texts { OnOk result (self.new.texts.items ≡ self.old.texts.items ++ [] ∷ []) }
        ensures second { self.new.undelivered ≡ self.old.undelivered }
        ensures same_queues { OnErr result (self.new.queues.items ≡ self.old.queues.items) }
        ensures same_texts { OnErr result (self.new.texts.items ≡ self.old.texts.items) }
    {
        let queue = Queue::new(self.alloc, name)?;
        self.queues.reserve(1)?;
        self.texts.push(HeldTexts::new(self.alloc))?;
        self.queues.push_reserved(queue);
        Ok(())
    }

    /// A page of a line was confirmed, in a call of this tag: it waits, after the others of its line. Where memory is refused for its text it
    /// waits without it.
    pub fn confirm(&mut self, page: PageToStore, tag: &[u8])
        ensures held { ChangesIf page.line (HoldsPage page tag.now)
            self.old.queues.items self.new.queues.items self.old.texts.items self.new.texts.items }
        ensures second { self.new.undelivered ≡ self.old.undelivered }
    {
        let i = page.line;
        if i >= self.queues.len() {
            return;
        }
        if i >= self.texts.len() {
            return;
        }
        self.texts[i].confirm(self.alloc, &mut self.queues[i], page, tag);
    }

    /// A page of line i was confirmed in this call, and memory was refused for its text: it waits without it.
    pub fn note(&mut self, i: usize, call: u32)
        ensures noted { ChangesIf i (NotesPage call)
            self.old.queues.items self.new.queues.items self.old.texts.items self.new.texts.items }
        ensures second { self.new.undelivered ≡ self.old.undelivered }
    {
        if i >= self.queues.len() {
            return;
        }
        if i >= self.texts.len() {
            return;
        }
        self.texts[i].note(&mut self.queues[i], call);
    }

    /// The job of line i that was first in turn ended so: its pages wait no more. Where it failed, those that were not delivered are kept, and
    /// `true` tells that: not where the text of one of them is not there, or memory is refused. Where it is not known which pages it had, as
    /// memory was refused before, the texts of all pages of the line are dropped.
    pub fn end_job(&mut self, i: usize, end: &JobEnd<'_>) -> bool
        ensures ends { ChangesIf i
            (EndsJob octets_of leaves can_be_used end.now.report (card_for end.now.report
            end.now.cause.now end.now.day) result self.old.undelivered self.new.undelivered)
            self.old.queues.items self.new.queues.items self.old.texts.items self.new.texts.items }
        ensures not_put { result ≡ false
            → IsNotPut octets_of leaves can_be_used self.old.undelivered self.new.undelivered }
    {
        if i >= self.queues.len() {
            return false;
        }
        if i >= self.texts.len() {
            return false;
        }
        self.texts[i].end_job(self.alloc, &mut self.queues[i], &mut self.undelivered, end)
    }

    /// Where memory was refused to the pages of jobs that failed, so that they refuse everything, they are opened anew: what waited waits
    /// again. Where memory is refused for that too, it is gone.
    pub fn mend(&mut self)
        ensures queues { self.new.queues.items ≡ self.old.queues.items }
        ensures texts { self.new.texts.items ≡ self.old.texts.items }
        ensures second { IsMended self.old.undelivered self.new.undelivered }
    {
        if !self.undelivered.refuses() {
            return;
        }
        let Ok(empty) = open_in_memory(self.alloc) else {
            return;
        };
        let refusing = mem::replace(&mut self.undelivered, empty);
        if let Ok(anew) = opened_anew(self.alloc, refusing) {
            self.undelivered = anew;
        }
    }
}
