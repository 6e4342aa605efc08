//! The lines that are to be woken, and those whose questions are to be looked at.
use crate::seen::SeenLines;
use crate::watch::Watch;
use fax_gateway::Leg;
use fax_line::PutResult;
use std::alloc::{AllocError, Global};

/// What is to be done on lines before their next turns.
pub(crate) struct Waking {
    /// What tells which legs have datagrams, where the system gives it.
    watch: Option<Watch>,
    /// The lines that are to be woken: something may have come over their legs.
    pub woken: Vec<usize>,
    /// The lines whose questions are to be looked at: one is to be asked, or its time is over.
    pub to_ask: Vec<usize>,
    /// The lines whose pages could not be stored, as pages were put last.
    not_stored: Vec<usize>,
}

impl Drop for Waking {
    fn drop(self) {
        let Waking {
            watch: _watch,
            woken: _woken,
            to_ask: _to_ask,
            not_stored: _not_stored,
        } = self;
    }
}

impl Waking {
    /// Nothing is to be done on so many lines.
    pub(crate) fn new(
        alloc: Global,
        watch: Option<Watch>,
        lines: usize,
    ) -> Result<Self, AllocError> {
        let mut not_stored = Vec::new(alloc);
        not_stored.reserve(lines)?;
        Ok(Waking {
            watch,
            woken: Vec::new(alloc),
            to_ask: Vec::new(alloc),
            not_stored,
        })
    }

    /// Looks which legs have datagrams.
    pub(crate) fn look<S: SeenLines>(&mut self, seen: &S) {
        if let Some(watch) = &mut self.watch {
            watch.look(seen, &mut self.woken);
        }
    }

    /// Pages of lines are to be stored: none could not be so far.
    pub(crate) fn begin_put(&mut self) {
        self.not_stored.clear();
    }

    /// Whether the page of line i was stored, where it confirmed one.
    pub(crate) fn is_stored(&self, i: usize) -> bool {
        !self.not_stored.contains(&i)
    }

    /// Notes the lines that wait whose pages were not stored.
    pub(crate) fn note_lost<S: SeenLines>(&mut self, end: &PutResult, seen: &S) {
        for i in 0..seen.len() {
            if seen.waits(i) && has_confirmed(seen, i) && !end.is_stored(i) {
                let _ = self.not_stored.push(i);
            }
        }
    }

    /// Line i is to be woken where something may come over its legs still, and where they are to be asked.
    pub(crate) fn see<S: SeenLines>(&mut self, i: usize, looks: bool, seen: &S) {
        if looks {
            seen.wake(i, Leg::Calling);
            seen.wake(i, Leg::Called);
        }
        if seen.asks(i) {
            let _ = self.woken.push(i);
        }
    }
}

/// Whether line i confirmed a page in the last turn of its slot.
fn has_confirmed<S: SeenLines>(seen: &S, i: usize) -> bool {
    match seen.turned(i) {
        Some(turned) => turned.kept.is_some(),
        None => false,
    }
}
