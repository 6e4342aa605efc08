//! Calls of which pages could not be delivered, as what gives the orders sees them.
use fax_redial::{RetryEnd, note_end};
use fax_spool::{CallName, WaitingPage};
use fax_undelivered::{Undelivered, UndeliveredCall};
use sqlite_disk::Disk;
use std::alloc::Global;

/// What keeps calls of which pages could not be delivered.
pub trait UndeliveredCalls {
    /// These calls.
    fn calls(&self) -> &[UndeliveredCall];

    /// Whether it takes nothing, since its disk has failed.
    fn refuses(&self) -> bool;

    /// The names of those that came since that was asked last.
    fn take_news(&mut self, alloc: Global) -> Vec<CallName>;

    /// The pages of a call are dropped. `false`: there is no such call; `None`: it could not be done.
    fn drop_call(&mut self, alloc: Global, line: &[u8], life: u32, call: u32) -> Option<bool>;

    /// The pages of a call. `None`: they could not be read.
    fn pages_of(
        &mut self,
        alloc: Global,
        line: &[u8],
        life: u32,
        call: u32,
    ) -> Option<Vec<WaitingPage>>;

    /// The end of a try is noted, at this second since 1970. `false`: it could not be.
    fn note_end(&mut self, alloc: Global, end: &RetryEnd, day: u64) -> bool;
}

impl<U: Disk> UndeliveredCalls for Undelivered<U> {
    fn calls(&self) -> &[UndeliveredCall] {
        Undelivered::calls(self)
    }

    fn refuses(&self) -> bool {
        Undelivered::refuses(self)
    }

    fn take_news(&mut self, alloc: Global) -> Vec<CallName> {
        Undelivered::take_news(self, alloc)
    }

    fn drop_call(&mut self, alloc: Global, line: &[u8], life: u32, call: u32) -> Option<bool> {
        self.discard(alloc, line, life, call).ok()
    }

    fn pages_of(
        &mut self,
        alloc: Global,
        line: &[u8],
        life: u32,
        call: u32,
    ) -> Option<Vec<WaitingPage>> {
        Undelivered::pages_of(self, alloc, line, life, call).ok()
    }

    fn note_end(&mut self, alloc: Global, end: &RetryEnd, day: u64) -> bool {
        note_end(alloc, self, end, day).is_ok()
    }
}
