//! What keeps the pages of a run on a disk.
ghost use Rattle.std.specs.Prelude.{◌≡◌, []};
ghost use Rattle.fax_queue.specs.SpoolStorage.{IsUnchanged};
ghost use Rattle.fax_queue.specs.Tags.{NotesTag};

use crate::on_disk::OnDisk;
use crate::storage::Storage;
use fax_line::{LineReport, PageToStore, RunStore};
use fax_wires::holding::{PageStore, StoreFault};
use sqlite_disk::Disk;

/// A spool, and what is known of the pages in it, as a run sees them.
pub struct SpoolStore<D: Disk> {
    pub storage: Storage<D>,
}

impl<D: Disk + Drop> Drop for SpoolStore<D> {
    fn drop(self) {
        let SpoolStore { storage: _storage } = self;
    }
}

impl<D: Disk> SpoolStore<D> {
    /// Pages of lines are put next, all of them at once.
    pub fn begin_put(&mut self)
        ensures tags { self.new.storage.tags.items ≡ [] }
        ensures unchanged { IsUnchanged self.old.storage.queues.items
            self.new.storage.queues.items self.old.storage.spool self.new.storage.spool }
    {
        self.storage.begin_put();
    }

    /// One of them came in a call of line i that has this tag.
    pub fn set_tag(&mut self, i: usize, tag: &str)
        ensures tags { NotesTag i tag.now self.old.storage.tags.items self.new.storage.tags.items }
        ensures unchanged { IsUnchanged self.old.storage.queues.items
            self.new.storage.queues.items self.old.storage.spool self.new.storage.spool }
    {
        self.storage.set_tag(i, tag);
    }
}

/// What it keeps are records of its spool.
impl<D: Disk> PageStore<PageToStore> for SpoolStore<D> {
    ghost use Rattle.fax_queue.specs.Storing.{StoresPages};
    ghost use Rattle.fax_queue.specs.SpoolStorage.{PutsPages};

    ghost keeps = { λ store pages.
        StoresPages D.seen D.may_leave D.is_usable store.storage.spool pages };

    ghost puts = { λ pages is_stored old new.
        PutsPages D.seen D.may_leave D.is_usable pages is_stored
        old.storage.queues.items new.storage.queues.items old.storage.spool new.storage.spool };

    fn store_all(&mut self, pages: &[PageToStore]) -> Result<(), StoreFault> {
        self.storage.store_all(pages)
    }
}

impl<D: Disk> RunStore for SpoolStore<D> {
    ghost use Rattle.fax_queue.specs.SpoolStorage.{IsUnchanged, NotesPage};
    ghost use Rattle.fax_queue.specs.Together.{EndsTogether};

    ghost is_same = { λ old new. IsUnchanged old.storage.queues.items
        new.storage.queues.items old.storage.spool new.storage.spool };

    ghost notes = { λ line call old new. NotesPage line call
        old.storage.queues.items new.storage.queues.items old.storage.spool new.storage.spool };

    ghost ends = { λ ended old new. EndsTogether D.seen D.may_leave D.is_usable ended
        old.storage.queues.items new.storage.queues.items old.storage.spool new.storage.spool };

    fn note(&mut self, line: usize, call: u32) {
        self.storage.note(line, call);
    }

    /// Where that cannot be noted, the pages of the jobs are restored at the next start, and sent again.
    fn end_jobs(&mut self, ended: &[LineReport]) {
        let _ = self.storage.end_all(ended);
    }
}

impl<D: Disk> OnDisk<D> for SpoolStore<D> {
    ghost queues_of = { λ store. store.storage.queues.items };

    ghost spool_of = { λ store. store.storage.spool };
}
