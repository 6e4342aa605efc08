//! What is promised of a server that keeps its pages in a folder.
use fax_line::{PageToStore, RunStore};
use fax_spool_folder::SpoolFolderFile;
use fax_undelivered::PairedStore;
use fax_wires::holding::PageStore;
use sqlite_disk::{Disk, Start};

/// Both pairs of files of a folder: that of the spool, and that of the pages that could not be delivered.
pub type FolderStore<S, T> = PairedStore<SpoolFolderFile<S>, SpoolFolderFile<T>>;

/// What keeps the pages of a server.
pub trait ServedStore {
    ghost use Rattle.std.specs.Prelude.{List};
    ghost use Rattle.fax_config.specs.declared.config.LineConfig.{LineConfig as LineShown};

    /// A server of these lines ran over it.
    ghost ran: { List LineShown → Type 0 };
}

impl<S: Start, T: Start> ServedStore for PairedStore<SpoolFolderFile<S>, SpoolFolderFile<T>> {
    ghost use Rattle.fax_runs.specs.StoredRuns.{ServedOver};

    ghost ran = { λ lines.
        ServedOver ⟦<SpoolFolderFile<S> as Disk>⟧.seen ⟦<SpoolFolderFile<S> as Disk>⟧.may_leave
        ⟦<SpoolFolderFile<S> as Disk>⟧.is_usable ⟦<SpoolFolderFile<S> as Disk>⟧.is_clean
        ⟦<PairedStore<SpoolFolderFile<S>, SpoolFolderFile<T>> as RunStore>⟧.is_same
        ⟦<PairedStore<SpoolFolderFile<S>, SpoolFolderFile<T>> as PageStore<PageToStore>>⟧.puts
        ⟦<PairedStore<SpoolFolderFile<S>, SpoolFolderFile<T>> as RunStore>⟧.notes
        ⟦<PairedStore<SpoolFolderFile<S>, SpoolFolderFile<T>> as RunStore>⟧.ends
        (λ store. store.storage.spool) (λ store. store.storage.queues.items) S.db S.log lines };
}
