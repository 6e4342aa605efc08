//! Laws of the definitions: functions that do nothing, each of whose contracts is a theorem.
ghost use Rattle.fax_runs.specs.Crossings.{KilledServersCross, ServersCross, ServersLead, ServersRunOn};
ghost use Rattle.fax_undelivered.specs.declared.paired_store.PairedStore.{PairedStore as StoreShown};

use crate::restarts::laws::{killed_runs_cross, runs_cross, runs_join};
use fax_line::{PageToStore, RunStore};
use fax_queue::laws::whole_lines_are_restored;
use fax_undelivered::PairedStore;
use fax_wires::holding::PageStore;
use sqlite_disk::Disk;

/// What `run_serve` promises of a run over files that held anything leads from these to whatever a crash leaves of them: of each line
/// one life more.
pub fn servers_cross<D: Disk, U: Disk>()
    ensures { ServersCross D.seen D.may_leave D.is_usable D.is_clean
        (λ (store : StoreShown D U). store.storage.queues.items)
        (λ (store : StoreShown D U). store.storage.spool) ⟦<PairedStore<D, U> as RunStore>⟧.is_same
        ⟦<PairedStore<D, U> as PageStore<PageToStore>>⟧.puts
        ⟦<PairedStore<D, U> as RunStore>⟧.notes ⟦<PairedStore<D, U> as RunStore>⟧.ends }
{
    whole_lines_are_restored();
    runs_cross::<D, PairedStore<D, U>>();
}

/// Of a run that is killed, after whichever of its orders, the same is true: what it had done so far leads from what its files held to
/// whatever the crash leaves of them.
pub fn killed_servers_cross<D: Disk, U: Disk>()
    ensures { KilledServersCross D.seen D.may_leave D.is_usable D.is_clean
        (λ (store : StoreShown D U). store.storage.queues.items)
        (λ (store : StoreShown D U). store.storage.spool) ⟦<PairedStore<D, U> as RunStore>⟧.is_same
        ⟦<PairedStore<D, U> as PageStore<PageToStore>>⟧.puts
        ⟦<PairedStore<D, U> as RunStore>⟧.notes ⟦<PairedStore<D, U> as RunStore>⟧.ends }
{
    whole_lines_are_restored();
    killed_runs_cross::<D, PairedStore<D, U>>();
}

/// Over any number of runs and crashes, each run of the server is one life more of the gateway of each of its lines, whatever a crash
/// leaves; each is over files of a type of its own, and what joins it with the next one is what these hold.
pub fn servers_run_on<D: Disk, U: Disk>()
    ensures leads { ServersLead D.seen D.may_leave D.is_usable D.is_clean
        (λ (store : StoreShown D U). store.storage.queues.items)
        (λ (store : StoreShown D U). store.storage.spool) ⟦<PairedStore<D, U> as RunStore>⟧.is_same
        ⟦<PairedStore<D, U> as PageStore<PageToStore>>⟧.puts
        ⟦<PairedStore<D, U> as RunStore>⟧.notes ⟦<PairedStore<D, U> as RunStore>⟧.ends }
    ensures goes_on { ServersRunOn D.seen D.may_leave D.is_usable D.is_clean
        (λ (store : StoreShown D U). store.storage.queues.items)
        (λ (store : StoreShown D U). store.storage.spool) ⟦<PairedStore<D, U> as RunStore>⟧.is_same
        ⟦<PairedStore<D, U> as PageStore<PageToStore>>⟧.puts
        ⟦<PairedStore<D, U> as RunStore>⟧.notes ⟦<PairedStore<D, U> as RunStore>⟧.ends }
{
    servers_cross::<D, U>();
    runs_join();
}
