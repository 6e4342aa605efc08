//! What keeps the pages of a run on a disk.
use sqlite_disk::Disk;

/// What keeps the pages of a run on a disk of this type: contracts see the queues of its lines, and its spool.
pub trait OnDisk<D: Disk> {
    ghost use Rattle.std.specs.Prelude.{List};
    ghost use Rattle.fax_spool.specs.declared.spool.Spool.{Spool as SpoolShown};
    ghost use Rattle.fax_queue.specs.Queues.{QueueValue};

    ghost queues_of: { Self → List QueueValue };

    ghost spool_of: { Self → SpoolShown D };
}
