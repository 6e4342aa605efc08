//! The pages of jobs that failed, in memory.
ghost use Rattle.std.specs.Prelude.{IfOk, []};
ghost use Rattle.fax_undelivered.specs.held.Files.{IsOver, IsOverFilesOf, octets_of};

use crate::Undelivered;
use crate::held::memory_file::MemoryFile;
use fax_bits::NoMemory;
use fax_spool::open_spool;
use std::alloc::Global;

/// None waits so far.
pub fn open_in_memory(alloc: Global) -> Result<Undelivered<MemoryFile>, NoMemory>
    ensures { IfOk result (IsOver [] []) }
{
    open_over(alloc, MemoryFile::new(alloc), MemoryFile::new(alloc))
}

/// The same over the files of one that refuses everything, as memory was refused to it: what waited there waits again. At an `Err` it is
/// gone.
pub fn opened_anew(
    alloc: Global,
    refusing: Undelivered<MemoryFile>,
) -> Result<Undelivered<MemoryFile>, NoMemory>
    ensures { IfOk result (IsOverFilesOf refusing) }
{
    let (older, newer) = refusing.into_spool().into_files();
    open_over(alloc, older.disk, newer.disk)
}

/// What waits in these files. In memory nothing but memory can fail.
fn open_over(
    alloc: Global,
    one: MemoryFile,
    other: MemoryFile,
) -> Result<Undelivered<MemoryFile>, NoMemory>
    ensures { IfOk result (IsOver (octets_of one) (octets_of other)) }
{
    let Ok(opened) = open_spool(alloc, one, other) else {
        return Err(NoMemory);
    };
    let kept = Undelivered::new(alloc, opened)?;
    Ok(kept)
}
