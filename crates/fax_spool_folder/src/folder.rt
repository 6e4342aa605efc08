//! Both files of a spool in a folder.
ghost use Rattle.std.specs.Prelude.{◌≡◌, IfOk};
ghost use Rattle.fax_spool.specs.Calls.{Accepts};
ghost use Rattle.fax_spool.specs.Spools.{AreClean, files_of};
ghost use Rattle.fax_spool.specs.Opened.{IsOpened};

use crate::fault::FolderFault;
use crate::foreign::{are_foreign, beginning_of};
use fax_spool::{OpenedSpool, open_spool};
use sqlite_disk::{Disk, Files, Start};
use sqlite_std_file::{FileFrom, open};

/// A file of a spool, which held what `S` says.
pub type SpoolFolderFile<S> = FileFrom<S>;

/// Opens the spool of a folder, which has to be there: the files `pages` and `pages-wal`, made where they are missing, each locked
/// for as long as the spool lives. `S` stands for what the files hold.
pub fn open_folder<S: Start>(
    rt: &HostRuntime,
    folder: &str,
    start: S,
) -> Result<OpenedSpool<FileFrom<S>>, FolderFault>
    ensures opened { IfOk result
        (λ opened. AreClean ⟦<FileFrom<S> as Disk>⟧.is_clean (files_of opened.spool)
        → IsOpened ⟦<FileFrom<S> as Disk>⟧.seen
        ⟦<FileFrom<S> as Disk>⟧.may_leave ⟦<FileFrom<S> as Disk>⟧.is_usable S.db S.log opened) }
    ensures accepts { IfOk result (λ opened. Accepts opened.spool) }
{
    let path = format!(in rt.alloc(); "{folder}/pages")?;
    open_pair(rt, path.as_str(), start)
}

/// Opens the second pair of files of a folder, `undelivered` and `undelivered-wal`, in which pages lie that could not be delivered: a
/// spool of the same form, opened as `open_folder` opens the first.
pub fn open_undelivered_folder<S: Start>(
    rt: &HostRuntime,
    folder: &str,
    start: S,
) -> Result<OpenedSpool<FileFrom<S>>, FolderFault>
    ensures opened { IfOk result
        (λ opened. AreClean ⟦<FileFrom<S> as Disk>⟧.is_clean (files_of opened.spool)
        → IsOpened ⟦<FileFrom<S> as Disk>⟧.seen
        ⟦<FileFrom<S> as Disk>⟧.may_leave ⟦<FileFrom<S> as Disk>⟧.is_usable S.db S.log opened) }
    ensures accepts { IfOk result (λ opened. Accepts opened.spool) }
{
    let path = format!(in rt.alloc(); "{folder}/undelivered")?;
    open_pair(rt, path.as_str(), start)
}

/// Opens a spool over the file of this path and the one beside it, unless they are something else's: then nothing is written.
fn open_pair<S: Start>(
    rt: &HostRuntime,
    path: &str,
    start: S,
) -> Result<OpenedSpool<FileFrom<S>>, FolderFault>
    ensures opened { IfOk result
        (λ opened. AreClean ⟦<FileFrom<S> as Disk>⟧.is_clean (files_of opened.spool)
        → IsOpened ⟦<FileFrom<S> as Disk>⟧.seen
        ⟦<FileFrom<S> as Disk>⟧.may_leave ⟦<FileFrom<S> as Disk>⟧.is_usable S.db S.log opened) }
    ensures accepts { IfOk result (λ opened. Accepts opened.spool) }
{
    let beside = format!(in rt.alloc(); "{path}-wal")?;
    let one = beginning_of(rt, rt.alloc(), path)?;
    let other = beginning_of(rt, rt.alloc(), beside.as_str())?;
    if are_foreign(one.as_slice(), other.as_slice()) {
        return Err(FolderFault::Foreign);
    }
    let files = open(rt, path, start)?;
    let Files { log, db } = files;
    Ok(open_spool(rt.alloc(), db, log)?)
}

/// A system that has spools in folders.
pub trait Folders {
    /// Opens the spool of a folder, as `open_folder`. `S` stands for what its files hold.
    fn open_spool<S: Start>(
        &self,
        folder: &str,
        start: S,
    ) -> Result<OpenedSpool<FileFrom<S>>, FolderFault>
        ensures opened { IfOk result
            (λ opened. AreClean ⟦<FileFrom<S> as Disk>⟧.is_clean (files_of opened.spool)
            → IsOpened ⟦<FileFrom<S> as Disk>⟧.seen ⟦<FileFrom<S> as Disk>⟧.may_leave
            ⟦<FileFrom<S> as Disk>⟧.is_usable S.db S.log opened) }
        ensures accepts { IfOk result (λ opened. Accepts opened.spool) };

    /// Opens the second pair of files of a folder, as `open_undelivered_folder`. `S` stands for what its files hold.
    fn open_undelivered<S: Start>(
        &self,
        folder: &str,
        start: S,
    ) -> Result<OpenedSpool<FileFrom<S>>, FolderFault>
        ensures opened { IfOk result
            (λ opened. AreClean ⟦<FileFrom<S> as Disk>⟧.is_clean (files_of opened.spool)
            → IsOpened ⟦<FileFrom<S> as Disk>⟧.seen ⟦<FileFrom<S> as Disk>⟧.may_leave
            ⟦<FileFrom<S> as Disk>⟧.is_usable S.db S.log opened) }
        ensures accepts { IfOk result (λ opened. Accepts opened.spool) };
}

impl Folders for HostRuntime {
    fn open_spool<S: Start>(
        &self,
        folder: &str,
        start: S,
    ) -> Result<OpenedSpool<FileFrom<S>>, FolderFault> {
        open_folder(self, folder, start)
    }

    fn open_undelivered<S: Start>(
        &self,
        folder: &str,
        start: S,
    ) -> Result<OpenedSpool<FileFrom<S>>, FolderFault> {
        open_undelivered_folder(self, folder, start)
    }
}
