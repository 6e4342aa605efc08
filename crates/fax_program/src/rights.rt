//! Who may read and write what lies in the folder of a spool.
use std::alloc::{AllocError, Global};
use std::fs::{OpenOptions, Permissions};
use std::os::unix::fs::{OpenOptionsExt, PermissionsExt};
use std::rt::Files;
use std::{fmt, fs, io};

/// The files of a spool: the pages that wait, and those that could not be delivered.
const SPOOL_FILES: [&str; 4] = ["pages", "pages-wal", "undelivered", "undelivered-wal"];

/// Others than its owner may write.
const OTHERS_WRITE: u32 = 0o022;

/// Others than its owner may do something.
const OTHERS: u32 = 0o077;

/// Its owner may read and write, and nobody else.
const OWNER_ALONE: u32 = 0o600;

/// Why a folder is not one for a spool.
#[derive(Drop)]
pub(crate) enum RightsFault {
    /// Others than its owner may write to it, so they could put another file in the place of one of the spool's.
    Shared,
    Io(io::Error),
    NoMemory,
}

impl From<io::Error> for RightsFault {
    fn from(error: io::Error) -> RightsFault {
        RightsFault::Io(error)
    }
}

impl From<AllocError> for RightsFault {
    fn from(_error: AllocError) -> RightsFault {
        RightsFault::NoMemory
    }
}

/// Prints one line, without a line feed.
impl fmt::Display for RightsFault {
    fn fmt<W: fmt::Write>(&self, f: &mut fmt::Formatter<W>) -> fmt::Result {
        match self {
            RightsFault::Shared => f.write_str("others may write to the folder (chmod go-w)"),
            RightsFault::Io(error) => write!(f, "{error}"),
            RightsFault::NoMemory => f.write_str("memory was refused"),
        }
    }
}

/// Sees that nobody but its owner may write to the folder of a spool, and that its owner alone reads the files of the spool, which
/// are made where they are missing.
pub(crate) fn keep_from_others<N: Files>(
    system: &N,
    alloc: Global,
    folder: &str,
) -> Result<(), RightsFault> {
    let rights = fs::metadata(system, folder)?.permissions().mode();
    if rights & OTHERS_WRITE != 0 {
        return Err(RightsFault::Shared);
    }
    for name in SPOOL_FILES {
        let path = format!(in alloc; "{folder}/{name}")?;
        make_private(system, path.as_str())?;
    }
    Ok(())
}

/// Makes a file where it is missing; from now on its owner alone reads and writes it.
fn make_private<N: Files>(system: &N, path: &str) -> io::Result<()> {
    if !fs::exists(system, path)? {
        let mut how = OpenOptions::new();
        how.write(true).create(true).mode(OWNER_ALONE);
        let _made = how.open(system, path)?;
    }
    let rights = fs::metadata(system, path)?.permissions().mode();
    if rights & OTHERS != 0 {
        fs::set_permissions(system, path, Permissions::from_mode(OWNER_ALONE))?;
    }
    Ok(())
}
