//! Why the spool of a folder was not opened.
use sqlite_std_file::OpenError;
use std::alloc::AllocError;
use std::{fmt, io};

/// Why the spool of a folder was not opened.
#[derive(Clone, Copy, Debug)]
pub enum FolderFault {
    /// Another process has it open.
    Busy,
    /// The system refused it: the folder is not there, a file may not be written, the disk failed.
    Io(io::Error),
    /// Memory was refused.
    NoMemory,
    /// Nothing of a spool can be read in its files, or one that SQLite left stands beside them: the folder is no spool's.
    Foreign,
}

impl From<io::Error> for FolderFault {
    fn from(error: io::Error) -> FolderFault {
        match error.kind() {
            io::ErrorKind::OutOfMemory => FolderFault::NoMemory,
            _ => FolderFault::Io(error),
        }
    }
}

impl From<AllocError> for FolderFault {
    ghost use Rattle.std.specs.Prelude.{◌≡◌};
    ghost use Rattle.fax_spool_folder.specs.declared.fault.FolderFault.TheVariants as faults;

    ghost from_gives = { λ _ fault. fault ≡ faults.NoMemory };

    fn from(_error: AllocError) -> FolderFault {
        FolderFault::NoMemory
    }
}

impl From<OpenError> for FolderFault {
    fn from(error: OpenError) -> FolderFault {
        match error {
            OpenError::Busy => FolderFault::Busy,
            OpenError::Io(error) => FolderFault::from(error),
            OpenError::OutOfMemory => FolderFault::NoMemory,
            OpenError::HotJournal => FolderFault::Foreign,
        }
    }
}

impl fmt::Display for FolderFault {
    fn fmt<W: fmt::Write>(&self, f: &mut fmt::Formatter<W>) -> fmt::Result {
        match self {
            FolderFault::Busy => f.write_str("another process has this spool"),
            FolderFault::Io(error) => write!(f, "{error}"),
            FolderFault::NoMemory => f.write_str("memory was refused"),
            FolderFault::Foreign => f.write_str("the folder has files of something else"),
        }
    }
}
