//! Why a terminal does not run to its end.
ghost use Rattle.std.specs.Prelude.{◌≡◌};
ghost use Rattle.fax_send_receive.specs.Runs.{status_of_fault};

use crate::page_naming::PageNaming;
use fax_bits::NoMemory;
use fax_command::{InputError, InputFault, Status};
use fax_pbm::PbmFault;
use fax_tiff::TiffFault;
use std::alloc::AllocError;
use std::{fmt, io};

/// Why a terminal does not run to its end. Texts are those of the command line.
#[derive(Drop)]
pub enum RunFault<'a> {
    NoMemory,
    /// The file of this name cannot be opened.
    File(&'a str, io::Error),
    /// A read of this file failed, or it has too many octets.
    Unread(&'a str, InputError),
    /// The file begins as a TIFF, and is none of class F.
    Tiff(&'a str, TiffFault),
    /// The file begins as a picture, and is none of a page.
    Picture(&'a str, PbmFault),
    /// The file begins as neither, and is no hex text of a page.
    Text(&'a str, InputFault),
    /// No page, or more than 999.
    PageCount,
    /// This address names no machine, or no socket could be made for it.
    Address(&'a str, io::Error),
    Clock(io::Error),
    /// The clock told no more.
    Time,
    /// A page could not be written: named so, of this call and number.
    Page(PageNaming<'a>, u32, u32, io::Error),
}

impl RunFault<'_> {
    /// The exit status.
    pub fn status(&self) -> Status
        ensures { result ≡ status_of_fault self.now }
    {
        match self {
            RunFault::NoMemory => Status::NoMemory,
            RunFault::Tiff(_, _)
            | RunFault::Picture(_, _)
            | RunFault::Text(_, _)
            | RunFault::PageCount => Status::Fault,
            RunFault::File(_, _)
            | RunFault::Unread(_, _)
            | RunFault::Address(_, _)
            | RunFault::Clock(_)
            | RunFault::Time
            | RunFault::Page(_, _, _, _) => Status::Stream,
        }
    }
}

/// Prints one line, without a line feed.
impl fmt::Display for RunFault<'_> {
    fn fmt<W: fmt::Write>(&self, f: &mut fmt::Formatter<W>) -> fmt::Result {
        match self {
            RunFault::NoMemory => write!(f, "memory was refused"),
            RunFault::File(path, error) => write!(f, "{path}: {error}"),
            RunFault::Unread(path, InputError::TooLong) => {
                write!(f, "{path}: more than 16,777,216 octets")
            }
            RunFault::Unread(path, _) => write!(f, "{path}: a read failed"),
            RunFault::Tiff(path, fault) => write!(f, "{path}: {fault}"),
            RunFault::Picture(path, fault) => write!(f, "{path}: {fault}"),
            RunFault::Text(path, InputFault::Page(fault)) => {
                write!(f, "{path}: no picture, and no page: {fault}")
            }
            RunFault::Text(path, _) => write!(f, "{path}: neither a picture nor hex text"),
            RunFault::PageCount => write!(f, "no page, or more than 999"),
            RunFault::Address(address, error) => write!(f, "{address}: {error}"),
            RunFault::Clock(error) => write!(f, "no clock: {error}"),
            RunFault::Time => write!(f, "the clock tells no more"),
            RunFault::Page(naming, call, page, error) => {
                let (prefix, ending) = (naming.prefix, naming.form.ending());
                write!(f, "{prefix}-{call}-{page}{ending}: {error}")
            }
        }
    }
}

impl From<NoMemory> for RunFault<'_> {
    ghost use Rattle.std.specs.Prelude.{◌≡◌};
    ghost use Rattle.fax_send_receive.specs.declared.run_fault.RunFault.TheVariants as faults;

    ghost from_gives = { λ _ fault. fault ≡ faults.NoMemory };

    fn from(_: NoMemory) -> Self {
        RunFault::NoMemory
    }
}

impl From<AllocError> for RunFault<'_> {
    ghost use Rattle.std.specs.Prelude.{◌≡◌};
    ghost use Rattle.fax_send_receive.specs.declared.run_fault.RunFault.TheVariants as faults;

    ghost from_gives = { λ _ fault. fault ≡ faults.NoMemory };

    fn from(_: AllocError) -> Self {
        RunFault::NoMemory
    }
}

/// Of the clock.
impl From<io::Error> for RunFault<'_> {
    ghost use Rattle.std.specs.Prelude.{◌≡◌};
    ghost use Rattle.fax_send_receive.specs.declared.run_fault.RunFault.TheVariants as faults;

    ghost from_gives = { λ error fault. fault ≡ faults.Clock error };

    fn from(error: io::Error) -> Self {
        RunFault::Clock(error)
    }
}
