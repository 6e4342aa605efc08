//! `faxgate spool`.
use crate::console::Console;
use crate::failures::tell;
use crate::refusals::tell_no_memory;
use fax_command::{Status, StdSink, StdSource, StreamFault, fault_of_streams};
use fax_listing::{FileFault, PictureFiles, SpoolOptions, run_spool};
use std::alloc::{AllocError, Global};
use std::fs::OpenOptions;
use std::io::{Read, Stdout, Write};
use std::rt::Files;
use std::{fs, io};

/// Lists what waits in a spool, and makes pictures of its pages, or one TIFF, where they are wanted. What is harmed, and what failed,
/// is told on the standard error.
pub(crate) fn look_into_spool<H: Files>(
    console: &Console,
    host: &H,
    options: SpoolOptions<'_>,
) -> Status {
    let Ok(paths) = Paths::of(console, options.folder) else {
        return tell_no_memory(console);
    };
    let Some((one, other)) = open_both(console, host, paths.one.as_str(), paths.other.as_str())
    else {
        return Status::Stream;
    };
    let Some(kept_one) = open_if_there(console, host, paths.kept_one.as_str()) else {
        return Status::Stream;
    };
    let Some(kept_other) = open_if_there(console, host, paths.kept_other.as_str()) else {
        return Status::Stream;
    };
    let mut one = StdSource::new(one);
    let mut other = StdSource::new(other);
    let mut kept_one = StdSource::new(kept_one);
    let mut kept_other = StdSource::new(kept_other);
    let mut sink = StdSink::new(console.output());
    let mut pictures = NewPictures::new(console, host, console.alloc());
    let looked = run_spool(
        console.alloc(),
        &mut one,
        &mut other,
        &mut kept_one,
        &mut kept_other,
        &mut sink,
        &mut pictures,
        options,
    );
    let _ = console.eprint(looked.told.as_str());
    if looked.status == Status::Stream {
        tell_unread(console, paths.one.as_str(), &one, &sink);
        tell_unread(console, paths.other.as_str(), &other, &sink);
        tell_unread(console, paths.kept_one.as_str(), &kept_one, &sink);
        tell_unread(console, paths.kept_other.as_str(), &kept_other, &sink);
        tell_unwritten(console, &one, &sink);
    }
    looked.status
}

/// The paths of the files of a spool: those of what waits, and those of what could not be delivered.
struct Paths {
    one: String,
    other: String,
    kept_one: String,
    kept_other: String,
}

impl Drop for Paths {
    fn drop(self) {
        let Paths {
            one: _one,
            other: _other,
            kept_one: _kept_one,
            kept_other: _kept_other,
        } = self;
    }
}

impl Paths {
    /// Of the spool of this folder.
    fn of(console: &Console, folder: &str) -> Result<Self, AllocError> {
        Ok(Paths {
            one: format!(in console.alloc(); "{folder}/pages")?,
            other: format!(in console.alloc(); "{folder}/pages-wal")?,
            kept_one: format!(in console.alloc(); "{folder}/undelivered")?,
            kept_other: format!(in console.alloc(); "{folder}/undelivered-wal")?,
        })
    }
}

/// A file of a spool, or none.
#[derive(Drop)]
enum SpoolFile<F> {
    There(F),
    /// It is not there: as the system says it.
    Absent(io::Error),
}

/// One that is absent is as an empty one.
impl<F: Read> Read for SpoolFile<F> {
    fn read(&mut self, octets: &mut [u8]) -> io::Result<usize> {
        match self {
            SpoolFile::There(file) => file.read(octets),
            SpoolFile::Absent(_) => Ok(0),
        }
    }
}

/// Opens both files of a spool, of which one may be absent. Where that fails, it is told.
fn open_both<H: Files>(
    console: &Console,
    host: &H,
    path: &str,
    other_path: &str,
) -> Option<(SpoolFile<H::File>, SpoolFile<H::File>)> {
    let one = open_if_there(console, host, path)?;
    let other = open_if_there(console, host, other_path)?;
    if let (SpoolFile::Absent(error), SpoolFile::Absent(_)) = (&one, &other) {
        tell(console, format_args!("{path}: {error}"));
        return None;
    }
    Some((one, other))
}

/// Opens a file, which may be absent. Where that fails, it is told.
fn open_if_there<H: Files>(console: &Console, host: &H, path: &str) -> Option<SpoolFile<H::File>> {
    match fs::open(host, path) {
        Ok(file) => Some(SpoolFile::There(file)),
        Err(error) if error.kind() == io::ErrorKind::NotFound => Some(SpoolFile::Absent(error)),
        Err(error) => {
            tell(console, format_args!("{path}: {error}"));
            None
        }
    }
}

/// Tells why a file could not be read, where that is so.
fn tell_unread<R: Read>(
    console: &Console,
    path: &str,
    source: &StdSource<R>,
    sink: &StdSink<Stdout>,
) {
    if let Some(StreamFault::Unread(error)) = fault_of_streams(source, sink) {
        tell(console, format_args!("{path}: {error}"));
    }
}

/// Tells why the standard output failed, where it did and the source did not.
fn tell_unwritten<R: Read>(console: &Console, source: &StdSource<R>, sink: &StdSink<Stdout>) {
    if let Some(StreamFault::Unwritten(error)) = fault_of_streams(source, sink) {
        tell(console, StreamFault::Unwritten(error));
    }
}

/// Makes files of the system, none over one that was there, and tells where that fails. A page that stands in both pairs of files, since a
/// crash came between, has one picture.
struct NewPictures<'a, H: Files> {
    console: &'a Console,
    host: &'a H,
    alloc: Global,
    /// The names of those that were made.
    names: Vec<String>,
    failed: bool,
}

impl<H: Files> Drop for NewPictures<'_, H> {
    fn drop(self) {
        let NewPictures {
            console: _console,
            host: _host,
            alloc: _alloc,
            names: _names,
            failed: _failed,
        } = self;
    }
}

impl<'a, H: Files> NewPictures<'a, H> {
    /// None was made.
    fn new(console: &'a Console, host: &'a H, alloc: Global) -> Self {
        NewPictures {
            console,
            host,
            alloc,
            names: Vec::new(alloc),
            failed: false,
        }
    }

    /// Whether a file of this name was made.
    fn has_made(&self, name: &str) -> bool {
        self.names.iter().any(|made| made.as_str() == name)
    }

    /// Makes a file of the system.
    fn write(&self, name: &str, octets: &[u8]) -> io::Result<()> {
        let mut file = OpenOptions::new()
            .write(true)
            .create_new(true)
            .open(self.host, name)?;
        file.write_all(octets)
    }
}

/// Notes the name of a file that was made. Without memory another page of this name is told as one whose file is there.
fn note(names: &mut Vec<String>, alloc: Global, name: &str) {
    if let Ok(name) = String::from_str(alloc, name) {
        let _ = names.push(name);
    }
}

impl<H: Files> PictureFiles for NewPictures<'_, H> {
    ghost use Rattle.std.specs.Prelude.{None};

    ghost made = { λ pictures. None };

    ghost failed = { λ pictures. pictures.failed };

    fn make(&mut self, name: &str, octets: &[u8]) -> Result<(), FileFault> {
        if self.has_made(name) {
            return Ok(());
        }
        match self.write(name, octets) {
            Ok(()) => {
                note(&mut self.names, self.alloc, name);
                Ok(())
            }
            Err(error) => {
                tell(self.console, format_args!("{name}: {error}"));
                self.failed = true;
                Err(FileFault)
            }
        }
    }
}
