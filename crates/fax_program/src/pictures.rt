//! Pages that become pictures, in files.
ghost use Rattle.std.specs.Prelude.{◌≡◌};

use crate::console::Console;
use crate::failures::tell;
use fax_explain::{PageStore, Place, StoreFault};
use fax_gateway::Leg;
use fax_pagestore::{PackedRows, Page};
use fax_pbm::write_pbm;
use std::alloc::{AllocError, Global};
use std::fs;
use std::rt::Files;

/// Writes pages as pictures into files that are named for the call and the page, and says whether one was not written.
pub(crate) struct Pictures<'a, H: Files> {
    console: &'a Console,
    host: &'a H,
    alloc: Global,
    prefix: &'a str,
    failed: bool,
}

impl<H: Files> Drop for Pictures<'_, H> {
    fn drop(self) {
        let Pictures {
            console: _console,
            host: _host,
            alloc: _alloc,
            prefix: _prefix,
            failed: _failed,
        } = self;
    }
}

impl<'a, H: Files> Pictures<'a, H> {
    /// Pictures whose files' names begin so. None was written.
    pub(crate) fn new(console: &'a Console, host: &'a H, alloc: Global, prefix: &'a str) -> Self {
        Pictures {
            console,
            host,
            alloc,
            prefix,
            failed: false,
        }
    }

    /// Writes the picture of a page, and tells where that fails.
    fn write(&self, place: Place, page: &Page<PackedRows>) -> Result<(), StoreFault> {
        let Ok(path) = path_of(self.alloc, self.prefix, place) else {
            tell(self.console, "a picture: no memory");
            return Err(StoreFault);
        };
        let Ok(octets) = write_pbm(self.alloc, page) else {
            tell(self.console, format_args!("{path}: no memory"));
            return Err(StoreFault);
        };
        match fs::write(self.host, path.as_str(), octets.as_slice()) {
            Ok(()) => Ok(()),
            Err(error) => {
                tell(self.console, format_args!("{path}: {error}"));
                Err(StoreFault)
            }
        }
    }
}

impl<H: Files> PageStore for Pictures<'_, H> {
    ghost failed = { λ pictures. pictures.failed };

    fn keep(&mut self, place: Place, page: &Page<PackedRows>) -> Result<(), StoreFault> {
        let written = self.write(place, page);
        if written.is_err() {
            self.failed = true;
        }
        written
    }
}

/// The name of the file of a page: one that was sent is told apart from one that was confirmed.
fn path_of(alloc: Global, prefix: &str, place: Place) -> Result<String, AllocError> {
    let Place { leg, call, page } = place;
    match leg {
        Leg::Calling => format!(in alloc; "{prefix}-{call}-{page}.pbm"),
        Leg::Called => format!(in alloc; "{prefix}-{call}-{page}-sent.pbm"),
    }
}
