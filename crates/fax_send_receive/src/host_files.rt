//! The files of the system.
ghost use Rattle.std.specs.Prelude.{◌≡◌, List, ℕ, Option, None, string_bytes, OnErr, OnOk};
ghost use Rattle.fax_send_receive.specs.Folders.{FileValue, IsAdded};

use crate::named_files::{NamedFiles, NewFile};
use std::fs::OpenOptions;
use std::rt::Files;
use std::{fs, io};

/// The files of the system, by their paths. No contract says what they hold.
#[derive(Drop)]
pub struct HostFiles<'a, H: Files> {
    host: &'a H,
}

impl<'a, H: Files> HostFiles<'a, H> {
    /// The files of a system.
    pub fn new(host: &'a H) -> Self {
        HostFiles { host }
    }
}

impl<H: Files> NamedFiles for HostFiles<'_, H> {
    ghost use Rattle.std.specs.Prelude.{None};

    type File = H::File;

    ghost holds = { λ files name. None };

    ghost made = { λ files. None };

    fn open(&self, name: &str) -> io::Result<H::File> {
        fs::open(self.host, name)
    }

    fn create(&mut self, name: String) -> io::Result<NewFile<H::File>> {
        let writer = OpenOptions::new()
            .write(true)
            .create_new(true)
            .open(self.host, name.as_str())?;
        Ok(NewFile { name, writer })
    }

    fn close(&mut self, file: NewFile<H::File>) -> io::Result<()>
        ensures ok { OnOk result (IsAdded None None (string_bytes file.name)
            (H.File.contents file.writer)) }
        ensures err { OnErr result (let none : Option (List FileValue) = None in none ≡ none) }
    {
        let NewFile { .. } = file;
        Ok(())
    }
}
