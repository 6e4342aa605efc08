//! Files that have names.
ghost use Rattle.std.specs.Prelude.{◌≡◌, ℕ, List, [], Option, Some, string_bytes, IfOk, IfSome, OnErr, OnOk};
ghost use Rattle.fax_send_receive.specs.Folders.{FileValue, IsAdded};

use std::io;
use std::io::{Read, Write};

/// A file that is made: its name, and what writes to it.
pub struct NewFile<W> {
    pub name: String,
    pub writer: W,
}

impl<W: Drop> Drop for NewFile<W> {
    fn drop(self) {
        let NewFile {
            name: _name,
            writer: _writer,
        } = self;
    }
}

/// Files that have names, and are read and written whole.
pub trait NamedFiles {
    type File: Read + Write + Drop;

    /// The octets of the file of a name, where they are known.
    ghost holds: { Self → List ℕ → Option (List ℕ) };

    /// The files that were made whole, the newest first, where they are known.
    ghost made: { Self → Option (List FileValue) };

    /// Opens the file of this name, to be read from its first octet on.
    fn open(&self, name: &str) -> io::Result<Self::File>
        ensures { IfOk result (λ file.
            IfSome (holds self.now name.now) (λ octets. Self.File.remaining file ≡ Some octets)) };

    /// Makes a file of this name, of no octets, where there is none.
    fn create(&mut self, name: String) -> io::Result<NewFile<Self::File>>
        ensures named { IfOk result (λ file. string_bytes file.name ≡ string_bytes name) }
        ensures empty { IfOk result
            (λ file. IfSome (made self.old) (λ before. Self.File.contents file.writer ≡ Some [])) }
        ensures same { made self.new ≡ made self.old };

    /// What was written to a file that was made is all of it.
    fn close(&mut self, file: NewFile<Self::File>) -> io::Result<()>
        ensures ok { OnOk result (IsAdded (made self.old)
            (made self.new) (string_bytes file.name) (Self.File.contents file.writer)) }
        ensures err { OnErr result (made self.new ≡ made self.old) };
}

/// Writes a file of this name that has these octets, where there is none.
pub(crate) fn write_file<F: NamedFiles>(
    files: &mut F,
    name: String,
    octets: &[u8],
) -> io::Result<()>
    ensures ok { OnOk result (IsAdded (F.made files.old)
        (F.made files.new) (string_bytes name) (Some octets.now)) }
    ensures err { OnErr result (F.made files.new ≡ F.made files.old) }
{
    let mut file = files.create(name)?;
    file.writer.write_all(octets)?;
    files.close(file)
}
