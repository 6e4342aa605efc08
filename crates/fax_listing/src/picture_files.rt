//! Where pictures and TIFFs are written.
ghost use Rattle.std.specs.Prelude.{◌≡◌, Bool, List, Option, OnErr, OnOk};
ghost use Rattle.fax_command.specs.Streams.{failed_after_write};
ghost use Rattle.fax_listing.specs.Pictures.{FileValue, IsAdded};

/// A file was not made.
#[derive(Clone, Copy, Debug)]
pub struct FileFault;

/// Files that are made, each whole and under a name of its own.
pub trait PictureFiles {
    /// The files that were made, in their order, where they are known.
    ghost made: { Self → Option (List FileValue) };

    /// Whether one was not made.
    ghost failed: { Self → Bool };

    /// Makes a file of this name that has these octets, where there is none.
    fn make(&mut self, name: &str, octets: &[u8]) -> Result<(), FileFault>
        ensures ok { OnOk result (IsAdded (made self.old) (made self.new) name.now octets.now) }
        ensures err { OnErr result (made self.new ≡ made self.old) }
        ensures failed { failed self.new ≡ failed_after_write (failed self.old) result };
}
