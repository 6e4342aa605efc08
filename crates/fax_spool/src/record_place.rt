//! Where a record stands in its file.
ghost use Rattle.std.specs.Prelude.{◌≡◌, ◌+◌, ◌<◌, ◌^◌, IfOk};

use crate::file::{HEADER, MOST};
use std::io;

/// Where a record stands in its file, in octets.
#[derive(Clone, Copy)]
pub(crate) struct RecordPlace {
    /// How many octets stand before it: those of the records before it, and all headers, its own among them.
    pub(crate) at: usize,
    /// How many octets it has.
    pub(crate) octets: usize,
}

impl RecordPlace {
    /// The place of a record of so many octets that is put where a file ends. It is `StorageFull` where the file has more than 2 ^ 60
    /// octets, or the record.
    pub(crate) fn after(end: usize, octets: usize) -> io::Result<RecordPlace>
        ensures at { IfOk result (λ place. place.at ≡ end + 15) }
        ensures octets { IfOk result (λ place. place.octets ≡ octets) }
        ensures fits { IfOk result (λ place. place.at + place.octets < 2 ^ 64) }
    {
        if end > MOST || octets > MOST {
            return Err(io::ErrorKind::StorageFull.into());
        }
        Ok(RecordPlace {
            at: end + HEADER,
            octets,
        })
    }
}
