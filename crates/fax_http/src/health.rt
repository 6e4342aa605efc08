//! How a server is.
ghost use Rattle.std.specs.Prelude.{◌≡◌, ◌++◌, IfOk, OnOk};
ghost use Rattle.fax_http.specs.Healths.{health_text, is_well, reason, status_by};

use crate::answer::Status;
use std::alloc::{AllocError, Global};

/// How a server is.
#[derive(Clone, Copy)]
pub struct Health {
    /// It was told to stop.
    pub is_stopping: bool,
    /// The disk of its spool has failed, so that it takes no page.
    pub has_failed_disk: bool,
    /// The turns of its lines come late.
    pub is_late: bool,
}

impl Health {
    /// Whether nothing is wrong.
    pub fn is_well(self) -> bool
        ensures { result ≡ is_well self }
    {
        !self.is_stopping && !self.has_failed_disk && !self.is_late
    }

    /// What a question for it is answered: 200 where nothing is wrong, and else 503.
    pub fn status(self) -> Status
        ensures { result ≡ status_by (is_well self) }
    {
        if self.is_well() {
            Status::Good
        } else {
            Status::NotWell
        }
    }
}

/// How a server is, in words: `ok`, or a line for each thing that is wrong.
pub fn write_health(alloc: Global, health: Health) -> Result<Vec<u8>, AllocError>
    ensures { IfOk result (λ octets. octets.items ≡ health_text health) }
{
    if health.is_well() {
        return Vec::from_slice(alloc, b"ok\n");
    }
    let mut octets = Vec::new(alloc);
    put_if(&mut octets, health.is_stopping, b"it was told to stop\n")?;
    put_if(
        &mut octets,
        health.has_failed_disk,
        b"the spool's disk has failed\n",
    )?;
    put_if(&mut octets, health.is_late, b"turns are late\n")?;
    Ok(octets)
}

/// Adds a line, where it says what is so.
pub(crate) fn put_if(octets: &mut Vec<u8>, is_so: bool, line: &[u8]) -> Result<(), AllocError>
    ensures { OnOk result (octets.new.items ≡ octets.old.items ++ reason is_so line.now) }
{
    if is_so {
        octets.extend_from_slice(line)
    } else {
        Ok(())
    }
}
