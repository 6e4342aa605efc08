//! The octets of a notice.
ghost use Rattle.std.specs.Prelude.{◌≡◌, IfOk};
ghost use Rattle.fax_notify.specs.Messages.{message_octets};

use crate::notice::Notice;
use itoa::Buffer;
use std::alloc::{AllocError, Global};

/// The octets of a notice: a line that says it, and one that tells it in words.
pub fn message_of(alloc: Global, notice: Notice) -> Result<Vec<u8>, AllocError>
    ensures { IfOk result (λ octets. octets.items ≡ message_octets notice) }
{
    match notice {
        Notice::Ready { lines } => {
            let mut buffer = Buffer::new();
            let mut octets = Vec::from_slice(alloc, b"READY=1\nSTATUS=lines open: ")?;
            octets.extend_from_slice(buffer.format(lines).as_bytes())?;
            Ok(octets)
        }
        Notice::Stopping => Vec::from_slice(
            alloc,
            b"STOPPING=1\nSTATUS=stops once no line has a call or a job",
        ),
    }
}
