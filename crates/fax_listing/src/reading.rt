//! A file, read whole.
ghost use Rattle.std.specs.Prelude.{◌≡◌, ◌≢◌, ◌≤◌, ◌⊎◌, true, IfOk, IfSome, Err, vec_len};
ghost use Rattle.fax_command.specs.Streams.{greatest_count};

use crate::fault::LookFault;
use fax_command::{MOST_AT_ONCE, ReadFault, Source};
use std::alloc::{AllocError, Global};

/// Reads all that a source has, whatever its length.
pub(crate) fn read_whole<I: Source>(alloc: Global, source: &mut I) -> Result<Vec<u8>, LookFault>
    ensures whole { IfOk result
        (λ octets. IfSome (I.remaining source.old) (λ all. octets.items ≡ all)) }
    ensures failed { result ≡ Err LookFault.Stream
        → (I.failed source.new ≡ true) ⊎ (greatest_count ≤ I.reads source.new) }
    ensures unfailed { result ≢ Err LookFault.Stream → I.failed source.new ≡ I.failed source.old }
{
    let mut octets = Vec::new(alloc);
    let mut buffer = new_buffer(alloc)?;
    for _ in 0..u64::MAX {
        match source.read(buffer.as_mut_slice()) {
            Ok(0) => return Ok(octets),
            Ok(count) => octets.extend_from_slice(&buffer[..count])?,
            Err(ReadFault::Interrupted) => {}
            Err(ReadFault::Failed) => return Err(LookFault::Stream),
        }
    }
    Err(LookFault::Stream)
}

/// Room for what a read gives.
fn new_buffer(alloc: Global) -> Result<Vec<u8>, AllocError>
    ensures { IfOk result (λ buffer. vec_len buffer ≡ MOST_AT_ONCE) }
{
    vec![in alloc; 0; MOST_AT_ONCE]
}
