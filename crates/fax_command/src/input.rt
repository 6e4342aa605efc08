//! An input, read whole.
ghost use Rattle.std.specs.Prelude.{◌≡◌, ◌≢◌, ◌+◌, ◌<◌, ◌≤◌, ◌⊎◌, true, IfOk, IfSome, Err, vec_len};

use crate::stream::{MOST_AT_ONCE, MOST_OCTETS, MOST_READS, ReadFault, Source};
use std::alloc::{AllocError, Global};

/// Why an input was not read whole.
#[derive(Clone, Copy, PartialEq, Eq, Debug)]
pub enum InputError {
    /// A read failed.
    Failed,
    /// It has more octets than an input may have, or takes more reads.
    TooLong,
    NoMemory,
}

impl From<AllocError> for InputError {
    ghost use Rattle.std.specs.Prelude.{◌≡◌};
    ghost use Rattle.fax_command.specs.declared.input.InputError.TheVariants as input_errors;

    ghost from_gives = { λ _ e. e ≡ input_errors.NoMemory };

    fn from(_: AllocError) -> Self {
        InputError::NoMemory
    }
}

/// Reads all that a source has.
pub fn read_input<I: Source>(alloc: Global, source: &mut I) -> Result<Vec<u8>, InputError>
    ensures whole { IfOk result
        (λ input. IfSome (I.remaining source.old) (λ octets. input.items ≡ octets)) }
    ensures short { IfOk result (λ input. vec_len input ≤ MOST_OCTETS) }
    ensures failed { result ≡ Err InputError.Failed → I.failed source.new ≡ true }
    ensures unfailed { result ≢ Err InputError.Failed → I.failed source.new ≡ I.failed source.old }
    ensures reads { I.reads source.new ≤ I.reads source.old + MOST_READS }
    ensures given { I.given source.new ≤ I.given source.old + MOST_OCTETS + MOST_AT_ONCE }

    // The counts of a source that was not read are 0.
    ensures within { I.given source.old ≡ 0
        → result ≢ Err InputError.TooLong → I.given source.new ≤ MOST_OCTETS }
    ensures too_long { I.reads source.old ≡ 0
        → I.given source.old ≡ 0 → result ≡ Err InputError.TooLong
        → (I.reads source.new ≡ MOST_READS) ⊎ (MOST_OCTETS < I.given source.new) }
{
    let mut input = Vec::new(alloc);
    let mut buffer = new_buffer(alloc)?;
    for _ in 0..MOST_READS {
        let room = MOST_OCTETS as usize - input.len();
        match source.read(buffer.as_mut_slice()) {
            Ok(0) => return Ok(input),
            Ok(count) if count > room => return Err(InputError::TooLong),
            Ok(count) => input.extend_from_slice(&buffer[..count])?,
            Err(ReadFault::Interrupted) => {}
            Err(ReadFault::Failed) => return Err(InputError::Failed),
        }
    }
    Err(InputError::TooLong)
}

/// Room for what a read gives.
fn new_buffer(alloc: Global) -> Result<Vec<u8>, AllocError>
    ensures { IfOk result (λ buffer. vec_len buffer ≡ MOST_AT_ONCE) }
{
    vec![in alloc; 0; MOST_AT_ONCE]
}
