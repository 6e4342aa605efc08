//! Digests by Sha256.
ghost use Rattle.std.specs.Prelude.{◌≡◌, IfOk, string_bytes};
ghost use Rattle.fax_digest.specs.Responses.{sha256_digits};

use sha2::{Digest, Sha256};
use std::alloc::{AllocError, Global};

/// The digest of a text by Sha256, in hexadecimal digits.
pub(crate) fn sha256_hash(alloc: Global, text: &[u8]) -> Result<String, AllocError>
    ensures { IfOk result (λ digits. string_bytes digits ≡ sha256_digits text.now) }
{
    let digest = Sha256::digest(text);
    hex::encode(alloc, &digest)
}
