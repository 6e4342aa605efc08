//! Digests by Md5.
ghost use Rattle.std.specs.Prelude.{◌≡◌, IfOk, string_bytes};
ghost use Rattle.fax_digest.specs.Responses.{md5_digits};

use md5::{Digest, Md5};
use std::alloc::{AllocError, Global};

/// The digest of a text by Md5, in hexadecimal digits.
pub(crate) fn md5_hash(alloc: Global, text: &[u8]) -> Result<String, AllocError>
    ensures { IfOk result (λ digits. string_bytes digits ≡ md5_digits text.now) }
{
    let digest = Md5::digest(text);
    hex::encode(alloc, &digest)
}
