//! The algorithms of challenges.
ghost use Rattle.std.specs.Prelude.{◌≡◌, IfOk, string_bytes};
ghost use Rattle.fax_digest.specs.Responses.{hash};

use crate::md5_hash::md5_hash;
use crate::sha256_hash::sha256_hash;
use std::alloc::{AllocError, Global};

/// What a challenge wants its digests made by.
#[derive(Clone, Copy, PartialEq, Eq)]
pub enum Algorithm {
    /// `MD5`, also where a challenge names none.
    Md5,
    /// `SHA-256`.
    Sha256,
}

impl Algorithm {
    /// The digest of a text, in hexadecimal digits. `Err` means that memory was refused.
    pub(crate) fn hash(self, alloc: Global, text: &[u8]) -> Result<String, AllocError>
        ensures { IfOk result (λ digits. string_bytes digits ≡ hash self text.now) }
    {
        match self {
            Algorithm::Md5 => md5_hash(alloc, text),
            Algorithm::Sha256 => sha256_hash(alloc, text),
        }
    }
}
