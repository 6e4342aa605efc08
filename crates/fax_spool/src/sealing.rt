//! The seal of a record: its digest by SHA-256 (FIPS 180-4), which stands before it.
ghost use Rattle.std.specs.Prelude.{◌≡◌, ◌≢◌, ◌↔◌, List, ℕ, IfOk, IsTrue, MatchOption};
ghost use Rattle.fax_spool.specs.Seals.{sealed};
ghost use Rattle.sha2.specs.Sha256.{sha256};

use sha2::{Digest, Sha256};
use std::alloc::{AllocError, Global};

/// How many octets a digest has.
const DIGEST_OCTETS: usize = 32;

/// A record after its digest of 32 octets.
pub fn seal(alloc: Global, kept: &[u8]) -> Result<Vec<u8>, AllocError>
    ensures sealed { IfOk result (λ octets. octets.items ≡ sealed kept.now) }
{
    let digest = Sha256::digest(kept);
    let mut octets = Vec::with_capacity(alloc, DIGEST_OCTETS)?;
    octets.extend_from_slice(&digest)?;
    octets.extend_from_slice(kept)?;
    Ok(octets)
}

/// The record that octets seal; `None` where they are no record after its digest.
#[tactic(auto, using(crate::proofs::Digests::sealed_long))]
pub fn unseal(octets: &[u8]) -> Option<&[u8]>
    ensures { MatchOption result ((kept : List ℕ)
        → octets.now ≢ sealed kept) (λ kept. octets.now ≡ sealed kept.now) }
{
    if octets.len() < DIGEST_OCTETS {
        return None;
    }
    let (digest, kept) = octets.split_at(DIGEST_OCTETS);
    if !is_digest_of(digest, kept) {
        return None;
    }
    Some(kept)
}

/// Whether octets are the digest of others.
fn is_digest_of(digest: &[u8], octets: &[u8]) -> bool
    ensures { IsTrue result ↔ (digest.now ≡ sha256 octets.now) }
{
    Sha256::digest(octets).as_slice() == digest
}
