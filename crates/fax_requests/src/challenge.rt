//! Challenges, and the credentials that answer them.
ghost use Rattle.std.specs.Prelude.{◌≡◌, ◌++◌, IfOk, OnOk, option_map};
ghost use Rattle.fax_requests.specs.Responding.{answer_part, credentials_value, opaque_part, quoted, rest_part, who_part, word_of as word_for};

use fax_digest::{Algorithm, Credentials, response};
use fax_sip::{credential, unquoted};
use std::alloc::{AllocError, Global};

/// A challenge with `qop=auth` (RFC 7616, 3.3; RFC 8760): its texts as they came, without the quotation marks round them.
#[derive(Clone, Copy)]
pub struct Challenge<'a> {
    /// What the digest is made by.
    pub algorithm: Algorithm,
    /// Whose users are asked.
    pub realm: &'a [u8],
    /// The nonce.
    pub nonce: &'a [u8],
    /// What is to be told again.
    pub opaque: Option<&'a [u8]>,
    /// Whether the nonce alone was too old.
    pub is_stale: bool,
}

/// The challenge of a value of `WWW-Authenticate` or `Proxy-Authenticate`; none of one that is not answered: of another scheme or algorithm, or without `auth`.
pub fn read_challenge(value: &[u8]) -> Option<Challenge<'_>> {
    if value.len() < 7 || !value[..7].eq_ignore_ascii_case(b"Digest ") {
        return None;
    }
    let algorithm = algorithm_of(credential(value, "algorithm"))?;
    let qop = unquoted(credential(value, "qop")?);
    if !qop
        .split(|octet| *octet == b',')
        .any(|word| word.trim_ascii().eq_ignore_ascii_case(b"auth"))
    {
        return None;
    }
    Some(Challenge {
        algorithm,
        realm: unquoted(credential(value, "realm")?),
        nonce: unquoted(credential(value, "nonce")?),
        opaque: credential(value, "opaque").map(|text| unquoted(text)),
        is_stale: is_true(credential(value, "stale")),
    })
}

/// The algorithm that a challenge names: MD5 where it names none.
fn algorithm_of(word: Option<&[u8]>) -> Option<Algorithm> {
    match word {
        None => Some(Algorithm::Md5),
        Some(word) => {
            let word = unquoted(word);
            if word.eq_ignore_ascii_case(b"MD5") {
                Some(Algorithm::Md5)
            } else if word.eq_ignore_ascii_case(b"SHA-256") {
                Some(Algorithm::Sha256)
            } else {
                None
            }
        }
    }
}

/// Whether a word is there, and `true`.
fn is_true(word: Option<&[u8]>) -> bool {
    match word {
        Some(word) => unquoted(word).eq_ignore_ascii_case(b"true"),
        None => false,
    }
}

/// The value of `Authorization` or `Proxy-Authorization` that answers a challenge to a request (RFC 7616, 3.4), the first with its nonce. `Err` means that memory
/// was refused.
pub fn write_credentials(
    alloc: Global,
    challenge: &Challenge<'_>,
    asked: &Credentials<'_>,
) -> Result<Vec<u8>, AllocError>
    ensures { IfOk result (λ value. value.items ≡ credentials_value challenge.now asked.now) }
{
    let mut value = write_who(alloc, asked)?;
    put_answer(&mut value, alloc, challenge, asked)?;
    put_rest(&mut value, challenge, asked)?;
    Ok(value)
}

/// Who answers, and what.
fn write_who(alloc: Global, asked: &Credentials<'_>) -> Result<Vec<u8>, AllocError>
    ensures { IfOk result (λ value. value.items ≡ who_part asked.now) }
{
    let mut value = Vec::new(alloc);
    put_quoted(&mut value, b"Digest username=", asked.user)?;
    put_quoted(&mut value, b", realm=", asked.realm)?;
    put_quoted(&mut value, b", nonce=", asked.nonce)?;
    put_quoted(&mut value, b", uri=", asked.uri)?;
    Ok(value)
}

/// Writes the answer, and what it was made of.
fn put_answer(
    value: &mut Vec<u8>,
    alloc: Global,
    challenge: &Challenge<'_>,
    asked: &Credentials<'_>,
) -> Result<(), AllocError>
    ensures { OnOk result (value.new.items
        ≡ value.old.items ++ answer_part challenge.now asked.now) }
{
    let digits = response(alloc, challenge.algorithm, asked)?;
    put_quoted(value, b", response=", digits.as_bytes())?;
    put_quoted(value, b", cnonce=", asked.client_nonce)?;
    put_opaque(value, challenge.opaque)?;
    Ok(())
}

/// Writes what is to be told again, where there is something.
fn put_opaque(value: &mut Vec<u8>, opaque: Option<&[u8]>) -> Result<(), AllocError>
    ensures { OnOk result (value.new.items
        ≡ value.old.items ++ opaque_part (option_map (λ text. text.now) opaque.entry)) }
{
    if let Some(text) = opaque {
        put_quoted(value, b", opaque=", text)?;
    }
    Ok(())
}

/// Writes what follows.
fn put_rest(
    value: &mut Vec<u8>,
    challenge: &Challenge<'_>,
    asked: &Credentials<'_>,
) -> Result<(), AllocError>
    ensures { OnOk result (value.new.items ≡ value.old.items ++ rest_part challenge.now asked.now) }
{
    put_plain(value, b", nc=", asked.count)?;
    put_plain(
        value,
        b", qop=auth, algorithm=",
        word_of(challenge.algorithm),
    )?;
    Ok(())
}

/// The word of an algorithm.
fn word_of(algorithm: Algorithm) -> &'static [u8]
    ensures { result.now ≡ word_for algorithm }
{
    match algorithm {
        Algorithm::Md5 => b"MD5",
        Algorithm::Sha256 => b"SHA-256",
    }
}

/// Writes a name and a text.
fn put_plain(value: &mut Vec<u8>, name: &[u8], text: &[u8]) -> Result<(), AllocError>
    ensures { OnOk result (value.new.items ≡ value.old.items ++ (name.now ++ text.now)) }
{
    value.extend_from_slice(name)?;
    value.extend_from_slice(text)
}

/// Writes a name and a text in quotation marks.
fn put_quoted(value: &mut Vec<u8>, name: &[u8], text: &[u8]) -> Result<(), AllocError>
    ensures { OnOk result (value.new.items ≡ value.old.items ++ quoted name.now text.now) }
{
    value.extend_from_slice(name)?;
    value.extend_from_slice(b"\"")?;
    value.extend_from_slice(text)?;
    value.extend_from_slice(b"\"")
}
