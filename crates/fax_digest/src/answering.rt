//! What answers a challenge.
ghost use Rattle.std.specs.Prelude.{◌≡◌, IfOk, OnOk, string_bytes};
ghost use Rattle.fax_digest.specs.Responses.{what_is_asked, what_is_said, response_of, who_asks, with_colon};

use crate::algorithm::Algorithm;
use std::alloc::{AllocError, Global};

/// What answers a challenge is made of, each without the quotation marks round it.
#[derive(Clone, Copy)]
pub struct Credentials<'a> {
    /// The name of the user.
    pub user: &'a [u8],
    /// The realm, as the challenge tells it.
    pub realm: &'a [u8],
    /// The password.
    pub password: &'a [u8],
    /// The method of the request.
    pub method: &'a [u8],
    /// Its Request-URI, as `uri` of the answer says.
    pub uri: &'a [u8],
    /// The nonce, as the challenge tells it.
    pub nonce: &'a [u8],
    /// The how manieth request with this nonce it is, in eight hexadecimal digits: `nc` of the answer.
    pub count: &'a [u8],
    /// A nonce of our own: `cnonce` of the answer.
    pub client_nonce: &'a [u8],
}

/// What answers a challenge with `qop=auth` (RFC 7616, 3.4.1): `response`, in hexadecimal digits. `Err` means that memory was refused.
pub fn response(
    alloc: Global,
    algorithm: Algorithm,
    credentials: &Credentials<'_>,
) -> Result<String, AllocError>
    ensures { IfOk result (λ digits. string_bytes digits ≡ response_of algorithm credentials.now) }
{
    let who = asker(alloc, credentials)?;
    let what = asked(alloc, credentials)?;
    let who = algorithm.hash(alloc, who.as_slice())?;
    let what = algorithm.hash(alloc, what.as_slice())?;
    let said = said(alloc, credentials, who.as_bytes(), what.as_bytes())?;
    algorithm.hash(alloc, said.as_slice())
}

/// The user, the realm and the password.
fn asker(alloc: Global, credentials: &Credentials<'_>) -> Result<Vec<u8>, AllocError>
    ensures { IfOk result (λ text. text.items ≡ who_asks credentials.now) }
{
    let mut text = Vec::from_slice(alloc, credentials.user)?;
    put(&mut text, credentials.realm)?;
    put(&mut text, credentials.password)?;
    Ok(text)
}

/// The method and the Request-URI.
fn asked(alloc: Global, credentials: &Credentials<'_>) -> Result<Vec<u8>, AllocError>
    ensures { IfOk result (λ text. text.items ≡ what_is_asked credentials.now) }
{
    let mut text = Vec::from_slice(alloc, credentials.method)?;
    put(&mut text, credentials.uri)?;
    Ok(text)
}

/// The digest of who asks, the nonces, the quality and the digest of what is asked.
fn said(
    alloc: Global,
    credentials: &Credentials<'_>,
    who: &[u8],
    what: &[u8],
) -> Result<Vec<u8>, AllocError>
    ensures { IfOk result (λ text. text.items ≡ what_is_said credentials.now who.now what.now) }
{
    let mut text = Vec::from_slice(alloc, who)?;
    put(&mut text, credentials.nonce)?;
    put(&mut text, credentials.count)?;
    put(&mut text, credentials.client_nonce)?;
    put(&mut text, b"auth")?;
    put(&mut text, what)?;
    Ok(text)
}

/// Writes a colon and a text.
fn put(octets: &mut Vec<u8>, text: &[u8]) -> Result<(), AllocError>
    ensures { OnOk result (octets.new.items ≡ with_colon octets.old.items text.now) }
{
    octets.push(b':')?;
    octets.extend_from_slice(text)
}
