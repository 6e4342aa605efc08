//! What the body of a message says of its sender's media.
ghost use Rattle.std.specs.Prelude.{◌≡◌, codes, find, map, option_map};
ghost use Rattle.fax_sdp.specs.Media.{is_audio, is_t38};
ghost use Rattle.fax_sdp.specs.Sessions.{medium_text};
ghost use Rattle.fax_switch.specs.Descriptions.{Says, SaysAudio, SaysFax, SaysMedia, is_a_law, is_mu_law};

use crate::media::{AudioEnd, Coding, Description, FaxEnd};
use fax_sdp::{Medium, read_sdp};

/// What a body says: T.38 where some medium is that, else audio in PCMU, else in PCMA (RFC 3264; T.38, annex D). It is of no use where
/// the medium has no address, or where the body is no session description.
pub fn describe(body: &[u8]) -> Description
    ensures { Says body.now result }
{
    if body.is_empty() {
        return Description::NothingSaid;
    }
    match read_sdp(body) {
        Ok(session) => describe_media(session.media.as_slice()),
        Err(_) => Description::Unusable,
    }
}

/// What media say.
fn describe_media(media: &[Medium<'_>]) -> Description
    ensures { SaysMedia (map medium_text media.now) result }
{
    if let Some(medium) = first_fax(media) {
        return describe_fax(&medium);
    }
    if let Some(medium) = first_mu_law(media) {
        return describe_audio(&medium, Coding::MuLaw);
    }
    match first_a_law(media) {
        Some(medium) => describe_audio(&medium, Coding::ALaw),
        None => Description::Unusable,
    }
}

/// The first medium that is T.38.
fn first_fax<'a>(media: &[Medium<'a>]) -> Option<Medium<'a>>
    ensures { option_map medium_text result ≡ find is_t38 (map medium_text media.now) }
{
    find_fax(media)
}

/// The same, with where its texts lie.
fn find_fax<'a>(media: &[Medium<'a>]) -> Option<Medium<'a>>
    ensures { result ≡ find (λ medium. is_t38 (medium_text medium)) media.now }
{
    media.iter().copied().find(|medium| medium.is_t38())
}

/// The first medium that is audio in PCMU.
fn first_mu_law<'a>(media: &[Medium<'a>]) -> Option<Medium<'a>>
    ensures { option_map medium_text result ≡ find is_mu_law (map medium_text media.now) }
{
    find_mu_law(media)
}

/// The same, with where its texts lie.
fn find_mu_law<'a>(media: &[Medium<'a>]) -> Option<Medium<'a>>
    ensures { result ≡ find (λ medium. is_mu_law (medium_text medium)) media.now }
{
    media.iter().copied().find(|medium| medium.is_audio("0"))
}

/// The first medium that is audio in PCMA.
fn first_a_law<'a>(media: &[Medium<'a>]) -> Option<Medium<'a>>
    ensures { option_map medium_text result ≡ find is_a_law (map medium_text media.now) }
{
    find_a_law(media)
}

/// The same, with where its texts lie.
fn find_a_law<'a>(media: &[Medium<'a>]) -> Option<Medium<'a>>
    ensures { result ≡ find (λ medium. is_a_law (medium_text medium)) media.now }
{
    media.iter().copied().find(|medium| medium.is_audio("8"))
}

/// T.38 where a medium is heard.
fn describe_fax(medium: &Medium<'_>) -> Description
    ensures { SaysFax (medium_text medium.now) result }
{
    match medium.address() {
        Some(address) => Description::FaxAt(FaxEnd {
            address,
            octets: medium.terms.max_datagram,
        }),
        None => Description::Unusable,
    }
}

/// Audio where a medium is heard.
fn describe_audio(medium: &Medium<'_>, coding: Coding) -> Description
    ensures { SaysAudio coding (medium_text medium.now) result }
{
    match medium.address() {
        Some(address) => Description::AudioAt(AudioEnd { address, coding }),
        None => Description::Unusable,
    }
}
