//! What we tell of our media.
ghost use Rattle.std.specs.Prelude.{◌≡◌, [], ◌∷◌, IfOk, string_bytes};
ghost use Rattle.fax_sdp.specs.Writing.{description_lines, text_of};
ghost use Rattle.fax_requests.specs.Bodies.{origin_by, section_by};

use fax_sdp::{
    AudioFormats, AudioSection, FaxSection, Origin, Section, answer_sections, read_sdp, write_sdp,
};
use fax_switch::Offer;
use std::alloc::{AllocError, Global};
use std::net::SocketAddr;

/// The most octets of a datagram of T.38 that we hear, as we tell it: `T38FaxMaxDatagram`.
const MOST_DATAGRAM: u32 = 1_400;
/// The most octets of T.38 that are kept before they are played out, as we tell it: `T38FaxMaxBuffer`.
const MOST_BUFFER: u32 = 1_800;

/// Where our media are heard, and what is told of them.
#[derive(Clone, Copy)]
pub struct OurMedia {
    /// What is told.
    pub offer: Offer,
    /// Where that is heard.
    pub address: SocketAddr,
    /// The number of the session in descriptions.
    pub session: u64,
    /// The version of the description.
    pub version: u64,
}

/// An offer of our media.
pub fn describe_ours(alloc: Global, ours: OurMedia) -> Result<String, AllocError>
    ensures { IfOk result (λ text. string_bytes text
        ≡ text_of (description_lines (origin_by ours) (section_by ours AudioFormats.Both ∷ []))) }
{
    let section = section_of(ours, AudioFormats::Both);
    write_sdp(alloc, &origin_of(ours), &[section])
}

/// The answer to an offer with this body: our medium in the place of theirs that it answers, and each other one refused (RFC 3264, 6). Where the body offers no
/// such medium it is an offer of ours.
pub fn answer_theirs(alloc: Global, ours: OurMedia, body: &[u8]) -> Result<String, AllocError> {
    let Ok(session) = read_sdp(body) else {
        return describe_ours(alloc, ours);
    };
    let (place, formats) = match ours.offer {
        Offer::Fax => (session.first_t38(), AudioFormats::Both),
        Offer::Audio => match session.first_audio("0") {
            Some(place) => (Some(place), AudioFormats::Pcmu),
            None => (session.first_audio("8"), AudioFormats::Pcma),
        },
    };
    match place {
        Some(place) => {
            let sections = answer_sections(&session, place, section_of(ours, formats));
            write_sdp(alloc, &origin_of(ours), sections.as_slice())
        }
        None => describe_ours(alloc, ours),
    }
}

/// Whose description it is.
fn origin_of(ours: OurMedia) -> Origin
    ensures { result ≡ origin_by ours }
{
    Origin {
        session: ours.session,
        version: ours.version,
        host: ours.address.ip(),
    }
}

/// What is told of our medium.
fn section_of(ours: OurMedia, formats: AudioFormats) -> Section<'static>
    ensures { result ≡ section_by ours formats }
{
    match ours.offer {
        Offer::Fax => Section::Fax(FaxSection {
            port: ours.address.port(),
            max_buffer: MOST_BUFFER,
            max_datagram: MOST_DATAGRAM,
        }),
        Offer::Audio => Section::Audio(AudioSection {
            port: ours.address.port(),
            formats,
        }),
    }
}
