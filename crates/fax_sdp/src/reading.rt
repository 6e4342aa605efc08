//! From octets to the media that they describe.
ghost use Rattle.std.specs.Prelude.{◌≡◌, Some, IfOk, map, option_map, position};
ghost use Rattle.arrayvec.specs.ArrayVec.{array_vec_len};
ghost use Rattle.fax_sdp.specs.Counts.{media_lines};
ghost use Rattle.fax_sdp.specs.Media.{is_audio, is_t38};
ghost use Rattle.fax_sdp.specs.Readers.{media_text, reading_of};
ghost use Rattle.fax_sdp.specs.Sessions.{begun, said, with_host as hosted_by, described, media_of_lines, host_of, kept, media_of, medium_of, medium_text, nothing_said, port_of, read_on, seen, hosted, before_slash as part_before_slash, turned as turned_by, with_attribute as told, with_line, with_medium, with_term as with_term_said};
ghost use Rattle.fax_sdp.specs.Texts.{cut_at, lines_of};

use crate::attribute::{Attribute, attribute_of};
use crate::fault::SdpFault;
use crate::lines::{cut, first_line, is_either, number_of, same_word};
use crate::medium::{Direction, Medium, Terms};
use arrayvec::ArrayVec;

/// The most media of a description.
pub const MOST_MEDIA: usize = 8;

/// The most octets of a description.
pub const MOST_OCTETS: usize = 65_535;

/// The media that a description describes, in their order: so many `m=` lines has its answer.
#[derive(Drop)]
pub struct Session<'a> {
    /// The media.
    pub media: ArrayVec<Medium<'a>, MOST_MEDIA>,
}

impl Session<'_> {
    /// The place of the first medium that is T.38 over UDPTL, and open.
    pub fn first_t38(&self) -> Option<usize>
        ensures { result ≡ position (λ medium. is_t38 (medium_text medium)) self.now.media.items }
    {
        self.media
            .as_slice()
            .iter()
            .position(|medium| medium.is_t38())
    }

    /// The place of the first medium that is audio over RTP in the format of this number, and open.
    pub fn first_audio(&self, payload: &str) -> Option<usize>
        ensures { result ≡ position
            (λ medium. is_audio (medium_text medium) payload.now) self.now.media.items }
    {
        self.media
            .as_slice()
            .iter()
            .position(|medium| medium.is_audio(payload))
    }
}

/// What has been said up to a line.
#[derive(Drop)]
struct Reader<'a> {
    host: Option<&'a str>,
    direction: Direction,
    whole: ArrayVec<Medium<'a>, MOST_MEDIA>,
    current: Option<Medium<'a>>,
}

/// The media that octets describe (RFC 8866, 5), as many as `m=` lines; or why they describe none.
pub fn read_sdp(octets: &[u8]) -> Result<Session<'_>, SdpFault>
    ensures media { seen media_text result ≡ media_of octets.now }
    ensures counted { IfOk result
        (λ session. array_vec_len session.media ≡ media_lines (lines_of octets.now)) }
{
    session_of(octets)
}

/// The media that octets describe.
#[tactic(auto, using(crate::proofs::ReadLemmas::media_too_long))]
fn session_of(octets: &[u8]) -> Result<Session<'_>, SdpFault>
    ensures { seen media_text result ≡ media_of octets.now }
{
    if octets.len() > MOST_OCTETS {
        return Err(SdpFault::TooLong);
    }
    match std::str::from_utf8(octets) {
        Ok(text) => session_in(text),
        Err(_) => Err(SdpFault::NoText),
    }
}

/// The media that a text describes.
fn session_in(text: &str) -> Result<Session<'_>, SdpFault>
    ensures { seen media_text result ≡ described (lines_of text.now) }
{
    match first_line(text) {
        Some((line, rest)) => {
            if line == "v=0" {
                media_in(rest)
            } else {
                Err(SdpFault::NoVersion)
            }
        }
        None => Err(SdpFault::NoVersion),
    }
}

/// The media that the lines after the first describe.
fn media_in(text: &str) -> Result<Session<'_>, SdpFault>
    ensures { seen media_text result ≡ media_of_lines (lines_of text.now) }
{
    match read_lines(text) {
        Ok(reader) => session_read(reader),
        Err(fault) => Err(fault),
    }
}

/// The session once all is read.
fn session_read(reader: Reader<'_>) -> Result<Session<'_>, SdpFault>
    ensures { seen media_text result
        ≡ kept (reading_of reader.entry).whole (reading_of reader.entry).current }
{
    match with_last(reader.whole, reader.current) {
        Ok(media) => Ok(Session { media }),
        Err(fault) => Err(fault),
    }
}

/// What the lines of a text say.
fn read_lines(text: &str) -> Result<Reader<'_>, SdpFault>
    ensures { seen reading_of result ≡ read_on nothing_said (lines_of text.now) }
{
    let mut reader = Reader {
        host: None,
        direction: Direction::SendReceive,
        whole: ArrayVec::new(),
        current: None,
    };
    let mut rest = text;
    while let Some((line, after)) = first_line(rest) {
        match after_line(reader, line) {
            Ok(next) => reader = next,
            Err(fault) => return Err(fault),
        }
        rest = after;
    }
    Ok(reader)
}

/// The media with one more after them.
fn with_last<'a>(
    media: ArrayVec<Medium<'a>, MOST_MEDIA>,
    last: Option<Medium<'a>>,
) -> Result<ArrayVec<Medium<'a>, MOST_MEDIA>, SdpFault>
    ensures { seen (λ media. map medium_text media.items) result
        ≡ kept (map medium_text media.entry.items) (option_map medium_text last.entry) }
{
    let mut media = media;
    let Some(medium) = last else {
        return Ok(media);
    };
    match media.try_push(medium) {
        Ok(()) => Ok(media),
        Err(_) => Err(SdpFault::TooManyMedia),
    }
}

/// What has been said once a line is read.
fn after_line<'a>(reader: Reader<'a>, line: &'a str) -> Result<Reader<'a>, SdpFault>
    ensures { seen reading_of result ≡ with_line (reading_of reader.entry) line.now }
{
    match cut(line, '=') {
        Some((letter, value)) => after_value(reader, letter, value),
        None => Ok(reader),
    }
}

/// What has been said once a line of this letter is read.
fn after_value<'a>(
    reader: Reader<'a>,
    letter: &'a str,
    value: &'a str,
) -> Result<Reader<'a>, SdpFault>
    ensures { seen reading_of result
        ≡ said (reading_of reader.entry) (Some (letter.now, value.now)) }
{
    if letter == "m" {
        begin_medium(reader, value)
    } else if letter == "c" {
        after_connection(reader, value)
    } else if letter == "a" {
        Ok(with_attribute(reader, attribute_of(value)))
    } else {
        Ok(reader)
    }
}

/// A medium begins.
fn begin_medium<'a>(reader: Reader<'a>, text: &'a str) -> Result<Reader<'a>, SdpFault>
    ensures { seen reading_of result ≡ with_medium (reading_of reader.entry)
        (medium_of (reading_of reader.entry).host reader.entry.direction text.now) }
{
    match medium_in(reader.host, reader.direction, text) {
        Some(medium) => with_current(reader, medium),
        None => Err(SdpFault::BadMedium),
    }
}

/// The medium that was on is whole, and this one is on.
fn with_current<'a>(reader: Reader<'a>, medium: Medium<'a>) -> Result<Reader<'a>, SdpFault>
    ensures { seen reading_of result ≡ begun (reading_of reader.entry) (medium_text medium.entry)
        (kept (reading_of reader.entry).whole (reading_of reader.entry).current) }
{
    let (host, direction) = (reader.host, reader.direction);
    match with_last(reader.whole, reader.current) {
        Ok(whole) => Ok(Reader {
            host,
            direction,
            whole,
            current: Some(medium),
        }),
        Err(fault) => Err(fault),
    }
}

/// What has been said once a `c=` line is read.
fn after_connection<'a>(reader: Reader<'a>, text: &'a str) -> Result<Reader<'a>, SdpFault>
    ensures { seen reading_of result ≡ hosted_by (reading_of reader.entry) (host_of text.now) }
{
    match connection_of(text) {
        Some(host) => Ok(with_host(reader, host)),
        None => Err(SdpFault::BadConnection),
    }
}

/// A host is that of the medium that is on, or of the session.
fn with_host<'a>(reader: Reader<'a>, text: &'a str) -> Reader<'a>
    ensures { reading_of result
        ≡ hosted (reading_of reader.entry) text.now (reading_of reader.entry).current }
{
    let Reader {
        host,
        direction,
        whole,
        current,
    } = reader;
    match current {
        Some(medium) => Reader {
            host,
            direction,
            whole,
            current: Some(Medium {
                host: Some(text),
                ..medium
            }),
        },
        None => Reader {
            host: Some(text),
            direction,
            whole,
            current: None,
        },
    }
}

/// An attribute is of the medium that is on, or of the session.
fn with_attribute(reader: Reader<'_>, said: Attribute) -> Reader<'_>
    ensures { reading_of result
        ≡ told (reading_of reader.entry) said (reading_of reader.entry).current }
{
    let Reader {
        host,
        direction,
        whole,
        current,
    } = reader;
    match current {
        Some(medium) => Reader {
            host,
            direction,
            whole,
            current: Some(Medium {
                direction: turned(medium.direction, said),
                terms: with_term(medium.terms, said),
                ..medium
            }),
        },
        None => Reader {
            host,
            direction: turned(direction, said),
            whole,
            current: None,
        },
    }
}

/// Which way media go once an attribute is read.
fn turned(direction: Direction, said: Attribute) -> Direction
    ensures { result ≡ turned_by direction said }
{
    match said {
        Attribute::Goes(direction) => direction,
        _ => direction,
    }
}

/// The terms of T.38 once an attribute is read.
fn with_term(terms: Terms, said: Attribute) -> Terms
    ensures { result ≡ with_term_said terms said }
{
    let mut terms = terms;
    match said {
        Attribute::Version(version) => terms.version = Some(version),
        Attribute::BitRate(rate) => terms.bit_rate = Some(rate),
        Attribute::Management(management) => terms.rate_management = Some(management),
        Attribute::Correction(correction) => terms.error_correction = Some(correction),
        Attribute::MaxBuffer(octets) => terms.max_buffer = Some(octets),
        Attribute::MaxDatagram(octets) => terms.max_datagram = Some(octets),
        Attribute::Goes(_) | Attribute::Other => {}
    }
    terms
}

/// The medium of an `m=` line.
fn medium_in<'a>(host: Option<&'a str>, direction: Direction, text: &'a str) -> Option<Medium<'a>>
    ensures { option_map medium_text result
        ≡ medium_of (option_map (λ host. host.now) host.entry) direction text.now }
{
    let (name, rest) = cut(text, ' ')?;
    let (port, rest) = cut(rest, ' ')?;
    let (transport, formats) = cut(rest, ' ')?;
    let port = port_in(port)?;
    Some(Medium {
        name,
        port,
        transport,
        formats,
        host,
        direction,
        terms: Terms::default(),
    })
}

/// The part of a word before a slash.
fn before_slash(word: &str) -> &str
    ensures { result.now ≡ part_before_slash word.now (cut_at 47 word.now) }
{
    match cut(word, '/') {
        Some((part, _)) => part,
        None => word,
    }
}

/// The port of a medium.
fn port_in(word: &str) -> Option<u16>
    ensures { result ≡ port_of word.now }
{
    let number = number_of(before_slash(word))?;
    u16::try_from(number).ok()
}

/// The host of a `c=` line.
fn connection_of(text: &str) -> Option<&str>
    ensures { option_map (λ host. host.now) result ≡ host_of text.now }
{
    let (net, rest) = cut(text, ' ')?;
    let (kind, address) = cut(rest, ' ')?;
    if same_word(net, "IN") && is_either(kind, "IP4", "IP6") {
        Some(before_slash(address))
    } else {
        None
    }
}
