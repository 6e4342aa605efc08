//! What is told of our media: the text of an offer or an answer.
ghost use Rattle.std.specs.Prelude.{◌≡◌, ◌++◌, IfOk, OnOk, decimal, map, slice_set, string_bytes};
ghost use Rattle.fax_sdp.specs.Sessions.{media_of};
ghost use Rattle.fax_sdp.specs.Writing.{CanBeTold, audio_lines, connection_line, description_lines, ended, fax_lines, format_lines, medium_line, numbers_of as payloads_of, origin_line, refused_lines, section_lines, session_lines, text_of, told_media};

use crate::medium::Medium;
use crate::reading::{MOST_MEDIA, Session};
use arrayvec::ArrayVec;
use std::alloc::{AllocError, Global};
use std::net::IpAddr;

/// Whose description it is, and which of its session: our host hears all its media.
#[derive(Clone, Copy)]
pub struct Origin {
    /// The number of the session, the same in all descriptions of a call.
    pub session: u64,
    /// The version of the description, one more after each change.
    pub version: u64,
    /// Where its media are heard.
    pub host: IpAddr,
}

/// T.38 over UDPTL that is open: version 0, 14,400 bits a second at most, the TCF transferred, redundancy.
#[derive(Clone, Copy)]
pub struct FaxSection {
    /// The port at which it is heard.
    pub port: u16,
    /// The most octets that are kept before they are played out (`T38FaxMaxBuffer`).
    pub max_buffer: u32,
    /// The most octets of a datagram that is heard (`T38FaxMaxDatagram`).
    pub max_datagram: u32,
}

/// The formats of audio that a call has before it is a fax's.
#[derive(Clone, Copy)]
pub enum AudioFormats {
    /// PCMU alone, whose number is 0.
    Pcmu,
    /// PCMA alone, 8.
    Pcma,
    /// Either; PCMU is preferred.
    Both,
}

/// Audio over RTP that is open.
#[derive(Clone, Copy)]
pub struct AudioSection {
    /// The port at which it is heard.
    pub port: u16,
    /// Its formats.
    pub formats: AudioFormats,
}

/// What is told of one medium.
#[derive(Clone, Copy)]
pub enum Section<'a> {
    /// T.38 over UDPTL.
    Fax(FaxSection),
    /// Audio over RTP.
    Audio(AudioSection),
    /// A medium of an offer that is refused: its port is 0.
    Refused(Medium<'a>),
}

impl Default for Section<'_> {
    /// A medium of no name that is refused.
    fn default() -> Self {
        Section::Refused(Medium::default())
    }
}

/// What an answer tells of an offer's media, in their order (RFC 3264, 6): the medium at this place so, and each other one
/// refused; each one where the offer has no such place.
pub fn answer_sections<'a>(
    offer: &Session<'a>,
    place: usize,
    taken: Section<'a>,
) -> ArrayVec<Section<'a>, MOST_MEDIA>
    ensures { result.items
        ≡ slice_set (map Section.Refused offer.now.media.items) place taken.entry }
{
    let mut sections = ArrayVec::new();
    for medium in offer.media.as_slice() {
        let _ = sections.try_push(Section::Refused(*medium));
    }
    if place < sections.len() {
        sections.as_mut_slice()[place] = taken;
    }
    sections
}

/// The text of a description of these media, in their order. `Err` means that memory was refused.
pub fn write_sdp(
    alloc: Global,
    origin: &Origin,
    sections: &[Section<'_>],
) -> Result<String, AllocError>
    ensures text { IfOk result
        (λ text. string_bytes text ≡ text_of (description_lines origin.now sections.now)) }
    // What is written is read back.
    ensures read_back { IfOk result (λ text. CanBeTold origin.now sections.now
        → media_of (string_bytes text) ≡ Ok (told_media origin.now sections.now)) }
{
    description_text(alloc, origin, sections)
}

/// The text of a description of these media.
fn description_text(
    alloc: Global,
    origin: &Origin,
    sections: &[Section<'_>],
) -> Result<String, AllocError>
    ensures { IfOk result
        (λ text. string_bytes text ≡ text_of (description_lines origin.now sections.now)) }
{
    let mut text = String::new(alloc);
    put_session(&mut text, origin)?;
    for section in sections {
        put_section(&mut text, section)?;
    }
    Ok(text)
}

/// Writes a line.
fn put_line(text: &mut String, line: &str) -> Result<(), AllocError>
    ensures { OnOk result (string_bytes text.new ≡ string_bytes text.old ++ ended line.now) }
{
    write!(text, "{line}\r\n")
}

/// Writes the line of an attribute whose value is a number.
fn put_number(text: &mut String, name: &str, number: u32) -> Result<(), AllocError>
    ensures { OnOk result (string_bytes text.new
        ≡ string_bytes text.old ++ ended (name.now ++ decimal number)) }
{
    write!(text, "{name}{number}\r\n")
}

/// Writes an `m=` line.
fn put_medium(
    text: &mut String,
    name: &str,
    port: u16,
    transport: &str,
    formats: &str,
) -> Result<(), AllocError>
    ensures { OnOk result (string_bytes text.new
        ≡ string_bytes text.old ++ ended (medium_line name.now port transport.now formats.now)) }
{
    write!(text, "m={name} {port} {transport} {formats}\r\n")
}

/// Writes the `o=` line.
fn put_origin(text: &mut String, origin: &Origin) -> Result<(), AllocError>
    ensures { OnOk result (string_bytes text.new
        ≡ string_bytes text.old ++ ended (origin_line origin.now)) }
{
    let session = origin.session;
    let version = origin.version;
    match origin.host {
        IpAddr::V4(ip) => write!(text, "o=- {session} {version} IN IP4 {ip}\r\n"),
        IpAddr::V6(ip) => write!(text, "o=- {session} {version} IN IP6 {ip}\r\n"),
    }
}

/// Writes the `c=` line.
fn put_connection(text: &mut String, host: IpAddr) -> Result<(), AllocError>
    ensures { OnOk result (string_bytes text.new
        ≡ string_bytes text.old ++ ended (connection_line host)) }
{
    match host {
        IpAddr::V4(ip) => write!(text, "c=IN IP4 {ip}\r\n"),
        IpAddr::V6(ip) => write!(text, "c=IN IP6 {ip}\r\n"),
    }
}

/// Writes the lines before the media.
fn put_session(text: &mut String, origin: &Origin) -> Result<(), AllocError>
    ensures { OnOk result (string_bytes text.new
        ≡ string_bytes text.old ++ text_of (session_lines origin.now)) }
{
    put_line(text, "v=0")?;
    put_origin(text, origin)?;
    put_line(text, "s=-")?;
    put_connection(text, origin.host)?;
    put_line(text, "t=0 0")
}

/// Writes the lines of a medium.
fn put_section(text: &mut String, section: &Section<'_>) -> Result<(), AllocError>
    ensures { OnOk result (string_bytes text.new
        ≡ string_bytes text.old ++ text_of (section_lines section.now)) }
{
    match section {
        Section::Fax(fax) => put_fax(text, *fax),
        Section::Audio(audio) => put_audio(text, *audio),
        Section::Refused(medium) => put_refused(text, medium),
    }
}

/// Writes the lines of T.38.
fn put_fax(text: &mut String, fax: FaxSection) -> Result<(), AllocError>
    ensures { OnOk result (string_bytes text.new
        ≡ string_bytes text.old ++ text_of (fax_lines fax)) }
{
    put_medium(text, "image", fax.port, "udptl", "t38")?;
    put_line(text, "a=T38FaxVersion:0")?;
    put_line(text, "a=T38MaxBitRate:14400")?;
    put_line(text, "a=T38FaxRateManagement:transferredTCF")?;
    put_number(text, "a=T38FaxMaxBuffer:", fax.max_buffer)?;
    put_number(text, "a=T38FaxMaxDatagram:", fax.max_datagram)?;
    put_line(text, "a=T38FaxUdpEC:t38UDPRedundancy")
}

/// Writes the lines of audio.
fn put_audio(text: &mut String, audio: AudioSection) -> Result<(), AllocError>
    ensures { OnOk result (string_bytes text.new
        ≡ string_bytes text.old ++ text_of (audio_lines audio)) }
{
    put_medium(
        text,
        "audio",
        audio.port,
        "RTP/AVP",
        numbers_of(audio.formats),
    )?;
    put_formats(text, audio.formats)
}

/// The numbers of the formats, with one space between.
fn numbers_of(formats: AudioFormats) -> &'static str
    ensures { result.now ≡ payloads_of formats }
{
    match formats {
        AudioFormats::Pcmu => "0",
        AudioFormats::Pcma => "8",
        AudioFormats::Both => "0 8",
    }
}

/// Writes what each number stands for.
fn put_formats(text: &mut String, formats: AudioFormats) -> Result<(), AllocError>
    ensures { OnOk result (string_bytes text.new
        ≡ string_bytes text.old ++ text_of (format_lines formats)) }
{
    match formats {
        AudioFormats::Pcmu => put_line(text, "a=rtpmap:0 PCMU/8000"),
        AudioFormats::Pcma => put_line(text, "a=rtpmap:8 PCMA/8000"),
        AudioFormats::Both => {
            put_line(text, "a=rtpmap:0 PCMU/8000")?;
            put_line(text, "a=rtpmap:8 PCMA/8000")
        }
    }
}

/// Writes the line of a medium that is refused.
fn put_refused(text: &mut String, medium: &Medium<'_>) -> Result<(), AllocError>
    ensures { OnOk result (string_bytes text.new
        ≡ string_bytes text.old ++ text_of (refused_lines medium.now)) }
{
    put_medium(text, medium.name, 0, medium.transport, medium.formats)
}
