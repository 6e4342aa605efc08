//! Session descriptions by hand: the lines as RFC 3264 and ITU-T T.38 (annex D) write them.
use fax_sdp::{
    AudioFormats, AudioSection, Direction, ErrorCorrection, FaxSection, Medium, Origin,
    RateManagement, SdpFault, Section, Session, Terms, answer_sections, read_sdp, write_sdp,
};
use std::alloc::{AllocError, Global};
use std::net::{IpAddr, Ipv4Addr, SocketAddr};

/// An offer of audio and, on the second line, of T.38.
const OFFER: &[u8] =
    b"v=0\r\no=gw 2890844526 2890844527 IN IP4 192.0.2.9\r\ns=-\r\nc=IN IP4 192.0.2.9\r\nt=0 0\r\n\
m=audio 49170 RTP/AVP 0 8\r\nm=image 49172 udptl t38\r\na=T38FaxVersion:0\r\n";

/// The answer that takes T.38 alone: the audio comes first, as in the offer, with port 0.
const ANSWER: &str = "v=0\r\no=- 7 1 IN IP4 192.0.2.1\r\ns=-\r\nc=IN IP4 192.0.2.1\r\nt=0 0\r\n\
m=audio 0 RTP/AVP 0 8\r\nm=image 41000 udptl t38\r\na=T38FaxVersion:0\r\na=T38MaxBitRate:14400\r\n\
a=T38FaxRateManagement:transferredTCF\r\na=T38FaxMaxBuffer:1800\r\na=T38FaxMaxDatagram:1400\r\n\
a=T38FaxUdpEC:t38UDPRedundancy\r\n";

/// An offer of audio in either format.
const AUDIO: &str = "v=0\r\no=- 7 2 IN IP4 192.0.2.1\r\ns=-\r\nc=IN IP4 192.0.2.1\r\nt=0 0\r\n\
m=audio 40998 RTP/AVP 0 8\r\na=rtpmap:0 PCMU/8000\r\na=rtpmap:8 PCMA/8000\r\n";

/// The text of the description of such media.
fn written(alloc: Global, version: u64, sections: &[Section<'_>]) -> Result<String, AllocError> {
    let origin = Origin {
        session: 7,
        version,
        host: IpAddr::V4(Ipv4Addr::new(192, 0, 2, 1)),
    };
    write_sdp(alloc, &origin, sections)
}

/// The text of the answer that takes T.38 alone.
fn answer_text(alloc: Global) -> Option<String> {
    let Ok(offer) = read(OFFER) else {
        return None;
    };
    let fax = Section::Fax(FaxSection {
        port: 41_000,
        max_buffer: 1_800,
        max_datagram: 1_400,
    });
    written(alloc, 1, answer_sections(&offer, 1, fax).as_slice()).ok()
}

/// That of an offer of audio.
fn audio_text(alloc: Global) -> Option<String> {
    let audio = Section::Audio(AudioSection {
        port: 40_998,
        formats: AudioFormats::Both,
    });
    written(alloc, 2, &[audio]).ok()
}

/// Whether a text is this.
fn is_text(text: Option<String>, wanted: &str) -> bool {
    match text {
        Some(text) => text.as_str() == wanted,
        None => false,
    }
}

#[test]
fn an_answer_refuses_what_it_does_not_take_and_an_offer_names_its_formats(rt: HostRuntime) {
    let is_answer = is_text(answer_text(rt.alloc()), ANSWER);
    let is_offer = is_text(audio_text(rt.alloc()), AUDIO);
    assert!(rt; is_answer && is_offer);
}

/// Audio that was turned to T.38, from a gateway that holds the audio.
const FAX: &[u8] =
    b"v=0\r\no=gw 2890844526 2890844527 IN IP4 192.0.2.9\r\ns=-\r\nc=IN IP4 192.0.2.9\r\nt=0 0\r\n\
m=audio 0 RTP/AVP 0 8\r\nm=image 49170 udptl t38\r\nc=IN IP4 192.0.2.10\r\na=T38FaxVersion:0\r\na=T38MaxBitRate:14400\r\n\
a=T38FaxFillBitRemoval:0\r\na=T38FaxRateManagement:transferredTCF\r\na=T38FaxMaxBuffer:260\r\na=T38FaxMaxDatagram:238\r\n\
a=T38FaxUdpEC:t38UDPRedundancy\r\n";

/// Audio on hold.
const HOLD: &[u8] =
    b"v=0\no=- 1 1 IN IP4 192.0.2.9\ns=-\nc=IN IP4 0.0.0.0\nt=0 0\nm=audio 40000 RTP/AVP 8\na=sendonly\n";

/// What is read of a description.
fn read(octets: &[u8]) -> Result<Session<'_>, SdpFault> {
    read_sdp(octets)
}

/// The medium that stands at a place.
fn medium_at<'a>(session: &Session<'a>, place: usize) -> Option<Medium<'a>> {
    session.media.as_slice().get(place).copied()
}

/// Whether terms are those of the fax offer.
fn are_its_terms(terms: &Terms) -> bool {
    terms.version == Some(0)
        && terms.bit_rate == Some(14_400)
        && terms.rate_management == Some(RateManagement::Transferred)
        && terms.error_correction == Some(ErrorCorrection::Redundancy)
        && terms.max_buffer == Some(260)
        && terms.max_datagram == Some(238)
}

/// Whether the offer of T.38 is read.
fn is_fax_read() -> bool {
    let Ok(session) = read(FAX) else {
        return false;
    };
    let Some(image) = medium_at(&session, 1) else {
        return false;
    };
    let host = IpAddr::V4(Ipv4Addr::new(192, 0, 2, 10));
    session.media.len() == 2
        && session.first_t38() == Some(1)
        && session.first_audio("0").is_none()
        && image.address() == Some(SocketAddr::new(host, 49_170))
        && !image.is_held()
        && are_its_terms(&image.terms)
}

/// Whether the audio on hold is.
fn is_hold_read() -> bool {
    let Ok(session) = read(HOLD) else {
        return false;
    };
    let Some(audio) = medium_at(&session, 0) else {
        return false;
    };
    session.first_audio("8") == Some(0) && audio.is_held() && audio.direction == Direction::SendOnly
}

#[test]
fn an_offer_of_t38_and_audio_on_hold(rt: HostRuntime) {
    let (is_fax, is_hold) = (is_fax_read(), is_hold_read());
    assert!(rt; is_fax && is_hold);
}

/// Why octets are no description.
fn fault_of(octets: &[u8]) -> Option<SdpFault> {
    read(octets).err()
}

#[test]
fn what_is_none(rt: HostRuntime) {
    assert!(rt;
        fault_of(b"o=- 1 1 IN IP4 192.0.2.9\n") == Some(SdpFault::NoVersion)
            && fault_of(b"v=0\nm=image udptl t38\n") == Some(SdpFault::BadMedium)
            && fault_of(b"v=0\nc=IN IP5 x\n") == Some(SdpFault::BadConnection)
            && fault_of(b"v=0\n\xff\n") == Some(SdpFault::NoText)
    );
}
