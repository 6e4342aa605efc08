//! SIP over its sockets.
use crate::secrets::{Secrets, read_secrets};
use fax_bits::NoMemory;
use fax_config::{Config, SipConfig};
use fax_control::Word;
use fax_desk::{LineEvent, Reply, Tag, View};
use fax_opening::ServeFault;
use fax_pace::{SipNews, SipSide};
use fax_sip_service::{Said, SetupFault, SipService};
use std::alloc::{AllocError, Global};
use std::fs::Files;
use std::io;
use std::net::{Net, SocketAddr, UdpSocket};

/// SIP is looked at so often, in milliseconds: what came is heard, what is due is done, and what is to go out is sent.
const BETWEEN_SIP_MS: u64 = 5;

/// It is looked so often, in milliseconds, whether a line is idle.
const BETWEEN_OPENINGS_MS: u64 = 200;

/// The most datagrams of SIP, and of audio, that are taken at a look.
const MOST_DATAGRAMS: u32 = 16;

const MOST_AUDIO: u32 = 64;

/// The most orders that SIP gives before clients are heard. Where turns are late words are heard between some of them alone, so it is not one.
const MOST_ORDERS: u32 = 16;

/// The longest datagram.
const MOST_OCTETS: usize = 65_535;

/// How the text of counts ends.
const COUNTS_END: &str = "# EOF\n";

/// SIP, and the sockets over which it and all audio go.
pub(crate) struct SipFront {
    alloc: Global,
    service: SipService,
    sip: UdpSocket,
    audio: UdpSocket,
    buffer: Vec<u8>,
    /// The moments from which on it is looked at again, and from which on it is looked whether a line is idle.
    due: u64,
    open_due: u64,
    /// How many orders SIP gave since clients were heard before it.
    orders: u32,
}

impl Drop for SipFront {
    fn drop(self) {
        let SipFront {
            alloc: _alloc,
            service: _service,
            sip: _sip,
            audio: _audio,
            buffer: _buffer,
            due: _due,
            open_due: _open_due,
            orders: _orders,
        } = self;
    }
}

/// A socket that does not wait.
fn open_socket<N: Net>(system: &N, address: SocketAddr) -> io::Result<UdpSocket> {
    let socket = UdpSocket::bind(system, address)?;
    socket.set_nonblocking(true)?;
    Ok(socket)
}

/// The same; an `Err` names its address.
fn socket_at<N: Net>(system: &N, address: SocketAddr) -> Result<UdpSocket, ServeFault> {
    match open_socket(system, address) {
        Ok(socket) => Ok(socket),
        Err(error) => Err(ServeFault::Sip(address, error)),
    }
}

/// SIP as a configuration tells it, beside its lines; none, where it tells nothing of it.
pub(crate) fn open_sip<N: Net + Files>(
    system: &N,
    alloc: Global,
    config: &Config,
) -> Result<Option<SipFront>, ServeFault> {
    let Some(told) = &config.sip else {
        return Ok(None);
    };
    let secrets = read_secrets(system, alloc, told)?;
    let sip = socket_at(system, told.local)?;
    let audio = socket_at(system, told.audio)?;
    let service = match service_of(alloc, config, told, &secrets) {
        Ok(service) => service,
        Err(SetupFault::NoMemory) => return Err(ServeFault::NoMemory),
        Err(SetupFault::Route) => return Err(ServeFault::Route),
    };
    let mut buffer = Vec::new(alloc);
    buffer.resize(MOST_OCTETS, 0)?;
    Ok(Some(SipFront {
        alloc,
        service,
        sip,
        audio,
        buffer,
        due: 0,
        open_due: 0,
        orders: 0,
    }))
}

/// SIP beside the lines of a configuration.
fn service_of(
    alloc: Global,
    config: &Config,
    told: &SipConfig,
    secrets: &Secrets,
) -> Result<SipService, SetupFault> {
    let (lines, redials) = (config.lines.as_slice(), config.redial.as_slice());
    SipService::new(
        alloc,
        told,
        lines,
        redials,
        &secrets.passwords,
        secrets.seed,
    )
}

impl SipFront {
    /// Hears what came.
    fn hear(&mut self, now: u64) {
        for _ in 0..MOST_DATAGRAMS {
            let buffer = self.buffer.as_mut_slice();
            let Ok((count, from)) = self.sip.recv_from(buffer) else {
                return;
            };
            if let Some(octets) = self.buffer.get(..count) {
                self.service.hear(now, from, octets);
            }
        }
    }

    /// Audio that comes is dropped.
    fn pass_audio_over(&mut self) {
        for _ in 0..MOST_AUDIO {
            let buffer = self.buffer.as_mut_slice();
            if self.audio.recv_from(buffer).is_err() {
                return;
            }
        }
    }

    /// Sends what is to go out. What the system does not take is lost, as on the way.
    fn send(&mut self) {
        for datagram in self.service.take_datagrams() {
            let _ = self.sip.send_to(datagram.octets.as_slice(), datagram.to);
        }
    }

    /// Sends the audio that is due.
    fn send_audio(&mut self, now: u64) {
        for i in 0..self.service.sounds() {
            if let Some(packet) = self.service.sound(i, now) {
                let _ = self.audio.send_to(&packet.octets, packet.to);
            }
        }
    }
}

impl SipSide for SipFront {
    fn is_due(&mut self, now: u64) -> bool {
        if now < self.due {
            return false;
        }
        self.due = now.saturating_add(BETWEEN_SIP_MS);
        true
    }

    fn is_open_due(&mut self, now: u64) -> bool {
        if now < self.open_due {
            return false;
        }
        self.open_due = now.saturating_add(BETWEEN_OPENINGS_MS);
        true
    }

    fn goes_first(&mut self) -> bool {
        let goes_first = self.orders < MOST_ORDERS;
        if !goes_first {
            self.orders = 0;
        }
        goes_first
    }

    fn wait_for(&mut self, said: Said) {
        self.service.wait_for(said);
        self.orders = self.orders.saturating_add(1);
    }

    fn look(&mut self, now: u64) {
        self.hear(now);
        self.pass_audio_over();
        self.service.go_on(now);
        self.send();
        self.send_audio(now);
    }

    fn set_open(&mut self, is_open: bool) {
        self.service.set_open(is_open);
    }

    fn leave(&mut self, now: u64) {
        self.service.leave(now);
    }

    fn end_all(&mut self, now: u64) {
        self.service.leave(now);
        self.service.end_all(now);
        self.look(now);
    }

    fn is_settled(&self) -> bool {
        self.service.is_settled()
    }

    fn next_news(&mut self, now: u64, is_wanted: bool) -> SipNews {
        let Some(told) = self.service.next_told() else {
            return SipNews::Nothing;
        };
        if !is_wanted {
            return SipNews::Untold;
        }
        match self.service.event_line(&told, now) {
            Ok(line) => SipNews::Line(line),
            Err(_) => SipNews::Untold,
        }
    }

    fn next_said(&mut self) -> Option<Said> {
        self.service.next_said()
    }

    fn word<'s, V: View>(&'s self, said: &'s Said, view: &V) -> Option<Word<'s>> {
        self.service.word(said, view)
    }

    fn answered(&mut self, now: u64, said: &Said, reply: Reply) {
        self.service.answered(now, said, reply);
    }

    fn done(&mut self, now: u64, reply: Reply) {
        self.service.done(now, reply);
        self.send();
    }

    fn happened(&mut self, now: u64, i: usize, what: LineEvent) {
        self.service.happened(now, i, what);
    }

    fn places(&self, tag: &Option<Tag>) -> bool {
        self.service.places(tag)
    }

    fn put_status(&self, text: &mut Vec<u8>) -> Result<(), NoMemory> {
        let mut told = String::new(self.alloc);
        self.service.put_status(&mut told)?;
        text.extend_from_slice(told.as_bytes())?;
        Ok(())
    }

    fn with_counts(&self, text: String) -> Result<String, NoMemory> {
        match add_counts(text, &self.service) {
            Ok(text) => Ok(text),
            Err(AllocError) => Err(NoMemory),
        }
    }
}

/// The text of counts, with those of SIP before its end.
fn add_counts(mut text: String, service: &SipService) -> Result<String, AllocError> {
    if text.as_str().ends_with(COUNTS_END)
        && let Some(left) = text.len().checked_sub(COUNTS_END.len())
        && text.as_str().is_char_boundary(left)
    {
        text.truncate(left);
    }
    service.put_counts(&mut text)?;
    text.push_str(COUNTS_END)?;
    Ok(text)
}
