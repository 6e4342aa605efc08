//! The audio of calls.
use fax_audio::{Coding, PACKET_OCTETS, Signal, Start, Stream};
use fax_switch::{AudioEnd, Leg, Place};
use fax_user_agent::LineOrder;
use rand_chacha::ChaCha20Rng;
use rand_core::Rng;
use std::alloc::{AllocError, Global};
use std::net::SocketAddr;

/// A packet of audio that is to be sent.
#[derive(Clone, Copy)]
pub struct AudioPacket {
    pub to: SocketAddr,
    pub octets: [u8; PACKET_OCTETS],
}

/// The audio of a leg's call.
#[derive(Clone, Copy)]
struct Sound {
    place: Place,
    to: SocketAddr,
    stream: Stream,
}

/// The audio of all calls.
pub(crate) struct Sounds {
    sounds: Vec<Sound>,
    generator: ChaCha20Rng,
}

impl Drop for Sounds {
    fn drop(self) {
        let Sounds {
            sounds: _sounds,
            generator: _generator,
        } = self;
    }
}

/// How a call's audio is coded.
fn coding_of(coding: fax_switch::Coding) -> Coding {
    match coding {
        fax_switch::Coding::MuLaw => Coding::MuLaw,
        fax_switch::Coding::ALaw => Coding::ALaw,
    }
}

/// What we sound on a leg: a machine that is called on the calling one, and one that calls on the called one.
fn signal_on(leg: Leg) -> Signal {
    match leg {
        Leg::Calling => Signal::Ced,
        Leg::Called => Signal::Cng,
    }
}

impl Sounds {
    /// No audio is on. What is random comes of this generator.
    pub fn new(alloc: Global, generator: ChaCha20Rng) -> Self {
        Sounds {
            sounds: Vec::new(alloc),
            generator,
        }
    }

    /// How many calls have audio on.
    pub fn count(&self) -> usize {
        self.sounds.len()
    }

    /// A stream begins somewhere that nobody guesses.
    fn start(&mut self) -> Start {
        let random = self.generator.next_u64();
        Start {
            ssrc: (random % 0x1_0000_0000) as u32,
            sequence: (random / 0x1_0000_0000 % 0x1_0000) as u16,
            timestamp: self.generator.next_u32(),
        }
    }

    /// From now on audio goes there, from this leg of a call. Where some went there before, it goes on.
    fn begin(&mut self, place: Place, end: AudioEnd, now: u64) -> Result<(), AllocError> {
        let coding = coding_of(end.coding);
        let before = self
            .sounds
            .iter()
            .position(|sound| sound.place.is_same(place));
        if let Some(i) = before
            && let Some(sound) = self.sounds.get_mut(i)
        {
            sound.to = end.address;
            sound.stream.coding = coding;
            return Ok(());
        }
        let stream = Stream::new(coding, signal_on(place.leg), self.start(), now);
        self.sounds.push(Sound {
            place,
            to: end.address,
            stream,
        })?;
        Ok(())
    }

    /// Audio begins as an order of the user agent says, and ends where it says a word of a leg.
    pub fn obey(&mut self, order: &LineOrder, now: u64) -> Result<(), AllocError> {
        match order {
            LineOrder::AudioOn(place, end) => self.begin(*place, *end, now),
            LineOrder::Ring(_, _) => Ok(()),
            LineOrder::Peer(place, _, _)
            | LineOrder::AudioOff(place)
            | LineOrder::Refuse(place, _)
            | LineOrder::HangUp(place) => {
                self.end(*place);
                Ok(())
            }
        }
    }

    /// No more audio goes out for this leg of a call.
    pub fn end(&mut self, place: Place) {
        self.sounds.retain(|sound| !sound.place.is_same(place));
    }

    /// The packet of audio i that is due at this moment.
    pub fn packet(&mut self, i: usize, now: u64) -> Option<AudioPacket> {
        let sound = self.sounds.get_mut(i)?;
        let octets = sound.stream.next(now)?;
        Some(AudioPacket {
            to: sound.to,
            octets,
        })
    }
}
