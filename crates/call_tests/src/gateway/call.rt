//! A whole call: what comes on both legs, and what is given there.
ghost use Rattle.std.specs.Prelude.{◌≤◌, length};

use fax_answer::Refusal;
use fax_bits::{NoMemory, Octets};
use fax_gateway::{Gateway, Given, Kept, Leg, Settings};
use fax_jobs::{Outcome, Report};
use fax_pagestore::{Format, PlainRows, RowStore};
use fax_runcodes::Width;
use std::alloc::Global;

/// How many turns the call has, 40 ms apart.
pub(super) const TURNS: u32 = 55;

/// The first turn in which the called leg gives a datagram. Each leg gives one a turn, to the last.
const FIRST_CALLED: u32 = 6;

/// How many datagrams are given, on the calling and on the called leg.
pub(super) const SENDS: u32 = 7 + 49;

/// What comes: the turn before whose tick it does, the leg, and the octets, with so many zeros after these.
pub(super) type Coming = (u32, Leg, &'static [u8], usize);

/// Each decides a slot. A page of one white row comes on the calling leg; on the called leg it is taken and confirmed.
pub(super) const COMES: &[Coming] = &[
    (
        3,
        Leg::Calling,
        b"\x00\x00\x0c\xc0\x02\x80\x00\x05\xff\xc8\xc1\x00\x40\x00\x40\x00\x00",
        0,
    ),
    (3, Leg::Calling, b"\x00\x01\x01\x08\x00\x00", 0),
    (
        3,
        Leg::Calling,
        b"\x00\x02\x81\x31\xc2\x01\xf0\x01\x2b",
        302,
    ),
    (5, Leg::Calling, b"\x00\x03\x01\x08\x00\x00", 0),
    (
        5,
        Leg::Calling,
        b"\x00\x04\x12\xc2\x01\xf0\x00\x0c\x00\x14\xd9\xa8\x00\x80\x08\x00\x80\x08\x00\x80\x08\x00\x00",
        0,
    ),
    (5, Leg::Calling, b"\x00\x05\x01\x06\x00\x00", 0),
    (
        5,
        Leg::Calling,
        b"\x00\x06\x09\xc0\x02\x80\x00\x02\xff\xc8\xf4\x40\x00\x00",
        0,
    ),
    (
        7,
        Leg::Called,
        b"\x00\x00\x0c\xc0\x02\x80\x00\x05\xff\xc8\x01\x00\x40\x00\x40\x00\x00",
        0,
    ),
    (
        48,
        Leg::Called,
        b"\x00\x01\x09\xc0\x02\x80\x00\x02\xff\xc8\x21\x40\x00\x00",
        0,
    ),
    (
        53,
        Leg::Called,
        b"\x00\x02\x09\xc0\x02\x80\x00\x02\xff\xc8\x31\x40\x00\x00",
        0,
    ),
];

/// What is given on the calling leg, from turn 0 on: the whole datagram.
const CALLING: &[&[u8]] = &[
    b"\x00\x00\x01\x04\x00\x00",
    b"\x00\x01\x01\x06\x00\x01\x01\x04",
    b"\x00\x02\x0c\xc0\x02\x80\x00\x05\xff\xc8\x01\x00\x77\x5e\x40\x00\x02\x01\x06\x01\x04",
    b"\x00\x03\x01\x06\x00\x03\x0c\xc0\x02\x80\x00\x05\xff\xc8\x01\x00\x77\x5e\x40\x01\x06\x01\x04",
    b"\x00\x04\x09\xc0\x02\x80\x00\x02\xff\xc8\x21\x40\x00\x03\x01\x06\x0c\xc0\x02\x80\x00\x05\xff\xc8\x01\x00\x77\x5e\x40\x01\x06",
    b"\x00\x05\x01\x06\x00\x03\x09\xc0\x02\x80\x00\x02\xff\xc8\x21\x40\x01\x06\x0c\xc0\x02\x80\x00\x05\xff\xc8\x01\x00\x77\x5e\x40",
    b"\x00\x06\x09\xc0\x02\x80\x00\x02\xff\xc8\x31\x40\x00\x03\x01\x06\x09\xc0\x02\x80\x00\x02\xff\xc8\x21\x40\x01\x06",
];

/// What is given on the called leg before the training: whole datagrams.
const CALLED: &[&[u8]] = &[
    b"\x00\x00\x01\x02\x00\x00",
    b"\x00\x01\x01\x06\x00\x01\x01\x02",
    b"\x00\x02\x0c\xc0\x02\x80\x00\x05\xff\xc8\xc1\x00\x40\x00\x40\x00\x02\x01\x06\x01\x02",
    b"\x00\x03\x01\x08\x00\x03\x0c\xc0\x02\x80\x00\x05\xff\xc8\xc1\x00\x40\x00\x40\x01\x06\x01\x02",
];

/// How many datagrams of the training are full ones, and what each has after its number.
const TRAININGS: usize = 37;

const TRAINING: &[u8] = b"\x11\xc2\x01\xe0\x00\x0b\x00\x00\x00\x00\x00\x00\x00\x00\x00\x00\x00\x00";

/// What those have after their numbers that are given on the called leg from the last of the training on.
const CALLED_LATER: &[&[u8]] = &[
    b"\x0b\xc2\x01\xf0\x00\x05\x00\x00\x00\x00\x00\x00",
    b"\x01\x08",
    b"\x11\xc2\x01\xe0\x00\x0b\x00\x14\xd9\xa8\x00\x00\x00\x10\x01\x00\x10\x01",
    b"\x08\xc2\x01\xf0\x00\x02\x00\x10\x01",
    b"\x01\x06",
    b"\x09\xc0\x02\x80\x00\x02\xff\xc8\xf4\x40",
    b"\x01\x06",
    b"\x09\xc0\x02\x80\x00\x02\xff\xc8\xdf\x40",
];

/// Standard pages of the usual width.
const FORMAT: Format = Format {
    width: Width::W1728,
    fine: false,
};

/// What is told of the job.
pub(super) const DELIVERED: Report = Report {
    call: 0,
    format: FORMAT,
    pages: 1,
    delivered: 1,
    outcome: Outcome::Delivered,
};

/// The turn in which its page is confirmed, and what is told of that.
const KEPT: (u32, Kept) = (
    6,
    Kept {
        call: 0,
        format: FORMAT,
        rows: 1,
        closes: true,
    },
);

/// What was given in a call, in order: how many datagrams, a sum over them and their turns, and whether each is the one of the whole
/// call. None of this wants memory.
#[derive(Clone, Copy, PartialEq)]
pub(super) struct Sends {
    pub count: u32,
    pub sum: u64,
    pub is_right: bool,
}

impl Sends {
    pub fn none() -> Self {
        Sends {
            count: 0,
            sum: 0,
            is_right: true,
        }
    }

    /// A datagram is given in a turn.
    pub fn note(&mut self, turn: u32, leg: Leg, octets: &[u8]) {
        self.count = self.count.saturating_add(1);
        self.is_right = self.is_right && is_right(turn, leg, octets);
        self.sum = sum_after(self.sum, (turn % 256) as u8);
        for octet in octets {
            self.sum = sum_after(self.sum, *octet);
        }
    }
}

/// A sum that an octet changes (FNV-1a, 64 bits).
fn sum_after(sum: u64, octet: u8) -> u64 {
    (sum ^ u64::from(octet)).wrapping_mul(0x100_0000_01b3)
}

/// Whether a datagram is the one of a turn and a leg, in what is told of that.
fn is_right(turn: u32, leg: Leg, octets: &[u8]) -> bool {
    match leg {
        Leg::Calling => CALLING.get(turn as usize).copied() == Some(octets),
        Leg::Called => is_right_called(turn.wrapping_sub(FIRST_CALLED), octets),
    }
}

/// Whether a datagram is the one of this number on the called leg.
fn is_right_called(number: u32, octets: &[u8]) -> bool {
    let place = number as usize;
    if let Some(datagram) = CALLED.get(place) {
        return octets == *datagram;
    }
    let [0, low, rest @ ..] = octets else {
        return false;
    };
    let later = place.wrapping_sub(CALLED.len());
    let begins = match CALLED_LATER.get(later.wrapping_sub(TRAININGS)) {
        Some(begin) => rest.starts_with(begin),
        None => later < TRAININGS && rest.starts_with(TRAINING),
    };
    begins && u32::from(*low) == number
}

/// What differs in a call.
#[derive(Clone, Copy)]
pub(super) enum Change {
    None,
    /// A datagram of those that come does not.
    Without(usize),
    /// There is no tick in a turn.
    WithoutTick(u32),
    /// These octets come in place of one.
    Instead(usize, &'static [u8]),
    /// The gateway may hold so many octets of pages.
    Memory(u64),
}

/// What came of a call.
#[derive(Clone, Copy, PartialEq)]
pub(super) struct Played {
    pub sends: Sends,
    /// How many of the datagrams that come decided a slot.
    pub decided: usize,
    /// The page that was confirmed, and the turn.
    pub kept: Option<(u32, Kept)>,
    /// Why the page was refused.
    pub refused: Option<Refusal>,
    /// The report of its job, in the last turn.
    pub report: Option<Report>,
    /// Whether the gateway tells that report, the call is still on, and no job is sent or waits.
    pub is_at_rest: bool,
    /// Whether it counts as refused just the datagrams and ticks that were.
    pub counts_refusals: bool,
}

/// Whether the call was the whole one.
pub(super) fn is_whole_call(played: &Played) -> bool {
    *played
        == Played {
            sends: Sends {
                count: SENDS,
                sum: played.sends.sum,
                is_right: true,
            },
            decided: COMES.len(),
            kept: Some(KEPT),
            refused: None,
            report: Some(DELIVERED),
            is_at_rest: true,
            counts_refusals: true,
        }
}

/// Plays a call with a change; it answers how many calls of the gateway were refused memory, too. What is refused is asked for again
/// once.
pub(super) fn play_call(alloc: Global, change: Change) -> (Played, u64) {
    let mut refused = 0;
    let mut played = Played {
        sends: Sends::none(),
        decided: 0,
        kept: None,
        refused: None,
        report: None,
        is_at_rest: false,
        counts_refusals: false,
    };
    if let Some(mut gateway) = new_gateway(alloc, change, &mut refused) {
        if ring(&mut gateway, &mut refused) {
            let before = refused;
            for turn in 0..TURNS {
                come(&mut gateway, turn, change, &mut played, &mut refused);
                tick(&mut gateway, turn, change, &mut played, &mut refused);
            }
            played.counts_refusals = gateway.refusals() == refused.saturating_sub(before);
        }
        played.is_at_rest = is_at_rest(&gateway, played.report);
    }
    (played, refused)
}

/// A gateway, asked for again where it is refused.
fn new_gateway(alloc: Global, change: Change, refused: &mut u64) -> Option<Gateway<PlainRows>> {
    let mut settings = Settings::default();
    if let Change::Memory(most) = change {
        settings.memory = most;
    }
    for _ in 0..2 {
        if let Ok(gateway) = Gateway::with_settings(alloc, settings) {
            return Some(gateway);
        }
        *refused = refused.saturating_add(1);
    }
    None
}

/// Rings. It answers whether the first call is on.
fn ring<S: RowStore>(gateway: &mut Gateway<S>, refused: &mut u64) -> bool {
    for _ in 0..2 {
        if gateway.ring(0).is_ok() {
            return gateway.call() == Some(0);
        }
        *refused = refused.saturating_add(1);
    }
    false
}

/// What comes in a turn.
fn come<S: RowStore>(
    gateway: &mut Gateway<S>,
    turn: u32,
    change: Change,
    played: &mut Played,
    refused: &mut u64,
) {
    for (place, (at, leg, octets, zeros)) in COMES.iter().enumerate() {
        let mut buffer = [0; 320];
        let count = match change {
            Change::Instead(of, octets) if of == place => put(octets, 0, &mut buffer),
            _ => put(octets, *zeros, &mut buffer),
        };
        let comes = !matches!(change, Change::Without(of) if of == place);
        if *at == turn && comes {
            let datagram = buffer.get(..count).unwrap_or_default();
            if hears(gateway, *leg, datagram, turn, refused) {
                played.decided = played.decided.saturating_add(1);
            }
        }
    }
}

/// Puts octets into the front of a buffer, and so many zeros after them, as many as it has room for.
pub(super) fn put(octets: &[u8], zeros: usize, buffer: &mut [u8]) -> usize
    ensures { result ≤ length buffer.new }
{
    let front = octets.len().min(buffer.len());
    let count = front.saturating_add(zeros).min(buffer.len());
    buffer[..front].copy_from_slice(&octets[..front]);
    buffer[front..count].fill(0);
    count
}

/// Octets come on a leg. It answers whether they decide a slot.
fn hears<S: RowStore>(
    gateway: &mut Gateway<S>,
    leg: Leg,
    octets: &[u8],
    turn: u32,
    refused: &mut u64,
) -> bool {
    for _ in 0..2 {
        match hear(gateway, leg, octets, moment(turn)) {
            Ok(decides) => return decides,
            Err(NoMemory) => *refused = refused.saturating_add(1),
        }
    }
    false
}

fn hear<S: RowStore>(
    gateway: &mut Gateway<S>,
    leg: Leg,
    octets: &[u8],
    now: u64,
) -> Result<bool, NoMemory> {
    match leg {
        Leg::Calling => gateway.from_calling(octets, now),
        Leg::Called => gateway.from_called(octets, now),
    }
}

/// Time goes on to a turn.
fn tick<S: RowStore>(
    gateway: &mut Gateway<S>,
    turn: u32,
    change: Change,
    played: &mut Played,
    refused: &mut u64,
) {
    if matches!(change, Change::WithoutTick(left_out) if left_out == turn) {
        return;
    }
    for _ in 0..2 {
        match gateway.tick(moment(turn)) {
            Ok(given) => return note(played, turn, &given),
            Err(NoMemory) => *refused = refused.saturating_add(1),
        }
    }
}

/// What a tick gives is noted.
fn note(played: &mut Played, turn: u32, given: &Given) {
    note_sent(played, turn, Leg::Calling, &given.calling);
    note_sent(played, turn, Leg::Called, &given.called);
    if let Some(kept) = given.kept {
        played.kept = Some((turn, kept));
    }
    if let Some(refused) = given.refused {
        played.refused = Some(refused.why);
    }
    if given.ended() && turn == TURNS - 1 {
        played.report = given.report;
    }
}

/// A datagram is given on a leg, where one is.
fn note_sent(played: &mut Played, turn: u32, leg: Leg, given: &Option<Octets>) {
    if let Some(octets) = given {
        played.sends.note(turn, leg, octets.as_slice());
    }
}

/// Whether a gateway tells this report first, its first call is on, and no job is sent or waits.
fn is_at_rest<S: RowStore>(gateway: &Gateway<S>, report: Option<Report>) -> bool {
    gateway.report(0) == report
        && gateway.call() == Some(0)
        && gateway.sending().is_none()
        && gateway.waiting() == 0
}

/// The moment of a turn.
pub(super) fn moment(turn: u32) -> u64 {
    40 * u64::from(turn)
}
