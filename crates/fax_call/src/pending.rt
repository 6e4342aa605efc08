//! What waits.
ghost use Rattle.std.specs.Prelude.{◌≡◌, ◌≢◌, ◌≤◌, ◌<◌, ◌*◌, ◌/◌, length, replicate, IfOk, OnErr};
ghost use Rattle.fax_ifp.specs.WrittenPackets.{written_indicator, written_message, image_fields};
ghost use Rattle.fax_call.specs.Replies.{written, signals_preamble, part_length, check_length, Part};
ghost use Rattle.fax_call.specs.Rep.{frame_text, frame_after, packet_of, pending_after, check_part, FitsMessage, FitsPending};
ghost use Rattle.fax_frames.specs.Rates.{kind_of};
ghost use Rattle.fax_frames.specs.declared.dcs.Dcs.{Dcs as DcsShown};
ghost use Rattle.fax_frames.specs.declared.writing.Plain.{Plain as PlainShown};

use crate::room::Room;
use fax_bits::{NoMemory, Octets};
use fax_frames::{Dcs, FrameBytes, Plain, write_dcs, write_plain};
use fax_ifp::{Indicator, put_indicator, write_frame, write_image};
use std::alloc::Global;

/// A frame that the caller gives.
#[derive(Clone, Copy, PartialEq, Eq)]
pub(crate) enum Message {
    /// The DCS of a training, which follows it.
    Dcs(Dcs),
    /// A frame with no information field.
    Plain(Plain),
}

impl Message {
    /// The octets of the frame.
    fn frame(self) -> FrameBytes
        requires { FitsMessage self }
        ensures text { result.items ≡ frame_text self }
        ensures some { 1 ≤ length result.items }
        ensures few { length result.items ≤ 256 }
    {
        match self {
            Message::Dcs(dcs) => write_dcs(&dcs),
            Message::Plain(plain) => write_plain(plain, true),
        }
    }

    /// What waits after the frame.
    fn after(self) -> Pending
        ensures { result ≡ frame_after self }
    {
        match self {
            Message::Dcs(dcs) => Pending::Training(dcs),
            Message::Plain(_) => Pending::Nothing,
        }
    }
}

/// The packet that is given next; those after it follow from it.
#[derive(Clone, Copy, PartialEq, Eq)]
pub(crate) enum Pending {
    Nothing,
    /// The tone of a calling terminal, CNG.
    Tone,
    /// The preamble of a frame.
    Preamble(Message),
    Frame(Message),
    /// The long training indicator, and the training check after it.
    Training(Dcs),
    /// The training check, of which so many octets were given.
    Check(Dcs, u16),
    /// The short training indicator, and after it the text of the page and its command.
    Image(Dcs),
    /// What is left of the text of the page, and after it this command.
    Text(Dcs, Plain),
}

impl Pending {
    /// Whether the next packet is the preamble of a frame.
    pub fn is_preamble(self) -> bool
        ensures { result ≡ signals_preamble (packet_of self) }
    {
        matches!(self, Pending::Preamble(_))
    }

    /// The next packet, where it is none of a text. An indicator takes no memory where there is room for it. An `Err` leaves
    /// the room as it was.
    pub fn packet(self, alloc: Global, room: &mut Room) -> Result<Octets, NoMemory>
        requires some { self ≢ Pending.Nothing }
        requires fits { FitsPending self }
        requires other { (dcs : DcsShown) (asks : PlainShown) → self ≢ Pending.Text dcs asks }
        ensures packet { IfOk result (λ octets. octets ≡ written (packet_of self)) }
        ensures spared { self ≡ Pending.Tone → OnErr result (room.old ≡ 0) }
        ensures err { OnErr result (room.new ≡ room.old) }
    {
        match self {
            Pending::Nothing => unreachable!(),
            Pending::Tone => indicator(alloc, room, Indicator::Cng.code()),
            Pending::Preamble(_) => indicator(alloc, room, Indicator::V21Preamble.code()),
            Pending::Frame(message) => write_frame(alloc, message.frame().as_slice()),
            Pending::Training(dcs) => indicator(alloc, room, dcs.rate.training(true)),
            Pending::Check(dcs, given) => check_packet(alloc, dcs, given),
            Pending::Image(dcs) => indicator(alloc, room, dcs.rate.training(false)),
            Pending::Text(..) => unreachable!(),
        }
    }

    /// What waits after it, where it may be the last packet of a text, and this is the command after the page due.
    pub fn after(self, is_last: bool, command: Plain) -> Pending
        requires { FitsPending self }
        ensures after { result ≡ pending_after self command is_last }
        ensures fits { FitsPending result }
    {
        match self {
            Pending::Nothing | Pending::Tone => Pending::Nothing,
            Pending::Preamble(message) => Pending::Frame(message),
            Pending::Frame(message) => message.after(),
            Pending::Training(dcs) => Pending::Check(dcs, 0),
            Pending::Check(dcs, given) => {
                let part = part_length(dcs);
                if check_length(dcs) - given <= part {
                    Pending::Nothing
                } else {
                    Pending::Check(dcs, given + part)
                }
            }
            Pending::Image(dcs) => Pending::Text(dcs, command),
            Pending::Text(_, asks) => {
                if is_last {
                    Pending::Preamble(Message::Plain(asks))
                } else {
                    self
                }
            }
        }
    }
}

/// How many octets a packet of a high-speed signal has, but for the last: 40 ms of them (this project's profile).
pub(crate) fn part_length(dcs: Dcs) -> u16
    ensures part { result ≡ part_length dcs }
    ensures some { 12 ≤ result }
    ensures few { result ≤ 72 }
{
    dcs.rate.bits() / 200
}

/// How many zero octets a training check has: 1.5 seconds of them (ITU-T T.30, 5.3.6.1.3).
fn check_length(dcs: Dcs) -> u16
    ensures check { result ≡ check_length dcs }
    ensures some { 450 ≤ result }
    ensures few { result ≤ 2700 }
{
    dcs.rate.bits() * 3 / 16
}

/// The next packet of a training check, of which so many octets were given.
fn check_packet(alloc: Global, dcs: Dcs, given: u16) -> Result<Octets, NoMemory>
    requires { given < check_length dcs }
    ensures { IfOk result (λ octets. octets ≡ written (check_part dcs given)) }
{
    let part = part_length(dcs);
    let left = check_length(dcs) - given;
    if left <= part {
        write_image(alloc, dcs.rate.kind(), true, zeros(left))
    } else {
        write_image(alloc, dcs.rate.kind(), false, zeros(part))
    }
}

/// How many octets the packet of an indicator has.
pub(crate) const INDICATOR_OCTETS: usize = 1;

/// As many zero octets as a packet has at most.
const ZEROS: [u8; 72] = [0; 72];

/// So many zero octets.
fn zeros(count: u16) -> &'static [u8]
    requires { count ≤ 72 }
    ensures { result.now ≡ replicate count 0 }
{
    &ZEROS[..usize::from(count)]
}

/// The packet of an indicator: one octet, which takes no memory where there is room for it. An `Err` leaves the room as it
/// was.
fn indicator(alloc: Global, room: &mut Room, code: u8) -> Result<Octets, NoMemory>
    requires { code ≤ 15 }
    ensures packet { IfOk result (λ octets. octets ≡ written_indicator code) }
    ensures spared { OnErr result (room.old ≡ 0) }
    ensures err { OnErr result (room.new ≡ room.old) }
{
    let mut octets = room.take(alloc, INDICATOR_OCTETS)?;
    put_indicator(&mut octets, code);
    Ok(Octets::from_vec(octets))
}
