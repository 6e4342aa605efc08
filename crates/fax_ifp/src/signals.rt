//! The frames and images of a call's slots.
ghost use Rattle.std.specs.Prelude.{◌≡◌, ◌≢◌, ◌↔◌, ◌+◌, ◌≤◌, [], ◌∷◌, ◌++◌, map, length, replicate, false, List, ℕ, None, Some, Ok, IsOk, IsErr, IsSome, IfSome, OnSome, IfOk, OnOk, OnErr};
ghost use Rattle.smallvec.specs.SmallVec.{small_vec_len, HasRoomFor};
ghost use Rattle.fax_ifp.specs.Packets.{Message, packet_of};
ghost use Rattle.fax_ifp.specs.WrittenPackets.{image_fields};
ghost use Rattle.fax_ifp.specs.Seen.{text_of, texts_of};
ghost use Rattle.fax_ifp.specs.Elements.{Missing, Signal, Field as FieldElement, element_of, elements_in, elements_of};
ghost use Rattle.fax_ifp.specs.Pieces.{Gap, Octets, Image, end_before, kind_of_training as kind_shown};
ghost use Rattle.fax_ifp.specs.Tracked.{IsTracked, Tracks, Gives, lost_slots, TracksRun, GivesRun, HasFewFields, with_octets, TakesNoMemory};
ghost use Rattle.fax_ifp.specs.Inside.Hearing.{Hears, images_in, spoilt};
ghost use Rattle.fax_ifp.specs.Shown.{slot_of, pieces_shown};

use crate::frame::FrameSoFar;
use crate::packet::image_octets;
use crate::piece::PieceList;
use crate::{DataType, Field, FieldType, Head, Ifp, IfpFault, Indicator, Piece, Pieces, Slot};
use fax_bits::NoMemory;
use std::alloc::Global;
use std::marker::Model;

/// An image that has not ended: its data type, whether it has an octet, and whether it is whole so far.
#[derive(Clone, Copy)]
struct OpenImage {
    kind: u8,
    started: bool,
    whole: bool,
}

/// Cuts the slots of a call into frames and images (ITU-T T.38).
///
/// It keeps the octets of a frame that has not ended, in a fixed place, and of an image that has not
/// ended none.
pub struct Signals {
    alloc: Global,
    frame: FrameSoFar,
    image: Option<OpenImage>,
}

impl Drop for Signals {
    fn drop(self) {
        let Signals {
            alloc: _alloc,
            frame: _frame,
            image: _image,
        } = self;
    }
}

impl Model for Signals {
    ghost use Rattle.fax_ifp.specs.Tracked.{TrackState};
    ghost use Rattle.fax_ifp.specs.Shown.{image_shown};

    ghost Value = { TrackState };

    ghost view = { λ s. record { frame = s.frame; image = image_shown s.image } };
}

impl Signals {
    /// The state before the first slot.
    pub fn new(alloc: Global) -> Self
        ensures { IsTracked [] result }
    {
        Signals {
            alloc,
            frame: FrameSoFar::new(),
            image: None,
        }
    }

    /// An equal value. It takes no memory.
    pub fn copy(&self) -> Self
        ensures { result ≡ self.now }
    {
        Signals {
            alloc: self.alloc,
            frame: self.frame.copy(),
            image: self.image,
        }
    }

    /// Takes the next slot and answers its pieces, in the order of time: a frame at its check sequence,
    /// an image's start at the training indicator, its octets as they come and its end, and a gap where
    /// something is missing.
    ///
    /// A packet that cannot be read is missing; one refused as an extension says nothing (this project's
    /// profile). The time is that of a packet's octets, of which a frame's are copied once and an image's
    /// never. Memory is wanted only at data of more than four fields, and an `Err` changes nothing.
    pub fn slot<'a>(&mut self, slot: Slot<'a>) -> Result<Pieces<'a>, NoMemory>
        ensures tracked { OnOk result (Tracks (slot_of slot.entry) self.old self.new) }
        ensures pieces { IfOk result (λ given. Gives (slot_of slot.entry) self.old given) }
        ensures err { OnErr result (self.new ≡ self.old) }
        ensures memory { TakesNoMemory (slot_of slot.entry) → IsOk result }
    {
        let mut pieces = Pieces::new(self.alloc);
        self.slot_into(slot, &mut pieces)?;
        Ok(pieces)
    }

    /// Takes the next slot as [`Signals::slot`] does. Its pieces take the place of those that were in the
    /// list, whose room is kept. An `Err` changes nothing but the list, in which no piece is left.
    pub fn slot_into<'a>(&mut self, slot: Slot<'a>, pieces: &mut Pieces<'a>) -> Result<(), NoMemory>
        ensures tracked { OnOk result (Tracks (slot_of slot.entry) self.old self.new) }
        ensures pieces { OnOk result (Gives (slot_of slot.entry) self.old pieces.new) }
        ensures err { OnErr result (self.new ≡ self.old) }
        ensures none { OnErr result (pieces.new ≡ []) }
        ensures memory { TakesNoMemory (slot_of slot.entry) → IsOk result }
    {
        let list = &mut pieces.list;
        list.clear();
        // five pieces fit, whatever was in the list before
        prove!(list.capacity() >= 5);
        self.take(slot, list)
    }

    /// The octets that the next slot gives and nothing else, where its packet is data of the open image's type with one field,
    /// of t4-non-ecm-data with octets. They are lent, and nothing changes: [`Signals::take_octets`] takes that slot, of which
    /// [`Signals::slot`] says the same, with a list. It takes no memory.
    pub fn octets_in<'a>(&self, packet: &'a [u8]) -> Option<&'a [u8]>
        ensures tracked { OnSome result
            (Tracks (Some packet.entry.now) self.now (with_octets self.now)) }
        ensures pieces { IfSome result
            (λ octets. Gives (Some packet.entry.now) self.now (Octets octets.now ∷ [])) }
        ensures none { (image : Image) (octets : List ℕ) → self.now.image ≡ Some image
            → packet_of packet.entry.now ≡ Ok (Message image.kind (image_fields false octets))
            → IsSome result }
    {
        let image = self.image?;
        image_octets(image.kind, packet)
    }

    /// Takes a slot that gives octets of the open image and nothing else, as [`Signals::octets_in`] answers them. It takes no
    /// memory.
    pub fn take_octets(&mut self)
        ensures { self.new ≡ with_octets self.old }
    {
        if let Some(under_way) = &mut self.image {
            under_way.started = true;
        }
    }

    /// Takes so many lost slots in a row, each of which gives a gap and nothing else. It takes no memory,
    /// and its time is the same for every count.
    pub fn lose(&mut self, count: u16)
        ensures tracked { TracksRun (lost_slots count) self.old self.new }
        ensures pieces { GivesRun (lost_slots count) self.old (replicate count Gap) }
    {
        if count > 0 {
            self.spoil();
        }
    }

    /// The next slot. An `Err` changes nothing.
    fn take<'a>(&mut self, slot: Slot<'a>, pieces: &mut PieceList<'a>) -> Result<(), NoMemory>
        requires { HasRoomFor pieces.old 5 }
        ensures given { OnOk result (Hears (elements_of (slot_of slot.entry))
            (self.old, pieces_shown pieces.old.items) (self.new, pieces_shown pieces.new.items)) }
        ensures err { OnErr result (self.new ≡ self.old) }
        ensures kept { OnErr result (pieces.new ≡ pieces.old) }
        ensures memory { TakesNoMemory (slot_of slot.entry) → IsOk result }
    {
        match slot {
            Slot::Lost => {
                self.missing(pieces);
                Ok(())
            }
            Slot::Packet(octets) => self.packet(octets, pieces),
        }
    }

    /// The octets of a packet come. An `Err` changes nothing.
    fn packet<'a>(&mut self, octets: &'a [u8], pieces: &mut PieceList<'a>) -> Result<(), NoMemory>
        requires { HasRoomFor pieces.old 5 }
        ensures given { OnOk result (Hears (elements_in (packet_of octets.entry.now))
            (self.old, pieces_shown pieces.old.items) (self.new, pieces_shown pieces.new.items)) }
        ensures err { OnErr result (self.new ≡ self.old) }
        ensures kept { OnErr result (pieces.new ≡ pieces.old) }
        ensures memory { TakesNoMemory (Some octets.entry.now) → IsOk result }
    {
        match Ifp::read(self.alloc, octets) {
            Ok(packet) => self.content(&packet, pieces),
            Err(fault) => self.refused(fault, pieces),
        }
    }

    /// A packet that cannot be read comes. An `Err` changes nothing.
    fn refused(&mut self, fault: IfpFault, pieces: &mut PieceList<'_>) -> Result<(), NoMemory>
        requires { HasRoomFor pieces.old 1 }
        ensures given { OnOk result (Hears (elements_in (Err fault))
            (self.old, pieces_shown pieces.old.items) (self.new, pieces_shown pieces.new.items)) }
        ensures err { OnErr result (self.new ≡ self.old) }
        ensures kept { OnErr result (pieces.new ≡ pieces.old) }
        ensures memory { IsErr result ↔ (fault ≡ IfpFault.NoMemory) }
    {
        if fault == IfpFault::NoMemory {
            return Err(NoMemory);
        }
        if fault != IfpFault::Extension {
            self.missing(pieces);
        }
        Ok(())
    }

    /// A packet comes. An `Err` changes nothing.
    fn content<'a>(&mut self, packet: &Ifp<'a>, pieces: &mut PieceList<'a>) -> Result<(), NoMemory>
        requires { HasRoomFor pieces.old 5 }
        ensures given { OnOk result (Hears (elements_in (Ok packet.now))
            (self.old, pieces_shown pieces.old.items) (self.new, pieces_shown pieces.new.items)) }
        ensures err { OnErr result (self.new ≡ self.old) }
        ensures kept { OnErr result (pieces.new ≡ pieces.old) }
        ensures memory { HasFewFields (Ok packet.now) → IsOk result }
    {
        match packet.head() {
            Head::Indicator(code) => self.indicator(code, pieces),
            Head::Message { kind } => {
                let fields = packet.fields();
                pieces.reserve(fields.len() + 1)?;
                self.fields(kind, fields, pieces);
            }
        }
        Ok(())
    }

    /// The fields of a packet of data come.
    fn fields<'a>(&mut self, kind: u8, fields: &[Field<'a>], pieces: &mut PieceList<'a>)
        requires { HasRoomFor pieces.old (length fields.now + 1) }
        ensures { Hears (map (element_of kind) (texts_of fields.now))
            (self.old, pieces_shown pieces.old.items) (self.new, pieces_shown pieces.new.items) }
    {
        for field in fields {
            self.field(kind, *field, pieces);
        }
    }

    /// A field of a packet of data comes.
    fn field<'a>(&mut self, kind: u8, field: Field<'a>, pieces: &mut PieceList<'a>)
        requires { HasRoomFor pieces.old (1 + images_in self.old.image) }
        ensures given { Hears (element_of kind (text_of field.entry) ∷ [])
            (self.old, pieces_shown pieces.old.items) (self.new, pieces_shown pieces.new.items) }
        ensures capacity { pieces.new.capacity ≡ pieces.old.capacity }
        ensures len { small_vec_len pieces.new + images_in self.new.image
            ≤ small_vec_len pieces.old + images_in self.old.image + 1 }
    {
        let octets = field.octets.unwrap_or(&[]);
        if kind == DataType::V21.code() {
            self.hdlc_field(field.what, octets, pieces);
        } else {
            self.image_field(kind, field.what, octets, pieces);
        }
    }

    /// A field of V.21 data comes.
    fn hdlc_field(&mut self, what: u8, octets: &[u8], pieces: &mut PieceList<'_>)
        requires { HasRoomFor pieces.old 1 }
        ensures given { Hears (FieldElement 0 what octets.now ∷ [])
            (self.old, pieces_shown pieces.old.items) (self.new, pieces_shown pieces.new.items) }
        ensures capacity { pieces.new.capacity ≡ pieces.old.capacity }
        ensures len { small_vec_len pieces.new ≤ small_vec_len pieces.old + 1 }
        ensures image { images_in self.new.image ≡ images_in self.old.image }
    {
        if let Some(frame) = self.frame.field(what, octets) {
            pieces.push_reserved(Piece::Frame(frame));
        }
        self.spoil_image();
    }

    /// A field of data other than V.21 comes.
    fn image_field<'a>(&mut self, kind: u8, what: u8, octets: &'a [u8], pieces: &mut PieceList<'a>)
        requires v21 { kind ≢ 0 }
        requires room { HasRoomFor pieces.old (1 + images_in self.old.image) }
        ensures given { Hears (FieldElement kind what octets.entry.now ∷ [])
            (self.old, pieces_shown pieces.old.items) (self.new, pieces_shown pieces.new.items) }
        ensures capacity { pieces.new.capacity ≡ pieces.old.capacity }
        ensures len { small_vec_len pieces.new + images_in self.new.image
            ≤ small_vec_len pieces.old + images_in self.old.image + 1 }
    {
        let Some(image) = &mut self.image else {
            return;
        };
        if image.kind != kind
            || (what != FieldType::T4NonEcmData.code()
                && what != FieldType::T4NonEcmSigEnd.code())
        {
            image.whole = false;
            return;
        }
        if !octets.is_empty() {
            image.started = true;
            pieces.push_reserved(Piece::Octets(octets));
        }
        if what == FieldType::T4NonEcmSigEnd.code() {
            self.end_image(pieces);
        }
    }

    /// An indicator comes.
    fn indicator(&mut self, code: u8, pieces: &mut PieceList<'_>)
        requires { HasRoomFor pieces.old 2 }
        ensures { Hears (Signal code ∷ [])
            (self.old, pieces_shown pieces.old.items) (self.new, pieces_shown pieces.new.items) }
    {
        self.end_image(pieces);
        self.frame = FrameSoFar::new();
        if code >= Indicator::V27At2400Training.code() {
            let kind = kind_of_training(code);
            pieces.push_reserved(Piece::Start(kind));
            self.image = Some(OpenImage {
                kind,
                started: false,
                whole: true,
            });
        }
    }

    /// Something is missing.
    fn missing(&mut self, pieces: &mut PieceList<'_>)
        requires { HasRoomFor pieces.old 1 }
        ensures { Hears (Missing ∷ [])
            (self.old, pieces_shown pieces.old.items) (self.new, pieces_shown pieces.new.items) }
    {
        pieces.push_reserved(Piece::Gap);
        self.spoil();
    }

    /// The open frame is none, and the open image is not whole.
    fn spoil(&mut self)
        ensures { self.new ≡ record { frame = None; image = spoilt self.old.image } }
    {
        self.frame.lose();
        self.spoil_image();
    }

    /// The open image is not whole.
    fn spoil_image(&mut self)
        ensures { self.new ≡ record self.old { image = spoilt self.old.image } }
    {
        if let Some(image) = &mut self.image {
            image.whole = false;
        }
    }

    /// The open image ends.
    fn end_image(&mut self, pieces: &mut PieceList<'_>)
        requires { HasRoomFor pieces.old (images_in self.old.image) }
        ensures image { self.new ≡ record self.old { image = None } }
        ensures pieces { pieces_shown pieces.new.items
            ≡ pieces_shown pieces.old.items ++ end_before self.old.image }
        ensures capacity { pieces.new.capacity ≡ pieces.old.capacity }
        ensures len { small_vec_len pieces.new
            ≤ small_vec_len pieces.old + images_in self.old.image }
    {
        if let Some(image) = self.image.take() {
            if image.started {
                pieces.push_reserved(Piece::End { whole: image.whole });
            }
        }
    }
}

/// The data type of the octets after a training indicator (ITU-T T.38).
fn kind_of_training(code: u8) -> u8
    requires { 4 ≤ code }
    ensures { result ≡ kind_shown code }
{
    if code < Indicator::V17At7200ShortTraining.code() {
        code - 3
    } else {
        code / 2 + 1
    }
}
