//! Packets that are read.
ghost use Rattle.std.specs.Prelude.{ℕ, List, [], ◌∷◌, ◌≡◌, ◌≢◌, ◌<◌, ◌≤◌, true, false, Some, Ok, IsSome, IfSome, IfOk, IfErr, OnOk};
ghost use Rattle.fax_bits.specs.Bits.{bit};
ghost use Rattle.fax_ifp.specs.Inside.Content.{seen_octets, seen_field};
ghost use Rattle.fax_ifp.specs.Packets.{FieldText, Message, octets_at, field_of, field_at, fields_at, fields_after, packet_of, HasNinthField};
ghost use Rattle.fax_ifp.specs.Pieces.{has_octet};
ghost use Rattle.fax_ifp.specs.Seen.{octets_in, text_of, texts_of, head_of, fields_in};
ghost use Rattle.fax_ifp.specs.WrittenPackets.{image_fields};

use crate::codes::{DataType, FieldType};
use crate::fault::IfpFault;
use smallvec::SmallVec;
use std::alloc::Global;
use std::default::MadeWith;
use std::marker::Model;

/// A field of data: the code of its type, from 0 to 7 (see [`crate::FieldType`]), and its octets where it
/// has some.
#[derive(Clone, Copy, PartialEq, Eq)]
pub struct Field<'a> {
    pub what: u8,
    pub octets: Option<&'a [u8]>,
}

impl<'a> MadeWith<Global> for Field<'a> {
    fn made_with(_alloc: Global) -> Field<'a> {
        Field {
            what: 0,
            octets: None,
        }
    }
}

/// Whether a packet is an indicator or data, and which, by its code (see [`crate::Indicator`] and
/// [`crate::DataType`]).
#[derive(Clone, Copy, PartialEq, Eq)]
pub enum Head {
    Indicator(u8),
    Message { kind: u8 },
}

/// The bit of a first octet that says that a count of fields follows.
const WITH_FIELDS: u32 = 7;

/// The bit of a first octet that tells data from an indicator.
const DATA: u32 = 6;

/// The bit of a first octet that marks an extension.
const EXTENSION: u32 = 5;

/// The greatest type of data.
const LAST_TYPE: u8 = DataType::V17At14400 as u8;

/// The greatest count of fields.
const MOST_FIELDS: u8 = 127;

/// The length word that counts no field's octets: 65,536 would be too many.
const NO_LENGTH: u16 = 0xffff;

#[derive(Drop)]
enum Content<'a> {
    Indicator(u8),
    Message {
        kind: u8,
        fields: SmallVec<Field<'a>, 8>,
    },
}

/// A packet that was read. Its fields lend the octets that it was read from.
#[derive(Drop)]
pub struct Ifp<'a> {
    content: Content<'a>,
}

impl<'a> Model for Ifp<'a> {
    ghost use Rattle.fax_ifp.specs.Packets.{Packet};

    ghost Value = { Packet };

    ghost use Rattle.fax_ifp.specs.Inside.Content.{packet_in};

    ghost view = { λ p. packet_in p.content };
}

impl<'a> Ifp<'a> {
    /// The packet that octets are. Octets after it are not read. Memory is taken only where more than 8
    /// fields of data are counted, and want of it is told only where they can be read. Fields of an
    /// indicator have no meaning: they are read, since a fault in them refuses the packet, and none of
    /// them is kept.
    pub fn read(alloc: Global, octets: &'a [u8]) -> Result<Ifp<'a>, IfpFault>
        ensures read { IfOk result (λ packet. packet_of octets.now ≡ Ok packet) }
        ensures refused { IfErr result
            (λ fault. fault ≢ IfpFault.NoMemory → packet_of octets.now ≡ Err fault) }
        ensures memory { result ≡ Err IfpFault.NoMemory → HasNinthField octets.now }
    {
        let [first, rest @ ..] = octets else {
            return Err(IfpFault::Short);
        };
        if has_bit(*first, EXTENSION) {
            return Err(IfpFault::Extension);
        }
        let value = (*first >> 1) & 15;
        let is_data = has_bit(*first, DATA);
        if is_data && value > LAST_TYPE {
            return Err(IfpFault::BadValue);
        }
        let (count, fields) = count_of_fields(*first, rest)?;
        if !is_data {
            check_fields(count, fields)?;
            return Ok(Ifp {
                content: Content::Indicator(value),
            });
        }
        let fields = read_fields(alloc, count, fields)?;
        Ok(Ifp {
            content: Content::Message {
                kind: value,
                fields,
            },
        })
    }

    /// Whether it is an indicator or data, and which.
    pub fn head(&self) -> Head
        ensures { result ≡ head_of self.now }
    {
        match &self.content {
            Content::Indicator(code) => Head::Indicator(*code),
            Content::Message { kind, .. } => Head::Message { kind: *kind },
        }
    }

    /// The fields of data in order; an indicator has none.
    pub fn fields(&self) -> &[Field<'a>]
        ensures { texts_of result.now ≡ fields_in self.now }
    {
        match &self.content {
            Content::Indicator(_) => &[],
            Content::Message { fields, .. } => fields.as_slice(),
        }
    }
}

/// Where the next field stands: in the half octet that is left of the last octet read, or in the next
/// octet.
#[derive(Clone, Copy)]
struct Place<'a> {
    half: Option<u8>,
    octets: &'a [u8],
}

/// Bit k of an octet, where bit 0 is the least significant.
#[inline]
fn has_bit(octet: u8, k: u32) -> bool
    requires { k < 8 }
    ensures { result ≡ bit octet k }
{
    (octet >> k) & 1 == 1
}

/// How many fields stand after a first octet, and the octets from the first of them on.
fn count_of_fields(first: u8, octets: &[u8]) -> Result<(u8, &[u8]), IfpFault>
    ensures count { IfOk result
        (λ read. fields_after first octets.now ≡ fields_at read.0 None read.1.now) }
    ensures fault { IfErr result (λ fault. fields_after first octets.now ≡ Err fault) }
    ensures memory { result ≢ Err IfpFault.NoMemory }
{
    if !has_bit(first, WITH_FIELDS) {
        return Ok((0, octets));
    }
    let [count, fields @ ..] = octets else {
        return Err(IfpFault::Short);
    };
    if *count > MOST_FIELDS {
        return Err(IfpFault::BadCount);
    }
    Ok((*count, fields))
}

/// The octets of a field after their length word, and what is after them.
fn own_octets(octets: &[u8]) -> Result<(&[u8], &[u8]), IfpFault>
    ensures { seen_octets result ≡ octets_at octets.now }
{
    let [high, low, rest @ ..] = octets else {
        return Err(IfpFault::Short);
    };
    let word = u16::from_be_bytes([*high, *low]);
    if word == NO_LENGTH {
        return Err(IfpFault::BadCount);
    }
    let count = usize::from(word) + 1;
    if rest.len() < count {
        return Err(IfpFault::Short);
    }
    Ok(rest.split_at(count))
}

/// The next field, and the place after it.
fn next_field<'a>(place: Place<'a>) -> Result<(Field<'a>, Place<'a>), IfpFault>
    ensures { seen_field result ≡ field_at place.entry.half place.entry.octets.now }
{
    match (place.half, place.octets) {
        (Some(half), octets) => field_of(half, None, octets),
        (None, [octet, octets @ ..]) => field_of(*octet >> 4, Some(*octet & 15), octets),
        (None, []) => Err(IfpFault::Short),
    }
}

/// The field of four bits, which stand before a half octet, if one is left, and octets.
fn field_of<'a>(
    bits: u8,
    half: Option<u8>,
    octets: &'a [u8],
) -> Result<(Field<'a>, Place<'a>), IfpFault>
    ensures { seen_field result ≡ field_of bits half octets.now }
{
    if bits < 8 {
        let field = Field {
            what: bits,
            octets: None,
        };
        return Ok((field, Place { half, octets }));
    }
    let (own, octets) = own_octets(octets)?;
    let field = Field {
        what: bits - 8,
        octets: Some(own),
    };
    Ok((field, Place { half: None, octets }))
}

/// Reads so many fields and keeps none.
fn check_fields(count: u8, octets: &[u8]) -> Result<(), IfpFault>
    ensures good { OnOk result ((fields : List FieldText)
        × (fields_at count None octets.now ≡ Ok fields)) }
    ensures fault { IfErr result (λ fault. fields_at count None octets.now ≡ Err fault) }
{
    let mut place = Place { half: None, octets };
    for _ in 0..count {
        let (_, after) = next_field(place)?;
        place = after;
    }
    Ok(())
}

/// Reads so many fields. A fault of theirs goes before want of memory.
fn read_fields<'a>(
    alloc: Global,
    count: u8,
    octets: &'a [u8],
) -> Result<SmallVec<Field<'a>, 8>, IfpFault>
    ensures read { IfOk result
        (λ fields. fields_at count None octets.now ≡ Ok (texts_of fields.items)) }
    ensures refused { IfErr result
        (λ fault. fault ≢ IfpFault.NoMemory → fields_at count None octets.now ≡ Err fault) }
    ensures memory { result ≡ Err IfpFault.NoMemory
        → (8 < count) × (fields : List FieldText) × (fields_at count None octets.now ≡ Ok fields) }
{
    let Ok(mut fields) = SmallVec::with_capacity(alloc, usize::from(count)) else {
        check_fields(count, octets)?;
        return Err(IfpFault::NoMemory);
    };
    let mut place = Place { half: None, octets };
    for _ in 0..count {
        let (field, after) = next_field(place)?;
        fields.push_reserved(field);
        place = after;
    }
    Ok(fields)
}

/// The octets of an image that a packet is and nothing else: data of this type with one field, of t4-non-ecm-data with octets.
pub(crate) fn image_octets<'a>(kind: u8, octets: &'a [u8]) -> Option<&'a [u8]>
    ensures octets { IfSome result
        (λ own. packet_of octets.now ≡ Ok (Message kind (image_fields false own.now))) }
    ensures some { IfSome result (λ own. has_octet own.now ≡ true) }
    ensures none { (own : List ℕ)
        → packet_of octets.now ≡ Ok (Message kind (image_fields false own)) → IsSome result }
{
    let field = only_field(kind, octets)?;
    if field.what == FieldType::T4NonEcmData.code() {
        field.octets
    } else {
        None
    }
}

/// The field of a packet that is data of this type with one field.
fn only_field<'a>(kind: u8, octets: &'a [u8]) -> Option<Field<'a>>
    ensures field { IfSome result
        (λ field. packet_of octets.now ≡ Ok (Message kind (text_of field ∷ []))) }
    ensures some { IfSome result
        (λ field. (own : List ℕ) → octets_in field.octets ≡ Some own → has_octet own ≡ true) }
    ensures none { (text : FieldText)
        → packet_of octets.now ≡ Ok (Message kind (text ∷ [])) → IsSome result }
{
    let [first, rest @ ..] = octets else {
        return None;
    };
    if has_bit(*first, EXTENSION) {
        return None;
    }
    let value = (*first >> 1) & 15;
    if !has_bit(*first, DATA) {
        return None;
    }
    if value != kind || value > LAST_TYPE {
        return None;
    }
    let Ok((count, fields)) = count_of_fields(*first, rest) else {
        return None;
    };
    if count != 1 {
        return None;
    }
    let place = Place {
        half: None,
        octets: fields,
    };
    match next_field(place) {
        Ok((field, _)) => Some(field),
        Err(_) => None,
    }
}
