//! Packets that are written.
ghost use Rattle.std.specs.Prelude.{ℕ, ◌≡◌, ◌+◌, ◌*◌, ◌≤◌, [], ◌∷◌, ◌++◌, List, All, Some, length, vec_len, vec_capacity, IfOk};
ghost use Rattle.std.specs.Option.{ForSome};
ghost use Rattle.fax_ifp.specs.Packets.{FieldText};
ghost use Rattle.fax_ifp.specs.Seen.{text_of, texts_of};
ghost use Rattle.fax_ifp.specs.Inside.Halves.{added, half_after};
ghost use Rattle.fax_ifp.specs.WrittenPackets.{counted, written_after, written_fields, written_indicator, written_message, IsWritableField, IsWritable, frame_fields, image_fields};

use crate::codes::{DataType, FieldType};
use crate::packet::Field;
use fax_bits::{NoMemory, Octets};
use std::alloc::Global;
use std::mem;

/// The first octet of data without fields, but for the type.
const DATA: u8 = 0x40;

/// The first octet of data with fields, but for the type.
const DATA_WITH_FIELDS: u8 = 0xc0;

/// The packet of an indicator, by its code (see [`crate::Indicator`]).
pub fn write_indicator(code: u8) -> [u8; 1]
    requires { code ≤ 15 }
    ensures { result ≡ written_indicator code }
{
    [2 * code]
}

/// Adds the packet of an indicator, by its code (see [`crate::Indicator`]), for which there is room: one
/// octet. It takes no memory.
pub fn put_indicator(octets: &mut Vec<u8>, code: u8)
    requires known { code ≤ 15 }
    requires room { vec_len octets.old + 1 ≤ vec_capacity octets.old }
    ensures items { octets.new.items ≡ octets.old.items ++ written_indicator code }
    ensures capacity { vec_capacity octets.new ≡ vec_capacity octets.old }
{
    octets.push_reserved(2 * code);
}

/// The packet of data of a type, by its code (see [`crate::DataType`]), with fields: at most 127, of type
/// 7 at most, and where a field has octets 1 to 65,535 of them.
pub fn write_data(alloc: Global, kind: u8, fields: &[Field<'_>]) -> Result<Octets, NoMemory>
    requires { IsWritable kind (texts_of fields.now) }
    ensures { IfOk result (λ octets. octets ≡ written_message kind (texts_of fields.now)) }
{
    let mut octets = Vec::with_capacity(alloc, data_length(fields))?;
    put_data(&mut octets, kind, fields);
    Ok(Octets::from_vec(octets))
}

/// Adds the packet of data of a type with fields, as [`write_data`] writes it. There is room for it, which
/// [`data_length`] tells. It takes no memory.
pub fn put_data(octets: &mut Vec<u8>, kind: u8, fields: &[Field<'_>])
    requires writable { IsWritable kind (texts_of fields.now) }
    requires room { vec_len octets.old + length (written_message kind (texts_of fields.now))
        ≤ vec_capacity octets.old }
    ensures items { octets.new.items
        ≡ octets.old.items ++ written_message kind (texts_of fields.now) }
    ensures capacity { vec_capacity octets.new ≡ vec_capacity octets.old }
{
    if fields.is_empty() {
        octets.push_reserved(DATA + 2 * kind);
        return;
    }
    octets.push_reserved(DATA_WITH_FIELDS + 2 * kind);
    octets.push_reserved(fields.len() as u8);
    push_fields(octets, fields);
}

/// How many octets the packet of data with fields has, of whatever type.
pub fn data_length(fields: &[Field<'_>]) -> usize
    requires few { length fields.now ≤ 127 }
    requires each { All IsWritableField (texts_of fields.now) }
    ensures { (kind : ℕ) → length (written_message kind (texts_of fields.now)) ≡ result }
{
    if fields.is_empty() {
        return 1;
    }
    2 + length_of_fields(fields)
}

/// The packet of a frame, of 1 to 256 octets: V.21 data that ends its signal.
pub fn write_frame(alloc: Global, frame: &[u8]) -> Result<Octets, NoMemory>
    requires some { 1 ≤ length frame.now }
    requires few { length frame.now ≤ 256 }
    ensures { IfOk result (λ octets. octets ≡ written_message 0 (frame_fields frame.now)) }
{
    let mut octets = Vec::with_capacity(alloc, 6 + frame.len())?;
    put_frame(&mut octets, frame);
    Ok(Octets::from_vec(octets))
}

/// Adds the packet of a frame, as [`write_frame`] writes it. There is room for it: 6 octets more than the
/// frame has. It takes no memory.
pub fn put_frame(octets: &mut Vec<u8>, frame: &[u8])
    requires some { 1 ≤ length frame.now }
    requires few { length frame.now ≤ 256 }
    requires room { vec_len octets.old + 6 + length frame.now ≤ vec_capacity octets.old }
    ensures items { octets.new.items
        ≡ octets.old.items ++ written_message 0 (frame_fields frame.now) }
    ensures capacity { vec_capacity octets.new ≡ vec_capacity octets.old }
{
    let data = Field {
        what: FieldType::HdlcData.code(),
        octets: Some(frame),
    };
    let end = Field {
        what: FieldType::HdlcFcsOkSigEnd.code(),
        octets: None,
    };
    put_data(octets, DataType::V21.code(), &[data, end]);
}

/// A packet of an image's octets, 1 to 65,535 of them, in data of a type, by its code. The last packet
/// ends the signal.
pub fn write_image(alloc: Global, kind: u8, last: bool, octets: &[u8]) -> Result<Octets, NoMemory>
    requires kind { kind ≤ 8 }
    requires some { 1 ≤ length octets.now }
    requires few { length octets.now ≤ 65535 }
    ensures { IfOk result
        (λ written. written ≡ written_message kind (image_fields last octets.now)) }
{
    let mut written = Vec::with_capacity(alloc, 5 + octets.len())?;
    put_image(&mut written, kind, last, octets);
    Ok(Octets::from_vec(written))
}

/// Adds a packet of an image's octets, as [`write_image`] writes it. There is room for it: 5 octets more
/// than the image's own. It takes no memory.
pub fn put_image(octets: &mut Vec<u8>, kind: u8, last: bool, own: &[u8])
    requires kind { kind ≤ 8 }
    requires some { 1 ≤ length own.now }
    requires few { length own.now ≤ 65535 }
    requires room { vec_len octets.old + 5 + length own.now ≤ vec_capacity octets.old }
    ensures items { octets.new.items
        ≡ octets.old.items ++ written_message kind (image_fields last own.now) }
    ensures capacity { vec_capacity octets.new ≡ vec_capacity octets.old }
{
    let what = if last {
        FieldType::T4NonEcmSigEnd
    } else {
        FieldType::T4NonEcmData
    };
    let field = Field {
        what: what.code(),
        octets: Some(own),
    };
    put_data(octets, kind, &[field]);
}

/// How many octets fields take.
fn length_of_fields(fields: &[Field<'_>]) -> usize
    requires few { length fields.now ≤ 127 }
    requires each { All IsWritableField (texts_of fields.now) }
    ensures sum { result ≡ length (written_fields (texts_of fields.now)) }
    ensures within { result ≤ 65538 * length fields.now + 1 }
{
    let mut total = 0;
    let mut half = None;
    for field in fields {
        total += length_after(half, field);
        half = half_after(half, field);
    }
    match half {
        Some(_) => total + 1,
        None => total,
    }
}

/// Adds fields, for which there is room.
fn push_fields(octets: &mut Vec<u8>, fields: &[Field<'_>])
    requires each { All IsWritableField (texts_of fields.now) }
    requires room { vec_len octets.old + length (written_fields (texts_of fields.now))
        ≤ vec_capacity octets.old }
    ensures items { octets.new.items ≡ octets.old.items ++ written_fields (texts_of fields.now) }
    ensures capacity { vec_capacity octets.new ≡ vec_capacity octets.old }
{
    let mut half = None;
    for field in fields {
        push_field(octets, half, field);
        half = half_after(half, field);
    }
    if let Some(half) = half {
        octets.push_reserved(16 * half);
    }
}

/// The half octet that is left after a field, where one was left before it or not: its other half is the
/// next field's.
fn half_after(half: Option<u8>, field: &Field<'_>) -> Option<u8>
    ensures { result ≡ half_after half (text_of field.now) }
{
    match (half, field.octets) {
        (None, None) => Some(field.what),
        _ => None,
    }
}

/// How many octets a field adds.
fn length_after(half: Option<u8>, field: &Field<'_>) -> usize
    requires { IsWritableField (text_of field.now) }
    ensures { result ≡ length (added half (text_of field.now)) }
{
    match (half, field.octets) {
        (None, None) => 0,
        (Some(_), None) => 1,
        (_, Some(own)) => 3 + own.len(),
    }
}

/// Adds the octets of a field, for which there is room.
fn push_field(octets: &mut Vec<u8>, half: Option<u8>, field: &Field<'_>)
    requires field { IsWritableField (text_of field.now) }
    requires half { ForSome half (λ half. half ≤ 7) }
    requires room { vec_len octets.old + length (added half (text_of field.now))
        ≤ vec_capacity octets.old }
    ensures items { octets.new.items ≡ octets.old.items ++ added half (text_of field.now) }
    ensures capacity { vec_capacity octets.new ≡ vec_capacity octets.old }
{
    match (half, field.octets) {
        (None, None) => {}
        (Some(half), None) => octets.push_reserved(16 * half + field.what),
        (None, Some(own)) => {
            octets.push_reserved(16 * (8 + field.what));
            push_counted(octets, own);
        }
        (Some(half), Some(own)) => {
            octets.push_reserved(16 * half + 8 + field.what);
            push_counted(octets, own);
        }
    }
}

/// Adds octets after their length word, for which there is room.
fn push_counted(octets: &mut Vec<u8>, own: &[u8])
    requires some { 1 ≤ length own.now }
    requires few { length own.now ≤ 65535 }
    requires room { vec_len octets.old + 2 + length own.now ≤ vec_capacity octets.old }
    ensures items { octets.new.items ≡ octets.old.items ++ counted (Some own.now) }
    ensures capacity { vec_capacity octets.new ≡ vec_capacity octets.old }
{
    let [high, low] = u16::to_be_bytes((own.len() - 1) as u16);
    octets.push_reserved(high);
    octets.push_reserved(low);
    push_own(octets, own);
}

/// Adds octets, for which there is room. The list is held here meanwhile: so the compiler knows that none of the octets that
/// are written is the list's length, and copies many at once.
fn push_own(octets: &mut Vec<u8>, own: &[u8])
    requires room { vec_len octets.old + length own.now ≤ vec_capacity octets.old }
    ensures items { octets.new.items ≡ octets.old.items ++ own.now }
    ensures capacity { vec_capacity octets.new ≡ vec_capacity octets.old }
{
    let nothing = Vec::new(*octets.allocator());
    let mut held = mem::replace(octets, nothing);
    for octet in own {
        held.push_reserved(*octet);
    }
    *octets = held;
}
