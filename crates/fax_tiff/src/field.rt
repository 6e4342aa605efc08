//! The fields of a directory, written (TIFF 6.0, section 2).
ghost use Rattle.std.specs.Prelude.{◌≡◌, ◌++◌, flat_map, OnOk};
ghost use Rattle.std.specs.Int.{w16, w32, to_le_bytes};
ghost use Rattle.fax_tiff.specs.WrittenTiffs.{field, field_octets, value_octets};

use fax_bits::NoMemory;

/// A field: what it says of a page, and the value.
#[derive(Clone, Copy, PartialEq, Eq)]
pub(crate) struct Field {
    pub tag: u16,
    pub value: FieldValue,
}

/// The value of a field.
#[derive(Clone, Copy, PartialEq, Eq)]
pub(crate) enum FieldValue {
    /// A number of 16 bits.
    Short(u16),
    /// Two of them.
    Shorts(u16, u16),
    /// A number of 32 bits.
    Long(u32),
    /// A fraction, which stands at this place of the file.
    Rational(u32),
}

impl Field {
    /// A field of a number of 16 bits.
    pub(crate) fn short(tag: u16, n: u16) -> Self
        ensures { result ≡ field tag (FieldValue.Short n) }
    {
        Field {
            tag,
            value: FieldValue::Short(n),
        }
    }

    /// A field of two numbers of 16 bits.
    pub(crate) fn shorts(tag: u16, n: u16, m: u16) -> Self
        ensures { result ≡ field tag (FieldValue.Shorts n m) }
    {
        Field {
            tag,
            value: FieldValue::Shorts(n, m),
        }
    }

    /// A field of a number of 32 bits.
    pub(crate) fn long(tag: u16, n: u32) -> Self
        ensures { result ≡ field tag (FieldValue.Long n) }
    {
        Field {
            tag,
            value: FieldValue::Long(n),
        }
    }

    /// A field of a fraction that stands at this place of the file.
    pub(crate) fn rational(tag: u16, place: u32) -> Self
        ensures { result ≡ field tag (FieldValue.Rational place) }
    {
        Field {
            tag,
            value: FieldValue::Rational(place),
        }
    }
}

/// The types of values.
const SHORT: u16 = 3;

const LONG: u16 = 4;

const RATIONAL: u16 = 5;

/// Adds fields.
pub(crate) fn push_fields(octets: &mut Vec<u8>, fields: &[Field]) -> Result<(), NoMemory>
    ensures { OnOk result (octets.new.items
        ≡ octets.old.items ++ flat_map field_octets fields.now) }
{
    for field in fields {
        push_field(octets, *field)?;
    }
    Ok(())
}

/// Adds a field.
#[tactic(auto, unfolding(crate::specs::WrittenTiffs::field_octets))]
fn push_field(octets: &mut Vec<u8>, field: Field) -> Result<(), NoMemory>
    ensures { OnOk result (octets.new.items ≡ octets.old.items ++ field_octets field) }
{
    octets.extend_from_slice(&field.tag.to_le_bytes())?;
    push_value(octets, field.value)
}

/// Adds the type of a field, how many values it has, and these, or where they stand.
#[tactic(auto, unfolding(crate::specs::WrittenTiffs::value_octets))]
fn push_value(octets: &mut Vec<u8>, value: FieldValue) -> Result<(), NoMemory>
    ensures { OnOk result (octets.new.items ≡ octets.old.items ++ value_octets value) }
{
    match value {
        FieldValue::Short(n) => push_shorts(octets, 1, n, 0),
        FieldValue::Shorts(n, m) => push_shorts(octets, 2, n, m),
        FieldValue::Long(n) => push_long(octets, LONG, n),
        FieldValue::Rational(place) => push_long(octets, RATIONAL, place),
    }
}

/// Adds a type, one value, and these four octets of it.
fn push_long(octets: &mut Vec<u8>, kind: u16, value: u32) -> Result<(), NoMemory>
    ensures { OnOk result (octets.new.items ≡ octets.old.items
        ++ (to_le_bytes w16 kind ++ to_le_bytes w32 1 ++ to_le_bytes w32 value)) }
{
    octets.extend_from_slice(&kind.to_le_bytes())?;
    octets.extend_from_slice(&1u32.to_le_bytes())?;
    octets.extend_from_slice(&value.to_le_bytes())?;
    Ok(())
}

/// Adds the type of numbers of 16 bits, so many values, and these two.
fn push_shorts(octets: &mut Vec<u8>, count: u32, n: u16, m: u16) -> Result<(), NoMemory>
    ensures { OnOk result (octets.new.items ≡ octets.old.items ++ (to_le_bytes w16 3
        ++ to_le_bytes w32 count ++ to_le_bytes w16 n ++ to_le_bytes w16 m)) }
{
    octets.extend_from_slice(&SHORT.to_le_bytes())?;
    octets.extend_from_slice(&count.to_le_bytes())?;
    octets.extend_from_slice(&n.to_le_bytes())?;
    octets.extend_from_slice(&m.to_le_bytes())?;
    Ok(())
}
