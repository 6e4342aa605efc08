//! Header lines, written.
ghost use Rattle.std.specs.Prelude.{◌≡◌, ◌++◌, OnOk};
ghost use Rattle.std.specs.List.{flat_map};
ghost use Rattle.fax_sip.specs.Written.{field_octets, header, length_line};

use crate::name::Name;
use std::alloc::{AllocError, Global};

/// A header line that is told.
#[derive(Clone, Copy)]
pub struct Field<'a> {
    /// Its name.
    pub name: Name,
    /// Its value, in one line.
    pub value: &'a [u8],
}

/// Writes a header line.
pub(crate) fn put_header(octets: &mut Vec<u8>, name: Name, value: &[u8]) -> Result<(), AllocError>
    ensures { OnOk result (octets.new.items ≡ octets.old.items ++ header name value.now) }
{
    octets.extend_from_slice(name.long().as_bytes())?;
    octets.extend_from_slice(b": ")?;
    octets.extend_from_slice(value)?;
    octets.extend_from_slice(b"\r\n")
}

/// Writes header lines that are told.
pub(crate) fn put_fields(octets: &mut Vec<u8>, fields: &[Field<'_>]) -> Result<(), AllocError>
    ensures { OnOk result (octets.new.items
        ≡ octets.old.items ++ flat_map field_octets fields.now) }
{
    for field in fields {
        put_header(octets, field.name, field.value)?;
    }
    Ok(())
}

/// Writes the length of the body, and the empty line that ends the header lines.
pub(crate) fn put_length(
    octets: &mut Vec<u8>,
    alloc: Global,
    length: usize,
) -> Result<(), AllocError>
    ensures { OnOk result (octets.new.items ≡ octets.old.items ++ length_line length) }
{
    let line = format!(in alloc; "Content-Length: {length}\r\n\r\n")?;
    octets.extend_from_slice(line.as_bytes())
}
