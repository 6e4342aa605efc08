//! JSON in ASCII: text that a terminal shows, and does nothing else with.
ghost use Rattle.std.specs.Prelude.{◌≡◌, ◌++◌, ◌%◌, OnOk, flat_map};
ghost use Rattle.std.specs.Char.{digit_char};
ghost use Rattle.std.specs.Str.{IsUtf8};
ghost use Rattle.fax_listing.specs.Shown.{char_shown, shown, unit_shown};

use std::alloc::AllocError;

/// Writes a text of JSON in ASCII: each character but those from the space to `~` is escaped (RFC 8259, section 7).
pub(crate) fn write_shown(out: &mut Vec<u8>, text: &str) -> Result<(), AllocError>
    ensures { OnOk result (out.new.items ≡ out.old.items ++ shown text.now) }
{
    for c in text.chars() {
        push_char(out, c)?;
    }
    Ok(())
}

/// Writes a character: itself, or its units of UTF-16, escaped.
fn push_char(out: &mut Vec<u8>, c: char) -> Result<(), AllocError>
    ensures { OnOk result (out.new.items ≡ out.old.items ++ char_shown c) }
{
    if ' ' <= c && c <= '~' {
        out.push(c as u8)?;
        return Ok(());
    }
    push_units(out, c.encode_utf16(&mut [0; 2]))
}

/// Writes the escapes of some units of UTF-16.
fn push_units(out: &mut Vec<u8>, units: &[u16]) -> Result<(), AllocError>
    ensures { OnOk result (out.new.items ≡ out.old.items ++ flat_map unit_shown units.now) }
{
    for unit in units {
        push_unit(out, *unit)?;
    }
    Ok(())
}

/// Writes the escape of a unit of UTF-16.
fn push_unit(out: &mut Vec<u8>, unit: u16) -> Result<(), AllocError>
    ensures { OnOk result (out.new.items ≡ out.old.items ++ unit_shown unit) }
{
    let digits = [
        b'\\',
        b'u',
        hex_digit(unit / 4096),
        hex_digit(unit / 256),
        hex_digit(unit / 16),
        hex_digit(unit),
    ];
    out.extend_from_slice(&digits)
}

/// The last hexadecimal digit of a number.
fn hex_digit(n: u16) -> u8
    ensures { result ≡ digit_char (n % 16) }
{
    let digit = (n % 16) as u8;
    if digit < 10 {
        b'0' + digit
    } else {
        b'a' - 10 + digit
    }
}

/// Octets as the text that they are.
pub(crate) fn text_of(octets: &[u8]) -> &str
    requires { IsUtf8 octets.now }
    ensures { result.now ≡ octets.now }
{
    match std::str::from_utf8(octets) {
        Ok(text) => text,
        Err(_) => unreachable!(),
    }
}
