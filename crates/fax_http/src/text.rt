//! Texts in a page.
ghost use Rattle.std.specs.Prelude.{◌≡◌, ◌++◌, OnOk, decimal};
ghost use Rattle.fax_http.specs.Texts.{octet_shown, text_shown};

use itoa::Buffer;
use std::alloc::AllocError;

/// Adds octets.
pub(crate) fn put(octets: &mut Vec<u8>, part: &[u8]) -> Result<(), AllocError>
    ensures { OnOk result (octets.new.items ≡ octets.old.items ++ part.now) }
{
    octets.extend_from_slice(part)
}

/// Adds a text, so that a browser shows it and takes nothing in it for markup (HTML, 13.5).
pub(crate) fn put_text(octets: &mut Vec<u8>, text: &str) -> Result<(), AllocError>
    ensures { OnOk result (octets.new.items ≡ octets.old.items ++ text_shown text.now) }
{
    let shown = text.as_bytes();
    for octet in shown {
        put_octet(octets, *octet)?;
    }
    Ok(())
}

/// Adds an octet of a text.
fn put_octet(octets: &mut Vec<u8>, octet: u8) -> Result<(), AllocError>
    ensures { OnOk result (octets.new.items ≡ octets.old.items ++ octet_shown octet) }
{
    match octet {
        b'&' => octets.extend_from_slice(b"&amp;"),
        b'<' => octets.extend_from_slice(b"&lt;"),
        b'>' => octets.extend_from_slice(b"&gt;"),
        b'"' => octets.extend_from_slice(b"&quot;"),
        b'\'' => octets.extend_from_slice(b"&#39;"),
        _ => {
            octets.push(octet)?;
            Ok(())
        }
    }
}

/// Adds a number, in decimal.
pub(crate) fn put_number(octets: &mut Vec<u8>, number: u64) -> Result<(), AllocError>
    ensures { OnOk result (octets.new.items ≡ octets.old.items ++ decimal number) }
{
    let mut buffer = Buffer::new();
    octets.extend_from_slice(buffer.format(number).as_bytes())
}
