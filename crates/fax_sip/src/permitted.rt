//! What may be written: no text that is told ends its line, so that nobody's text makes a header line of its own.
ghost use Rattle.std.specs.Prelude.{◌≡◌};
ghost use Rattle.std.specs.List.{list_all};
ghost use Rattle.fax_sip.specs.Permitted.{field_fault, fields_fault, is_address as is_an_address, is_address_octet as stands_in_address, is_own as writes_itself, is_text as is_a_text, is_text_octet as stands_in_text, is_visible as is_a_visible, is_visible_octet as stands_visible};

use crate::name::Name;
use crate::write_fault::WriteFault;
use crate::writing::Field;

/// Whether an octet may stand in a text in one line.
fn is_text_octet(octet: u8) -> bool
    ensures { result ≡ stands_in_text octet }
{
    octet == b'\t' || (octet >= b' ' && octet != 127)
}

/// Whether a text is in one line, with no control character but tabs.
pub(crate) fn is_text(text: &[u8]) -> bool
    ensures { result ≡ is_a_text text.now }
{
    text.iter().all(|octet| is_text_octet(*octet))
}

/// Whether an octet is a visible one of ASCII, and parts no values and no parameters.
fn is_visible_octet(octet: u8) -> bool
    ensures { result ≡ stands_visible octet }
{
    octet > b' ' && octet < 127 && !b",;\"<>".contains(&octet)
}

/// Whether a text is one octet or more, each of them visible.
pub(crate) fn is_visible(text: &[u8]) -> bool
    ensures { result ≡ is_a_visible text.now }
{
    if text.is_empty() {
        return false;
    }
    has_visible_octets_alone(text)
}

/// Whether each octet of a text is visible, and parts nothing.
fn has_visible_octets_alone(text: &[u8]) -> bool
    ensures { result ≡ list_all stands_visible text.now }
{
    text.iter().all(|octet| is_visible_octet(*octet))
}

/// Whether an octet may stand in an address between angle brackets.
fn is_address_octet(octet: u8) -> bool
    ensures { result ≡ stands_in_address octet }
{
    octet > b' ' && octet < 127 && !b"\"<>".contains(&octet)
}

/// Whether a text may stand between angle brackets as an address.
pub(crate) fn is_address(text: &[u8]) -> bool
    ensures { result ≡ is_an_address text.now }
{
    if text.is_empty() {
        return false;
    }
    has_address_octets_alone(text)
}

/// Whether each octet of a text may stand in an address.
fn has_address_octets_alone(text: &[u8]) -> bool
    ensures { result ≡ list_all stands_in_address text.now }
{
    text.iter().all(|octet| is_address_octet(*octet))
}

/// Whether a writer writes the header lines of this name of itself.
fn is_own(name: Name) -> bool
    ensures { result ≡ writes_itself name }
{
    match name {
        Name::Via
        | Name::From
        | Name::To
        | Name::CallId
        | Name::CSeq
        | Name::MaxForwards
        | Name::RecordRoute
        | Name::ContentLength => true,
        Name::Contact
        | Name::Route
        | Name::Require
        | Name::Supported
        | Name::Allow
        | Name::ContentType
        | Name::ContentEncoding
        | Name::Expires
        | Name::MinExpires
        | Name::SessionExpires
        | Name::MinSe
        | Name::RetryAfter
        | Name::WwwAuthenticate
        | Name::ProxyAuthenticate
        | Name::Authorization
        | Name::ProxyAuthorization => false,
    }
}

/// Why a header line is not told.
fn fault_of_field(field: &Field<'_>) -> Option<WriteFault>
    ensures { result ≡ field_fault field.now }
{
    if is_own(field.name) || !is_text(field.value) {
        Some(WriteFault::BadField(field.name))
    } else {
        None
    }
}

/// Why the first of header lines that is not told is not.
pub(crate) fn fault_of_fields(fields: &[Field<'_>]) -> Option<WriteFault>
    ensures { result ≡ fields_fault fields.now }
{
    for field in fields {
        let fault = fault_of_field(field);
        if fault.is_some() {
            return fault;
        }
    }
    None
}
