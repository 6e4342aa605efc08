//! What stands in a value: its parts, its parameters and its address.
ghost use Rattle.std.specs.Prelude.{◌≡◌, ◌<◌, ◌∷◌, length, option_map, IfSome};
ghost use Rattle.std.specs.List.{filter_map};
ghost use Rattle.fax_sip.specs.Fields.{first_of};
ghost use Rattle.fax_sip.specs.Parameters.{before, credential_of, parameter_of, parameter_value, unquoted as without_quotes, uri_of as uri_in, user_of as user_in, via_of, via_text};
ghost use Rattle.fax_sip.specs.Texts.{parts_left, parts_of};

use crate::mark::Mark;
use crate::text::{cut, same_word, trimmed};

/// What a value of `Via` says of a hop, its parameters aside (RFC 3261, 20.42).
#[derive(Clone, Copy)]
pub struct Via<'a> {
    /// What carried it: `UDP`.
    pub transport: &'a [u8],
    /// Who sent it: a host, and a port where one is told.
    pub sent_by: &'a [u8],
}

/// The part of a text before the first such octet outside of quoted strings and of angle brackets, and the text after it.
pub(crate) fn first_part(text: &[u8], separator: u8) -> (&[u8], Option<&[u8]>)
    ensures parts { parts_of separator text.now
        ≡ result.0.now ∷ parts_left separator (option_map (λ rest. rest.now) result.1) }
    ensures shorter { IfSome result.1 (λ rest. length rest.now < length text.now) }
{
    match cut(text, Mark::Outside(separator)) {
        Some((part, rest)) => (part, Some(rest)),
        None => (text, None),
    }
}

/// The part of a text before the first such mark; all of it where there is none.
fn before_mark(text: &[u8], mark: Mark) -> &[u8]
    ensures { result.now ≡ before mark text.now }
{
    match cut(text, mark) {
        Some((front, _)) => front,
        None => text,
    }
}

/// The value of a part that is a parameter of this name; it is empty where it has none.
#[tactic(auto, unfolding(crate::specs::Parameters::parameter_value))]
fn value_in<'a>(part: &'a [u8], name: &[u8]) -> Option<&'a [u8]>
    ensures { option_map (λ value. value.now) result ≡ parameter_value name.now part.now }
{
    match cut(part, Mark::Octet(b'=')) {
        Some((word, value)) => {
            if same_word(trimmed(word), name) {
                Some(trimmed(value))
            } else {
                None
            }
        }
        None => {
            if same_word(trimmed(part), name) {
                Some(&[])
            } else {
                None
            }
        }
    }
}

/// The value of the first part that is a parameter of this name.
fn find_parameter<'a>(parts: Option<&'a [u8]>, separator: u8, name: &[u8]) -> Option<&'a [u8]>
    ensures { option_map (λ value. value.now) result
        ≡ first_of (filter_map (parameter_value name.now) (parts_left separator (option_map
        (λ rest. rest.now) parts.entry))) }
{
    let mut rest = parts;
    while let Some(text) = rest {
        let (part, after) = first_part(text, separator);
        if let Some(value) = value_in(part, name) {
            return Some(value);
        }
        rest = after;
    }
    None
}

/// The value of a parameter after a semicolon, as `tag` of `From`, `branch` of `Via`; it is empty where it has none, as `lr`.
pub fn parameter<'a>(value: &'a [u8], name: &str) -> Option<&'a [u8]>
    ensures { option_map (λ value. value.now) result ≡ parameter_of name.now value.now }
{
    let (_, after) = first_part(value, b';');
    find_parameter(after, b';', name.as_bytes())
}

/// The value of a parameter of a challenge or of credentials, as `realm` of `WWW-Authenticate`, with its quotation marks.
pub fn credential<'a>(value: &'a [u8], name: &str) -> Option<&'a [u8]>
    ensures { option_map (λ value. value.now) result ≡ credential_of name.now value.now }
{
    let (_, rest) = cut(value, Mark::Blank)?;
    find_parameter(Some(rest), b',', name.as_bytes())
}

/// A text without the quotation marks at its ends.
pub fn unquoted(text: &[u8]) -> &[u8]
    ensures { result.now ≡ without_quotes text.now }
{
    let length = text.len();
    if length >= 2 && text[0] == b'"' && text[length - 1] == b'"' {
        &text[1..length - 1]
    } else {
        text
    }
}

/// The address of a value, as of `Contact`: what stands in angle brackets, or the value up to its parameters.
pub fn uri_of(value: &[u8]) -> &[u8]
    ensures { result.now ≡ uri_in value.now }
{
    match cut(value, Mark::Outside(b'<')) {
        Some((_, rest)) => trimmed(before_mark(rest, Mark::Octet(b'>'))),
        None => trimmed(before_mark(value, Mark::Outside(b';'))),
    }
}

/// The user of a `sip` or `sips` address: the number that is called, without its own parameters and without a password (RFC 3261,
/// 19.1.1).
pub fn user_of(uri: &[u8]) -> Option<&[u8]>
    ensures { option_map (λ user. user.now) result ≡ user_in uri.now }
{
    let (scheme, rest) = cut(uri, Mark::Octet(b':'))?;
    if !same_word(scheme, b"sip") && !same_word(scheme, b"sips") {
        return None;
    }
    let (user, _) = cut(rest, Mark::Octet(b'@'))?;
    let user = before_mark(user, Mark::Octet(b':'));
    Some(before_mark(user, Mark::Octet(b';')))
}

/// The hop of a value of `Via`.
pub fn read_via(value: &[u8]) -> Option<Via<'_>>
    ensures { option_map via_text result ≡ via_of value.now }
{
    let hop = before_mark(value, Mark::Outside(b';'));
    let (_, rest) = cut(hop, Mark::Octet(b'/'))?;
    let (_, rest) = cut(rest, Mark::Octet(b'/'))?;
    let (transport, sent_by) = cut(trimmed(rest), Mark::Blank)?;
    Some(Via {
        transport,
        sent_by: trimmed(sent_by),
    })
}
