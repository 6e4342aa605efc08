//! Header lines, and the values of those of one name.
ghost use Rattle.std.specs.Prelude.{◌≡◌, ◌<◌, [], ◌∷◌, length, option_map, IfSome, IfNone};
ghost use Rattle.std.specs.List.{list_all};
ghost use Rattle.fax_sip.specs.Fields.{Gives, at_least_one as some_value, at_most_one as no_other, is_field as is_header_line, is_token as is_a_token, is_token_octet as stands_in_token, single as one_value, value_of as value_in, values_of};
ghost use Rattle.fax_sip.specs.Texts.{lines_of};

use crate::fault::SipFault;
use crate::mark::Mark;
use crate::name::Name;
use crate::text::{cut, first_line, trimmed};

/// Whether an octet may stand in a token.
fn is_token_octet(octet: u8) -> bool
    ensures { result ≡ stands_in_token octet }
{
    octet.is_ascii_alphanumeric() || b"-.!%*_+`'~".contains(&octet)
}

/// Whether a text is a token.
pub(crate) fn is_token(word: &[u8]) -> bool
    ensures { result ≡ is_a_token word.now }
{
    if word.is_empty() {
        return false;
    }
    has_token_octets_alone(word)
}

/// Whether each octet of a text may stand in a token.
fn has_token_octets_alone(text: &[u8]) -> bool
    ensures { result ≡ list_all stands_in_token text.now }
{
    text.iter().all(|octet| is_token_octet(*octet))
}

/// Whether a line is a header line.
#[tactic(auto, unfolding(crate::specs::Fields::is_field))]
fn is_field(line: &[u8]) -> bool
    ensures { result ≡ is_header_line line.now }
{
    match cut(line, Mark::Octet(b':')) {
        Some((name, _)) => is_token(trimmed(name)),
        None => false,
    }
}

/// Whether each line of a text is a header line.
pub(crate) fn are_fields(lines: &[u8]) -> bool
    ensures { result ≡ list_all is_header_line (lines_of lines.now) }
{
    let mut rest = lines;
    while let Some((line, after)) = first_line(rest) {
        if !is_field(line) {
            return false;
        }
        rest = after;
    }
    true
}

/// The value of a line, where it has this name.
#[tactic(auto, unfolding(crate::specs::Fields::value_of))]
fn value_of(line: &[u8], name: Name) -> Option<&[u8]>
    ensures { option_map (λ value. value.now) result ≡ value_in name line.now }
{
    match cut(line, Mark::Octet(b':')) {
        Some((word, value)) => {
            if name.is_named(trimmed(word)) {
                Some(trimmed(value))
            } else {
                None
            }
        }
        None => None,
    }
}

/// The value of the first line of a name, and the lines after it.
pub(crate) fn next_value(lines: &[u8], name: Name) -> Option<(&[u8], &[u8])>
    ensures none { IfNone result (values_of name (lines_of lines.now) ≡ []) }
    ensures some { IfSome result (λ found. values_of name (lines_of lines.now)
        ≡ found.0.now ∷ values_of name (lines_of found.1.now)) }
    ensures shorter { IfSome result (λ found. length found.1.now < length lines.now) }
{
    let mut rest = lines;
    while let Some((line, after)) = first_line(rest) {
        if let Some(value) = value_of(line, name) {
            return Some((value, after));
        }
        rest = after;
    }
    None
}

/// The value of a name that stands once.
pub(crate) fn single(lines: &[u8], name: Name) -> Result<&[u8], SipFault>
    ensures { Gives (λ value. value.now) result (one_value name (lines_of lines.now)) }
{
    match next_value(lines, name) {
        Some((value, rest)) => match next_value(rest, name) {
            Some(_) => Err(SipFault::Repeated(name)),
            None => Ok(value),
        },
        None => Err(SipFault::Missing(name)),
    }
}

/// The value of a name that stands once at most.
pub(crate) fn at_most_one(lines: &[u8], name: Name) -> Result<Option<&[u8]>, SipFault>
    ensures { Gives (option_map (λ value. value.now)) result (no_other name (lines_of lines.now)) }
{
    match next_value(lines, name) {
        Some((value, rest)) => match next_value(rest, name) {
            Some(_) => Err(SipFault::Repeated(name)),
            None => Ok(Some(value)),
        },
        None => Ok(None),
    }
}

/// The first value of a name that stands once at least.
pub(crate) fn at_least_one(lines: &[u8], name: Name) -> Result<&[u8], SipFault>
    ensures { Gives (λ value. value.now) result (some_value name (lines_of lines.now)) }
{
    match next_value(lines, name) {
        Some((value, _)) => Ok(value),
        None => Err(SipFault::Missing(name)),
    }
}
