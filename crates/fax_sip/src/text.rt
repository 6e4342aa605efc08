//! Texts of octets: cut at a mark, their lines, words and numbers.
ghost use Rattle.std.specs.Prelude.{◌≡◌, ◌≤◌, ◌+◌, ◌<◌, [], ◌∷◌, length, option_map, IfSome, IfNone, true};
ghost use Rattle.std.specs.Char.{is_ascii_digit};
ghost use Rattle.std.specs.List.{list_all};
ghost use Rattle.std.specs.Str.{bytes_eq};
ghost use Rattle.fax_sip.specs.declared.mark.Quoting.TheVariants.{Outside};
ghost use Rattle.fax_sip.specs.Texts.{cut as cut_of, is_word, lines_of, number, place_of as first_place, trimmed as trimmed_of, width};

use crate::mark::{Mark, Quoting};
use std::str;

/// The place of the first such mark.
fn place_of(text: &[u8], mark: Mark) -> Option<usize>
    ensures place { result ≡ first_place mark Outside text.now }
    ensures room { IfSome result (λ place. place + width mark ≤ length text.now) }
{
    let mut quoting = Quoting::Outside;
    for (i, octet) in text.iter().enumerate() {
        if mark.stands(&text[i..], quoting) {
            return Some(i);
        }
        quoting = quoting.after(*octet);
    }
    None
}

/// What stands before the first such mark, and what after it; none where there is no such mark.
pub(crate) fn cut(text: &[u8], mark: Mark) -> Option<(&[u8], &[u8])>
    ensures parts { cut_of mark text.now ≡ option_map (λ parts. (parts.0.now, parts.1.now)) result }
    ensures shorter { IfSome result (λ parts. length parts.1.now < length text.now) }
{
    let place = place_of(text, mark)?;
    let (front, rest) = text.split_at(place);
    Some((front, &rest[mark.width()..]))
}

/// The first line, and the text after it; none of an empty text.
pub(crate) fn first_line(text: &[u8]) -> Option<(&[u8], &[u8])>
    ensures none { IfNone result (text.now ≡ []) }
    ensures lines { IfSome result (λ cut. lines_of text.now ≡ cut.0.now ∷ lines_of cut.1.now) }
    ensures shorter { IfSome result (λ cut. length cut.1.now < length text.now) }
{
    if text.is_empty() {
        return None;
    }
    match cut(text, Mark::LineEnd) {
        Some((line, rest)) => Some((line, rest)),
        None => Some((text, &[])),
    }
}

/// A text without the white space at both ends.
pub(crate) fn trimmed(text: &[u8]) -> &[u8]
    ensures { result.now ≡ trimmed_of text.now }
{
    text.trim_ascii()
}

/// Whether two words are one, but for the case of their letters.
pub(crate) fn same_word(text: &[u8], word: &[u8]) -> bool
    ensures { result ≡ is_word text.now word.now }
{
    text.eq_ignore_ascii_case(word)
}

/// Whether two texts are one.
pub(crate) fn same_text(text: &[u8], other: &[u8]) -> bool
    ensures { result ≡ bytes_eq text.now other.now }
{
    text == other
}

/// The number that digits write.
pub(crate) fn number_of(text: &[u8]) -> Option<u32>
    ensures { result ≡ number text.now }
{
    if !has_digits_alone(text) {
        return None;
    }
    match str::from_utf8(text) {
        Ok(digits) => digits_number(digits),
        Err(_) => None,
    }
}

/// The number of a text of digits alone.
fn digits_number(digits: &str) -> Option<u32>
    requires { list_all is_ascii_digit digits.now ≡ true }
    ensures { result ≡ number digits.now }
{
    match digits.parse::<u32>() {
        Ok(number) => Some(number),
        Err(_) => None,
    }
}

/// Whether each octet of a text is a digit.
fn has_digits_alone(text: &[u8]) -> bool
    ensures { result ≡ list_all is_ascii_digit text.now }
{
    text.iter().all(|octet| octet.is_ascii_digit())
}
