//! Seconds that header lines tell.
ghost use Rattle.std.specs.Prelude.{◌≡◌, ◌==◌, position, true};
ghost use Rattle.std.specs.Char.{is_ascii_digit};
ghost use Rattle.std.specs.List.{before_first, list_all};
ghost use Rattle.fax_requests.specs.Seconds.{seconds_in};
ghost use Rattle.fax_requests.specs.Refreshing.{agent_named, refresher_in};
ghost use Rattle.fax_sip.specs.Texts.{is_word, number, trimmed as trimmed_of};

use fax_dialogs::Agent;
use fax_sip::parameter;
use std::str;

/// The number in front of a value's parameters, as of `Expires`, `Min-Expires`, `Min-SE` and `Session-Expires`; none where there is none below 2^32.
pub fn read_seconds(value: &[u8]) -> Option<u32>
    ensures { result ≡ seconds_in value.now }
{
    number_of(trimmed(before_parameters(value)))
}

/// What stands before a value's parameters.
fn before_parameters(value: &[u8]) -> &[u8]
    ensures { result.now ≡ before_first (λ octet. octet == 59) value.now }
{
    match place_of_parameters(value) {
        Some(place) => &value[..place],
        None => value,
    }
}

/// The place of the first semicolon of a value.
fn place_of_parameters(value: &[u8]) -> Option<usize>
    ensures { result ≡ position (λ octet. octet == 59) value.now }
{
    value.iter().position(|octet| *octet == b';')
}

/// A text without the white space at both ends.
fn trimmed(text: &[u8]) -> &[u8]
    ensures { result.now ≡ trimmed_of text.now }
{
    text.trim_ascii()
}

/// The number that digits write.
fn number_of(text: &[u8]) -> Option<u32>
    ensures { result ≡ number text.now }
{
    if !has_digits_alone(text) {
        return None;
    }
    match str::from_utf8(text) {
        Ok(digits) => digits_number(digits),
        Err(_) => None,
    }
}

/// The number of a text of digits alone.
fn digits_number(digits: &str) -> Option<u32>
    requires { list_all is_ascii_digit digits.now ≡ true }
    ensures { result ≡ number digits.now }
{
    match digits.parse::<u32>() {
        Ok(number) => Some(number),
        Err(_) => None,
    }
}

/// Whether each octet of a text is a digit.
fn has_digits_alone(text: &[u8]) -> bool
    ensures { result ≡ list_all is_ascii_digit text.now }
{
    text.iter().all(|octet| octet.is_ascii_digit())
}

/// Who is to refresh a session, as `refresher` of `Session-Expires` tells it (RFC 4028, 4).
pub fn read_refresher(value: &[u8]) -> Option<Agent>
    ensures { result ≡ refresher_in value.now }
{
    agent_of(parameter(value, "refresher")?)
}

/// Whom a word names.
fn agent_of(word: &[u8]) -> Option<Agent>
    ensures { result ≡ agent_named word.now }
{
    if is_one_word(word, b"uac") {
        Some(Agent::Uac)
    } else if is_one_word(word, b"uas") {
        Some(Agent::Uas)
    } else {
        None
    }
}

/// Whether two words are one, but for the case of their letters.
fn is_one_word(text: &[u8], word: &[u8]) -> bool
    ensures { result ≡ is_word text.now word.now }
{
    text.eq_ignore_ascii_case(word)
}
