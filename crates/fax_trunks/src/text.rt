//! Texts that are cut, and numbers in them.
ghost use Rattle.std.specs.Prelude.{◌≡◌, ◌<◌, option_map};
ghost use Rattle.std.specs.Char.{is_ascii_digit};
ghost use Rattle.std.specs.List.{list_all};
ghost use Rattle.fax_trunks.specs.Texts.{cut_at, number};

/// What stands before the first such octet, and what after it; none where there is no such octet.
pub(crate) fn cut(text: &str, mark: char) -> Option<(&str, &str)>
    requires { mark < 128 }
    ensures { cut_at mark text.now ≡ option_map (λ parts. (parts.0.now, parts.1.now)) result }
{
    text.split_once(mark)
}

/// The number that digits write.
pub(crate) fn number_of(text: &str) -> Option<u8>
    ensures { result ≡ number text.now }
{
    if !has_digits_alone(text) {
        return None;
    }
    match text.parse::<u8>() {
        Ok(number) => Some(number),
        Err(_) => None,
    }
}

/// Whether each octet of a text is a digit.
fn has_digits_alone(text: &str) -> bool
    ensures { result ≡ list_all is_ascii_digit text.now }
{
    text.as_bytes().iter().all(|octet| octet.is_ascii_digit())
}
