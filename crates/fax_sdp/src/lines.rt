//! Lines of a text, words and numbers.
ghost use Rattle.std.specs.Prelude.{◌≡◌, ◌||◌, ◌<◌, [], ◌∷◌, length, option_map, IfSome, IfNone};
ghost use Rattle.std.specs.Char.{is_ascii_digit};
ghost use Rattle.std.specs.List.{list_all};
ghost use Rattle.fax_sdp.specs.Texts.{cut_at, has_word as has_word_of, is_word, lines_of, number, without_return};

/// A text up to the first such octet, and what follows it; none where there is no such octet.
pub fn cut(text: &str, mark: char) -> Option<(&str, &str)>
    requires { mark < 128 }
    ensures parts { cut_at mark text.now ≡ option_map (λ parts. (parts.0.now, parts.1.now)) result }
    ensures shorter { IfSome result (λ parts. length parts.1.now < length text.now) }
{
    text.split_once(mark)
}

/// The first line of a text, and the text after it; none of an empty text.
pub fn first_line(text: &str) -> Option<(&str, &str)>
    ensures none { IfNone result (text.now ≡ []) }
    ensures lines { IfSome result (λ cut. lines_of text.now ≡ cut.0.now ∷ lines_of cut.1.now) }
    ensures shorter { IfSome result (λ cut. length cut.1.now < length text.now) }
{
    if text.is_empty() {
        return None;
    }
    match cut(text, '\n') {
        Some((line, rest)) => Some((bare(line), rest)),
        None => Some((bare(text), "")),
    }
}

/// A line without the carriage return at its end.
fn bare(line: &str) -> &str
    ensures { result.now ≡ without_return line.now }
{
    match line.strip_suffix('\r') {
        Some(line) => line,
        None => line,
    }
}

/// Whether two words are one, but for the case of their letters.
pub fn same_word(text: &str, word: &str) -> bool
    ensures { result ≡ is_word text.now word.now }
{
    text.eq_ignore_ascii_case(word)
}

/// Whether a word is one of these two, but for the case of its letters.
pub fn is_either(text: &str, word: &str, other: &str) -> bool
    ensures { result ≡ is_word text.now word.now || is_word text.now other.now }
{
    same_word(text, word) || same_word(text, other)
}

/// The number that digits write.
pub fn number_of(text: &str) -> Option<u32>
    ensures { result ≡ number text.now }
{
    if !has_digits_alone(text) {
        return None;
    }
    match text.parse::<u32>() {
        Ok(number) => Some(number),
        Err(_) => None,
    }
}

/// Whether each octet of a text is a digit.
fn has_digits_alone(text: &str) -> bool
    ensures { result ≡ list_all is_ascii_digit text.now }
{
    text.as_bytes().iter().all(|octet| octet.is_ascii_digit())
}

/// Whether some word of a text is this one, but for the case of its letters; one space stands between words.
#[tactic(auto, using(crate::proofs::TextLemmas::has_last))]
pub fn has_word(text: &str, word: &str) -> bool
    ensures { result ≡ has_word_of text.now word.now }
{
    let mut rest = text;
    while let Some((first, after)) = cut(rest, ' ') {
        if same_word(first, word) {
            return true;
        }
        rest = after;
    }
    same_word(rest, word)
}
