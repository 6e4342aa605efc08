//! What stands after the names of `ring` and `peer`: a tag, bounds, and whether a peer has moved. No words are `None`.
ghost use Rattle.std.specs.Prelude.{◌≡◌, ◌≢◌, ℕ, ◌++◌, List, Bool, Option, None, Some, true, false, codes, IfSome, IfNone, IsSomeAnd};
ghost use Rattle.fax_control.specs.declared.word.Bounds.{Bounds as BoundsShown};
ghost use Rattle.fax_control.specs.Options.{IsNoOption, IsOption, MayFollowNoTag, StartsOtherwise, text_of};
ghost use Rattle.fax_control.specs.Words.{BeginsWith, HasNoSpace, IsInRange, IsRingTag, IsTag, IsWithin, bounds_led, led, moved_text, option_led, word_led};

use crate::number::number_of;
use crate::spaces::{cut, first_word};
use crate::word::{Bounds, MOST_TAG_OCTETS};

/// Whether a text can be a tag, or a cause.
pub fn is_tag(text: &str) -> bool
    ensures yes { result ≡ true → IsTag text.now }
    ensures no { result ≡ false → IsTag text.now → ⊥ }
{
    if text.is_empty() {
        return false;
    }
    if text.len() > MOST_TAG_OCTETS {
        return false;
    }
    match cut(text) {
        None => true,
        Some(_) => false,
    }
}

/// The tag that words begin with, if they begin with none of an option, and what follows it. No tag has the name of an option.
pub fn tag_of(words: Option<&str>) -> Option<(Option<&str>, Option<&str>)>
    ensures said { IfSome result (λ parts. text_of words.entry
        ≡ word_led (text_of parts.0) (text_of parts.1)) }
    ensures tag { IfSome result (λ parts. IfSome (text_of parts.0) IsRingTag) }
    ensures only { (tag rest : Option (List ℕ)) → text_of words.entry ≡ word_led tag rest
        → IfSome tag IsRingTag → (tag ≡ None → MayFollowNoTag rest)
        → IsSomeAnd result (λ parts. (text_of parts.0 ≡ tag) × (text_of parts.1 ≡ rest)) }
{
    let Some(text) = words else {
        return Some((None, None));
    };
    let (first, rest) = first_word(text);
    if is_option(first) {
        return Some((None, words));
    }
    if is_tag(first) {
        Some((Some(first), rest))
    } else {
        None
    }
}

/// Whether a word begins as an option does.
fn is_option(word: &str) -> bool
    ensures yes { result ≡ true → IsOption word.now }
    ensures no { result ≡ false → IsOption word.now → ⊥ }
{
    match value_of("redundancy=", word) {
        Some(_) => true,
        None => match value_of("octets=", word) {
            Some(_) => true,
            None => false,
        },
    }
}

/// What a word has after this front.
fn value_of<'a>(front: &str, word: &'a str) -> Option<&'a str>
    ensures some { IfSome result (λ value. word.now ≡ front.now ++ value.now) }
    ensures none { IfNone result (BeginsWith front.now word.now → ⊥) }
{
    word.strip_prefix(front)
}

/// The value of an option that words begin with, if they do, and what follows it.
fn option_of<'a>(
    name: &str,
    least: u32,
    most: u32,
    words: Option<&'a str>,
) -> Option<(Option<u32>, Option<&'a str>)>
    requires { HasNoSpace name.now }
    ensures said { IfSome result
        (λ parts. text_of words.entry ≡ option_led name.now parts.0 (text_of parts.1)) }
    ensures within { IfSome result (λ parts. IsWithin least most parts.0) }
    ensures only { (value : Option ℕ) (rest : Option (List ℕ))
        → text_of words.entry ≡ option_led name.now value rest
        → IsWithin least most value → (value ≡ None → StartsOtherwise name.now rest)
        → IsSomeAnd result (λ parts. (parts.0 ≡ value) × (text_of parts.1 ≡ rest)) }
{
    let Some(text) = words else {
        return Some((None, None));
    };
    let (first, rest) = first_word(text);
    let Some(digits) = value_of(name, first) else {
        return Some((None, words));
    };
    let value = number_of(digits)?;
    if value < least {
        return None;
    }
    if most < value {
        None
    } else {
        Some((Some(value), rest))
    }
}

/// The bounds that words begin with, if they do, and what follows them.
pub fn bounds_of(words: Option<&str>) -> Option<(Bounds, Option<&str>)>
    ensures said { IfSome result
        (λ parts. text_of words.entry ≡ bounds_led parts.0 (text_of parts.1)) }
    ensures range { IfSome result (λ parts. IsInRange parts.0) }
    ensures only { (bounds : BoundsShown) (rest : Option (List ℕ))
        → text_of words.entry ≡ bounds_led bounds rest → IsInRange bounds → IsNoOption rest
        → IsSomeAnd result (λ parts. (parts.0 ≡ bounds) × (text_of parts.1 ≡ rest)) }
{
    let (redundancy, words) = option_of("redundancy=", 0, 8, words)?;
    let (octets, words) = option_of("octets=", 32, 65_535, words)?;
    let redundancy = octet_of(redundancy);
    let octets = double_octet_of(octets);
    Some((Bounds { redundancy, octets }, words))
}

/// The same number, in an octet.
fn octet_of(number: Option<u32>) -> Option<u8>
    requires { IsWithin 0 8 number }
    ensures { result ≡ number }
{
    match number {
        None => None,
        Some(number) => Some(number as u8),
    }
}

/// The same number, in two octets.
fn double_octet_of(number: Option<u32>) -> Option<u16>
    requires { IsWithin 32 65535 number }
    ensures { result ≡ number }
{
    match number {
        None => None,
        Some(number) => Some(number as u16),
    }
}

/// Whether words are `moved`, alone; none where they are others.
pub fn moved_of(words: Option<&str>) -> Option<bool>
    ensures said { IfSome result (λ is_moved. text_of words.entry ≡ moved_text is_moved) }
    ensures only { (is_moved : Bool)
        → text_of words.entry ≡ moved_text is_moved → result ≡ Some is_moved }
{
    let Some(text) = words else {
        return Some(false);
    };
    if text == "moved" { Some(true) } else { None }
}
