//! The head of a picture.
ghost use Rattle.std.specs.Prelude.{◌≡◌, false, min, slice_index};
ghost use Rattle.std.specs.Char.{is_ascii_digit};
ghost use Rattle.fax_pbm.specs.Heads.{after_blanks, after_digits, ends_line, is_space, number_after};
ghost use Rattle.fax_pbm.specs.Pictures.{Gives, head_after, head_of, head_shown, number_of, number_shown, raster_of};

use crate::fault::PbmFault;

/// A number, and what stands after it.
#[derive(Drop)]
pub(crate) struct Number<'a> {
    /// At most the greatest of 32 bits.
    value: u32,
    after: &'a [u8],
}

/// The head of a picture, and the raster after it.
#[derive(Drop)]
pub(crate) struct Head<'a> {
    /// How many elements each row has.
    pub width: u32,
    /// How many rows there are.
    pub height: u32,
    pub raster: &'a [u8],
}

/// Reads the head that octets begin with.
pub(crate) fn read_head(octets: &[u8]) -> Result<Head<'_>, PbmFault>
    ensures { Gives head_shown result (head_of octets.now) }
{
    match octets.strip_prefix(b"P4") {
        Some(rest) => read_numbers(rest),
        None => Err(PbmFault::NoHead),
    }
}

/// Reads the head after its first two octets.
#[tactic(auto, unfolding(crate::specs::Pictures::head_after))]
fn read_numbers(text: &[u8]) -> Result<Head<'_>, PbmFault>
    ensures { Gives head_shown result (head_after text.now) }
{
    let width = read_number(text)?;
    let height = read_number(width.after)?;
    let raster = skip_space(height.after)?;
    Ok(Head {
        width: width.value,
        height: height.value,
        raster,
    })
}

/// Reads the number that stands after white space and comments.
fn read_number(text: &[u8]) -> Result<Number<'_>, PbmFault>
    ensures { Gives number_shown result (number_of text.now) }
{
    let digits = skip_blanks(text);
    if begins_with_digit(digits) {
        Ok(read_digits(digits))
    } else {
        Err(PbmFault::NoHead)
    }
}

/// What stands after one white space.
fn skip_space(text: &[u8]) -> Result<&[u8], PbmFault>
    ensures { Gives (λ raster. raster.now) result (raster_of text.now) }
{
    if text.is_empty() {
        return Err(PbmFault::NoHead);
    }
    if is_white(text[0]) {
        Ok(&text[1..])
    } else {
        Err(PbmFault::NoHead)
    }
}

/// Whether the first octet is a digit.
fn begins_with_digit(text: &[u8]) -> bool
    ensures { result ≡ is_ascii_digit (slice_index text.now 0) }
{
    if text.is_empty() {
        return false;
    }
    is_digit(text[0])
}

/// What stands after white space and comments.
#[tactic(auto, unfolding(crate::specs::Heads::after_blanks))]
fn skip_blanks(text: &[u8]) -> &[u8]
    ensures { result.now ≡ after_blanks false text.now }
{
    let mut within = false;
    for i in 0..text.len() {
        let octet = text[i];
        if within {
            within = !ends_line_at(octet);
        } else if is_white(octet) || octet == b'#' {
            within = octet == b'#';
        } else {
            return &text[i..];
        }
    }
    &text[text.len()..]
}

/// The number that the digits at the front spell, at most the greatest of 32 bits, and what stands after them.
#[tactic(auto, unfolding(crate::specs::Heads::number_after, crate::specs::Heads::after_digits))]
fn read_digits(text: &[u8]) -> Number<'_>
    ensures value { result.value ≡ min (number_after 0 text.now) u32.MAX }
    ensures after { result.after.now ≡ after_digits text.now }
{
    let mut value: u32 = 0;
    for i in 0..text.len() {
        let octet = text[i];
        if !is_digit(octet) {
            return Number {
                value,
                after: &text[i..],
            };
        }
        value = value
            .saturating_mul(10)
            .saturating_add(u32::from(octet - b'0'));
    }
    Number {
        value,
        after: &text[text.len()..],
    }
}

/// Whether it is white space: a blank, a tabulator, a line feed or a carriage return.
fn is_white(octet: u8) -> bool
    ensures { result ≡ is_space octet }
{
    matches!(octet, b' ' | b'\t' | b'\n' | b'\r')
}

/// Whether it ends a line, and so a comment.
fn ends_line_at(octet: u8) -> bool
    ensures { result ≡ ends_line octet }
{
    matches!(octet, b'\n' | b'\r')
}

/// Whether it is a digit.
fn is_digit(octet: u8) -> bool
    ensures { result ≡ is_ascii_digit octet }
{
    octet.is_ascii_digit()
}
