//! Which calls SIP places, and the calls of lines.
ghost use Rattle.std.specs.Prelude.{◌≡◌, ◌==◌, position};
ghost use Rattle.fax_desk.specs.Tags.{tag_text};
ghost use Rattle.fax_sip_service.specs.Numbers.{before_stroke, has_route, number_for, number_in};
ghost use Rattle.fax_sip_service.specs.Services.{line_call};

use fax_desk::Tag;
use fax_switch::LineCall;
use fax_trunks::{Number, Route, choose};

/// The most octets of a tag.
const MOST_TAG: usize = 64;

/// A call of a line; none where the line has no such number.
pub(crate) fn line_call(line: usize, call: u32) -> Option<LineCall>
    ensures { result ≡ line_call line call }
{
    match u32::try_from(line) {
        Ok(line) => Some(LineCall { line, call }),
        Err(_) => None,
    }
}

/// The number that SIP calls for a tag: what stands before its first stroke, where that is a number and a route takes it.
pub(crate) fn number_for(routes: &[Route], tag: &Option<Tag>) -> Option<Number>
    ensures { result ≡ number_for routes.now tag.now }
{
    let Some(tag) = tag else {
        return None;
    };
    let number = number_in(tag)?;
    if has_route(routes, &number) {
        Some(number)
    } else {
        None
    }
}

/// The number of a tag.
fn number_in(tag: &Tag) -> Option<Number>
    ensures { result ≡ number_in tag.now }
{
    Number::read(before_stroke(text_of(tag))).ok()
}

/// The octets of a tag's text.
fn text_of(tag: &Tag) -> &[u8]
    ensures { result.now ≡ tag_text tag.now }
{
    &tag.octets[..usize::from(tag.length).min(MOST_TAG)]
}

/// What stands before the first stroke of a text, or all of it.
fn before_stroke(text: &[u8]) -> &[u8]
    ensures { result.now ≡ before_stroke text.now }
{
    match stroke_in(text) {
        Some(end) => &text[..end],
        None => text,
    }
}

/// The place of the first stroke.
fn stroke_in(text: &[u8]) -> Option<usize>
    ensures { result ≡ position (λ octet. octet == 47) text.now }
{
    text.iter().position(|octet| *octet == b'/')
}

/// Whether a route takes a number.
fn has_route(routes: &[Route], number: &Number) -> bool
    ensures { result ≡ has_route routes.now number.now }
{
    choose(routes, number).is_some()
}
