//! The values of a name, one after another.
ghost use Rattle.std.specs.Prelude.{◌≡◌, [], ◌∷◌, map, option_map, IfNone, IfSome};
ghost use Rattle.fax_sip.specs.Fields.{first_of, values_of};
ghost use Rattle.fax_sip.specs.Lists.{elements_left, elements_of, values_left};
ghost use Rattle.fax_sip.specs.Messages.{message_text};
ghost use Rattle.fax_sip.specs.Texts.{trimmed as trimmed_of};

use crate::field::next_value;
use crate::message::Message;
use crate::name::Name;
use crate::parts::first_part;
use crate::text::trimmed;

/// The values of the header lines of one name that are left: an iterator.
#[derive(Clone, Copy)]
pub struct Values<'a> {
    lines: &'a [u8],
    name: Name,
}

impl<'a> Iterator for Values<'a> {
    type Item = &'a [u8];

    ghost use Rattle.std.specs.Iterator.{YieldsFirstRef, item_count};
    ghost use Rattle.fax_sip.specs.Lists.{values_left};

    ghost next_gives = { YieldsFirstRef values_left };

    ghost remaining = { item_count values_left };

    fn next(&mut self) -> Option<&'a [u8]> {
        match next_value(self.lines, self.name) {
            Some((value, rest)) => {
                self.lines = rest;
                Some(value)
            }
            None => None,
        }
    }
}

/// The values of one name that are left, commas between those that stand in one line: an iterator.
#[derive(Clone, Copy)]
pub struct Elements<'a> {
    line: Option<&'a [u8]>,
    lines: &'a [u8],
    name: Name,
}

impl<'a> Iterator for Elements<'a> {
    type Item = &'a [u8];

    ghost use Rattle.std.specs.Iterator.{YieldsFirstRef, item_count};
    ghost use Rattle.fax_sip.specs.Lists.{elements_left};

    ghost next_gives = { YieldsFirstRef elements_left };

    ghost remaining = { item_count elements_left };

    fn next(&mut self) -> Option<&'a [u8]> {
        match next_element(*self) {
            Some((element, left)) => {
                *self = left;
                Some(element)
            }
            None => None,
        }
    }
}

impl<'a> Message<'a> {
    /// The value of the first header line of a name, white space at its ends aside. A line that goes on in the next has its end in it.
    pub fn value(&self, name: Name) -> Option<&'a [u8]>
        ensures { option_map
            (λ value. value.now) result ≡ first_of (values_of name (message_text self.now).lines) }
    {
        match next_value(self.lines, name) {
            Some((value, _)) => Some(value),
            None => None,
        }
    }

    /// The value of each header line of a name, in their order.
    pub fn values(&self, name: Name) -> Values<'a>
        ensures { values_left result ≡ values_of name (message_text self.now).lines }
    {
        Values {
            lines: self.lines,
            name,
        }
    }

    /// The values of a name, in their order: several may stand in one line, with commas between (RFC 3261, 7.3.1).
    pub fn elements(&self, name: Name) -> Elements<'a>
        ensures { elements_left result ≡ elements_of name (message_text self.now).lines }
    {
        Elements {
            line: None,
            lines: self.lines,
            name,
        }
    }
}

/// What is left, with the next line on where nothing is left of the one that was.
fn with_line<'a>(left: Elements<'a>) -> Elements<'a>
    ensures same { elements_left result ≡ elements_left left.entry }
    ensures none { IfNone result.line (elements_left result ≡ []) }
{
    if left.line.is_some() {
        return left;
    }
    match next_value(left.lines, left.name) {
        Some((value, lines)) => Elements {
            line: Some(value),
            lines,
            name: left.name,
        },
        None => left,
    }
}

/// The next value, and what is left after it.
fn next_element<'a>(left: Elements<'a>) -> Option<(&'a [u8], Elements<'a>)>
    ensures none { IfNone result (elements_left left.entry ≡ []) }
    ensures some { IfSome result
        (λ found. elements_left left.entry ≡ found.0.now ∷ elements_left found.1) }
{
    let Elements { line, lines, name } = with_line(left);
    match line {
        Some(text) => {
            let (part, line) = first_part(text, b',');
            Some((trimmed(part), Elements { line, lines, name }))
        }
        None => None,
    }
}
