//! Tags of calls.
ghost use Rattle.std.specs.Prelude.{◌≡◌};
ghost use Rattle.std.specs.Str.{IsUtf8};
ghost use Rattle.fax_desk.specs.Tags.{tag_of_text, tag_text};

use fax_control::MOST_TAG_OCTETS;

/// The tag of a call, or the cause for which one could not be placed: a text of at most 64 octets, by value.
#[derive(Clone, Copy)]
pub struct Tag {
    /// The text, and zeros after it.
    pub octets: [u8; 64],
    /// How many octets the text has.
    pub length: u8,
}

impl Tag {
    /// The tag of this text. `None`: it has more than 64 octets.
    pub fn of(text: &str) -> Option<Tag>
        ensures { result ≡ tag_of_text text.now }
    {
        let bytes = text.as_bytes();
        if bytes.len() > MOST_TAG_OCTETS {
            return None;
        }
        let mut octets = [0u8; 64];
        octets[..bytes.len()].copy_from_slice(bytes);
        Some(Tag {
            octets,
            length: bytes.len() as u8,
        })
    }

    /// Its text.
    pub fn text(&self) -> &str
        ensures { IsUtf8 (tag_text self.now) → result.now ≡ tag_text self.now }
    {
        let length = usize::from(self.length).min(MOST_TAG_OCTETS);
        match std::str::from_utf8(&self.octets[..length]) {
            Ok(text) => text,
            Err(_) => "",
        }
    }
}

/// A call, and its tag.
#[derive(Clone, Copy)]
pub struct TaggedCall {
    pub call: u32,
    pub tag: Option<Tag>,
}
