//! The line of a control word.
ghost use Rattle.std.specs.Prelude.{◌≡◌, ◌<◌, length, slice_index, string_bytes, IfErr, IfOk, IsOk, MatchBool};
ghost use Rattle.fax_control.specs.ClientStreams.{HasNoLineFeed};
ghost use Rattle.fax_say.specs.Sayings.{IsSayable, IsUnsayable, waits_after, wants_events};

use fax_control::MOST_OCTETS;
use std::marker::Model;

/// A control word as it is said: one line of at most 256 octets, its line feed aside.
pub struct Saying {
    text: String,
}

impl Drop for Saying {
    fn drop(self) {
        let Saying { text: _text } = self;
    }
}

/// Why a text cannot be said.
#[derive(Clone, Copy, PartialEq, Eq)]
pub enum Unsayable {
    /// A line feed stands in it.
    LineFeed,
    /// It has more than 256 octets.
    TooLong,
}

/// Contracts see the octets of the line.
impl Model for Saying {
    ghost use Rattle.std.specs.Prelude.{ℕ, List, string_bytes};
    ghost use Rattle.fax_say.specs.Sayings.{IsSayable};

    ghost Value = { List ℕ };

    ghost view = { λ s. string_bytes s.text };

    ghost invariant = { λ s. IsSayable (string_bytes s.text) };
}

impl Saying {
    /// The line of this text. Whether it is a word that the server knows is for the server to say.
    pub fn of_text(text: String) -> Result<Self, Unsayable>
        ensures said { IfOk result (λ saying. saying ≡ string_bytes text) }
        ensures sayable { IfOk result (λ saying. IsSayable saying) }
        ensures only { IsSayable (string_bytes text) → IsOk result }
        ensures why { IfErr result (IsUnsayable (string_bytes text)) }
    {
        if text.len() > MOST_OCTETS {
            return Err(Unsayable::TooLong);
        }
        if has_line_feed(text.as_bytes()) {
            return Err(Unsayable::LineFeed);
        }
        Ok(Saying { text })
    }

    /// The octets of the line, its line feed aside.
    pub fn as_bytes(&self) -> &[u8]
        ensures { result.now ≡ self.now }
    {
        self.text.as_bytes()
    }

    /// Whether more is waited for after its answer: `stop`, `events`, `events frames LINE`.
    pub fn stays(&self) -> bool
        ensures { result ≡ waits_after self.now }
    {
        self.text.as_str() == "stop" || self.wants_events()
    }

    /// Whether events come after its answer.
    fn wants_events(&self) -> bool
        ensures { result ≡ wants_events self.now }
    {
        self.text.as_str() == "events" || self.as_bytes().starts_with(b"events frames ".as_slice())
    }
}

/// Whether a line feed stands in a text.
fn has_line_feed(text: &[u8]) -> bool
    ensures { MatchBool result (¬ (HasNoLineFeed text.now)) (HasNoLineFeed text.now) }
{
    text.iter().any(|octet| *octet == b'\n')
}
