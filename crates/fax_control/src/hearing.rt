//! The lines that a client's octets make, in whatever pieces they come.
ghost use Rattle.std.specs.Prelude.{◌≡◌, ◌≢◌, ℕ, ◌<◌, List, [], ◌++◌, length, slice_index, option_map, IfSome, IfNone};
ghost use Rattle.fax_control.specs.ClientStreams.{EndsALine, HasNoLineFeed, fitting, octets_of_heard};

use crate::word::MOST_OCTETS;
use arrayvec::ArrayVec;
use std::marker::Model;

/// A line that a client ended.
#[derive(Drop)]
pub enum HeardLine {
    /// Its octets, without the line feed.
    Line(ArrayVec<u8, MOST_OCTETS>),
    /// It has more than 256 octets. They were dropped.
    TooLong,
}

/// What has come of a client's next line.
pub struct ClientLines {
    waiting: Option<ArrayVec<u8, MOST_OCTETS>>,
}

impl Drop for ClientLines {
    fn drop(self) {
        let ClientLines { waiting: _waiting } = self;
    }
}

/// Contracts see the octets after the last line feed, or none where they are more than 256.
impl Model for ClientLines {
    ghost use Rattle.std.specs.Prelude.{ℕ, List, Option, option_map};

    ghost Value = { Option (List ℕ) };

    ghost view = { λ a. option_map (λ octets. octets.items) a.waiting };
}

impl ClientLines {
    /// Nothing has come yet.
    pub fn new() -> Self
        ensures { result ≡ fitting [] }
    {
        ClientLines {
            waiting: Some(ArrayVec::new()),
        }
    }

    /// Takes octets up to the end of the next line, and gives the line and the octets after it.
    /// Where no line ends in them it keeps them all.
    pub fn hear<'a>(&mut self, octets: &'a [u8]) -> (Option<HeardLine>, &'a [u8])
        // No line ends in these octets: all of them are kept.
        ensures no_end { IfNone result.0 (HasNoLineFeed octets.now) }
        ensures no_rest { IfNone result.0 (result.1.now ≡ []) }
        ensures waits { IfNone result.0 ((part : List ℕ)
            → self.old ≡ fitting part → self.new ≡ fitting (part ++ octets.now)) }
        // A line ends: it is what had come of it and what comes before the line feed, or it is too long.
        ensures line { IfSome result.0
            (λ heard. (end : List ℕ) × EndsALine octets.now end result.1.now × ((part : List ℕ)
            → self.old ≡ fitting part → octets_of_heard heard ≡ fitting (part ++ end))) }
        ensures begins { IfSome result.0 (λ _. self.new ≡ fitting []) }
    {
        match line_feed(octets) {
            None => {
                let kept = self.waiting.take();
                self.waiting = grown(kept, octets);
                (None, &octets[octets.len()..])
            }
            Some(end) => {
                let kept = self.waiting.take();
                self.waiting = Some(ArrayVec::new());
                (
                    Some(line_heard(grown(kept, &octets[..end]))),
                    &octets[end + 1..],
                )
            }
        }
    }
}

/// The place of the first line feed.
fn line_feed(octets: &[u8]) -> Option<usize>
    ensures within { IfSome result (λ place. place < length octets.now) }
    ensures found { IfSome result (λ place. slice_index octets.now place ≡ 10) }
    ensures before { IfSome result (λ place. (k : ℕ) → k < place → slice_index octets.now k ≢ 10) }
    ensures none { IfNone result ((k : ℕ) → k < length octets.now → slice_index octets.now k ≢ 10) }
{
    octets.iter().position(|octet| *octet == b'\n')
}

/// What has come of a line once more octets of it come.
fn grown(kept: Option<ArrayVec<u8, MOST_OCTETS>>, more: &[u8]) -> Option<ArrayVec<u8, MOST_OCTETS>>
    ensures { (part : List ℕ) → option_map (λ octets. octets.items) kept ≡ fitting part
        → option_map (λ octets. octets.items) result ≡ fitting (part ++ more.now) }
{
    let mut octets = kept?;
    match octets.try_extend_from_slice(more) {
        Ok(()) => Some(octets),
        Err(_) => None,
    }
}

/// The line that has come.
fn line_heard(line: Option<ArrayVec<u8, MOST_OCTETS>>) -> HeardLine
    ensures { octets_of_heard result ≡ option_map (λ octets. octets.items) line }
{
    match line {
        Some(octets) => HeardLine::Line(octets),
        None => HeardLine::TooLong,
    }
}
