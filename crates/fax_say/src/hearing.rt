//! How far an answer has come.
ghost use Rattle.std.specs.Prelude.{◌≡◌, ◌<◌, ℕ, List, [], ◌++◌, None, Some, length, IfNone, IfSome, if◌then◌else◌};
ghost use Rattle.fax_say.specs.Answers.{IsAnswer};
ghost use Rattle.fax_say.specs.Hearings.{EachBegun, GoesOnWith, HasHeard, HearsMore, IsEnded, ending_after, over, waits};

use crate::ending::Ending;
use crate::last::{Last, last_of};
use fax_control::ClientLines;
use std::marker::Model;

/// How far the answer to a word has come. It keeps at most 256 octets.
pub(crate) struct Hearing {
    /// Whether more is waited for after the answer, where the word was done.
    stays: bool,
    lines: ClientLines,
    last: Option<Last>,
}

impl Drop for Hearing {
    fn drop(self) {
        let Hearing {
            stays: _stays,
            lines: _lines,
            last: _last,
        } = self;
    }
}

/// Contracts see what has come of a line, and what the last one said.
impl Model for Hearing {
    ghost use Rattle.fax_say.specs.Hearings.{HearingValue};

    ghost Value = { HearingValue };

    ghost view = { λ h. record { stays = h.stays; part = h.lines; last = h.last } };
}

impl Hearing {
    /// Nothing has come. `stays`: more is waited for after the answer, where the word was done.
    pub(crate) fn new(stays: bool) -> Self
        ensures nothing { HasHeard result [] }
        ensures begins { (result.stays ≡ stays) × (result.last ≡ None) }
    {
        Hearing {
            stays,
            lines: ClientLines::new(),
            last: None,
        }
    }

    /// Takes octets that came, and gives the front of them that belongs to the answer, or is waited for after it.
    pub(crate) fn take<'a>(&mut self, octets: &'a [u8]) -> &'a [u8]
        ensures heard { HearsMore result.now self.old self.new }
        ensures front { (dropped : List ℕ) × (octets.now ≡ result.now ++ dropped) }
        ensures whole { over self.new.stays self.new.last ≡ None → result.now ≡ octets.now }
        ensures stays { self.new.stays ≡ self.old.stays }
    {
        match self.last {
            None => self.hear(octets),
            Some(last) => told(self.stays, last, octets, b""),
        }
    }

    /// The same while the answer goes on.
    fn hear<'a>(&mut self, octets: &'a [u8]) -> &'a [u8]
        requires { self.old.last ≡ None }
        ensures heard { HearsMore result.now self.old self.new }
        ensures front { (dropped : List ℕ) × (octets.now ≡ result.now ++ dropped) }
        ensures whole { over self.new.stays self.new.last ≡ None → result.now ≡ octets.now }
        ensures stays { self.new.stays ≡ self.old.stays }
    {
        let Some((last, after)) = last_line(&mut self.lines, octets) else {
            return octets;
        };
        self.last = Some(last);
        let front = &octets[..octets.len() - after.len()];
        told(self.stays, last, octets, front)
    }

    /// What the last line said, once nothing more is waited for.
    pub(crate) fn over(&self) -> Option<Last>
        ensures { result ≡ over self.now.stays self.now.last }
    {
        match self.last {
            Some(last) if !waits(self.stays, last) => Some(last),
            _ => None,
        }
    }

    /// How the word ended, where nothing more comes.
    pub(crate) fn ending(&self) -> Ending
        ensures { result ≡ ending_after self.now.last }
    {
        match self.last {
            Some(last) => Ending::Answered(last),
            None => Ending::Unanswered,
        }
    }
}

/// Whether more is waited for after an answer that says this.
fn waits(stays: bool, last: Last) -> bool
    ensures { result ≡ waits stays last }
{
    match last {
        Last::Done => stays,
        Last::Refused => false,
    }
}

/// All octets where more is waited for after the answer, else their front.
fn told<'a>(stays: bool, last: Last, octets: &'a [u8], front: &'a [u8]) -> &'a [u8]
    ensures { result.now ≡ if waits stays last then octets.now else front.now }
{
    if waits(stays, last) { octets } else { front }
}

/// The first line that ends in these octets and is the last of its answer: what it says, and the octets after it.
fn last_line<'a>(lines: &mut ClientLines, octets: &'a [u8]) -> Option<(Last, &'a [u8])>
    ensures none { IfNone result (GoesOnWith octets.now lines.old lines.new) }
    ensures some { IfSome result (λ found. (front : List ℕ) × (octets.now ≡ front ++ found.1.now)
        × EachBegun lines.old (λ before. IsAnswer (before ++ front) found.0)) }
{
    let mut rest = octets;
    while let Some((last, after)) = next_line(lines, rest) {
        if let Some(last) = last {
            return Some((last, after));
        }
        rest = after;
    }
    None
}

/// The first line that ends in these octets: what it says, if it is the last of its answer, and the octets after it.
fn next_line<'a>(lines: &mut ClientLines, octets: &'a [u8]) -> Option<(Option<Last>, &'a [u8])>
    ensures none { IfNone result (GoesOnWith octets.now lines.old lines.new) }
    ensures line { IfSome result (λ found. (front : List ℕ) × (octets.now ≡ front ++ found.1.now)
        × EachBegun lines.old (λ before. IsEnded found.0 lines.new (before ++ front))) }
    ensures shorter { IfSome result (λ found. length found.1.now < length octets.now) }
{
    let (heard, after) = lines.hear(octets);
    let heard = heard?;
    Some((last_of(&heard), after))
}
