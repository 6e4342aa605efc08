//! Events of a script, each told by a line.
ghost use Rattle.std.specs.Prelude.{ℕ, ◌≡◌, ◌≢◌, ◌∷◌, List, IfOk, IfSome, IfNone, OnErr};
ghost use Rattle.fax_trace.specs.declared.event.ScriptEvent.TheVariants as script;
ghost use Rattle.fax_trace.specs.Scripts.{TellsEvent, TellsMoment};

use crate::hex_text::octets_of_hex;
use fax_bits::{NoMemory, Octets};
use std::alloc::Global;

/// What comes to a gateway.
#[derive(Drop)]
pub enum ScriptEvent {
    /// `R`: it rings.
    Ring,
    /// `A` and hex text: the octets of a datagram that came on the calling leg.
    FromCalling(Octets),
    /// `B` and hex text: the octets of a datagram that came on the called leg.
    FromCalled(Octets),
    /// `T` and a number: time goes on to this moment, in milliseconds.
    Tick(u64),
    /// `C` and a number: at this moment, in milliseconds, the call of the job that is asked for is placed: the called machine
    /// has answered.
    Connected(u64),
    /// `N` and a number: at this moment that machine could not be reached.
    NotConnected(u64),
}

/// The event that a line tells. Memory is taken for the octets of a datagram alone.
pub fn event_of_line(alloc: Global, line: &[u8]) -> Result<Option<ScriptEvent>, NoMemory>
    ensures some { IfOk result (λ found. IfSome found (λ event. TellsEvent line.now event)) }
    ensures none { IfOk result
        (λ found. IfNone found ((event : ScriptEvent) → TellsEvent line.now event → ⊥)) }
    ensures memory { OnErr result ((moment : ℕ) → TellsEvent line.now (script.Tick moment) → ⊥) }
{
    if line == b"R".as_slice() {
        return Ok(Some(ScriptEvent::Ring));
    }
    if let Some(text) = after(line, b'A') {
        return Ok(octets_of_hex(alloc, text)?.map(ScriptEvent::FromCalling));
    }
    if let Some(text) = after(line, b'B') {
        return Ok(octets_of_hex(alloc, text)?.map(ScriptEvent::FromCalled));
    }
    if let Some(digits) = after(line, b'T') {
        return Ok(moment_of(digits).map(ScriptEvent::Tick));
    }
    if let Some(digits) = after(line, b'C') {
        return Ok(moment_of(digits).map(ScriptEvent::Connected));
    }
    match after(line, b'N') {
        Some(digits) => Ok(moment_of(digits).map(ScriptEvent::NotConnected)),
        None => Ok(None),
    }
}

/// What stands after a letter and a space, with which a line begins.
fn after(line: &[u8], letter: u8) -> Option<&[u8]>
    ensures some { IfSome result (λ text. line.now ≡ letter ∷ 32 ∷ text.now) }
    ensures none { IfNone result ((text : List ℕ) → line.now ≢ letter ∷ 32 ∷ text) }
{
    match line {
        [first, b' ', text @ ..] if *first == letter => Some(text),
        _ => None,
    }
}

/// The moment that one or more decimal digits tell.
fn moment_of(digits: &[u8]) -> Option<u64>
    ensures some { IfSome result (λ moment. TellsMoment digits.now moment) }
    ensures none { IfNone result ((moment : ℕ) → TellsMoment digits.now moment → ⊥) }
{
    let Ok(text) = std::str::from_utf8(digits) else {
        return None;
    };
    if text.starts_with('+') {
        return None;
    }
    text.parse::<u64>().ok()
}
