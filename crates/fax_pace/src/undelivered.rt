//! What is told of pages that could not be delivered.
use fax_bits::NoMemory;
use fax_control::events::{Event, UndeliveredJob, What, write_event};
use fax_undelivered::UndeliveredCall;
use std::alloc::Global;

/// The place of the call of these names.
pub(crate) fn place_of(
    calls: &[UndeliveredCall],
    line: &[u8],
    life: u32,
    call: u32,
) -> Option<usize> {
    calls.iter().position(|it| it.life == life && it.call == call && it.line.as_slice() == line)
}

/// How many pages of these calls could not be delivered.
pub(crate) fn pages_undelivered(calls: &[UndeliveredCall]) -> u64 {
    let mut pages: u64 = 0;
    for call in calls {
        pages = pages.saturating_add(u64::from(pages_left(call)));
    }
    pages
}

/// How many pages of a call were not delivered by tries since.
pub(crate) fn pages_left(call: &UndeliveredCall) -> u32 {
    call.pages.saturating_sub(call.card.delivered)
}

/// What is told of a call of which pages could not be delivered.
pub(crate) fn event_of(call: &UndeliveredCall) -> What<'_> {
    What::Undelivered(
        UndeliveredJob {
            life: call.life,
            call: call.call,
            pages: pages_left(call),
            outcome: call.card.outcome,
            tries: call.card.tries,
            at: call.card.at,
        },
        shown_text(call.tag.as_slice()),
        shown_text(call.card.cause.as_slice()),
    )
}

/// Octets as text. `None`: there are none, or they are no text.
pub(crate) fn shown_text(octets: &[u8]) -> Option<&str> {
    match std::str::from_utf8(octets) {
        Ok(text) if !text.is_empty() => Some(text),
        Ok(_) | Err(_) => None,
    }
}

/// Of these calls of which pages could not be delivered those of the line of this name, or all, as events of this moment, and `ok`.
pub(crate) fn undelivered_text(
    alloc: Global,
    line: Option<&str>,
    calls: &[UndeliveredCall],
    at: u64,
) -> Result<Vec<u8>, NoMemory> {
    let mut text = Vec::new(alloc);
    for call in calls {
        put_call(alloc, line, call, at, &mut text)?;
    }
    text.extend_from_slice(b"ok\n")?;
    Ok(text)
}

/// Adds the line of a call, where it is of the line of this name, or all are told.
fn put_call(
    alloc: Global,
    line: Option<&str>,
    call: &UndeliveredCall,
    at: u64,
    text: &mut Vec<u8>,
) -> Result<(), NoMemory> {
    let Ok(name) = std::str::from_utf8(call.line.as_slice()) else {
        return Ok(());
    };
    if line.is_some_and(|line| line != name) {
        return Ok(());
    }
    let event = Event {
        line: Some(name),
        at,
        what: event_of(call),
    };
    let told = write_event(alloc, &event)?;
    text.extend_from_slice(told.as_slice())?;
    Ok(())
}
