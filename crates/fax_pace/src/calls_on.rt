//! The calls that are on on calling legs of lines.
use crate::seen::SeenLines;
use fax_queue::Queue;
use std::alloc::{AllocError, Global};

/// A call that is on on the calling leg of this line.
#[derive(Clone, Copy)]
pub(crate) struct CallOn {
    pub line: usize,
    pub call: u32,
}

/// The calls that are on.
fn calls_on<L: SeenLines>(alloc: Global, seen: &L) -> Result<Vec<CallOn>, AllocError> {
    let mut on = Vec::new(alloc);
    for line in 0..seen.len() {
        if let Some(call) = seen.call(line) {
            on.push(CallOn { line, call })?;
        }
    }
    Ok(on)
}

/// The same, where they are to be known. `None`: they are not, or memory was refused.
pub(crate) fn calls_if<L: SeenLines>(
    are_wanted: bool,
    alloc: Global,
    seen: &L,
) -> Option<Vec<CallOn>> {
    if are_wanted {
        calls_on(alloc, seen).ok()
    } else {
        None
    }
}

/// Whether a call of this number is on on the line of this name, one of those with these queues, where these calls are on, or may be on,
/// where they are not known. Then more of its pages may come, which a try of those before would not send: the fax would go out in two calls.
pub(crate) fn is_on(on: Option<&Vec<CallOn>>, queues: &[Queue], line: &[u8], call: u32) -> bool {
    match on {
        Some(on) => on
            .iter()
            .any(|it| it.call == call && has_name(queues, it.line, line)),
        None => true,
    }
}

/// Whether the line of queue i has this name.
fn has_name(queues: &[Queue], i: usize, line: &[u8]) -> bool {
    match queues.get(i) {
        Some(queue) => queue.line().as_bytes() == line,
        None => true,
    }
}
