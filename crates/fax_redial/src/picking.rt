//! Which job is tried again next.
ghost use Rattle.std.specs.Prelude.{◌≡◌, position};
ghost use Rattle.std.specs.List.{list_any};
ghost use Rattle.fax_redial.specs.Owing.{is_owed, is_owed_on, is_queued};
ghost use Rattle.fax_redial.specs.Picking.{is_left, is_next, may_try, name_of};
ghost use Rattle.fax_undelivered.specs.Calls.{is_named};

use crate::redials::Redials;
use crate::retrying::is_due;
use fax_queue::{Queue, QueuedPage};
use fax_spool::CallName;
use fax_undelivered::UndeliveredCall;
use fax_wires::repeat::TimedWire;

/// The first of these calls whose job is to be tried again by now, a Unix second: its time has come, it is none of those that are left to
/// a word, no try of it is on, and no page of it waits on one of these queues, from which its line would send it too.
pub fn first_due<W: TimedWire + Drop>(
    calls: &[UndeliveredCall],
    left: &[CallName],
    queues: &[Queue],
    redials: &Redials<W>,
    now: u64,
    after_seconds: &[u32],
) -> Option<usize>
    ensures { result ≡ position
        (is_next left.now queues.now redials.now.tries now after_seconds.now) calls.now }
{
    calls.iter().position(|call| is_next(call, left, queues, redials, now, after_seconds))
}

/// Whether the job of a call is to be tried again by now.
fn is_next<W: TimedWire + Drop>(
    call: &UndeliveredCall,
    left: &[CallName],
    queues: &[Queue],
    redials: &Redials<W>,
    now: u64,
    after_seconds: &[u32],
) -> bool
    ensures { result
        ≡ is_next left.now queues.now redials.now.tries now after_seconds.now call.now }
{
    let card = &call.card;
    is_due(card.outcome, card.tries, card.at, now, after_seconds)
        && !is_left(call, left)
        && may_try(call, queues, redials)
}

/// Whether the job of a call waits for a word.
fn is_left(call: &UndeliveredCall, left: &[CallName]) -> bool
    ensures { result ≡ is_left left.now call.now }
{
    left.iter().any(|name| is_named(call, name))
}

/// Whether it is the call of this name.
pub(crate) fn is_named(call: &UndeliveredCall, name: &CallName) -> bool
    ensures { result ≡ is_named name.now call.now }
{
    call.life == name.life && call.call == name.call && call.line.as_slice() == name.line.as_slice()
}

/// Whether a try of a call may begin.
fn may_try<W: TimedWire + Drop>(
    call: &UndeliveredCall,
    queues: &[Queue],
    redials: &Redials<W>,
) -> bool
    ensures { result ≡ may_try queues.now redials.now.tries (name_of call.now) }
{
    let line = call.line.as_slice();
    !redials.is_under_way(line, call.life, call.call)
        && !is_owed(queues, line, call.life, call.call)
}

/// Whether a page of this call waits on one of these queues, that of the line of this name.
pub fn is_owed(queues: &[Queue], line: &[u8], life: u32, call: u32) -> bool
    ensures { result ≡ is_owed queues.now (record { life = life; call = call; line = line.now }) }
{
    queues
        .iter()
        .any(|queue| is_owed_on(queue, line, life, call))
}

/// Whether one waits on this queue, where it is that of the line of this name.
fn is_owed_on(queue: &Queue, line: &[u8], life: u32, call: u32) -> bool
    ensures { result ≡ is_owed_on (record { life = life; call = call; line = line.now }) queue.now }
{
    queue.line().as_bytes() == line && are_queued(queue.waits(), life, call)
}

/// Whether one of these pages that wait came in this call.
fn are_queued(pages: &[QueuedPage], life: u32, call: u32) -> bool
    ensures { result ≡ list_any (is_queued life call) pages.now }
{
    pages.iter().any(|page| is_queued(page, life, call))
}

/// Whether a page that waits came in this call.
fn is_queued(page: &QueuedPage, life: u32, call: u32) -> bool
    ensures { result ≡ is_queued life call page.now }
{
    page.life == life && page.call == call
}
