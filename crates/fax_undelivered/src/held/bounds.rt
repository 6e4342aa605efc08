//! At most 64 calls wait in memory.
ghost use Rattle.std.specs.Prelude.{◌≡◌, ℕ, List, None, Some, IfOk, IfNone, IfSome, OnErr, slice_get, not, position};
ghost use Rattle.std.specs.List.{list_any};
ghost use Rattle.fax_spool.specs.RecordOctets.{PageValue};
ghost use Rattle.fax_spool.specs.Waits.{without};
ghost use Rattle.fax_undelivered.specs.Calls.{CallValue, end_of, is_named};
ghost use Rattle.fax_undelivered.specs.Keeps.{Keeps, KeepsStill};
ghost use Rattle.fax_undelivered.specs.held.Bounds.{dropped_next, is_under_way, name_of};

use crate::{Undelivered, UndeliveredCall};
use fax_spool::CallName;
use sqlite_disk::Disk;
use std::alloc::{AllocError, Global};
use std::io;

/// At most so many calls wait in memory, but for those of which a try is under way.
pub const MOST_CALLS: usize = 64;

/// A call that was dropped.
pub struct DroppedCall {
    pub name: CallName,
    /// Its tag: no octets where it had none.
    pub tag: Vec<u8>,
}

impl Drop for DroppedCall {
    fn drop(self) {
        let DroppedCall {
            name: _name,
            tag: _tag,
        } = self;
    }
}

/// Where more than 64 calls wait, the oldest of which no try is under way waits no more, and is told. `None`: no more than 64 wait, or a try
/// of each is under way; and nothing has changed. An `Err`: memory was refused, and the calls are as they were.
pub fn drop_beyond<U: Disk>(
    alloc: Global,
    kept: &mut Undelivered<U>,
    under_way: &[CallName],
) -> io::Result<Option<DroppedCall>>
    ensures none { IfOk result
        (λ dropped. IfNone dropped ((dropped_next under_way.now kept.old.calls.items ≡ None)
        × (kept.new ≡ kept.old))) }
    ensures dropped { IfOk result (λ dropped. IfSome dropped (λ it. (k : ℕ)
        × (call : CallValue) × (dropped_next under_way.now kept.old.calls.items ≡ Some k)
        × (slice_get kept.old.calls.items k ≡ Some call)
        × (it.name ≡ name_of call) × (it.tag.items ≡ call.tag) × ((waits : List PageValue)
        → Keeps U.seen U.may_leave U.is_usable kept.old waits → KeepsStill
        U.seen U.may_leave U.is_usable kept.new (without (end_of (name_of call)) waits)))) }
    ensures same { OnErr result (kept.new.calls.items ≡ kept.old.calls.items) }
{
    let Some(k) = dropped_next(kept.calls(), under_way) else {
        return Ok(None);
    };
    let Some(call) = kept.calls().get(k) else {
        return Err(io::ErrorKind::NotFound.into());
    };
    let dropped = dropped_call(alloc, call)?;
    let name = &dropped.name;
    if !kept.discard(alloc, name.line.as_slice(), name.life, name.call)? {
        return Err(io::ErrorKind::NotFound.into());
    }
    Ok(Some(dropped))
}

/// The place of the call that is dropped next, of these.
fn dropped_next(calls: &[UndeliveredCall], under_way: &[CallName]) -> Option<usize>
    ensures { result ≡ dropped_next under_way.now calls.now }
{
    if calls.len() <= MOST_CALLS {
        return None;
    }
    first_idle(calls, under_way)
}

/// The place of the first of these of which no try is under way.
fn first_idle(calls: &[UndeliveredCall], under_way: &[CallName]) -> Option<usize>
    ensures { result ≡ position (λ call. not (is_under_way under_way.now call)) calls.now }
{
    calls.iter().position(|call| !is_under_way(under_way, call))
}

/// Whether a try of a call is under way.
fn is_under_way(under_way: &[CallName], call: &UndeliveredCall) -> bool
    ensures { result ≡ is_under_way under_way.now call.now }
{
    under_way.iter().any(|name| is_named(name, call))
}

/// Whether this is the name of a call.
fn is_named(name: &CallName, call: &UndeliveredCall) -> bool
    ensures { result ≡ is_named name.now call.now }
{
    call.life == name.life && call.call == name.call && call.line.as_slice() == name.line.as_slice()
}

/// What is told of a call that is dropped.
fn dropped_call(alloc: Global, call: &UndeliveredCall) -> Result<DroppedCall, AllocError>
    ensures name { IfOk result (λ it. it.name ≡ name_of call.now) }
    ensures tag { IfOk result (λ it. it.tag.items ≡ call.now.tag) }
{
    Ok(DroppedCall {
        name: CallName {
            life: call.life,
            call: call.call,
            line: call.line.as_slice().to_vec(alloc)?,
        },
        tag: call.tag.as_slice().to_vec(alloc)?,
    })
}
