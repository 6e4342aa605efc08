//! What is asked of a line, and what that comes to.
ghost use Rattle.std.specs.Prelude.{◌≡◌};
ghost use Rattle.fax_desk.specs.Words.{called_peer, hang_up_order, is_connected, is_on, job_asked, next_of, orders_if, peer_order, refusal_order, refuse_of, refuses, reply_to, ring_order, rung_reply, takes_peer};

use crate::next::{Ask, ConnectNote, Next, Note, Order, PeerAsk, RefusedWord, Reply, RungOn};
use crate::questions::{Cause, Question};
use crate::view::{AskedView, LegView, LineView};
use fax_control::Refusal;
use fax_gateway::{Leg, PlaceFault, RingFault};
use fax_line::{ConnectRequest, HangingUp, LineAnswer, LineRequest, PeerRequest, RingRequest};
use fax_wires::repeat::Bounds;

/// What it comes to that this is asked of line i, which is so, where this question of it is open.
pub fn next_of(question: Option<Question>, i: usize, line: LineView, ask: Ask) -> Next
    ensures { result ≡ next_of question i line ask }
{
    match ask {
        Ask::Ring(ring) => orders_if(
            line.calling.has_peer,
            Refusal::NoPeer,
            ring_order(i, false, ring.bounds, Note::Ring(ring.tag)),
        ),
        Ask::Peer(peer) => match peer.leg {
            Leg::Calling => orders_if(
                takes_peer(line.call.is_some(), line.calling, peer.is_moved),
                Refusal::InCall,
                peer_order(i, peer),
            ),
            Leg::Called => called_peer(question, i, line, peer),
        },
        Ask::Refuse(cause) => refuse_of(job_asked(question, line), i, Cause::Said(cause)),
        Ask::HangUp(hang_up) => orders_if(
            is_on(hang_up.leg, line),
            Refusal::NoCall,
            hang_up_order(i, hang_up.leg),
        ),
        Ask::Report => Next::Reports(i),
        Ask::Frames => Next::Frames(i),
    }
}

/// An order, where this holds; else a refusal.
fn orders_if(holds: bool, why: Refusal, order: Order) -> Next
    ensures { result ≡ orders_if holds why order }
{
    if holds {
        Next::Orders(order)
    } else {
        refuses(why)
    }
}

/// The word is refused.
pub(crate) fn refuses(why: Refusal) -> Next
    ensures { result ≡ refuses why }
{
    Next::Replies(Reply::Refused(RefusedWord { why }))
}

/// Whether a leg takes a peer: its call is not on, or was not heard, or its peer has moved.
fn takes_peer(is_on: bool, leg: LegView, is_moved: bool) -> bool
    ensures { result ≡ takes_peer is_on leg is_moved }
{
    !(is_on && leg.is_heard && !is_moved)
}

/// The order by which line i rings, for a call that is bounded so; the peer of the call before is forgotten, or not.
pub(crate) fn ring_order(i: usize, forgets_peer: bool, bounds: Bounds, note: Note) -> Order
    ensures { result ≡ ring_order i forgets_peer bounds note }
{
    Order {
        line: i,
        what: LineRequest::Ring(RingRequest {
            bounds,
            forgets_peer,
        }),
        note,
    }
}

/// The order by which the peer's call on a leg of line i is gone.
fn hang_up_order(i: usize, leg: Leg) -> Order
    ensures { result ≡ hang_up_order i leg }
{
    Order {
        line: i,
        what: LineRequest::HangUp(HangingUp { leg }),
        note: Note::Nothing,
    }
}

/// The order by which a leg of line i gets this peer.
fn peer_order(i: usize, ask: PeerAsk) -> Order
    ensures { result ≡ peer_order i ask }
{
    Order {
        line: i,
        what: LineRequest::Peer(PeerRequest {
            leg: ask.leg,
            peer: ask.peer,
        }),
        note: Note::Nothing,
    }
}

/// Whether the call of a leg is on.
fn is_on(leg: Leg, line: LineView) -> bool
    ensures { result ≡ is_on leg line }
{
    match leg {
        Leg::Calling => line.call.is_some(),
        Leg::Called => is_connected(line),
    }
}

/// Whether the call of a job is on: one that could not be placed is not, though its job waits for its report, since its leg has no
/// peer.
fn is_connected(line: LineView) -> bool
    ensures { result ≡ is_connected line }
{
    line.sending.is_some() && line.called.has_peer
}

/// The job whose call the line asks for, where clients were told so.
fn job_asked(question: Option<Question>, line: LineView) -> Option<AskedView>
    ensures { result ≡ job_asked question line }
{
    match question {
        Some(_) => line.asked,
        None => None,
    }
}

/// What it comes to that this peer of the called leg of line i is said.
fn called_peer(question: Option<Question>, i: usize, line: LineView, ask: PeerAsk) -> Next
    ensures { result ≡ called_peer line.called.is_fixed (job_asked question line) i line ask }
{
    if line.called.is_fixed {
        return refuses(Refusal::Fixed);
    }
    if let Some(asked) = job_asked(question, line) {
        let what = LineRequest::Connect(ConnectRequest { peer: ask.peer });
        let first = line.first;
        let note = Note::Connect(ConnectNote {
            call: asked.call,
            first,
        });
        return Next::Orders(Order {
            line: i,
            what,
            note,
        });
    }
    if is_connected(line) {
        let takes = takes_peer(true, line.called, ask.is_moved);
        orders_if(takes, Refusal::InCall, peer_order(i, ask))
    } else {
        refuses(Refusal::NoCall)
    }
}

/// The called machine could not be reached, where its call is asked for.
fn refuse_of(asked: Option<AskedView>, i: usize, cause: Cause) -> Next
    ensures { result ≡ refuse_of asked i cause }
{
    match asked {
        Some(_) => Next::Orders(refusal_order(i, cause)),
        None => refuses(Refusal::NoCall),
    }
}

/// The order by which the call of line i could not be placed, for this cause.
pub(crate) fn refusal_order(i: usize, cause: Cause) -> Order
    ensures { result ≡ refusal_order i cause }
{
    Order {
        line: i,
        what: LineRequest::NotConnected,
        note: Note::Refuse(cause),
    }
}

/// How a word is answered whose order the line of it answered so. `None`: there is no such line.
pub(crate) fn reply_to(order: Order, answered: Option<LineAnswer>) -> Reply
    ensures { result ≡ reply_to order answered }
{
    let why = match answered {
        Some(LineAnswer::Rung(Ok(call))) => return rung_reply(order, call),
        Some(LineAnswer::Placed(Ok(()))) | Some(LineAnswer::Done) => return Reply::Done,
        None => Refusal::NoLine,
        Some(LineAnswer::NoRoute) => Refusal::NoRoute,
        Some(LineAnswer::Rung(Err(RingFault::Busy))) => Refusal::Busy,
        Some(LineAnswer::Rung(Err(RingFault::NoNumber))) => Refusal::NoNumber,
        Some(LineAnswer::Rung(Err(RingFault::NoMemory))) => Refusal::NoMemory,
        Some(LineAnswer::Placed(Err(PlaceFault::NotAsked))) => Refusal::NoCall,
        Some(LineAnswer::Placed(Err(PlaceFault::NoMemory))) => Refusal::NoMemory,
    };
    Reply::Refused(RefusedWord { why })
}

/// The line rang, for this call.
fn rung_reply(order: Order, call: u32) -> Reply
    ensures { result ≡ rung_reply order.note order.line call }
{
    match order.note {
        Note::RingAny(_) => Reply::RungOn(RungOn {
            line: order.line,
            call,
        }),
        _ => Reply::Rung(call),
    }
}
