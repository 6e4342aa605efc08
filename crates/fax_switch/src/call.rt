//! A call of the switch: its stage, and what is to be done for it.
ghost use Rattle.std.specs.Prelude.{◌≡◌, None, if◌then◌else◌};
ghost use Rattle.fax_switch.specs.Calls.{call_row, came as begun_by_invite, cancelled, dialled as begun_by_dial, entry_of, freed, new_call, not_rung as refused_line, passed, placed, connected as opened, is_of_media as concerns_media, other_offer as second_offer, released, rung, taken, with_word, within as happened_within};
ghost use Rattle.fax_switch.specs.Places.{holds as holds_place, holds_leg};

use crate::action::{LineAction, SipAction};
use crate::event::{CallEvent, Choice, Event};
use crate::media::{AudioEnd, Description, Media, Offer};
use crate::place::{LineCall, Place};
use crate::talk::{accept, ending, plain, talk};
use crate::word::{audio, peer, refuse, silence};
use fax_dialogs::{Next, Session, SessionEvent};
use fax_transactions::TIMEOUT_MS;

/// How long their re-INVITE is waited for after our call was answered with audio, in milliseconds.
pub const REINVITE_WAIT_MS: u64 = 4_000;

/// How far a call is.
#[derive(Clone, Copy)]
pub enum Stage {
    /// Their INVITE, which describes this, waits for a line until this moment.
    Asking(Description, u64),
    /// Their INVITE was cancelled while it waited for a line, which may come until this moment.
    Dropped(u64),
    /// Our INVITE with this offer is under way; whether it is the second one, after other media were refused.
    Placing(Offer, bool),
    /// Our INVITE was cancelled. Its answer is waited for until this moment.
    Cancelling(u64),
    /// There is a dialog, with its session, and with what was agreed on.
    Talking(Session, Media),
    /// It is over.
    Over,
}

/// A call: one dialog, from its INVITE to its end.
#[derive(Clone, Copy)]
pub struct Call {
    /// Its number: no other call has it.
    pub id: u64,
    /// The place of the route of the number that is called, in the list of routes.
    pub route: usize,
    /// The call of a line whose leg it holds, where it holds one.
    pub place: Option<Place>,
    /// How far it is.
    pub stage: Stage,
}

/// A call after what happened last, and what is to be done for it now.
#[derive(Clone, Copy)]
pub struct Entry {
    /// The call.
    pub call: Call,
    /// What is to be sent.
    pub sip: SipAction,
    /// What its line is told.
    pub line: LineAction,
}

/// A call with this place and this stage, and what is to be done.
pub(crate) fn entry_with(
    call: Call,
    place: Option<Place>,
    stage: Stage,
    sip: SipAction,
    line: LineAction,
) -> Entry
    ensures { result ≡ entry_of call place stage sip line }
{
    Entry {
        call: Call {
            id: call.id,
            route: call.route,
            place,
            stage,
        },
        sip,
        line,
    }
}

impl Call {
    /// Something happens at a moment: the call after it, and what is to be done.
    pub(crate) fn after(self, now: u64, event: Event) -> Entry
        ensures { result ≡ call_row self now event }
    {
        match event {
            Event::Elapsed | Event::Came(_, _) => pass(self, now),
            Event::Rung(id, on) => {
                let place = on.on_calling_leg();
                if id == self.id {
                    ring(self, now, place)
                } else if self.holds_leg_of(place) {
                    release(self, now)
                } else {
                    pass(self, now)
                }
            }
            Event::NotRung(id, status) => {
                if id == self.id {
                    refuse_ring(self, now, status)
                } else {
                    pass(self, now)
                }
            }
            Event::Dialled(on, _) => release_if(self, now, self.holds_leg_of(on.on_called_leg())),
            Event::CallOver(on) => release_if(self, now, self.holds(on.on_calling_leg())),
            Event::JobOver(on) => release_if(self, now, self.holds(on.on_called_leg())),
            Event::Within(id, event) => {
                if id == self.id {
                    go_on(self, now, event)
                } else {
                    pass(self, now)
                }
            }
        }
    }

    /// Whether it holds the leg of a place.
    fn holds_leg_of(self, other: Place) -> bool
        ensures { result ≡ holds_leg self.place other }
    {
        match self.place {
            Some(place) => place.is_on_leg_of(other),
            None => false,
        }
    }

    /// Whether it holds a place.
    fn holds(self, other: Place) -> bool
        ensures { result ≡ holds_place self.place other }
    {
        match self.place {
            Some(place) => place.is_same(other),
            None => false,
        }
    }
}

/// It is let go of by its line, or time passes.
fn release_if(call: Call, now: u64, is_let_go: bool) -> Entry
    ensures { result
        ≡ (if is_let_go then released call now call.stage else passed call now call.stage) }
{
    if is_let_go {
        release(call, now)
    } else {
        pass(call, now)
    }
}

/// It is over.
fn finish(call: Call, sip: SipAction, line: LineAction) -> Entry
    ensures { result ≡ entry_of call None Stage.Over sip line }
{
    entry_with(call, None, Stage::Over, sip, line)
}

/// It stays as it is.
fn stay(call: Call) -> Entry
    ensures { result ≡ entry_of call call.place call.stage SipAction.Silence LineAction.NoWord }
{
    entry_with(
        call,
        call.place,
        call.stage,
        SipAction::Silence,
        LineAction::NoWord,
    )
}

/// Time passes.
fn pass(call: Call, now: u64) -> Entry
    ensures { result ≡ passed call now call.stage }
{
    match call.stage {
        Stage::Asking(_, until) => {
            if now >= until {
                finish(call, SipAction::Reject(480), LineAction::NoWord)
            } else {
                stay(call)
            }
        }
        Stage::Dropped(until) => {
            if now >= until {
                finish(call, SipAction::Silence, LineAction::NoWord)
            } else {
                stay(call)
            }
        }
        Stage::Placing(_, _) => stay(call),
        Stage::Cancelling(until) => {
            if now >= until {
                finish(call, SipAction::Silence, LineAction::NoWord)
            } else {
                stay_cancelled(call, until)
            }
        }
        Stage::Talking(session, media) => plain(
            call,
            session,
            media,
            now,
            SessionEvent::TimePassed,
        ),
        Stage::Over => finish(call, SipAction::Silence, LineAction::NoWord),
    }
}

/// The answer to its INVITE is waited for still.
fn stay_cancelled(call: Call, until: u64) -> Entry
    ensures { result
        ≡ entry_of call None (Stage.Cancelling until) SipAction.Silence LineAction.NoWord }
{
    entry_with(
        call,
        None,
        Stage::Cancelling(until),
        SipAction::Silence,
        LineAction::NoWord,
    )
}

/// Something happens in it.
fn go_on(call: Call, now: u64, event: CallEvent) -> Entry
    ensures { result ≡ happened_within call now call.stage event }
{
    match call.stage {
        Stage::Asking(_, until) => match event {
            CallEvent::CancelReceived => entry_with(
                call,
                call.place,
                Stage::Dropped(until),
                SipAction::Reject(487),
                LineAction::NoWord,
            ),
            _ => pass(call, now),
        },
        Stage::Placing(offer, again) => after_offer(call, offer, again, now, event),
        Stage::Cancelling(until) => {
            if now >= until {
                finish(call, SipAction::Silence, LineAction::NoWord)
            } else {
                after_cancel(call, until, now, event)
            }
        }
        Stage::Talking(session, media) => talk(call, session, media, now, event),
        Stage::Dropped(_) | Stage::Over => pass(call, now),
    }
}

/// The call of its line is over.
fn release(call: Call, now: u64) -> Entry
    ensures { result ≡ released call now call.stage }
{
    match call.stage {
        Stage::Asking(_, _) => finish(call, SipAction::Reject(480), LineAction::NoWord),
        Stage::Dropped(_) => finish(call, SipAction::Silence, LineAction::NoWord),
        Stage::Placing(_, _) => entry_with(
            call,
            None,
            Stage::Cancelling(now.saturating_add(TIMEOUT_MS)),
            SipAction::Cancel,
            LineAction::NoWord,
        ),
        Stage::Talking(session, media) => {
            let entry = plain(free(call), session, media, now, SessionEvent::HangUp);
            Entry {
                call: entry.call,
                sip: entry.sip,
                line: silence(call.place, media),
            }
        }
        Stage::Cancelling(_) | Stage::Over => pass(free(call), now),
    }
}

/// The same without a leg.
fn free(call: Call) -> Call
    ensures { result ≡ freed call }
{
    Call {
        id: call.id,
        route: call.route,
        place: None,
        stage: call.stage,
    }
}

/// A line was rung for it.
fn ring(call: Call, now: u64, place: Place) -> Entry
    ensures { result ≡ rung call now place call.stage }
{
    match call.stage {
        Stage::Asking(said, _) => take(call, now, place, said),
        Stage::Dropped(_) => finish(call, SipAction::Silence, LineAction::HangUpLeg(place)),
        Stage::Placing(_, _) | Stage::Cancelling(_) | Stage::Talking(_, _) | Stage::Over => {
            release_if(call, now, call.holds_leg_of(place))
        }
    }
}

/// It takes the call of a line, and its INVITE is answered.
fn take(call: Call, now: u64, place: Place, said: Description) -> Entry
    ensures { result ≡ taken call now place said }
{
    match said {
        Description::FaxAt(end) => entry_with(
            call,
            Some(place),
            Stage::Talking(accept(now, Next::Stay), Media::FaxAgreed),
            SipAction::Accept(Offer::Fax),
            LineAction::Peer(place, end, false),
        ),
        Description::AudioAt(end) => entry_with(
            call,
            Some(place),
            Stage::Talking(accept(now, Next::Again(now)), Media::AudioOnly),
            SipAction::Accept(Offer::Audio),
            LineAction::AudioOn(place, end),
        ),
        Description::NothingSaid => entry_with(
            call,
            Some(place),
            Stage::Talking(accept(now, Next::Stay), Media::FaxOffered),
            SipAction::Accept(Offer::Fax),
            LineAction::NoWord,
        ),
        Description::Unusable => {
            finish(call, SipAction::Reject(488), LineAction::HangUpLeg(place))
        }
    }
}

/// No line was rung for it.
fn refuse_ring(call: Call, now: u64, status: u16) -> Entry
    ensures { result ≡ refused_line call now status call.stage }
{
    match call.stage {
        Stage::Asking(_, _) => finish(call, SipAction::Reject(status), LineAction::NoWord),
        Stage::Dropped(_) => finish(call, SipAction::Silence, LineAction::NoWord),
        Stage::Placing(_, _) | Stage::Cancelling(_) | Stage::Talking(_, _) | Stage::Over => {
            pass(call, now)
        }
    }
}

/// Something happens while our INVITE is under way.
fn after_offer(call: Call, offer: Offer, again: bool, now: u64, event: CallEvent) -> Entry
    ensures { result ≡ placed call offer again now event }
{
    let waits = entry_with(
        call,
        call.place,
        Stage::Placing(offer, again),
        SipAction::Silence,
        LineAction::NoWord,
    );
    match event {
        CallEvent::InviteAnswered(status, _, said) => {
            if status < 200 {
                waits
            } else if status < 300 {
                connect(call, offer, now, said)
            } else if is_of_media(status) && !again {
                let offer = other_offer(offer);
                entry_with(
                    call,
                    call.place,
                    Stage::Placing(offer, true),
                    SipAction::SendOffer(call.route, offer),
                    LineAction::NoWord,
                )
            } else {
                finish(call, SipAction::Silence, refuse(call.place, status))
            }
        }
        _ => waits,
    }
}

/// Other media than these.
fn other_offer(offer: Offer) -> Offer
    ensures { result ≡ second_offer offer }
{
    match offer {
        Offer::Fax => Offer::Audio,
        Offer::Audio => Offer::Fax,
    }
}

/// Whether an answer refuses media alone.
fn is_of_media(status: u16) -> bool
    ensures { result ≡ concerns_media status }
{
    status == 488 || status == 415 || status == 606
}

/// Our INVITE was answered with a 2xx.
fn connect(call: Call, offer: Offer, now: u64, said: Description) -> Entry
    ensures { result ≡ opened call offer now said }
{
    match said {
        Description::FaxAt(end) => entry_with(
            call,
            call.place,
            Stage::Talking(Session::Confirmed { reinvite: None }, Media::FaxAgreed),
            SipAction::Ack,
            peer(call.place, Media::AudioOnly, end),
        ),
        Description::AudioAt(end) => match offer {
            Offer::Audio => connect_audio(call, now, end),
            Offer::Fax => drop_answer(call, now),
        },
        Description::NothingSaid | Description::Unusable => drop_answer(call, now),
    }
}

/// Our INVITE was answered with audio: their re-INVITE is waited for, and then ours goes out.
fn connect_audio(call: Call, now: u64, end: AudioEnd) -> Entry
    ensures { result ≡ opened call Offer.Audio now (Description.AudioAt end) }
{
    let reinvite = Some(now.saturating_add(REINVITE_WAIT_MS));
    entry_with(
        call,
        call.place,
        Stage::Talking(Session::Confirmed { reinvite }, Media::AudioOnly),
        SipAction::Ack,
        audio(call.place, end),
    )
}

/// Our INVITE was answered with a 2xx of which we have no use.
fn drop_answer(call: Call, now: u64) -> Entry
    ensures { result ≡ opened call Offer.Fax now Description.Unusable }
{
    entry_with(
        call,
        None,
        Stage::Talking(ending(now), Media::AudioOnly),
        SipAction::AckAndBye,
        refuse(call.place, 488),
    )
}

/// Something happens after our INVITE was cancelled.
fn after_cancel(call: Call, until: u64, now: u64, event: CallEvent) -> Entry
    ensures { result ≡ cancelled call until now event }
{
    match event {
        CallEvent::InviteAnswered(status, _, _) => {
            if status < 200 {
                stay_cancelled(call, until)
            } else if status < 300 {
                entry_with(
                    call,
                    None,
                    Stage::Talking(ending(now), Media::AudioOnly),
                    SipAction::AckAndBye,
                    LineAction::NoWord,
                )
            } else {
                finish(call, SipAction::Silence, LineAction::NoWord)
            }
        }
        _ => stay_cancelled(call, until),
    }
}

/// A call of this number, with this route, before anything was done.
fn fresh(id: u64, route: usize) -> Call
    ensures { result ≡ new_call id route }
{
    Call {
        id,
        route,
        place: None,
        stage: Stage::Over,
    }
}

/// An INVITE came.
pub(crate) fn come(room: bool, id: u64, route: usize, now: u64, said: Description) -> Entry
    ensures { result ≡ begun_by_invite room id route now said }
{
    let call = fresh(id, route);
    match said {
        Description::Unusable => finish(call, SipAction::Reject(488), LineAction::NoWord),
        Description::FaxAt(_) | Description::AudioAt(_) | Description::NothingSaid => {
            if room {
                entry_with(
                    call,
                    None,
                    Stage::Asking(said, now.saturating_add(TIMEOUT_MS)),
                    SipAction::Silence,
                    LineAction::RingAny,
                )
            } else {
                finish(call, SipAction::Reject(503), LineAction::NoWord)
            }
        }
    }
}

/// The call of a job is asked for.
pub(crate) fn dial(room: bool, id: u64, on: LineCall, choice: Choice) -> Entry
    ensures { result ≡ begun_by_dial room id on choice }
{
    let place = on.on_called_leg();
    match choice {
        Choice::Routed(route, offer) => {
            let call = fresh(id, route);
            if room {
                entry_with(
                    call,
                    Some(place),
                    Stage::Placing(offer, false),
                    SipAction::SendOffer(route, offer),
                    LineAction::NoWord,
                )
            } else {
                finish(call, SipAction::Silence, LineAction::RefuseCall(place, 503))
            }
        }
        Choice::Unrouted => finish(
            fresh(id, 0),
            SipAction::Silence,
            LineAction::RefuseCall(place, 404),
        ),
        Choice::TrunkFull => finish(
            fresh(id, 0),
            SipAction::Silence,
            LineAction::RefuseCall(place, 503),
        ),
    }
}
