//! A call that has a dialog.
ghost use Rattle.std.specs.Prelude.{◌≡◌, None};
ghost use Rattle.fax_dialogs.specs.Sessions.{accepted, ending as ending_from, row};
ghost use Rattle.fax_switch.specs.Calls.{acknowledged_by, agreed_by, answer_in_ack as answered_in_ack, answer_to as answer_status, answered_by, answered_with as answer_for, entry_of, hang_up as hang_up_word, is_confirmed as has_no_invite, media_by as media_after, ours_by as ours_after, plain as plain_entry, plainly, refused_by, reinvited_by, stage_of, talked, without_ours as waiting_dropped};

use crate::action::{LineAction, SipAction};
use crate::call::{Call, Entry, Stage, entry_with};
use crate::event::CallEvent;
use crate::media::{Description, Media, Offer};
use crate::word::{hang_up, peer, word_by};
use fax_dialogs::{Next, Session, SessionAction, SessionEvent};
use fax_transactions::{T1_MS, TIMEOUT_MS};

/// Our 2xx to their INVITE is sent.
pub(crate) fn accept(now: u64, next: Next) -> Session
    ensures { result ≡ accepted now next }
{
    Session::Accepted {
        again: now.saturating_add(T1_MS),
        pause: T1_MS,
        until: now.saturating_add(TIMEOUT_MS),
        next,
    }
}

/// A BYE is sent.
pub(crate) fn ending(now: u64) -> Session
    ensures { result ≡ ending_from now }
{
    Session::Ending {
        until: now.saturating_add(TIMEOUT_MS),
    }
}

/// The stage of a call with this session.
fn stage_with(session: Session, media: Media) -> Stage
    ensures { result ≡ stage_of session media }
{
    match session {
        Session::Ended => Stage::Over,
        Session::Confirmed { .. }
        | Session::Accepted { .. }
        | Session::Inviting
        | Session::Invited { .. }
        | Session::Ending { .. } => Stage::Talking(session, media),
    }
}

/// Whether no INVITE is under way.
fn is_confirmed(session: Session) -> bool
    ensures { result ≡ has_no_invite session }
{
    match session {
        Session::Confirmed { .. } => true,
        Session::Accepted { .. }
        | Session::Inviting
        | Session::Invited { .. }
        | Session::Ending { .. }
        | Session::Ended => false,
    }
}

/// Something happens in its session in which nothing is described.
pub(crate) fn plain(
    call: Call,
    session: Session,
    media: Media,
    now: u64,
    event: SessionEvent,
) -> Entry
    ensures { result ≡ plainly call media (row session now event) }
{
    let mut session = session;
    let action = session.step(now, event);
    plain_with(call, media, session, action)
}

/// This is to be done in its session.
fn plain_with(call: Call, media: Media, session: Session, action: SessionAction) -> Entry
    ensures { result ≡ plain_entry call media session action }
{
    let stage = stage_with(session, media);
    let ends = hang_up(call.place, media);
    match action {
        SessionAction::Nothing
        | SessionAction::SendAnswer
        | SessionAction::TellInvite
        | SessionAction::TellRefused(_) => go(call, stage, SipAction::Silence),
        SessionAction::SendInvite => go(call, stage, SipAction::InviteAgain),
        SessionAction::SendAgain => go(call, stage, SipAction::AcceptAgain),
        SessionAction::Refuse(status) => go(call, stage, SipAction::Reject(status)),
        SessionAction::Acknowledge | SessionAction::TellAndAcknowledge => {
            go(call, stage, SipAction::Ack)
        }
        SessionAction::SendBye | SessionAction::TellAndSendBye => {
            entry_with(call, None, stage, SipAction::Bye, ends)
        }
        SessionAction::SendByeAndRefuse => {
            entry_with(call, None, stage, SipAction::ByeAndReject, ends)
        }
        SessionAction::AnswerBye => entry_with(call, None, stage, SipAction::AcceptBye, ends),
        SessionAction::AnswerByeAndRefuse => {
            entry_with(call, None, stage, SipAction::AcceptByeAndReject, ends)
        }
    }
}

/// It goes on, and its line is told nothing.
fn go(call: Call, stage: Stage, sip: SipAction) -> Entry
    ensures { result ≡ entry_of call call.place stage sip LineAction.NoWord }
{
    entry_with(call, call.place, stage, sip, LineAction::NoWord)
}

/// It ends, by this.
fn end(call: Call, media: Media, now: u64, sip: SipAction) -> Entry
    ensures { result ≡ entry_of
        call None (Stage.Talking (ending_from now) media) sip (hang_up_word call.place media) }
{
    entry_with(
        call,
        None,
        Stage::Talking(ending(now), media),
        sip,
        hang_up(call.place, media),
    )
}

/// Something happens in it.
pub(crate) fn talk(call: Call, session: Session, media: Media, now: u64, event: CallEvent) -> Entry
    ensures { result ≡ talked call session media now event }
{
    match event {
        CallEvent::InviteAnswered(status, pause, said) => {
            let mut session = session;
            let action = session.step(now, SessionEvent::Answered(status, pause));
            after_answer(call, media, now, said, session, action)
        }
        CallEvent::Reinvited(said) => {
            let mut session = session;
            let action = session.step(now, SessionEvent::InviteCame);
            after_invite(call, media, now, said, session, action)
        }
        CallEvent::Acknowledged(said) => {
            let mut session = session;
            let action = session.step(now, SessionEvent::AckCame);
            after_ack(call, media, now, said, session, action)
        }
        CallEvent::AnswerRepeated => plain(call, session, media, now, SessionEvent::AnsweredAgain),
        CallEvent::ByeReceived => plain(call, session, media, now, SessionEvent::ByeCame),
        CallEvent::ByeDone => plain(call, session, media, now, SessionEvent::ByeAnswered),
        CallEvent::CancelReceived => plain(call, session, media, now, SessionEvent::TimePassed),
        CallEvent::RefreshDue => plain(call, session, media, now, SessionEvent::Reinvite),
        CallEvent::Expired => plain(call, session, media, now, SessionEvent::HangUp),
    }
}

/// Our re-INVITE was answered.
fn after_answer(
    call: Call,
    media: Media,
    now: u64,
    said: Description,
    session: Session,
    action: SessionAction,
) -> Entry
    ensures { result ≡ answered_by call media now said session action }
{
    match action {
        SessionAction::TellAndAcknowledge => {
            if is_confirmed(session) {
                agree(call, media, now, session, said)
            } else {
                plain_with(call, media, session, action)
            }
        }
        SessionAction::TellRefused(_) => {
            if is_confirmed(session) {
                after_refusal(call, media, now, session)
            } else {
                plain_with(call, media, session, action)
            }
        }
        _ => plain_with(call, media, session, action),
    }
}

/// Our re-INVITE was accepted.
fn agree(call: Call, media: Media, now: u64, session: Session, said: Description) -> Entry
    ensures { result ≡ agreed_by call media now session said }
{
    match said {
        Description::FaxAt(fax) => entry_with(
            call,
            call.place,
            stage_with(session, Media::FaxAgreed),
            SipAction::Ack,
            peer(call.place, media, fax),
        ),
        Description::AudioAt(_) | Description::NothingSaid | Description::Unusable => {
            end(call, media, now, SipAction::AckAndBye)
        }
    }
}

/// There is no answer with T.38: it goes on where T.38 was agreed on before.
fn after_refusal(call: Call, media: Media, now: u64, session: Session) -> Entry
    ensures { result ≡ refused_by call media now session }
{
    match media {
        Media::FaxAgreed => go(
            call,
            stage_with(session, Media::FaxAgreed),
            SipAction::Silence,
        ),
        Media::AudioOnly | Media::FaxOffered => end(call, media, now, SipAction::Bye),
    }
}

/// Their re-INVITE came.
fn after_invite(
    call: Call,
    media: Media,
    now: u64,
    said: Description,
    session: Session,
    action: SessionAction,
) -> Entry
    ensures { result ≡ reinvited_by call media now said session action }
{
    match action {
        SessionAction::TellInvite => {
            let mut session = ours_by(said, session);
            session.step(now, SessionEvent::Answer(answer_to(media, said)));
            entry_with(
                call,
                call.place,
                stage_with(session, media_by(media, said)),
                answered_with(media, said),
                word_by(call.place, media, said),
            )
        }
        _ => plain_with(call, media, session, action),
    }
}

/// Whether a re-INVITE of ours still waits where theirs describes this: not where our answer has T.38, which ours was to bring.
fn ours_by(said: Description, session: Session) -> Session
    ensures { result ≡ ours_after said session }
{
    match said {
        Description::FaxAt(_) | Description::NothingSaid => without_ours(session),
        Description::AudioAt(_) | Description::Unusable => session,
    }
}

/// Theirs is under way, and none of ours waits.
fn without_ours(session: Session) -> Session
    ensures { result ≡ waiting_dropped session }
{
    match session {
        Session::Invited { .. } => Session::Invited { reinvite: None },
        Session::Confirmed { .. }
        | Session::Accepted { .. }
        | Session::Inviting
        | Session::Ending { .. }
        | Session::Ended => session,
    }
}

/// The status with which a re-INVITE is answered.
fn answer_to(media: Media, said: Description) -> u16
    ensures { result ≡ answer_status media said }
{
    match said {
        Description::FaxAt(_) | Description::NothingSaid => 200,
        Description::AudioAt(_) => match media {
            Media::AudioOnly => 200,
            Media::FaxAgreed | Media::FaxOffered => 488,
        },
        Description::Unusable => 488,
    }
}

/// What is agreed on then.
fn media_by(media: Media, said: Description) -> Media
    ensures { result ≡ media_after media said }
{
    match said {
        Description::FaxAt(_) => Media::FaxAgreed,
        Description::NothingSaid => match media {
            Media::FaxAgreed => Media::FaxAgreed,
            Media::AudioOnly | Media::FaxOffered => Media::FaxOffered,
        },
        Description::AudioAt(_) | Description::Unusable => media,
    }
}

/// What a re-INVITE is answered.
fn answered_with(media: Media, said: Description) -> SipAction
    ensures { result ≡ answer_for media said }
{
    match said {
        Description::FaxAt(_) | Description::NothingSaid => SipAction::Accept(Offer::Fax),
        Description::AudioAt(_) => match media {
            Media::AudioOnly => SipAction::Accept(Offer::Audio),
            Media::FaxAgreed | Media::FaxOffered => SipAction::Reject(488),
        },
        Description::Unusable => SipAction::Reject(488),
    }
}

/// The ACK of our 2xx came.
fn after_ack(
    call: Call,
    media: Media,
    now: u64,
    said: Description,
    session: Session,
    action: SessionAction,
) -> Entry
    ensures { result ≡ acknowledged_by call media now said session action }
{
    match action {
        SessionAction::Nothing => {
            if is_confirmed(session) {
                answer_in_ack(call, media, now, session, said)
            } else {
                plain_with(call, media, session, action)
            }
        }
        _ => plain_with(call, media, session, action),
    }
}

/// The ACK of our 2xx has their answer, where we offered.
fn answer_in_ack(call: Call, media: Media, now: u64, session: Session, said: Description) -> Entry
    ensures { result ≡ answered_in_ack call media now session said }
{
    match media {
        Media::AudioOnly => go(call, stage_with(session, media), SipAction::Silence),
        Media::FaxAgreed | Media::FaxOffered => match said {
            Description::FaxAt(fax) => entry_with(
                call,
                call.place,
                stage_with(session, Media::FaxAgreed),
                SipAction::Silence,
                peer(call.place, media, fax),
            ),
            Description::AudioAt(_) | Description::NothingSaid | Description::Unusable => {
                after_refusal(call, media, now, session)
            }
        },
    }
}
