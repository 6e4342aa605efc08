//! A session, from the 2xx of its INVITE to its end.
ghost use Rattle.std.specs.Prelude.{◌≡◌, None, unwrap_or};
ghost use Rattle.fax_dialogs.specs.Sessions.{accepted, accepted_row, acknowledged, answer_row, answered_row, confirmed_row, ended_row, ending, ending_row, glare_pause as pause_of, invited_row, inviting_row, is_success as succeeds, next_due as due_next, next_of, next_with, other_row, row, sent_or_waiting, wished};

use crate::role::Role;
use crate::session_action::SessionAction;
use crate::session_event::SessionEvent;
use crate::spans::{later, longer};
use fax_transactions::{T1_MS, TIMEOUT_MS};

/// What is done after the ACK of our 2xx.
#[derive(Clone, Copy, PartialEq, Eq)]
pub enum Next {
    /// Nothing.
    Stay,
    /// Our re-INVITE is sent from this moment on.
    Again(u64),
    /// A BYE is sent.
    Bye,
}

/// The session of a dialog that an INVITE began.
#[derive(Clone, Copy, PartialEq, Eq)]
pub enum Session {
    /// No INVITE is under way. Ours is to be sent from this moment on, where there is one.
    Confirmed {
        reinvite: Option<u64>,
    },
    /// We sent a 2xx to their INVITE. It is sent again at `again`, and its ACK is waited for until `until`.
    Accepted {
        again: u64,
        pause: u64,
        until: u64,
        next: Next,
    },
    /// Our INVITE is under way.
    Inviting,
    /// Their INVITE is under way. Ours is to be sent after it and from this moment on, where there is one.
    Invited {
        reinvite: Option<u64>,
    },
    /// Our BYE is under way, until this moment at most.
    Ending {
        until: u64,
    },
    /// It is over.
    Ended,
}

/// How long our re-INVITE waits after 491, in milliseconds (RFC 3261, 14.1): 2.1 to 4 s where we made the Call-ID, else 0 to 2 s, as
/// the random number has it.
pub fn glare_pause(role: Role, random: u64) -> u64
    ensures { result ≡ pause_of role random }
{
    match role {
        Role::Caller => 2_100 + 10 * (random % 191),
        Role::Answerer => 10 * (random % 201),
    }
}

impl Session {
    /// A 2xx came to the INVITE with which we call. It is under way until that is told as the first event, `Answered`.
    pub fn of_caller() -> Self
        ensures { result ≡ Session.Inviting }
    {
        Self::Inviting
    }

    /// We sent a 2xx to the INVITE that calls us.
    pub fn of_answerer(now: u64) -> Self
        ensures { result ≡ accepted now Next.Stay }
    {
        accept(now, Next::Stay)
    }

    /// Something happens at a moment: what is to be done.
    pub fn step(&mut self, now: u64, event: SessionEvent) -> SessionAction
        ensures state { self.new ≡ (row self.old now event).0 }
        ensures action { result ≡ (row self.old now event).1 }
    {
        let (state, action) = self.after(now, event);
        *self = state;
        action
    }

    /// The moment from which something is due although nothing else happens.
    pub fn next_due(self) -> Option<u64>
        ensures { result ≡ due_next self }
    {
        match self {
            Session::Confirmed { reinvite } => reinvite,
            Session::Accepted { again, until, .. } => Some(again.min(until)),
            Session::Ending { until } => Some(until),
            Session::Inviting | Session::Invited { .. } | Session::Ended => None,
        }
    }

    /// The next state, and what is to be done.
    fn after(self, now: u64, event: SessionEvent) -> (Self, SessionAction)
        ensures { result ≡ row self now event }
    {
        match self {
            Session::Confirmed { reinvite } => confirmed(reinvite, now, event),
            Session::Accepted {
                again,
                pause,
                until,
                next,
            } => {
                if now >= until {
                    (end(until), SessionAction::TellAndSendBye)
                } else {
                    unacknowledged(again, pause, until, next, now, event)
                }
            }
            Session::Inviting => inviting(now, event),
            Session::Invited { reinvite } => invited(reinvite, now, event),
            Session::Ending { until } => {
                if now >= until {
                    (Session::Ended, SessionAction::Nothing)
                } else {
                    under_bye(until, event)
                }
            }
            Session::Ended => ended(event),
        }
    }
}

/// A 2xx to their INVITE is sent.
fn accept(now: u64, next: Next) -> Session
    ensures { result ≡ accepted now next }
{
    Session::Accepted {
        again: later(now, T1_MS),
        pause: T1_MS,
        until: later(now, TIMEOUT_MS),
        next,
    }
}

/// A BYE is sent.
fn end(now: u64) -> Session
    ensures { result ≡ ending now }
{
    Session::Ending {
        until: later(now, TIMEOUT_MS),
    }
}

/// Whether a status is a 2xx.
fn is_success(status: u16) -> bool
    ensures { result ≡ succeeds status }
{
    status >= 200 && status < 300
}

/// Something comes that no state hears but for an answer to an INVITE of ours.
fn other(state: Session, event: SessionEvent) -> (Session, SessionAction)
    ensures { result ≡ other_row state event }
{
    match event {
        SessionEvent::Answered(status, _) => {
            if is_success(status) {
                (state, SessionAction::Acknowledge)
            } else {
                (state, SessionAction::Nothing)
            }
        }
        SessionEvent::AnsweredAgain => (state, SessionAction::Acknowledge),
        _ => (state, SessionAction::Nothing),
    }
}

/// Something happens while no INVITE is under way.
fn confirmed(reinvite: Option<u64>, now: u64, event: SessionEvent) -> (Session, SessionAction)
    ensures { result ≡ confirmed_row reinvite now event }
{
    match event {
        SessionEvent::TimePassed => send_when_due(reinvite, now),
        SessionEvent::Reinvite => send_or_wait(reinvite),
        SessionEvent::HangUp => (end(now), SessionAction::SendBye),
        SessionEvent::InviteCame => (Session::Invited { reinvite }, SessionAction::TellInvite),
        SessionEvent::ByeCame => (Session::Ended, SessionAction::AnswerBye),
        _ => other(Session::Confirmed { reinvite }, event),
    }
}

/// Time passes while our re-INVITE may be sent.
fn send_when_due(reinvite: Option<u64>, now: u64) -> (Session, SessionAction)
    ensures { result ≡ wished reinvite now }
{
    match reinvite {
        Some(at) => {
            if now < at {
                (Session::Confirmed { reinvite }, SessionAction::Nothing)
            } else {
                (Session::Inviting, SessionAction::SendInvite)
            }
        }
        None => (Session::Confirmed { reinvite }, SessionAction::Nothing),
    }
}

/// The user wants to send a re-INVITE while it may be sent.
fn send_or_wait(reinvite: Option<u64>) -> (Session, SessionAction)
    ensures { result ≡ sent_or_waiting reinvite }
{
    match reinvite {
        Some(_) => (Session::Confirmed { reinvite }, SessionAction::Nothing),
        None => (Session::Inviting, SessionAction::SendInvite),
    }
}

/// Something happens while the ACK of our 2xx is waited for.
fn unacknowledged(
    again: u64,
    pause: u64,
    until: u64,
    next: Next,
    now: u64,
    event: SessionEvent,
) -> (Session, SessionAction)
    ensures { result ≡ accepted_row again pause until next now event }
{
    let state = Session::Accepted {
        again,
        pause,
        until,
        next,
    };
    match event {
        SessionEvent::TimePassed => send_again(again, pause, until, next, now),
        SessionEvent::Reinvite => (
            Session::Accepted {
                again,
                pause,
                until,
                next: with_reinvite(next, now),
            },
            SessionAction::Nothing,
        ),
        SessionEvent::HangUp => (
            Session::Accepted {
                again,
                pause,
                until,
                next: Next::Bye,
            },
            SessionAction::Nothing,
        ),
        SessionEvent::InviteCame => (state, SessionAction::Refuse(500)),
        SessionEvent::AckCame => after_ack(next, now),
        SessionEvent::ByeCame => (Session::Ended, SessionAction::AnswerBye),
        _ => other(state, event),
    }
}

/// Time passes while the ACK of our 2xx is waited for.
fn send_again(again: u64, pause: u64, until: u64, next: Next, now: u64) -> (Session, SessionAction)
    ensures { result ≡ accepted_row again pause until next now SessionEvent.TimePassed }
{
    if now < again {
        let state = Session::Accepted {
            again,
            pause,
            until,
            next,
        };
        return (state, SessionAction::Nothing);
    }
    let pause = longer(pause);
    let state = Session::Accepted {
        again: later(now, pause),
        pause,
        until,
        next,
    };
    (state, SessionAction::SendAgain)
}

/// What is done after the ACK where a re-INVITE is wanted.
fn with_reinvite(next: Next, now: u64) -> Next
    ensures { result ≡ next_with next now }
{
    match next {
        Next::Stay => Next::Again(now),
        Next::Again(_) | Next::Bye => next,
    }
}

/// The ACK of our 2xx comes.
fn after_ack(next: Next, now: u64) -> (Session, SessionAction)
    ensures { result ≡ acknowledged next now }
{
    match next {
        Next::Stay => (
            Session::Confirmed { reinvite: None },
            SessionAction::Nothing,
        ),
        Next::Again(at) => (
            Session::Confirmed { reinvite: Some(at) },
            SessionAction::Nothing,
        ),
        Next::Bye => (end(now), SessionAction::SendBye),
    }
}

/// Something happens while our INVITE is under way.
fn inviting(now: u64, event: SessionEvent) -> (Session, SessionAction)
    ensures { result ≡ inviting_row now event }
{
    match event {
        SessionEvent::Answered(status, pause) => answered(now, status, pause),
        SessionEvent::HangUp => (end(now), SessionAction::SendBye),
        SessionEvent::InviteCame => (Session::Inviting, SessionAction::Refuse(491)),
        SessionEvent::ByeCame => (Session::Ended, SessionAction::AnswerBye),
        _ => other(Session::Inviting, event),
    }
}

/// An answer comes to our INVITE.
fn answered(now: u64, status: u16, pause: u64) -> (Session, SessionAction)
    ensures { result ≡ answered_row now status pause }
{
    let confirmed = Session::Confirmed { reinvite: None };
    if status < 200 {
        (Session::Inviting, SessionAction::Nothing)
    } else if status < 300 {
        (confirmed, SessionAction::TellAndAcknowledge)
    } else if status == 491 {
        let reinvite = Some(later(now, pause));
        (Session::Confirmed { reinvite }, SessionAction::Nothing)
    } else if status == 408 || status == 481 {
        (end(now), SessionAction::TellAndSendBye)
    } else {
        (confirmed, SessionAction::TellRefused(status))
    }
}

/// Something happens while their INVITE is under way.
fn invited(reinvite: Option<u64>, now: u64, event: SessionEvent) -> (Session, SessionAction)
    ensures { result ≡ invited_row reinvite now event }
{
    let state = Session::Invited { reinvite };
    match event {
        SessionEvent::Answer(status) => answer(reinvite, now, status),
        SessionEvent::Reinvite => {
            let at = reinvite.unwrap_or(now);
            (
                Session::Invited { reinvite: Some(at) },
                SessionAction::Nothing,
            )
        }
        SessionEvent::HangUp => (end(now), SessionAction::SendByeAndRefuse),
        SessionEvent::InviteCame => (state, SessionAction::Refuse(500)),
        SessionEvent::ByeCame => (Session::Ended, SessionAction::AnswerByeAndRefuse),
        SessionEvent::TimePassed
        | SessionEvent::AckCame
        | SessionEvent::Answered(_, _)
        | SessionEvent::AnsweredAgain
        | SessionEvent::ByeAnswered => other(state, event),
    }
}

/// The user answers their INVITE.
fn answer(reinvite: Option<u64>, now: u64, status: u16) -> (Session, SessionAction)
    ensures { result ≡ answer_row reinvite now status }
{
    let state = if status < 200 {
        Session::Invited { reinvite }
    } else if status < 300 {
        accept(now, after_answer(reinvite))
    } else {
        Session::Confirmed { reinvite }
    };
    (state, SessionAction::SendAnswer)
}

/// What is done after the ACK where ours waits for theirs.
fn after_answer(reinvite: Option<u64>) -> Next
    ensures { result ≡ next_of reinvite }
{
    match reinvite {
        Some(at) => Next::Again(at),
        None => Next::Stay,
    }
}

/// Something happens while our BYE is under way.
fn under_bye(until: u64, event: SessionEvent) -> (Session, SessionAction)
    ensures { result ≡ ending_row until event }
{
    let state = Session::Ending { until };
    match event {
        SessionEvent::ByeAnswered => (Session::Ended, SessionAction::Nothing),
        SessionEvent::ByeCame => (Session::Ended, SessionAction::AnswerBye),
        SessionEvent::InviteCame => (state, SessionAction::Refuse(481)),
        _ => other(state, event),
    }
}

/// Something happens after the end.
fn ended(event: SessionEvent) -> (Session, SessionAction)
    ensures { result ≡ ended_row event }
{
    match event {
        SessionEvent::ByeCame | SessionEvent::InviteCame => {
            (Session::Ended, SessionAction::Refuse(481))
        }
        _ => other(Session::Ended, event),
    }
}
