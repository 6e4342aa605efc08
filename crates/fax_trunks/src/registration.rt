//! A registration with a trunk (RFC 3261, 10.2).
ghost use Rattle.std.specs.Prelude.{◌≡◌};
ghost use Rattle.fax_trunks.specs.Registrations.{asking_row, begun, challenged, ending_row, failed, granted, is_registered as registered, leave_by, leaving_row, left, next_due as due_next, next_stage, overdue_row, row, too_brief, waiting_row};

use crate::pauses::{
    ANSWER_MS, ENDING_MS, FEWEST_SECONDS, FIRST_PAUSE_MS, LEAST_PAUSE_MS, expiry, later, longer,
    refresh,
};
use crate::registration_event::{RegistrationAction, RegistrationEvent};
use crate::stage::Stage;
use crate::standing::Standing;

/// A registration with a trunk.
#[derive(Clone, Copy)]
pub enum Registration {
    /// The next REGISTER is due at `due`.
    Waiting {
        due: u64,
        standing: Standing,
    },
    /// A REGISTER is under way: its answer is waited for until `limit`.
    Asking {
        limit: u64,
        stage: Stage,
        standing: Standing,
    },
    /// It is to end, and a REGISTER is under way, whose answer is waited for until `limit`: the next one is not sent before that (10.2).
    Ending {
        limit: u64,
        deadline: u64,
    },
    /// The REGISTER that ends it is under way: its answer is waited for until `deadline`.
    Leaving {
        stage: Stage,
        deadline: u64,
    },
    /// It is over.
    Over,
}

impl Registration {
    /// A registration that asks for so many seconds. Its first REGISTER is due now.
    pub fn begin(now: u64, seconds: u32) -> Self
        ensures { result ≡ begun now seconds }
    {
        Registration::Waiting {
            due: now,
            standing: Standing {
                pause: FIRST_PAUSE_MS,
                seconds,
                until: 0,
            },
        }
    }

    /// Something happens at a moment: what is to be done.
    pub fn step(&mut self, now: u64, event: RegistrationEvent) -> RegistrationAction
        ensures state { self.new ≡ (row self.old now event).0 }
        ensures action { result ≡ (row self.old now event).1 }
    {
        let (state, action) = self.after(now, event);
        *self = state;
        action
    }

    /// The moment from which something is due although nothing else happens.
    pub fn next_due(self) -> Option<u64>
        ensures { result ≡ due_next self }
    {
        match self {
            Registration::Waiting { due, .. } => Some(due),
            Registration::Asking { limit, .. } => Some(limit),
            Registration::Ending { limit, deadline } => Some(limit.min(deadline)),
            Registration::Leaving { deadline, .. } => Some(deadline),
            Registration::Over => None,
        }
    }

    /// Whether our contact is registered at a moment, as far as the registrar said, and is to stay so.
    pub fn is_registered(self, now: u64) -> bool
        ensures { result ≡ registered self now }
    {
        match self {
            Registration::Waiting { standing, .. } | Registration::Asking { standing, .. } => {
                now < standing.until
            }
            Registration::Ending { .. } | Registration::Leaving { .. } | Registration::Over => {
                false
            }
        }
    }

    /// The next state, and what is to be done.
    fn after(self, now: u64, event: RegistrationEvent) -> (Self, RegistrationAction)
        ensures { result ≡ row self now event }
    {
        match self {
            Registration::Waiting { due, standing } => after_waiting(due, standing, now, event),
            Registration::Asking {
                limit,
                stage,
                standing,
            } => {
                if now >= limit {
                    after_limit(standing, now, event)
                } else {
                    after_asking(limit, stage, standing, now, event)
                }
            }
            Registration::Ending { limit, deadline } => {
                if now >= deadline {
                    (Registration::Over, RegistrationAction::Nothing)
                } else if now >= limit {
                    leave(deadline)
                } else {
                    after_ending(limit, deadline, event)
                }
            }
            Registration::Leaving { stage, deadline } => {
                if now >= deadline {
                    (Registration::Over, RegistrationAction::Nothing)
                } else {
                    after_leaving(stage, deadline, event)
                }
            }
            Registration::Over => (self, RegistrationAction::Nothing),
        }
    }
}

/// Something happens while no REGISTER is under way.
fn after_waiting(
    due: u64,
    standing: Standing,
    now: u64,
    event: RegistrationEvent,
) -> (Registration, RegistrationAction)
    ensures { result ≡ waiting_row due standing now event }
{
    if let RegistrationEvent::Ended = event {
        return leave(later(now, ENDING_MS));
    }
    if now < due {
        return (
            Registration::Waiting { due, standing },
            RegistrationAction::Nothing,
        );
    }
    (
        Registration::Asking {
            limit: later(now, ANSWER_MS),
            stage: Stage::First,
            standing,
        },
        RegistrationAction::Register(standing.seconds),
    )
}

/// Something happens once no answer came in time.
fn after_limit(
    standing: Standing,
    now: u64,
    event: RegistrationEvent,
) -> (Registration, RegistrationAction)
    ensures { result ≡ overdue_row standing now event }
{
    if let RegistrationEvent::Ended = event {
        leave(later(now, ENDING_MS))
    } else {
        fail(standing, now)
    }
}

/// Something happens while an answer is waited for.
fn after_asking(
    limit: u64,
    stage: Stage,
    standing: Standing,
    now: u64,
    event: RegistrationEvent,
) -> (Registration, RegistrationAction)
    ensures { result ≡ asking_row limit stage standing now event }
{
    match event {
        RegistrationEvent::TimePassed => (
            Registration::Asking {
                limit,
                stage,
                standing,
            },
            RegistrationAction::Nothing,
        ),
        RegistrationEvent::Granted(seconds) => grant(standing, now, seconds),
        RegistrationEvent::Challenged(stale) => challenge(stage, stale, standing, now),
        RegistrationEvent::TooBrief(least) => lengthen(standing, now, least),
        RegistrationEvent::Refused => fail(standing, now),
        RegistrationEvent::Ended => (
            Registration::Ending {
                limit,
                deadline: later(now, ENDING_MS),
            },
            RegistrationAction::Nothing,
        ),
    }
}

/// Our contact is registered for so many seconds.
fn grant(standing: Standing, now: u64, seconds: u32) -> (Registration, RegistrationAction)
    ensures { result ≡ granted standing now seconds }
{
    if seconds < FEWEST_SECONDS {
        return fail(standing, now);
    }
    (
        Registration::Waiting {
            due: refresh(now, seconds),
            standing: Standing {
                pause: FIRST_PAUSE_MS,
                seconds: standing.seconds,
                until: expiry(now, seconds),
            },
        },
        RegistrationAction::Nothing,
    )
}

/// A challenge came.
fn challenge(
    stage: Stage,
    stale: bool,
    standing: Standing,
    now: u64,
) -> (Registration, RegistrationAction)
    ensures { result ≡ challenged (next_stage stage stale) standing now }
{
    match stage.challenged(stale) {
        Some(stage) => (
            Registration::Asking {
                limit: later(now, ANSWER_MS),
                stage,
                standing,
            },
            RegistrationAction::RegisterWithCredentials(standing.seconds),
        ),
        None => fail(standing, now),
    }
}

/// The registrar wants so many seconds at least.
fn lengthen(standing: Standing, now: u64, least: u32) -> (Registration, RegistrationAction)
    ensures { result ≡ too_brief standing now least }
{
    if standing.seconds >= least {
        return fail(standing, now);
    }
    (
        Registration::Waiting {
            due: later(now, LEAST_PAUSE_MS),
            standing: Standing {
                pause: standing.pause,
                seconds: least,
                until: standing.until,
            },
        },
        RegistrationAction::Nothing,
    )
}

/// A REGISTER came to nothing: the next is due after a pause.
fn fail(standing: Standing, now: u64) -> (Registration, RegistrationAction)
    ensures { result ≡ failed standing now }
{
    (
        Registration::Waiting {
            due: later(now, standing.pause),
            standing: Standing {
                pause: longer(standing.pause),
                seconds: standing.seconds,
                until: standing.until,
            },
        },
        RegistrationAction::Nothing,
    )
}

/// The REGISTER that ends it is sent.
fn leave(deadline: u64) -> (Registration, RegistrationAction)
    ensures { result ≡ leave_by deadline }
{
    (
        Registration::Leaving {
            stage: Stage::First,
            deadline,
        },
        RegistrationAction::Unregister,
    )
}

/// Something happens while it is to end, and an answer is waited for.
fn after_ending(
    limit: u64,
    deadline: u64,
    event: RegistrationEvent,
) -> (Registration, RegistrationAction)
    ensures { result ≡ ending_row limit deadline event }
{
    match event {
        RegistrationEvent::TimePassed | RegistrationEvent::Ended => (
            Registration::Ending { limit, deadline },
            RegistrationAction::Nothing,
        ),
        RegistrationEvent::Granted(_)
        | RegistrationEvent::Challenged(_)
        | RegistrationEvent::TooBrief(_)
        | RegistrationEvent::Refused => leave(deadline),
    }
}

/// Something happens while the answer to its end is waited for.
fn after_leaving(
    stage: Stage,
    deadline: u64,
    event: RegistrationEvent,
) -> (Registration, RegistrationAction)
    ensures { result ≡ leaving_row stage deadline event }
{
    match event {
        RegistrationEvent::TimePassed | RegistrationEvent::Ended => (
            Registration::Leaving { stage, deadline },
            RegistrationAction::Nothing,
        ),
        RegistrationEvent::Challenged(stale) => end_again(stage.challenged(stale), deadline),
        RegistrationEvent::Granted(_)
        | RegistrationEvent::TooBrief(_)
        | RegistrationEvent::Refused => (Registration::Over, RegistrationAction::Nothing),
    }
}

/// The REGISTER that ends it is sent with credentials, or it is over.
fn end_again(stage: Option<Stage>, deadline: u64) -> (Registration, RegistrationAction)
    ensures { result ≡ left stage deadline }
{
    match stage {
        Some(stage) => (
            Registration::Leaving { stage, deadline },
            RegistrationAction::UnregisterWithCredentials,
        ),
        None => (Registration::Over, RegistrationAction::Nothing),
    }
}
