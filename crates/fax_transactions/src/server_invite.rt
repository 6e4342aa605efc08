//! The server transaction of an INVITE (RFC 3261, 17.2.1).
ghost use Rattle.std.specs.Prelude.{◌≡◌};
ghost use Rattle.fax_transactions.specs.ServerInvites.{answered_row, begun, completed_row, next_due as due_next, proceeding_row, row};

use crate::server::{ServerAction, ServerEvent};
use crate::spans::{T1_MS, T4_MS, TIMEOUT_MS, later, longer};

/// The server transaction of an INVITE: the states of figure 7 of RFC 3261.
#[derive(Clone, Copy, PartialEq, Eq)]
pub enum ServerInvite {
    /// A provisional answer was sent, and a final one is waited for until this moment.
    Proceeding { until: u64 },
    /// The INVITE was refused, and no ACK came. Timer G is due at `again`, Timer H at `until`.
    Completed { again: u64, pause: u64, until: u64 },
    /// The ACK came: its repeats are passed over until Timer I is due.
    Confirmed { until: u64 },
    /// It is over.
    Terminated,
}

impl ServerInvite {
    /// An INVITE came, and 100 was sent. The user answers before `limit`.
    pub fn begin(limit: u64) -> Self
        ensures { result ≡ begun limit }
    {
        ServerInvite::Proceeding { until: limit }
    }

    /// Something happens at a moment: what is to be done.
    pub fn step(&mut self, now: u64, event: ServerEvent) -> ServerAction
        ensures state { self.new ≡ (row self.old now event).0 }
        ensures action { result ≡ (row self.old now event).1 }
    {
        let (state, action) = self.after(now, event);
        *self = state;
        action
    }

    /// The moment from which something is due although nothing else happens.
    pub fn next_due(self) -> Option<u64>
        ensures { result ≡ due_next self }
    {
        match self {
            ServerInvite::Completed { again, until, .. } => Some(again.min(until)),
            ServerInvite::Proceeding { until } | ServerInvite::Confirmed { until } => Some(until),
            ServerInvite::Terminated => None,
        }
    }

    /// The next state, and what is to be done.
    fn after(self, now: u64, event: ServerEvent) -> (Self, ServerAction)
        ensures { result ≡ row self now event }
    {
        match self {
            ServerInvite::Proceeding { until } => {
                if now >= until {
                    (ServerInvite::Terminated, ServerAction::TimedOut)
                } else {
                    proceeding(until, now, event)
                }
            }
            ServerInvite::Completed {
                again,
                pause,
                until,
            } => {
                if now >= until {
                    (ServerInvite::Terminated, ServerAction::Unacknowledged)
                } else {
                    completed(again, pause, until, now, event)
                }
            }
            ServerInvite::Confirmed { until } => {
                if now >= until {
                    (ServerInvite::Terminated, ServerAction::Nothing)
                } else {
                    (self, ServerAction::Nothing)
                }
            }
            ServerInvite::Terminated => (self, ServerAction::Nothing),
        }
    }
}

/// Something happens before a final answer.
fn proceeding(until: u64, now: u64, event: ServerEvent) -> (ServerInvite, ServerAction)
    ensures { result ≡ proceeding_row until now event }
{
    let state = ServerInvite::Proceeding { until };
    match event {
        ServerEvent::Repeated => (state, ServerAction::SendAgain),
        ServerEvent::Answered(status) => answered(until, now, status),
        ServerEvent::NotSent => (ServerInvite::Terminated, ServerAction::Failed),
        ServerEvent::TimePassed | ServerEvent::Acknowledged => (state, ServerAction::Nothing),
    }
}

/// The user answers.
fn answered(until: u64, now: u64, status: u16) -> (ServerInvite, ServerAction)
    ensures { result ≡ answered_row until now status }
{
    if status < 200 {
        (ServerInvite::Proceeding { until }, ServerAction::Send)
    } else if status < 300 {
        (ServerInvite::Terminated, ServerAction::Send)
    } else {
        (
            ServerInvite::Completed {
                again: later(now, T1_MS),
                pause: T1_MS,
                until: later(now, TIMEOUT_MS),
            },
            ServerAction::Send,
        )
    }
}

/// Something happens after a refusal.
fn completed(
    again: u64,
    pause: u64,
    until: u64,
    now: u64,
    event: ServerEvent,
) -> (ServerInvite, ServerAction)
    ensures { result ≡ completed_row again pause until now event }
{
    let state = ServerInvite::Completed {
        again,
        pause,
        until,
    };
    match event {
        ServerEvent::TimePassed => {
            if now < again {
                return (state, ServerAction::Nothing);
            }
            let pause = longer(pause);
            let again = later(now, pause);
            (
                ServerInvite::Completed {
                    again,
                    pause,
                    until,
                },
                ServerAction::SendAgain,
            )
        }
        ServerEvent::Repeated => (state, ServerAction::SendAgain),
        ServerEvent::Acknowledged => (
            ServerInvite::Confirmed {
                until: later(now, T4_MS),
            },
            ServerAction::Nothing,
        ),
        ServerEvent::NotSent => (ServerInvite::Terminated, ServerAction::Failed),
        ServerEvent::Answered(_) => (state, ServerAction::Nothing),
    }
}
