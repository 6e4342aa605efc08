//! The client transaction of an INVITE (RFC 3261, 17.1.1).
ghost use Rattle.std.specs.Prelude.{◌≡◌};
ghost use Rattle.fax_transactions.specs.ClientInvites.{answered_row, begun, calling_row, completed_row, next_due as due_next, proceeding_row, row};

use crate::client::{ClientAction, ClientEvent};
use crate::spans::{T1_MS, TIMEOUT_MS, doubled, later};

/// The client transaction of an INVITE: the states of figure 5 of RFC 3261.
#[derive(Clone, Copy, PartialEq, Eq)]
pub enum ClientInvite {
    /// The INVITE was sent, and no answer came. Timer A is due at `again`, Timer B at `until`; a final answer is waited for until
    /// `limit` once a provisional one came.
    Calling {
        again: u64,
        pause: u64,
        until: u64,
        limit: u64,
    },
    /// A provisional answer came: a final one is waited for until this moment.
    Proceeding {
        until: u64,
    },
    /// The INVITE was refused: repeats of the refusal get their ACK until Timer D is due.
    Completed {
        until: u64,
    },
    /// It is over.
    Terminated,
}

impl ClientInvite {
    /// An INVITE was sent. Once a provisional answer came, a final one is waited for until `limit`.
    pub fn begin(now: u64, limit: u64) -> Self
        ensures { result ≡ begun now limit }
    {
        ClientInvite::Calling {
            again: later(now, T1_MS),
            pause: T1_MS,
            until: later(now, TIMEOUT_MS),
            limit,
        }
    }

    /// Something happens at a moment: what is to be done.
    pub fn step(&mut self, now: u64, event: ClientEvent) -> ClientAction
        ensures state { self.new ≡ (row self.old now event).0 }
        ensures action { result ≡ (row self.old now event).1 }
    {
        let (state, action) = self.after(now, event);
        *self = state;
        action
    }

    /// The moment from which something is due although nothing else happens.
    pub fn next_due(self) -> Option<u64>
        ensures { result ≡ due_next self }
    {
        match self {
            ClientInvite::Calling { again, until, .. } => Some(again.min(until)),
            ClientInvite::Proceeding { until } | ClientInvite::Completed { until } => Some(until),
            ClientInvite::Terminated => None,
        }
    }

    /// The next state, and what is to be done.
    fn after(self, now: u64, event: ClientEvent) -> (Self, ClientAction)
        ensures { result ≡ row self now event }
    {
        match self {
            ClientInvite::Calling {
                again,
                pause,
                until,
                limit,
            } => {
                if now >= until {
                    (ClientInvite::Terminated, ClientAction::TimedOut)
                } else {
                    calling(again, pause, until, limit, now, event)
                }
            }
            ClientInvite::Proceeding { until } => {
                if now >= until {
                    (ClientInvite::Terminated, ClientAction::TimedOut)
                } else {
                    proceeding(until, now, event)
                }
            }
            ClientInvite::Completed { until } => {
                if now >= until {
                    (ClientInvite::Terminated, ClientAction::Nothing)
                } else {
                    completed(until, event)
                }
            }
            ClientInvite::Terminated => (self, ClientAction::Nothing),
        }
    }
}

/// Something happens while no answer came.
fn calling(
    again: u64,
    pause: u64,
    until: u64,
    limit: u64,
    now: u64,
    event: ClientEvent,
) -> (ClientInvite, ClientAction)
    ensures { result ≡ calling_row again pause until limit now event }
{
    let state = ClientInvite::Calling {
        again,
        pause,
        until,
        limit,
    };
    match event {
        ClientEvent::TimePassed => {
            if now < again {
                return (state, ClientAction::Nothing);
            }
            let pause = doubled(pause);
            let again = later(now, pause);
            (
                ClientInvite::Calling {
                    again,
                    pause,
                    until,
                    limit,
                },
                ClientAction::SendAgain,
            )
        }
        ClientEvent::Answered(status) => answered(limit, now, status),
        ClientEvent::NotSent => (ClientInvite::Terminated, ClientAction::Failed),
        ClientEvent::Cancelled => (state, ClientAction::Nothing),
    }
}

/// Something happens after a provisional answer.
fn proceeding(until: u64, now: u64, event: ClientEvent) -> (ClientInvite, ClientAction)
    ensures { result ≡ proceeding_row until now event }
{
    match event {
        ClientEvent::Answered(status) => answered(until, now, status),
        ClientEvent::Cancelled => (
            ClientInvite::Proceeding {
                until: later(now, TIMEOUT_MS).min(until),
            },
            ClientAction::Nothing,
        ),
        ClientEvent::TimePassed | ClientEvent::NotSent => {
            (ClientInvite::Proceeding { until }, ClientAction::Nothing)
        }
    }
}

/// An answer comes while none or a provisional one came; a final one is waited for until `limit`.
fn answered(limit: u64, now: u64, status: u16) -> (ClientInvite, ClientAction)
    ensures { result ≡ answered_row limit now status }
{
    if status < 200 {
        (
            ClientInvite::Proceeding { until: limit },
            ClientAction::Tell(status),
        )
    } else if status < 300 {
        (ClientInvite::Terminated, ClientAction::Tell(status))
    } else {
        (
            ClientInvite::Completed {
                until: later(now, TIMEOUT_MS),
            },
            ClientAction::TellAndAcknowledge(status),
        )
    }
}

/// Something happens after a refusal.
fn completed(until: u64, event: ClientEvent) -> (ClientInvite, ClientAction)
    ensures { result ≡ completed_row until event }
{
    let state = ClientInvite::Completed { until };
    match event {
        ClientEvent::Answered(status) => {
            if status < 300 {
                (state, ClientAction::Nothing)
            } else {
                (state, ClientAction::AcknowledgeAgain)
            }
        }
        ClientEvent::NotSent => (
            ClientInvite::Terminated,
            ClientAction::AcknowledgementFailed,
        ),
        ClientEvent::TimePassed | ClientEvent::Cancelled => (state, ClientAction::Nothing),
    }
}
