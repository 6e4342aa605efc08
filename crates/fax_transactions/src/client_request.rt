//! The client transaction of a request that is neither an INVITE nor an ACK (RFC 3261, 17.1.2).
ghost use Rattle.std.specs.Prelude.{◌≡◌};
ghost use Rattle.fax_transactions.specs.ClientRequests.{answered_row, begun, next_due as due_next, proceeding_row, row, trying_row};

use crate::client::{ClientAction, ClientEvent};
use crate::spans::{T1_MS, T2_MS, T4_MS, TIMEOUT_MS, later, longer};

/// The client transaction of a request that is neither an INVITE nor an ACK: the states of figure 6 of RFC 3261.
#[derive(Clone, Copy, PartialEq, Eq)]
pub enum ClientRequest {
    /// The request was sent, and no answer came. Timer E is due at `again`, Timer F at `until`.
    Trying { again: u64, pause: u64, until: u64 },
    /// A provisional answer came. Timer E is due at `again`, Timer F at `until`.
    Proceeding { again: u64, until: u64 },
    /// A final answer came: its repeats are passed over until Timer K is due.
    Completed { until: u64 },
    /// It is over.
    Terminated,
}

impl ClientRequest {
    /// A request was sent.
    pub fn begin(now: u64) -> Self
        ensures { result ≡ begun now }
    {
        ClientRequest::Trying {
            again: later(now, T1_MS),
            pause: T1_MS,
            until: later(now, TIMEOUT_MS),
        }
    }

    /// Something happens at a moment: what is to be done.
    pub fn step(&mut self, now: u64, event: ClientEvent) -> ClientAction
        ensures state { self.new ≡ (row self.old now event).0 }
        ensures action { result ≡ (row self.old now event).1 }
    {
        let (state, action) = self.after(now, event);
        *self = state;
        action
    }

    /// The moment from which something is due although nothing else happens.
    pub fn next_due(self) -> Option<u64>
        ensures { result ≡ due_next self }
    {
        match self {
            ClientRequest::Trying { again, until, .. }
            | ClientRequest::Proceeding { again, until } => Some(again.min(until)),
            ClientRequest::Completed { until } => Some(until),
            ClientRequest::Terminated => None,
        }
    }

    /// The next state, and what is to be done.
    fn after(self, now: u64, event: ClientEvent) -> (Self, ClientAction)
        ensures { result ≡ row self now event }
    {
        match self {
            ClientRequest::Trying {
                again,
                pause,
                until,
            } => {
                if now >= until {
                    (ClientRequest::Terminated, ClientAction::TimedOut)
                } else {
                    trying(again, pause, until, now, event)
                }
            }
            ClientRequest::Proceeding { again, until } => {
                if now >= until {
                    (ClientRequest::Terminated, ClientAction::TimedOut)
                } else {
                    proceeding(again, until, now, event)
                }
            }
            ClientRequest::Completed { until } => {
                if now >= until {
                    (ClientRequest::Terminated, ClientAction::Nothing)
                } else {
                    (self, ClientAction::Nothing)
                }
            }
            ClientRequest::Terminated => (self, ClientAction::Nothing),
        }
    }
}

/// Something happens while no answer came.
fn trying(
    again: u64,
    pause: u64,
    until: u64,
    now: u64,
    event: ClientEvent,
) -> (ClientRequest, ClientAction)
    ensures { result ≡ trying_row again pause until now event }
{
    let state = ClientRequest::Trying {
        again,
        pause,
        until,
    };
    match event {
        ClientEvent::TimePassed => {
            if now < again {
                return (state, ClientAction::Nothing);
            }
            let pause = longer(pause);
            let again = later(now, pause);
            (
                ClientRequest::Trying {
                    again,
                    pause,
                    until,
                },
                ClientAction::SendAgain,
            )
        }
        ClientEvent::Answered(status) => answered(again, until, now, status),
        ClientEvent::NotSent => (ClientRequest::Terminated, ClientAction::Failed),
        ClientEvent::Cancelled => (state, ClientAction::Nothing),
    }
}

/// Something happens after a provisional answer.
fn proceeding(again: u64, until: u64, now: u64, event: ClientEvent) -> (ClientRequest, ClientAction)
    ensures { result ≡ proceeding_row again until now event }
{
    let state = ClientRequest::Proceeding { again, until };
    match event {
        ClientEvent::TimePassed => {
            if now < again {
                return (state, ClientAction::Nothing);
            }
            let again = later(now, T2_MS);
            (
                ClientRequest::Proceeding { again, until },
                ClientAction::SendAgain,
            )
        }
        ClientEvent::Answered(status) => answered(again, until, now, status),
        ClientEvent::NotSent => (ClientRequest::Terminated, ClientAction::Failed),
        ClientEvent::Cancelled => (state, ClientAction::Nothing),
    }
}

/// An answer comes while none or a provisional one came.
fn answered(again: u64, until: u64, now: u64, status: u16) -> (ClientRequest, ClientAction)
    ensures { result ≡ answered_row again until now status }
{
    if status < 200 {
        (
            ClientRequest::Proceeding { again, until },
            ClientAction::Tell(status),
        )
    } else {
        (
            ClientRequest::Completed {
                until: later(now, T4_MS),
            },
            ClientAction::Tell(status),
        )
    }
}
