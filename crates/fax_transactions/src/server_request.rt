//! The server transaction of a request that is neither an INVITE nor an ACK (RFC 3261, 17.2.2).
ghost use Rattle.std.specs.Prelude.{◌≡◌};
ghost use Rattle.fax_transactions.specs.ServerRequests.{answered_row, begun, completed_row, next_due as due_next, proceeding_row, row, trying_row};

use crate::server::{ServerAction, ServerEvent};
use crate::spans::{TIMEOUT_MS, later};

/// The server transaction of a request that is neither an INVITE nor an ACK: the states of figure 8 of RFC 3261.
#[derive(Clone, Copy, PartialEq, Eq)]
pub enum ServerRequest {
    /// Nothing was answered; a final answer is waited for until this moment.
    Trying { until: u64 },
    /// A provisional answer was sent; a final one is waited for until this moment.
    Proceeding { until: u64 },
    /// A final answer was sent: repeats of the request get it again until Timer J is due.
    Completed { until: u64 },
    /// It is over.
    Terminated,
}

impl ServerRequest {
    /// A request came. The user answers before `limit`.
    pub fn begin(limit: u64) -> Self
        ensures { result ≡ begun limit }
    {
        ServerRequest::Trying { until: limit }
    }

    /// Something happens at a moment: what is to be done.
    pub fn step(&mut self, now: u64, event: ServerEvent) -> ServerAction
        ensures state { self.new ≡ (row self.old now event).0 }
        ensures action { result ≡ (row self.old now event).1 }
    {
        let (state, action) = self.after(now, event);
        *self = state;
        action
    }

    /// The moment from which something is due although nothing else happens.
    pub fn next_due(self) -> Option<u64>
        ensures { result ≡ due_next self }
    {
        match self {
            ServerRequest::Trying { until }
            | ServerRequest::Proceeding { until }
            | ServerRequest::Completed { until } => Some(until),
            ServerRequest::Terminated => None,
        }
    }

    /// The next state, and what is to be done.
    fn after(self, now: u64, event: ServerEvent) -> (Self, ServerAction)
        ensures { result ≡ row self now event }
    {
        match self {
            ServerRequest::Trying { until } => {
                if now >= until {
                    (ServerRequest::Terminated, ServerAction::TimedOut)
                } else {
                    trying(until, now, event)
                }
            }
            ServerRequest::Proceeding { until } => {
                if now >= until {
                    (ServerRequest::Terminated, ServerAction::TimedOut)
                } else {
                    proceeding(until, now, event)
                }
            }
            ServerRequest::Completed { until } => {
                if now >= until {
                    (ServerRequest::Terminated, ServerAction::Nothing)
                } else {
                    completed(until, event)
                }
            }
            ServerRequest::Terminated => (self, ServerAction::Nothing),
        }
    }
}

/// Something happens before any answer.
fn trying(until: u64, now: u64, event: ServerEvent) -> (ServerRequest, ServerAction)
    ensures { result ≡ trying_row until now event }
{
    match event {
        ServerEvent::Answered(status) => answered(until, now, status),
        ServerEvent::TimePassed
        | ServerEvent::Repeated
        | ServerEvent::Acknowledged
        | ServerEvent::NotSent => (ServerRequest::Trying { until }, ServerAction::Nothing),
    }
}

/// Something happens after a provisional answer.
fn proceeding(until: u64, now: u64, event: ServerEvent) -> (ServerRequest, ServerAction)
    ensures { result ≡ proceeding_row until now event }
{
    let state = ServerRequest::Proceeding { until };
    match event {
        ServerEvent::Repeated => (state, ServerAction::SendAgain),
        ServerEvent::Answered(status) => answered(until, now, status),
        ServerEvent::NotSent => (ServerRequest::Terminated, ServerAction::Failed),
        ServerEvent::TimePassed | ServerEvent::Acknowledged => (state, ServerAction::Nothing),
    }
}

/// The user answers.
fn answered(until: u64, now: u64, status: u16) -> (ServerRequest, ServerAction)
    ensures { result ≡ answered_row until now status }
{
    if status < 200 {
        (ServerRequest::Proceeding { until }, ServerAction::Send)
    } else {
        (
            ServerRequest::Completed {
                until: later(now, TIMEOUT_MS),
            },
            ServerAction::Send,
        )
    }
}

/// Something happens after a final answer.
fn completed(until: u64, event: ServerEvent) -> (ServerRequest, ServerAction)
    ensures { result ≡ completed_row until event }
{
    let state = ServerRequest::Completed { until };
    match event {
        ServerEvent::Repeated => (state, ServerAction::SendAgain),
        ServerEvent::NotSent => (ServerRequest::Terminated, ServerAction::Failed),
        ServerEvent::TimePassed | ServerEvent::Answered(_) | ServerEvent::Acknowledged => {
            (state, ServerAction::Nothing)
        }
    }
}
