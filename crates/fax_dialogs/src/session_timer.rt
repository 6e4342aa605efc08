//! The timer of a session.
ghost use Rattle.std.specs.Prelude.{◌≡◌};
ghost use Rattle.fax_dialogs.specs.Timers.{agreed, expiry, event_row, next_due as due_next, refreshing_row, row};

use crate::refresher::Refresher;
use crate::spans::later;

/// What happens to the timer of a session.
#[derive(Clone, Copy, PartialEq, Eq)]
pub enum TimerEvent {
    /// Time passed.
    TimePassed,
    /// A 2xx to an INVITE was sent, or came: this interval in seconds, and who refreshes (RFC 4028, 7.2 and 9).
    Agreed(u32, Refresher),
    /// A 2xx to an INVITE was sent, or came, that has no interval.
    NotAgreed,
}

/// What is to be done for the timer of a session.
#[derive(Clone, Copy, PartialEq, Eq)]
pub enum TimerAction {
    /// Nothing.
    Nothing,
    /// We refresh the session: a re-INVITE is sent.
    Refresh,
    /// No refresh came in time: the session ends by BYE.
    Expire,
}

/// The timer of a session (RFC 4028, 10).
#[derive(Clone, Copy, PartialEq, Eq)]
pub enum SessionTimer {
    /// The session has no interval.
    Off,
    /// We refresh the session at `at`; it ends at `until` where no 2xx comes.
    Refreshing { at: u64, until: u64 },
    /// A 2xx to a refresh is waited for until this moment.
    Waiting { until: u64 },
}

impl SessionTimer {
    /// Something happens at a moment: what is to be done.
    pub fn step(&mut self, now: u64, event: TimerEvent) -> TimerAction
        ensures state { self.new ≡ (row self.old now event).0 }
        ensures action { result ≡ (row self.old now event).1 }
    {
        let (state, action) = self.after(now, event);
        *self = state;
        action
    }

    /// The moment from which something is due although nothing else happens.
    pub fn next_due(self) -> Option<u64>
        ensures { result ≡ due_next self }
    {
        match self {
            SessionTimer::Off => None,
            SessionTimer::Refreshing { at, until } => Some(at.min(until)),
            SessionTimer::Waiting { until } => Some(until),
        }
    }

    /// The next state, and what is to be done.
    fn after(self, now: u64, event: TimerEvent) -> (Self, TimerAction)
        ensures { result ≡ row self now event }
    {
        match self {
            SessionTimer::Off => self.heard(now, event),
            SessionTimer::Refreshing { at, until } => {
                if now >= until {
                    (SessionTimer::Off, TimerAction::Expire)
                } else {
                    refreshing(at, until, now, event)
                }
            }
            SessionTimer::Waiting { until } => {
                if now >= until {
                    (SessionTimer::Off, TimerAction::Expire)
                } else {
                    self.heard(now, event)
                }
            }
        }
    }

    /// The next state where nothing is due.
    fn heard(self, now: u64, event: TimerEvent) -> (Self, TimerAction)
        ensures { result ≡ event_row self now event }
    {
        let state = match event {
            TimerEvent::TimePassed => self,
            TimerEvent::Agreed(seconds, refresher) => agree(now, seconds, refresher),
            TimerEvent::NotAgreed => SessionTimer::Off,
        };
        (state, TimerAction::Nothing)
    }
}

/// Something happens before the end of a session that we refresh.
fn refreshing(at: u64, until: u64, now: u64, event: TimerEvent) -> (SessionTimer, TimerAction)
    ensures { result ≡ refreshing_row at until now event }
{
    let state = SessionTimer::Refreshing { at, until };
    match event {
        TimerEvent::TimePassed => {
            if now >= at {
                (SessionTimer::Waiting { until }, TimerAction::Refresh)
            } else {
                (state, TimerAction::Nothing)
            }
        }
        TimerEvent::Agreed(_, _) | TimerEvent::NotAgreed => state.heard(now, event),
    }
}

/// An interval is agreed on.
fn agree(now: u64, seconds: u32, refresher: Refresher) -> SessionTimer
    ensures { result ≡ agreed now seconds refresher }
{
    let span = 1_000 * seconds as u64;
    let until = later(now, expiry_of(span));
    match refresher {
        Refresher::We => SessionTimer::Refreshing {
            at: later(now, span / 2),
            until,
        },
        Refresher::They => SessionTimer::Waiting { until },
    }
}

/// When a session that is not refreshed ends, after so long an interval.
fn expiry_of(span: u64) -> u64
    ensures { result ≡ expiry span }
{
    span - (span / 3).min(32_000)
}
