//! Which legs have datagrams, as the system tells it.
use crate::seen::SeenLines;
use fax_gateway::Leg;
use mio::unix::SourceFd;
use mio::{Events, Interest, Poll, Token};
use std::alloc::Global;
use std::io;
use std::net::Net;
use std::time::Duration;

/// The most lines that are watched: as many as a configuration has.
const MOST_LINES: usize = 4_000;

/// The most legs that are told of at once.
const MOST_EVENTS: usize = 1_024;

/// Watches the legs of lines. The socket of a leg that is watched is asked for a datagram only where the system told that
/// one came, so that a leg on which nothing comes costs no call of the system.
pub struct Watch {
    poll: Poll,
    events: Events,
}

impl Drop for Watch {
    fn drop(self) {
        let Watch {
            poll: _poll,
            events: _events,
        } = self;
    }
}

impl Watch {
    /// Watches these lines. An `Err` is that of the system: then no leg is watched, and each is asked each time.
    pub fn new<S: SeenLines>(net: &impl Net, alloc: Global, seen: &S) -> io::Result<Self> {
        let poll = Poll::new(net)?;
        let events = Events::with_capacity(alloc, MOST_EVENTS)?;
        match watch_lines(&poll, seen) {
            Ok(()) => Ok(Watch { poll, events }),
            Err(error) => {
                leave_lines(seen);
                Err(error)
            }
        }
    }

    /// Wakes each leg on which a datagram came since this was asked last, and adds its line to those that are to be woken.
    pub(crate) fn look<S: SeenLines>(&mut self, seen: &S, woken: &mut Vec<usize>) {
        if self
            .poll
            .poll(&mut self.events, Some(Duration::ZERO))
            .is_err()
        {
            return;
        }
        for event in self.events.iter() {
            let Token(token) = event.token();
            let leg = if token % 2 == 0 {
                Leg::Calling
            } else {
                Leg::Called
            };
            let i = token / 2;
            if i < seen.len() {
                seen.wake(i, leg);
                let _ = woken.push(i);
            }
        }
    }
}

/// The legs of all lines are watched from now on.
fn watch_lines<S: SeenLines>(poll: &Poll, seen: &S) -> io::Result<()> {
    for i in 0..seen.len().min(MOST_LINES) {
        watch_leg(poll, seen, i, Leg::Calling, Token(2 * i))?;
        watch_leg(poll, seen, i, Leg::Called, Token(2 * i + 1))?;
    }
    Ok(())
}

/// No leg is watched.
fn leave_lines<S: SeenLines>(seen: &S) {
    for i in 0..seen.len() {
        seen.set_watched(i, Leg::Calling, false);
        seen.set_watched(i, Leg::Called, false);
    }
}

/// A leg of line i is watched from now on.
fn watch_leg<S: SeenLines>(
    poll: &Poll,
    seen: &S,
    i: usize,
    leg: Leg,
    token: Token,
) -> io::Result<()> {
    if let Some(descriptor) = seen.descriptor(i, leg) {
        poll.registry()
            .register(&mut SourceFd(&descriptor), token, Interest::READABLE)?;
        seen.set_watched(i, leg, true);
    }
    Ok(())
}
