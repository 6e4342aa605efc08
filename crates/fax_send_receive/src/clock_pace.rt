//! The time of a terminal, by the clock.
ghost use Rattle.std.specs.Prelude.{IfErr};
ghost use Rattle.fax_send_receive.specs.Faults.{IsClockFault};

use crate::run_fault::RunFault;
use crate::watch::Watch;
use fax_terminal::Pace;
use libc::net::{POLLIN, poll};
use libc::types::pollfd;
use std::net::UdpSocket;
use std::os::fd::{AsRawFd, RawFd};
use std::rt::Clock;
use std::time::Instant;

/// How long a terminal waits at once in a call, in milliseconds.
const WAIT_MS: i32 = 5;

/// The time of a clock, from a start on. Its waits end where a datagram comes.
#[derive(Drop)]
pub(crate) struct ClockPace<'a, H: Clock> {
    host: &'a H,
    watch: &'a Watch,
    start: Instant,
    descriptor: RawFd,
}

impl<'a, H: Clock> ClockPace<'a, H> {
    /// A time that begins now, whose waits end where a datagram comes to this socket.
    pub(crate) fn new(
        host: &'a H,
        watch: &'a Watch,
        socket: &UdpSocket,
    ) -> Result<Self, RunFault<'static>>
        ensures { IfErr result IsClockFault }
    {
        let start = Instant::now(host)?;
        Ok(ClockPace {
            host,
            watch,
            start,
            descriptor: socket.as_raw_fd(),
        })
    }

    /// Waits so many milliseconds at most, and tells the moment. `None`: the clock does not tell.
    pub(crate) fn wait_for(&self, most_ms: i32) -> Option<u64> {
        let mut asked = [pollfd {
            fd: self.descriptor,
            events: POLLIN,
            revents: 0,
        }];
        // what came of it shows at the next receive
        let _ = poll(&mut asked, most_ms);
        let passed = self.start.elapsed(self.host).ok()?;
        u64::try_from(passed.as_millis()).ok()
    }
}

impl<H: Clock> Pace for ClockPace<'_, H> {
    fn wait(&mut self) -> Option<u64> {
        self.wait_for(WAIT_MS)
    }

    fn tell(&mut self, delivered: u32) {
        self.watch.tell_progress("delivered: page", delivered);
    }
}
