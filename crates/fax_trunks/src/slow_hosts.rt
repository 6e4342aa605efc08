//! The hosts whose credentials were refused.
ghost use Rattle.std.specs.Prelude.{◌≡◌, ◌<◌, ◌≤◌, [], IsTrue, length, not};
ghost use Rattle.std.specs.List.{filter};
ghost use Rattle.arrayvec.specs.ArrayVec.{array_vec_len};
ghost use Rattle.fax_trunks.specs.SlowHosts.{after_failure, is_answered as is_answered_at, slow_of, with_room, without};

use crate::host::Host;
use crate::pauses::later;
use crate::slow_host::{SlowHost, pause_after};
use arrayvec::ArrayVec;
use std::marker::Model;

/// The most hosts that are remembered.
pub const MOST_SLOW_HOSTS: usize = 256;

/// The hosts whose credentials were refused, each once, the one that failed last at the end: 256 at most. Where one more fails the one
/// that failed longest ago is forgotten.
pub struct SlowHosts {
    hosts: ArrayVec<SlowHost, MOST_SLOW_HOSTS>,
}

impl Drop for SlowHosts {
    fn drop(self) {
        let SlowHosts { hosts: _hosts } = self;
    }
}

/// Contracts see the list.
impl Model for SlowHosts {
    ghost use Rattle.std.specs.Prelude.{List};
    ghost use Rattle.fax_trunks.specs.declared.slow_host.SlowHost.{SlowHost};

    ghost Value = { List SlowHost };

    ghost view = { λ slow. slow.hosts.items };
}

impl SlowHosts {
    /// None.
    pub fn new() -> Self
        ensures { result ≡ [] }
    {
        SlowHosts {
            hosts: ArrayVec::new(),
        }
    }

    /// Whether a host is answered at a moment.
    pub fn is_answered(&self, host: Host, now: u64) -> bool
        ensures { result ≡ is_answered_at (slow_of self.now host) now }
    {
        match find(self.hosts.as_slice(), host) {
            None => true,
            Some(slow) => slow.until <= now,
        }
    }

    /// The credentials of a host were refused: it is not answered for 1 s, or twice as long as after it failed last, 60 s at most.
    pub fn fail(&mut self, host: Host, now: u64)
        ensures { self.new ≡ after_failure self.old host now }
    {
        let pause = pause_after(find(self.hosts.as_slice(), host));
        let mut hosts = roomy(others(self.hosts.as_slice(), host));
        hosts.push(SlowHost {
            host,
            pause,
            until: later(now, pause),
        });
        self.hosts = hosts;
    }

    /// The credentials of a host were right: it is forgotten.
    pub fn succeed(&mut self, host: Host)
        ensures { self.new ≡ without self.old host }
    {
        self.hosts = others(self.hosts.as_slice(), host);
    }
}

/// What is remembered of a host.
fn find(hosts: &[SlowHost], host: Host) -> Option<SlowHost>
    ensures { result ≡ slow_of hosts.now host }
{
    hosts.iter().copied().find(|slow| slow.is_of(host))
}

/// What is remembered of all others.
fn others(hosts: &[SlowHost], host: Host) -> ArrayVec<SlowHost, MOST_SLOW_HOSTS>
    requires { length hosts.now ≤ 256 }
    ensures { result.items ≡ without hosts.now host }
{
    let mut others = ArrayVec::new();
    for slow in hosts {
        if !slow.is_of(host) {
            others.push(*slow);
        }
    }
    others
}

/// The same with room for one more.
fn roomy(mut hosts: ArrayVec<SlowHost, MOST_SLOW_HOSTS>) -> ArrayVec<SlowHost, MOST_SLOW_HOSTS>
    ensures hosts { result.items ≡ with_room hosts.items }
    ensures room { array_vec_len result < 256 }
{
    if hosts.is_full() {
        hosts.remove(0);
    }
    hosts
}
