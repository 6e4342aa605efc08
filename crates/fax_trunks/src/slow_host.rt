//! A host whose credentials were refused.
ghost use Rattle.std.specs.Prelude.{◌≡◌};
ghost use Rattle.fax_trunks.specs.SlowHosts.{is_of as is_about, pause_after as pause_then};

use crate::host::Host;

/// How long a host is not answered after its first failure, in milliseconds (this project's profile).
pub const FIRST_SLOW_MS: u64 = 1_000;
/// How long it is not answered after many, in milliseconds (this project's profile).
pub const LONGEST_SLOW_MS: u64 = 60_000;

/// A host whose credentials were refused.
#[derive(Clone, Copy, Default)]
pub struct SlowHost {
    /// Which one.
    pub host: Host,
    /// How long it was not to be answered after it failed last, in milliseconds.
    pub pause: u64,
    /// The moment from which it is answered again.
    pub until: u64,
}

impl SlowHost {
    /// Whether this is about a host.
    pub(crate) fn is_of(&self, host: Host) -> bool
        ensures { result ≡ is_about host self.now }
    {
        host.family.is_same(self.host.family) && host.bits == self.host.bits
    }
}

/// How long a host is not answered after it failed once more, in milliseconds.
pub(crate) fn pause_after(slow: Option<SlowHost>) -> u64
    ensures { result ≡ pause_then slow }
{
    match slow {
        None => FIRST_SLOW_MS,
        Some(slow) => slow.pause.saturating_add(slow.pause).min(LONGEST_SLOW_MS),
    }
}
