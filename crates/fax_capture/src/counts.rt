//! How many datagrams a capture has, by whom they came from, and in how many calls.
ghost use Rattle.std.specs.Prelude.{◌≡◌};
ghost use Rattle.fax_capture.specs.Counts.{counts_of_call, counts_of_other, counts_of_whole, counts_told, counts_with, no_counts, one_less, one_more, one_more_if};

use crate::address::Role;
use crate::machines::Machines;
use crate::signal::seems_exchanged;

/// How many datagrams of a capture came from whom. 2^64 - 1 says that there are as many, or more.
#[derive(Clone, Copy, PartialEq, Eq)]
pub struct Counts {
    /// The two machines, as far as they are known at the end.
    pub machines: Machines,
    pub from_caller: u64,
    pub from_called: u64,
    /// One of the two machines sent these, in fragments that were not put together: they were passed over.
    pub in_fragments: u64,
    /// Neither of the two machines sent these, nor was any sent to one of them.
    pub passed_over: u64,
    /// The calls of the caller, at least 1.
    pub calls: u64,
    /// These are in other calls than the one that is asked for.
    pub of_other_calls: u64,
    /// With these the caller answers a call (CED), or the called machine makes one (CNG).
    pub exchanged: u64,
}

impl Counts {
    /// Of a capture of which nothing was read, where these machines are known.
    pub(crate) fn new(machines: Machines) -> Counts
        ensures { result ≡ no_counts machines }
    {
        Counts {
            machines,
            from_caller: 0,
            from_called: 0,
            in_fragments: 0,
            passed_over: 0,
            calls: 1,
            of_other_calls: 0,
            exchanged: 0,
        }
    }

    /// With one datagram more.
    pub(crate) fn with(self, role: Role) -> Counts
        ensures { result ≡ counts_with self role }
    {
        let mut counts = self;
        match role {
            Role::FromCaller => counts.from_caller = one_more(self.from_caller),
            Role::FromCalled => counts.from_called = one_more(self.from_called),
            Role::CallerInFragments | Role::CalledInFragments => {
                counts.in_fragments = one_more(self.in_fragments)
            }
            Role::ToCaller | Role::ToCalled => {}
            Role::Unrelated => counts.passed_over = one_more(self.passed_over),
        }
        counts
    }

    /// With one datagram more that is told.
    pub(crate) fn with_told(self, role: Role, octets: &[u8]) -> Counts
        ensures { result ≡ counts_told self role octets.now }
    {
        Counts {
            exchanged: one_more_if(seems_exchanged(role, octets), self.exchanged),
            ..self.with(role)
        }
    }

    /// Where one of those in fragments was put together.
    pub(crate) fn with_whole(self) -> Counts
        ensures { result ≡ counts_of_whole self }
    {
        Counts {
            in_fragments: one_less(self.in_fragments),
            ..self
        }
    }

    /// With one call more, where one begins anew.
    pub(crate) fn with_call(self, begins: bool) -> Counts
        ensures { result ≡ counts_of_call self begins }
    {
        Counts {
            calls: one_more_if(begins, self.calls),
            ..self
        }
    }

    /// With one datagram more of another call than is asked for.
    pub(crate) fn with_other(self) -> Counts
        ensures { result ≡ counts_of_other self }
    {
        Counts {
            of_other_calls: one_more(self.of_other_calls),
            ..self
        }
    }
}

/// One more, as far as 64 bits count.
fn one_more(count: u64) -> u64
    ensures { result ≡ one_more count }
{
    count.saturating_add(1)
}

/// One less, where it is known how many there are.
fn one_less(count: u64) -> u64
    ensures { result ≡ one_less count }
{
    if count == u64::MAX {
        count
    } else {
        count.saturating_sub(1)
    }
}

/// One more where something is so.
fn one_more_if(holds: bool, count: u64) -> u64
    ensures { result ≡ one_more_if holds count }
{
    if holds { one_more(count) } else { count }
}
