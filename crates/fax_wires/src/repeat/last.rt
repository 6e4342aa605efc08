//! The last datagram of a leg.
ghost use Rattle.std.specs.Prelude.{◌≡◌, ◌<◌, ◌≤◌, ℕ, Bool, true, false, nat_le, List, [], ◌++◌, take, length, OnOk};
ghost use Rattle.fax_wires.specs.repeat.Gaps.{gaps};
ghost use Rattle.fax_wires.specs.repeat.Policies.{ceased, after, earlier_of, has_come, kept_of, repeated, unknown};
ghost use Rattle.fax_wires.specs.repeat.Repeats.{IsWithin, same_octets};

use crate::repeat::policy::RepeatPolicy;
use std::marker::Model;

/// The most octets of a datagram that is sent again.
const MOST_REPEATED: usize = 1500;

/// At most 1,500 octets, in place.
pub(crate) struct Held {
    octets: [u8; 1500],
    count: usize,
}

impl Drop for Held {
    fn drop(self) {
        let Held {
            octets: _octets,
            count: _count,
        } = self;
    }
}

impl Model for Held {
    ghost use Rattle.std.specs.Prelude.{ℕ, List, take, ◌≤◌};

    ghost Value = { List ℕ };

    ghost view = { λ held. take held.count held.octets };

    ghost invariant = { λ held. held.count ≤ 1500 };
}

impl Held {
    /// No octets.
    pub fn new() -> Self
        ensures { result ≡ [] }
    {
        Held {
            octets: [0; 1500],
            count: 0,
        }
    }

    /// Holds these octets.
    pub fn set(&mut self, octets: &[u8])
        requires { length octets.now ≤ 1500 }
        ensures { self.new ≡ octets.now }
    {
        self.octets[..octets.len()].copy_from_slice(octets);
        self.count = octets.len();
    }

    pub fn as_slice(&self) -> &[u8]
        ensures { result.now ≡ self.now }
    {
        &self.octets[..self.count]
    }
}

/// The last datagram that was handed over on a leg.
pub(crate) struct Last {
    octets: Held,
    /// How often it was sent. 0: none is known.
    sends: u8,
    /// From which moment on it is sent again.
    due: Option<u64>,
}

impl Drop for Last {
    fn drop(self) {
        let Last {
            octets: _octets,
            sends: _sends,
            due: _due,
        } = self;
    }
}

impl Model for Last {
    ghost use Rattle.fax_wires.specs.repeat.Policies.{LastValue};

    ghost Value = { LastValue };

    ghost view = { λ last. record { octets = last.octets; sends = last.sends; due = last.due } };
}

impl Last {
    /// None is known.
    pub fn new() -> Self
        ensures { result ≡ unknown }
    {
        Last {
            octets: Held::new(),
            sends: 0,
            due: None,
        }
    }

    /// A datagram is handed over at this moment, and is the last. It answers whether it is kept, and is known to be another
    /// one than the last before.
    pub fn hand(&mut self, policy: RepeatPolicy, now: u64, octets: &[u8]) -> bool
        ensures kept { self.new ≡ kept_of policy now octets.now }
        ensures short { result ≡ true → nat_le (length octets.now) 1500 ≡ true }
        ensures other { result ≡ true
            → 0 < self.old.sends → same_octets octets.now self.old.octets ≡ false }
    {
        if octets.len() > MOST_REPEATED {
            *self = Last::new();
            return false;
        }
        let is_other = self.sends == 0 || !self.is_like(octets);
        self.octets.set(octets);
        self.sends = 1;
        self.due = moment_after(now, policy.gap(1));
        is_other
    }

    /// Whether it has these octets.
    fn is_like(&self, octets: &[u8]) -> bool
        ensures { result ≡ same_octets octets.now self.now.octets }
    {
        octets == self.octets.as_slice()
    }

    /// Its octets.
    pub fn octets(&self) -> &[u8]
        ensures { result.now ≡ self.now.octets }
    {
        self.octets.as_slice()
    }

    /// Whether it is to be sent again at this moment.
    pub fn is_due(&self, now: u64) -> bool
        ensures { result ≡ has_come self.now.due now }
    {
        match self.due {
            None => false,
            Some(moment) => moment <= now,
        }
    }

    /// It was sent again at this moment.
    pub fn repeat(&mut self, policy: RepeatPolicy, now: u64)
        requires due { has_come self.old.due now ≡ true }
        requires within { IsWithin policy self.old }
        ensures { self.new ≡ repeated policy now self.old }
    {
        self.sends += 1;
        self.due = moment_after(now, policy.gap(self.sends));
    }

    /// It is sent no more.
    pub fn cease(&mut self)
        ensures { self.new ≡ ceased self.old }
    {
        self.due = None;
    }

    /// From which moment on it is sent again.
    pub fn due(&self) -> Option<u64>
        ensures { result ≡ self.now.due }
    {
        self.due
    }
}

/// The moment that lies so long after another one; at most the greatest.
fn moment_after(now: u64, gap: Option<u64>) -> Option<u64>
    ensures { result ≡ after now gap }
{
    match gap {
        None => None,
        Some(gap) => Some(now.saturating_add(gap)),
    }
}

/// The earlier one of two moments.
pub(crate) fn earlier(one: Option<u64>, other: Option<u64>) -> Option<u64>
    ensures { result ≡ earlier_of one other }
{
    match one {
        None => other,
        Some(moment) => match other {
            None => Some(moment),
            Some(other) => Some(moment.min(other)),
        },
    }
}
