//! When datagrams are sent again.
ghost use Rattle.std.specs.Prelude.{◌≡◌, ◌∷◌, [], ℕ, Option, length, ◌≤◌, slice_get};
ghost use Rattle.fax_wires.specs.repeat.Gaps.{gap_after};

/// How often a datagram is sent again while nothing newer is handed over on its leg.
#[derive(Clone, Copy, PartialEq, Eq)]
pub enum RepeatPolicy {
    /// After 20 ms, and then 40, 80, 160, 320 and 640 ms after the repeat before.
    Full,
    /// Once, after 40 ms.
    Once,
    /// Never.
    Never,
}

impl RepeatPolicy {
    /// How long after the last send it is sent again, in milliseconds, where it was sent so often. `None`: it is not.
    pub(crate) fn gap(self, sends: u8) -> Option<u64>
        ensures { result ≡ gap_after self sends }
    {
        match self {
            RepeatPolicy::Full => match sends {
                1 => Some(20),
                2 => Some(40),
                3 => Some(80),
                4 => Some(160),
                5 => Some(320),
                6 => Some(640),
                _ => None,
            },
            RepeatPolicy::Once => { if sends == 1 { Some(40) } else { None } }
            RepeatPolicy::Never => None,
        }
    }
}
