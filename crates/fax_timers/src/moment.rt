//! Moments, of which there may be none.
ghost use Rattle.std.specs.Prelude.{◌≡◌};
ghost use Rattle.fax_timers.specs.Moments.{earlier};

/// The earlier of two moments, in milliseconds, where there is one.
pub fn earlier(one: Option<u64>, other: Option<u64>) -> Option<u64>
    ensures { result ≡ earlier one other }
{
    match (one, other) {
        (None, other) => other,
        (one, None) => one,
        (Some(one), Some(other)) => Some(one.min(other)),
    }
}
