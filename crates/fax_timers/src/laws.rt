//! Laws of the definitions: functions that do nothing, each of whose contracts is a theorem.
ghost use Rattle.std.specs.Prelude.{◌≡◌};
ghost use Rattle.fax_timers.specs.Laws.{DueIsTested, IsAllowedFrom};
ghost use Rattle.fax_timers.specs.Spans.{t1, t2, t4, pace, longest_pause};

use crate::spans::{LONGEST_PAUSE_MS, PACE_MS, T1_MS, T2_MS, T4_MS};

/// The constants are the spans that they are named after.
pub fn spans_are_those_of_the_standard()
    ensures t1 { T1_MS ≡ t1 }
    ensures t2 { T2_MS ≡ t2 }
    ensures t4 { T4_MS ≡ t4 }
    ensures pace { PACE_MS ≡ pace }
    ensures longest_pause { LONGEST_PAUSE_MS ≡ longest_pause }
{}

/// The test of a timer says when it is due.
pub fn due_is_tested()
    ensures { DueIsTested }
{}

/// The pace lets a packet through from one moment on.
pub fn pace_allows_from_a_moment()
    ensures { IsAllowedFrom }
{}
