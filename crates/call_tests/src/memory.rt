//! What was refused memory. Nothing in a test can refuse it: `tools/refuse-test-memory` does, from outside, each allocation in
//! turn, and reads what the test prints.
use std::process::Abort;

/// Says what was refused, once at most: a call.
pub(crate) fn refused(rt: &impl Abort, calls: u64) -> &'static str {
    match calls {
        0 => "nothing",
        1 => "a call",
        _ => rt.abort(),
    }
}
