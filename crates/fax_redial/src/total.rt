//! What the reports of a try come to.
ghost use Rattle.std.specs.Prelude.{◌≡◌};
ghost use Rattle.fax_redial.specs.Totals.{failed_by, no_total, total_after, total_if};

use fax_desk::Cause;
use fax_jobs::{Outcome, Report};

/// A job that was not delivered: how it ended, and for what cause its call was not placed, where it was not.
#[derive(Clone, Copy)]
pub struct FailedTry {
    pub outcome: Outcome,
    pub cause: Option<Cause>,
}

/// What the reports of a try came to so far.
#[derive(Clone, Copy)]
pub struct TryTotal {
    /// How many pages were confirmed, from the first on.
    pub delivered: u32,
    /// The first job that was not delivered: a restored call is one job, but where its pages differ in format.
    pub failed: Option<FailedTry>,
}

impl TryTotal {
    /// Nothing was reported.
    pub(crate) fn new() -> Self
        ensures { result ≡ no_total }
    {
        TryTotal {
            delivered: 0,
            failed: None,
        }
    }

    /// A turn reported a job, or none.
    pub(crate) fn and_then(self, report: Option<Report>, cause: Option<Cause>) -> Self
        ensures { result ≡ total_if report cause self }
    {
        match report {
            Some(report) => self.and(report, cause),
            None => self,
        }
    }

    /// A job was reported, whose call was not placed for this cause, or was placed. What is reported after one that was not delivered does
    /// not count.
    fn and(self, report: Report, cause: Option<Cause>) -> Self
        ensures { result ≡ total_after report cause self }
    {
        if self.failed.is_some() {
            return self;
        }
        TryTotal {
            delivered: self.delivered.saturating_add(report.delivered),
            failed: failed_by(report.outcome, cause),
        }
    }
}

/// Where a job ended so, it was not delivered.
fn failed_by(outcome: Outcome, cause: Option<Cause>) -> Option<FailedTry>
    ensures { result ≡ failed_by outcome cause }
{
    match outcome {
        Outcome::Delivered => None,
        Outcome::NotReceiver
        | Outcome::WidthLacking
        | Outcome::FineLacking
        | Outcome::RatesSpent
        | Outcome::NoAnswer
        | Outcome::NoReply
        | Outcome::PageRefused
        | Outcome::HungUp
        | Outcome::NotPlaced => Some(FailedTry { outcome, cause }),
    }
}
