//! What is told of a job that ended.
use crate::Outcome;
use fax_pagestore::Format;
use std::fmt;

/// What is told of a job that ended.
#[derive(Clone, Copy, PartialEq, Eq)]
pub struct Report {
    /// The number of the call that its pages came in.
    pub call: u32,
    /// The format of its first page.
    pub format: Format,
    /// How many pages it had.
    pub pages: u32,
    /// How many of them the called machine confirmed.
    pub delivered: u32,
    /// How it ended.
    pub outcome: Outcome,
}

/// Prints `job`, the number of the call, the width in elements, the resolution, the pages, how many of them were delivered, and
/// how the job ended, with one space between.
impl fmt::Display for Report {
    ghost use Rattle.std.specs.Prelude.{Some};
    ghost use Rattle.fax_jobs.specs.ReportTexts.{report_text};

    ghost output = { λ report. Some (report_text report) };

    fn fmt<W: fmt::Write>(&self, f: &mut fmt::Formatter<W>) -> fmt::Result {
        let Report {
            call,
            format,
            pages,
            delivered,
            outcome,
        } = *self;
        let width = format.width.elements();
        let resolution = if format.fine { "fine" } else { "standard" };
        write!(
            f,
            "job {call} {width} {resolution} {pages} {delivered} {outcome}"
        )
    }
}
