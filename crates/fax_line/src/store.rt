//! What keeps the pages of a run.
ghost use Rattle.std.specs.Prelude.{List, ℕ};
ghost use Rattle.fax_line.specs.Settling.{RiseByLine};
ghost use Rattle.fax_line.specs.declared.settling.LineReport.{LineReport as LineReportShown};

use crate::settling::{LineReport, PageToStore};
use fax_wires::holding::PageStore;

/// Keeps the pages that the lines of a run confirm, and is told which of them wait no more.
pub trait RunStore: PageStore<PageToStore> {
    /// What it keeps is the same.
    ghost is_same: { Self → Self → Type 0 };

    /// What is made of it where a page of a line, in a call, was confirmed and not handed over.
    ghost notes: { ℕ → ℕ → Self → Self → Type 0 };

    /// What is made of it where jobs of lines ended, with these reports.
    ghost ends: { List LineReportShown → Self → Self → Type 0 };

    /// A page of this line was confirmed in this call, and not handed over, as for want of memory: it is not stored.
    fn note(&mut self, line: usize, call: u32)
        ensures { notes line call self.old self.new };

    /// Of each of these lines the job that was first in turn ended, with this report. They are in the order of their lines, one of a
    /// line at most.
    fn end_jobs(&mut self, ended: &[LineReport])
        requires { RiseByLine ended.now }
        ensures { ends ended.now self.old self.new };
}
