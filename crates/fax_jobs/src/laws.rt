//! Laws of the book: functions that do nothing, each of whose contracts is a theorem. A book is told of over its steps:
//! pages are confirmed, calls end, jobs are sent and end, in any order.
ghost use Rattle.fax_jobs.specs.Cuts.{CutsEachCall, KeepsJobs, CutsAreOne, HoldsEachPageOnce};
ghost use Rattle.fax_jobs.specs.Pasts.{ReportsEachJob};

/// The confirmations of a call, of pages of any formats, are cut into jobs after one for EOP, after the 999th page of a
/// job and at the end of the call, and nowhere else; these jobs are closed after those that were, whatever is sent and
/// ends meanwhile. While the call is on, the open job is the rest of them; when it has ended, none is open.
pub fn cuts_each_call()
    ensures { CutsEachCall }
{}

/// While no call is on, the jobs that were closed stay the same, in their order, and none is open.
pub fn keeps_jobs()
    ensures { KeepsJobs }
{}

/// The confirmations of a call are cut into jobs in one way only.
pub fn cuts_are_one()
    ensures { CutsAreOne }
{}

/// The pages of the jobs of a call are its confirmed pages, in their order, each once.
pub fn holds_each_page_once()
    ensures { HoldsEachPageOnce }
{}

/// Each job that ended was reported once, in the order in which they ended, and the book has the last 64 reports.
pub fn reports_each_job()
    ensures { ReportsEachJob }
{}
