//! Laws of the definitions: functions that do nothing, each of whose contracts is a theorem.
ghost use Rattle.fax_redial.specs.Arriving.{DeliveredTriesAreEvents};
ghost use Rattle.fax_redial.specs.Laws.{EachEndIsToldOnce, NoJobIsTriedTwice, NoJobThatIsOwedIsTried, TriesAreOfTheirJobs};

use sqlite_disk::Disk;

/// No job is tried on two redial lines at one time.
pub fn no_job_is_tried_twice()
    ensures { NoJobIsTriedTwice }
{}

/// No job is tried that its own line owes, which will send it.
pub fn no_job_that_is_owed_is_tried()
    ensures { NoJobThatIsOwedIsTried }
{}

/// Each try is of the job that began last on its redial line, whose numbers are those of the pages that its line was restored with, and goes
/// on from that line by itself.
pub fn tries_are_of_their_jobs()
    ensures { TriesAreOfTheirJobs }
{}

/// Each try that began is on, or its end was told once.
pub fn each_end_is_told_once()
    ensures { EachEndIsToldOnce }
{}

/// The end of a delivered try that `note_end` notes is one of the events of `fax_undelivered::laws::nothing_is_dropped`: where it ends its
/// call, the try began with each page that is let go; else all pages wait, and the next try leaves out none but those.
pub fn delivered_tries_are_events<D: Disk>()
    ensures { DeliveredTriesAreEvents D.seen D.may_leave D.is_usable }
{}
