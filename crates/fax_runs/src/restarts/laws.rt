//! Laws of the definitions: functions that do nothing, each of whose contracts is a theorem.
ghost use Rattle.fax_runs.specs.restarts.Crossings.{NewFilesHaveNoPast, RunsCross, RunsGoOn, RunsJoin, RunsLead, StoppedOpeningsLeaveThePast};
ghost use Rattle.fax_runs.specs.restarts.Files.{PastsHaveFiles};
ghost use Rattle.fax_runs.specs.restarts.Kills.{KilledRunsCross, RunsCanBeCut};
ghost use Rattle.fax_runs.specs.restarts.WholePasts.{NewFilesHaveWholePasts, OpeningsFindWhatIsLeft, WholePastsHaveFiles, WholeRunsCross};

use fax_queue::OnDisk;
use fax_queue::laws::histories::{
    openings_find_what_waits, restarts_find_what_is_left, runs_make_history, runs_note_all,
};
use fax_spool::laws::{
    crashes_leave_what_waits, new_spools_tell_none, stopped_openings_leave_what_waits,
};
use sqlite_disk::Disk;

/// Over two files that tell nothing a line has a past in which nothing was done.
pub fn new_files_have_no_past()
    ensures { NewFilesHaveNoPast }
{
    new_spools_tell_none();
}

/// Openings that stop leave the past, however many of them.
pub fn stopped_openings_leave_the_past()
    ensures { StoppedOpeningsLeaveThePast }
{
    stopped_openings_leave_what_waits();
}

/// A run leads from what its files held to whatever a crash leaves of them: the line has one life more, which is that run.
pub fn runs_cross<D: Disk, K: OnDisk<D>>()
    ensures { RunsCross D.seen D.may_leave D.is_usable K.queues_of K.spool_of }
{
    openings_find_what_waits::<D>();
    runs_make_history::<D, K>();
    crashes_leave_what_waits::<D>();
}

/// After whichever of its orders the process of a run is killed, it was a run so far, which leads from what its files held to whatever
/// that leaves of them.
pub fn killed_runs_cross<D: Disk, K: OnDisk<D>>()
    ensures cut { RunsCanBeCut D.seen D.may_leave D.is_usable K.queues_of K.spool_of }
    ensures crosses { KilledRunsCross D.seen D.may_leave D.is_usable K.queues_of K.spool_of }
{
    runs_cross::<D, K>();
}

/// Any number of runs, each over files of a type of its own, from new files on, whatever crashes came between them, and however many
/// openings stopped: the line has a past with one life for each of them.
pub fn runs_join()
    ensures { RunsJoin }
{
    new_spools_tell_none();
    stopped_openings_leave_what_waits();
}

/// A run may be any of these, by what its files held and what a crash left of them; and after any number of them it is one life more,
/// whatever a crash leaves.
pub fn runs_go_on<D: Disk, K: OnDisk<D>>()
    ensures leads { RunsLead D.seen D.may_leave D.is_usable K.queues_of K.spool_of }
    ensures goes_on { RunsGoOn D.seen D.may_leave D.is_usable K.queues_of K.spool_of }
{
    runs_join();
    runs_cross::<D, K>();
}

/// Each past of a line can be had over files that are not empty.
pub fn pasts_have_files()
    ensures { PastsHaveFiles }
{}

/// A run in which all puts of a line's pages and all ends of its jobs answered `Ok` leads from files to files over which all of it was put
/// and noted, where it began over such files, whatever a crash leaves: so any number of them. New files are such.
pub fn whole_runs_cross<D: Disk, K: OnDisk<D>>()
    ensures begins { NewFilesHaveWholePasts }
    ensures crosses { WholeRunsCross D.seen D.may_leave D.is_usable K.queues_of K.spool_of }
{
    new_spools_tell_none();
    restarts_find_what_is_left();
    openings_find_what_waits::<D>();
    runs_note_all::<D, K>();
    crashes_leave_what_waits::<D>();
}

/// A restart over such files finds what is owed, and nothing else: no job that was reported is sent again.
pub fn openings_find_what_is_left<D: Disk>()
    ensures { OpeningsFindWhatIsLeft D.seen D.may_leave D.is_usable }
{
    openings_find_what_waits::<D>();
    restarts_find_what_is_left();
}

/// Each past in which all was put and noted can be had over files that are not empty.
pub fn whole_pasts_have_files()
    ensures { WholePastsHaveFiles }
{}
