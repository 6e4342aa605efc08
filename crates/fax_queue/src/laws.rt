//! Laws of the definitions: functions that do nothing, each of whose contracts is a theorem.
ghost use Rattle.fax_queue.specs.Lives.{EndsAreActions, OthersAreBeside, OwedIsRestored, OwedStays, PutFirst, PutsAreActions, RestartsAreActions, RestoredQueuesAgree, SlotsArePuts, StoredPagesAreRead, WaitsAreOwed};
ghost use Rattle.fax_queue.specs.Refusals.{NoneIsNoted, NotesStay, RefusalsAreActions, SlotsAreRefusals};
ghost use Rattle.fax_queue.specs.Restorations.{WholeLinesAreRestored};
ghost use Rattle.fax_queue.specs.Queues.{NoneIsForgotten};

use fax_pagestore::laws::{pages_are_unique, written_pages_mean};

pub mod book;
pub mod histories;

/// The record of a job's end names no page but its own: each page that stays on the queue waits on the disk as it did.
pub fn ended_jobs_forget_no_other_page()
    ensures { NoneIsForgotten }
{}

/// After any actions and crashes, what waits on the disk of a line's pages is what is owed.
pub fn what_waits_is_owed()
    ensures { WaitsAreOwed }
{
    pages_are_unique();
}

/// A life begins with what is owed, in the calls that it came in.
pub fn what_is_owed_is_restored()
    ensures { OwedIsRestored }
{
    pages_are_unique();
}

/// A line none of whose calls lacks a page is restored with all of its pages, whatever was damaged of other lines.
pub fn whole_lines_are_restored()
    ensures { WholeLinesAreRestored }
{}

/// Only the end of a job takes a page from what is owed.
pub fn what_is_owed_stays()
    ensures { OwedStays }
{}

/// Nothing that may confirm a page goes out where it was not put; and one that was put is owed.
pub fn pages_are_put_first()
    ensures { PutFirst }
{}

/// What the calls of a server do with pages are actions of its lines.
pub fn calls_are_actions()
    ensures puts { PutsAreActions }
    ensures slots { SlotsArePuts }
    ensures ends { EndsAreActions }
    ensures others { OthersAreBeside }
    ensures restarts { RestartsAreActions }
{}

/// What the calls of a server answer by an `Err` are actions of its lines too.
pub fn refusals_are_actions()
    ensures refusals { RefusalsAreActions }
    ensures slots { SlotsAreRefusals }
    ensures notes { NotesStay }
{}

/// After the end of a job that could not be noted no later end of that life is on the disk.
pub fn no_end_is_noted_after_one_that_was_not()
    ensures { NoneIsNoted }
{}

/// A page that a turn hands over is read back from its record.
pub fn stored_pages_are_read()
    ensures { StoredPagesAreRead }
{
    written_pages_mean();
}

/// As a life begins, each page on the queue of a line waits on the disk.
pub fn restored_queues_agree()
    ensures { RestoredQueuesAgree }
{}
