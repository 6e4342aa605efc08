//! The law of a whole run: it joins what the turns of a line leave with the lives of its gateway.
ghost use Rattle.fax_queue.specs.Histories.{OpeningsFindWhatWaits, RunsMakeHistory};
ghost use Rattle.fax_queue.specs.NotedRuns.{NewLinesHaveWholePasts, RestartsFindWhatIsLeft, RunsNoteAll};
ghost use Rattle.fax_queue.specs.OnLeg.{UnputPagesLetNothingOut};

use crate::laws::book::{servers_lose_none, turns_tell_both};
use crate::laws::what_is_owed_is_restored;
use crate::on_disk::OnDisk;
use fax_gateway::laws::{confirms_the_newest, jobs_are_of_their_calls};
use fax_pagestore::laws::{pages_are_unique, pages_are_written, written_pages_mean};
use fax_spool::laws::openings_find_what_crashes_leave;
use sqlite_disk::Disk;

/// Each run of lines whose pages are stored leaves of each of them actions that are those of the lives of its gateway, with one life more:
/// whatever came over the wires, whatever was ordered, whichever puts failed, and wherever it stops. What a line's wire let out on the
/// calling leg is what the ticks of that life gave, but where a page was not put with an `Ok`, and then nothing until the next call.
pub fn runs_make_history<D: Disk, K: OnDisk<D>>()
    ensures { RunsMakeHistory D.seen D.may_leave D.is_usable K.queues_of K.spool_of }
{
    turns_tell_both();
    confirms_the_newest();
    jobs_are_of_their_calls();
    pages_are_written();
    written_pages_mean();
    pages_are_unique();
    what_is_owed_is_restored();
}

/// A run in which all puts of a line's pages and all ends of its jobs answered `Ok` leaves it a past in which all was put and noted,
/// where it had one, with one life more, whatever crash follows, and whatever became of other lines.
pub fn runs_note_all<D: Disk, K: OnDisk<D>>()
    ensures { RunsNoteAll D.seen D.may_leave D.is_usable K.queues_of K.spool_of }
{
    turns_tell_both();
    confirms_the_newest();
    jobs_are_of_their_calls();
    pages_are_written();
    written_pages_mean();
    pages_are_unique();
    what_is_owed_is_restored();
}

/// After a past in which all was put and noted a restart finds what is owed, and nothing else: just the pages that the gateway's book
/// had left. So no job that was reported is sent again. A line of which no page waits has such a past.
pub fn restarts_find_what_is_left()
    ensures found { RestartsFindWhatIsLeft }
    ensures begins { NewLinesHaveWholePasts }
{
    what_is_owed_is_restored();
    servers_lose_none();
}

/// Where the actions of a line's wire are those of a trace, a tick that confirms a page lets nothing out on the calling leg unless that page
/// was put with an `Ok`.
pub fn unput_pages_let_nothing_out()
    ensures { UnputPagesLetNothingOut }
{}

/// An opening finds the pages that wait by the records of both files, whichever of them it is handed first: there a run begins.
pub fn openings_find_what_waits<D: Disk>()
    ensures { OpeningsFindWhatWaits D.seen D.may_leave D.is_usable }
{
    openings_find_what_crashes_leave::<D>();
}
