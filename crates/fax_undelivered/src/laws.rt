//! Laws of what could not be delivered: functions that do nothing, each of whose contracts is a theorem.
ghost use Rattle.fax_undelivered.specs.Calls.{PagesAreListed};
ghost use Rattle.fax_undelivered.specs.Cards.{CardsAreReadBack};
ghost use Rattle.fax_undelivered.specs.Dropped.{EndsAtOnceAreEvents, FailedPutsLeaveJobs, StoredEndsAreEvents, NothingIsDropped};

use sqlite_disk::Disk;

/// A card is read back as it was written.
pub fn cards_are_read_back()
    ensures { CardsAreReadBack }
{}

/// The numbers that are listed of a call are those of its pages, in their order.
pub fn pages_are_listed()
    ensures { PagesAreListed }
{}

/// Whatever befalls both pairs of files over any number of lives, each page that was put with an `Ok`, or lay there at first, was delivered in
/// a job whose end was noted or by a try that had it, or waits in the first pair, or waits in the second, or was dropped by a word.
pub fn nothing_is_dropped()
    ensures { NothingIsDropped }
{}

/// The end of a job that `PairedStore` notes is one of the events of `nothing_is_dropped`: the pages that were not delivered came into the
/// second pair before.
pub fn stored_ends_are_events<D: Disk, U: Disk>()
    ensures { StoredEndsAreEvents
        D.seen D.may_leave D.is_usable D.is_clean U.seen U.may_leave U.is_usable }
{}

/// A job whose pages could not be kept is owed: what waited in the first pair waits there.
pub fn failed_puts_leave_jobs<D: Disk, U: Disk>()
    ensures { FailedPutsLeaveJobs
        D.seen D.may_leave D.is_usable D.is_clean U.seen U.may_leave U.is_usable }
{}

/// So are the ends of jobs that are noted at once, of which each was delivered: one event after the other.
pub fn ends_at_once_are_events<D: Disk>()
    ensures { EndsAtOnceAreEvents D.seen D.may_leave D.is_usable }
{}
