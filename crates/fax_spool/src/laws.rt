//! Laws of spools: functions that do nothing, each of whose contracts is a theorem.
ghost use Rattle.fax_spool.specs.Calls.{CrashesLeaveWhatWaits, NewSpoolsTellNone, OneWithoutAnOk};
ghost use Rattle.fax_spool.specs.Opened.{OpeningsFindWhatCrashesLeave};
ghost use Rattle.fax_spool.specs.Stopped.{OpeningsLeaveTheirEpoch, StoppedOpeningsLeaveWhatWaits};
ghost use Rattle.fax_spool.specs.Waits.{SharesWhatWaits};
ghost use Rattle.fax_spool.specs.Records.{StandsForOneList};
ghost use Rattle.fax_spool.specs.Harm.{HarmKeepsTheOrder, HarmLosesItsOwn, LostPagesTearTheirCall, OneHarmKeepsTheOrder};
ghost use Rattle.fax_spool.specs.Torn.{NothingIsTornWithoutDamage};
ghost use Rattle.fax_spool.specs.Turned.{OneTurnedOctet};
ghost use Rattle.fax_spool.specs.Spools.{TellsOneList};

use sqlite_disk::Disk;

/// A file stands for one list of records.
pub fn files_stand_for_one_list()
    ensures { StandsForOneList }
{}

/// One octet that was turned, anywhere in a file as it was written, harms one record at most: the file stands for as many records,
/// each of the length that it had.
pub fn one_turned_octet()
    ensures { OneTurnedOctet }
{}

/// A file tells one list of records. So what is read of a file after a crash is what the clauses `crash` of a spool's calls tell
/// of it, each number as it was put.
pub fn records_are_read_back()
    ensures { TellsOneList }
{}

/// Whatever calls a spool had, each crash leaves what those did that answered `Ok`, and at most one call more: the put of some pages,
/// or the end of a job.
pub fn one_call_at_most_is_done_without_an_ok<D: Disk>()
    ensures { OneWithoutAnOk D.seen D.may_leave D.is_usable }
{}

/// What waits by the records of both files is what is left of the older one's pages after the newer one's records, and then what
/// waits by these. So where nothing is left of the older one's pages, its records say nothing that those of the newer one do not.
pub fn files_share_what_waits()
    ensures { SharesWhatWaits }
{}

/// Whatever crash comes between two calls, the files tell the pages that wait, and which of them is the older one.
pub fn crashes_leave_what_waits<D: Disk>()
    ensures { CrashesLeaveWhatWaits D.seen D.may_leave D.is_usable }
{}

/// An opening finds what a crash left, whichever of both files it is handed first: just the pages that wait by them wait in the spool
/// that was opened, and are told. So the files are found in the order in which they were used.
pub fn openings_find_what_crashes_leave<D: Disk>()
    ensures { OpeningsFindWhatCrashesLeave D.seen D.may_leave D.is_usable }
{}

/// By two files that tell no record no page waits.
pub fn new_spools_tell_none()
    ensures { NewSpoolsTellNone }
{}

/// However many openings stopped before one is through, the files tell the pages that waited, and which of them is the older one.
pub fn stopped_openings_leave_what_waits()
    ensures { StoppedOpeningsLeaveWhatWaits }
{}

/// An opening after which nothing was done leaves what it found, and the record of its epoch: so it counts as one that stopped.
pub fn openings_leave_their_epoch<D: Disk>()
    ensures { OpeningsLeaveTheirEpoch D.seen D.may_leave D.is_usable }
{}

/// Where no record is damaged, no call is told to be torn.
pub fn nothing_is_torn_without_damage()
    ensures { NothingIsTornWithoutDamage }
{}

/// Where the records of some pages of a job are damaged, or among those that are passed over, and those of others are not, whichever
/// they are, the call is told to be torn.
pub fn lost_pages_tear_their_call()
    ensures { LostPagesTearTheirCall }
{}

/// Whatever records of the files of a spool are harmed, which of them is the older one is found still, as long as a record of an epoch
/// of the newer one can be read.
pub fn harm_keeps_the_order()
    ensures { HarmKeepsTheOrder }
{}

/// So it is where one record of the newer file is harmed, since each epoch is put twice.
pub fn one_harm_keeps_the_order()
    ensures { OneHarmKeepsTheOrder }
{}

/// A harmed record loses its own alone: its page, or that its job ended. All other pages wait as before, in their order.
pub fn harm_loses_its_own()
    ensures { HarmLosesItsOwn }
{}
