//! Laws of the definitions: functions that do nothing, each of whose contracts is a theorem.
ghost use Rattle.fax_line.specs.Connects.{JobsWaitForConnects};
ghost use Rattle.fax_line.specs.GivenPeers.{CalledPeersAreGiven, CalledPeersAreGivenWithout};
ghost use Rattle.fax_line.specs.StoredRuns.{RunStores};
ghost use Rattle.fax_line.specs.Laws.{OthersStay, RestsMissNothing};

use crate::store::RunStore;
use fax_gateway::laws::{calls_begin_where_placed, gives_in_placed_calls};

/// Where a new line is left at rest, in an order of moments that never goes back, a tick would have given nothing.
pub fn rests_miss_nothing()
    ensures { RestsMissNothing }
{}

/// A run keeps all pages that it put with an `Ok`, in the order in which they were confirmed, where its store keeps what it is handed
/// so, and loses none of it by anything else that it is told.
pub fn runs_store_pages<K: RunStore>()
    ensures { RunStores K.is_same K.puts K.notes K.ends K.keeps }
{}

/// Over a run the peer of a line's called leg is the one that it was given last, by what was asked of the line, with no report of a
/// job since; else it has none. So it is where the line has no peer for ever.
pub fn called_peers_are_given<K: RunStore>()
    ensures kept { CalledPeersAreGiven K.is_same K.puts K.notes K.ends }
    ensures without { CalledPeersAreGivenWithout }
{}

/// Of all that a line goes through no datagram of a job leaves before its connect, where its settings are that it asks.
pub fn jobs_wait_for_connects()
    ensures { JobsWaitForConnects }
{
    calls_begin_where_placed();
    gives_in_placed_calls();
}

/// What is asked of one line leaves every other one as it was.
pub fn others_stay()
    ensures { OthersStay }
{}
