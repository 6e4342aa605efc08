//! Laws of what a line's pages and the book of its gateway have in common: functions that do nothing, each of whose contracts is a
//! theorem. They join the actions of a line with the lives of its gateway.
ghost use Rattle.fax_queue.specs.Book.{QueueIsLeft, ServersAreLives, ServersBegin, ServersGoOn, ServersLoseNone, ServersLoseNoneThatWasPut};
ghost use Rattle.fax_queue.specs.TurnsTold.{TurnsTellBoth};

use fax_gateway::laws::{
    confirms_the_newest, jobs_are_cut, jobs_are_of_their_calls, jobs_have_states, none_is_lost,
};
use fax_pagestore::laws::written_pages_mean;

/// A turn of a line that tells a page adds that page to the gateway's book and, by the record that is put of it, to what is owed,
/// with its call and whether it closes its job; one that tells none adds none.
pub fn turns_tell_both()
    ensures { TurnsTellBoth }
{
    confirms_the_newest();
    jobs_are_of_their_calls();
    written_pages_mean();
}

/// Whatever was put and noted: the lives of a server's gateway, each restored with what was owed after the one before it, are
/// lives of which `forwards_over_lives` tells. So each page that goes out in one of them was confirmed in it or before it.
pub fn servers_are_lives()
    ensures { ServersAreLives }
{
    jobs_are_cut();
    jobs_have_states();
}

/// Where each page that was confirmed is on the disk, and the end of each job: what is owed are the pages that the gateway's book
/// has left, so that `none_is_lost` tells of these lives. None is lost, none is added and none comes twice.
pub fn servers_lose_none()
    ensures { ServersLoseNone }
{
    jobs_are_cut();
    jobs_have_states();
    none_is_lost();
}

/// Whatever was put and noted: a line's queue has the pages of the jobs of the last life whose ends have no record, and after them
/// those that the gateway's book has left. What is owed are those of them that are on the disk.
pub fn queue_is_left()
    ensures { QueueIsLeft }
{
    jobs_are_cut();
    jobs_have_states();
}

/// Whatever else was not put or not noted: each page whose put was answered `Ok` is one of a job whose end was noted, or is owed;
/// and what is noted or owed was confirmed, over all lives, in this order and once.
pub fn servers_lose_none_that_was_put()
    ensures { ServersLoseNoneThatWasPut }
{
    jobs_are_cut();
    jobs_have_states();
}

/// There are such actions: a server begins with none, and again with what is owed; and it goes on, whatever comes to its gateway, where
/// all that it confirms is put, and where nothing is. So these laws speak of something.
pub fn servers_go_on()
    ensures begin { ServersBegin }
    ensures go_on { ServersGoOn }
{}
