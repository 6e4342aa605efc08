//! Laws of an exchange: functions that do nothing, each of whose contracts is a theorem.
ghost use Rattle.fax_loop.specs.Faithful.{ConfirmsIfDelivered, ConfirmsThePage};
ghost use Rattle.fax_loop.specs.GoesOn.{LinksArePlayed, LinksBegin, LinksGoOn};
ghost use Rattle.fax_loop.specs.Links.{ConfirmsThePageOver};

use fax_gateway::laws::{jobs_have_states, traces_go_on};

/// In rounds over honest links, which lose, repeat, delay and reorder at will, each page that the machine that is called confirms
/// is the page that the machine that calls was given.
pub fn confirms_the_page()
    ensures { ConfirmsThePage }
{}

/// And where the gateway reports that the job was delivered, the machine that is called confirmed a page at least, if the way back
/// from it to the gateway is honest too.
pub fn confirms_if_delivered()
    ensures { ConfirmsIfDelivered }
{
    jobs_have_states();
}

/// So it is in each exchange over lines that tell what goes over them, where each datagram that came is one of those that were handed
/// over at the other end.
pub fn confirms_the_page_over_links()
    ensures { ConfirmsThePageOver }
{
    jobs_have_states();
}

/// There are such exchanges, over lines that are linked both ways: they begin with no round; after any rounds there is a further one,
/// whichever comes of what was handed over, in any order, once, several times or not at all; and there are some that are played to
/// their end. So what is told of lines that are linked speaks of something.
pub fn links_go_on()
    ensures begin { LinksBegin }
    ensures go_on { LinksGoOn }
    ensures played { LinksArePlayed }
{
    traces_go_on();
}
