//! Laws of the definitions: functions that do nothing, each of whose contracts is a theorem.
ghost use Rattle.fax_laws.specs.chains.Given.{CallsGiveTheirPackets, NoneIsGivenBeforeACall};
ghost use Rattle.fax_laws.specs.chains.GoOn.{LinksBegin, LinksGoOn, SomeAreLinked};
ghost use Rattle.fax_laws.specs.chains.Links.{FewAreNear, LinkedCallsAreJoined, LinkedChainsHear, LinkedChainsRelay};
ghost use Rattle.fax_laws.specs.chains.Times.{TimelyAreNear};

use fax_gateway::laws::{chain_relays_pages, chains_hear, datagrams_are_apart, traces_go_on};

/// The octets that a gateway gives on its called leg in a call are read as the datagrams of the packets that the call gave there:
/// each has the number of its place from 0 on, its packet, and some just before that, the nearest first and none left out; so many
/// datagrams as packets. And none is given before the first call.
pub fn calls_give_their_packets()
    ensures each { CallsGiveTheirPackets }
    ensures before { NoneIsGivenBeforeACall }
{}

/// A call on the calling leg of a second gateway to which just octets come that a first one gave in a call of its called leg, lost,
/// repeated, late and out of order at will, each near to those that came before it, is joined to that call.
pub fn linked_calls_are_joined()
    ensures { LinkedCallsAreJoined }
{}

/// So what the second hears are frames and image signals that the first gave; and where no EOM is read off the octets that it gave,
/// each page that the second confirms is one that the first confirmed and sent in that call, at places that never fall.
pub fn linked_chains_relay()
    ensures hear { LinkedChainsHear }
    ensures relay { LinkedChainsRelay }
{
    chains_hear();
    chain_relays_pages();
}

/// In a call of at most 32,768 datagrams each is near to every other, whatever order they come in.
pub fn few_are_near()
    ensures { FewAreNear }
{}

/// Where both gateways have one clock, each datagram comes at most 20 minutes after it was given, and at most a minute after the one that
/// came before it, what comes is near, however long the call is: since datagrams are given 40 ms apart.
pub fn timely_are_near()
    ensures { TimelyAreNear }
{
    datagrams_are_apart();
}

/// There are such links: they begin with no event; whatever the first gave, and is near, may come next, and time may go on at both;
/// and over some a datagram came.
pub fn links_go_on()
    ensures begin { LinksBegin }
    ensures go_on { LinksGoOn }
    ensures some { SomeAreLinked }
{
    traces_go_on();
}
