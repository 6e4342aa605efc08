//! Calls that we place, and what lines say.
ghost use Rattle.fax_user_agent.specs.Placings.{IsPlacing, IsOver};

use crate::book::Book;
use crate::call::{CallState, tag_of};
use crate::desk::Desk;
use crate::out::Direction;
use crate::profile::{Placing, Profile};
use fax_switch::Choice;
use std::net::SocketAddr;

impl Desk {
    /// A call to the number that these octets are takes a place of the trunk of its route.
    fn place_to(&mut self, call: &mut CallState, profile: &Profile, octets: &[u8]) -> Choice
        ensures { IsPlacing profile.now.trunks.items profile.now.routes.items octets.now result }
    {
        match profile.placing(octets) {
            Some(placing) => self.place(call, &placing),
            None => Choice::Unrouted,
        }
    }

    /// A call takes a place of its trunk, where there is one.
    fn place(&mut self, call: &mut CallState, placing: &Placing<'_>) -> Choice
        ensures { IsOver placing.now.place placing.now.trunk.now result }
    {
        call.trunk = placing.trunk_place;
        call.dialled = tag_of(placing.dialled.as_bytes());
        call.has_place = self.take_place(placing.trunk_place);
        if call.has_place {
            Choice::Routed(placing.place, placing.trunk.first_offer)
        } else {
            Choice::TrunkFull
        }
    }
}

impl Book {
    /// The call of a job is asked for, to the number that these octets are: how it is placed.
    pub fn dial(&mut self, profile: &Profile, octets: &[u8], leg: SocketAddr) -> Choice
        ensures { IsPlacing profile.now.trunks.items profile.now.routes.items octets.now result }
    {
        let mut call = self.new_call(0, Direction::Out, octets);
        call.leg = leg;
        let choice = self.desk.place_to(&mut call, profile, octets);
        self.opening = Some(call);
        choice
    }

    /// The leg of a line that takes the call of this number is heard there.
    pub fn place_leg(&mut self, id: u64, leg: SocketAddr) {
        for call in self.calls.iter_mut() {
            if call.id == id {
                call.leg = leg;
            }
        }
    }
}
