//! What is heard on the called leg.
ghost use Rattle.std.specs.Prelude.{◌≡◌, ◌≢◌, ◌+◌, ◌-◌, ◌^◌, min, [], None, Some, OnOk};
ghost use Rattle.fax_udptl.specs.Datagrams.{datagram_of};
ghost use Rattle.fax_descriptions.specs.declared.lane.Lane.TheVariants.{FromCalled};
ghost use Rattle.fax_explain.specs.Given.{EachGiven, IsToCalled, KeepsToCalled, TellsGiven, arrived_after, giving};
ghost use Rattle.fax_explain.specs.Heard.{EachHearing, HearsOn, IsEar, IsHearing, KeepsEar, TellsComing};
ghost use Rattle.fax_explain.specs.Listening.{in_call, outside, outside_call};
ghost use Rattle.fax_explain.specs.Marks.{given_signal};
ghost use Rattle.fax_explain.specs.Places.{found_at, sent_place};

use crate::listener::Listener;
use crate::mark::{Mark, given_signal};
use crate::stage::FoundPage;
use crate::store::Place;
use fax_bits::NoMemory;
use fax_call::State;
use fax_descriptions::{Lane, Tale};
use fax_frames::Frame;
use fax_gateway::{Given, Leg};
use std::alloc::Global;

/// What is heard on the called leg.
pub(crate) struct CalledLeg {
    alloc: Global,
    theirs: Listener,
    ours: Listener,
    /// The call whose pages were sent last, and how many of them went out in jobs that have ended.
    call: Option<u32>,
    before: u32,
    /// How many pages of the job were delivered.
    delivered: u32,
}

impl Drop for CalledLeg {
    fn drop(self) {
        let CalledLeg {
            alloc: _alloc,
            theirs: _theirs,
            ours: _ours,
            call: _call,
            before: _before,
            delivered: _delivered,
        } = self;
    }
}

impl CalledLeg {
    /// A leg on which nothing came or was given.
    pub(crate) fn new(alloc: Global) -> Self
        ensures call { result.call ≡ None }
        ensures before { result.before ≡ 0 }
        ensures delivered { result.delivered ≡ 0 }
        ensures ear { IsEar (in_call FromCalled) result.theirs }
        ensures hearing { IsHearing [] result.theirs }
        ensures ours { IsToCalled result.ours }
        ensures giving { IsHearing [] result.ours }
    {
        CalledLeg {
            alloc,
            theirs: Listener::new(alloc, Lane::FromCalled),
            ours: Listener::new(alloc, Lane::ToCalled),
            call: None,
            before: 0,
            delivered: 0,
        }
    }

    /// The call of a job begins, whose pages came in this call.
    pub(crate) fn begin(&mut self, call: u32)
        ensures call { self.new.call ≡ Some call }
        ensures delivered { self.new.delivered ≡ 0 }
        ensures before { self.old.call ≡ Some call → self.new.before ≡ self.old.before }
        ensures first { self.old.call ≢ Some call → self.new.before ≡ 0 }
        ensures ear { IsEar (in_call FromCalled) self.new.theirs }
        ensures hearing { IsHearing [] self.new.theirs }
        ensures ours { IsToCalled self.new.ours }
        ensures giving { IsHearing [] self.new.ours }
    {
        self.theirs = Listener::new(self.alloc, Lane::FromCalled);
        self.ours = Listener::new(self.alloc, Lane::ToCalled);
        self.delivered = 0;
        if self.call != Some(call) {
            self.call = Some(call);
            self.before = 0;
        }
    }

    /// The call of a job could not be placed, whose pages came in this call: what comes is passed over.
    pub(crate) fn fail(&mut self, call: u32)
        ensures call { self.new.call ≡ Some call }
        ensures delivered { self.new.delivered ≡ 0 }
        ensures before { self.old.call ≡ Some call → self.new.before ≡ self.old.before }
        ensures first { self.old.call ≢ Some call → self.new.before ≡ 0 }
        ensures ear { IsEar (outside_call FromCalled) self.new.theirs }
        ensures hearing { IsHearing [] self.new.theirs }
        ensures ours { IsToCalled self.new.ours }
        ensures giving { IsHearing [] self.new.ours }
    {
        self.begin(call);
        self.theirs.end_call();
    }

    /// A job has ended that had so many pages.
    pub(crate) fn end(&mut self, pages: u32)
        ensures { self.new
            ≡ record self.old { before = min (self.old.before + pages) (2 ^ 32 - 1) } }
    {
        self.before = self.before.saturating_add(pages);
    }

    /// The octets of a datagram come from the called machine, whose pieces were taken as these: what it brings is told.
    pub(crate) fn hear(
        &mut self,
        octets: &[u8],
        marks: Vec<Mark>,
        tale: &mut Tale,
    ) -> Result<(), NoMemory>
        ensures told { OnOk result
            (TellsComing self.old.theirs marks.items (datagram_of octets.now) tale.old tale.new) }
        ensures hearing { OnOk result
            (HearsOn self.old.theirs (datagram_of octets.now) self.new.theirs) }
        ensures ear { OnOk result (KeepsEar self.old.theirs self.new.theirs) }
        ensures call { self.new.call ≡ self.old.call }
        ensures before { self.new.before ≡ self.old.before }
        ensures ours { self.new.ours ≡ self.old.ours }
    {
        self.theirs.mark(marks);
        self.theirs.hear(octets, tale)?;
        self.note();
        Ok(())
    }

    /// The frames of the last datagram say that pages were delivered.
    fn note(&mut self)
        ensures { self.new ≡ record self.old { delivered = self.new.delivered } }
    {
        for frame in self.theirs.frames() {
            if let Frame::Mcf | Frame::Rtp = frame {
                self.delivered = self.delivered.saturating_add(1);
            }
        }
    }

    /// The octets of a datagram come from the called machine while no call is on.
    pub(crate) fn hear_outside(&mut self, octets: &[u8], tale: &mut Tale) -> Result<(), NoMemory>
        ensures told { OnOk result
            (TellsComing (outside self.old.theirs) [] (datagram_of octets.now) tale.old tale.new) }
        ensures hearing { OnOk result
            (HearsOn self.old.theirs (datagram_of octets.now) self.new.theirs) }
        ensures ear { OnOk result (KeepsEar (outside self.old.theirs) self.new.theirs) }
        ensures left { self.new ≡ record self.old { theirs = self.new.theirs } }
    {
        self.theirs.end_call();
        self.theirs.hear_unmarked(octets, tale)
    }

    /// What a tick gives on this leg is told: signals are what they are in this state of the call.
    pub(crate) fn give(
        &mut self,
        given: &Given,
        state: State,
        tale: &mut Tale,
    ) -> Result<(), NoMemory>
        ensures told { OnOk result (EachGiven (giving (given_signal state) self.old.ours)
            (λ ear arrived. TellsGiven ear arrived given.now.called tale.old tale.new)) }
        ensures hearing { OnOk result (EachHearing self.old.ours (λ arrived.
            IsHearing (arrived_after arrived given.now.called) self.new.ours)) }
        ensures ear { OnOk result (KeepsToCalled self.old.ours self.new.ours) }
        ensures place { sent_place self.new ≡ sent_place self.old }
        ensures theirs { self.new.theirs ≡ self.old.theirs }
    {
        let Some(octets) = &given.called else {
            return Ok(());
        };
        self.ours.give(given_signal(state));
        self.ours.hear_unmarked(octets.as_slice(), tale)
    }

    /// The page that was sent, where the last of it was given and none took it.
    pub(crate) fn take_page(&mut self) -> Option<FoundPage>
        ensures found { result ≡ found_at (sent_place self.old) self.old.ours.page }
        ensures ours { self.new.ours ≡ record self.old.ours { page = None } }
        ensures theirs { self.new.theirs ≡ self.old.theirs }
    {
        let page = self.ours.take_page()?;
        let place = Place {
            leg: Leg::Called,
            call: self.call.unwrap_or(0),
            page: self.before.saturating_add(self.delivered).saturating_add(1),
        };
        Some(FoundPage { place, page })
    }
}
