//! What is heard on the calling leg.
ghost use Rattle.std.specs.Prelude.{◌≡◌, [], IfOk, OnOk};
ghost use Rattle.fax_udptl.specs.Datagrams.{datagram_of};
ghost use Rattle.fax_descriptions.specs.declared.lane.Lane.TheVariants.{FromCaller, ToCaller};
ghost use Rattle.fax_explain.specs.Given.{EachGiven, TellsGiven, arrived_after};
ghost use Rattle.fax_explain.specs.Heard.{EachHearing, HearsOn, IsEar, IsHearing, KeepsEar, TellsComing};
ghost use Rattle.fax_explain.specs.Ladders.{with_page};
ghost use Rattle.fax_explain.specs.Listening.{in_call, outside};
ghost use Rattle.fax_explain.specs.Places.{next_if, page_of};

use crate::listener::Listener;
use crate::mark::Mark;
use crate::stage::FoundPage;
use crate::store::Place;
use fax_bits::NoMemory;
use fax_descriptions::{Lane, Tale, words_of_format};
use fax_gateway::{Given, Kept, Leg};
use fax_pagestore::{PackedRows, Page};
use std::alloc::Global;

/// What is heard on the calling leg in one call.
pub(crate) struct CallingLeg {
    alloc: Global,
    theirs: Listener,
    ours: Listener,
    /// How many pages were confirmed.
    pages: u32,
}

impl Drop for CallingLeg {
    fn drop(self) {
        let CallingLeg {
            alloc: _alloc,
            theirs: _theirs,
            ours: _ours,
            pages: _pages,
        } = self;
    }
}

impl CallingLeg {
    /// A leg on which nothing came or was given.
    pub(crate) fn new(alloc: Global) -> Self
        ensures pages { result.pages ≡ 0 }
        ensures ear { IsEar (in_call FromCaller) result.theirs }
        ensures hearing { IsHearing [] result.theirs }
        ensures ours { IsEar (in_call ToCaller) result.ours }
        ensures giving { IsHearing [] result.ours }
    {
        CallingLeg {
            alloc,
            theirs: Listener::new(alloc, Lane::FromCaller),
            ours: Listener::new(alloc, Lane::ToCaller),
            pages: 0,
        }
    }

    /// The octets of a datagram come from the caller, whose pieces were taken as these: what it brings is told.
    pub(crate) fn hear(
        &mut self,
        octets: &[u8],
        marks: Vec<Mark>,
        tale: &mut Tale,
    ) -> Result<(), NoMemory>
        ensures told { OnOk result
            (TellsComing self.old.theirs marks.items (datagram_of octets.now) tale.old tale.new) }
        ensures hearing { OnOk result
            (HearsOn self.old.theirs (datagram_of octets.now) self.new.theirs) }
        ensures ear { OnOk result (KeepsEar self.old.theirs self.new.theirs) }
        ensures left { self.new ≡ record self.old { theirs = self.new.theirs } }
    {
        self.theirs.mark(marks);
        self.theirs.hear(octets, tale)
    }

    /// The octets of a datagram come from the caller while no call is on.
    pub(crate) fn hear_outside(&mut self, octets: &[u8], tale: &mut Tale) -> Result<(), NoMemory>
        ensures told { OnOk result
            (TellsComing (outside self.old.theirs) [] (datagram_of octets.now) tale.old tale.new) }
        ensures hearing { OnOk result
            (HearsOn self.old.theirs (datagram_of octets.now) self.new.theirs) }
        ensures ear { OnOk result (KeepsEar (outside self.old.theirs) self.new.theirs) }
        ensures left { self.new ≡ record self.old { theirs = self.new.theirs } }
    {
        self.theirs.end_call();
        self.theirs.hear_unmarked(octets, tale)
    }

    /// What a tick gives on this leg is told. It answers the page that it confirms, which is this one.
    pub(crate) fn give(
        &mut self,
        given: &Given,
        page: Option<Page<PackedRows>>,
        tale: &mut Tale,
    ) -> Result<Option<FoundPage>, NoMemory>
        ensures told { OnOk result (EachGiven self.old.ours (λ ear arrived.
            TellsGiven ear arrived given.now.calling tale.old tale.new)) }
        ensures hearing { OnOk result (EachHearing self.old.ours (λ arrived.
            IsHearing (arrived_after arrived given.now.calling) self.new.ours)) }
        ensures ear { OnOk result (KeepsEar self.old.ours self.new.ours) }
        ensures theirs { self.new.theirs ≡ self.old.theirs }
        ensures pages { OnOk result (self.new.pages ≡ next_if given.now.kept self.old.pages) }
        ensures found { IfOk result (λ found. found ≡ page_of given.now.kept page self.old) }
    {
        let Some(octets) = &given.calling else {
            return Ok(self.confirm(given.kept, page));
        };
        self.ours.hear_unmarked(octets.as_slice(), tale)?;
        Ok(self.confirm(given.kept, page))
    }

    /// The page that a tick confirmed, where it did, is told after its MCF.
    pub(crate) fn tell_page(&self, kept: Option<Kept>, tale: &mut Tale) -> Result<(), NoMemory>
        ensures { OnOk result (tale.new ≡ with_page kept self.now.pages tale.old) }
    {
        let Some(kept) = kept else {
            return Ok(());
        };
        let format = words_of_format(self.alloc, kept.format)?;
        let (page, call, rows) = (self.pages, kept.call, kept.rows);
        let words = format!(in self.alloc; " page {page} of call {call}: {format}, rows: {rows}")?;
        tale.add(words.as_str())
    }

    /// A page is confirmed, where one is: it is counted, and handed out.
    fn confirm(&mut self, kept: Option<Kept>, page: Option<Page<PackedRows>>) -> Option<FoundPage>
        ensures found { result ≡ page_of kept page self.old }
        ensures pages { self.new.pages ≡ next_if kept self.old.pages }
        ensures ours { self.new.ours ≡ self.old.ours }
        ensures theirs { self.new.theirs ≡ self.old.theirs }
    {
        let call = kept?.call;
        self.pages = self.pages.saturating_add(1);
        let page = page?;
        let place = Place {
            leg: Leg::Calling,
            call,
            page: self.pages,
        };
        Some(FoundPage { place, page })
    }
}
