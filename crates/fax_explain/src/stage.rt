//! A gateway on which a script is played, and what is heard on its legs.
ghost use Rattle.std.specs.Prelude.{◌≡◌, ◌++◌, [], IfOk, OnOk};
ghost use Rattle.fax_gateway.specs.Setups.{AreAllowed};
ghost use Rattle.fax_gateway.specs.CallingLegs.{calling_leg};
ghost use Rattle.fax_gateway.specs.EachTrace.{EachTrace};
ghost use Rattle.fax_gateway.specs.Turns.{call_if_new, call_on};
ghost use Rattle.fax_trace.specs.declared.event.ScriptEvent.TheVariants as script;
ghost use Rattle.fax_explain.specs.Given.{EachGiven, KeepsToCalled, arrived_after};
ghost use Rattle.fax_explain.specs.Heard.{EachHearing, IsHearing, KeepsEar};
ghost use Rattle.fax_explain.specs.Ladders.{asked_tellings, begun_tellings, over_tellings, report_tellings, with_why};
ghost use Rattle.fax_explain.specs.Places.{Grows, Keeps, next_if, page_if, page_of};
ghost use Rattle.fax_explain.specs.Staged.{AnswersAny, AnswersAt, AnswersEvent, AnswersTick, BeginsIf, BeginsWith, FailsWith, GivesIf, GivesWith, IsNew, Pictures, PlaysEvent, TellsGiving, TellsTo, TimersAct, begun_if};

use crate::called::CalledLeg;
use crate::calling::CallingLeg;
use crate::copies::copy_of;
use crate::mark::{marks_of_answer, marks_of_call};
use crate::store::Place;
use crate::timers::{tell_called_timer, tell_calling_timer};
use fax_bits::NoMemory;
use fax_call::State;
use fax_descriptions::{Lane, Tale, why_ended, why_refused, words_of_format};
use fax_gateway::laws::{confirms_the_newest, jobs_have_states};
use fax_gateway::{Gateway, Given, PlaceFault, RingFault, Settings};
use fax_notes::laws::{keeps_answers, keeps_calls};
use fax_notes::{AnswerNotes, CallNotes};
use fax_pagestore::{PackedRows, Page};
use fax_trace::ScriptEvent;
use std::alloc::Global;

/// A page that was confirmed or sent, and where.
pub(crate) struct FoundPage {
    pub place: Place,
    pub page: Page<PackedRows>,
}

impl Drop for FoundPage {
    fn drop(self) {
        let FoundPage {
            place: _place,
            page: _page,
        } = self;
    }
}

/// What happened at an event: what is told of it, and the pages that were confirmed or sent.
#[derive(Drop)]
pub(crate) struct Scene {
    pub tale: Tale,
    pub pages: Vec<FoundPage>,
}

impl Scene {
    /// Nothing has happened.
    fn new(alloc: Global) -> Self
        ensures { result.tale ≡ [] }
    {
        Scene {
            tale: Tale::new(alloc),
            pages: Vec::new(alloc),
        }
    }
}

/// A gateway on which a script is played, and what was heard on its legs.
pub(crate) struct Stage {
    alloc: Global,
    gateway: Gateway<PackedRows>,
    calling: CallingLeg,
    called: CalledLeg,
}

impl Drop for Stage {
    fn drop(self) {
        let Stage {
            alloc: _alloc,
            gateway: _gateway,
            calling: _calling,
            called: _called,
        } = self;
    }
}

impl Stage {
    /// A gateway with these settings, to which nothing came.
    pub(crate) fn new(alloc: Global, settings: Settings) -> Result<Self, NoMemory>
        requires { AreAllowed settings }
        ensures new { IfOk result (λ stage. IsNew stage) }
        ensures settings { IfOk result (λ stage. stage.gateway.settings ≡ settings) }
    {
        let gateway = Gateway::with_settings(alloc, settings)?;
        Ok(Stage {
            alloc,
            gateway,
            calling: CallingLeg::new(alloc),
            called: CalledLeg::new(alloc),
        })
    }

    /// Plays an event at a moment, and tells what happened.
    pub(crate) fn play(&mut self, event: &ScriptEvent, moment: u64) -> Result<Scene, NoMemory>
        ensures { IfOk result (λ scene.
            PlaysEvent event.now moment self.old scene.tale self.new) }
    {
        let was_asked = self.gateway.asked();
        let mut scene = Scene::new(self.alloc);
        self.answer(event, moment, &mut scene)?;
        tell_asked(self.alloc, was_asked, self.gateway.asked(), &mut scene.tale)?;
        Ok(scene)
    }

    /// Hands an event at a moment to the gateway, of which nothing was told, and tells what it answers.
    fn answer(
        &mut self,
        event: &ScriptEvent,
        moment: u64,
        scene: &mut Scene,
    ) -> Result<(), NoMemory>
        requires { scene.old.tale ≡ [] }
        ensures { OnOk result
            (AnswersAny event.now moment self.old scene.new.tale self.new) }
    {
        match event {
            ScriptEvent::Ring => self.ring(moment, &mut scene.tale),
            ScriptEvent::FromCalling(octets) => {
                self.hear_calling(octets.as_slice(), moment, &mut scene.tale)
            }
            ScriptEvent::FromCalled(octets) => {
                self.hear_called(octets.as_slice(), moment, &mut scene.tale)
            }
            ScriptEvent::Tick(moment) => self.tick(*moment, scene),
            ScriptEvent::Connected(moment) => self.connect(*moment, &mut scene.tale),
            ScriptEvent::NotConnected(moment) => self.not_connected(*moment, &mut scene.tale),
        }
    }

    /// It rings.
    fn ring(&mut self, moment: u64, tale: &mut Tale) -> Result<(), NoMemory>
        requires { tale.old ≡ [] }
        ensures { OnOk result
            (AnswersAt moment self.old script.Ring tale.new self.new) }
    {
        match self.gateway.ring(moment) {
            Ok(call) => {
                self.calling = CallingLeg::new(self.alloc);
                let words = format!(in self.alloc; "ring {call}")?;
                tale.tell(Lane::Inside, words.as_str())
            }
            Err(RingFault::Busy) => tale.tell(Lane::Inside, "ring refused 1 Busy: a call is on"),
            Err(RingFault::NoNumber) => tale.tell(Lane::Inside, "ring refused 2 NoNumber"),
            Err(RingFault::NoMemory) => Err(NoMemory),
        }
    }

    /// A datagram comes on the calling leg.
    fn hear_calling(&mut self, octets: &[u8], moment: u64, tale: &mut Tale) -> Result<(), NoMemory>
        requires { tale.old ≡ [] }
        ensures { OnOk result
            (AnswersAt moment self.old (script.FromCalling octets.now) tale.new self.new) }
    {
        keeps_answers();
        let call = self.gateway.call();
        let mut notes = AnswerNotes::new(self.alloc);
        self.gateway
            .from_calling_watched(octets, moment, &mut notes)?;
        if notes.is_lacking() {
            return Err(NoMemory);
        }
        let Some(call) = call else {
            return self.calling.hear_outside(octets, tale);
        };
        let marks = marks_of_answer(self.alloc, notes.as_slice())?;
        self.calling.hear(octets, marks, tale)?;
        self.tell_over(Some(call), tale)
    }

    /// A datagram comes on the called leg.
    fn hear_called(&mut self, octets: &[u8], moment: u64, tale: &mut Tale) -> Result<(), NoMemory>
        requires { tale.old ≡ [] }
        ensures { OnOk result
            (AnswersAt moment self.old (script.FromCalled octets.now) tale.new self.new) }
    {
        keeps_calls();
        let state = self.gateway.called_state();
        let mut notes = CallNotes::new(self.alloc);
        self.gateway
            .from_called_watched(octets, moment, &mut notes)?;
        if notes.is_lacking() {
            return Err(NoMemory);
        }
        if let State::Idle = state {
            return self.called.hear_outside(octets, tale);
        }
        let marks = marks_of_call(self.alloc, notes.as_slice())?;
        self.called.hear(octets, marks, tale)
    }

    /// Time goes on to a moment. The page that is confirmed is kept.
    fn tick(&mut self, moment: u64, scene: &mut Scene) -> Result<(), NoMemory>
        requires { scene.old.tale ≡ [] }
        ensures answers { OnOk result
            (AnswersTick moment self.old scene.new.tale self.new) }
        ensures pictures { OnOk result
            (Pictures self.old.gateway moment scene.old.pages.items scene.new.pages.items) }
    {
        confirms_the_newest();
        jobs_have_states();
        let call = self.gateway.call();
        let was_sending = self.gateway.sending().is_some();
        self.tell_timers(moment, &mut scene.tale)?;
        let given = self.gateway.tick(moment)?;
        self.give_calling(&given, scene)?;
        self.tell_over(call, &mut scene.tale)?;
        self.begin_job(was_sending, &mut scene.tale)?;
        self.give_called(&given, scene)?;
        self.end_job(&given, &mut scene.tale)
    }

    /// The call of the job that is asked for is placed at a moment.
    fn connect(&mut self, moment: u64, tale: &mut Tale) -> Result<(), NoMemory>
        requires { tale.old ≡ [] }
        ensures { OnOk result
            (AnswersEvent self.old (script.Connected moment) tale.new self.new) }
    {
        match self.gateway.connect(moment) {
            Ok(()) => {
                tale.tell(Lane::ToCalled, "the call is placed: it has answered")?;
                self.begin_call(tale)
            }
            Err(PlaceFault::NotAsked) => tale.tell(
                Lane::Inside,
                "connect refused 1 NotAsked: no call is asked for",
            ),
            Err(PlaceFault::NoMemory) => Err(NoMemory),
        }
    }

    /// It could not be placed, at a moment.
    fn not_connected(&mut self, moment: u64, tale: &mut Tale) -> Result<(), NoMemory>
        requires { tale.old ≡ [] }
        ensures { OnOk result
            (AnswersEvent self.old (script.NotConnected moment) tale.new self.new) }
    {
        match self.gateway.not_connected(moment) {
            Ok(()) => {
                self.fail_call();
                tale.tell(Lane::ToCalled, "the call could not be placed")
            }
            Err(PlaceFault::NotAsked) => tale.tell(
                Lane::Inside,
                "not-connected refused 1 NotAsked: no call is asked for",
            ),
            Err(PlaceFault::NoMemory) => Err(NoMemory),
        }
    }

    /// The timers that act in a tick at this moment are told.
    fn tell_timers(&self, moment: u64, tale: &mut Tale) -> Result<(), NoMemory>
        ensures { OnOk result (TimersAct self.now.gateway moment tale.old tale.new) }
    {
        let state = self.gateway.calling_state();
        tell_calling_timer(self.gateway.calling_acting(moment), state, tale)?;
        tell_called_timer(self.gateway.called_acting(moment), tale)
    }

    /// What a tick gives on the calling leg is told, and after it the page that it confirms, or why it refuses one. The page that it
    /// confirms is kept.
    fn give_calling(&mut self, given: &Given, scene: &mut Scene) -> Result<(), NoMemory>
        ensures gateway { self.new.gateway ≡ self.old.gateway }
        ensures theirs { self.new.calling.theirs ≡ self.old.calling.theirs }
        ensures called { self.new.called ≡ self.old.called }
        ensures told { OnOk result (EachGiven self.old.calling.ours
            (λ ear arrived. TellsGiving ear arrived given.now.calling given.now.kept
            self.new.calling.pages given.now.refused scene.old.tale scene.new.tale)) }
        ensures pages { OnOk result (self.new.calling.pages
            ≡ next_if given.now.kept self.old.calling.pages) }
        ensures hearing { OnOk result (EachHearing self.old.calling.ours (λ arrived.
            IsHearing (arrived_after arrived given.now.calling) self.new.calling.ours)) }
        ensures ear { OnOk result (KeepsEar self.old.calling.ours self.new.calling.ours) }
        ensures page { OnOk result (Keeps (page_of given.now.kept (page_if given.now.kept
            self.old.gateway.book) self.old.calling) scene.old.pages.items scene.new.pages.items) }
    {
        let mut after = Tale::new(self.alloc);
        let page = self.confirmed_page(given)?;
        let found = self.calling.give(given, page, &mut after)?;
        self.calling.tell_page(given.kept, &mut after)?;
        keep_found(&mut scene.pages, found)?;
        tell_refusal(self.alloc, given, &mut after)?;
        scene.tale.append(after)
    }

    /// The page that a tick confirmed, where it did: the newest of the gateway.
    fn confirmed_page(&self, given: &Given) -> Result<Option<Page<PackedRows>>, NoMemory>
        ensures { IfOk result (λ page. page ≡ page_if given.now.kept self.now.gateway.book) }
    {
        if given.kept.is_none() {
            return Ok(None);
        }
        match self.gateway.newest_page() {
            Some(page) => Ok(Some(copy_of(self.alloc, page)?)),
            None => Ok(None),
        }
    }

    /// What a tick gives on the called leg is told.
    fn give_called(&mut self, given: &Given, scene: &mut Scene) -> Result<(), NoMemory>
        ensures gateway { self.new.gateway ≡ self.old.gateway }
        ensures calling { self.new.calling ≡ self.old.calling }
        ensures theirs { self.new.called.theirs ≡ self.old.called.theirs }
        ensures told { OnOk result (TellsTo self.old.gateway
            self.old.called.ours given.now.called scene.old.tale scene.new.tale) }
        ensures hearing { OnOk result (EachHearing self.old.called.ours (λ arrived.
            IsHearing (arrived_after arrived given.now.called) self.new.called.ours)) }
        ensures ear { OnOk result (KeepsToCalled self.old.called.ours self.new.called.ours) }
        ensures pages { OnOk result (Grows scene.old.pages.items scene.new.pages.items) }
    {
        let mut after = Tale::new(self.alloc);
        self.called
            .give(given, self.gateway.called_state(), &mut after)?;
        keep_found(&mut scene.pages, self.called.take_page())?;
        scene.tale.append(after)
    }

    /// The end of this call of the calling leg is told, where one was on and is over.
    fn tell_over(&self, call: Option<u32>, tale: &mut Tale) -> Result<(), NoMemory>
        ensures told { OnOk result (EachTrace self.now.gateway (λ setup writes trace.
            tale.new ≡ tale.old ++ over_tellings call (call_on (calling_leg setup trace)))) }
    {
        let Some(call) = call else {
            return Ok(());
        };
        if self.gateway.call().is_some() {
            return Ok(());
        }
        let words = format!(in self.alloc; "call {call} is over")?;
        tale.tell(Lane::Inside, words.as_str())
    }

    /// Where a job is sent and none was before the tick, its call begins.
    fn begin_job(&mut self, was_sending: bool, tale: &mut Tale) -> Result<(), NoMemory>
        ensures gateway { self.new.gateway ≡ self.old.gateway }
        ensures calling { self.new.calling ≡ self.old.calling }
        ensures called { BeginsIf was_sending
            self.old.gateway.book.sending self.old.called.theirs self.new.called.theirs }
        ensures giving { GivesIf was_sending
            self.old.gateway.book.sending self.old.called.ours self.new.called.ours }
        ensures told { OnOk result (tale.new
            ≡ tale.old ++ begun_if was_sending self.old.gateway.book.sending) }
    {
        if was_sending {
            return Ok(());
        }
        self.begin_call(tale)
    }

    /// The call of the job that is sent begins, where there is one.
    fn begin_call(&mut self, tale: &mut Tale) -> Result<(), NoMemory>
        ensures gateway { self.new.gateway ≡ self.old.gateway }
        ensures calling { self.new.calling ≡ self.old.calling }
        ensures called { BeginsWith self.old.gateway.book.sending
            self.old.called.theirs self.new.called.theirs }
        ensures giving { GivesWith self.old.gateway.book.sending
            self.old.called.ours self.new.called.ours }
        ensures told { OnOk result (tale.new
            ≡ tale.old ++ begun_tellings self.old.gateway.book.sending) }
    {
        let Some(job) = self.gateway.sending() else {
            return Ok(());
        };
        let call = job.call();
        let pages = job.page_count();
        self.called.begin(call);
        let format = words_of_format(self.alloc, job.format())?;
        let words = format!(in self.alloc;
            "the job of call {call} is sent on: {format}, pages: {pages}"
        )?;
        tale.tell(Lane::Inside, words.as_str())
    }

    /// The call of the job that is sent could not be placed, where there is one: it is over as it begins.
    fn fail_call(&mut self)
        ensures gateway { self.new.gateway ≡ self.old.gateway }
        ensures calling { self.new.calling ≡ self.old.calling }
        ensures called { FailsWith self.old.gateway.book.sending
            self.old.called.theirs self.new.called.theirs }
        ensures giving { GivesWith self.old.gateway.book.sending
            self.old.called.ours self.new.called.ours }
    {
        if let Some(job) = self.gateway.sending() {
            self.called.fail(job.call());
        }
    }

    /// The job that ended is told last, by the line that `faxgate trace` prints, with why it ended so.
    fn end_job(&mut self, given: &Given, tale: &mut Tale) -> Result<(), NoMemory>
        ensures gateway { self.new.gateway ≡ self.old.gateway }
        ensures calling { self.new.calling ≡ self.old.calling }
        ensures theirs { self.new.called.theirs ≡ self.old.called.theirs }
        ensures ours { self.new.called.ours ≡ self.old.called.ours }
        ensures told { OnOk result (tale.new ≡ tale.old ++ report_tellings given.now.report) }
    {
        let Some(report) = &given.report else {
            return Ok(());
        };
        self.called.end(report.pages);
        let why = why_ended(report.outcome);
        let words = format!(in self.alloc; "{report}{why}")?;
        tale.tell(Lane::Inside, words.as_str())
    }
}

/// The call that is asked for is told, where none was.
fn tell_asked(
    alloc: Global,
    was_asked: Option<u32>,
    is_asked: Option<u32>,
    tale: &mut Tale,
) -> Result<(), NoMemory>
    ensures { OnOk result (tale.new ≡ tale.old ++ asked_tellings (call_if_new was_asked is_asked)) }
{
    let (None, Some(call)) = (was_asked, is_asked) else {
        return Ok(());
    };
    let words = format!(in alloc;
        "asks {call}: a call is to be placed for the job of call {call}"
    )?;
    tale.tell(Lane::Inside, words.as_str())
}

/// Keeps a page that was found, where one was. An `Err` leaves the pages as they were.
fn keep_found(pages: &mut Vec<FoundPage>, found: Option<FoundPage>) -> Result<(), NoMemory>
    ensures { OnOk result (Keeps found pages.old.items pages.new.items) }
{
    if let Some(found) = found {
        pages.push(found)?;
    }
    Ok(())
}

/// Why a tick refuses a page is told, where it does: after what was told last, which is its RTN.
fn tell_refusal(alloc: Global, given: &Given, tale: &mut Tale) -> Result<(), NoMemory>
    ensures { OnOk result (tale.new ≡ with_why given.now.refused tale.old) }
{
    let Some(refused) = &given.refused else {
        return Ok(());
    };
    let why = why_refused(refused.why);
    let words = format!(in alloc; ": {why}")?;
    tale.add(words.as_str())
}
