//! The playing of a script, event by event.
ghost use Rattle.std.specs.Prelude.{◌≡◌, [], IfOk, IsOk, IsOkAnd, OnOk, OnErr};
ghost use Rattle.fax_gateway.specs.Setups.{AreAllowed};
ghost use Rattle.fax_trace.specs.declared.event.ScriptEvent.TheVariants as script;
ghost use Rattle.fax_trace.specs.EachScript.{AnswersByWriting, AnswersEvent, PlaysEvent, WhereEarly, asked_of};
ghost use Rattle.fax_trace.specs.Rep.{IsNew};

use crate::event::ScriptEvent;
use crate::told::{lines_of_given, numbered_line, push_asked};
use fax_bits::NoMemory;
use fax_gateway::{Gateway, PlaceFault, RingFault, Settings};
use fax_pagestore::PackedRows;
use std::alloc::Global;

/// A gateway on which a script is played, with the lines that were told so far.
#[derive(Drop)]
pub(crate) struct Player {
    alloc: Global,
    gateway: Gateway<PackedRows>,
    /// The last moment that the script told, in milliseconds; 0 before the first.
    moment: u64,
    text: Vec<u8>,
}

impl Player {
    /// A player that has played nothing, on a gateway with these settings.
    pub fn new(alloc: Global, settings: Settings) -> Result<Self, NoMemory>
        requires { AreAllowed settings }
        ensures new { IfOk result (λ player. IsNew player) }
        ensures settings { IfOk result (λ player. player.gateway.settings ≡ settings) }
    {
        let gateway = Gateway::with_settings(alloc, settings)?;
        Ok(Player {
            alloc,
            gateway,
            moment: 0,
            text: Vec::new(alloc),
        })
    }

    /// Plays an event, and tells what the gateway answers, and the call that it asks for from then on. An `Err` leaves the text as
    /// it was, and comes at no tick before one is due.
    pub fn play(&mut self, event: ScriptEvent) -> Result<(), NoMemory>
        ensures played { OnOk result (PlaysEvent self.old event self.new) }
        ensures err { OnErr result (self.new.text.items ≡ self.old.text.items) }
        ensures memory { WhereEarly self.old event (IsOk result) }
    {
        let was_asked = self.gateway.asked();
        let mut lines = self.answer(event)?;
        push_asked(self.alloc, &mut lines, was_asked, self.gateway.asked())?;
        self.text.extend_from_slice(lines.as_slice())?;
        Ok(())
    }

    /// What was told.
    pub fn into_text(self) -> Vec<u8>
        ensures { result.items ≡ self.text.items }
    {
        self.text
    }

    /// The script told a moment: what comes after it comes then.
    fn go_on_to(&mut self, moment: u64)
        ensures { self.new ≡ record self.old { moment = moment } }
    {
        self.moment = moment;
    }

    /// Hands an event to the gateway: the lines of what it answers.
    fn answer(&mut self, event: ScriptEvent) -> Result<Vec<u8>, NoMemory>
        ensures answered { IfOk result (λ lines.
            AnswersByWriting self.old event lines.items self.new) }
        ensures text { self.new.text ≡ self.old.text }
        ensures nothing { WhereEarly self.old event (IsOkAnd result (λ lines. lines.items ≡ [])) }
        ensures asked { WhereEarly self.old event (asked_of self.new ≡ asked_of self.old) }
    {
        match event {
            ScriptEvent::Ring => self.ring(),
            ScriptEvent::FromCalling(octets) => self.hear_calling(octets.as_slice()),
            ScriptEvent::FromCalled(octets) => self.hear_called(octets.as_slice()),
            ScriptEvent::Tick(moment) => self.tick(moment),
            ScriptEvent::Connected(moment) => self.connect(moment),
            ScriptEvent::NotConnected(moment) => self.not_connected(moment),
        }
    }

    /// It rings at the last moment.
    fn ring(&mut self) -> Result<Vec<u8>, NoMemory>
        ensures answered { IfOk result (λ lines.
            AnswersEvent self.old script.Ring lines.items self.new) }
        ensures text { self.new.text ≡ self.old.text }
    {
        let alloc = self.alloc;
        match self.gateway.ring(self.moment) {
            Ok(number) => numbered_line(alloc, b"ring ", number),
            Err(RingFault::Busy) => Ok(Vec::from_slice(alloc, b"ring refused 1 Busy\n")?),
            Err(RingFault::NoNumber) => Ok(Vec::from_slice(alloc, b"ring refused 2 NoNumber\n")?),
            Err(RingFault::NoMemory) => Err(NoMemory),
        }
    }

    /// The octets of a datagram come on the calling leg, at the last moment.
    fn hear_calling(&mut self, octets: &[u8]) -> Result<Vec<u8>, NoMemory>
        ensures answered { IfOk result (λ lines.
            AnswersEvent self.old (script.FromCalling octets.now) lines.items self.new) }
        ensures text { self.new.text ≡ self.old.text }
    {
        self.gateway.from_calling(octets, self.moment)?;
        Ok(Vec::new(self.alloc))
    }

    /// The same on the called leg.
    fn hear_called(&mut self, octets: &[u8]) -> Result<Vec<u8>, NoMemory>
        ensures answered { IfOk result (λ lines.
            AnswersEvent self.old (script.FromCalled octets.now) lines.items self.new) }
        ensures text { self.new.text ≡ self.old.text }
    {
        self.gateway.from_called(octets, self.moment)?;
        Ok(Vec::new(self.alloc))
    }

    /// Time goes on to a moment.
    fn tick(&mut self, moment: u64) -> Result<Vec<u8>, NoMemory>
        ensures answered { IfOk result (λ lines.
            AnswersByWriting self.old (script.Tick moment) lines.items self.new) }
        ensures text { self.new.text ≡ self.old.text }
        ensures nothing { WhereEarly self.old (script.Tick moment)
            (IsOkAnd result (λ lines. lines.items ≡ [])) }
        ensures asked { WhereEarly self.old (script.Tick moment)
            (asked_of self.new ≡ asked_of self.old) }
    {
        self.go_on_to(moment);
        let given = self.gateway.tick(moment)?;
        lines_of_given(self.alloc, &given)
    }

    /// The call of the job that is asked for is placed at a moment.
    fn connect(&mut self, moment: u64) -> Result<Vec<u8>, NoMemory>
        ensures answered { IfOk result (λ lines.
            AnswersEvent self.old (script.Connected moment) lines.items self.new) }
        ensures text { self.new.text ≡ self.old.text }
    {
        let alloc = self.alloc;
        self.go_on_to(moment);
        match self.gateway.connect(moment) {
            Ok(()) => Ok(Vec::new(alloc)),
            Err(PlaceFault::NotAsked) => Ok(Vec::from_slice(
                alloc,
                b"connect refused 1 NotAsked\n",
            )?),
            Err(PlaceFault::NoMemory) => Err(NoMemory),
        }
    }

    /// It could not be placed, at a moment.
    fn not_connected(&mut self, moment: u64) -> Result<Vec<u8>, NoMemory>
        ensures answered { IfOk result (λ lines.
            AnswersEvent self.old (script.NotConnected moment) lines.items self.new) }
        ensures text { self.new.text ≡ self.old.text }
    {
        let alloc = self.alloc;
        self.go_on_to(moment);
        match self.gateway.not_connected(moment) {
            Ok(()) => Ok(Vec::new(alloc)),
            Err(PlaceFault::NotAsked) => {
                Ok(Vec::from_slice(alloc, b"not-connected refused 1 NotAsked\n")?)
            }
            Err(PlaceFault::NoMemory) => Err(NoMemory),
        }
    }
}
