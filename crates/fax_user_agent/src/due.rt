//! What is due as time passes.
ghost use Rattle.std.specs.Prelude.{◌≡◌, ℕ, Option};
ghost use Rattle.fax_user_agent.specs.Dues.{ComesBy, ComesByAll, MayBeDue, due_of, earlier_of};
ghost use Rattle.fax_user_agent.specs.Events.{Brings};

use crate::book::Book;
use crate::call::CallState;
use crate::client::Purpose;
use crate::desk::Desk;
use crate::profile::Profile;
use fax_dialogs::{TimerAction, TimerEvent};
use fax_switch::{CallEvent, Description, Entry, Event, Stage};
use fax_transactions::{ClientAction, ClientEvent, ServerAction, ServerEvent};
use fax_trunks::RegistrationEvent;
use std::alloc::AllocError;

/// The earlier of two moments.
fn earlier(one: Option<u64>, other: Option<u64>) -> Option<u64>
    ensures { result ≡ earlier_of one other }
{
    match (one, other) {
        (Some(one), Some(other)) => Some(one.min(other)),
        (Some(one), None) => Some(one),
        (None, other) => other,
    }
}

/// The moment from which time does something in a call of the switch.
fn due_of_stage(stage: Stage) -> Option<u64>
    ensures { result ≡ due_of stage }
{
    match stage {
        Stage::Asking(_, until) | Stage::Dropped(until) | Stage::Cancelling(until) => Some(until),
        Stage::Talking(session, _) => session.next_due(),
        Stage::Placing(_, _) => None,
        Stage::Over => None,
    }
}

/// The moment from which something is due in a call beside that.
fn due_of_call(call: &CallState) -> Option<u64> {
    if call.inviting.is_unsent {
        return Some(0);
    }
    earlier(call.timer.next_due(), call.ring_until)
}

/// Whether a moment is reached.
fn is_reached(due: Option<u64>, now: u64) -> bool {
    match due {
        Some(due) => due <= now,
        None => false,
    }
}

/// The earliest moment of calls of the switch.
pub(crate) fn due_of_entries(entries: &[Entry]) -> Option<u64>
    ensures { ComesByAll result entries.now }
{
    let mut due = None;
    for entry in entries {
        due = earlier(due, due_of_stage(entry.call.stage));
    }
    due
}

impl Desk {
    /// Answers that are due again are sent.
    fn go_on_servers(&mut self) -> Result<(), AllocError> {
        let now = self.now;
        for server in self.servers.iter_mut() {
            if is_reached(server.serving.next_due(), now)
                && server.serving.hear(now, ServerEvent::TimePassed) == ServerAction::SendAgain
            {
                self.made
                    .send(self.alloc, server.to, server.serving.last_answer())?;
            }
        }
        Ok(())
    }

    /// Requests that are due again are sent, up to the first that is given up: what it was for.
    fn go_on_clients(&mut self) -> Result<Option<Purpose>, AllocError> {
        let now = self.now;
        for client in self.clients.iter_mut() {
            if is_reached(client.next_due(), now) {
                match client.step(now, ClientEvent::TimePassed) {
                    ClientAction::SendAgain => {
                        self.made
                            .send(self.alloc, client.to, client.octets.as_slice())?;
                    }
                    ClientAction::TimedOut => return Ok(Some(client.purpose)),
                    _ => {}
                }
            }
        }
        Ok(None)
    }

    /// Registrations that are due are gone on with.
    fn go_on_registrations(&mut self, profile: &Profile) -> Result<(), AllocError> {
        for trunk in 0..self.lanes.len() {
            let due = match self.lanes.get(trunk) {
                Some(lane) => match lane.registration {
                    Some(registration) => registration.next_due(),
                    None => None,
                },
                None => None,
            };
            if is_reached(due, self.now) {
                self.step_registration(profile, trunk, RegistrationEvent::TimePassed, None)?;
            }
        }
        Ok(())
    }

    /// The moment from which something is due of what all calls share.
    fn next_due(&self) -> Option<u64> {
        let mut due = None;
        for client in &self.clients {
            due = earlier(due, client.next_due());
        }
        for server in &self.servers {
            due = earlier(due, server.serving.next_due());
        }
        for lane in &self.lanes {
            if let Some(registration) = lane.registration {
                due = earlier(due, registration.next_due());
            }
        }
        due
    }
}

/// What is due in a call: what it is for the switch.
fn go_on_call(desk: &mut Desk, call: &mut CallState) -> Result<Option<Event>, AllocError>
    ensures { Brings MayBeDue result }
{
    if call.inviting.is_unsent {
        call.inviting.is_unsent = false;
        return Ok(Some(Event::Within(
            call.id,
            CallEvent::InviteAnswered(500, 0, Description::NothingSaid),
        )));
    }
    if is_reached(call.timer.next_due(), desk.now) {
        match call.timer.step(desk.now, TimerEvent::TimePassed) {
            TimerAction::Refresh => {
                return Ok(Some(Event::Within(call.id, CallEvent::RefreshDue)));
            }
            TimerAction::Expire => return Ok(Some(Event::Within(call.id, CallEvent::Expired))),
            TimerAction::Nothing => {}
        }
    }
    if is_reached(call.ring_until, desk.now) {
        call.ring_until = None;
        call.rang = true;
        desk.cancel(call.id)?;
    }
    Ok(None)
}

impl Book {
    /// What is due is done, up to the first thing that the switch is to know.
    pub fn go_on(&mut self, profile: &Profile) -> Result<Option<Event>, AllocError>
        ensures { Brings MayBeDue result }
    {
        self.desk.go_on_servers()?;
        match self.desk.go_on_clients()? {
            Some(Purpose::Invite(id)) => {
                return Ok(Some(Event::Within(
                    id,
                    CallEvent::InviteAnswered(408, 0, Description::NothingSaid),
                )));
            }
            Some(Purpose::Bye(id)) => return Ok(Some(Event::Within(id, CallEvent::ByeDone))),
            Some(Purpose::Register(trunk)) => {
                self.desk
                    .step_registration(profile, trunk, RegistrationEvent::Refused, None)?;
            }
            Some(Purpose::Cancel) | None => {}
        }
        for call in self.calls.iter_mut() {
            let event = go_on_call(&mut self.desk, call)?;
            if event.is_some() {
                return Ok(event);
            }
        }
        self.desk.go_on_registrations(profile)?;
        Ok(None)
    }

    /// The moment from which something is due beside what the switch knows.
    pub fn next_due(&self) -> Option<u64> {
        let mut due = self.desk.next_due();
        for call in &self.calls {
            due = earlier(due, due_of_call(call));
        }
        due
    }

    /// The earlier of that moment and another.
    #[tactic(auto, using(crate::proofs::DueLemmas::still_comes_with))]
    pub fn due_with(&self, other: Option<u64>) -> Option<u64>
        ensures { (moment : Option ℕ) → ComesBy other moment → ComesBy result moment }
    {
        earlier(self.next_due(), other)
    }
}
