//! All calls, and what is done for them as the switch says.
use crate::call::CallState;
use crate::desk::Desk;
use crate::out::Progress;
use crate::profile::Profile;
use fax_switch::{Entry, LineAction, SipAction, Stage};
use std::alloc::AllocError;

/// All calls.
pub(crate) struct Book {
    pub calls: Vec<CallState>,
    /// The call that the event begins which is told next.
    pub opening: Option<CallState>,
    pub desk: Desk,
}

impl Drop for Book {
    fn drop(self) {
        let Book {
            calls: _calls,
            opening: _opening,
            desk: _desk,
        } = self;
    }
}

/// Whether nothing is to be done for a call.
fn is_quiet(entry: &Entry) -> bool {
    matches!(entry.sip, SipAction::Silence) && matches!(entry.line, LineAction::NoWord)
}

/// Whether a call is over.
fn is_over(entry: &Entry) -> bool {
    matches!(entry.call.stage, Stage::Over)
}

impl Book {
    /// The place of the call of this number.
    pub fn place_of(&self, id: u64) -> Option<usize> {
        self.calls.iter().position(|call| call.id == id)
    }

    /// What is to be done for each call of the switch is done. `Err` means that memory was refused for some of it.
    pub fn carry_out(&mut self, profile: &Profile, entries: &[Entry]) -> Result<(), AllocError> {
        let mut outcome = self.bind(entries);
        for entry in entries {
            if self.carry_out_one(profile, entry).is_err() {
                outcome = Err(AllocError);
            }
        }
        self.desk.sweep();
        outcome
    }

    /// No call began after all: its INVITE is refused, as far as there is memory for that.
    pub fn drop_opening(&mut self) {
        let Some(mut call) = self.opening.take() else {
            return;
        };
        if call.has_place {
            self.desk.release_place(call.trunk);
        }
        let _ = self.desk.reject(&mut call, 503);
    }

    /// The call that began is the last one.
    fn bind(&mut self, entries: &[Entry]) -> Result<(), AllocError> {
        let Some(mut call) = self.opening.take() else {
            return Ok(());
        };
        let Some(entry) = entries.last() else {
            return Ok(());
        };
        call.id = entry.call.id;
        let told = self.desk.tell(&call, Progress::Begun);
        let trunk = call.trunk;
        let has_place = call.has_place;
        if self.calls.push(call).is_err() {
            if has_place {
                self.desk.release_place(trunk);
            }
            return Err(AllocError);
        }
        told
    }

    /// What is to be done for a call.
    fn carry_out_one(&mut self, profile: &Profile, entry: &Entry) -> Result<(), AllocError> {
        if is_quiet(entry) {
            return Ok(());
        }
        let Some(place) = self.place_of(entry.call.id) else {
            return Ok(());
        };
        let Some(call) = self.calls.get_mut(place) else {
            return Ok(());
        };
        if let LineAction::RefuseCall(_, status) = entry.line {
            call.refused = status;
        }
        send(&mut self.desk, profile, call, entry.sip)
    }

    /// Calls that are over are let go of.
    pub fn let_go(&mut self, entries: &[Entry]) -> Result<(), AllocError> {
        for entry in entries {
            if is_over(entry) {
                self.let_go_one(entry.call.id)?;
            }
        }
        Ok(())
    }

    /// A call is over.
    fn let_go_one(&mut self, id: u64) -> Result<(), AllocError> {
        let Some(place) = self.place_of(id) else {
            return Ok(());
        };
        if place >= self.calls.len() {
            return Ok(());
        }
        let call = self.calls.swap_remove(place);
        if call.has_place {
            self.desk.release_place(call.trunk);
        }
        let progress = if call.refused > 0 && !call.is_answered {
            Progress::Refused(call.refused)
        } else {
            Progress::Over
        };
        self.desk.tell(&call, progress)
    }
}

/// What is to be sent for a call.
fn send(
    desk: &mut Desk,
    profile: &Profile,
    call: &mut CallState,
    action: SipAction,
) -> Result<(), AllocError> {
    match action {
        SipAction::Silence | SipAction::AcceptBye => Ok(()),
        SipAction::SendOffer(_, offer) => desk.offer(profile, call, offer),
        SipAction::Cancel => {
            call.ring_until = None;
            desk.cancel(call.id)
        }
        SipAction::Accept(offer) => desk.accept(profile, call, offer),
        SipAction::AcceptAgain => desk.accept_again(call),
        SipAction::Reject(status) => {
            call.refused = status;
            desk.reject(call, status)
        }
        SipAction::Ack => desk.confirm(profile, call),
        SipAction::AckAndBye => {
            desk.confirm(profile, call)?;
            desk.bye(profile, call)
        }
        SipAction::InviteAgain => desk.offer_again(profile, call),
        SipAction::Bye => desk.bye(profile, call),
        SipAction::ByeAndReject => {
            desk.bye(profile, call)?;
            desk.reject(call, 487)
        }
        SipAction::AcceptByeAndReject => desk.reject(call, 487),
    }
}
