//! A dialog: what it is made of, and which messages are of it.
ghost use Rattle.std.specs.Prelude.{◌≡◌, true, false, IfErr, IsOk, OnErr, OnOk};
ghost use Rattle.fax_dialogs.specs.Dialogs.{begun_by_answerer, begun_by_caller, dialog_of_answerer, dialog_of_caller, heard as heard_by, is_answer_of, is_low, is_of, number_after, numbered, target_by};
ghost use Rattle.fax_sip.specs.Messages.{message_text};

use crate::dialog_fault::DialogFault;
use crate::ends::Ends;
use crate::reading::{Routes, accepts, contact_of, is_invite, routes_of, tag_of};
use crate::role::Role;
use crate::text::Text;
use fax_sip::{Message, Name, parameter, uri_of};
use std::marker::Model;

/// A dialog (RFC 3261, 12): its Call-ID and both tags, which are its name; both addresses; the numbers of the requests of both ends; the
/// target of ours, and their route.
pub struct Dialog {
    pub(crate) role: Role,
    pub(crate) ends: Ends,
    pub(crate) local_number: u32,
    pub(crate) remote_number: Option<u32>,
    pub(crate) target: Text,
    pub(crate) routes: Routes,
}

impl Drop for Dialog {
    fn drop(self) {
        let Dialog {
            role: _role,
            ends: _ends,
            local_number: _local_number,
            remote_number: _remote_number,
            target: _target,
            routes: _routes,
        } = self;
    }
}

impl Model for Dialog {
    ghost use Rattle.fax_dialogs.specs.DialogValues.{DialogValue};

    ghost Value = { DialogValue };

    ghost view = { λ dialog. record {
      role = dialog.role;
      call_id = dialog.ends.call_id;
      local_tag = dialog.ends.local_tag;
      remote_tag = dialog.ends.remote_tag;
      local_uri = dialog.ends.local_uri;
      remote_uri = dialog.ends.remote_uri;
      local_number = dialog.local_number;
      remote_number = dialog.remote_number;
      target = dialog.target;
      routes = dialog.routes.items;
    } };
}

impl Dialog {
    /// The dialog that a 2xx to our INVITE makes (RFC 3261, 12.1.2).
    pub fn of_caller(request: &Message<'_>, answer: &Message<'_>) -> Result<Self, DialogFault>
        ensures { result ≡ dialog_of_caller (message_text request.now) (message_text answer.now) }
    {
        if !is_invite(request) {
            return Err(DialogFault::NoInvite);
        }
        if !accepts(request, answer) {
            return Err(DialogFault::OtherCall);
        }
        begin_as_caller(request, answer)
    }

    /// The dialog that our 2xx to their INVITE makes, whose `To` has this tag (12.1.1).
    pub fn of_answerer(request: &Message<'_>, tag: &[u8]) -> Result<Self, DialogFault>
        ensures { result ≡ dialog_of_answerer (message_text request.now) tag.now }
    {
        if !is_invite(request) {
            return Err(DialogFault::NoInvite);
        }
        if parameter(request.to, "tag").is_some() {
            return Err(DialogFault::HasTag);
        }
        begin_as_answerer(request, tag)
    }

    /// Which end of the call we are.
    pub fn role(&self) -> Role
        ensures { result ≡ self.now.role }
    {
        self.role
    }

    /// Whether a request of the other end is one within this dialog: it has that Call-ID and those tags, octet for octet.
    pub fn takes(&self, request: &Message<'_>) -> bool
        ensures { result ≡ is_of self.now (message_text request.now) }
    {
        request.call_id == self.ends.call_id.as_slice()
            && tag_of(request.to) == self.ends.local_tag.as_slice()
            && tag_of(request.from) == self.ends.remote_tag.as_slice()
    }

    /// Whether an answer is one to a request of ours within this dialog.
    pub fn is_answered_by(&self, answer: &Message<'_>) -> bool
        ensures { result ≡ is_answer_of self.now (message_text answer.now) }
    {
        answer.call_id == self.ends.call_id.as_slice()
            && tag_of(answer.from) == self.ends.local_tag.as_slice()
            && tag_of(answer.to) == self.ends.remote_tag.as_slice()
    }

    /// A request of the other end within this dialog, neither an ACK nor a CANCEL, has this number. `Err` means that it is out of order, and
    /// is answered 500 (12.2.2); then nothing changes.
    pub fn hear(&mut self, number: u32) -> Result<(), DialogFault>
        ensures low { is_low self.old.remote_number number ≡ true
            → result ≡ Err DialogFault.LowNumber }
        ensures in_order { is_low self.old.remote_number number ≡ false → IsOk result }
        ensures dialog { self.new ≡ heard_by self.old number }
    {
        if let Some(last) = self.remote_number
            && number < last
        {
            return Err(DialogFault::LowNumber);
        }
        self.remote_number = Some(number);
        Ok(())
    }

    /// The number of the next request of ours within this dialog (12.2.1.1). `Err` means that none below 2^31 is left; then nothing changes.
    pub fn take_number(&mut self) -> Result<u32, DialogFault>
        ensures outcome { result ≡ number_after self.old.local_number }
        ensures dialog { self.new ≡ numbered self.old }
    {
        if self.local_number < 0x7fff_ffff {
            self.local_number += 1;
            Ok(self.local_number)
        } else {
            Err(DialogFault::NumbersSpent)
        }
    }

    /// A re-INVITE that was answered with a 2xx, or the 2xx to ours, has a new target where it has a `Contact` (12.2.1.2, 12.2.2). `Err` means
    /// that its address is too long; then nothing changes.
    pub fn refresh(&mut self, message: &Message<'_>) -> Result<(), DialogFault>
        ensures ok { OnOk result (target_by self.old (message_text message.now)
            ≡ Ok self.new.target) }
        ensures fails { IfErr result
            (λ fault. target_by self.old (message_text message.now) ≡ Err fault) }
        ensures rest { self.new ≡ record self.old { target = self.new.target } }
        ensures unchanged { OnErr result (self.new ≡ self.old) }
    {
        if let Some(value) = message.elements(Name::Contact).next() {
            self.target = Text::new(uri_of(value))?;
        }
        Ok(())
    }
}

/// The dialog that a 2xx to our INVITE makes.
#[tactic(auto, unfolding(crate::specs::Dialogs::begun_by_caller))]
fn begin_as_caller(request: &Message<'_>, answer: &Message<'_>) -> Result<Dialog, DialogFault>
    ensures { result ≡ begun_by_caller (message_text request.now) (message_text answer.now) }
{
    let target = contact_of(answer)?;
    let mut routes = routes_of(answer)?;
    let ends = Ends::new(
        request.call_id,
        tag_of(request.from),
        tag_of(answer.to),
        uri_of(request.from),
        uri_of(request.to),
    )?;
    routes.as_mut_slice().reverse();
    Ok(Dialog {
        role: Role::Caller,
        ends,
        local_number: request.sequence.number,
        remote_number: None,
        target,
        routes,
    })
}

/// The dialog that our 2xx to their INVITE makes.
#[tactic(auto, unfolding(crate::specs::Dialogs::begun_by_answerer))]
fn begin_as_answerer(request: &Message<'_>, tag: &[u8]) -> Result<Dialog, DialogFault>
    ensures { result ≡ begun_by_answerer (message_text request.now) tag.now }
{
    let target = contact_of(request)?;
    let routes = routes_of(request)?;
    let ends = Ends::new(
        request.call_id,
        tag,
        tag_of(request.from),
        uri_of(request.to),
        uri_of(request.from),
    )?;
    Ok(Dialog {
        role: Role::Answerer,
        ends,
        local_number: 0,
        remote_number: Some(request.sequence.number),
        target,
        routes,
    })
}
