//! Our answers to their INVITEs.
use crate::agreeing::agreed_on;
use crate::call::{Asked, CallState, Kept};
use crate::desk::Desk;
use crate::offering::{ALLOW, add_line};
use crate::out::Progress;
use crate::profile::Profile;
use fax_dialogs::Agent;
use fax_requests::answer_theirs;
use fax_sip::{Field, Name, read_message};
use fax_switch::Offer;
use std::alloc::AllocError;

impl Desk {
    /// Their INVITE is answered with 200 and this.
    pub fn accept(
        &mut self,
        profile: &Profile,
        call: &mut CallState,
        offer: Offer,
    ) -> Result<(), AllocError> {
        let Some(asked) = call.theirs.take() else {
            return Ok(());
        };
        let Ok(invite) = read_message(asked.octets.as_slice()) else {
            return Ok(());
        };
        if let Some(dialog) = &mut call.dialog {
            let _ = dialog.refresh(&invite);
        }
        let ours = call.ours(profile, offer);
        let body = answer_theirs(self.alloc, ours, invite.body)?;
        call.hear_least(&invite);
        let agreed = agreed_on(&invite);
        call.agree(self.now, agreed, false);
        let interval = self.interval_text(agreed)?;
        let mut fields = Vec::new(self.alloc);
        put_answer_fields(
            &mut fields,
            profile.contact.as_bytes(),
            interval.as_bytes(),
            agreed,
        )?;
        let tag = call.tag;
        let octets = self.answer_octets(
            &invite,
            200,
            tag.as_slice(),
            fields.as_slice(),
            body.as_bytes(),
        )?;
        let Some(octets) = octets else {
            return Ok(());
        };
        let branch = match invite.key() {
            Some(key) => Vec::from_slice(self.alloc, key.branch)?,
            None => Vec::new(self.alloc),
        };
        let copy = Vec::from_slice(self.alloc, octets.as_slice())?;
        call.accepted = Some(Kept {
            number: invite.sequence.number,
            branch,
            to: asked.to,
            octets: copy,
        });
        if !call.is_answered {
            call.is_answered = true;
            self.tell(call, Progress::Answered)?;
        }
        self.answer_as(asked.server, asked.to, 200, octets)
    }

    /// The value of `Session-Expires`; empty where nothing was agreed on.
    fn interval_text(&self, agreed: Option<(u32, Agent)>) -> Result<String, AllocError> {
        match agreed {
            Some((seconds, Agent::Uac)) => format!(in self.alloc; "{seconds};refresher=uac"),
            Some((seconds, Agent::Uas)) => format!(in self.alloc; "{seconds};refresher=uas"),
            None => Ok(String::new(self.alloc)),
        }
    }

    /// Our last 2xx again.
    pub fn accept_again(&mut self, call: &CallState) -> Result<(), AllocError> {
        match &call.accepted {
            Some(kept) => self.made.send(self.alloc, kept.to, kept.octets.as_slice()),
            None => Ok(()),
        }
    }

    /// Their INVITE is refused.
    pub fn reject(&mut self, call: &mut CallState, status: u16) -> Result<(), AllocError> {
        let Some(asked) = call.theirs.take() else {
            return Ok(());
        };
        let tag = call.tag;
        self.refuse(&asked, tag.as_slice(), status)
    }

    /// An INVITE that waits for an answer is refused.
    pub fn refuse(&mut self, asked: &Asked, tag: &[u8], status: u16) -> Result<(), AllocError> {
        let Ok(invite) = read_message(asked.octets.as_slice()) else {
            return Ok(());
        };
        let later = [Field {
            name: Name::RetryAfter,
            value: b"10",
        }];
        let fields: &[Field<'_>] = if status == 503 || status == 500 {
            &later
        } else {
            &[]
        };
        match self.answer_octets(&invite, status, tag, fields, b"")? {
            Some(octets) => self.answer_as(asked.server, asked.to, status, octets),
            None => Ok(()),
        }
    }
}

/// The lines of a 200 to an INVITE.
fn put_answer_fields<'a>(
    fields: &mut Vec<Field<'a>>,
    contact: &'a [u8],
    interval: &'a [u8],
    agreed: Option<(u32, Agent)>,
) -> Result<(), AllocError> {
    add_line(fields, Name::Contact, contact)?;
    add_line(fields, Name::Allow, ALLOW)?;
    add_line(fields, Name::Supported, b"timer")?;
    if let Some((_, agent)) = agreed {
        add_line(fields, Name::SessionExpires, interval)?;
        if agent == Agent::Uac {
            add_line(fields, Name::Require, b"timer")?;
        }
    }
    add_line(fields, Name::ContentType, b"application/sdp")
}
