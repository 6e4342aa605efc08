//! Our INVITEs, their ACKs and CANCELs, and BYEs.
ghost use Rattle.std.specs.Prelude.{◌≡◌, [], ◌∷◌, ◌++◌, OnOk, map};
ghost use Rattle.std.specs.Option.{option_copied};
ghost use Rattle.fax_dialogs.specs.Within.{field_text};
ghost use Rattle.fax_user_agent.specs.Invites.{credential_lines, invite_lines};

use crate::call::{CallState, Kept};
use crate::client::Purpose;
use crate::desk::{Desk, written};
use crate::out::Progress;
use crate::profile::Profile;
use fax_dialogs::Within;
use fax_requests::{IntervalText, branch_of, describe_ours, next_hop, write_cancel};
use fax_sip::{Field, Name, Party, Request, read_message, write_request};
use fax_switch::Offer;
use fax_transactions::ClientEvent;
use std::alloc::{AllocError, Global};
use std::net::SocketAddr;
use std::str;

/// What we allow.
pub(crate) const ALLOW: &[u8] = b"INVITE, ACK, CANCEL, BYE, OPTIONS";

/// A header line and its value, where there is one.
pub(crate) struct Credential {
    pub name: Name,
    pub value: Vec<u8>,
}

impl Drop for Credential {
    fn drop(self) {
        let Credential {
            name: _name,
            value: _value,
        } = self;
    }
}

/// The lines of an INVITE of ours.
fn put_invite_fields<'a>(
    fields: &mut Vec<Field<'a>>,
    contact: &'a [u8],
    interval: &'a IntervalText,
    credential: Option<&'a Credential>,
) -> Result<(), AllocError>
    ensures { OnOk result (map field_text fields.new.items ≡ map field_text fields.old.items
        ++ invite_lines contact.now interval.now.interval (option_copied credential.entry)) }
{
    put_line(fields, Name::Contact, contact)?;
    put_line(fields, Name::Allow, ALLOW)?;
    interval.put(fields)?;
    put_credential(fields, credential)?;
    put_line(fields, Name::ContentType, b"application/sdp")?;
    Ok(())
}

/// A line more.
fn put_line<'a>(fields: &mut Vec<Field<'a>>, name: Name, value: &'a [u8]) -> Result<(), AllocError>
    ensures { OnOk result (map field_text fields.new.items
        ≡ map field_text fields.old.items ++ (name, value.now) ∷ []) }
{
    fields.push(Field { name, value })?;
    Ok(())
}

/// A line more, of which nothing is promised: what promises costs each call of it.
pub(crate) fn add_line<'a>(
    fields: &mut Vec<Field<'a>>,
    name: Name,
    value: &'a [u8],
) -> Result<(), AllocError> {
    fields.push(Field { name, value })?;
    Ok(())
}

/// The line of credentials, where there are some.
fn put_credential<'a>(
    fields: &mut Vec<Field<'a>>,
    credential: Option<&'a Credential>,
) -> Result<(), AllocError>
    ensures { OnOk result (map field_text fields.new.items
        ≡ map field_text fields.old.items ++ credential_lines (option_copied credential.entry)) }
{
    if let Some(credential) = credential {
        fields.push(Field {
            name: credential.name,
            value: credential.value.as_slice(),
        })?;
    }
    Ok(())
}

/// The address of a user at a host.
pub(crate) fn address_text(
    alloc: Global,
    user: &[u8],
    host: SocketAddr,
) -> Result<String, AllocError> {
    match str::from_utf8(user) {
        Ok(user) if !user.is_empty() => format!(in alloc; "sip:{user}@{host}"),
        _ => format!(in alloc; "sip:{host}"),
    }
}

/// The octets of the INVITE that opens a call's dialog, from one address to another.
fn octets_of_invite<'x>(
    alloc: Global,
    sent_by: &'x [u8],
    from: &'x [u8],
    to: &'x [u8],
    call: &'x CallState,
    branch: &'x [u8],
    fields: &'x [Field<'x>],
    body: &'x [u8],
) -> Result<Option<Vec<u8>>, AllocError> {
    let request = Request {
        method: b"INVITE",
        uri: to,
        sent_by,
        branch,
        from: Party {
            uri: from,
            tag: Some(call.tag.as_slice()),
        },
        to: Party { uri: to, tag: None },
        call_id: call.call_id.as_slice(),
        number: call.inviting.number,
        fields,
        body,
    };
    written(write_request(alloc, &request))
}

impl Desk {
    /// The INVITE with which we call, or the one with the other offer.
    pub fn offer(
        &mut self,
        profile: &Profile,
        call: &mut CallState,
        offer: Offer,
    ) -> Result<(), AllocError> {
        if call.ring_until.is_none() {
            call.ring_until = Some(self.now.saturating_add(profile.ring_ms));
        }
        self.invite(profile, call, offer, None)
    }

    /// Our re-INVITE, which offers T.38.
    pub fn offer_again(
        &mut self,
        profile: &Profile,
        call: &mut CallState,
    ) -> Result<(), AllocError> {
        call.inviting.is_authorized = false;
        call.inviting.is_longer = false;
        self.invite(profile, call, Offer::Fax, None)
    }

    /// The ACK of a 2xx to our INVITE, which is no longer given up.
    pub fn confirm(&mut self, profile: &Profile, call: &mut CallState) -> Result<(), AllocError> {
        call.ring_until = None;
        if !call.is_answered {
            call.is_answered = true;
            self.tell(call, Progress::Answered)?;
        }
        self.acknowledge(profile, call)
    }

    /// An INVITE of ours: within the dialog where there is one. Where it can't be sent its call is told later.
    pub fn invite(
        &mut self,
        profile: &Profile,
        call: &mut CallState,
        offer: Offer,
        credential: Option<Credential>,
    ) -> Result<(), AllocError> {
        call.inviting.offer = offer;
        call.inviting.is_unsent = true;
        let Some(trunk) = profile.trunks.get(call.trunk) else {
            return Ok(());
        };
        call.ack = None;
        let ours = call.ours(profile, offer);
        let body = describe_ours(self.alloc, ours)?;
        let interval = IntervalText::new(self.alloc, call.interval)?;
        let mut fields = Vec::new(self.alloc);
        put_invite_fields(
            &mut fields,
            profile.contact.as_bytes(),
            &interval,
            credential.as_ref(),
        )?;
        let branch = branch_of(self.random.token());
        let octets = match call.dialog {
            Some(_) => self.octets_within(
                profile,
                call,
                b"INVITE",
                branch.as_slice(),
                fields.as_slice(),
                body.as_bytes(),
            )?,
            None => {
                call.inviting.number = call.inviting.number.saturating_add(1);
                let from = address_text(self.alloc, trunk.user.as_bytes(), trunk.address)?;
                let to = address_text(self.alloc, call.dialled.as_slice(), trunk.address)?;
                octets_of_invite(
                    self.alloc,
                    profile.sent_by.as_bytes(),
                    from.as_bytes(),
                    to.as_bytes(),
                    call,
                    branch.as_slice(),
                    fields.as_slice(),
                    body.as_bytes(),
                )?
            }
        };
        let Some(octets) = octets else {
            return Ok(());
        };
        let Some(to) = destination_of(profile, call.trunk, octets.as_slice()) else {
            return Ok(());
        };
        let machine = self.invite_machine(profile);
        let is_sent = self.ask(Purpose::Invite(call.id), machine, branch, to, octets)?;
        call.inviting.is_unsent = !is_sent;
        Ok(())
    }

    /// The octets of a request within a call's dialog, with the next number.
    fn octets_within(
        &mut self,
        profile: &Profile,
        call: &mut CallState,
        method: &[u8],
        branch: &[u8],
        fields: &[Field<'_>],
        body: &[u8],
    ) -> Result<Option<Vec<u8>>, AllocError> {
        let Some(dialog) = &mut call.dialog else {
            return Ok(None);
        };
        let Ok(number) = dialog.take_number() else {
            return Ok(None);
        };
        let within = Within {
            method,
            number,
            sent_by: profile.sent_by.as_bytes(),
            branch,
            fields,
            body,
        };
        let octets = written(dialog.write(self.alloc, &within))?;
        if method == b"INVITE".as_slice() {
            call.inviting.number = number;
        }
        Ok(octets)
    }

    /// The ACK of a 2xx to our INVITE: the same again where it was sent before.
    pub fn acknowledge(
        &mut self,
        profile: &Profile,
        call: &mut CallState,
    ) -> Result<(), AllocError> {
        if let Some(ack) = &call.ack {
            return self.made.send(self.alloc, ack.to, ack.octets.as_slice());
        }
        let Some(dialog) = &call.dialog else {
            return Ok(());
        };
        let number = call.inviting.number;
        let branch = branch_of(self.random.token());
        let within = Within {
            method: b"ACK",
            number,
            sent_by: profile.sent_by.as_bytes(),
            branch: branch.as_slice(),
            fields: &[],
            body: b"",
        };
        let Some(octets) = written(dialog.write(self.alloc, &within))? else {
            return Ok(());
        };
        let Some(to) = destination_of(profile, call.trunk, octets.as_slice()) else {
            return Ok(());
        };
        self.made.send(self.alloc, to, octets.as_slice())?;
        call.ack = Some(Kept {
            number,
            branch: Vec::new(self.alloc),
            to,
            octets,
        });
        Ok(())
    }

    /// A BYE.
    pub fn bye(&mut self, profile: &Profile, call: &mut CallState) -> Result<(), AllocError> {
        let branch = branch_of(self.random.token());
        let octets = self.octets_within(profile, call, b"BYE", branch.as_slice(), &[], b"")?;
        let Some(octets) = octets else {
            return Ok(());
        };
        let Some(to) = destination_of(profile, call.trunk, octets.as_slice()) else {
            return Ok(());
        };
        let machine = self.request_machine();
        self.ask(Purpose::Bye(call.id), machine, branch, to, octets)?;
        Ok(())
    }

    /// Our INVITE of this call is given up: by a CANCEL as soon as it may be sent (RFC 3261, 9.1).
    pub fn cancel(&mut self, id: u64) -> Result<(), AllocError> {
        for client in self.clients.iter_mut() {
            if client.purpose == Purpose::Invite(id) {
                client.is_to_cancel = true;
            }
        }
        self.send_cancels()
    }

    /// The CANCELs that are to be sent and may be.
    pub fn send_cancels(&mut self) -> Result<(), AllocError> {
        let Some(place) = self
            .clients
            .iter()
            .position(|client| client.is_to_cancel && client.is_proceeding())
        else {
            return Ok(());
        };
        let now = self.now;
        let Some(client) = self.clients.get_mut(place) else {
            return Ok(());
        };
        client.is_to_cancel = false;
        client.step(now, ClientEvent::Cancelled);
        let (branch, to) = (client.branch, client.to);
        let Ok(invite) = read_message(client.octets.as_slice()) else {
            return Ok(());
        };
        let Some(octets) = written(write_cancel(self.alloc, &invite))? else {
            return Ok(());
        };
        let machine = self.request_machine();
        self.ask(Purpose::Cancel, machine, branch, to, octets)?;
        Ok(())
    }
}

/// Where a request over a trunk goes.
fn destination_of(profile: &Profile, trunk: usize, octets: &[u8]) -> Option<SocketAddr> {
    let wanted = match read_message(octets) {
        Ok(request) => next_hop(&request),
        Err(_) => None,
    };
    profile.destination(trunk, wanted)
}
