//! Registrations.
use crate::answered::challenge_of;
use crate::client::Purpose;
use crate::desk::{Desk, written};
use crate::lane::Lane;
use crate::offering::{Credential, add_line, address_text};
use crate::out::Told;
use crate::profile::Profile;
use fax_requests::{branch_of, read_seconds};
use fax_sip::{Field, Message, Name, Party, Request, parameter, write_request};
use fax_trunks::{RegistrationAction, RegistrationEvent};
use std::alloc::{AllocError, Global};

/// The seconds that a 2xx to a REGISTER grants: those of its first `Contact`, or else `Expires`.
fn granted(answer: &Message<'_>) -> Option<u32> {
    if let Some(contact) = answer.elements(Name::Contact).next()
        && let Some(value) = parameter(contact, "expires")
    {
        return read_seconds(value);
    }
    read_seconds(answer.value(Name::Expires)?)
}

/// What a final answer to a REGISTER is for the registration.
fn event_of(answer: &Message<'_>, status: u16) -> RegistrationEvent {
    if status < 300 {
        return match granted(answer) {
            Some(seconds) => RegistrationEvent::Granted(seconds),
            None => RegistrationEvent::Refused,
        };
    }
    match status {
        401 | 407 => match challenge_of(answer) {
            Some((challenge, _)) => RegistrationEvent::Challenged(challenge.is_stale),
            None => RegistrationEvent::Refused,
        },
        423 => match answer.value(Name::MinExpires) {
            Some(value) => match read_seconds(value) {
                Some(least) => RegistrationEvent::TooBrief(least),
                None => RegistrationEvent::Refused,
            },
            None => RegistrationEvent::Refused,
        },
        _ => RegistrationEvent::Refused,
    }
}

impl Desk {
    /// A final answer to a REGISTER came.
    pub fn registered(
        &mut self,
        profile: &Profile,
        trunk: usize,
        place: usize,
        answer: &Message<'_>,
        status: u16,
    ) -> Result<(), AllocError> {
        let request = match self.clients.get(place) {
            Some(client) => Vec::from_slice(self.alloc, client.octets.as_slice())?,
            None => Vec::new(self.alloc),
        };
        let credential = self.credential(profile, trunk, request.as_slice(), answer)?;
        self.step_registration(profile, trunk, event_of(answer, status), credential)
    }

    /// The registrations are to end.
    pub fn leave(&mut self, profile: &Profile) -> Result<(), AllocError> {
        for trunk in 0..profile.trunks.len() {
            self.step_registration(profile, trunk, RegistrationEvent::Ended, None)?;
        }
        Ok(())
    }

    /// Something happens in the registration with a trunk.
    pub fn step_registration(
        &mut self,
        profile: &Profile,
        trunk: usize,
        event: RegistrationEvent,
        credential: Option<Credential>,
    ) -> Result<(), AllocError> {
        let now = self.now;
        let Some(lane) = self.lanes.get_mut(trunk) else {
            return Ok(());
        };
        let Some(mut registration) = lane.registration else {
            return Ok(());
        };
        let action = registration.step(now, event);
        lane.registration = Some(registration);
        self.tell_registration(trunk)?;
        match action {
            RegistrationAction::Nothing => Ok(()),
            RegistrationAction::Register(seconds) => self.register(profile, trunk, seconds, None),
            RegistrationAction::RegisterWithCredentials(seconds) => {
                self.register(profile, trunk, seconds, credential)
            }
            RegistrationAction::Unregister => self.register(profile, trunk, 0, None),
            RegistrationAction::UnregisterWithCredentials => {
                self.register(profile, trunk, 0, credential)
            }
        }
    }

    /// Whether we are registered with a trunk is told, where it has changed.
    fn tell_registration(&mut self, trunk: usize) -> Result<(), AllocError> {
        let now = self.now;
        let Some(lane) = self.lanes.get_mut(trunk) else {
            return Ok(());
        };
        let is_registered = match lane.registration {
            Some(registration) => registration.is_registered(now),
            None => false,
        };
        if is_registered != lane.was_registered {
            lane.was_registered = is_registered;
            self.made
                .told
                .push(Told::Registration(trunk, is_registered))?;
        }
        Ok(())
    }

    /// A REGISTER that asks for so many seconds.
    fn register(
        &mut self,
        profile: &Profile,
        place: usize,
        seconds: u32,
        credential: Option<Credential>,
    ) -> Result<(), AllocError> {
        let Some(trunk) = profile.trunks.get(place) else {
            return Ok(());
        };
        let Some(lane) = self.lanes.get_mut(place) else {
            return Ok(());
        };
        lane.number = lane.number.saturating_add(1);
        let seconds = format!(in self.alloc; "{seconds}")?;
        let contact = contact_of(self.alloc, profile, trunk.user.as_str())?;
        let mut fields = Vec::new(self.alloc);
        put_register_fields(
            &mut fields,
            contact.as_bytes(),
            seconds.as_bytes(),
            credential.as_ref(),
        )?;
        let branch = branch_of(self.random.token());
        let uri = address_text(self.alloc, b"", trunk.address)?;
        let who = address_text(self.alloc, trunk.user.as_bytes(), trunk.address)?;
        let octets = octets_of_register(
            self.alloc,
            profile.sent_by.as_bytes(),
            uri.as_bytes(),
            who.as_bytes(),
            lane,
            branch.as_slice(),
            fields.as_slice(),
        )?;
        let Some(octets) = octets else {
            return Ok(());
        };
        let machine = self.request_machine();
        let purpose = Purpose::Register(place);
        self.ask(purpose, machine, branch, trunk.address, octets)?;
        Ok(())
    }
}

/// The lines of a REGISTER.
fn put_register_fields<'a>(
    fields: &mut Vec<Field<'a>>,
    contact: &'a [u8],
    seconds: &'a [u8],
    credential: Option<&'a Credential>,
) -> Result<(), AllocError> {
    add_line(fields, Name::Contact, contact)?;
    add_line(fields, Name::Expires, seconds)?;
    if let Some(credential) = credential {
        add_line(fields, credential.name, credential.value.as_slice())?;
    }
    Ok(())
}

/// The octets of a REGISTER with these lines, of this user.
fn octets_of_register<'x>(
    alloc: Global,
    sent_by: &'x [u8],
    uri: &'x [u8],
    who: &'x [u8],
    lane: &'x Lane,
    branch: &'x [u8],
    fields: &'x [Field<'x>],
) -> Result<Option<Vec<u8>>, AllocError> {
    let request = Request {
        method: b"REGISTER",
        uri,
        sent_by,
        branch,
        from: Party {
            uri: who,
            tag: Some(lane.tag.as_slice()),
        },
        to: Party {
            uri: who,
            tag: None,
        },
        call_id: lane.call_id.as_slice(),
        number: lane.number,
        fields,
        body: b"",
    };
    written(write_request(alloc, &request))
}

/// Our contact, as a registrar is to know it.
fn contact_of(alloc: Global, profile: &Profile, user: &str) -> Result<String, AllocError> {
    let host = profile.sent_by.as_str();
    if user.is_empty() {
        format!(in alloc; "<sip:{host}>")
    } else {
        format!(in alloc; "<sip:{user}@{host}>")
    }
}
