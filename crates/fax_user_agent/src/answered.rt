//! Answers to our requests.
ghost use Rattle.std.specs.Prelude.{◌≤◌, ◌<◌, IfSome};
ghost use Rattle.fax_sip.specs.Messages.{message_text};
ghost use Rattle.fax_user_agent.specs.Events.{Brings, IsRefusal, MayBeAnswer};

use crate::agreeing::agreed_by;
use crate::book::Book;
use crate::call::CallState;
use crate::client::Purpose;
use crate::desk::{Desk, written};
use crate::offering::Credential;
use crate::outbox::count;
use crate::profile::Profile;
use fax_dialogs::{Dialog, Role, glare_pause};
use fax_digest::Credentials;
use fax_requests::{Challenge, read_challenge, write_ack, write_credentials};
use fax_sip::{Message, Name, Start, read_message};
use fax_switch::{CallEvent, Description, Event, describe};
use fax_transactions::{ClientAction, ClientEvent};
use std::alloc::AllocError;

/// The challenge of an answer, and the name of the line that answers it: the first by SHA-256, else the first that is answered at all.
pub(crate) fn challenge_of<'a>(answer: &Message<'a>) -> Option<(Challenge<'a>, Name)> {
    if let Some(challenge) = first_challenge(answer, Name::WwwAuthenticate) {
        return Some((challenge, Name::Authorization));
    }
    match first_challenge(answer, Name::ProxyAuthenticate) {
        Some(challenge) => Some((challenge, Name::ProxyAuthorization)),
        None => None,
    }
}

/// The first challenge in the lines of a name that is answered.
fn first_challenge<'a>(answer: &Message<'a>, name: Name) -> Option<Challenge<'a>> {
    let mut values = answer.values(name);
    while let Some(value) = values.next() {
        if let Some(challenge) = read_challenge(value) {
            return Some(challenge);
        }
    }
    None
}

impl Desk {
    /// The credentials of a trunk's user that answer a challenge to a request; none where there is no user, or no challenge that is answered.
    pub fn credential(
        &mut self,
        profile: &Profile,
        trunk: usize,
        request: &[u8],
        answer: &Message<'_>,
    ) -> Result<Option<Credential>, AllocError> {
        let Some(trunk) = profile.trunks.get(trunk) else {
            return Ok(None);
        };
        let Some((challenge, name)) = challenge_of(answer) else {
            return Ok(None);
        };
        let Ok(request) = read_message(request) else {
            return Ok(None);
        };
        let Start::Request(method, uri) = request.start else {
            return Ok(None);
        };
        if trunk.user.as_bytes().is_empty() {
            return Ok(None);
        }
        let client_nonce = self.random.token();
        let asked = Credentials {
            user: trunk.user.as_bytes(),
            realm: challenge.realm,
            password: trunk.password.as_bytes(),
            method,
            uri,
            nonce: challenge.nonce,
            count: b"00000001",
            client_nonce: client_nonce.as_slice(),
        };
        let value = write_credentials(self.alloc, &challenge, &asked)?;
        Ok(Some(Credential { name, value }))
    }

    /// The refusal of an INVITE is acknowledged.
    fn acknowledge_refusal(
        &mut self,
        place: usize,
        answer: &Message<'_>,
    ) -> Result<(), AllocError> {
        let Some(client) = self.clients.get_mut(place) else {
            return Ok(());
        };
        let Ok(invite) = read_message(client.octets.as_slice()) else {
            return Ok(());
        };
        let Some(ack) = written(write_ack(self.alloc, &invite, answer))? else {
            return Ok(());
        };
        self.made.send(self.alloc, client.to, ack.as_slice())?;
        client.ack = ack;
        Ok(())
    }

    /// The same ACK again.
    fn acknowledge_again(&mut self, place: usize) -> Result<(), AllocError> {
        match self.clients.get(place) {
            Some(client) if !client.ack.is_empty() => {
                self.made.send(self.alloc, client.to, client.ack.as_slice())
            }
            _ => Ok(()),
        }
    }
}

impl Book {
    /// An answer came: what it is for the switch.
    pub fn hear_answer(
        &mut self,
        profile: &Profile,
        answer: &Message<'_>,
        status: u16,
    ) -> Result<Option<Event>, AllocError>
        ensures { Brings (MayBeAnswer (message_text answer.now) status) result }
    {
        let Some(key) = answer.key() else {
            return Ok(None);
        };
        let Some(place) = self.desk.client_of(&key) else {
            return Ok(self.answered_again(answer, status));
        };
        let now = self.desk.now;
        let Some(client) = self.desk.clients.get_mut(place) else {
            return Ok(None);
        };
        let purpose = client.purpose;
        match client.step(now, ClientEvent::Answered(status)) {
            ClientAction::Tell(_) => self.answered(profile, place, purpose, answer, status),
            ClientAction::TellAndAcknowledge(_) => {
                self.desk.acknowledge_refusal(place, answer)?;
                self.answered(profile, place, purpose, answer, status)
            }
            ClientAction::AcknowledgeAgain => {
                self.desk.acknowledge_again(place)?;
                Ok(None)
            }
            _ => Ok(None),
        }
    }

    /// A 2xx to an INVITE whose transaction is over came again.
    fn answered_again(&mut self, answer: &Message<'_>, status: u16) -> Option<Event>
        ensures { IfSome result (MayBeAnswer (message_text answer.now) status) }
    {
        if status < 200 || status >= 300 || answer.sequence.method != b"INVITE".as_slice() {
            return None;
        }
        let call = self.calls.iter().find(|call| match &call.dialog {
            Some(dialog) => {
                dialog.is_answered_by(answer) && call.inviting.number == answer.sequence.number
            }
            None => false,
        })?;
        Some(Event::Within(call.id, CallEvent::AnswerRepeated))
    }

    /// The answer to a request of ours.
    fn answered(
        &mut self,
        profile: &Profile,
        place: usize,
        purpose: Purpose,
        answer: &Message<'_>,
        status: u16,
    ) -> Result<Option<Event>, AllocError>
        ensures { Brings (MayBeAnswer (message_text answer.now) status) result }
    {
        count(&mut self.desk.counts, status, false);
        match purpose {
            Purpose::Invite(id) => {
                if status < 200 {
                    self.desk.send_cancels()?;
                    Ok(None)
                } else {
                    self.invite_answered(profile, id, place, answer, status)
                }
            }
            Purpose::Bye(id) => {
                if status < 200 {
                    Ok(None)
                } else {
                    Ok(Some(Event::Within(id, CallEvent::ByeDone)))
                }
            }
            Purpose::Cancel => Ok(None),
            Purpose::Register(trunk) => {
                if status >= 200 {
                    self.desk.registered(profile, trunk, place, answer, status)?;
                }
                Ok(None)
            }
        }
    }

    /// The final answer to an INVITE of ours.
    fn invite_answered(
        &mut self,
        profile: &Profile,
        id: u64,
        place: usize,
        answer: &Message<'_>,
        status: u16,
    ) -> Result<Option<Event>, AllocError>
        ensures { 200 ≤ status → Brings (MayBeAnswer (message_text answer.now) status) result }
    {
        let Some(at) = self.place_of(id) else {
            return Ok(None);
        };
        let Some(call) = self.calls.get_mut(at) else {
            return Ok(None);
        };
        if status < 300 {
            return Ok(Some(accepted(&mut self.desk, call, place, answer, status)));
        }
        if is_asked_again(&mut self.desk, profile, call, place, answer, status)? {
            return Ok(None);
        }
        let status = given_up(call, status);
        let pause = match &call.dialog {
            Some(dialog) => glare_pause(dialog.role(), self.desk.random.number()),
            None => glare_pause(Role::Caller, self.desk.random.number()),
        };
        Ok(Some(Event::Within(
            id,
            CallEvent::InviteAnswered(status, pause, Description::NothingSaid),
        )))
    }
}

/// The status that is told of an INVITE that was given up since it rang too long: 408 in place of 487.
fn given_up(call: &CallState, status: u16) -> u16
    ensures { IsRefusal status result }
{
    if call.rang && status == 487 {
        408
    } else {
        status
    }
}

/// A 2xx to our INVITE came: the dialog begins, or has a new target.
fn accepted(
    desk: &mut Desk,
    call: &mut CallState,
    place: usize,
    answer: &Message<'_>,
    status: u16,
) -> Event
    ensures { 200 ≤ status → status < 300 → MayBeAnswer (message_text answer.now) status result }
{
    let unusable = Event::Within(
        call.id,
        CallEvent::InviteAnswered(500, 0, Description::NothingSaid),
    );
    match &mut call.dialog {
        Some(dialog) => {
            let _ = dialog.refresh(answer);
        }
        None => {
            let Some(client) = desk.clients.get(place) else {
                return unusable;
            };
            let Ok(invite) = read_message(client.octets.as_slice()) else {
                return unusable;
            };
            let Ok(dialog) = Dialog::of_caller(&invite, answer) else {
                return unusable;
            };
            call.dialog = Some(dialog);
        }
    }
    call.agree(desk.now, agreed_by(answer), true);
    let said = describe(answer.body);
    Event::Within(call.id, CallEvent::InviteAnswered(status, 0, said))
}

/// Whether our INVITE went out once more: with credentials, or with a longer interval.
fn is_asked_again(
    desk: &mut Desk,
    profile: &Profile,
    call: &mut CallState,
    place: usize,
    answer: &Message<'_>,
    status: u16,
) -> Result<bool, AllocError> {
    let offer = call.inviting.offer;
    if (status == 401 || status == 407) && !call.inviting.is_authorized {
        let request = match desk.clients.get(place) {
            Some(client) => Vec::from_slice(desk.alloc, client.octets.as_slice())?,
            None => return Ok(false),
        };
        let credential = desk.credential(profile, call.trunk, request.as_slice(), answer)?;
        let Some(credential) = credential else {
            return Ok(false);
        };
        call.inviting.is_authorized = true;
        desk.invite(profile, call, offer, Some(credential))?;
        return Ok(true);
    }
    if status == 422 && !call.inviting.is_longer && call.hear_least(answer) {
        call.inviting.is_longer = true;
        desk.invite(profile, call, offer, None)?;
        return Ok(true);
    }
    Ok(false)
}
