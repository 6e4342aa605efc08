//! Requests of the other end.
ghost use Rattle.std.specs.Prelude.{◌≡◌, true, false, List, None, IfOk, IfSome};
ghost use Rattle.fax_sip.specs.Messages.{message_text};
ghost use Rattle.fax_sip.specs.Starts.{method_of};
ghost use Rattle.fax_sip.specs.declared.start.Method.TheVariants as asked;
ghost use Rattle.fax_trunks.specs.RouteValues.{RouteValue};
ghost use Rattle.fax_user_agent.specs.Events.{Brings, IsRouted, MayBeRequest, is_within as within_dialog};

use crate::agreeing::agreement_on;
use crate::book::Book;
use crate::call::{Asked, CallState, Inviting, nowhere, tag_of};
use crate::desk::ANSWER_MS;
use crate::offering::ALLOW;
use crate::out::Direction;
use crate::profile::Profile;
use fax_dialogs::{Agreement, Dialog, SessionTimer};
use fax_requests::{Interval, Token};
use fax_sip::{Field, Key, Message, Method, Name, parameter, user_of};
use fax_switch::{CallEvent, Event, Offer, describe};
use fax_transactions::{ServerAction, ServerEvent, Serving};
use fax_trunks::Number;
use std::alloc::AllocError;
use std::net::SocketAddr;

/// The interval that we wish for where none was agreed on, in seconds.
const WISHED_SECONDS: u32 = 1_800;

/// A request, with what is known of it at once.
#[derive(Clone, Copy)]
pub(crate) struct Incoming<'a> {
    pub message: &'a Message<'a>,
    pub octets: &'a [u8],
    pub key: Key<'a>,
    pub uri: &'a [u8],
    /// The place of the trunk that it came from.
    pub trunk: usize,
    /// Where its answers go.
    pub to: SocketAddr,
}

/// What an INVITE that calls asks for, where it may be taken.
struct Wanted {
    number: Number,
    route: usize,
}

impl Drop for Wanted {
    fn drop(self) {
        let Wanted {
            number: _number,
            route: _route,
        } = self;
    }
}

/// Whether a request is one within a dialog: its `To` has a tag.
fn is_within(request: &Message<'_>) -> bool
    ensures { result ≡ within_dialog (message_text request.now) }
{
    parameter(request.to, "tag").is_some()
}

/// Whether all that a request requires is known.
fn is_understood(request: &Message<'_>) -> bool {
    request
        .elements(Name::Require)
        .all(|word| word.eq_ignore_ascii_case(b"timer"))
}

/// Whether the body of a request is a description, or none.
fn is_description(request: &Message<'_>) -> bool {
    if request.body.is_empty() {
        return true;
    }
    if request.value(Name::ContentEncoding).is_some() {
        return false;
    }
    match request.value(Name::ContentType) {
        Some(value) => { value.len() >= 15 && value[..15].eq_ignore_ascii_case(b"application/sdp") }
        None => true,
    }
}

/// The number of a call and its route; or the status with which its INVITE is refused.
fn wanted_of(profile: &Profile, incoming: &Incoming<'_>) -> Result<Wanted, u16>
    ensures { IfOk result
        (λ wanted. IsRouted profile.now.routes.items incoming.now.uri.now wanted.route) }
{
    let Ok(number) = Number::of_user(user_of(incoming.uri)) else {
        return Err(404);
    };
    match profile.route_of(&number) {
        Some(route) => Ok(Wanted { number, route }),
        None => Err(403),
    }
}

/// The status with which an INVITE is refused that nobody has to be asked about.
fn refusal_of(request: &Message<'_>) -> Option<u16> {
    if !is_understood(request) {
        return Some(420);
    }
    if !is_description(request) {
        return Some(415);
    }
    match agreement_on(request) {
        Some((_, Agreement::TooSmall)) => Some(422),
        _ => None,
    }
}

impl Book {
    /// A request came: what it is for the switch.
    pub fn hear_request(
        &mut self,
        profile: &Profile,
        incoming: &Incoming<'_>,
        word: &[u8],
    ) -> Result<Option<Event>, AllocError>
        ensures { Brings (MayBeRequest profile.now.routes.items incoming.now.uri.now
            (message_text incoming.now.message.now) (method_of word.now)) result }
    {
        if let Some(place) = self.desk.server_of(&incoming.key) {
            self.repeat(place, incoming)?;
            return Ok(None);
        }
        match Method::of_word(word) {
            Method::Ack => Ok(self.acknowledged(incoming)),
            Method::Cancel => self.cancelled(incoming),
            Method::Invite => {
                if is_within(incoming.message) {
                    self.invited_again(incoming)
                } else {
                    self.invited(profile, incoming)
                }
            }
            Method::Bye => self.ended(incoming),
            Method::Options => self.probed(incoming),
            Method::Register => self.refused(incoming, 405),
            Method::Other => self.refused(incoming, 501),
        }
    }

    /// A request came again, or the ACK of a refusal.
    fn repeat(&mut self, place: usize, incoming: &Incoming<'_>) -> Result<(), AllocError> {
        let desk = &mut self.desk;
        let Some(server) = desk.servers.get_mut(place) else {
            return Ok(());
        };
        let event = if incoming.key.method == b"ACK".as_slice() {
            ServerEvent::Acknowledged
        } else {
            ServerEvent::Repeated
        };
        if server.serving.hear(desk.now, event) == ServerAction::SendAgain {
            desk.made
                .send(desk.alloc, server.to, server.serving.last_answer())?;
        }
        Ok(())
    }

    /// The place of the call whose dialog a request is in.
    fn call_taking(&self, request: &Message<'_>) -> Option<usize> {
        self.calls.iter().position(|call| match &call.dialog {
            Some(dialog) => dialog.takes(request),
            None => false,
        })
    }

    /// The ACK of a 2xx of ours came.
    fn acknowledged(&mut self, incoming: &Incoming<'_>) -> Option<Event>
        ensures { (routes : List RouteValue) → IfSome result (MayBeRequest routes
            incoming.now.uri.now (message_text incoming.now.message.now) asked.Ack) }
    {
        let place = self.call_taking(incoming.message)?;
        let call = self.calls.get(place)?;
        let accepted = call.accepted.as_ref()?;
        if accepted.number != incoming.message.sequence.number {
            return None;
        }
        let said = describe(incoming.message.body);
        Some(Event::Within(call.id, CallEvent::Acknowledged(said)))
    }

    /// A CANCEL came: it is answered, and is one of an INVITE that waits for a line, or of none.
    fn cancelled(&mut self, incoming: &Incoming<'_>) -> Result<Option<Event>, AllocError>
        ensures { (routes : List RouteValue) → Brings (MayBeRequest routes
            incoming.now.uri.now (message_text incoming.now.message.now) asked.Cancel) result }
    {
        let key = Key {
            branch: incoming.key.branch,
            sent_by: incoming.key.sent_by,
            method: b"INVITE",
        };
        let name = match self.desk.server_of(&key) {
            Some(place) => self.desk.servers.get(place).map(|server| server.name),
            None => None,
        };
        let Some(name) = name else {
            return self.refused(incoming, 481);
        };
        self.answer(incoming, 200, &[])?;
        let call = self.calls.iter().find(|call| match &call.theirs {
            Some(asked) => asked.server == name,
            None => false,
        });
        Ok(call.map(|call| Event::Within(call.id, CallEvent::CancelReceived)))
    }

    /// A request is answered at once.
    fn answer(
        &mut self,
        incoming: &Incoming<'_>,
        status: u16,
        fields: &[Field<'_>],
    ) -> Result<(), AllocError> {
        self.desk.answer_now(incoming.message, &incoming.key, incoming.to, status, fields)
    }

    /// A request is refused at once.
    fn refused(&mut self, incoming: &Incoming<'_>, status: u16) -> Result<Option<Event>, AllocError>
        ensures { IfOk result (λ found. found ≡ None) }
    {
        let allow = [Field {
            name: Name::Allow,
            value: ALLOW,
        }];
        let least = [Field {
            name: Name::MinSe,
            value: b"90",
        }];
        let later = [Field {
            name: Name::RetryAfter,
            value: b"10",
        }];
        let fields: &[Field<'_>] = match status {
            405 | 501 => &allow,
            422 => &least,
            500 | 503 => &later,
            _ => &[],
        };
        self.answer(incoming, status, fields)?;
        Ok(None)
    }

    /// OPTIONS came.
    fn probed(&mut self, incoming: &Incoming<'_>) -> Result<Option<Event>, AllocError>
        ensures { IfOk result (λ found. found ≡ None) }
    {
        if !self.desk.is_open {
            return self.refused(incoming, 503);
        }
        let allow = [Field {
            name: Name::Allow,
            value: ALLOW,
        }];
        self.answer(incoming, 200, &allow)?;
        Ok(None)
    }

    /// A BYE came: it is answered, where there is such a dialog.
    fn ended(&mut self, incoming: &Incoming<'_>) -> Result<Option<Event>, AllocError>
        ensures { (routes : List RouteValue) → Brings (MayBeRequest routes
            incoming.now.uri.now (message_text incoming.now.message.now) asked.Bye) result }
    {
        let Some(place) = self.call_taking(incoming.message) else {
            return self.refused(incoming, 481);
        };
        if !self.is_in_order(place, incoming) {
            return self.refused(incoming, 500);
        }
        self.answer(incoming, 200, &[])?;
        let call = self.calls.get(place);
        Ok(call.map(|call| Event::Within(call.id, CallEvent::ByeReceived)))
    }

    /// Whether a request within the dialog of a call is in order (RFC 3261, 12.2.2).
    fn is_in_order(&mut self, place: usize, incoming: &Incoming<'_>) -> bool {
        match self.calls.get_mut(place) {
            Some(call) => match &mut call.dialog {
                Some(dialog) => dialog.hear(incoming.message.sequence.number).is_ok(),
                None => false,
            },
            None => false,
        }
    }

    /// Whether an INVITE is one again that was answered with a 2xx.
    fn is_accepted(&self, incoming: &Incoming<'_>) -> bool {
        self.calls.iter().any(|call| match &call.accepted {
            Some(kept) => kept.branch.as_slice() == incoming.key.branch,
            None => false,
        })
    }

    /// An INVITE within a dialog came.
    fn invited_again(&mut self, incoming: &Incoming<'_>) -> Result<Option<Event>, AllocError>
        ensures { (routes : List RouteValue)
            → within_dialog (message_text incoming.now.message.now) ≡ true
            → Brings (MayBeRequest routes
            incoming.now.uri.now (message_text incoming.now.message.now) asked.Invite) result }
    {
        let Some(place) = self.call_taking(incoming.message) else {
            return self.refused(incoming, 481);
        };
        if self.is_accepted(incoming) {
            return Ok(None);
        }
        if !self.is_in_order(place, incoming) {
            return self.refused(incoming, 500);
        }
        if let Some(status) = refusal_of(incoming.message) {
            return self.refused(incoming, status);
        }
        let tag = self.desk.random.token();
        let asked = self.wait(incoming, tag)?;
        let Some(call) = self.calls.get_mut(place) else {
            return Ok(None);
        };
        call.theirs = asked;
        let said = describe(incoming.message.body);
        Ok(Some(Event::Within(call.id, CallEvent::Reinvited(said))))
    }

    /// An INVITE is answered with 100, and waits; none where there are too many transactions.
    fn wait(&mut self, incoming: &Incoming<'_>, tag: Token) -> Result<Option<Asked>, AllocError> {
        let desk = &mut self.desk;
        let octets = Vec::from_slice(desk.alloc, incoming.octets)?;
        let trying = desk.answer_octets(incoming.message, 100, tag.as_slice(), &[], b"")?;
        let Some(trying) = trying else {
            return Ok(None);
        };
        let limit = desk.now.saturating_add(ANSWER_MS);
        desk.made.send(desk.alloc, incoming.to, trying.as_slice())?;
        let serving = Serving::of_invite(limit, trying);
        match desk.serve(&incoming.key, serving, incoming.to)? {
            Some(server) => Ok(Some(Asked {
                server,
                octets,
                to: incoming.to,
            })),
            None => Ok(None),
        }
    }

    /// An INVITE that calls came.
    fn invited(
        &mut self,
        profile: &Profile,
        incoming: &Incoming<'_>,
    ) -> Result<Option<Event>, AllocError>
        ensures { within_dialog (message_text incoming.now.message.now) ≡ false
            → Brings (MayBeRequest profile.now.routes.items
            incoming.now.uri.now (message_text incoming.now.message.now) asked.Invite) result }
    {
        if self.is_accepted(incoming) {
            return Ok(None);
        }
        if let Some(status) = refusal_of(incoming.message) {
            return self.refused(incoming, status);
        }
        if !self.desk.is_open {
            return self.refused(incoming, 503);
        }
        match wanted_of(profile, incoming) {
            Ok(wanted) => self.open(incoming, wanted),
            Err(status) => self.refused(incoming, status),
        }
    }

    /// A call that comes in is opened, where its trunk has room.
    fn open(&mut self, incoming: &Incoming<'_>, wanted: Wanted) -> Result<Option<Event>, AllocError>
        ensures { (routes : List RouteValue)
            → within_dialog (message_text incoming.now.message.now) ≡ false
            → IsRouted routes incoming.now.uri.now wanted.route → Brings (MayBeRequest routes
            incoming.now.uri.now (message_text incoming.now.message.now) asked.Invite) result }
    {
        let tag = self.desk.random.token();
        let Ok(dialog) = Dialog::of_answerer(incoming.message, tag.as_slice()) else {
            return self.refused(incoming, 400);
        };
        let Some(asked) = self.wait(incoming, tag)? else {
            return self.refused(incoming, 503);
        };
        if !self.desk.take_place(incoming.trunk) {
            self.desk.refuse(&asked, tag.as_slice(), 503)?;
            return Ok(None);
        }
        let mut call = self.new_call(incoming.trunk, Direction::In, wanted.number.as_bytes());
        call.tag = tag;
        call.dialog = Some(dialog);
        call.has_place = true;
        call.theirs = Some(asked);
        self.opening = Some(call);
        let said = describe(incoming.message.body);
        Ok(Some(Event::Came(wanted.route, said)))
    }

    /// A call that begins, over this trunk.
    pub fn new_call(&mut self, trunk: usize, direction: Direction, number: &[u8]) -> CallState {
        CallState {
            id: 0,
            trunk,
            direction,
            number: tag_of(number),
            dialled: tag_of(b""),
            has_place: false,
            leg: nowhere(),
            call_id: self.desk.random.token(),
            tag: self.desk.random.token(),
            dialog: None,
            theirs: None,
            accepted: None,
            inviting: Inviting {
                offer: Offer::Fax,
                number: 0,
                is_authorized: false,
                is_longer: false,
                is_unsent: false,
            },
            ack: None,
            timer: SessionTimer::Off,
            interval: Interval::new(WISHED_SECONDS),
            version: 0,
            ring_until: None,
            rang: false,
            is_answered: false,
            refused: 0,
        }
    }
}
