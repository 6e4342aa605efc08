//! What a dialog keeps of a message.
ghost use Rattle.std.specs.Prelude.{◌≡◌, [], option_map};
ghost use Rattle.fax_dialogs.specs.Dialogs.{Gives, accepts as accepts_it, contact_of as contact_in, is_invite as asks_invite, is_success as succeeds, routes_of as routes_in, tag_of as tag_in};
ghost use Rattle.fax_sip.specs.Messages.{message_text};
ghost use Rattle.fax_sip.specs.Starts.{start_text};

use crate::dialog_fault::DialogFault;
use crate::text::Text;
use arrayvec::ArrayVec;
use fax_sip::{Message, Name, Start, parameter, uri_of};

/// The most addresses of `Record-Route`.
pub const MOST_ROUTES: usize = 8;

/// The addresses of a route.
pub(crate) type Routes = ArrayVec<Text, MOST_ROUTES>;

/// The tag of `From` or `To`; empty where there is none.
pub(crate) fn tag_of(value: &[u8]) -> &[u8]
    ensures { result.now ≡ tag_in value.now }
{
    match parameter(value, "tag") {
        Some(tag) => tag,
        None => &[],
    }
}

/// Whether a message is an INVITE.
pub(crate) fn is_invite(message: &Message<'_>) -> bool
    ensures { result ≡ asks_invite (start_text message.now.start) }
{
    match message.start {
        Start::Request(word, _) => word == b"INVITE".as_slice(),
        Start::Answer(_) => false,
    }
}

/// Whether a message is a 2xx.
fn is_success(message: &Message<'_>) -> bool
    ensures { result ≡ succeeds (start_text message.now.start) }
{
    match message.start {
        Start::Request(_, _) => false,
        Start::Answer(status) => status >= 200 && status < 300,
    }
}

/// Whether an answer is a 2xx to a request.
pub(crate) fn accepts(request: &Message<'_>, answer: &Message<'_>) -> bool
    ensures { result ≡ accepts_it (message_text request.now) (message_text answer.now) }
{
    is_success(answer)
        && answer.call_id == request.call_id
        && tag_of(answer.from) == tag_of(request.from)
        && answer.sequence.number == request.sequence.number
        && answer.sequence.method == request.sequence.method
}

/// The address of the first `Contact`.
pub(crate) fn contact_of(message: &Message<'_>) -> Result<Text, DialogFault>
    ensures { result ≡ contact_in (message_text message.now) }
{
    match message.elements(Name::Contact).next() {
        Some(value) => Text::new(uri_of(value)),
        None => Err(DialogFault::NoContact),
    }
}

/// The addresses of `Record-Route`, in their order.
pub(crate) fn routes_of(message: &Message<'_>) -> Result<Routes, DialogFault>
    ensures { Gives (λ routes. routes.items) result (routes_in (message_text message.now)) }
{
    let mut routes = ArrayVec::new();
    let mut rest = message.elements(Name::RecordRoute);
    while let Some(element) = rest.next() {
        let route = Text::new(uri_of(element))?;
        if routes.is_full() {
            return Err(DialogFault::ManyRoutes);
        }
        routes.push(route);
    }
    Ok(routes)
}
