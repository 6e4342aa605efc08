//! The requests that hang on an INVITE of ours: the ACK of its refusal, and its CANCEL.
ghost use Rattle.std.specs.Prelude.{◌≡◌, codes, map, option_map, IfErr, IfOk};
ghost use Rattle.fax_dialogs.specs.Within.{field_text};
ghost use Rattle.fax_requests.specs.Hanging.{HangsWith, HasFault, IsHanging, hop_of, route_lines, uri_asked as uri_of_request};
ghost use Rattle.fax_sip.specs.Matching.{key_text};
ghost use Rattle.fax_sip.specs.Messages.{message_text};
ghost use Rattle.fax_sip.specs.Parameters.{parameter_of, uri_of as uri_in};
ghost use Rattle.fax_sip.specs.Starts.{start_text};

use fax_sip::{
    Field, Key, Message, Name, Party, Request, Start, WriteFault, parameter, uri_of, write_request,
};
use std::alloc::{AllocError, Global};

/// The ACK of a refusal of an INVITE of ours (RFC 3261, 17.1.1.3): the INVITE's Request-URI, first hop, `From`, `Call-ID`, number and `Route`, and the refusal's
/// `To`. `Err` means that a text of it may not stand where it is to, or that memory was refused.
pub fn write_ack(
    alloc: Global,
    invite: &Message<'_>,
    refusal: &Message<'_>,
) -> Result<Vec<u8>, WriteFault>
    ensures ok { IfOk result (λ octets.
        IsHanging (message_text invite.now) (codes "ACK") refusal.now.to.now octets.items) }
    ensures fails { IfErr result
        (λ fault. HasFault (message_text invite.now) (codes "ACK") refusal.now.to.now fault) }
{
    write_after(alloc, invite, b"ACK", refusal.to)
}

/// The CANCEL of an INVITE of ours (9.1): the same, with the INVITE's `To`.
pub fn write_cancel(alloc: Global, invite: &Message<'_>) -> Result<Vec<u8>, WriteFault>
    ensures ok { IfOk result (λ octets.
        IsHanging (message_text invite.now) (codes "CANCEL") invite.now.to.now octets.items) }
    ensures fails { IfErr result
        (λ fault. HasFault (message_text invite.now) (codes "CANCEL") invite.now.to.now fault) }
{
    write_after(alloc, invite, b"CANCEL", invite.to)
}

/// A request of this method that hangs on an INVITE, with this `To`.
fn write_after(
    alloc: Global,
    invite: &Message<'_>,
    method: &[u8],
    to: &[u8],
) -> Result<Vec<u8>, WriteFault>
    ensures ok { IfOk result
        (λ octets. IsHanging (message_text invite.now) method.now to.now octets.items) }
    ensures fails { IfErr result
        (λ fault. HasFault (message_text invite.now) method.now to.now fault) }
{
    let fields = routes_of(alloc, invite)?;
    let request = request_after(invite, method, to, fields.as_slice());
    write_request(alloc, &request)
}

/// The request, with these header lines.
fn request_after<'a>(
    invite: &Message<'a>,
    method: &'a [u8],
    to: &'a [u8],
    fields: &'a [Field<'a>],
) -> Request<'a>
    ensures { HangsWith (message_text invite.now)
        method.now to.now (map field_text fields.now) result }
{
    let hop = first_hop(invite);
    Request {
        method,
        uri: uri_asked(invite),
        sent_by: hop.sent_by,
        branch: hop.branch,
        from: party(invite.from),
        to: party(to),
        call_id: invite.call_id,
        number: invite.sequence.number,
        fields,
        body: b"",
    }
}

/// The first hop.
fn first_hop<'a>(invite: &Message<'a>) -> Key<'a>
    ensures { key_text result ≡ hop_of (message_text invite.now) }
{
    match invite.key() {
        Some(key) => key,
        None => Key {
            branch: &[],
            sent_by: &[],
            method: &[],
        },
    }
}

/// The Request-URI of a request; empty of an answer.
fn uri_asked<'a>(message: &Message<'a>) -> &'a [u8]
    ensures { result.now ≡ uri_of_request (start_text message.now.start) }
{
    match message.start {
        Start::Request(_, uri) => uri,
        Start::Answer(_) => &[],
    }
}

/// The end of a call that a value names.
fn party(value: &[u8]) -> Party<'_>
    ensures uri { result.uri.now ≡ uri_in value.now }
    ensures tag { option_map (λ tag. tag.now) result.tag ≡ parameter_of (codes "tag") value.now }
{
    Party {
        uri: uri_of(value),
        tag: parameter(value, "tag"),
    }
}

/// The lines of `Route`, as they are.
fn routes_of<'a>(alloc: Global, invite: &Message<'a>) -> Result<Vec<Field<'a>>, AllocError>
    ensures { IfOk result
        (λ fields. map field_text fields.items ≡ route_lines (message_text invite.now)) }
{
    let mut fields = Vec::new(alloc);
    for value in invite.values(Name::Route) {
        fields.push(Field {
            name: Name::Route,
            value,
        })?;
    }
    Ok(fields)
}
