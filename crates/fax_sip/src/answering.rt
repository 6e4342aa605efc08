//! The octets of an answer to a request.
ghost use Rattle.std.specs.Prelude.{◌≡◌, ◌++◌, IfErr, IfNone, IfOk, IfSome, OnOk};
ghost use Rattle.fax_sip.specs.Answers.{answer_octets, copied, kept_fields, reply_fault, routes, status_line, to_header};
ghost use Rattle.fax_sip.specs.Messages.{message_text};
ghost use Rattle.fax_sip.specs.Texts.{lines_of};

use crate::field::{is_token, next_value};
use crate::message::Message;
use crate::name::Name;
use crate::parts::parameter;
use crate::permitted::{fault_of_fields, is_text};
use crate::write_fault::WriteFault;
use crate::writing::{Field, put_fields, put_header, put_length};
use std::alloc::{AllocError, Global};

/// What a request is answered.
#[derive(Clone, Copy)]
pub struct Reply<'a> {
    /// The status, 100 to 699.
    pub status: u16,
    /// What it means, in words; no control character but tabs.
    pub reason: &'a str,
    /// Our tag, which `To` gets where it has none: a token.
    pub tag: &'a str,
    /// Further header lines, whose values have no control character but tabs. None may be one that an answer has of itself.
    pub fields: &'a [Field<'a>],
    /// The body.
    pub body: &'a [u8],
}

/// The octets of an answer to a request (RFC 3261, 8.2.6): its `Via`, `From`, `To`, `Call-ID` and `CSeq` as they came, `To` with our
/// tag, and `Record-Route` too where the answer may begin a dialog (12.1.1). `Err` means that a text of the reply may not stand where
/// it is to, or that memory was refused.
pub fn write_answer(
    alloc: Global,
    request: &Message<'_>,
    reply: &Reply<'_>,
) -> Result<Vec<u8>, WriteFault>
    ensures ok { IfOk result
        (λ octets. octets.items ≡ answer_octets (message_text request.now) reply.now) }
    ensures fails { IfSome (reply_fault reply.now) (λ fault. result ≡ Err fault) }
    ensures memory { IfNone (reply_fault reply.now) (IfErr result
        (λ fault. fault ≡ WriteFault.NoMemory)) }
{
    if let Some(fault) = fault_of_reply(reply) {
        return Err(fault);
    }
    let octets = octets_of_answer(alloc, request, reply)?;
    Ok(octets)
}

/// Why a reply is not written.
fn fault_of_reply(reply: &Reply<'_>) -> Option<WriteFault>
    ensures { result ≡ reply_fault reply.now }
{
    if reply.status < 100 || reply.status > 699 {
        Some(WriteFault::BadStatus)
    } else if !is_text(reply.reason.as_bytes()) {
        Some(WriteFault::BadReason)
    } else if !is_token(reply.tag.as_bytes()) {
        Some(WriteFault::BadTag)
    } else {
        fault_of_fields(reply.fields)
    }
}

/// The octets of an answer.
fn octets_of_answer(
    alloc: Global,
    request: &Message<'_>,
    reply: &Reply<'_>,
) -> Result<Vec<u8>, AllocError>
    ensures { IfOk result
        (λ octets. octets.items ≡ answer_octets (message_text request.now) reply.now) }
{
    let mut octets = write_status_line(alloc, reply.status, reply.reason)?;
    put_kept(&mut octets, request, reply.tag)?;
    put_routes(&mut octets, request.lines, reply.status)?;
    put_fields(&mut octets, reply.fields)?;
    put_length(&mut octets, alloc, reply.body.len())?;
    octets.extend_from_slice(reply.body)?;
    Ok(octets)
}

/// The first line of an answer.
fn write_status_line(alloc: Global, status: u16, reason: &str) -> Result<Vec<u8>, AllocError>
    ensures { IfOk result (λ octets. octets.items ≡ status_line status reason.now) }
{
    let line = format!(in alloc; "SIP/2.0 {status} {reason}\r\n")?;
    Ok(line.into_bytes())
}

/// Writes each header line of a name again.
fn put_copies(octets: &mut Vec<u8>, lines: &[u8], name: Name) -> Result<(), AllocError>
    ensures { OnOk result (octets.new.items
        ≡ octets.old.items ++ copied name (lines_of lines.now)) }
{
    let mut rest = lines;
    while let Some((value, after)) = next_value(rest, name) {
        put_header(octets, name, value)?;
        rest = after;
    }
    Ok(())
}

/// Writes `To`, with our tag where it has none.
fn put_to(octets: &mut Vec<u8>, to: &[u8], tag: &str) -> Result<(), AllocError>
    ensures { OnOk result (octets.new.items ≡ octets.old.items ++ to_header to.now tag.now) }
{
    if parameter(to, "tag").is_some() {
        return put_header(octets, Name::To, to);
    }
    octets.extend_from_slice(b"To: ")?;
    octets.extend_from_slice(to)?;
    octets.extend_from_slice(b";tag=")?;
    octets.extend_from_slice(tag.as_bytes())?;
    octets.extend_from_slice(b"\r\n")
}

/// Writes the header lines that each answer has again.
fn put_kept(octets: &mut Vec<u8>, request: &Message<'_>, tag: &str) -> Result<(), AllocError>
    ensures { OnOk result (octets.new.items
        ≡ octets.old.items ++ kept_fields (message_text request.now) tag.now) }
{
    put_copies(octets, request.lines, Name::Via)?;
    put_header(octets, Name::From, request.from)?;
    put_to(octets, request.to, tag)?;
    put_header(octets, Name::CallId, request.call_id)?;
    put_copies(octets, request.lines, Name::CSeq)
}

/// Writes `Record-Route` again where the answer may begin a dialog.
fn put_routes(octets: &mut Vec<u8>, lines: &[u8], status: u16) -> Result<(), AllocError>
    ensures { OnOk result (octets.new.items
        ≡ octets.old.items ++ routes status (lines_of lines.now)) }
{
    if status < 300 {
        put_copies(octets, lines, Name::RecordRoute)
    } else {
        Ok(())
    }
}
