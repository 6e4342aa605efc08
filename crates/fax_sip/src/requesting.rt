//! The octets of a request.
ghost use Rattle.std.specs.Prelude.{◌≡◌, ◌++◌, option_map, IfErr, IfNone, IfOk, IfSome, OnOk};
ghost use Rattle.fax_sip.specs.Requests.{branch_part, ends_fault, front, has_tag as is_tagged, is_tag_or_none, number_line, party_line, request_fault, request_line, request_octets, tag_octets, via_line};

use crate::field::is_token;
use crate::name::Name;
use crate::permitted::{fault_of_fields, is_address, is_visible};
use crate::write_fault::WriteFault;
use crate::writing::{Field, put_fields, put_header, put_length};
use std::alloc::{AllocError, Global};

/// One end of a call: its address, and its tag where it has one.
#[derive(Clone, Copy)]
pub struct Party<'a> {
    /// Its address, as `sip:fax@example.org`: what may stand between angle brackets.
    pub uri: &'a [u8],
    /// Its tag: a token.
    pub tag: Option<&'a [u8]>,
}

/// A request.
#[derive(Clone, Copy)]
pub struct Request<'a> {
    /// What it asks, in capitals: a token.
    pub method: &'a [u8],
    /// Its Request-URI.
    pub uri: &'a [u8],
    /// Who sends it: a host, and a port where it is not 5060.
    pub sent_by: &'a [u8],
    /// The branch of its transaction: a token that begins with `z9hG4bK` (RFC 3261, 8.1.1.7).
    pub branch: &'a [u8],
    /// Who asks: it has a tag (8.1.1.3).
    pub from: Party<'a>,
    /// Who is asked: it has a tag within a dialog (8.1.1.2).
    pub to: Party<'a>,
    /// `Call-ID`.
    pub call_id: &'a [u8],
    /// Its number in its dialog, below 2^31.
    pub number: u32,
    /// Further header lines, whose values have no control character but tabs. None may be one that a request has of itself.
    pub fields: &'a [Field<'a>],
    /// The body.
    pub body: &'a [u8],
}

/// The octets of a request over UDP (RFC 3261, 8.1.1), which may be forwarded 70 times. `Err` means that a text of it may not stand
/// where it is to, or that memory was refused.
pub fn write_request(alloc: Global, request: &Request<'_>) -> Result<Vec<u8>, WriteFault>
    ensures ok { IfOk result (λ octets. octets.items ≡ request_octets request.now) }
    ensures fails { IfSome (request_fault request.now) (λ fault. result ≡ Err fault) }
    ensures memory { IfNone (request_fault request.now) (IfErr result
        (λ fault. fault ≡ WriteFault.NoMemory)) }
{
    if let Some(fault) = fault_of_request(request) {
        return Err(fault);
    }
    let octets = octets_of_request(alloc, request)?;
    Ok(octets)
}

/// Why a request is not written.
fn fault_of_request(request: &Request<'_>) -> Option<WriteFault>
    ensures { result ≡ request_fault request.now }
{
    if !is_token(request.method) {
        Some(WriteFault::BadMethod)
    } else if !is_address(request.uri) {
        Some(WriteFault::BadAddress)
    } else if !is_visible(request.sent_by) {
        Some(WriteFault::BadSender)
    } else if !is_token(request.branch) || !request.branch.starts_with(b"z9hG4bK") {
        Some(WriteFault::BadBranch)
    } else {
        fault_of_ends(request)
    }
}

/// Why a request is not written as far as its ends are concerned, and what follows them.
fn fault_of_ends(request: &Request<'_>) -> Option<WriteFault>
    ensures { result ≡ ends_fault request.now }
{
    if !is_address(request.from.uri) || !is_address(request.to.uri) {
        Some(WriteFault::BadAddress)
    } else if !has_tag(request.from.tag) || !may_be_tag(request.to.tag) {
        Some(WriteFault::BadTag)
    } else if !is_visible(request.call_id) {
        Some(WriteFault::BadCallId)
    } else if request.number >= 0x8000_0000 {
        Some(WriteFault::BadNumber)
    } else {
        fault_of_fields(request.fields)
    }
}

/// Whether there is a tag, a token.
fn has_tag(tag: Option<&[u8]>) -> bool
    ensures { result ≡ is_tagged (option_map (λ tag. tag.now) tag.entry) }
{
    match tag {
        Some(tag) => is_token(tag),
        None => false,
    }
}

/// Whether there is a tag, a token, or none.
fn may_be_tag(tag: Option<&[u8]>) -> bool
    ensures { result ≡ is_tag_or_none (option_map (λ tag. tag.now) tag.entry) }
{
    match tag {
        Some(tag) => is_token(tag),
        None => true,
    }
}

/// The octets of a request.
fn octets_of_request(alloc: Global, request: &Request<'_>) -> Result<Vec<u8>, AllocError>
    ensures { IfOk result (λ octets. octets.items ≡ request_octets request.now) }
{
    let mut octets = Vec::new(alloc);
    put_front(&mut octets, request)?;
    put_party(&mut octets, Name::From, &request.from)?;
    put_party(&mut octets, Name::To, &request.to)?;
    put_header(&mut octets, Name::CallId, request.call_id)?;
    put_number(&mut octets, alloc, request.number, request.method)?;
    put_fields(&mut octets, request.fields)?;
    put_length(&mut octets, alloc, request.body.len())?;
    octets.extend_from_slice(request.body)?;
    Ok(octets)
}

/// Writes the first line, the hop and how often it may be forwarded.
fn put_front(octets: &mut Vec<u8>, request: &Request<'_>) -> Result<(), AllocError>
    ensures { OnOk result (octets.new.items ≡ octets.old.items ++ front request.now) }
{
    put_request_line(octets, request.method, request.uri)?;
    put_via(octets, request.sent_by, request.branch)?;
    octets.extend_from_slice(b"Max-Forwards: 70\r\n")
}

/// Writes the first line.
fn put_request_line(octets: &mut Vec<u8>, method: &[u8], uri: &[u8]) -> Result<(), AllocError>
    ensures { OnOk result (octets.new.items ≡ octets.old.items ++ request_line method.now uri.now) }
{
    octets.extend_from_slice(method)?;
    octets.extend_from_slice(b" ")?;
    octets.extend_from_slice(uri)?;
    octets.extend_from_slice(b" SIP/2.0\r\n")
}

/// Writes the hop.
fn put_via(octets: &mut Vec<u8>, sent_by: &[u8], branch: &[u8]) -> Result<(), AllocError>
    ensures { OnOk result (octets.new.items ≡ octets.old.items ++ via_line sent_by.now branch.now) }
{
    octets.extend_from_slice(b"Via: SIP/2.0/UDP ")?;
    octets.extend_from_slice(sent_by)?;
    put_branch(octets, branch)
}

/// Writes the end of a hop: its branch.
fn put_branch(octets: &mut Vec<u8>, branch: &[u8]) -> Result<(), AllocError>
    ensures { OnOk result (octets.new.items ≡ octets.old.items ++ branch_part branch.now) }
{
    octets.extend_from_slice(b";branch=")?;
    octets.extend_from_slice(branch)?;
    octets.extend_from_slice(b"\r\n")
}

/// Writes an end of the call.
fn put_party(octets: &mut Vec<u8>, name: Name, party: &Party<'_>) -> Result<(), AllocError>
    ensures { OnOk result (octets.new.items ≡ octets.old.items ++ party_line name party.now) }
{
    octets.extend_from_slice(name.long().as_bytes())?;
    octets.extend_from_slice(b": <")?;
    octets.extend_from_slice(party.uri)?;
    octets.extend_from_slice(b">")?;
    put_tag(octets, party.tag)?;
    octets.extend_from_slice(b"\r\n")
}

/// Writes a tag, where there is one.
fn put_tag(octets: &mut Vec<u8>, tag: Option<&[u8]>) -> Result<(), AllocError>
    ensures { OnOk result (octets.new.items
        ≡ octets.old.items ++ tag_octets (option_map (λ tag. tag.now) tag.entry)) }
{
    match tag {
        Some(tag) => {
            octets.extend_from_slice(b";tag=")?;
            octets.extend_from_slice(tag)
        }
        None => Ok(()),
    }
}

/// Writes the number of a request in its dialog, and its method.
fn put_number(
    octets: &mut Vec<u8>,
    alloc: Global,
    number: u32,
    method: &[u8],
) -> Result<(), AllocError>
    ensures { OnOk result (octets.new.items ≡ octets.old.items ++ number_line number method.now) }
{
    let front = format!(in alloc; "CSeq: {number} ")?;
    octets.extend_from_slice(front.as_bytes())?;
    octets.extend_from_slice(method)?;
    octets.extend_from_slice(b"\r\n")
}
