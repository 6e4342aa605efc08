//! The requests of ours within a dialog.
ghost use Rattle.std.specs.Prelude.{◌≡◌, ◌++◌, is_some, map, codes, option_map, IfErr, IfOk, OnOk};
ghost use Rattle.std.specs.List.{flat_map};
ghost use Rattle.fax_dialogs.specs.Within.{HasFault, IsWithin, IsWritten, field_text, route_by, route_line, route_part, tag_in as tag_there, uri_by};
ghost use Rattle.fax_sip.specs.Parameters.{parameter_of};

use crate::dialog::Dialog;
use crate::text::Text;
use crate::within::Within;
use fax_sip::{Field, Name, Party, Request, WriteFault, parameter, write_request};
use std::alloc::{AllocError, Global};

impl Dialog {
    /// The octets of a request of ours within this dialog (RFC 3261, 12.2.1.1): over its route, to its target. `Err` means that a text of it
    /// may not stand where it is to, or that memory was refused.
    pub fn write(&self, alloc: Global, within: &Within<'_>) -> Result<Vec<u8>, WriteFault>
        ensures ok { IfOk result (λ octets. IsWritten self.now within.now octets.items) }
        ensures fails { IfErr result (λ fault. HasFault self.now within.now fault) }
    {
        let route = self.route(alloc)?;
        let fields = fields_with(alloc, route.as_slice(), within.fields)?;
        let request = self.request(within, fields.as_slice());
        write_request(alloc, &request)
    }

    /// The request, with these header lines.
    fn request<'a>(&'a self, within: &Within<'a>, fields: &'a [Field<'a>]) -> Request<'a>
        ensures { IsWithin self.now within.now (map field_text fields.now) result }
    {
        Request {
            method: within.method,
            uri: uri_of_request(self.target.as_slice(), self.routes.as_slice()),
            sent_by: within.sent_by,
            branch: within.branch,
            from: Party {
                uri: self.ends.local_uri.as_slice(),
                tag: tag_in(self.ends.local_tag.as_slice()),
            },
            to: Party {
                uri: self.ends.remote_uri.as_slice(),
                tag: tag_in(self.ends.remote_tag.as_slice()),
            },
            call_id: self.ends.call_id.as_slice(),
            number: within.number,
            fields,
            body: within.body,
        }
    }

    /// The addresses of `Route`, each after a comma.
    fn route(&self, alloc: Global) -> Result<Vec<u8>, AllocError>
        ensures { IfOk result (λ octets.
            octets.items ≡ flat_map route_part (route_by self.now.target self.now.routes)) }
    {
        let mut octets = Vec::new(alloc);
        put_route_by(&mut octets, self.target.as_slice(), self.routes.as_slice())?;
        Ok(octets)
    }
}

/// Whether an address is a loose router's.
fn is_loose(route: &[u8]) -> bool
    ensures { result ≡ is_some (parameter_of (codes "lr") route.now) }
{
    parameter(route, "lr").is_some()
}

/// A tag, where there is one.
fn tag_in(tag: &[u8]) -> Option<&[u8]>
    ensures { option_map (λ tag. tag.now) result ≡ tag_there tag.now }
{
    if tag.is_empty() { None } else { Some(tag) }
}

/// The Request-URI.
fn uri_of_request<'a>(target: &'a [u8], routes: &'a [Text]) -> &'a [u8]
    ensures { result.now ≡ uri_by target.now routes.now }
{
    match routes {
        [] => target,
        [first, ..] => {
            let route = first.as_slice();
            if is_loose(route) { target } else { route }
        }
    }
}

/// Writes the addresses of `Route`.
fn put_route_by(octets: &mut Vec<u8>, target: &[u8], routes: &[Text]) -> Result<(), AllocError>
    ensures { OnOk result (octets.new.items
        ≡ octets.old.items ++ flat_map route_part (route_by target.now routes.now)) }
{
    match routes {
        [] => Ok(()),
        [first, rest @ ..] => {
            if is_loose(first.as_slice()) {
                put_routes(octets, routes)
            } else {
                put_routes(octets, rest)?;
                put_route(octets, target)
            }
        }
    }
}

/// Writes addresses.
fn put_routes(octets: &mut Vec<u8>, routes: &[Text]) -> Result<(), AllocError>
    ensures { OnOk result (octets.new.items ≡ octets.old.items ++ flat_map route_part routes.now) }
{
    for route in routes {
        put_route(octets, route.as_slice())?;
    }
    Ok(())
}

/// Writes an address between angle brackets, after a comma.
fn put_route(octets: &mut Vec<u8>, route: &[u8]) -> Result<(), AllocError>
    ensures { OnOk result (octets.new.items ≡ octets.old.items ++ route_part route.now) }
{
    octets.extend_from_slice(b",<")?;
    octets.extend_from_slice(route)?;
    octets.extend_from_slice(b">")
}

/// `Route` where there are addresses, and further header lines.
fn fields_with<'a>(
    alloc: Global,
    route: &'a [u8],
    fields: &[Field<'a>],
) -> Result<Vec<Field<'a>>, AllocError>
    ensures { IfOk result
        (λ all. map field_text all.items ≡ route_line route.now ++ map field_text fields.now) }
{
    let mut all = Vec::new(alloc);
    if let [_, value @ ..] = route {
        all.push(Field {
            name: Name::Route,
            value,
        })?;
    }
    all.extend_from_slice(fields)?;
    Ok(all)
}
