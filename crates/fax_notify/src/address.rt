//! The address of a socket.
ghost use Rattle.std.specs.Prelude.{◌≡◌, IfOk, OnErr, is_some, option_map, true};
ghost use Rattle.fax_notify.specs.Addresses.{abstract_octets, address_octets, path_octets};

use std::alloc::{AllocError, Global};

/// After its first octet a name has so many at most: with the zero that ends a path they fill the room of an address.
const MOST_AFTER_FIRST: usize = 106;

/// The octets of the address of the socket of this name, as the system takes them. `None`: it is no name of a socket. An `Err` comes for the
/// name of one alone.
pub fn address_of(alloc: Global, name: &str) -> Result<Option<Vec<u8>>, AllocError>
    ensures ok { IfOk result
        (λ found. option_map (λ octets. octets.items) found ≡ address_octets name.now) }
    ensures err { OnErr result (is_some (address_octets name.now) ≡ true) }
{
    let Some((first, rest)) = name.as_bytes().split_first() else {
        return Ok(None);
    };
    if rest.len() > MOST_AFTER_FIRST {
        return Ok(None);
    }
    if *first == b'/' {
        return Ok(Some(path_address(alloc, rest)?));
    }
    if *first == b'@' {
        return Ok(Some(abstract_address(alloc, rest)?));
    }
    Ok(None)
}

/// The octets of the address of a path, of which this stands after its first `/`.
fn path_address(alloc: Global, rest: &[u8]) -> Result<Vec<u8>, AllocError>
    ensures { IfOk result (λ octets. octets.items ≡ path_octets rest.now) }
{
    let mut octets = Vec::from_slice(alloc, &[1, 0, b'/'])?;
    octets.extend_from_slice(rest)?;
    octets.push(0)?;
    Ok(octets)
}

/// The octets of the address of a name of the abstract namespace, of which this stands after its `@`.
fn abstract_address(alloc: Global, rest: &[u8]) -> Result<Vec<u8>, AllocError>
    ensures { IfOk result (λ octets. octets.items ≡ abstract_octets rest.now) }
{
    let mut octets = Vec::from_slice(alloc, &[1, 0, 0])?;
    octets.extend_from_slice(rest)?;
    Ok(octets)
}
