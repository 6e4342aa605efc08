//! The members of a table that tell of SIP.
ghost use Rattle.std.specs.Prelude.{◌≡◌, ◌↔◌, IsTrue, IfOk, IfErr, IfNone, IfSome, option_map};
ghost use Rattle.toml.specs.View.{array_view, table_view, view};
ghost use Rattle.fax_config.specs.declared.keys.Level.{Level};
ghost use Rattle.fax_config.specs.Faults.{HasFlaw, HasNoNetwork, IsNoNetwork};
ghost use Rattle.fax_config.specs.SipMembers.{AreNetworks, AreNetworksAt, IsCallWithAt, IsNetworkOf, IsTruthAt, IsUser, IsUserAt, is_user_octet};

use crate::fault::{Flaw, Trouble};
use crate::member::{text_at, value_at};
use crate::sip::CallWith;
use fax_trunks::Network;
use std::alloc::{AllocError, Global};
use toml::value::Array;
use toml::{Table, Value};

/// The most octets of a user.
const MOST_USER_OCTETS: usize = 64;

/// What is said at a key is so; where nothing is said, it is not.
pub fn truth_at(table: &Table, key: &'static str) -> Result<bool, Flaw>
    ensures ok { IfOk result (λ truth. IsTruthAt key.now (table_view table.now) truth) }
    ensures fault { IfErr result
        (λ flaw. (level : Level) → HasFlaw level (table_view table.now) flaw) }
{
    let Some(value) = value_at(table, key) else {
        return Ok(false);
    };
    match value.as_bool() {
        Some(truth) => Ok(truth),
        None => Err(Flaw::At(key, Trouble::NotTruth)),
    }
}

/// What a call offers first, as `call_with` says.
pub fn call_with_of(table: &Table) -> Result<CallWith, Flaw>
    ensures ok { IfOk result (λ with. IsCallWithAt (table_view table.now) with) }
    ensures fault { IfErr result
        (λ flaw. (level : Level) → HasFlaw level (table_view table.now) flaw) }
{
    let Some(text) = text_at(table, "call_with")? else {
        return Ok(CallWith::T38);
    };
    if text == "t38" {
        Ok(CallWith::T38)
    } else if text == "audio" {
        Ok(CallWith::Audio)
    } else {
        Err(Flaw::At("call_with", Trouble::NotCallWith))
    }
}

/// Whether an octet may stand in a user: a letter, a digit, or one of `-_.+`. None of them is escaped in an address (RFC 3261,
/// 25.1).
fn is_user_octet(octet: u8) -> bool
    ensures { result ≡ is_user_octet octet }
{
    octet.is_ascii_alphanumeric() || b"-_.+".contains(&octet)
}

/// Whether a text can be a user.
fn is_user(text: &str) -> bool
    ensures { IsTrue result ↔ IsUser text.now }
{
    if text.is_empty() {
        return false;
    }
    if text.len() > MOST_USER_OCTETS {
        return false;
    }
    text.as_bytes().iter().all(|octet| is_user_octet(*octet))
}

/// The user that `user` says, where it says one.
pub fn user_at(table: &Table) -> Result<Option<&str>, Flaw>
    ensures ok { IfOk result
        (λ user. IsUserAt (table_view table.now) (option_map (λ octets. octets.now) user)) }
    ensures fault { IfErr result
        (λ flaw. (level : Level) → HasFlaw level (table_view table.now) flaw) }
{
    let Some(user) = text_at(table, "user")? else {
        return Ok(None);
    };
    if is_user(user) {
        Ok(Some(user))
    } else {
        Err(Flaw::At("user", Trouble::NotUser))
    }
}

/// The network that a value tells.
fn network_of(value: &Value) -> Option<Network>
    ensures some { IfSome result (IsNetworkOf (view value.now)) }
    ensures none { IfNone result (IsNoNetwork (view value.now)) }
{
    let Some(text) = value.as_str() else {
        return None;
    };
    match Network::read(text) {
        Ok(network) => Some(network),
        Err(_) => None,
    }
}

/// The networks at a key; none where there is nothing.
pub fn networks_at(alloc: Global, table: &Table, key: &'static str) -> Result<Vec<Network>, Flaw>
    ensures ok { IfOk result
        (λ networks. AreNetworksAt key.now (table_view table.now) networks.items) }
    ensures fault { IfErr result
        (λ flaw. (level : Level) → HasFlaw level (table_view table.now) flaw) }
{
    let Some(value) = value_at(table, key) else {
        return Ok(Vec::new(alloc));
    };
    let Some(items) = value.as_array() else {
        return Err(Flaw::At(key, Trouble::NotNetworks));
    };
    match networks_of(alloc, items)? {
        Some(networks) => Ok(networks),
        None => Err(Flaw::At(key, Trouble::NotNetworks)),
    }
}

/// The networks that the items of a list tell; none, where one of them tells none.
fn networks_of(alloc: Global, items: &Array) -> Result<Option<Vec<Network>>, AllocError>
    ensures told { IfOk result
        (λ found. IfSome found (λ networks. AreNetworks (array_view items.now) networks.items)) }
    ensures none { IfOk result (λ found. IfNone found (HasNoNetwork (array_view items.now))) }
{
    let mut networks = Vec::new(alloc);
    for item in items {
        let Some(network) = network_of(item) else {
            return Ok(None);
        };
        if networks.push(network).is_err() {
            return Err(AllocError);
        }
    }
    Ok(Some(networks))
}
