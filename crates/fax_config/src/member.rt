//! The members of a table.
ghost use Rattle.std.specs.Prelude.{◌≡◌, ◌≤◌, ℕ, ◌↔◌, pos, Some, codes, IsTrue, IfSome, IfNone, IfOk, IfErr, option_map};
ghost use Rattle.toml.specs.Data.{get_member};
ghost use Rattle.toml.specs.View.{table_view, view};
ghost use Rattle.fax_config.specs.declared.keys.Level.{Level};
ghost use Rattle.fax_config.specs.Faults.{HasFlaw};
ghost use Rattle.fax_config.specs.Members.{IsAddressAt, IsLineName, IsNumberAt, IsNumberIfAt, IsPathAt, IsRepeatAt, IsTableAt, IsTableIfAt, IsTextAt};

use crate::config::{MOST_NAME_OCTETS, Repeat};
use crate::fault::{Flaw, Trouble};
use std::net::SocketAddr;
use toml::{Table, Value};

/// The value at a key, if there is one.
pub fn value_at<'a>(table: &'a Table, key: &str) -> Option<&'a Value>
    ensures { option_map
        (λ value. view value.now) result ≡ get_member key.now (table_view table.now) }
{
    table.get(key)
}

/// The text at a key, if there is one.
pub fn text_at<'a>(table: &'a Table, key: &'static str) -> Result<Option<&'a str>, Flaw>
    ensures ok { IfOk result (λ text.
        IsTextAt key.now (table_view table.now) (option_map (λ octets. octets.now) text)) }
    ensures fault { IfErr result
        (λ flaw. (level : Level) → HasFlaw level (table_view table.now) flaw) }
{
    let Some(value) = value_at(table, key) else {
        return Ok(None);
    };
    match value.as_str() {
        Some(text) => Ok(Some(text)),
        None => Err(Flaw::At(key, Trouble::NotText)),
    }
}

/// The path at a key, if there is one. It has an octet at least.
pub fn path_at<'a>(table: &'a Table, key: &'static str) -> Result<Option<&'a str>, Flaw>
    ensures ok { IfOk result (λ path.
        IsPathAt key.now (table_view table.now) (option_map (λ octets. octets.now) path)) }
    ensures fault { IfErr result
        (λ flaw. (level : Level) → HasFlaw level (table_view table.now) flaw) }
{
    let Some(path) = text_at(table, key)? else {
        return Ok(None);
    };
    if path.is_empty() {
        return Err(Flaw::At(key, Trouble::Empty));
    }
    Ok(Some(path))
}

/// A number that has to lie in a range, if it does.
pub fn in_range(number: i64, least: u32, most: u32) -> Option<u32>
    ensures same { IfSome result (λ found. number ≡ pos found) }
    ensures within { IfSome result (λ found. (least ≤ found) × (found ≤ most)) }
    ensures without { IfNone result ((n : ℕ) → number ≡ pos n → least ≤ n → n ≤ most → ⊥) }
{
    let Ok(found) = u32::try_from(number) else {
        return None;
    };
    if found < least {
        return None;
    }
    if most < found {
        return None;
    }
    Some(found)
}

/// The number at a key, or another one where there is none. It has to lie in a range.
pub fn number_at(
    table: &Table,
    key: &'static str,
    default: u32,
    least: u32,
    most: u32,
) -> Result<u32, Flaw>
    requires within { (least ≤ default) × (default ≤ most) }
    ensures ok { IfOk result (λ number. IsNumberAt key.now (table_view table.now) default number) }
    ensures in_range { IfOk result (λ number. (least ≤ number) × (number ≤ most)) }
    ensures fault { IfErr result
        (λ flaw. (level : Level) → HasFlaw level (table_view table.now) flaw) }
{
    let Some(value) = value_at(table, key) else {
        return Ok(default);
    };
    let Some(number) = value.as_integer() else {
        return Err(Flaw::At(key, Trouble::NotNumber));
    };
    match in_range(number, least, most) {
        Some(number) => Ok(number),
        None => Err(Flaw::At(key, Trouble::OutOfRange(u64::from(least), u64::from(most)))),
    }
}

/// A large number that has to lie in a range, if it does.
fn in_large_range(number: i64, least: u64, most: u64) -> Option<u64>
    ensures same { IfSome result (λ found. number ≡ pos found) }
    ensures within { IfSome result (λ found. (least ≤ found) × (found ≤ most)) }
    ensures without { IfNone result ((n : ℕ) → number ≡ pos n → least ≤ n → n ≤ most → ⊥) }
{
    let Ok(found) = u64::try_from(number) else {
        return None;
    };
    if found < least {
        return None;
    }
    if most < found {
        return None;
    }
    Some(found)
}

/// The large number at a key, if there is one. It has to lie in a range.
pub fn large_number_at(
    table: &Table,
    key: &'static str,
    least: u64,
    most: u64,
) -> Result<Option<u64>, Flaw>
    ensures ok { IfOk result (λ number. IsNumberIfAt key.now (table_view table.now) number) }
    ensures in_range { IfOk result (λ number. IfSome number (λ n. (least ≤ n) × (n ≤ most))) }
    ensures fault { IfErr result
        (λ flaw. (level : Level) → HasFlaw level (table_view table.now) flaw) }
{
    let Some(value) = value_at(table, key) else {
        return Ok(None);
    };
    let Some(number) = value.as_integer() else {
        return Err(Flaw::At(key, Trouble::NotNumber));
    };
    match in_large_range(number, least, most) {
        Some(number) => Ok(Some(number)),
        None => Err(Flaw::At(key, Trouble::OutOfRange(least, most))),
    }
}

/// The address at a key, if there is one. Its port is not 0.
pub fn address_at(table: &Table, key: &'static str) -> Result<Option<SocketAddr>, Flaw>
    ensures ok { IfOk result (λ address. IsAddressAt key.now (table_view table.now) address) }
    ensures fault { IfErr result
        (λ flaw. (level : Level) → HasFlaw level (table_view table.now) flaw) }
{
    let Some(text) = text_at(table, key)? else {
        return Ok(None);
    };
    match text.parse::<SocketAddr>() {
        Ok(address) if address.port() == 0 => Err(Flaw::At(key, Trouble::NoPort)),
        Ok(address) => Ok(Some(address)),
        Err(_) => Err(Flaw::At(key, Trouble::NotAddress)),
    }
}

/// The table at a key, which has to be there.
pub fn table_at<'a>(table: &'a Table, key: &'static str) -> Result<&'a Table, Flaw>
    ensures ok { IfOk result
        (λ inner. IsTableAt key.now (table_view table.now) (table_view inner.now)) }
    ensures fault { IfErr result
        (λ flaw. (level : Level) → HasFlaw level (table_view table.now) flaw) }
{
    let Some(value) = value_at(table, key) else {
        return Err(Flaw::At(key, Trouble::Absent));
    };
    match value.as_table() {
        Some(inner) => Ok(inner),
        None => Err(Flaw::At(key, Trouble::NotTable)),
    }
}

/// The table at a key, if there is one.
pub fn table_if_at<'a>(table: &'a Table, key: &'static str) -> Result<Option<&'a Table>, Flaw>
    ensures ok { IfOk result (λ inner. IsTableIfAt key.now (table_view table.now) (option_map
        (λ found. table_view found.now) inner)) }
    ensures fault { IfErr result
        (λ flaw. (level : Level) → HasFlaw level (table_view table.now) flaw) }
{
    let Some(value) = value_at(table, key) else {
        return Ok(None);
    };
    match value.as_table() {
        Some(inner) => Ok(Some(inner)),
        None => Err(Flaw::At(key, Trouble::NotTable)),
    }
}

/// Which datagrams are sent again, as `repeat` says.
pub fn repeat_of(table: &Table) -> Result<Repeat, Flaw>
    ensures ok { IfOk result (λ repeat. IsRepeatAt (table_view table.now) repeat) }
    ensures fault { IfErr result
        (λ flaw. (level : Level) → HasFlaw level (table_view table.now) flaw) }
{
    let Some(text) = text_at(table, "repeat")? else {
        return Ok(Repeat::Full);
    };
    if text == "full" {
        Ok(Repeat::Full)
    } else if text == "last" {
        Ok(Repeat::Last)
    } else if text == "none" {
        Ok(Repeat::None)
    } else {
        Err(Flaw::At("repeat", Trouble::NotRepeat))
    }
}

/// Whether a text can be the name of a line. `any` is what a word says for any of them.
fn is_name(text: &str) -> bool
    ensures { IsTrue result ↔ IsLineName text.now }
{
    if text.is_empty() {
        return false;
    }
    if text.len() > MOST_NAME_OCTETS {
        return false;
    }
    if text == "any" {
        return false;
    }
    text.as_bytes().iter().all(|octet| *octet > b' ')
}

/// The name of a line.
pub fn name_of<'a>(table: &'a Table) -> Result<&'a str, Flaw>
    ensures ok { IfOk result
        (λ name. IsTextAt (codes "name") (table_view table.now) (Some name.now)) }
    ensures is_name { IfOk result (λ name. IsLineName name.now) }
    ensures fault { IfErr result
        (λ flaw. (level : Level) → HasFlaw level (table_view table.now) flaw) }
{
    let Some(name) = text_at(table, "name")? else {
        return Err(Flaw::At("name", Trouble::Absent));
    };
    if is_name(name) {
        Ok(name)
    } else {
        Err(Flaw::At("name", Trouble::NotName))
    }
}
