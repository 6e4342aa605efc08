//! The trunks of a document.
ghost use Rattle.std.specs.Prelude.{◌≡◌, ◌≤◌, Some, codes, length, option_map, IfOk, IfErr, string_bytes};
ghost use Rattle.toml.specs.Data.{Members, array, get_member};
ghost use Rattle.toml.specs.View.{array_view, table_view};
ghost use Rattle.fax_config.specs.declared.keys.Level.TheVariants as levels;
ghost use Rattle.fax_config.specs.Faults.{HasFlaw, HasTrunkMisfit, IsSipMisfitOf};
ghost use Rattle.fax_config.specs.SipConfigurations.{AreTrunks, AreTrunksAt, IsAccount, IsReach, IsTrunk};

use crate::fault::{Flaw, Trouble};
use crate::keys::{Level, only_known_keys};
use crate::member::{address_at, name_of, number_at, path_at, value_at};
use crate::reading::{name_to_tell, owned};
use crate::sip::{LEAST_CALLS, MOST_CALLS, MOST_TRUNKS, TrunkConfig};
use crate::sip_fault::SipMisfit;
use crate::sip_member::{call_with_of, networks_at, truth_at, user_at};
use fax_trunks::Network;
use std::alloc::Global;
use std::net::SocketAddr;
use toml::Table;
use toml::value::Array;

/// How many calls at a time a trunk may have where nothing is said.
const DEFAULT_CALLS: u32 = 100;

/// The trunks of a document.
pub fn trunks_of(alloc: Global, table: &Table) -> Result<Vec<TrunkConfig>, SipMisfit>
    ensures told { IfOk result (λ trunks. AreTrunksAt (table_view table.now) trunks.items) }
    ensures few { IfOk result (λ trunks. length trunks.items ≤ 64) }
    ensures fault { IfErr result (IsSipMisfitOf (table_view table.now)) }
{
    let Some(value) = value_at(table, "trunks") else {
        return Ok(Vec::new(alloc));
    };
    match value.as_array() {
        None => Err(SipMisfit::Top(Flaw::At("trunks", Trouble::NotTables))),
        Some(items) if items.len() > MOST_TRUNKS => Err(SipMisfit::TooManyTrunks),
        Some(items) => trunks_of_items(alloc, items),
    }
}

/// The trunks that the items of a list tell.
fn trunks_of_items(alloc: Global, items: &Array) -> Result<Vec<TrunkConfig>, SipMisfit>
    ensures told { IfOk result (λ trunks. AreTrunks (array_view items.now) trunks.items) }
    ensures as_many { IfOk result (λ trunks. length trunks.items ≡ length items.now.items) }
    ensures fault { IfErr result (λ misfit. (members : Members)
        → get_member (codes "trunks") members ≡ Some (array (array_view items.now))
        → IsSipMisfitOf members misfit) }
{
    let mut trunks = Vec::new(alloc);
    for item in items {
        let Some(table) = item.as_table() else {
            return Err(SipMisfit::Top(Flaw::At("trunks", Trouble::NotTables)));
        };
        let trunk = named_trunk_of(alloc, table, trunks.len())?;
        trunks.push(trunk)?;
    }
    Ok(trunks)
}

/// The trunk that a table tells, after so many.
fn named_trunk_of(alloc: Global, table: &Table, after: usize) -> Result<TrunkConfig, SipMisfit>
    ensures told { IfOk result (IsTrunk (table_view table.now)) }
    ensures fault { IfErr result (HasTrunkMisfit after (table_view table.now)) }
{
    match trunk_of(alloc, table) {
        Ok(trunk) => Ok(trunk),
        Err(flaw) => Err(SipMisfit::Trunk(name_to_tell(alloc, table, after)?, flaw)),
    }
}

/// Where a trunk is, and who may call from there.
#[derive(Drop)]
struct Reach {
    name: String,
    address: SocketAddr,
    allow: Vec<Network>,
}

/// As whom a trunk is called.
#[derive(Drop)]
struct Account {
    user: Option<String>,
    password_file: Option<String>,
    registers: bool,
}

/// The trunk that a table tells.
fn trunk_of(alloc: Global, table: &Table) -> Result<TrunkConfig, Flaw>
    ensures told { IfOk result (IsTrunk (table_view table.now)) }
    ensures fault { IfErr result (HasFlaw levels.Trunk (table_view table.now)) }
{
    only_known_keys(alloc, table, Level::Trunk)?;
    let reach = reach_of(alloc, table)?;
    let account = account_of(alloc, table)?;
    let call_with = call_with_of(table)?;
    let calls = number_at(table, "calls", DEFAULT_CALLS, LEAST_CALLS, MOST_CALLS)?;
    Ok(TrunkConfig {
        name: reach.name,
        address: reach.address,
        allow: reach.allow,
        user: account.user,
        password_file: account.password_file,
        registers: account.registers,
        call_with,
        calls,
    })
}

/// Where the trunk that a table tells is.
fn reach_of(alloc: Global, table: &Table) -> Result<Reach, Flaw>
    ensures told { IfOk result (λ reach.
        IsReach (table_view table.now) (string_bytes reach.name) reach.address reach.allow.items) }
    ensures fault { IfErr result (HasFlaw levels.Trunk (table_view table.now)) }
{
    let name = name_of(table)?;
    let Some(address) = address_at(table, "address")? else {
        return Err(Flaw::At("address", Trouble::Absent));
    };
    let allow = networks_at(alloc, table, "allow")?;
    Ok(Reach {
        name: String::from_str(alloc, name)?,
        address,
        allow,
    })
}

/// As whom the trunk that a table tells is called. A password and a registration want a user.
fn account_of(alloc: Global, table: &Table) -> Result<Account, Flaw>
    ensures told { IfOk result (λ account. IsAccount (table_view table.now) (option_map
        (λ user. string_bytes user) account.user) (option_map
        (λ path. string_bytes path) account.password_file) account.registers) }
    ensures fault { IfErr result (HasFlaw levels.Trunk (table_view table.now)) }
{
    let user = user_at(table)?;
    let password_file = path_at(table, "password_file")?;
    let registers = truth_at(table, "register")?;
    if user.is_none() && password_file.is_some() {
        return Err(Flaw::Wants("password_file", "user"));
    }
    if user.is_none() && registers {
        return Err(Flaw::Wants("register", "user"));
    }
    Ok(Account {
        user: owned(alloc, user)?,
        password_file: owned(alloc, password_file)?,
        registers,
    })
}
