//! When a job that could not be delivered is tried again.
ghost use Rattle.std.specs.Prelude.{◌≡◌, ◌≤◌, Some, codes, length, IfOk, IfErr};
ghost use Rattle.toml.specs.Data.{Members, array, get_member};
ghost use Rattle.toml.specs.View.{array_view, table_view};
ghost use Rattle.fax_config.specs.declared.keys.Level.TheVariants as levels;
ghost use Rattle.fax_config.specs.Members.{AreTold, AreToldAt, HasKnownKeys};
ghost use Rattle.fax_config.specs.Configurations.{IsRetryAt, IsWait};
ghost use Rattle.fax_config.specs.Faults.{HasFlaw, IsMisfitOf};

use crate::config::{LEAST_RETRY_SECONDS, MOST_RETRIES, MOST_RETRY_SECONDS, RetryConfig};
use crate::fault::{Flaw, Misfit, Trouble};
use crate::keys::{Level, only_known_keys};
use crate::member::{in_range, table_if_at, value_at};
use std::alloc::Global;
use toml::Table;
use toml::value::Array;

/// When jobs are tried again, as a document tells.
pub fn retry_of(alloc: Global, table: &Table) -> Result<RetryConfig, Misfit>
    ensures told { IfOk result (IsRetryAt (table_view table.now)) }
    ensures few { IfOk result (λ retry. length retry.after_seconds.items ≤ 16) }
    ensures fault { IfErr result (IsMisfitOf (table_view table.now)) }
{
    match table_if_at(table, "retry") {
        Err(flaw) => Err(Misfit::Top(flaw)),
        Ok(None) => Ok(RetryConfig {
            after_seconds: Vec::new(alloc),
        }),
        Ok(Some(inner)) => match waits_of(alloc, inner) {
            Ok(after_seconds) => Ok(RetryConfig { after_seconds }),
            Err(flaw) => Err(Misfit::Retry(flaw)),
        },
    }
}

/// How long is waited for each time, as a table tells.
fn waits_of(alloc: Global, table: &Table) -> Result<Vec<u32>, Flaw>
    ensures keys { IfOk result (λ _. HasKnownKeys levels.Retry (table_view table.now)) }
    ensures told { IfOk result
        (λ waits. AreToldAt IsWait (codes "after_seconds") (table_view table.now) waits.items) }
    ensures few { IfOk result (λ waits. length waits.items ≤ 16) }
    ensures fault { IfErr result (HasFlaw levels.Retry (table_view table.now)) }
{
    only_known_keys(alloc, table, Level::Retry)?;
    let Some(value) = value_at(table, "after_seconds") else {
        return Ok(Vec::new(alloc));
    };
    match value.as_array() {
        None => Err(Flaw::At("after_seconds", Trouble::NotNumbers)),
        Some(items) if items.len() > MOST_RETRIES => Err(Flaw::At(
            "after_seconds",
            Trouble::TooMany(MOST_RETRIES as u32),
        )),
        Some(items) => waits_of_items(alloc, items),
    }
}

/// How long is waited for each time, as the items of a list tell.
fn waits_of_items(alloc: Global, items: &Array) -> Result<Vec<u32>, Flaw>
    ensures told { IfOk result (λ waits. AreTold IsWait (array_view items.now) waits.items) }
    ensures as_many { IfOk result (λ waits. length waits.items ≡ length items.now.items) }
    ensures fault { IfErr result (λ flaw. (members : Members)
        → get_member (codes "after_seconds") members ≡ Some (array (array_view items.now))
        → HasFlaw levels.Retry members flaw) }
{
    let mut waits = Vec::new(alloc);
    for item in items {
        let Some(number) = item.as_integer() else {
            return Err(Flaw::At("after_seconds", Trouble::NotNumbers));
        };
        let Some(seconds) = in_range(number, LEAST_RETRY_SECONDS, MOST_RETRY_SECONDS) else {
            return Err(Flaw::At(
                "after_seconds",
                Trouble::ItemOutOfRange(LEAST_RETRY_SECONDS, MOST_RETRY_SECONDS),
            ));
        };
        waits.push(seconds)?;
    }
    Ok(waits)
}
