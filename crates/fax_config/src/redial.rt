//! The redial lines of a document.
ghost use Rattle.std.specs.Prelude.{◌≡◌, ◌≤◌, Some, codes, length, IfOk, IfErr};
ghost use Rattle.toml.specs.Data.{Members, array, get_member};
ghost use Rattle.toml.specs.View.{array_view, table_view};
ghost use Rattle.fax_config.specs.declared.keys.Level.TheVariants as levels;
ghost use Rattle.fax_config.specs.Members.{AreTold, AreToldAt};
ghost use Rattle.fax_config.specs.Configurations.{IsLegAt, IsRedial, IsRedialOf};
ghost use Rattle.fax_config.specs.Faults.{HasFlaw, HasRedialMisfit, IsMisfitOf};

use crate::config::{LegConfig, MOST_LINES, RedialConfig};
use crate::fault::{Flaw, Misfit, Trouble};
use crate::keys::{Level, only_known_keys};
use crate::member::{name_of, table_at, value_at};
use crate::reading::{leg_of, name_to_tell};
use std::alloc::Global;
use toml::Table;
use toml::value::Array;

/// The redial lines of a document.
pub fn redials_of(alloc: Global, table: &Table) -> Result<Vec<RedialConfig>, Misfit>
    ensures told { IfOk result
        (λ redials. AreToldAt IsRedialOf (codes "redial") (table_view table.now) redials.items) }
    ensures few { IfOk result (λ redials. length redials.items ≤ 4000) }
    ensures fault { IfErr result (IsMisfitOf (table_view table.now)) }
{
    let Some(value) = value_at(table, "redial") else {
        return Ok(Vec::new(alloc));
    };
    match value.as_array() {
        None => Err(Misfit::Top(Flaw::At("redial", Trouble::NotTables))),
        Some(items) if items.len() > MOST_LINES => Err(Misfit::TooManyRedials),
        Some(items) => redials_of_items(alloc, items),
    }
}

/// The redial lines that the items of a list tell.
fn redials_of_items(alloc: Global, items: &Array) -> Result<Vec<RedialConfig>, Misfit>
    ensures told { IfOk result
        (λ redials. AreTold IsRedialOf (array_view items.now) redials.items) }
    ensures as_many { IfOk result (λ redials. length redials.items ≡ length items.now.items) }
    ensures fault { IfErr result (λ misfit. (members : Members)
        → get_member (codes "redial") members ≡ Some (array (array_view items.now))
        → IsMisfitOf members misfit) }
{
    let mut redials = Vec::new(alloc);
    for item in items {
        let Some(table) = item.as_table() else {
            return Err(Misfit::Top(Flaw::At("redial", Trouble::NotTables)));
        };
        let redial = redial_of(alloc, table, redials.len())?;
        redials.push(redial)?;
    }
    Ok(redials)
}

/// The redial line that a table tells, after so many.
fn redial_of(alloc: Global, table: &Table, after: usize) -> Result<RedialConfig, Misfit>
    ensures told { IfOk result (IsRedial (table_view table.now)) }
    ensures fault { IfErr result (HasRedialMisfit after (table_view table.now)) }
{
    let called = called_of(alloc, table, after)?;
    match named_of(alloc, table, called) {
        Ok(redial) => Ok(redial),
        Err(flaw) => Err(Misfit::Redial(name_to_tell(alloc, table, after)?, flaw)),
    }
}

/// The redial line that a table tells, with this leg.
fn named_of(alloc: Global, table: &Table, called: LegConfig) -> Result<RedialConfig, Flaw>
    requires { IsLegAt (codes "called") (table_view table.now) called }
    ensures told { IfOk result (IsRedial (table_view table.now)) }
    ensures fault { IfErr result (HasFlaw levels.Redial (table_view table.now)) }
{
    only_known_keys(alloc, table, Level::Redial)?;
    let name = name_of(table)?;
    Ok(RedialConfig {
        name: String::from_str(alloc, name)?,
        called,
    })
}

/// The leg of the redial line that a table tells.
fn called_of(alloc: Global, table: &Table, after: usize) -> Result<LegConfig, Misfit>
    ensures told { IfOk result (IsLegAt (codes "called") (table_view table.now)) }
    ensures fault { IfErr result (HasRedialMisfit after (table_view table.now)) }
{
    match table_at(table, "called") {
        Err(flaw) => Err(Misfit::Redial(name_to_tell(alloc, table, after)?, flaw)),
        Ok(inner) => match leg_of(alloc, inner) {
            Ok(found) => Ok(found),
            Err(flaw) => Err(Misfit::RedialLeg(name_to_tell(alloc, table, after)?, flaw)),
        },
    }
}
