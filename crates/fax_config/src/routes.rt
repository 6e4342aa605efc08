//! The routes of a document.
ghost use Rattle.std.specs.Prelude.{◌≡◌, ◌≤◌, codes, length, Some, IfOk, IfErr, OnOk};
ghost use Rattle.toml.specs.Data.{Members, array, get_member};
ghost use Rattle.toml.specs.View.{array_view, table_view};
ghost use Rattle.fax_config.specs.declared.keys.Level.TheVariants as levels;
ghost use Rattle.fax_config.specs.Faults.{HasFlaw, HasRouteMisfit, IsSipMisfitOf};
ghost use Rattle.fax_config.specs.Members.{HasKnownKeys, IsTextAt};
ghost use Rattle.fax_config.specs.SipConfigurations.{AreRoutes, AreRoutesAt, AreTrunksAt, IsRoute, IsRouteOver, place_of_trunk};

use crate::fault::{Flaw, Trouble};
use crate::keys::{Level, only_known_keys};
use crate::member::{number_at, text_at, value_at};
use crate::sip::{MOST_ROUTES, MOST_STRIP, RouteConfig, TrunkConfig};
use crate::sip_fault::SipMisfit;
use fax_trunks::{Number, Route};
use std::alloc::Global;
use toml::Table;
use toml::value::Array;

/// The routes of a document over these trunks.
pub fn routes_of(
    alloc: Global,
    table: &Table,
    trunks: &[TrunkConfig],
) -> Result<Vec<RouteConfig>, SipMisfit>
    ensures told { IfOk result
        (λ routes. AreRoutesAt trunks.now (table_view table.now) routes.items) }
    ensures few { IfOk result (λ routes. length routes.items ≤ 1000) }
    ensures fault { IfErr result (λ misfit. AreTrunksAt (table_view table.now) trunks.now
        → IsSipMisfitOf (table_view table.now) misfit) }
{
    let Some(value) = value_at(table, "routes") else {
        return Ok(Vec::new(alloc));
    };
    match value.as_array() {
        None => Err(SipMisfit::Top(Flaw::At("routes", Trouble::NotTables))),
        Some(items) if items.len() > MOST_ROUTES => Err(SipMisfit::TooManyRoutes),
        Some(items) => routes_of_items(alloc, items, trunks),
    }
}

/// The routes that the items of a list tell.
fn routes_of_items(
    alloc: Global,
    items: &Array,
    trunks: &[TrunkConfig],
) -> Result<Vec<RouteConfig>, SipMisfit>
    ensures told { IfOk result
        (λ routes. AreRoutes trunks.now (array_view items.now) routes.items) }
    ensures as_many { IfOk result (λ routes. length routes.items ≡ length items.now.items) }
    ensures fault { IfErr result (λ misfit. (members : Members)
        → get_member (codes "routes") members ≡ Some (array (array_view items.now))
        → AreTrunksAt members trunks.now → IsSipMisfitOf members misfit) }
{
    let mut routes = Vec::new(alloc);
    for item in items {
        let Some(table) = item.as_table() else {
            return Err(SipMisfit::Top(Flaw::At("routes", Trouble::NotTables)));
        };
        let route = route_of(alloc, table, trunks, routes.len())?;
        routes.push(route)?;
    }
    Ok(routes)
}

/// The route that a table tells, after so many.
fn route_of(
    alloc: Global,
    table: &Table,
    trunks: &[TrunkConfig],
    after: usize,
) -> Result<RouteConfig, SipMisfit>
    ensures told { IfOk result (IsRoute trunks.now (table_view table.now)) }
    ensures fault { IfErr result (HasRouteMisfit trunks.now after (table_view table.now)) }
{
    let name = match trunk_name_of(alloc, table) {
        Ok(name) => name,
        Err(flaw) => return Err(SipMisfit::Route(after, flaw)),
    };
    let Some(trunk) = trunk_named(trunks, name) else {
        return Err(SipMisfit::UnknownTrunk(after, String::from_str(alloc, name)?));
    };
    match route_over(alloc, table, trunk) {
        Ok(route) => Ok(route),
        Err(flaw) => Err(SipMisfit::Route(after, flaw)),
    }
}

/// The place of the trunk of this name.
fn trunk_named(trunks: &[TrunkConfig], name: &str) -> Option<usize>
    ensures { result ≡ place_of_trunk trunks.now name.now }
{
    trunks.iter().position(|trunk| trunk.name.as_str() == name)
}

/// The name of the trunk of the route that a table tells, whose keys are known.
fn trunk_name_of<'a>(alloc: Global, table: &'a Table) -> Result<&'a str, Flaw>
    ensures keys { OnOk result (HasKnownKeys levels.Route (table_view table.now)) }
    ensures ok { IfOk result
        (λ name. IsTextAt (codes "trunk") (table_view table.now) (Some name.now)) }
    ensures fault { IfErr result (HasFlaw levels.Route (table_view table.now)) }
{
    only_known_keys(alloc, table, Level::Route)?;
    match text_at(table, "trunk")? {
        Some(name) => Ok(name),
        None => Err(Flaw::At("trunk", Trouble::Absent)),
    }
}

/// The route that a table tells, over this trunk.
fn route_over(alloc: Global, table: &Table, trunk: usize) -> Result<RouteConfig, Flaw>
    ensures told { IfOk result (IsRouteOver trunk (table_view table.now)) }
    ensures fault { IfErr result (HasFlaw levels.Route (table_view table.now)) }
{
    let Some(prefix) = text_at(table, "prefix")? else {
        return Err(Flaw::At("prefix", Trouble::Absent));
    };
    let strip = number_at(table, "strip", 0, 0, MOST_STRIP)? as u8;
    let add = match text_at(table, "add")? {
        Some(add) => add,
        None => "",
    };
    let Ok(number) = Number::read(prefix.as_bytes()) else {
        return Err(Flaw::At("prefix", Trouble::NotCalled));
    };
    if Route::new(number, trunk, strip, add.as_bytes()).is_err() {
        return Err(Flaw::At("add", Trouble::NotDialled));
    }
    Ok(RouteConfig {
        prefix: String::from_str(alloc, prefix)?,
        trunk,
        strip,
        add: String::from_str(alloc, add)?,
    })
}
