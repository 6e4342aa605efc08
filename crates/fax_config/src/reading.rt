//! From a text to the configuration that it tells.
ghost use Rattle.std.specs.Prelude.{◌≡◌, ◌≤◌, ◌==◌, take, count_by, Some, All, codes, length, option_map, OnOk, IfOk, IfErr, IfSome, string_bytes};
ghost use Rattle.toml.specs.Data.{Members, array, get_member};
ghost use Rattle.toml.specs.View.{array_view, table_view};
ghost use Rattle.fax_gateway.specs.LegNames.{leg_text};
ghost use Rattle.fax_config.specs.declared.keys.Level.TheVariants as levels;
ghost use Rattle.fax_config.specs.Members.{HasKnownKeys, IsAddressAt, IsNumberAt, IsNumberIfAt, IsPathAt};
ghost use Rattle.fax_config.specs.Configurations.{AreLines, AreLinesAt, AreUnlike, IsConfig, IsInRange, IsLeg, IsLegAt, IsLine, IsMemory, IsUnlikeSip, Tells, local_addresses, names_of};
ghost use Rattle.fax_config.specs.SipConfigurations.{IsSipAt};
ghost use Rattle.fax_config.specs.Faults.{HasFlaw, HasMisfit, IsFaultOf, IsMisfitOf, IsToldAs, line_number};

use crate::config::{
    Config, LEAST_DIAL_SECONDS, LEAST_LINE_MEMORY, LEAST_MEMORY, LEAST_WAITING, LegConfig,
    LineConfig, MOST_DIAL_SECONDS, MOST_LINE_MEMORY, MOST_LINES, MOST_MEMORY, MOST_STOP_SECONDS,
    MOST_WAITING, RedialConfig, USUAL_LINE_MEMORY,
};
use crate::fault::{ConfigFault, Flaw, LineName, Misfit, Trouble};
use crate::keys::{Level, only_known_keys};
use crate::member::{
    address_at, large_number_at, name_of, number_at, path_at, repeat_of, table_at, value_at,
};
use crate::redial::redials_of;
use crate::retry::retry_of;
use crate::sip::SipConfig;
use crate::sip_reading::sip_of;
use crate::unlike::{locals_unlike, names_unlike, sip_unlike};
use fax_control::Leg;
use fax_gateway::{LEAST_PREAMBLE_MS, MOST_PREAMBLE_MS, MOST_REDUNDANCY};
use std::alloc::{AllocError, Global};
use std::net::SocketAddr;
use toml::Table;
use toml::value::Array;

/// The configuration that a text tells.
pub fn read_config(alloc: Global, text: &str) -> Result<Config, ConfigFault>
    // What is read is what the text tells: a line for each table of `lines`, in order, defaults where a key is absent.
    ensures told { IfOk result (Tells text.now) }
    // A name can be said in a control word, settings are in their ranges, and there are at most 4,000 lines.
    ensures in_range { IfOk result (λ config. All IsInRange config.lines.items) }
    ensures few { IfOk result (λ config. length config.lines.items ≤ 4000) }
    ensures few_redials { IfOk result (λ config. length config.redial.items ≤ 4000) }
    ensures stop_in_range { IfOk result (λ config. config.stop_seconds ≤ 86400) }
    ensures memory_in_range { IfOk result (λ config. IfSome config.memory IsMemory) }
    // No two lines have one name, and no two legs one local address.
    ensures names_unlike { IfOk result (λ config. AreUnlike (names_of config)) }
    ensures addresses_unlike { IfOk result (λ config. AreUnlike (local_addresses config)) }
    // What a fault says of the text is so.
    ensures fault { IfErr result (IsFaultOf text.now) }
{
    match toml::table_from_str(alloc, text) {
        Ok(table) => match config_of(alloc, &table) {
            Ok(config) => Ok(config),
            Err(misfit) => Err(ConfigFault::Misfit(misfit)),
        },
        Err(error) => match error.span() {
            None => Err(ConfigFault::Misfit(Misfit::NoMemory)),
            Some(span) => Err(ConfigFault::NotToml(line_at(text, span.start), error)),
        },
    }
}

/// The line of a text, from 1 on, in which a place of it lies.
fn line_at(text: &str, place: usize) -> usize
    ensures { result ≡ line_number text.now place }
{
    line_feeds(text.as_bytes(), place) + 1
}

/// How many line feeds stand before a place.
fn line_feeds(octets: &[u8], place: usize) -> usize
    ensures counted { result ≡ count_by (λ octet. octet == 10) (take place octets.now) }
    ensures few { result ≤ length octets.now }
{
    octets
        .iter()
        .take(place)
        .filter(|octet| **octet == b'\n')
        .count()
}

/// The configuration that a document tells.
fn config_of(alloc: Global, table: &Table) -> Result<Config, Misfit>
    ensures told { IfOk result (IsConfig (table_view table.now)) }
    ensures in_range { IfOk result (λ config. All IsInRange config.lines.items) }
    ensures fault { IfErr result (IsMisfitOf (table_view table.now)) }
{
    let lines = lines_of(alloc, table)?;
    let redial = redials_of(alloc, table)?;
    names_unlike(alloc, lines.as_slice(), redial.as_slice())?;
    locals_unlike(alloc, lines.as_slice(), redial.as_slice())?;
    let retry = retry_of(alloc, table)?;
    let sip = sip_with(alloc, table, lines.as_slice(), redial.as_slice())?;
    match top_of(alloc, table) {
        Ok(top) => Ok(Config {
            control: top.control,
            spool: top.spool,
            http: top.http,
            stop_seconds: top.stop_seconds,
            memory: top.memory,
            lines,
            retry,
            redial,
            sip,
        }),
        Err(flaw) => Err(Misfit::Top(flaw)),
    }
}

/// What a document with these lines and redial lines tells of SIP.
fn sip_with(
    alloc: Global,
    table: &Table,
    lines: &[LineConfig],
    redials: &[RedialConfig],
) -> Result<Option<SipConfig>, Misfit>
    ensures told { IfOk result (IsSipAt (table_view table.now)) }
    ensures unlike { IfOk result (IsUnlikeSip lines.now redials.now) }
    ensures fault { IfErr result (IsMisfitOf (table_view table.now)) }
{
    match sip_of(alloc, table) {
        Ok(Some(sip)) => match sip_unlike(lines, redials, sip.local, sip.audio) {
            Ok(()) => Ok(Some(sip)),
            Err(misfit) => Err(Misfit::Sip(misfit)),
        },
        Ok(None) => Ok(None),
        Err(misfit) => Err(Misfit::Sip(misfit)),
    }
}

/// What a document tells beside its lines.
#[derive(Drop)]
struct Service {
    control: Option<String>,
    spool: Option<String>,
    http: Option<SocketAddr>,
    stop_seconds: u32,
    memory: Option<u64>,
}

/// What a document tells beside its lines.
fn top_of(alloc: Global, table: &Table) -> Result<Service, Flaw>
    ensures keys { OnOk result (HasKnownKeys levels.Top (table_view table.now)) }
    ensures control { IfOk result (λ top. IsPathAt (codes "control")
        (table_view table.now) (option_map (λ path. string_bytes path) top.control)) }
    ensures spool { IfOk result (λ top. IsPathAt (codes "spool") (table_view table.now) (option_map
        (λ path. string_bytes path) top.spool)) }
    ensures http { IfOk result (λ top. IsAddressAt (codes "http") (table_view table.now) top.http) }
    ensures stop { IfOk result
        (λ top. IsNumberAt (codes "stop_seconds") (table_view table.now) 120 top.stop_seconds) }
    ensures stop_in_range { IfOk result (λ top. top.stop_seconds ≤ 86400) }
    ensures memory { IfOk result
        (λ top. IsNumberIfAt (codes "memory") (table_view table.now) top.memory) }
    ensures memory_in_range { IfOk result (λ top. IfSome top.memory IsMemory) }
    ensures fault { IfErr result (HasFlaw levels.Top (table_view table.now)) }
{
    only_known_keys(alloc, table, Level::Top)?;
    let stop_seconds = number_at(table, "stop_seconds", 120, 0, MOST_STOP_SECONDS)?;
    let control = owned(alloc, path_at(table, "control")?)?;
    let spool = owned(alloc, path_at(table, "spool")?)?;
    let http = address_at(table, "http")?;
    let memory = large_number_at(table, "memory", LEAST_MEMORY, MOST_MEMORY)?;
    Ok(Service {
        control,
        spool,
        http,
        stop_seconds,
        memory,
    })
}

/// A copy of a text.
pub(crate) fn owned(alloc: Global, text: Option<&str>) -> Result<Option<String>, AllocError>
    ensures { IfOk result
        (λ copy. option_map (λ s. string_bytes s) copy ≡ option_map (λ t. t.now) text.entry) }
{
    match text {
        None => Ok(None),
        Some(text) => Ok(Some(String::from_str(alloc, text)?)),
    }
}

/// The lines of a document.
fn lines_of(alloc: Global, table: &Table) -> Result<Vec<LineConfig>, Misfit>
    ensures told { IfOk result (λ lines. AreLinesAt (table_view table.now) lines.items) }
    ensures in_range { IfOk result (λ lines. All IsInRange lines.items) }
    ensures few { IfOk result (λ lines. length lines.items ≤ 4000) }
    ensures fault { IfErr result (IsMisfitOf (table_view table.now)) }
{
    let Some(value) = value_at(table, "lines") else {
        return Ok(Vec::new(alloc));
    };
    match value.as_array() {
        None => Err(Misfit::Top(Flaw::At("lines", Trouble::NotTables))),
        Some(items) if items.len() > MOST_LINES => Err(Misfit::TooManyLines),
        Some(items) => lines_of_items(alloc, items),
    }
}

/// The lines that the items of a list tell.
fn lines_of_items(alloc: Global, items: &Array) -> Result<Vec<LineConfig>, Misfit>
    ensures told { IfOk result (λ lines. AreLines (array_view items.now) lines.items) }
    ensures in_range { IfOk result (λ lines. All IsInRange lines.items) }
    ensures as_many { IfOk result (λ lines. length lines.items ≡ length items.now.items) }
    ensures fault { IfErr result (λ misfit. (members : Members) → get_member (codes "lines") members
        ≡ Some (array (array_view items.now)) → IsMisfitOf members misfit) }
{
    let mut lines = Vec::new(alloc);
    for item in items {
        let Some(table) = item.as_table() else {
            return Err(Misfit::Top(Flaw::At("lines", Trouble::NotTables)));
        };
        let line = line_of(alloc, table, lines.len())?;
        lines.push(line)?;
    }
    Ok(lines)
}

/// The line that a table tells, after so many.
fn line_of(alloc: Global, table: &Table, after: usize) -> Result<LineConfig, Misfit>
    ensures told { IfOk result (IsLine (table_view table.now)) }
    ensures fault { IfErr result (HasMisfit after (table_view table.now)) }
{
    let calling = leg_of_line(alloc, table, Leg::Calling, after)?;
    let called = leg_of_line(alloc, table, Leg::Called, after)?;
    match settings_of(alloc, table, calling, called) {
        Ok(line) => Ok(line),
        Err(flaw) => Err(Misfit::Line(name_to_tell(alloc, table, after)?, flaw)),
    }
}

/// The line that a table tells, with these legs.
fn settings_of(
    alloc: Global,
    table: &Table,
    calling: LegConfig,
    called: LegConfig,
) -> Result<LineConfig, Flaw>
    requires calling { IsLegAt (codes "calling") (table_view table.now) calling }
    requires called { IsLegAt (codes "called") (table_view table.now) called }
    ensures told { IfOk result (IsLine (table_view table.now)) }
    ensures fault { IfErr result (HasFlaw levels.Line (table_view table.now)) }
{
    only_known_keys(alloc, table, Level::Line)?;
    let name = name_of(table)?;
    let redundancy = number_at(table, "redundancy", 3, 0, u32::from(MOST_REDUNDANCY))?;
    let preamble_ms = number_at(
        table,
        "preamble_ms",
        40,
        u32::from(LEAST_PREAMBLE_MS),
        u32::from(MOST_PREAMBLE_MS),
    )?;
    let repeat = repeat_of(table)?;
    let dial_seconds = number_at(
        table,
        "dial_seconds",
        180,
        LEAST_DIAL_SECONDS,
        MOST_DIAL_SECONDS,
    )?;
    let line_memory = number_at(
        table,
        "line_memory",
        USUAL_LINE_MEMORY,
        LEAST_LINE_MEMORY,
        MOST_LINE_MEMORY,
    )?;
    let most_waiting = number_at(
        table,
        "most_waiting",
        MOST_WAITING,
        LEAST_WAITING,
        MOST_WAITING,
    )?;
    Ok(LineConfig {
        name: String::from_str(alloc, name)?,
        calling,
        called,
        redundancy: redundancy as u16,
        preamble_ms: preamble_ms as u16,
        repeat,
        dial_seconds,
        line_memory,
        most_waiting,
    })
}

/// A leg of the line that a table tells.
fn leg_of_line(alloc: Global, table: &Table, leg: Leg, after: usize) -> Result<LegConfig, Misfit>
    ensures told { IfOk result (IsLegAt (leg_text leg) (table_view table.now)) }
    ensures fault { IfErr result (HasMisfit after (table_view table.now)) }
{
    match table_at(table, leg.name()) {
        Err(flaw) => Err(Misfit::Line(name_to_tell(alloc, table, after)?, flaw)),
        Ok(inner) => match leg_of(alloc, inner) {
            Ok(found) => Ok(found),
            Err(flaw) => Err(Misfit::Leg(name_to_tell(alloc, table, after)?, leg, flaw)),
        },
    }
}

/// The leg that a table tells.
pub(crate) fn leg_of(alloc: Global, table: &Table) -> Result<LegConfig, Flaw>
    ensures told { IfOk result (IsLeg (table_view table.now)) }
    ensures fault { IfErr result (HasFlaw levels.Leg (table_view table.now)) }
{
    only_known_keys(alloc, table, Level::Leg)?;
    let Some(local) = address_at(table, "local")? else {
        return Err(Flaw::At("local", Trouble::Absent));
    };
    let peer = address_at(table, "peer")?;
    if peer == Some(local) {
        return Err(Flaw::OwnPeer);
    }
    Ok(LegConfig { local, peer })
}

/// How a line is told of in a fault.
pub(crate) fn name_to_tell(
    alloc: Global,
    table: &Table,
    after: usize,
) -> Result<LineName, AllocError>
    ensures { IfOk result (IsToldAs after (table_view table.now)) }
{
    let Some(value) = value_at(table, "name") else {
        return Ok(LineName::After(after));
    };
    match value.as_str() {
        Some(name) => Ok(LineName::Named(String::from_str(alloc, name)?)),
        None => Ok(LineName::After(after)),
    }
}
