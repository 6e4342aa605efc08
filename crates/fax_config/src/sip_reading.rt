//! SIP in a document.
ghost use Rattle.std.specs.Prelude.{◌≡◌, ◌≤◌, codes, None, Some, IfOk, IfErr, OnOk};
ghost use Rattle.toml.specs.Data.{get_member};
ghost use Rattle.toml.specs.View.{table_view};
ghost use Rattle.fax_config.specs.declared.keys.Level.TheVariants as levels;
ghost use Rattle.fax_config.specs.Faults.{HasFlaw, HasHeadMisfit, IsSipMisfitOf};
ghost use Rattle.fax_config.specs.Members.{HasKnownKeys, IsAddressAt, IsNumberAt};
ghost use Rattle.fax_config.specs.SipConfigurations.{IsHead, IsSipAt};

use crate::fault::{Flaw, Trouble};
use crate::keys::{Level, only_known_keys};
use crate::member::{address_at, number_at, value_at};
use crate::routes::routes_of;
use crate::sip::{LEAST_RING_SECONDS, MOST_RING_SECONDS, SipConfig};
use crate::sip_fault::SipMisfit;
use crate::trunks::trunks_of;
use crate::unlike::trunks_unlike;
use std::alloc::Global;
use std::net::SocketAddr;
use toml::Table;

/// How long a call of ours waits for its answer where nothing is said, in seconds.
const DEFAULT_RING_SECONDS: u32 = 90;

/// What a document tells of SIP; none, where it has no `sip`.
pub fn sip_of(alloc: Global, table: &Table) -> Result<Option<SipConfig>, SipMisfit>
    ensures told { IfOk result (IsSipAt (table_view table.now)) }
    ensures fault { IfErr result (IsSipMisfitOf (table_view table.now)) }
{
    let Some(value) = value_at(table, "sip") else {
        nothing_without_sip(table)?;
        return Ok(None);
    };
    let Some(inner) = value.as_table() else {
        return Err(SipMisfit::Top(Flaw::At("sip", Trouble::NotTable)));
    };
    let head = head_of(alloc, inner)?;
    let trunks = trunks_of(alloc, table)?;
    trunks_unlike(alloc, trunks.as_slice())?;
    let routes = routes_of(alloc, table, trunks.as_slice())?;
    Ok(Some(SipConfig {
        local: head.local,
        audio: head.audio,
        ring_seconds: head.ring_seconds,
        trunks,
        routes,
    }))
}

/// Refuses a document that has trunks or routes, and has no `sip`.
fn nothing_without_sip(table: &Table) -> Result<(), SipMisfit>
    requires { get_member (codes "sip") (table_view table.now) ≡ None }
    ensures trunks { OnOk result (get_member (codes "trunks") (table_view table.now) ≡ None) }
    ensures routes { OnOk result (get_member (codes "routes") (table_view table.now) ≡ None) }
    ensures fault { IfErr result (IsSipMisfitOf (table_view table.now)) }
{
    if value_at(table, "trunks").is_some() {
        return Err(SipMisfit::WithoutSip("trunks"));
    }
    if value_at(table, "routes").is_some() {
        return Err(SipMisfit::WithoutSip("routes"));
    }
    Ok(())
}

/// What the table of `sip` tells.
#[derive(Clone, Copy)]
struct Head {
    local: SocketAddr,
    audio: SocketAddr,
    ring_seconds: u32,
}

/// What the table of `sip` tells, whose addresses differ.
fn head_of(alloc: Global, table: &Table) -> Result<Head, SipMisfit>
    ensures told { IfOk result
        (λ head. IsHead (table_view table.now) head.local head.audio head.ring_seconds) }
    ensures fault { IfErr result (HasHeadMisfit (table_view table.now)) }
{
    let head = match head_in(alloc, table) {
        Ok(head) => head,
        Err(flaw) => return Err(SipMisfit::Sip(flaw)),
    };
    if head.local == head.audio {
        return Err(SipMisfit::OneAddress);
    }
    Ok(head)
}

/// What the table of `sip` tells.
fn head_in(alloc: Global, table: &Table) -> Result<Head, Flaw>
    ensures keys { OnOk result (HasKnownKeys levels.Sip (table_view table.now)) }
    ensures local { IfOk result
        (λ head. IsAddressAt (codes "local") (table_view table.now) (Some head.local)) }
    ensures audio { IfOk result
        (λ head. IsAddressAt (codes "audio") (table_view table.now) (Some head.audio)) }
    ensures ring { IfOk result
        (λ head. IsNumberAt (codes "ring_seconds") (table_view table.now) 90 head.ring_seconds) }
    ensures least { IfOk result (λ head. 1 ≤ head.ring_seconds) }
    ensures most { IfOk result (λ head. head.ring_seconds ≤ 600) }
    ensures fault { IfErr result (HasFlaw levels.Sip (table_view table.now)) }
{
    only_known_keys(alloc, table, Level::Sip)?;
    let Some(local) = address_at(table, "local")? else {
        return Err(Flaw::At("local", Trouble::Absent));
    };
    let Some(audio) = address_at(table, "audio")? else {
        return Err(Flaw::At("audio", Trouble::Absent));
    };
    let ring_seconds = number_at(
        table,
        "ring_seconds",
        DEFAULT_RING_SECONDS,
        LEAST_RING_SECONDS,
        MOST_RING_SECONDS,
    )?;
    Ok(Head {
        local,
        audio,
        ring_seconds,
    })
}
