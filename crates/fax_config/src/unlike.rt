//! What no two of may be alike.
ghost use Rattle.std.specs.Prelude.{◌≡◌, ◌++◌, false, map, IfOk, IfErr, IfNone, IfSome, OnOk};
ghost use Rattle.std.specs.List.{IsDistinct};
ghost use Rattle.toml.specs.Data.{Members};
ghost use Rattle.fax_config.specs.Configurations.{AreLinesAt, AreRedialsAt, AreUnlike, IsAtNoLeg, IsAtNoLegOfLines, IsAtNoRedial, locals_of_all, locals_of_lines, locals_of_redials, names_of_all, names_of_lines, names_of_redials};
ghost use Rattle.fax_config.specs.declared.fault.Misfit.TheVariants as misfits;
ghost use Rattle.fax_config.specs.Faults.{IsMisfitOf, IsRepeated, IsSipMisfitOf, IsTaken};
ghost use Rattle.fax_config.specs.SipConfigurations.{AreTrunksAt, names_of_trunks};

use crate::config::{LineConfig, RedialConfig};
use crate::fault::{LineName, Misfit};
use crate::sip::TrunkConfig;
use crate::sip_fault::SipMisfit;
use fax_control::Leg;
use std::alloc::{AllocError, Global};
use std::collections::HashSet;
use std::hash::Hash;
use std::net::SocketAddr;

/// The first key that is like one before it; none where no two are alike.
fn repeated<K: Eq + Hash + Copy>(alloc: Global, keys: &[K]) -> Result<Option<K>, AllocError>
    ensures distinct { IfOk result (λ key. IfNone key (IsDistinct K.eq keys.now)) }
    ensures twice { IfOk result (λ key. IfSome key (IsRepeated K.eq keys.now)) }
{
    let mut seen = HashSet::new(alloc);
    for x in keys {
        let is_new = seen.insert(*x)?;
        if !is_new {
            return Ok(Some(*x));
        }
    }
    Ok(None)
}

/// The same, told by what the keys are.
fn repeated_value<K: Eq + Hash + Copy>(alloc: Global, keys: &[K]) -> Result<Option<K>, AllocError>
    ensures { IfOk result (λ key. IfNone key (AreUnlike keys.now)) }
{
    repeated(alloc, keys)
}

/// The names of lines.
fn names_of_lines(alloc: Global, lines: &[LineConfig]) -> Result<Vec<&str>, Misfit>
    ensures told { IfOk result
        (λ names. map (λ name. name.now) names.items ≡ names_of_lines lines.now) }
    ensures fault { IfErr result (λ misfit. misfit ≡ misfits.NoMemory) }
{
    let mut names = Vec::new(alloc);
    for line in lines {
        names.push(line.name.as_str())?;
    }
    Ok(names)
}

/// These names, and those of redial lines after them.
fn names_with<'a>(names: Vec<&'a str>, redials: &'a [RedialConfig]) -> Result<Vec<&'a str>, Misfit>
    ensures told { IfOk result (λ all. map (λ name. name.now) all.items ≡ map
        (λ name. name.now) names.entry.items ++ names_of_redials redials.now) }
    ensures fault { IfErr result (λ misfit. misfit ≡ misfits.NoMemory) }
{
    let mut all = names;
    for redial in redials {
        all.push(redial.name.as_str())?;
    }
    Ok(all)
}

/// Refuses lines of which two have one name, redial lines among them.
pub fn names_unlike(
    alloc: Global,
    lines: &[LineConfig],
    redials: &[RedialConfig],
) -> Result<(), Misfit>
    ensures ok { OnOk result (AreUnlike (names_of_all lines.now redials.now)) }
    ensures fault { IfErr result (λ misfit. (members : Members) → AreLinesAt members lines.now
        → AreRedialsAt members redials.now → IsMisfitOf members misfit) }
{
    let names = names_of_lines(alloc, lines)?;
    let all = names_with(names, redials)?;
    match repeated(alloc, all.as_slice())? {
        None => Ok(()),
        Some(name) => Err(Misfit::DoubledName(String::from_str(alloc, name)?)),
    }
}

/// The local addresses of lines.
fn locals_of_lines(alloc: Global, lines: &[LineConfig]) -> Result<Vec<SocketAddr>, Misfit>
    ensures told { IfOk result (λ locals. locals.items ≡ locals_of_lines lines.now) }
    ensures fault { IfErr result (λ misfit. misfit ≡ misfits.NoMemory) }
{
    let mut locals = Vec::new(alloc);
    for line in lines {
        locals.push(line.calling.local)?;
        locals.push(line.called.local)?;
    }
    Ok(locals)
}

/// These addresses, and those of redial lines after them.
fn locals_with(locals: Vec<SocketAddr>, redials: &[RedialConfig]) -> Result<Vec<SocketAddr>, Misfit>
    ensures told { IfOk result (λ all. all.items ≡ locals.items ++ locals_of_redials redials.now) }
    ensures fault { IfErr result (λ misfit. misfit ≡ misfits.NoMemory) }
{
    let mut all = locals;
    for redial in redials {
        all.push(redial.called.local)?;
    }
    Ok(all)
}

/// Refuses lines of which two legs have one local address, redial lines among them.
pub fn locals_unlike(
    alloc: Global,
    lines: &[LineConfig],
    redials: &[RedialConfig],
) -> Result<(), Misfit>
    ensures ok { OnOk result (AreUnlike (locals_of_all lines.now redials.now)) }
    ensures fault { IfErr result (λ misfit. (members : Members) → AreLinesAt members lines.now
        → AreRedialsAt members redials.now → IsMisfitOf members misfit) }
{
    let locals = locals_of_lines(alloc, lines)?;
    let all = locals_with(locals, redials)?;
    let Some(address) = repeated_value(alloc, all.as_slice())? else {
        return Ok(());
    };
    let (name, leg) = last_leg_at(alloc, lines, redials, address)?;
    Err(Misfit::DoubledAddress(name, leg))
}

/// The last leg that has this local address, with the name of its line; redial lines stand after the others.
fn last_leg_at(
    alloc: Global,
    lines: &[LineConfig],
    redials: &[RedialConfig],
    address: SocketAddr,
) -> Result<(LineName, Leg), AllocError> {
    for redial in redials.iter().rev() {
        if redial.called.local == address {
            let name = String::from_str(alloc, redial.name.as_str())?;
            return Ok((LineName::Named(name), Leg::Called));
        }
    }
    last_leg_of_lines(alloc, lines, address)
}

/// The same of lines that are no redial lines.
fn last_leg_of_lines(
    alloc: Global,
    lines: &[LineConfig],
    address: SocketAddr,
) -> Result<(LineName, Leg), AllocError> {
    for line in lines.iter().rev() {
        let leg = if line.called.local == address {
            Leg::Called
        } else if line.calling.local == address {
            Leg::Calling
        } else {
            continue;
        };
        let name = String::from_str(alloc, line.name.as_str())?;
        return Ok((LineName::Named(name), leg));
    }
    Ok((LineName::After(0), Leg::Calling))
}

/// Refuses trunks of which two have one name.
pub fn trunks_unlike(alloc: Global, trunks: &[TrunkConfig]) -> Result<(), SipMisfit>
    ensures ok { OnOk result (AreUnlike (names_of_trunks trunks.now)) }
    ensures fault { IfErr result (λ misfit. (members : Members)
        → AreTrunksAt members trunks.now → IsSipMisfitOf members misfit) }
{
    let mut names = Vec::new(alloc);
    for trunk in trunks {
        names.push(trunk.name.as_str())?;
    }
    match repeated(alloc, names.as_slice())? {
        None => Ok(()),
        Some(name) => Err(SipMisfit::DoubledTrunk(String::from_str(alloc, name)?)),
    }
}

/// Refuses addresses of SIP that are the local ones of legs, those of redial lines among them.
pub fn sip_unlike(
    lines: &[LineConfig],
    redials: &[RedialConfig],
    local: SocketAddr,
    audio: SocketAddr,
) -> Result<(), SipMisfit>
    ensures local { OnOk result (IsAtNoLeg lines.now redials.now local) }
    ensures audio { OnOk result (IsAtNoLeg lines.now redials.now audio) }
    ensures fault { IfErr result (IsTaken local audio) }
{
    if is_local(lines, redials, local) {
        return Err(SipMisfit::Taken("local"));
    }
    if is_local(lines, redials, audio) {
        return Err(SipMisfit::Taken("audio"));
    }
    Ok(())
}

/// Whether this is the local address of a leg.
fn is_local(lines: &[LineConfig], redials: &[RedialConfig], address: SocketAddr) -> bool
    ensures { result ≡ false → IsAtNoLeg lines.now redials.now address }
{
    if is_local_of_lines(lines, address) {
        return true;
    }
    is_local_of_redials(redials, address)
}

/// Whether this is the local address of a leg of a line that is no redial line.
fn is_local_of_lines(lines: &[LineConfig], address: SocketAddr) -> bool
    ensures { result ≡ false → IsAtNoLegOfLines lines.now address }
{
    for line in lines {
        if line.calling.local == address {
            return true;
        }
        if line.called.local == address {
            return true;
        }
    }
    false
}

/// Whether this is the local address of a redial line.
fn is_local_of_redials(redials: &[RedialConfig], address: SocketAddr) -> bool
    ensures { result ≡ false → IsAtNoRedial redials.now address }
{
    for redial in redials {
        if redial.called.local == address {
            return true;
        }
    }
    false
}
