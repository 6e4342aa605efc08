//! The lines of a configuration.
ghost use Rattle.std.specs.Prelude.{◌≡◌, ◌+◌, [], IfOk, OnOk, length, map};
ghost use Rattle.fax_gateway.specs.Setups.{AreAllowed};
ghost use Rattle.fax_gateway.specs.Restored.{call_shown};
ghost use Rattle.fax_wires.specs.holding.Storing.{HasDone, HasSent};
ghost use Rattle.fax_line.specs.Actions.{BeginsWith};
ghost use Rattle.fax_line.specs.Operations.{AreBegun, AreNew};
ghost use Rattle.fax_queue.specs.Restorations.{whole_pages};
ghost use Rattle.fax_opening.specs.Openings.{AddsRestored, AreRestored, settings_by};

use crate::fault::ServeFault;
use fax_config::{LegConfig, LineConfig, Repeat};
use fax_gateway::{Leg, MOST_REDUNDANCY, RestoredCall, Settings};
use fax_legs::{LegSocket, UdpWire};
use fax_line::{Line, Lines};
use fax_pagestore::PackedRows;
use fax_queue::{Queue, RestoredLine, restore_line};
use fax_spool::{CallName, WaitingPage};
use fax_wires::holding::HoldingWire;
use fax_wires::repeat::{RepeatPolicy, RepeatingWire, TimedWire};
use std::alloc::Global;
use std::io;
use std::net::{Net, UdpSocket};

/// The sockets of a line that is served, whose datagrams are sent again.
pub type ServedWire = RepeatingWire<UdpWire<UdpSocket>>;

/// A wire over the sockets of both legs of a line.
pub trait SocketWire: TimedWire + Sized {
    /// Opens the sockets of a line, through which nothing went out so far. An `Err` names the line and the leg whose socket could not be
    /// opened.
    fn open<N: Net>(net: &N, alloc: Global, config: &LineConfig) -> Result<Self, ServeFault>
        ensures { IfOk result (λ wire. HasSent [] (Self.known wire).sent) };

    /// The socket of a leg.
    fn leg(&self, leg: Leg) -> &LegSocket<UdpSocket>;
}

impl SocketWire for RepeatingWire<UdpWire<UdpSocket>> {
    fn open<N: Net>(net: &N, alloc: Global, config: &LineConfig) -> Result<Self, ServeFault> {
        let wire = open_wire(net, alloc, config)?;
        Ok(RepeatingWire::new(wire, policy_of(config.repeat)))
    }

    fn leg(&self, leg: Leg) -> &LegSocket<UdpSocket> {
        self.wire().leg(leg)
    }
}

/// Opens the sockets of all lines. An `Err` names the line and the leg whose socket could not be opened.
pub fn open_lines<W: SocketWire + Drop, N: Net>(
    net: &N,
    alloc: Global,
    configs: &[LineConfig],
) -> Result<Lines<W>, ServeFault>
    ensures new { IfOk result (λ lines. AreNew lines.lines) }
    ensures first { IfOk result (λ lines. lines.slot ≡ 0) }
    ensures as_many { IfOk result (λ lines. length lines.lines ≡ length configs.now) }
{
    let mut queues = Vec::new(alloc);
    open_restored_lines(net, alloc, configs, &[], &[], &mut queues)
}

/// The same after a crash, where these pages wait and these calls lack one: each line begins with its own, but for those calls. What is
/// known of the pages of each is added to these queues.
pub fn open_restored_lines<W: SocketWire + Drop, N: Net>(
    net: &N,
    alloc: Global,
    configs: &[LineConfig],
    pages: &[WaitingPage],
    torn: &[CallName],
    queues: &mut Vec<Queue>,
) -> Result<Lines<W>, ServeFault>
    ensures begun { IfOk result (λ lines. AreBegun lines.lines) }
    ensures new { pages.now ≡ [] → IfOk result (λ lines. AreNew lines.lines) }
    ensures first { IfOk result (λ lines. lines.slot ≡ 0) }
    ensures as_many { IfOk result (λ lines. length lines.lines ≡ length configs.now) }
    ensures restored { queues.old.items ≡ [] → IfOk result (λ lines.
        AreRestored (whole_pages torn.now pages.now) configs.now lines.lines queues.new.items) }
{
    let mut lines = Lines::new(alloc)?;
    for config in configs {
        add_line(net, alloc, config, pages, torn, &mut lines, queues)?;
    }
    Ok(lines)
}

/// Opens the sockets of a line, which joins the others; it begins with its own of these pages, but for those of calls that lack one.
fn add_line<W: SocketWire + Drop, N: Net>(
    net: &N,
    alloc: Global,
    config: &LineConfig,
    pages: &[WaitingPage],
    torn: &[CallName],
    lines: &mut Lines<W>,
    queues: &mut Vec<Queue>,
) -> Result<(), ServeFault>
    ensures begun { OnOk result (AreBegun lines.old.lines → AreBegun lines.new.lines) }
    ensures restored { OnOk result (AddsRestored (whole_pages torn.now pages.now)
        config.now lines.old.lines lines.new.lines queues.old.items queues.new.items) }
    ensures new { OnOk result (pages.now ≡ [] → AreNew lines.old.lines → AreNew lines.new.lines) }
    ensures slot { OnOk result (lines.new.slot ≡ lines.old.slot) }
    ensures one_more { OnOk result (length lines.new.lines ≡ length lines.old.lines + 1) }
{
    let RestoredLine { calls, queue } = restore_line(alloc, config.name.as_str(), pages, torn)?;
    let line = open_line(net, alloc, config, calls)?;
    lines.add(line)?;
    queues.push(queue)?;
    Ok(())
}

/// Opens the sockets of a line, which is restored with these calls.
fn open_line<W: SocketWire + Drop, N: Net>(
    net: &N,
    alloc: Global,
    config: &LineConfig,
    calls: Vec<RestoredCall<PackedRows>>,
) -> Result<Line<W>, ServeFault>
    ensures begins { IfOk result (λ line. BeginsWith (map call_shown calls.items) line) }
    ensures fresh { IfOk result (λ line. HasDone [] line.holding) }
    ensures settings { IfOk result (λ line. line.gateway.settings ≡ settings_by config.now) }
{
    let wire = W::open(net, alloc, config)?;
    let wire = HoldingWire::new(alloc, wire);
    Ok(Line::restore(alloc, settings_of(config), calls, wire)?)
}

/// Opens the sockets of both legs of a line.
fn open_wire<N: Net>(
    net: &N,
    alloc: Global,
    config: &LineConfig,
) -> Result<UdpWire<UdpSocket>, ServeFault> {
    let calling = match open_leg(net, alloc, &config.calling, config.redundancy) {
        Ok(leg) => leg,
        Err(error) => return Err(leg_fault(alloc, config, Leg::Calling, error)),
    };
    match open_leg(net, alloc, &config.called, config.redundancy) {
        Ok(called) => Ok(UdpWire::new(calling, called)),
        Err(error) => Err(leg_fault(alloc, config, Leg::Called, error)),
    }
}

/// The fault of a leg.
fn leg_fault(alloc: Global, config: &LineConfig, leg: Leg, error: io::Error) -> ServeFault {
    match String::from_str(alloc, config.name.as_str()) {
        Ok(name) => ServeFault::Leg(name, leg, error),
        Err(_) => ServeFault::NoMemory,
    }
}

/// Opens the socket of a leg, which can be tapped, and connects it where its peer is known. Where no word says otherwise, its datagrams have
/// so many packets before their own.
fn open_leg<N: Net>(
    net: &N,
    alloc: Global,
    config: &LegConfig,
    redundancy: u16,
) -> io::Result<LegSocket<UdpSocket>> {
    let redundancy = redundancy.min(u16::from(MOST_REDUNDANCY)) as u8;
    let mut leg = LegSocket::new(net.bind_udp(config.local)?, redundancy)?;
    leg.add_tap(alloc);
    if let Some(peer) = config.peer {
        leg.fix_peer(peer)?;
    }
    Ok(leg)
}

/// Which datagrams are sent again.
fn policy_of(repeat: Repeat) -> RepeatPolicy {
    match repeat {
        Repeat::Full => RepeatPolicy::Full,
        Repeat::Last => RepeatPolicy::Once,
        Repeat::None => RepeatPolicy::Never,
    }
}

/// The settings of a line's gateway, which asks for the calls of its jobs where the configuration gives the called leg no peer. A
/// datagram of it has as many packets before its own as any call may have: its leg sends those that the call has. A pause beyond
/// the limits, which no configuration has, reads as the limit.
pub fn settings_of(config: &LineConfig) -> Settings
    ensures allowed { AreAllowed result }
    ensures settings { result ≡ settings_by config.now }
{
    let settings = Settings {
        redundancy: MOST_REDUNDANCY,
        preamble_ms: config.preamble_ms,
        asks: config.called.peer.is_none(),
        memory: u64::from(config.line_memory),
    };
    settings.within_limits()
}
