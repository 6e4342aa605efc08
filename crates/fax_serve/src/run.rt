//! A run of `faxgate serve`.
ghost use Rattle.std.specs.Prelude.{◌≡◌, IfOk, None, OnErr, OnOk, true, false, is_some, length};
ghost use Rattle.fax_line.specs.Operations.{AreBegun, AreNew};
ghost use Rattle.fax_notify.specs.Tellings.{ready_after};
ghost use Rattle.fax_serve.specs.Damages.{damage_found};
ghost use Rattle.fax_runs.specs.StoredRuns.{RunIsStored, ServedWith};
ghost use Rattle.fax_runs.specs.Runs.{ServedAlone};

use crate::noticing::NoticingPace;
use crate::promise::{FolderStore, ServedStore};
use crate::redials::{RedialLines, RedialWire, open_redials};
use crate::sip::{SipFront, open_sip};
use crate::supervisor::Supervisor;
use fax_bits::NoMemory;
use fax_clients::Clients;
use fax_config::{Config, LineConfig};
use fax_desk::{Card, Damage, Desk, LineLimits, RunEnd};
use fax_gateway::Settings;
use fax_http::visitors::Visitors;
use fax_line::{Lines, PageToStore, RunStore, serve};
use fax_opening::{
    ServeFault, ServedWire, SocketWire, Stopwatch, close_control, open_control, open_lines,
    open_restored_lines, settings_of,
};
use fax_pace::{RealPace, RedialSide, Seen, SeenLines, SipSide, Watch};
use fax_queue::{Queue, Storage};
use fax_spool::{CallName, OpenedSpool, WaitingPage};
use fax_spool_folder::{Folders, SpoolFolderFile};
use fax_undelivered::held::HeldPages;
use fax_undelivered::{PairedStore, Undelivered};
use fax_wires::holding::PageStore;
use sqlite_disk::{Disk, Start};
use std::alloc::{AllocError, Global};
use std::fs::Files;
use std::io::{Stdin, Stdout};
use std::net::{Net, SocketAddr};
use std::rt::Clock;

/// Milliseconds of a second.
const SECOND_MS: u64 = 1_000;

/// What stands beside the lines of a server: clients, SIP, where the configuration tells of it, and redial lines.
struct Sides<P: SipSide + Drop, R: RedialSide + Drop> {
    clients: Clients,
    sip: Option<P>,
    redials: R,
}

impl<P: SipSide + Drop, R: RedialSide + Drop> Drop for Sides<P, R> {
    fn drop(self) {
        let Sides {
            clients: _clients,
            sip: _sip,
            redials: _redials,
        } = self;
    }
}

/// Serves the lines of a configuration until it is told to stop, or its spool has failed and no line has a call, 10 s after the failure
/// at the earliest: then it is to be served by another run, over a spool that is opened anew. Words come on the control socket where
/// the configuration has one, and else on the input, whose answers go to the output; events go there in any case. The spool has failed so often in runs
/// before this one. A supervisor is told once all is open, and as the server begins to stop; and where a client says so it reads the configuration
/// again, which the next run is to serve, once no line has a call. An `Err` tells why nothing was served.
pub fn run_serve<M: Supervisor + Drop, N: Net + Files + Clock + Folders, S: Start, T: Start>(
    system: &N,
    alloc: Global,
    config: &Config,
    input: Stdin,
    output: Stdout,
    spool_failures: u64,
    manager: &mut M,
    start: S,
    undelivered: T,
) -> Result<RunEnd, ServeFault>
    ensures alone { OnOk result (ServedAlone (length config.now.lines.items)
        (is_some config.now.spool)) }
    ensures kept { OnOk result (is_some config.now.spool ≡ true
        → ⟦<FolderStore<S, T> as ServedStore>⟧.ran config.now.lines.items) }
    ensures ready { OnOk result (M.told manager.new
        ≡ ready_after (length config.now.lines.items) (M.told manager.old)) }
    ensures untold { OnErr result (M.told manager.new ≡ M.told manager.old) }
{
    match &config.control {
        Some(path) => {
            let path = path.as_str();
            let listener = open_control(system, path)?;
            let clients: Clients = Clients::of_socket(alloc, listener, Some(output))?;
            let served = serve_with_sip(
                system,
                alloc,
                config,
                clients,
                spool_failures,
                manager,
                start,
                undelivered,
            );
            close_control(system, path);
            served
        }
        None => {
            let clients = Clients::standard(alloc, input, output)?;
            serve_with_sip(
                system,
                alloc,
                config,
                clients,
                spool_failures,
                manager,
                start,
                undelivered,
            )
        }
    }
}

/// The same with SIP, where the configuration tells of it, and over the sockets of redial lines.
fn serve_with_sip<M: Supervisor + Drop, N: Net + Files + Clock + Folders, S: Start, T: Start>(
    system: &N,
    alloc: Global,
    config: &Config,
    clients: Clients,
    spool_failures: u64,
    manager: &mut M,
    start: S,
    undelivered: T,
) -> Result<RunEnd, ServeFault>
    ensures alone { OnOk result (ServedAlone (length config.now.lines.items)
        (is_some config.now.spool)) }
    ensures kept { OnOk result (is_some config.now.spool ≡ true
        → ⟦<FolderStore<S, T> as ServedStore>⟧.ran config.now.lines.items) }
    ensures ready { OnOk result (M.told manager.new
        ≡ ready_after (length config.now.lines.items) (M.told manager.old)) }
    ensures untold { OnErr result (M.told manager.new ≡ M.told manager.old) }
{
    let sip = open_sip(system, alloc, config)?;
    let sockets = open_redials(system, alloc, config.redial.as_slice())?;
    let redials: RedialLines<'_, RedialWire<'_>> = RedialLines::new(
        alloc,
        config,
        sockets.as_slice(),
    )?;
    let sides = Sides {
        clients,
        sip,
        redials,
    };
    serve_beside::<ServedWire, SipFront, RedialLines<'_, RedialWire<'_>>, M, N, S, T>(
        system,
        alloc,
        config,
        sides,
        spool_failures,
        manager,
        start,
        undelivered,
    )
}

/// The same over wires of this type, beside SIP and redial lines of these types.
fn serve_beside<
    W: SocketWire + Drop,
    P: SipSide + Drop,
    R: RedialSide + Drop,
    M: Supervisor + Drop,
    N: Net + Clock + Folders,
    S: Start,
    T: Start,
>(
    system: &N,
    alloc: Global,
    config: &Config,
    sides: Sides<P, R>,
    spool_failures: u64,
    manager: &mut M,
    start: S,
    undelivered: T,
) -> Result<RunEnd, ServeFault>
    ensures alone { OnOk result (ServedAlone (length config.now.lines.items)
        (is_some config.now.spool)) }
    ensures kept { OnOk result (is_some config.now.spool ≡ true
        → ⟦<FolderStore<S, T> as ServedStore>⟧.ran config.now.lines.items) }
    ensures ready { OnOk result (M.told manager.new
        ≡ ready_after (length config.now.lines.items) (M.told manager.old)) }
    ensures untold { OnErr result (M.told manager.new ≡ M.told manager.old) }
{
    match &config.spool {
        None => serve_in_memory::<W, P, R, M, N, SpoolFolderFile<S>, SpoolFolderFile<T>>(
            system, alloc, config, sides, manager,
        ),
        Some(folder) => serve_spooled::<W, P, R, M, N, S, T>(
            system,
            alloc,
            config,
            sides,
            folder.as_str(),
            spool_failures,
            manager,
            start,
            undelivered,
        ),
    }
}

/// The same where pages are kept in memory alone, and on no disk of this type.
fn serve_in_memory<
    W: SocketWire + Drop,
    P: SipSide + Drop,
    R: RedialSide + Drop,
    M: Supervisor + Drop,
    N: Net + Clock,
    D: Disk + Drop,
    U: Disk + Drop,
>(
    system: &N,
    alloc: Global,
    config: &Config,
    sides: Sides<P, R>,
    manager: &mut M,
) -> Result<RunEnd, ServeFault>
    ensures alone { OnOk result (ServedAlone (length config.now.lines.items) false) }
    ensures ready { OnOk result (M.told manager.new
        ≡ ready_after (length config.now.lines.items) (M.told manager.old)) }
    ensures untold { OnErr result (M.told manager.new ≡ M.told manager.old) }
{
    let lines: Lines<W> = open_lines(system, alloc, config.lines.as_slice())?;
    let held = held_pages(alloc, config.lines.as_slice())?;
    let seen = Seen::<W, D, U> {
        lines: &lines,
        store: None,
    };
    let pace = pace_of(system, alloc, config, sides, &seen, &[], Some(held), 0)?;
    let mut pace = NoticingPace::begin(pace, manager, lines.len());
    serve_new::<W, P, R, M, N, D, U>(lines, &mut pace);
    Ok(pace.finish())
}

/// The same where pages are stored in the spool of this folder: each line begins with those of its own that wait there, but for calls that
/// lack a page.
fn serve_spooled<
    W: SocketWire + Drop,
    P: SipSide + Drop,
    R: RedialSide + Drop,
    M: Supervisor + Drop,
    N: Net + Clock + Folders,
    S: Start,
    T: Start,
>(
    system: &N,
    alloc: Global,
    config: &Config,
    sides: Sides<P, R>,
    folder: &str,
    spool_failures: u64,
    manager: &mut M,
    start: S,
    undelivered: T,
) -> Result<RunEnd, ServeFault>
    ensures alone { OnOk result (ServedAlone (length config.now.lines.items) true) }
    ensures kept { OnOk result (⟦<FolderStore<S, T> as ServedStore>⟧.ran config.now.lines.items) }
    ensures ready { OnOk result (M.told manager.new
        ≡ ready_after (length config.now.lines.items) (M.told manager.old)) }
    ensures untold { OnErr result (M.told manager.new ≡ M.told manager.old) }
{
    let opened = system.open_spool(folder, start)?;
    let kept = system.open_undelivered(folder, undelivered)?;
    serve_opened::<W, P, R, M, N, SpoolFolderFile<S>, SpoolFolderFile<T>>(
        system,
        alloc,
        config,
        sides,
        opened,
        kept,
        spool_failures,
        manager,
    )
}

/// The same where the spool is open.
fn serve_opened<
    W: SocketWire + Drop,
    P: SipSide + Drop,
    R: RedialSide + Drop,
    M: Supervisor + Drop,
    N: Net + Clock,
    D: Disk + Drop,
    U: Disk + Drop,
>(
    system: &N,
    alloc: Global,
    config: &Config,
    sides: Sides<P, R>,
    opened: OpenedSpool<D>,
    kept: OpenedSpool<U>,
    spool_failures: u64,
    manager: &mut M,
) -> Result<RunEnd, ServeFault>
    ensures alone { OnOk result (ServedAlone (length config.now.lines.items) true) }
    ensures kept { OnOk result (ServedWith ⟦<PairedStore<D, U> as RunStore>⟧.is_same
        ⟦<PairedStore<D, U> as PageStore<PageToStore>>⟧.puts ⟦<PairedStore<D, U> as RunStore>⟧.notes
        ⟦<PairedStore<D, U> as RunStore>⟧.ends (λ store. store.storage.spool)
        (λ store. store.storage.queues.items) config.now.lines.items opened) }
    ensures ready { OnOk result (M.told manager.new
        ≡ ready_after (length config.now.lines.items) (M.told manager.old)) }
    ensures untold { OnErr result (M.told manager.new ≡ M.told manager.old) }
{
    let damage = damage_of(&opened, &kept);
    let mut queues = Vec::new(alloc);
    let lines: Lines<W> = open_restored_lines(
        system,
        alloc,
        config.lines.as_slice(),
        opened.pages.as_slice(),
        opened.torn.as_slice(),
        &mut queues,
    )?;
    let aside = Aside {
        damage,
        pages: opened.pages.as_slice(),
        torn: opened.torn.as_slice(),
        queues: queues.as_slice(),
    };
    let pace = pace_beside::<W, P, R, N, D, U>(
        system,
        alloc,
        config,
        sides,
        &lines,
        aside,
        &kept,
        spool_failures,
    )?;
    let store = store_of(alloc, opened, queues, kept)?;
    let mut pace = NoticingPace::begin(pace, manager, lines.len());
    serve_restored(lines, store, &mut pace);
    Ok(pace.finish())
}

/// What a start found in a spool, as it is told: the pages that wait, the calls that lack one, and the queues of the lines.
#[derive(Clone, Copy)]
struct Aside<'a> {
    damage: Damage,
    pages: &'a [WaitingPage],
    torn: &'a [CallName],
    queues: &'a [Queue],
}

/// What gives the orders to restored lines, to which what both pairs of files were found to hold was told.
fn pace_beside<
    'a,
    W: SocketWire + Drop,
    P: SipSide + Drop,
    R: RedialSide + Drop,
    N: Net + Clock,
    D: Disk + Drop,
    U: Disk + Drop,
>(
    system: &'a N,
    alloc: Global,
    config: &Config,
    sides: Sides<P, R>,
    lines: &Lines<W>,
    aside: Aside<'_>,
    kept: &OpenedSpool<U>,
    spool_failures: u64,
) -> Result<RealPace<'a, N, R, P>, ServeFault>
    ensures { IfOk result (λ pace. pace.waits ≡ None) }
{
    let seen = Seen::<W, D, U> { lines, store: None };
    let mut pace = pace_of(
        system,
        alloc,
        config,
        sides,
        &seen,
        aside.queues,
        None,
        spool_failures,
    )?;
    pace.tell_aside(aside.damage, aside.pages, aside.torn, aside.queues);
    pace.tell_undelivered_aside(kept.pages.as_slice(), kept.torn.as_slice())?;
    Ok(pace)
}

/// The store of a run over both pairs of files that were opened.
fn store_of<D: Disk + Drop, U: Disk + Drop>(
    alloc: Global,
    opened: OpenedSpool<D>,
    queues: Vec<Queue>,
    kept: OpenedSpool<U>,
) -> Result<PairedStore<D, U>, NoMemory>
    ensures spool { IfOk result (λ store. store.storage.spool ≡ opened.spool) }
    ensures queues { IfOk result (λ store. store.storage.queues.items ≡ queues.items) }
{
    let undelivered = Undelivered::new(alloc, kept)?;
    let spool = opened.spool;
    let storage = Storage::new(alloc, spool, queues);
    Ok(PairedStore::new(alloc, storage, Some(undelivered)))
}

/// What both pairs of files were found to hold that cannot be read.
fn damage_of<D: Disk, U: Disk>(opened: &OpenedSpool<D>, kept: &OpenedSpool<U>) -> Damage
    ensures { result ≡ damage_found opened.now kept.now }
{
    let records = opened
        .older_damaged
        .saturating_add(opened.newer_damaged)
        .saturating_add(kept.older_damaged)
        .saturating_add(kept.newer_damaged);
    let octets = opened
        .older_passed_over
        .saturating_add(opened.newer_passed_over)
        .saturating_add(kept.older_passed_over)
        .saturating_add(kept.newer_passed_over);
    Damage {
        records: records as u64,
        octets: octets as u64,
    }
}

/// What keeps the pages of these lines in memory.
fn held_pages(alloc: Global, configs: &[LineConfig]) -> Result<HeldPages, ServeFault> {
    let mut held = HeldPages::new(alloc)?;
    for config in configs {
        held.add_line(config.name.as_str())?;
    }
    Ok(held)
}

/// What gives the orders to lines that are seen so, of which these pages wait, and whose pages are kept in memory so, or on a spool that has
/// failed so often before.
fn pace_of<'a, L: SeenLines, P: SipSide + Drop, R: RedialSide + Drop, N: Net + Clock>(
    system: &'a N,
    alloc: Global,
    config: &Config,
    sides: Sides<P, R>,
    seen: &L,
    queues: &[Queue],
    held: Option<HeldPages>,
    spool_failures: u64,
) -> Result<RealPace<'a, N, R, P>, ServeFault>
    ensures { IfOk result (λ pace. pace.waits ≡ None) }
{
    let around = around_of(system, alloc, config, seen, queues)?;
    sides.into_pace(alloc, around, seen.len(), held, spool_failures)
}

impl<P: SipSide + Drop, R: RedialSide + Drop> Sides<P, R> {
    /// What gives the orders beside these, by what stands around it, to so many lines.
    fn into_pace<'a, C: Clock>(
        self,
        alloc: Global,
        around: Around<'a, C>,
        lines: usize,
        held: Option<HeldPages>,
        spool_failures: u64,
    ) -> Result<RealPace<'a, C, R, P>, ServeFault>
        requires { around.desk.waits ≡ None }
        ensures { IfOk result (λ pace. pace.waits ≡ None) }
    {
        let Sides {
            clients,
            sip,
            redials,
        } = self;
        Ok(RealPace::new(
            alloc,
            around.clock,
            clients,
            around.desk,
            lines,
            around.settings,
            around.watch,
            around.visitors,
            sip,
            redials,
            held,
            spool_failures,
        )?)
    }
}

/// The desk, and what the orders are given by beside it: the clock, the settings of the lines, what watches legs, and who looks at the
/// server over HTTP.
#[derive(Drop)]
struct Around<'a, C: Clock> {
    desk: Desk,
    clock: Stopwatch<'a, C>,
    settings: Vec<Settings>,
    watch: Option<Watch>,
    visitors: Option<Visitors>,
}

/// The same of a configuration, for lines that are seen so, of which these pages wait, from now on.
fn around_of<'a, L: SeenLines, N: Net + Clock>(
    system: &'a N,
    alloc: Global,
    config: &Config,
    seen: &L,
    queues: &[Queue],
) -> Result<Around<'a, N>, ServeFault>
    ensures { IfOk result (λ around. around.desk.waits ≡ None) }
{
    let desk = desk_of(alloc, config, queues)?;
    let clock = clock_of(system)?;
    let watch = Watch::new(system, alloc, seen).ok();
    let visitors = visitors_of(system, alloc, config)?;
    let settings = settings_of_all(alloc, config.lines.as_slice())?;
    Ok(Around {
        desk,
        clock,
        settings,
        watch,
        visitors,
    })
}

/// The settings of the gateways of these lines.
fn settings_of_all(alloc: Global, configs: &[LineConfig]) -> Result<Vec<Settings>, ServeFault> {
    let mut settings = Vec::new(alloc);
    for config in configs {
        settings.push(settings_of(config))?;
    }
    Ok(settings)
}

/// The clock, from now on.
fn clock_of<C: Clock>(system: &C) -> Result<Stopwatch<'_, C>, ServeFault> {
    match Stopwatch::new(system) {
        Ok(clock) => Ok(clock),
        Err(error) => Err(ServeFault::Clock(error)),
    }
}

/// Those who look at the server over HTTP, where the configuration has an address for them.
fn visitors_of<N: Net>(
    system: &N,
    alloc: Global,
    config: &Config,
) -> Result<Option<Visitors>, ServeFault> {
    match config.http {
        Some(address) => Ok(Some(open_visitors(system, alloc, address)?)),
        None => Ok(None),
    }
}

/// Those who look at the server over HTTP, at this address.
fn open_visitors<N: Net>(
    system: &N,
    alloc: Global,
    address: SocketAddr,
) -> Result<Visitors, ServeFault> {
    match Visitors::listen(system, alloc, address) {
        Ok(visitors) => Ok(visitors),
        Err(error) => Err(ServeFault::Http(address, error)),
    }
}

/// Serves lines that are new.
fn serve_new<
    W: SocketWire + Drop,
    P: SipSide + Drop,
    R: RedialSide + Drop,
    M: Supervisor + Drop,
    C: Clock,
    D: Disk + Drop,
    U: Disk + Drop,
>(mut lines: Lines<W>, pace: &mut NoticingPace<RealPace<'_, C, R, P>, M>)
    requires new { AreNew lines.lines }
    requires idle { pace.old.waits ≡ None }
    ensures { ServedAlone (length lines.lines) false }
{
    let mut store: Option<PairedStore<D, U>> = None;
    serve(&mut lines, &mut store, pace);
}

/// Serves lines that begin with the pages that wait.
fn serve_restored<
    W: SocketWire + Drop,
    P: SipSide + Drop,
    R: RedialSide + Drop,
    M: Supervisor + Drop,
    C: Clock,
    D: Disk + Drop,
    U: Disk + Drop,
>(mut lines: Lines<W>, store: PairedStore<D, U>, pace: &mut NoticingPace<RealPace<'_, C, R, P>, M>)
    requires begun { AreBegun lines.lines }
    requires first { lines.slot ≡ 0 }
    requires idle { pace.old.waits ≡ None }
    ensures alone { ServedAlone (length lines.lines) true }
    ensures kept { RunIsStored ⟦<PairedStore<D, U> as RunStore>⟧.is_same
        ⟦<PairedStore<D, U> as PageStore<PageToStore>>⟧.puts ⟦<PairedStore<D, U> as RunStore>⟧.notes
        ⟦<PairedStore<D, U> as RunStore>⟧.ends lines.lines store }
{
    let mut store = Some(store);
    serve(&mut lines, &mut store, pace);
}

/// The desk at which words about the lines of a configuration come in, of which these pages wait.
fn desk_of(alloc: Global, config: &Config, queues: &[Queue]) -> Result<Desk, ServeFault>
    ensures { IfOk result (λ desk. desk.waits ≡ None) }
{
    let mut names = Vec::new(alloc);
    let mut cards = Vec::new(alloc);
    for line in &config.lines {
        names.push(String::from_str(alloc, line.name.as_str())?)?;
        cards.push(card_of(alloc, line, queues.get(cards.len()))?)?;
    }
    let stop_ms = u64::from(config.stop_seconds).saturating_mul(SECOND_MS);
    let mut desk = Desk::new(names, cards, stop_ms);
    desk.memory = config.memory;
    Ok(desk)
}

/// What is known of a line of this configuration as its run begins, where these pages of it wait.
fn card_of(alloc: Global, config: &LineConfig, queue: Option<&Queue>) -> Result<Card, AllocError> {
    let mut card = Card::new(alloc, config.dial_seconds)?;
    card.limits = LineLimits {
        memory: config.line_memory,
        most_waiting: config.most_waiting,
    };
    if let Some(queue) = queue {
        card.waiting = queue.waits().len() as u64;
    }
    Ok(card)
}
