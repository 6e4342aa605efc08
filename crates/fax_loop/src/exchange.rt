//! A call from machine to machine, through a gateway.
ghost use Rattle.std.specs.Prelude.{◌≡◌, [], ◌∷◌, ◌++◌, IfOk, OnOk};
ghost use Rattle.fax_terminal.specs.Stores.{pages_of};
ghost use Rattle.fax_jobs.specs.Books.{job_of};
ghost use Rattle.fax_call.specs.Following.{IsJobOfCall};
ghost use Rattle.fax_call.specs.Writings.{Writing};
ghost use Rattle.fax_gateway.specs.Setups.{AreAllowed, AreSet, HasSettings, Setup};
ghost use Rattle.fax_gateway.specs.Events.{Ring};
ghost use Rattle.fax_gateway.specs.Reached.{IsReachedBy};
ghost use Rattle.fax_loop.specs.Exchanges.{IsExchange, IsPlayed, Lines as LinesShown};
ghost use Rattle.fax_loop.specs.Opened.{IsSent, told_lines};
ghost use Rattle.fax_loop.specs.Rep.{EachBeginning, EachEnd, EachGoing, HasEnded, HasGone, HasPlayed, PlaysRound};
ghost use Rattle.fax_loop.specs.Links.{IsFaithful};

use crate::laws::confirms_the_page_over_links;
use crate::loop_error::LoopError;
use crate::opens_lines::OpensLines;
use crate::unstored::Unstored;
use fax_bits::NoMemory;
use fax_gateway::{Driver, Gateway, Settings, Wire};
use fax_jobs::{Job, Report};
use fax_pagestore::{PackedRows, Page};
use fax_terminal::{End, ReceivingTerminal, SendingTerminal};
use std::alloc::Global;

/// The most rounds of a call.
const MOST_ROUNDS: u32 = 300_000;

/// From a round to the next, in milliseconds. No clock is read.
const ROUND_MS: u64 = 40;

/// How a call ended: what the gateway reported, where it did, and the pages that the called machine confirmed.
#[derive(Drop)]
pub struct CallEnd {
    pub report: Option<Report>,
    pub confirmed: Vec<Page<PackedRows>>,
}

/// What an exchange goes over: the end of the machine that calls, the gateway's wire, and the end of the machine that is called.
#[derive(Drop)]
pub struct Lines<E: End + Drop, W: Wire + Drop> {
    pub caller: E,
    pub wire: W,
    pub answerer: E,
}

/// The machine that calls, the gateway with what drives it, and the machine that is called.
#[derive(Drop)]
struct Parties {
    caller: SendingTerminal,
    gateway: Gateway<PackedRows>,
    driver: Driver,
    answerer: ReceivingTerminal<PackedRows>,
    confirmed: Vec<Page<PackedRows>>,
}

/// Sends a page from machine to machine over lines that are opened so. All three have these settings.
pub(crate) fn send_page<L: OpensLines>(
    opener: &L,
    alloc: Global,
    page: Page<PackedRows>,
    settings: Settings,
) -> Result<CallEnd, LoopError>
    requires { AreAllowed settings }
    ensures { IfOk result (λ ended. IsSent (told_lines L.End.told L.Wire.known)
        (L.opened opener.now) settings page ended.report ended.confirmed.items) }
{
    let mut lines = opener.open()?;
    let ended = exchange(alloc, &mut lines, page, settings)?;
    Ok(ended)
}

/// Sends a page from machine to machine over these lines, in rounds, until the gateway reports the job. All three have these
/// settings. Where the lines carry what was handed to them, lost, repeated, late and out of order at will, each page that the called
/// machine confirmed is the page that was handed in, and where the job is reported as delivered, there is one at least. An `Err`: memory
/// was wanted.
pub fn exchange<E: End + Drop, W: Wire + Drop>(
    alloc: Global,
    lines: &mut Lines<E, W>,
    page: Page<PackedRows>,
    settings: Settings,
) -> Result<CallEnd, NoMemory>
    requires { AreAllowed settings }
    ensures played { IfOk result (λ ended. IsExchange settings (job_of 0 page)
        (told_lines E.told W.known lines.old) (told_lines E.told W.known lines.new)
        ended.report ended.confirmed.items) }
    ensures faithful { IfOk result (λ ended. IsFaithful
        (told_lines E.told W.known lines.old) (told_lines E.told W.known lines.new)
        page ended.report ended.confirmed.items) }
{
    confirms_the_page_over_links();
    // what it ensures of the page's rows makes this a page
    let _ = page.rows();
    let Ok(job) = Job::of_page(alloc, 0, page) else {
        return Err(NoMemory);
    };
    let parties = Parties::new(alloc, &job, settings)?;
    let ended = parties.run(lines, &job)?;
    Ok(ended)
}

/// A gateway with these settings that was rung at moment 0.
fn rung_gateway(alloc: Global, settings: Settings) -> Result<Gateway<PackedRows>, NoMemory>
    requires { AreAllowed settings }
    ensures { IfOk result (λ gateway. (setup : Setup) (writes : Writing)
        → AreSet setup settings → IsReachedBy setup writes (Ring 0 0 ∷ []) gateway) }
{
    let mut gateway = Gateway::with_settings(alloc, settings)?;
    // a new gateway is neither busy nor short of numbers
    let Ok(_) = gateway.ring(0) else {
        return Err(NoMemory);
    };
    Ok(gateway)
}

impl Parties {
    /// The machines and the gateway, which was rung at moment 0.
    fn new(alloc: Global, job: &Job<PackedRows>, settings: Settings) -> Result<Self, NoMemory>
        requires { AreAllowed settings }
        ensures job { IfOk result (λ parties. IsJobOfCall parties.caller.caller.procedure job.now) }
        ensures begun { IfOk result
            (λ parties. (setup : Setup) (writes : Writing) (lines : LinesShown)
            → AreSet setup settings → HasPlayed setup writes job.now [] lines lines parties) }
    {
        let caller = SendingTerminal::new(alloc, job, settings, 0)?;
        let answerer = ReceivingTerminal::new(alloc, settings)?;
        let driver = Driver::new(alloc)?;
        let gateway = rung_gateway(alloc, settings)?;
        Ok(Parties {
            caller,
            gateway,
            driver,
            answerer,
            confirmed: Vec::new(alloc),
        })
    }

    /// Plays it to its end, and tells how it ended.
    fn run<E: End + Drop, W: Wire + Drop>(
        mut self,
        lines: &mut Lines<E, W>,
        job: &Job<PackedRows>,
    ) -> Result<CallEnd, NoMemory>
        requires { IsJobOfCall self.caller.caller.procedure job.now }
        ensures { IfOk result (λ ended.
            EachBeginning job.now (told_lines E.told W.known lines.old) self (λ setup writes before.
            IsPlayed setup writes job.now before (told_lines E.told W.known lines.new)
            ended.report ended.confirmed.items)) }
    {
        self.play(lines, job)?;
        Ok(self.end())
    }

    /// Plays rounds until the gateway has reported the job, its last 100 receives failed, or there were enough.
    fn play<E: End + Drop, W: Wire + Drop>(
        &mut self,
        lines: &mut Lines<E, W>,
        job: &Job<PackedRows>,
    ) -> Result<(), NoMemory>
        requires { IsJobOfCall self.old.caller.caller.procedure job.now }
        ensures { OnOk result (EachBeginning job.now (told_lines E.told W.known lines.old) self.old
            (λ setup writes before.
            HasEnded setup writes job.now before (told_lines E.told W.known lines.new) self.new)) }
    {
        let mut goes_on = true;
        for round in 0..MOST_ROUNDS {
            if !goes_on {
                return Ok(());
            }
            if self.gateway.report(0).is_some() {
                return Ok(());
            }
            goes_on = self.round(lines, job, ROUND_MS * u64::from(round))?;
        }
        Ok(())
    }

    /// A round: the turn of the machine that calls, the gateway's, and that of the machine that is called. It answers whether the
    /// gateway's last 100 receives did not all fail.
    fn round<E: End + Drop, W: Wire + Drop>(
        &mut self,
        lines: &mut Lines<E, W>,
        job: &Job<PackedRows>,
        now: u64,
    ) -> Result<bool, NoMemory>
        requires { IsJobOfCall self.old.caller.caller.procedure job.now }
        ensures job { OnOk result (IsJobOfCall self.new.caller.caller.procedure job.now) }
        ensures played { IfOk result
            (λ goes_on. EachGoing job.now now (told_lines E.told W.known lines.old) self.old
            (λ setup writes rounds before. PlaysRound setup
            writes job.now rounds goes_on before (told_lines E.told W.known lines.new) self.new)) }
    {
        self.caller.turn(&mut lines.caller, job, now)?;
        let turned = self.driver.turn(&mut self.gateway, &mut lines.wire, now);
        let Ok(page) = self.answerer.turn(&mut lines.answerer, &mut Unstored, now) else {
            return Err(NoMemory);
        };
        keep_page(&mut self.confirmed, page)?;
        Ok(turned.goes_on)
    }

    /// How it ended.
    fn end(self) -> CallEnd
        ensures { EachEnd self (λ setup writes job before after.
            IsPlayed setup writes job before after result.report result.confirmed.items) }
    {
        CallEnd {
            report: self.gateway.report(0),
            confirmed: self.confirmed,
        }
    }
}

/// Keeps the page that was confirmed, where one was.
fn keep_page(
    pages: &mut Vec<Page<PackedRows>>,
    page: Option<Page<PackedRows>>,
) -> Result<(), NoMemory>
    ensures { OnOk result (pages.new.items ≡ pages.old.items ++ pages_of page) }
{
    if let Some(page) = page {
        pages.push(page)?;
    }
    Ok(())
}
