//! A terminal that calls and sends pages.
ghost use Rattle.std.specs.Prelude.{◌≡◌, [], Some, IfOk, IfSome, OnOk, option_map};
ghost use Rattle.fax_call.specs.Following.{IsJobOfCall};
ghost use Rattle.fax_call.specs.Writings.{Writing};
ghost use Rattle.fax_jobs.specs.Jobs.{JobValue};
ghost use Rattle.fax_gateway.specs.CalledLegs.{core_of, hears, outcome_of};
ghost use Rattle.fax_gateway.specs.Driving.{most_datagrams};
ghost use Rattle.fax_gateway.specs.Reached.{IsCalled};
ghost use Rattle.fax_gateway.specs.Setups.{AreAllowed, HasSettings, Setup};
ghost use Rattle.fax_gateway.specs.Wires.{Grows};
ghost use Rattle.fax_terminal.specs.declared.sending.SentJob.{SentJob as SentJobShown};
ghost use Rattle.fax_terminal.specs.Calls.{SendsJob, TellsCall, TellsLeg};
ghost use Rattle.fax_terminal.specs.Ends.{traffic_of};
ghost use Rattle.fax_terminal.specs.Terminals.{begins};
ghost use Rattle.fax_terminal.specs.Turns.{CallerHears, CallerTurns, EachCall, EachCallOf};

use crate::end::{End, MOST_OCTETS, WireEnd, hand_over};
use crate::fault::TerminalFault;
use crate::pace::Pace;
use crate::receiving::MOST_DATAGRAMS;
use fax_bits::NoMemory;
use fax_call::Unwatched;
use fax_gateway::{CallerEndpoint, Endpoint, Settings};
use fax_jobs::{Job, Outcome};
use fax_pagestore::RowStore;
use fax_wires::repeat::TimedWire;
use std::alloc::Global;
use std::marker::Model;

/// What is told of a call in which the pages of a job were sent.
#[derive(Clone, Copy, PartialEq, Eq)]
pub struct SentJob {
    /// How it ended.
    pub outcome: Outcome,
    /// How many pages the called machine confirmed.
    pub delivered: u32,
}

/// A terminal that calls. Seen as its endpoint.
#[derive(Drop)]
pub struct SendingTerminal {
    endpoint: CallerEndpoint,
}

impl Model for SendingTerminal {
    ghost use Rattle.fax_gateway.specs.declared.caller_endpoint.CallerEndpoint.{CallerEndpoint};

    ghost Value = { CallerEndpoint };

    ghost view = { λ terminal. terminal.endpoint };
}

/// Calls over a wire, and sends the pages of a job, until the call is over and the wire has nothing to send again. An `Ok` tells
/// how the call ended, which it did: where memory or the time is wanted before, that is an `Err`.
pub fn send_job<S: RowStore, W: TimedWire + Drop, P: Pace>(
    alloc: Global,
    pace: &mut P,
    end: &mut WireEnd<W>,
    job: &Job<S>,
    settings: Settings,
) -> Result<SentJob, TerminalFault>
    requires { AreAllowed settings }
    ensures tells { IfOk result (TellsCall settings.preamble_ms job.now) }
    ensures carried { IfOk result (SendsJob settings job.now
        (traffic_of (W.known end.old.wire)) (traffic_of (W.known end.new.wire))) }
{
    let Some(start) = pace.wait() else {
        return Err(TerminalFault::Clock);
    };
    let mut terminal = SendingTerminal::new(alloc, job, settings, start)?;
    let mut told = 0;
    for _ in 0..u64::MAX {
        let Some(now) = pace.wait() else {
            return Err(TerminalFault::Clock);
        };
        end.wire.go_on(now);
        terminal.turn(end, job, now)?;
        let delivered = terminal.delivered();
        if delivered != told {
            pace.tell(delivered);
            told = delivered;
        }
        if end.wire.next_due().is_none()
            && let Some(sent) = terminal.sent()
        {
            return Ok(sent);
        }
    }
    Err(TerminalFault::Clock)
}

impl SendingTerminal {
    /// A terminal whose call of this job begins at this moment, with these settings.
    pub fn new<S: RowStore>(
        alloc: Global,
        job: &Job<S>,
        settings: Settings,
        now: u64,
    ) -> Result<Self, NoMemory>
        requires { AreAllowed settings }
        ensures job { IfOk result (λ terminal. IsJobOfCall terminal.caller.procedure job.now) }
        ensures begun { IfOk result
            (λ terminal. (setup : Setup) (writes : Writing) → HasSettings setup settings
            → IsCalled setup writes (Some (begins setup writes job.now now)) terminal) }
    {
        let leg = Endpoint::new(alloc, settings.redundancy)?;
        let mut endpoint = CallerEndpoint::new(alloc, settings)?;
        endpoint.start(job, leg, now);
        Ok(SendingTerminal { endpoint })
    }

    /// Its turn: it hears what has come over its end, time goes on, and it sends what it has to. The job is the one of the call.
    pub fn turn<S: RowStore, E: End>(
        &mut self,
        end: &mut E,
        job: &Job<S>,
        now: u64,
    ) -> Result<(), NoMemory>
        requires { IsJobOfCall self.old.caller.procedure job.now }
        ensures job { IsJobOfCall self.new.caller.procedure job.now }
        ensures turned { OnOk result (EachCallOf job.now self.old (λ setup writes l.
            CallerTurns setup writes l now (E.told end.old) (E.told end.new) self.new)) }
    {
        self.hear(end, now)?;
        self.endpoint.reserve()?;
        let datagram = self.endpoint.tick(job, now)?;
        hand_over(end, datagram);
        Ok(())
    }

    /// How many pages the called machine confirmed so far.
    pub fn delivered(&self) -> u32
        ensures { result ≡ self.now.caller.procedure.counts.delivered }
    {
        self.endpoint.delivered()
    }

    /// What is told of the call, where it is over.
    pub fn sent(&self) -> Option<SentJob>
        ensures told { EachCall self.now (λ setup writes l. IfSome result (TellsLeg writes l)) }
        ensures over { EachCall self.now (λ setup writes l.
            option_map (λ (sent : SentJobShown). sent.outcome) result
            ≡ outcome_of (core_of writes l)) }
    {
        let outcome = self.endpoint.outcome()?;
        Some(SentJob {
            outcome,
            delivered: self.delivered(),
        })
    }

    /// It hears what has come.
    fn hear<E: End>(&mut self, end: &mut E, now: u64) -> Result<(), NoMemory>
        ensures job { (job : JobValue) → IsJobOfCall self.old.caller.procedure job
            → IsJobOfCall self.new.caller.procedure job }
        ensures sent { Grows [] (E.told end.old).sent (E.told end.new).sent }
        ensures heard { OnOk result (EachCall self.old (λ setup writes l.
            CallerHears setup writes l now most_datagrams (E.told end.old) (E.told end.new)
            self.new)) }
    {
        let mut buffer = [0; MOST_OCTETS];
        for _i in 0..MOST_DATAGRAMS {
            match end.receive(buffer.as_mut_slice()) {
                None => return Ok(()),
                Some(count) => self.hear_one(&buffer[..count], now)?,
            }
        }
        Ok(())
    }

    /// It hears a datagram.
    fn hear_one(&mut self, octets: &[u8], now: u64) -> Result<(), NoMemory>
        ensures job { (job : JobValue) → IsJobOfCall self.old.caller.procedure job
            → IsJobOfCall self.new.caller.procedure job }
        ensures heard { OnOk result (EachCall self.old (λ setup writes l.
            IsCalled setup writes (Some (hears writes octets.now now l)) self.new)) }
    {
        self.endpoint.hear(octets, now, &mut Unwatched)?;
        Ok(())
    }
}
