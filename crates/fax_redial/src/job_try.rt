//! A try of a job.
ghost use Rattle.std.specs.Prelude.{◌≡◌, ◌≤◌, ℕ, [], ◌∷◌, IfOk, MatchOption, length, slice_get};
ghost use Rattle.fax_line.specs.Operations.{IsLineAt};
ghost use Rattle.fax_line.specs.Places.{Visit};
ghost use Rattle.fax_line.specs.Runs.{Turned, Woken};
ghost use Rattle.fax_redial.specs.Tries.{Begins, GoesOn, IsAsked, end_of, is_over, same_name, told_by, turned_of};
ghost use Rattle.fax_redial.specs.Totals.{end_if, total_if};

use crate::begun::RestoredTry;
use crate::job::{RetryEnd, RetryJob};
use crate::total::TryTotal;
use fax_bits::NoMemory;
use fax_desk::Cause;
use fax_gateway::TurnReport;
use fax_jobs::{Outcome, Report};
use fax_line::{Line, LineAnswer, LineRequest, Lines};
use fax_spool::CallName;
use fax_wires::repeat::TimedWire;
use std::alloc::Global;
use std::marker::Model;

/// A try of a job: a line that was restored with its pages, the only one of lines of its own, and so in slot 0 of them.
pub struct JobTry<W: TimedWire + Drop> {
    job: RetryJob,
    lines: Lines<W>,
    /// The latest moment that they were told.
    moment: u64,
    total: TryTotal,
}

impl<W: TimedWire + Drop> Drop for JobTry<W> {
    fn drop(self) {
        let JobTry {
            job: _job,
            lines: _lines,
            moment: _moment,
            total: _total,
        } = self;
    }
}

impl<W: TimedWire + Drop> Model for JobTry<W> {
    ghost use Rattle.fax_redial.specs.Tries.{TryValue};

    ghost Value = { TryValue };

    ghost view = { λ t.
        record { job = t.job; lines = t.lines; moment = t.moment; total = t.total } };
}

impl<W: TimedWire + Drop> JobTry<W> {
    /// A try begins, of a job whose line was restored with its pages. It takes memory for a buffer.
    pub fn new(alloc: Global, restored: RestoredTry<W>) -> Result<Self, NoMemory>
        ensures { IfOk result (λ held. Begins restored.job restored.line held) }
    {
        let mut lines = Lines::new(alloc)?;
        let RestoredTry { line, job } = restored;
        lines.add(line)?;
        Ok(JobTry {
            job,
            lines,
            moment: 0,
            total: TryTotal::new(),
        })
    }

    /// The job.
    pub fn job(&self) -> &RetryJob
        ensures { result.now ≡ self.now.job }
    {
        &self.job
    }

    /// The line.
    pub fn line(&self) -> Option<&Line<W>>
        ensures { MatchOption result (length self.now.lines.lines ≤ 0)
            (λ line. IsLineAt 0 self.now.lines.lines line.now) }
    {
        self.lines.line(0)
    }

    /// The next slot of its lines has its turn, and what that gave goes out. In the turn of slot 0, of which it answers what the line told,
    /// that is turned, whatever came for it.
    pub fn turn(&mut self, now: u64) -> Option<TurnReport>
        ensures goes { (visits : ℕ → Visit)
            × GoesOn (Turned now visits ∷ Woken 0 ∷ []) self.old self.new }
        ensures told { result ≡ told_by self.old self.new }
        ensures job { self.new.job ≡ self.old.job }
        ensures total { self.new.total ≡ self.old.total }
    {
        let is_first = self.lines.slot() == 0;
        self.moment = self.moment.max(now);
        self.lines.wake(0);
        self.lines.turn(self.moment);
        self.lines.let_out_slot();
        if is_first { self.told() } else { None }
    }

    /// What the last turn of its line told.
    fn told(&self) -> Option<TurnReport>
        ensures { result ≡ turned_of (slice_get self.now.lines.lines 0) }
    {
        match self.lines.line(0) {
            Some(line) => Some(line.turned()),
            None => None,
        }
    }

    /// A turn reported a job, or none, whose call was not placed for this cause, or was placed.
    pub fn count(&mut self, report: Option<Report>, cause: Option<Cause>)
        ensures { self.new ≡ record self.old { total = total_if report cause self.old.total } }
    {
        self.total = self.total.and_then(report, cause);
    }

    /// This is asked of its line.
    pub fn ask(&mut self, what: LineRequest, now: u64) -> Option<LineAnswer>
        ensures { IsAsked now what result self.old self.new }
    {
        self.moment = self.moment.max(now);
        self.lines.ask(0, what, self.moment)
    }

    /// Whether it is over: no job of its line waits, and none is being sent.
    pub fn is_over(&self) -> bool
        ensures { result ≡ is_over self.now }
    {
        match self.lines.line(0) {
            Some(line) => line.waiting() == 0 && line.sending().is_none(),
            None => true,
        }
    }

    /// Whether it is of the job whose pages came in this call.
    pub fn is_of(&self, name: &CallName) -> bool
        ensures { result ≡ same_name self.now.job.name name.now }
    {
        self.is_named(name.line.as_slice(), name.life, name.call)
    }

    /// The same, by the name of its line, its life and its number.
    pub fn is_named(&self, line: &[u8], life: u32, call: u32) -> bool
        ensures { result
            ≡ same_name self.now.job.name (record { life = life; call = call; line = line.now }) }
    {
        let own = &self.job.name;
        own.life == life && own.call == call && own.line.as_slice() == line
    }

    /// How it ended.
    pub fn into_end(self) -> RetryEnd
        ensures { result ≡ end_of self }
    {
        let JobTry {
            job,
            lines: _lines,
            moment: _moment,
            total,
        } = self;
        end_of(job, total)
    }
}

/// How a try of this job ended, whose reports came to this.
fn end_of(job: RetryJob, total: TryTotal) -> RetryEnd
    ensures { result ≡ end_if job total.delivered total.failed }
{
    let RetryJob {
        name,
        tag: _,
        tries: _,
        numbers,
    } = job;
    let (outcome, cause) = match total.failed {
        None => (Outcome::Delivered, None),
        Some(failed) => (failed.outcome, failed.cause),
    };
    RetryEnd {
        name,
        numbers,
        delivered: total.delivered,
        outcome,
        cause,
    }
}
