//! The ends of jobs of many lines, put all of them at once.
ghost use Rattle.std.specs.Prelude.{◌≡◌, ◌⊎◌, ◌<◌, IfErr, IfOk, IsErr, OnErr, is_ok, length};
ghost use Rattle.fax_spool.specs.Calls.{Refuses};
ghost use Rattle.fax_spool.specs.RecordOctets.{EndedValue};
ghost use Rattle.fax_queue.specs.Together.{AreEndsOf, IsNotTaken, IsTaken, MayPutEnds, Planned, Plans, StaysUnnoted, unsure_all};
ghost use Rattle.fax_queue.specs.Queues.{IsEndOf, lines_of};
ghost use Rattle.fax_line.specs.Settling.{RiseByLine};

use crate::end_fault::EndFault;
use crate::putting::line_of;
use crate::queue::{EndedJob, Queue};
use fax_jobs::Report;
use fax_line::LineReport;
use fax_spool::{EndedRecord, Spool};
use fax_wires::holding::StoreFault;
use sqlite_disk::Disk;
use std::alloc::{AllocError, Global};

/// The most octets of the name of a line.
const MOST_NAME: usize = 255;

/// A job that ended and left its line's queue, and whose record is to be put.
#[derive(Clone, Copy)]
pub(crate) struct PlannedEnd {
    pub(crate) line: usize,
    pub(crate) report: Report,
    pub(crate) ended: EndedJob,
}

/// The job that is first in turn on a queue leaves it, which had so many pages as its report counts: a record is to be put of it. An
/// `Err` says why there is to be none.
pub(crate) fn take_job(queue: &mut Queue, report: Report) -> Result<EndedJob, EndFault>
    ensures taken { IfOk result
        (λ ended. IsTaken report.pages ended queue.old queue.new) }
    ensures why { IfErr result (λ fault. IsNotTaken fault report.pages queue.old) }
    ensures stays { OnErr result (StaysUnnoted report.pages queue.old queue.new) }
{
    let Some(ended) = queue.end(report.pages) else {
        return Err(EndFault::Unsure);
    };
    if ended.stored == 0 {
        return Err(EndFault::NoneThere);
    }
    if queue.line().len() > MOST_NAME {
        queue.mark_unsure();
        return Err(EndFault::LongName);
    }
    Ok(ended)
}

/// The record of the end of a job of this line.
pub(crate) fn record_of<'a>(line: &'a [u8], ended: &EndedJob, report: Report) -> EndedRecord<'a>
    ensures { IsEndOf ended.now line.now result }
{
    EndedRecord {
        life: ended.life,
        call: ended.call,
        first: ended.first,
        pages: ended.pages,
        delivered: report.delivered,
        format: report.format,
        outcome: report.outcome,
        line,
    }
}

/// The jobs of these lines leave their queues, but those of which no record can be: what is to be put. Without memory a job's end is not
/// noted.
pub(crate) fn plan_ends(
    alloc: Global,
    queues: &mut [Queue],
    ended: &[LineReport],
) -> Vec<PlannedEnd>
    requires { RiseByLine ended.now }
    ensures { Planned ended.now queues.old queues.new result.items }
{
    let mut plan = Vec::new(alloc);
    for one in ended {
        if one.line < queues.len() {
            plan_end(&mut queues[one.line], *one, &mut plan);
        }
    }
    plan
}

/// The same of one of them.
fn plan_end(queue: &mut Queue, one: LineReport, plan: &mut Vec<PlannedEnd>)
    ensures { Plans one queue.old queue.new plan.old.items plan.new.items }
{
    if plan.reserve(1).is_err() {
        queue.mark_unsure();
        return;
    }
    if let Ok(ended) = take_job(queue, one.report) {
        plan.push_reserved(PlannedEnd {
            line: one.line,
            report: one.report,
            ended,
        });
    }
}

/// Puts their records into a spool, all of them at once, where there are some.
pub(crate) fn put_ends<D: Disk>(
    alloc: Global,
    spool: &mut Spool<D>,
    queues: &[Queue],
    plan: &[PlannedEnd],
) -> Result<(), StoreFault>
    ensures { MayPutEnds D.seen D.may_leave D.is_usable (lines_of queues.now)
        plan.now (is_ok result) spool.old spool.new }
{
    if plan.is_empty() {
        return Err(StoreFault);
    }
    let Ok(records) = records_of(alloc, queues, plan) else {
        return Err(StoreFault);
    };
    match spool.end_all(alloc, records.as_slice()) {
        Ok(()) => Ok(()),
        Err(_) => Err(StoreFault),
    }
}

/// Their records, each with the name of its line.
fn records_of<'a>(
    alloc: Global,
    queues: &'a [Queue],
    plan: &[PlannedEnd],
) -> Result<Vec<EndedRecord<'a>>, AllocError>
    ensures { IfOk result (λ records. AreEndsOf (lines_of queues.now) plan.now records.items) }
{
    let mut records = Vec::with_capacity(alloc, plan.len())?;
    for one in plan {
        let Some(line) = line_of(queues, one.line) else {
            return Err(AllocError);
        };
        records.push(record_of(line, &one.ended, one.report))?;
    }
    Ok(records)
}

/// They may be on the disk, or not: from then on no job of these lines is told to have ended.
pub(crate) fn mark_unsure(queues: &mut [Queue], plan: &[PlannedEnd])
    ensures { queues.new ≡ unsure_all plan.now queues.old }
{
    for one in plan {
        if one.line < queues.len() {
            queues[one.line].mark_unsure();
        }
    }
}

/// How many of their pages were on the disk.
pub(crate) fn stored_pages(plan: &[PlannedEnd]) -> u64 {
    let mut stored: u64 = 0;
    for one in plan {
        stored = stored.saturating_add(one.ended.stored);
    }
    stored
}
