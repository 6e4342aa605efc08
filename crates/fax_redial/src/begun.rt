//! What a try begins with.
ghost use Rattle.std.specs.Prelude.{◌≡◌, false, true, IfErr, IfOk, MatchOption, drop, length, map, nat_eq, not};
ghost use Rattle.std.specs.List.{list_all};
ghost use Rattle.fax_gateway.specs.Setups.{AreAllowed};
ghost use Rattle.fax_redial.specs.Begun.{BeginsWithLeft, IsFaultOf, IsJobOf, IsTryOf, RestoresUnless, may_restore};
ghost use Rattle.fax_spool.specs.Torn.{is_of};
ghost use Rattle.fax_undelivered.specs.Calls.{name_of, number_of};

use crate::fault::BeginFault;
use crate::job::RetryJob;
use fax_bits::NoMemory;
use fax_desk::Tag;
use fax_gateway::Settings;
use fax_line::Line;
use fax_queue::laws::whole_lines_are_restored;
use fax_queue::{Queue, RestoredLine, restore_line};
use fax_spool::{CallName, WaitingPage};
use fax_undelivered::UndeliveredCall;
use fax_wires::holding::HoldingWire;
use fax_wires::repeat::TimedWire;
use std::alloc::{AllocError, Global};
use std::marker::Model;

/// A try that may begin: a line that was restored with the pages of a call that wait, but for those that other tries delivered, and with
/// nothing else; and its job, which has the numbers of all of those pages.
#[derive(Drop)]
pub struct RestoredTry<W: TimedWire + Drop> {
    pub(crate) line: Line<W>,
    pub(crate) job: RetryJob,
}

impl<W: TimedWire + Drop> Model for RestoredTry<W> {
    ghost use Rattle.fax_redial.specs.Begun.{HasPages, RestoredValue};

    ghost Value = { RestoredValue };

    ghost view = { λ t. record { line = t.line; job = t.job } };

    ghost invariant = { λ t. HasPages t.job t.line };
}

impl<W: TimedWire + Drop> RestoredTry<W> {
    /// Its job.
    pub(crate) fn job(&self) -> &RetryJob
        ensures { result.now ≡ self.now.job }
    {
        &self.job
    }

    /// How many jobs wait on its line.
    pub(crate) fn waiting(&self) -> usize
        ensures { result ≡ length self.now.line.gateway.book.waiting }
    {
        self.line.waiting()
    }
}

/// A try of the job of this call, which had this tag, and of which these pages wait. `NoPage`: a page is of another call, the text of one that
/// it would send means none, or the name of the line is no text.
pub fn restore_try<W: TimedWire + Drop>(
    alloc: Global,
    settings: Settings,
    call: &UndeliveredCall,
    tag: Option<Tag>,
    pages: &[WaitingPage],
    wire: HoldingWire<W>,
) -> Result<RestoredTry<W>, BeginFault>
    requires { AreAllowed settings }
    ensures answer { RestoresUnless (may_restore call.now pages.now)
        (drop call.now.card.delivered pages.now) result }
    ensures restored { IfOk result (λ restored. IsTryOf call.now tag pages.now restored) }
    ensures settings { IfOk result (λ restored. restored.line.gateway.settings ≡ settings) }
{
    let Some(name) = line_name(call, pages) else {
        return Err(BeginFault::NoPage);
    };
    let delivered = call.card.delivered;
    let line = line_of_job(alloc, settings, name, pages, delivered, wire)?;
    let job = job_of(alloc, call, tag, pages)?;
    Ok(RestoredTry { line, job })
}

/// The name of the line of a call, where that is text, and these pages are of that call.
#[tactic(auto, using(crate::proofs::Restoring::name_so, crate::proofs::Restoring::no_name, crate::proofs::Restoring::not_own))]
fn line_name<'a>(call: &'a UndeliveredCall, pages: &[WaitingPage]) -> Option<&'a str>
    ensures { MatchOption result (may_restore call.now pages.now ≡ false)
        (λ name. (name.now ≡ call.now.line) × (may_restore call.now pages.now ≡ true)) }
{
    if !are_of(call, pages) {
        return None;
    }
    match std::str::from_utf8(call.line.as_slice()) {
        Ok(name) => Some(name),
        Err(_) => None,
    }
}

/// Whether each of these pages is of a call.
fn are_of(call: &UndeliveredCall, pages: &[WaitingPage]) -> bool
    ensures { result ≡ list_all (λ page. is_of page (name_of call.now)) pages.now }
{
    pages.iter().all(|page| is_of(call, page))
}

/// Whether a page is of a call.
fn is_of(call: &UndeliveredCall, page: &WaitingPage) -> bool
    ensures { result ≡ is_of page.now (name_of call.now) }
{
    call.life == page.life && call.call == page.call && call.line.as_slice() == page.line.as_slice()
}

/// The line of a try of a job: restored with these pages of the line of this name, but for so many from the first on that were delivered, and
/// with nothing else. `NoPage`: the text of one means none.
fn line_of_job<W: TimedWire + Drop>(
    alloc: Global,
    settings: Settings,
    name: &str,
    pages: &[WaitingPage],
    delivered: u32,
    wire: HoldingWire<W>,
) -> Result<Line<W>, BeginFault>
    requires { AreAllowed settings }
    ensures begins { IfOk result (λ line. BeginsWithLeft name.now pages.now delivered line) }
    ensures fault { IfErr result (λ fault. IsFaultOf (drop delivered pages.now) fault) }
    ensures settings { IfOk result (λ line. line.gateway.settings ≡ settings) }
{
    let first = (delivered as usize).min(pages.len());
    whole_lines_are_restored();
    let RestoredLine { calls, queue } = restore_line(alloc, name, &pages[first..], &[])?;
    if lacks_page(&queue) {
        return Err(BeginFault::NoPage);
    }
    Ok(Line::restore(alloc, settings, calls, wire)?)
}

/// Whether a page was set aside, since its text means none.
fn lacks_page(queue: &Queue) -> bool
    ensures { result ≡ not (nat_eq (length queue.now.aside) 0) }
{
    !queue.aside().is_empty()
}

/// The job of a call, which had this tag, and of which these pages wait.
fn job_of(
    alloc: Global,
    call: &UndeliveredCall,
    tag: Option<Tag>,
    pages: &[WaitingPage],
) -> Result<RetryJob, NoMemory>
    ensures { IfOk result (λ job. IsJobOf call.now tag pages.now job) }
{
    let line = call.line.as_slice().to_vec(alloc)?;
    let numbers = numbers_of(alloc, pages)?;
    Ok(RetryJob {
        name: CallName {
            life: call.life,
            call: call.call,
            line,
        },
        tag,
        tries: call.card.tries,
        numbers,
    })
}

/// The numbers of these pages.
fn numbers_of(alloc: Global, pages: &[WaitingPage]) -> Result<Vec<u32>, AllocError>
    ensures { IfOk result (λ numbers. numbers.items ≡ map number_of pages.now) }
{
    let mut numbers = Vec::with_capacity(alloc, pages.len())?;
    for page in pages {
        numbers.push(page.number)?;
    }
    Ok(numbers)
}
