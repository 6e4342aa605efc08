//! The page that an operator looks at.
use crate::seen::SeenLines;
use crate::undelivered::{pages_left, shown_text};
use fax_bits::NoMemory;
use fax_control::events::Counters;
use fax_desk::{Desk, LineView as LineSeen, Tag, TagsOn};
use fax_http::{
    CallView, CalledView, CountView, Health, JobView, LineView, PageView, UndeliveredView,
    write_page,
};
use fax_jobs::{Outcome, Report};
use fax_undelivered::UndeliveredCall;
use httpdate::{HttpDate, fmt_http_date};
use std::alloc::{AllocError, Global};

/// The most lines of a page.
const MOST_LINES: usize = 100;

/// The most calls of which pages could not be delivered.
const MOST_UNDELIVERED: usize = 100;

/// A job that ended: the name of its line, its report, its tag, and how it ended, in words.
pub(crate) struct EndedJob {
    pub line: String,
    pub report: Report,
    pub tag: Option<Tag>,
    pub words: String,
}

impl Drop for EndedJob {
    fn drop(self) {
        let EndedJob {
            line: _line,
            report: _report,
            tag: _tag,
            words: _words,
        } = self;
    }
}

/// A line on which something is under way.
struct LineOn {
    name: String,
    seen: LineSeen,
    tags: TagsOn,
    waiting: u64,
}

impl Drop for LineOn {
    fn drop(self) {
        let LineOn {
            name: _name,
            seen: _seen,
            tags: _tags,
            waiting: _waiting,
        } = self;
    }
}

/// A call of which pages could not be delivered, and how its job ended, in words.
struct FailedCall {
    line: String,
    life: u32,
    call: u32,
    tag: Option<String>,
    pages: u32,
    tries: u32,
    /// When it was tried last, in words.
    at: String,
    words: String,
}

impl Drop for FailedCall {
    fn drop(self) {
        let FailedCall {
            line: _line,
            life: _life,
            call: _call,
            tag: _tag,
            pages: _pages,
            tries: _tries,
            at: _at,
            words: _words,
        } = self;
    }
}

/// The page of a server that is so, of which these jobs ended last, and pages of these calls could not be delivered.
pub(crate) fn page_text<S: SeenLines>(
    alloc: Global,
    desk: &Desk,
    counters: &Counters,
    health: Health,
    seen: &S,
    ended: &[EndedJob],
    calls: &[UndeliveredCall],
) -> Result<Vec<u8>, NoMemory> {
    let on = lines_on(alloc, desk, seen)?;
    let mut lines = Vec::new(alloc);
    for line in on.as_slice() {
        lines.push(line_view(line))?;
    }
    let mut jobs = Vec::new(alloc);
    for job in ended {
        jobs.push(job_view(job))?;
    }
    let kept = undelivered_calls(alloc, calls)?;
    let mut undelivered = Vec::new(alloc);
    for call in kept.as_slice() {
        undelivered.push(undelivered_view(call))?;
    }
    let others = seen.len().saturating_sub(on.len()) as u64;
    let counts = counts_of(counters);
    let view = PageView {
        health,
        lines: lines.as_slice(),
        others,
        jobs: jobs.as_slice(),
        undelivered: undelivered.as_slice(),
        counts: &counts,
    };
    Ok(write_page(alloc, &view)?)
}

/// The first lines on which something is under way.
fn lines_on<S: SeenLines>(alloc: Global, desk: &Desk, seen: &S) -> Result<Vec<LineOn>, AllocError> {
    let mut on = Vec::new(alloc);
    for i in 0..seen.len() {
        if on.len() < MOST_LINES
            && let Some(line) = line_on(alloc, desk, seen, i)?
        {
            on.push(line)?;
        }
    }
    Ok(on)
}

/// Line i, where something is under way there.
fn line_on<S: SeenLines>(
    alloc: Global,
    desk: &Desk,
    seen: &S,
    i: usize,
) -> Result<Option<LineOn>, AllocError> {
    if seen.is_idle(i) {
        return Ok(None);
    }
    let (Some(view), Some(name)) = (seen.line(i), desk.name(i)) else {
        return Ok(None);
    };
    Ok(Some(LineOn {
        name: String::from_str(alloc, name)?,
        seen: view,
        tags: desk.tags_on(i, view),
        waiting: seen.waiting(i) as u64,
    }))
}

/// A line as it is shown.
fn line_view(line: &LineOn) -> LineView<'_> {
    let calling = match line.seen.call {
        Some(call) => Some(CallView {
            call,
            tag: text_of(&line.tags.calling),
        }),
        None => None,
    };
    LineView {
        name: line.name.as_str(),
        calling,
        called: called_view(line),
        waiting: line.waiting,
    }
}

/// What is on on its called leg.
fn called_view(line: &LineOn) -> CalledView<'_> {
    let tag = text_of(&line.tags.called);
    if let Some(call) = line.seen.sending {
        return CalledView::Sends(CallView { call, tag });
    }
    match line.seen.asked {
        Some(asked) => CalledView::Asks(CallView {
            call: asked.call,
            tag,
        }),
        None => CalledView::Idle,
    }
}

/// The first calls of which pages could not be delivered.
fn undelivered_calls(
    alloc: Global,
    calls: &[UndeliveredCall],
) -> Result<Vec<FailedCall>, AllocError> {
    let mut kept = Vec::new(alloc);
    for call in calls.iter().take(MOST_UNDELIVERED) {
        kept.push(failed_call(alloc, call)?)?;
    }
    Ok(kept)
}

/// A call of which pages could not be delivered.
fn failed_call(alloc: Global, call: &UndeliveredCall) -> Result<FailedCall, AllocError> {
    let card = &call.card;
    let tag = match shown_text(call.tag.as_slice()) {
        Some(tag) => Some(String::from_str(alloc, tag)?),
        None => None,
    };
    let line = shown_text(call.line.as_slice()).unwrap_or("");
    Ok(FailedCall {
        line: String::from_str(alloc, line)?,
        life: call.life,
        call: call.call,
        tag,
        pages: pages_left(call),
        tries: card.tries,
        at: day_text(alloc, card.at)?,
        words: words_with(alloc, card.outcome, shown_text(card.cause.as_slice()))?,
    })
}

/// A second since 1970, in words; 0 where it is not known.
fn day_text(alloc: Global, second: u64) -> Result<String, AllocError> {
    match HttpDate::from_unix_secs(second) {
        Ok(date) if second > 0 => fmt_http_date(alloc, date),
        Ok(_) | Err(_) => String::from_str(alloc, "not known when"),
    }
}

/// The same as it is shown.
fn undelivered_view(kept: &FailedCall) -> UndeliveredView<'_> {
    let tag = match &kept.tag {
        Some(tag) => Some(tag.as_str()),
        None => None,
    };
    UndeliveredView {
        line: kept.line.as_str(),
        life: u64::from(kept.life),
        call: CallView {
            call: kept.call,
            tag,
        },
        pages: u64::from(kept.pages),
        tries: u64::from(kept.tries),
        at: kept.at.as_str(),
        outcome: kept.words.as_str(),
    }
}

/// How a job ended, in words, and for what cause its call was not placed, where that was said.
pub(crate) fn words_with(
    alloc: Global,
    outcome: Outcome,
    cause: Option<&str>,
) -> Result<String, AllocError> {
    let words = words_of(outcome);
    match cause {
        Some(cause) => Ok(format!(in alloc; "{words}: {cause}")?),
        None => String::from_str(alloc, words),
    }
}

/// The text of a tag.
fn text_of(tag: &Option<Tag>) -> Option<&str> {
    match tag {
        Some(tag) => Some(tag.text()),
        None => None,
    }
}

/// A job as it is shown.
fn job_view(job: &EndedJob) -> JobView<'_> {
    JobView {
        line: job.line.as_str(),
        call: CallView {
            call: job.report.call,
            tag: text_of(&job.tag),
        },
        pages: job.report.pages,
        delivered: job.report.delivered,
        outcome: job.words.as_str(),
    }
}

/// How a job ended, in words.
pub(crate) fn words_of(outcome: Outcome) -> &'static str {
    match outcome {
        Outcome::Delivered => "each page was confirmed",
        Outcome::NotReceiver => "the called machine does not receive",
        Outcome::WidthLacking => "the called machine lacks the width of the pages",
        Outcome::FineLacking => "the called machine lacks the fine resolution",
        Outcome::RatesSpent => "the training failed at each rate",
        Outcome::NoAnswer => "no DIS came in 35 s",
        Outcome::NoReply => "a command was not answered",
        Outcome::PageRefused => "a page was refused three times",
        Outcome::HungUp => "the called machine ended the call",
        Outcome::NotPlaced => "the call was not placed",
    }
}

/// The counts that a page has, in words.
fn counts_of(counters: &Counters) -> [CountView<'static>; 10] {
    [
        count("Lines", counters.lines),
        count("Calls that were rung", counters.calls),
        count("Pages that were confirmed", counters.pages_confirmed),
        count("Pages that were delivered", counters.pages_delivered),
        count("Jobs that were delivered", counters.jobs_delivered),
        count("Jobs that ended otherwise", counters.jobs_failed),
        count("Jobs that wait or are sent", counters.jobs_waiting),
        count("Pages on the disk", counters.pages_stored),
        count(
            "Pages that could not be delivered",
            counters.pages_undelivered,
        ),
        count("Turns that were late", counters.turns_late),
    ]
}

/// A count.
fn count(name: &'static str, value: u64) -> CountView<'static> {
    CountView { name, value }
}
