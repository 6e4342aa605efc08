//! The texts that control words are answered with.
use crate::failures::Failures;
use crate::redial_side::RedialSide;
use crate::seen::SeenLines;
use fax_bits::NoMemory;
use fax_control::Answer;
use fax_control::events::{Counters, Event, What, write_event};
use fax_desk::{Desk, LineEvent, LineView, Tag};
use fax_gateway::Leg;
use fax_legs::LegCounts;
use fax_redial::RetryJob;
use fax_spool::CallName;
use std::alloc::{AllocError, Global};

/// The most reports of a line that are told.
const MOST_REPORTS: usize = 64;

/// The line of an answer.
pub(crate) fn answer_text(alloc: Global, answer: Answer<'_>) -> Result<Vec<u8>, AllocError> {
    let text = format!(in alloc; "{answer}\n")?;
    Ok(text.into_bytes())
}

/// The reports of line i that are kept, oldest first, as events of this moment, and `ok`.
pub(crate) fn report_text<S: SeenLines>(
    alloc: Global,
    desk: &Desk,
    i: usize,
    seen: &S,
    at: u64,
) -> Result<Vec<u8>, NoMemory> {
    let mut text = Vec::new(alloc);
    let kept = reports_kept(i, seen);
    for k in 0..kept {
        let happened = reported(desk, i, seen, k, kept);
        put_happened(alloc, desk.name(i), at, happened, &mut text)?;
    }
    text.extend_from_slice(b"ok\n")?;
    Ok(text)
}

/// Report k of so many that are kept of line i.
fn reported<S: SeenLines>(
    desk: &Desk,
    i: usize,
    seen: &S,
    k: usize,
    kept: usize,
) -> Option<LineEvent> {
    let report = seen.report(i, k)?;
    let known = desk.report_texts(i, k, kept, report.call);
    Some(LineEvent::Job(report, known.tag, known.cause))
}

/// How many reports of line i are kept.
fn reports_kept<S: SeenLines>(i: usize, seen: &S) -> usize {
    let mut count = 0;
    for k in 0..MOST_REPORTS {
        if seen.report(i, k).is_some() {
            count = k + 1;
        }
    }
    count
}

/// Adds what is damaged in the spool, and that it has failed, the pages that are not sent, of which these lines of events tell, each call
/// that is on, and each job whose call is on or is asked for, as events of this moment: for a client that wants events from now on.
pub(crate) fn put_states<S: SeenLines>(
    alloc: Global,
    aside: &[Vec<u8>],
    desk: &Desk,
    seen: &S,
    at: u64,
    text: &mut Vec<u8>,
) -> Result<(), NoMemory> {
    put_spool(alloc, desk, at, text)?;
    for told in aside {
        text.extend_from_slice(told.as_slice())?;
    }
    for i in 0..seen.len() {
        put_state(alloc, desk, seen, i, at, text)?;
    }
    Ok(())
}

/// Adds the lines that tell what is told of the spool first.
fn put_spool(alloc: Global, desk: &Desk, at: u64, text: &mut Vec<u8>) -> Result<(), NoMemory> {
    let told = desk.spool_told();
    if let Some(damage) = told.damage {
        put_event(alloc, None, at, damage, text)?;
    }
    if let Some(failure) = told.failure {
        put_event(alloc, None, at, failure, text)?;
    }
    Ok(())
}

/// Adds the lines that tell what is on on line i.
fn put_state<S: SeenLines>(
    alloc: Global,
    desk: &Desk,
    seen: &S,
    i: usize,
    at: u64,
    text: &mut Vec<u8>,
) -> Result<(), NoMemory> {
    if let Some(line) = seen.line(i)
        && let Some(state) = desk.state(i, line)
    {
        put_happened(alloc, desk.name(i), at, state.rung, text)?;
        put_happened(alloc, desk.name(i), at, state.job, text)?;
    }
    Ok(())
}

/// Adds the line of what happens on the line of this name, where something does.
fn put_happened(
    alloc: Global,
    name: Option<&str>,
    at: u64,
    happened: Option<LineEvent>,
    text: &mut Vec<u8>,
) -> Result<(), NoMemory> {
    if let Some(happened) = happened
        && let Some(name) = name
    {
        put_event(alloc, Some(name), at, happened.shown(), text)?;
    }
    Ok(())
}

/// Adds the line of what happens on the line of this name, or to all of them.
fn put_event(
    alloc: Global,
    line: Option<&str>,
    at: u64,
    what: What<'_>,
    text: &mut Vec<u8>,
) -> Result<(), NoMemory> {
    let told = write_event(alloc, &Event { line, at, what })?;
    text.extend_from_slice(told.as_slice())?;
    Ok(())
}

/// Adds a line for each line of the configuration.
pub(crate) fn put_lines<S: SeenLines>(
    alloc: Global,
    desk: &Desk,
    seen: &S,
    text: &mut Vec<u8>,
) -> Result<(), NoMemory> {
    for i in 0..seen.len() {
        if let Some(view) = seen.line(i) {
            let told = line_text(alloc, desk, i, seen, view)?;
            text.extend_from_slice(told.as_bytes())?;
        }
    }
    Ok(())
}

/// Adds what is on on redial lines, whose questions are open from now on, since a client is told it.
pub(crate) fn put_redial_states<R: RedialSide>(
    alloc: Global,
    redials: &mut R,
    at: u64,
    text: &mut Vec<u8>,
) -> Result<(), NoMemory> {
    for k in 0..redials.tries() {
        if let Some(i) = redials.line_of_try(k)
            && let Some(state) = redials.ask_state(i)
        {
            put_happened(alloc, redials.name(i), at, state.rung, text)?;
            put_happened(alloc, redials.name(i), at, state.job, text)?;
        }
    }
    Ok(())
}

/// Adds a line for each redial line: its name, and the call whose pages it sends, with its tag.
pub(crate) fn put_redials<R: RedialSide>(
    alloc: Global,
    redials: &R,
    text: &mut Vec<u8>,
) -> Result<(), NoMemory> {
    for i in 0..redials.len() {
        let name = redials.name(i).unwrap_or("");
        let told = redial_text(alloc, name, redials.job(i))?;
        text.extend_from_slice(told.as_bytes())?;
    }
    Ok(())
}

/// How a redial line is, which has a try of this job, or none.
fn redial_text(alloc: Global, name: &str, job: Option<&RetryJob>) -> Result<String, NoMemory> {
    let Some(job) = job else {
        return Ok(format!(in alloc; "redial {name} called idle\n")?);
    };
    let CallName { life, call, line } = &job.name;
    let line = std::str::from_utf8(line.as_slice()).unwrap_or("");
    let tag = tag_text(alloc, " called_tag=", job.tag)?;
    Ok(format!(in alloc; "redial {name} called job-{call} of {line} life {life}{tag}\n")?)
}

/// Adds a line for the spool, where there is one.
pub(crate) fn put_spool_status<S: SeenLines>(
    alloc: Global,
    counters: &Counters,
    seen: &S,
    text: &mut Vec<u8>,
) -> Result<(), NoMemory> {
    if seen.has_store() {
        let told = spool_text(alloc, counters, seen.has_failed())?;
        text.extend_from_slice(told.as_bytes())?;
    }
    Ok(())
}

/// How the spool is: whether it takes pages, what its start found damaged, and how many pages are not sent.
fn spool_text(alloc: Global, counters: &Counters, has_failed: bool) -> Result<String, AllocError> {
    let state = if has_failed { "failed" } else { "keeps" };
    let records = counters.records_damaged;
    let octets = counters.octets_passed_over;
    let aside = counters.pages_set_aside;
    format!(in alloc; "spool {state} damaged {records} passed_over {octets} set_aside {aside}\n")
}

/// How line i is.
fn line_text<S: SeenLines>(
    alloc: Global,
    desk: &Desk,
    i: usize,
    seen: &S,
    view: LineView,
) -> Result<String, AllocError> {
    let name = desk.name(i).unwrap_or("");
    let calling = leg_text(alloc, "call-", view.call)?;
    let called = leg_text(alloc, "job-", view.sending)?;
    let counts = desk.counts(i);
    let calls = counts.calls;
    let pages = counts.pages;
    let waiting = seen.waiting(i);
    let failures = failures_of(i, seen).sum();
    let tags = desk.tags_on(i, view);
    let calling_tag = tag_text(alloc, " calling_tag=", tags.calling)?;
    let called_tag = tag_text(alloc, " called_tag=", tags.called)?;
    format!(in alloc;
        "line {name} calling {calling} called {called} calls {calls} pages {pages} waiting {waiting} failures {failures}{calling_tag}{called_tag}\n"
    )
}

/// How a leg is: the call that is on there, or the call whose pages are sent there.
fn leg_text(alloc: Global, what: &str, call: Option<u32>) -> Result<String, AllocError> {
    match call {
        Some(call) => format!(in alloc; "{what}{call}"),
        None => String::from_str(alloc, "idle"),
    }
}

/// A tag, where there is one.
fn tag_text(alloc: Global, what: &str, tag: Option<Tag>) -> Result<String, AllocError> {
    match tag {
        Some(tag) => {
            let text = tag.text();
            format!(in alloc; "{what}{text}")
        }
        None => Ok(String::new(alloc)),
    }
}

/// What failed on line i.
pub(crate) fn failures_of<S: SeenLines>(i: usize, seen: &S) -> Failures {
    let calling = seen.counts(i, Leg::Calling);
    let called = seen.counts(i, Leg::Called);
    Failures {
        calling_receives: calling.receive_failures,
        calling_sends: calling.send_failures,
        called_receives: called.receive_failures,
        called_sends: called.send_failures,
    }
}

/// The counts, with what the lines count added.
pub(crate) fn counters_of<S: SeenLines>(counters: Counters, seen: &S) -> Counters {
    let mut sums = counters;
    for i in 0..seen.len() {
        add_line(&mut sums, i, seen);
    }
    sums
}

/// Adds what line i counts.
fn add_line<S: SeenLines>(sums: &mut Counters, i: usize, seen: &S) {
    let under_way = if seen.is_sending(i) { 1 } else { 0 };
    let waiting = (seen.waiting(i) as u64).saturating_add(under_way);
    sums.jobs_waiting = sums.jobs_waiting.saturating_add(waiting);
    sums.datagrams_refused = sums.datagrams_refused.saturating_add(seen.refusals(i));
    add_leg(sums, seen.counts(i, Leg::Calling));
    add_leg(sums, seen.counts(i, Leg::Called));
}

/// Adds what went over a leg.
fn add_leg(sums: &mut Counters, counts: LegCounts) {
    sums.datagrams_received = sums.datagrams_received.saturating_add(counts.received);
    sums.datagrams_sent = sums.datagrams_sent.saturating_add(counts.sent);
    sums.receive_failures = sums
        .receive_failures
        .saturating_add(counts.receive_failures);
    sums.send_failures = sums.send_failures.saturating_add(counts.send_failures);
}
