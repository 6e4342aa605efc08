//! From an event to its line.
ghost use Rattle.std.specs.Prelude.{◌≡◌, option_map, IfOk, OnOk};
ghost use Rattle.fax_jobs.specs.ReportTexts.{resolution_name};
ghost use Rattle.fax_control.specs.events.Events.{Adds, cause_members, detail_members, event_line, fault_members, fault_name, format_members, line_members, refusal_members, refusal_name, row_members, number_member, tag_member, text_member, try_members, what_members};

use crate::Leg;
use crate::events::event::{
    AskedJob, Direction, Ending, Event, PageAside, PageConfirmed, UndeliveredJob, What,
};
use fax_answer::Refusal;
use fax_bits::NoMemory;
use fax_jobs::Report;
use fax_pagestore::{Format, PageFault};
use json::Writer;
use std::alloc::{AllocError, Global};

/// The line of an event, its line feed with it: a JSON object of one line.
pub fn write_event(alloc: Global, event: &Event<'_>) -> Result<Vec<u8>, NoMemory>
    ensures { IfOk result (λ line. line.items ≡ event_line event.now) }
{
    let mut writer = Writer::new(Vec::new(alloc));
    writer.begin_object()?;
    put_text(&mut writer, "event", event.what.name())?;
    put_line(&mut writer, event.line)?;
    put_number(&mut writer, "at", event.at)?;
    put_what(&mut writer, &event.what)?;
    writer.end_object()?;
    let mut line = writer.into_inner();
    line.push(b'\n')?;
    Ok(line)
}

/// Writes a member whose value is a text.
fn put_text(writer: &mut Writer, name: &str, text: &str) -> Result<(), AllocError>
    ensures { OnOk result (Adds writer.old writer.new (text_member name.now text.now)) }
{
    writer.key(name)?;
    writer.string(text)
}

/// Writes the line that something happened on, where it is one.
fn put_line(writer: &mut Writer, line: Option<&str>) -> Result<(), AllocError>
    ensures { OnOk result (Adds writer.old writer.new (line_members (option_map
        (λ text. text.now) line.entry))) }
{
    match line {
        Some(name) => put_text(writer, "line", name),
        None => Ok(()),
    }
}

/// Writes a member whose value is a number.
fn put_number(writer: &mut Writer, name: &str, number: u64) -> Result<(), AllocError>
    ensures { OnOk result (Adds writer.old writer.new (number_member name.now number)) }
{
    writer.key(name)?;
    writer.u64(number)
}

/// Writes the tag of a call.
fn put_tag(writer: &mut Writer, tag: Option<&str>) -> Result<(), AllocError>
    ensures { OnOk result (Adds writer.old writer.new (tag_member (option_map
        (λ text. text.now) tag.entry))) }
{
    writer.key("tag")?;
    match tag {
        Some(text) => writer.string(text),
        None => writer.null(),
    }
}

/// Writes the format of a page.
fn put_format(writer: &mut Writer, format: Format) -> Result<(), AllocError>
    ensures { OnOk result (Adds writer.old writer.new (format_members format)) }
{
    put_number(writer, "width", u64::from(format.width.elements()))?;
    put_text(writer, "resolution", resolution(format.fine))
}

/// The name of a resolution.
fn resolution(fine: bool) -> &'static str
    ensures { result.now ≡ resolution_name fine }
{
    if fine { "fine" } else { "standard" }
}

/// The name of a fault of a page.
fn name_of(fault: PageFault) -> &'static str
    ensures { result.now ≡ fault_name fault }
{
    match fault {
        PageFault::NoEol => "NoEol",
        PageFault::BadLine(_) => "BadLine",
        PageFault::NoRtc => "NoRtc",
        PageFault::Empty => "Empty",
        PageFault::TooManyRows => "TooManyRows",
        PageFault::NoMemory => "NoMemory",
    }
}

/// The name of a reason for which a page is refused.
fn name_of_refusal(why: Refusal) -> &'static str
    ensures { result.now ≡ refusal_name why }
{
    match why {
        Refusal::Fault(fault) => name_of(fault),
        Refusal::NotWhole => "NotWhole",
        Refusal::GapAfter => "GapAfter",
        Refusal::SeveralImages => "SeveralImages",
        Refusal::NoImage => "NoImage",
        Refusal::Untrained => "Untrained",
    }
}

/// Writes after how many rows a fault is met, where it is a line.
fn put_row(writer: &mut Writer, fault: PageFault) -> Result<(), AllocError>
    ensures { OnOk result (Adds writer.old writer.new (row_members fault)) }
{
    match fault {
        PageFault::BadLine(row) => put_number(writer, "row", u64::from(row)),
        _ => Ok(()),
    }
}

/// Writes the number of a fault, and its row.
fn put_fault(writer: &mut Writer, fault: PageFault) -> Result<(), AllocError>
    ensures { OnOk result (Adds writer.old writer.new (fault_members fault)) }
{
    put_number(writer, "fault_number", u64::from(fault.number()))?;
    put_row(writer, fault)
}

/// Writes more of a reason, where it is a fault.
fn put_detail(writer: &mut Writer, why: Refusal) -> Result<(), AllocError>
    ensures { OnOk result (Adds writer.old writer.new (detail_members why)) }
{
    match why {
        Refusal::Fault(fault) => put_fault(writer, fault),
        _ => Ok(()),
    }
}

/// Writes why a page is refused.
fn put_refusal(writer: &mut Writer, why: Refusal) -> Result<(), AllocError>
    ensures { OnOk result (Adds writer.old writer.new (refusal_members why)) }
{
    put_text(writer, "fault", name_of_refusal(why))?;
    put_detail(writer, why)
}

/// Writes what is told of a page that was refused.
fn put_refused_page(
    writer: &mut Writer,
    call: u32,
    tag: Option<&str>,
    why: Refusal,
) -> Result<(), AllocError>
    ensures { OnOk result
        (Adds writer.old writer.new (what_members (What.RefusedPage call tag.entry why))) }
{
    put_number(writer, "call", u64::from(call))?;
    put_tag(writer, tag)?;
    put_refusal(writer, why)
}

/// Writes what is told of a page that was confirmed.
fn put_page(writer: &mut Writer, page: PageConfirmed, tag: Option<&str>) -> Result<(), AllocError>
    ensures { OnOk result (Adds writer.old writer.new (what_members (What.Page page tag.entry))) }
{
    put_number(writer, "call", u64::from(page.call))?;
    put_tag(writer, tag)?;
    put_number(writer, "number", u64::from(page.number))?;
    put_format(writer, page.format)?;
    put_number(writer, "rows", u64::from(page.rows))
}

/// Writes what is told of a call that ended.
fn put_ended(
    writer: &mut Writer,
    call: u32,
    tag: Option<&str>,
    how: Ending,
) -> Result<(), AllocError>
    ensures { OnOk result
        (Adds writer.old writer.new (what_members (What.Ended call tag.entry how))) }
{
    put_number(writer, "call", u64::from(call))?;
    put_tag(writer, tag)?;
    put_text(writer, "how", how.name())
}

/// Writes what is told of a job whose call is asked for.
fn put_asked(writer: &mut Writer, asked: AskedJob, tag: Option<&str>) -> Result<(), AllocError>
    ensures { OnOk result (Adds writer.old writer.new (what_members (What.Asked asked tag.entry))) }
{
    put_number(writer, "call", u64::from(asked.call))?;
    put_tag(writer, tag)?;
    put_number(writer, "try", u64::from(asked.tries))?;
    put_number(writer, "pages", u64::from(asked.pages))?;
    put_number(writer, "seconds", u64::from(asked.seconds))
}

/// Writes for what cause a call was not placed, where there is one.
fn put_cause(writer: &mut Writer, cause: Option<&str>) -> Result<(), AllocError>
    ensures { OnOk result (Adds writer.old writer.new (cause_members (option_map
        (λ text. text.now) cause.entry))) }
{
    match cause {
        Some(text) => put_text(writer, "cause", text),
        None => Ok(()),
    }
}

/// Writes what is told of a job that ended.
fn put_job(
    writer: &mut Writer,
    report: Report,
    tag: Option<&str>,
    cause: Option<&str>,
) -> Result<(), AllocError>
    ensures { OnOk result
        (Adds writer.old writer.new (what_members (What.Job report tag.entry cause.entry))) }
{
    put_number(writer, "call", u64::from(report.call))?;
    put_tag(writer, tag)?;
    put_format(writer, report.format)?;
    put_number(writer, "pages", u64::from(report.pages))?;
    put_number(writer, "delivered", u64::from(report.delivered))?;
    put_text(writer, "outcome", report.outcome.name())?;
    put_cause(writer, cause)
}

/// Writes for what cause a job's call was not placed last, how often it was tried, and when it ended last.
fn put_tries(
    writer: &mut Writer,
    cause: Option<&str>,
    tries: u32,
    last: u64,
) -> Result<(), AllocError>
    ensures { OnOk result (Adds writer.old writer.new (try_members (option_map
        (λ text. text.now) cause.entry) tries last)) }
{
    put_cause(writer, cause)?;
    put_number(writer, "tries", u64::from(tries))?;
    put_number(writer, "last", last)
}

/// Writes what is told of a job that could not be delivered.
fn put_undelivered(
    writer: &mut Writer,
    job: UndeliveredJob,
    tag: Option<&str>,
    cause: Option<&str>,
) -> Result<(), AllocError>
    ensures { OnOk result
        (Adds writer.old writer.new (what_members (What.Undelivered job tag.entry cause.entry))) }
{
    put_number(writer, "life", u64::from(job.life))?;
    put_number(writer, "call", u64::from(job.call))?;
    put_tag(writer, tag)?;
    put_number(writer, "pages", u64::from(job.pages))?;
    put_text(writer, "outcome", job.outcome.name())?;
    put_tries(writer, cause, job.tries, job.at)
}

/// Writes what is told of a job whose pages were dropped.
fn put_discarded(
    writer: &mut Writer,
    life: u32,
    call: u32,
    tag: Option<&str>,
) -> Result<(), AllocError>
    ensures { OnOk result
        (Adds writer.old writer.new (what_members (What.Discarded life call tag.entry))) }
{
    put_number(writer, "life", u64::from(life))?;
    put_number(writer, "call", u64::from(call))?;
    put_tag(writer, tag)
}

/// Writes what is told of receives or sends that fail.
fn put_wire(
    writer: &mut Writer,
    leg: Leg,
    direction: Direction,
    count: u64,
) -> Result<(), AllocError>
    ensures { OnOk result
        (Adds writer.old writer.new (what_members (What.Wire leg direction count))) }
{
    put_text(writer, "leg", leg.name())?;
    put_text(writer, "direction", direction.name())?;
    put_number(writer, "failures", count)
}

/// Writes what is told of a page that is not sent.
fn put_aside(writer: &mut Writer, page: PageAside, tag: Option<&str>) -> Result<(), AllocError>
    ensures { OnOk result
        (Adds writer.old writer.new (what_members (What.SetAside page tag.entry))) }
{
    put_number(writer, "life", u64::from(page.life))?;
    put_number(writer, "call", u64::from(page.call))?;
    put_tag(writer, tag)?;
    put_number(writer, "number", u64::from(page.number))?;
    put_text(writer, "why", page.why.name())
}

/// Writes what an event tells beside its name, its line and its moment.
fn put_what(writer: &mut Writer, what: &What<'_>) -> Result<(), AllocError>
    ensures { OnOk result (Adds writer.old writer.new (what_members what.now)) }
{
    match *what {
        What::Rung(call, tag)
        | What::Dial(call, tag)
        | What::Connected(call, tag)
        | What::NotStored(call, tag) => {
            put_number(writer, "call", u64::from(call))?;
            put_tag(writer, tag)
        }
        What::Asked(asked, tag) => put_asked(writer, asked, tag),
        What::Page(page, tag) => put_page(writer, page, tag),
        What::RefusedPage(call, tag, why) => put_refused_page(writer, call, tag, why),
        What::Ended(call, tag, how) => put_ended(writer, call, tag, how),
        What::Job(report, tag, cause) => put_job(writer, report, tag, cause),
        What::Undelivered(job, tag, cause) => put_undelivered(writer, job, tag, cause),
        What::Discarded(life, call, tag) => put_discarded(writer, life, call, tag),
        What::Wire(leg, direction, count) => put_wire(writer, leg, direction, count),
        What::Late(span) => put_number(writer, "ms", span),
        What::Full(call) => put_number(writer, "call", u64::from(call)),
        What::SetAside(page, tag) => put_aside(writer, page, tag),
        What::Damaged(records, octets) => {
            put_number(writer, "records", records)?;
            put_number(writer, "octets", octets)
        }
        What::Frame(lane, words) => {
            put_text(writer, "lane", lane)?;
            put_text(writer, "text", words)
        }
        What::SpoolFailed => Ok(()),
    }
}
