//! From a job to its line.
ghost use Rattle.std.specs.Prelude.{◌≡◌, IfOk, OnOk, flat_map, option_map, string_bytes};
ghost use Rattle.std.specs.Str.Lossy.{utf8_lossy};
ghost use Rattle.fax_jobs.specs.ReportTexts.{resolution_name};
ghost use Rattle.fax_listing.specs.Lines.{Adds, format_members, job_line, job_members, number_member, tag_member, tag_shown, text_member};

use crate::job::SpooledJob;
use crate::shown::{text_of, write_shown};
use fax_pagestore::Format;
use json::Writer;
use std::alloc::{AllocError, Global};

/// The lines of some jobs, one after the other.
pub fn write_jobs(alloc: Global, jobs: &[SpooledJob<'_>]) -> Result<Vec<u8>, AllocError>
    ensures { IfOk result (λ text. text.items ≡ flat_map job_line jobs.now) }
{
    let mut text = Vec::new(alloc);
    for job in jobs {
        let line = write_job(alloc, job)?;
        text.extend_from_slice(line.as_slice())?;
    }
    Ok(text)
}

/// The line of a job, its line feed with it: a JSON object of one line, in ASCII.
pub fn write_job(alloc: Global, job: &SpooledJob<'_>) -> Result<Vec<u8>, AllocError>
    ensures { IfOk result (λ line. line.items ≡ job_line job.now) }
{
    let page = job.first;
    let name = String::from_utf8_lossy(alloc, page.line.as_slice())?;
    let mut writer = Writer::new(Vec::new(alloc));
    writer.begin_object()?;
    put_job(&mut writer, name.as_str(), job)?;
    writer.end_object()?;
    let object = writer.into_inner();
    let mut line = Vec::new(alloc);
    write_shown(&mut line, text_of(object.as_slice()))?;
    line.push(b'\n')?;
    Ok(line)
}

/// Writes the members of a job on the line of this name.
fn put_job(writer: &mut Writer, name: &str, job: &SpooledJob<'_>) -> Result<(), AllocError>
    ensures { OnOk result (Adds writer.old writer.new (job_members name.now job.now)) }
{
    let page = job.first;
    put_text(writer, "state", job.state.name())?;
    put_text(writer, "line", name)?;
    put_number(writer, "life", u64::from(page.life))?;
    put_number(writer, "call", u64::from(page.call))?;
    put_tag(writer, tag_shown(page.tag.as_slice()))?;
    put_number(writer, "first", u64::from(page.number))?;
    put_number(writer, "pages", job.pages as u64)?;
    put_format(writer, page.format)
}

/// A tag as text. `None`: none was given, or it is no text.
#[tactic(auto, using(crate::proofs::Tags::text_so, crate::proofs::Tags::empty_so, crate::proofs::Tags::no_text))]
fn tag_shown(tag: &[u8]) -> Option<&str>
    ensures { option_map (λ text. text.now) result ≡ tag_shown tag.now }
{
    match std::str::from_utf8(tag) {
        Ok(text) => { if text.is_empty() { None } else { Some(text) } }
        Err(_) => None,
    }
}

/// Writes a member whose value is a text.
fn put_text(writer: &mut Writer, name: &str, text: &str) -> Result<(), AllocError>
    ensures { OnOk result (Adds writer.old writer.new (text_member name.now text.now)) }
{
    writer.key(name)?;
    writer.string(text)
}

/// Writes a member whose value is a number.
fn put_number(writer: &mut Writer, name: &str, number: u64) -> Result<(), AllocError>
    ensures { OnOk result (Adds writer.old writer.new (number_member name.now number)) }
{
    writer.key(name)?;
    writer.u64(number)
}

/// Writes the tag of a call.
fn put_tag(writer: &mut Writer, tag: Option<&str>) -> Result<(), AllocError>
    ensures { OnOk result (Adds writer.old writer.new (tag_member (option_map
        (λ text. text.now) tag.entry))) }
{
    writer.key("tag")?;
    match tag {
        Some(text) => writer.string(text),
        None => writer.null(),
    }
}

/// Writes the format of a page.
fn put_format(writer: &mut Writer, format: Format) -> Result<(), AllocError>
    ensures { OnOk result (Adds writer.old writer.new (format_members format)) }
{
    put_number(writer, "width", u64::from(format.width.elements()))?;
    put_text(writer, "resolution", resolution(format.fine))
}

/// The name of a resolution.
fn resolution(fine: bool) -> &'static str
    ensures { result.now ≡ resolution_name fine }
{
    if fine { "fine" } else { "standard" }
}
