//! The page for an operator.
ghost use Rattle.std.specs.Prelude.{◌≡◌, ◌++◌, IfOk, OnOk};
ghost use Rattle.std.specs.List.{flat_map};
ghost use Rattle.fax_http.specs.Pages.{count_row, counts_part, delivered_cell, ill_part, job_row, jobs_part, jobs_table, line_row, lines_part, lines_table, page_octets, shown_jobs, shown_lines, state_part};

use crate::cells::{
    put_call_cell, put_called, put_calling, put_name, put_number_cell, put_text_cell,
};
use crate::health::{Health, put_if};
use crate::text::{put, put_number};
use crate::undelivered::put_undelivered;
use crate::view::{CountView, JobView, LineView, PageView};
use std::alloc::{AllocError, Global};

/// What stands before how the server is. A browser loads the page again each 5 s; it has no script and takes nothing from elsewhere.
const TOP: &[u8] = b"<!DOCTYPE html>\n\
<html lang=\"en\">\n\
<head>\n\
<meta charset=\"utf-8\">\n\
<meta name=\"viewport\" content=\"width=device-width, initial-scale=1\">\n\
<meta http-equiv=\"refresh\" content=\"5\">\n\
<title>faxgate</title>\n\
<link rel=\"icon\" href=\"data:,\">\n\
<style>\n\
:root { color-scheme: light dark; }\n\
body { font: 1rem/1.5 system-ui, sans-serif; max-width: 75rem; margin: 0 auto; padding: 1rem; color: #1a1a1a; background: #fff; }\n\
h1, p, ul { margin: .5rem 0; }\n\
h2 { margin: 1.5rem 0 .5rem; font-size: 1.25rem; }\n\
.wide { overflow-x: auto; }\n\
table { border-collapse: collapse; width: 100%; }\n\
th, td { text-align: left; vertical-align: top; padding: .25rem .75rem .25rem 0; border-bottom: 1px solid #888; overflow-wrap: break-word; }\n\
td { min-width: 7rem; overflow-wrap: anywhere; }\n\
article { display: flex; flex-wrap: wrap; gap: 1rem; padding: .75rem 0; border-bottom: 1px solid #888; }\n\
article div { flex: 1 1 18rem; min-width: 0; overflow-wrap: anywhere; }\n\
h3 { margin: 0; font-size: 1rem; }\n\
img { width: 27rem; max-width: 100%; min-height: 9rem; object-fit: contain; object-position: top left; align-self: flex-start; background: #fff; border: 1px solid #888; }\n\
.number { min-width: 0; text-align: right; font-variant-numeric: tabular-nums; overflow-wrap: normal; }\n\
footer { margin-top: 1.5rem; }\n\
@media (prefers-color-scheme: dark) { body { color: #e8e8e8; background: #121212; } a { color: #9cf; } }\n\
</style>\n\
</head>\n\
<body>\n\
<header>\n\
<h1>faxgate</h1>\n";

/// How a server is on which nothing is wrong.
const WELL: &[u8] = b"<p><strong>Well.</strong></p>\n</header>\n<main>\n";

/// What stands before what is wrong, and after it.
const ILL: &[u8] = b"<p><strong>Not well:</strong></p>\n<ul>\n";

const ILL_END: &[u8] = b"</ul>\n</header>\n<main>\n";

/// What stands before the rows of lines, and after them.
const LINES: &[u8] =
    b"<section aria-labelledby=\"lines\">\n<h2 id=\"lines\">Lines with a call or a job</h2>\n<div class=\"wide\">\n<table>\n<thead><tr><th scope=\"col\">Line</th><th scope=\"col\">Calling leg</th><th scope=\"col\">Called leg</th><th scope=\"col\" class=\"number\">Jobs that wait</th></tr></thead>\n<tbody>\n";

const ROWS_END: &[u8] = b"</tbody>\n</table>\n</div>\n";

/// What stands in place of a table of no lines.
const NO_LINES: &[u8] =
    b"<section aria-labelledby=\"lines\">\n<h2 id=\"lines\">Lines with a call or a job</h2>\n<p>None.</p>\n";

/// What stands before the rows of jobs.
const JOBS: &[u8] =
    b"<section aria-labelledby=\"jobs\">\n<h2 id=\"jobs\">Last jobs</h2>\n<div class=\"wide\">\n<table>\n<thead><tr><th scope=\"col\">Line</th><th scope=\"col\">Pages of</th><th scope=\"col\">Delivered</th><th scope=\"col\">How it ended</th></tr></thead>\n<tbody>\n";

/// What stands in place of a table of no jobs.
const NO_JOBS: &[u8] =
    b"<section aria-labelledby=\"jobs\">\n<h2 id=\"jobs\">Last jobs</h2>\n<p>None.</p>\n";

const SECTION_END: &[u8] = b"</section>\n";

/// What stands before the rows of counts.
const COUNTS: &[u8] =
    b"<section aria-labelledby=\"counts\">\n<h2 id=\"counts\">Counts since the start</h2>\n<div class=\"wide\">\n<table>\n<thead><tr><th scope=\"col\">What</th><th scope=\"col\" class=\"number\">How many</th></tr></thead>\n<tbody>\n";

/// What stands after the counts.
const BOTTOM: &[u8] =
    b"</section>\n</main>\n<footer>\n<p><a href=\"/metrics\">Counts for a monitor</a>, <a href=\"/healthz\">whether it is well</a></p>\n</footer>\n</body>\n</html>\n";

/// The page for an operator, in HTML.
pub fn write_page(alloc: Global, view: &PageView<'_>) -> Result<Vec<u8>, AllocError>
    ensures { IfOk result (λ octets. octets.items ≡ page_octets view.now) }
{
    let mut octets = Vec::new(alloc);
    put_page(&mut octets, view)?;
    Ok(octets)
}

/// Adds the page.
fn put_page(octets: &mut Vec<u8>, view: &PageView<'_>) -> Result<(), AllocError>
    ensures { OnOk result (octets.new.items ≡ octets.old.items ++ page_octets view.now) }
{
    put(octets, TOP)?;
    put_state(octets, view.health)?;
    put_lines(octets, view.lines, view.others)?;
    put_jobs(octets, view.jobs)?;
    put_undelivered(octets, view.undelivered)?;
    put_counts(octets, view.counts)
}

/// Adds how the server is.
fn put_state(octets: &mut Vec<u8>, health: Health) -> Result<(), AllocError>
    ensures { OnOk result (octets.new.items ≡ octets.old.items ++ state_part health) }
{
    if health.is_well() {
        put(octets, WELL)
    } else {
        put_ill(octets, health)
    }
}

/// Adds what is wrong.
fn put_ill(octets: &mut Vec<u8>, health: Health) -> Result<(), AllocError>
    ensures { OnOk result (octets.new.items ≡ octets.old.items ++ ill_part health) }
{
    put(octets, ILL)?;
    put_if(
        octets,
        health.is_stopping,
        b"<li>it was told to stop</li>\n",
    )?;
    put_if(
        octets,
        health.has_failed_disk,
        b"<li>the spool's disk has failed</li>\n",
    )?;
    put_if(octets, health.is_late, b"<li>turns are late</li>\n")?;
    put(octets, ILL_END)
}

/// Adds the lines, and how many others there are.
fn put_lines(octets: &mut Vec<u8>, lines: &[LineView<'_>], others: u64) -> Result<(), AllocError>
    ensures { OnOk result (octets.new.items ≡ octets.old.items ++ lines_part lines.now others) }
{
    put_lines_table(octets, lines)?;
    put(octets, b"<p>Other lines: ")?;
    put_number(octets, others)?;
    put(octets, b".</p>\n</section>\n")
}

/// Adds the table of the lines.
fn put_lines_table(octets: &mut Vec<u8>, lines: &[LineView<'_>]) -> Result<(), AllocError>
    ensures { OnOk result (octets.new.items ≡ octets.old.items ++ lines_table lines.now) }
{
    if lines.is_empty() {
        put(octets, NO_LINES)
    } else {
        put_shown_lines(octets, lines)
    }
}

/// Adds the table of some lines.
fn put_shown_lines(octets: &mut Vec<u8>, lines: &[LineView<'_>]) -> Result<(), AllocError>
    ensures { OnOk result (octets.new.items ≡ octets.old.items ++ shown_lines lines.now) }
{
    put(octets, LINES)?;
    put_line_rows(octets, lines)?;
    put(octets, ROWS_END)
}

/// Adds a row for each line.
fn put_line_rows(octets: &mut Vec<u8>, lines: &[LineView<'_>]) -> Result<(), AllocError>
    ensures { OnOk result (octets.new.items ≡ octets.old.items ++ flat_map line_row lines.now) }
{
    for line in lines {
        put_line(octets, line)?;
    }
    Ok(())
}

/// Adds the row of a line.
fn put_line(octets: &mut Vec<u8>, line: &LineView<'_>) -> Result<(), AllocError>
    ensures { OnOk result (octets.new.items ≡ octets.old.items ++ line_row line.now) }
{
    put(octets, b"<tr>")?;
    put_name(octets, line.name)?;
    put_calling(octets, line.calling)?;
    put_called(octets, &line.called)?;
    put_number_cell(octets, line.waiting)?;
    put(octets, b"</tr>\n")
}

/// Adds the jobs that ended last.
fn put_jobs(octets: &mut Vec<u8>, jobs: &[JobView<'_>]) -> Result<(), AllocError>
    ensures { OnOk result (octets.new.items ≡ octets.old.items ++ jobs_part jobs.now) }
{
    put_jobs_table(octets, jobs)?;
    put(octets, SECTION_END)
}

/// Adds their table.
fn put_jobs_table(octets: &mut Vec<u8>, jobs: &[JobView<'_>]) -> Result<(), AllocError>
    ensures { OnOk result (octets.new.items ≡ octets.old.items ++ jobs_table jobs.now) }
{
    if jobs.is_empty() {
        put(octets, NO_JOBS)
    } else {
        put_shown_jobs(octets, jobs)
    }
}

/// Adds the table of some jobs.
fn put_shown_jobs(octets: &mut Vec<u8>, jobs: &[JobView<'_>]) -> Result<(), AllocError>
    ensures { OnOk result (octets.new.items ≡ octets.old.items ++ shown_jobs jobs.now) }
{
    put(octets, JOBS)?;
    put_job_rows(octets, jobs)?;
    put(octets, ROWS_END)
}

/// Adds a row for each job.
fn put_job_rows(octets: &mut Vec<u8>, jobs: &[JobView<'_>]) -> Result<(), AllocError>
    ensures { OnOk result (octets.new.items ≡ octets.old.items ++ flat_map job_row jobs.now) }
{
    for job in jobs {
        put_job(octets, job)?;
    }
    Ok(())
}

/// Adds the row of a job.
fn put_job(octets: &mut Vec<u8>, job: &JobView<'_>) -> Result<(), AllocError>
    ensures { OnOk result (octets.new.items ≡ octets.old.items ++ job_row job.now) }
{
    put(octets, b"<tr>")?;
    put_name(octets, job.line)?;
    put_call_cell(octets, b"", &job.call)?;
    put_delivered(octets, job.delivered, job.pages)?;
    put_text_cell(octets, job.outcome)?;
    put(octets, b"</tr>\n")
}

/// Adds the cell that says how many pages of a job were delivered.
fn put_delivered(octets: &mut Vec<u8>, delivered: u32, pages: u32) -> Result<(), AllocError>
    ensures { OnOk result (octets.new.items ≡ octets.old.items ++ delivered_cell delivered pages) }
{
    put(octets, b"<td>")?;
    put_number(octets, u64::from(delivered))?;
    put(octets, b" of ")?;
    put_number(octets, u64::from(pages))?;
    put(octets, b"</td>")
}

/// Adds the counts, and what stands after them.
fn put_counts(octets: &mut Vec<u8>, counts: &[CountView<'_>]) -> Result<(), AllocError>
    ensures { OnOk result (octets.new.items ≡ octets.old.items ++ counts_part counts.now) }
{
    put(octets, COUNTS)?;
    put_count_rows(octets, counts)?;
    put(octets, ROWS_END)?;
    put(octets, BOTTOM)
}

/// Adds a row for each count.
fn put_count_rows(octets: &mut Vec<u8>, counts: &[CountView<'_>]) -> Result<(), AllocError>
    ensures { OnOk result (octets.new.items ≡ octets.old.items ++ flat_map count_row counts.now) }
{
    for count in counts {
        put_count(octets, count)?;
    }
    Ok(())
}

/// Adds the row of a count.
fn put_count(octets: &mut Vec<u8>, count: &CountView<'_>) -> Result<(), AllocError>
    ensures { OnOk result (octets.new.items ≡ octets.old.items ++ count_row count.now) }
{
    put(octets, b"<tr>")?;
    put_name(octets, count.name)?;
    put_number_cell(octets, count.value)?;
    put(octets, b"</tr>\n")
}
