//! The commands that answer an input: over the streams of the process.
ghost use Rattle.fax_gateway.specs.Setups.{AreAllowed};

use crate::captures::tell_counts;
use crate::console::Console;
use crate::failures::{tell_loop, tell_streams};
use crate::pictures::Pictures;
use fax_capture::{CaptureOptions, run_capture};
use fax_command::{PageOptions, Sink, Source, StdSink, StdSource, run_page};
use fax_explain::{NoPages, run_explain};
use fax_gateway::Settings;
use fax_loop::{Loopback, SocketLines, play_loop};
use fax_request::ExplainOptions;
use fax_trace::run_trace;
use std::io;
use std::net::Net;
use std::rt::Files;

/// Runs `faxgate page`.
pub(crate) fn answer_page(console: &Console, options: PageOptions) -> u8 {
    let mut source = StdSource::new(console.input());
    let mut sink = StdSink::new(console.output());
    let status = run_page(console.alloc(), &mut source, &mut sink, options);
    tell_streams(console, status, &source, &sink)
}

/// Runs `faxgate trace`.
pub(crate) fn answer_trace(console: &Console, settings: Settings) -> u8
    requires { AreAllowed settings }
{
    let mut source = StdSource::new(console.input());
    let mut sink = StdSink::new(console.output());
    let status = run_trace(console.alloc(), &mut source, &mut sink, settings);
    tell_streams(console, status, &source, &sink)
}

/// Runs `faxgate explain`. A picture that is not written is told.
pub(crate) fn answer_explain<H: Files>(
    console: &Console,
    host: &H,
    options: ExplainOptions<'_>,
) -> u8
    requires { AreAllowed options.settings }
{
    let mut source = StdSource::new(console.input());
    let mut sink = StdSink::new(console.output());
    let status = explain(console, host, &mut source, &mut sink, options);
    tell_streams(console, status, &source, &sink)
}

/// Explains the script of a source, with pictures of the pages or without.
fn explain<H: Files, I: Source, O: Sink>(
    console: &Console,
    host: &H,
    source: &mut I,
    sink: &mut O,
    options: ExplainOptions<'_>,
) -> u8
    requires { AreAllowed options.settings }
{
    match options.pages {
        Some(prefix) => {
            let mut pictures = Pictures::new(console, host, console.alloc(), prefix);
            run_explain(
                console.alloc(),
                source,
                sink,
                &mut pictures,
                options.settings,
            )
        }
        None => run_explain(
            console.alloc(),
            source,
            sink,
            &mut NoPages,
            options.settings,
        ),
    }
}

/// Runs `faxgate capture`. An address of which nothing came is told, how many calls there are, and what was passed over.
pub(crate) fn answer_capture(console: &Console, options: CaptureOptions) -> u8 {
    let mut source = StdSource::new(console.input());
    let mut sink = StdSink::new(console.output());
    let run = run_capture(console.alloc(), &mut source, &mut sink, &options);
    if let Some(counts) = run.counts {
        tell_counts(console, options, counts);
    }
    tell_streams(console, run.status, &source, &sink)
}

/// Runs `faxgate loop`.
pub(crate) fn answer_loop<N: Net>(console: &Console, net: &N, settings: Settings) -> u8
    requires { AreAllowed settings }
{
    let mut source = StdSource::new(console.input());
    let mut sink = StdSink::new(console.output());
    let lines = SocketLines::over(Loopback::of(net));
    let ending = play_loop(&lines, console.alloc(), &mut source, &mut sink, settings);
    tell_loop(console, ending, &source, &sink)
}
