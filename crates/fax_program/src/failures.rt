//! What failed where a run ends with status 4 or 5: one line on the standard error.
ghost use Rattle.std.specs.Prelude.{◌≡◌};
ghost use Rattle.fax_loop.specs.Answers.{ending_status};

use crate::console::Console;
use fax_command::{Status, StdSink, StdSource, StreamFault, fault_of_streams};
use fax_jobs::Outcome;
use fax_loop::Ending;
use std::fmt::Display;
use std::io;
use std::io::{Stdin, Stdout};

/// Tells what failed where a run over these streams ended with status 4, and gives the status.
pub(crate) fn tell_streams(
    console: &Console,
    status: u8,
    source: &StdSource<Stdin>,
    sink: &StdSink<Stdout>,
) -> u8
    ensures { result ≡ status }
{
    if status == Status::Stream.code()
        && let Some(fault) = fault_of_streams(source, sink)
    {
        tell(console, fault);
    }
    status
}

/// Tells what failed where a run of `faxgate loop` over these streams ended with status 4 or 5, and gives the status.
pub fn tell_loop(
    console: &Console,
    ending: Ending,
    source: &StdSource<Stdin>,
    sink: &StdSink<Stdout>,
) -> u8
    ensures { result ≡ ending_status ending }
{
    let status = ending.status().code();
    match ending {
        Ending::Reported(Outcome::Delivered) | Ending::Fault | Ending::NoMemory => {}
        Ending::Reported(outcome) => tell(
            console,
            format_args!("the page was not delivered: {outcome}"),
        ),
        Ending::Unreported => tell(console, "the page was not delivered: no report of the job"),
        Ending::Socket(error) => tell(console, format_args!("no socket of this host: {error}")),
        Ending::Stream => return tell_streams(console, status, source, sink),
    }
    status
}

/// Tells that the standard output failed, and gives the status that says it.
pub(crate) fn tell_unprinted(console: &Console, error: io::Error) -> Status
    ensures { result ≡ Status.Stream }
{
    tell(console, StreamFault::Unwritten(error));
    Status::Stream
}

/// Tells a failure in one line. Where the standard error fails too, it is not told.
pub(crate) fn tell<D: Display + Drop>(console: &Console, failure: D) {
    let _ = console.eprintln(format_args!("faxgate: {failure}"));
}
