//! `faxgate send` and `faxgate receive`.
ghost use Rattle.fax_gateway.specs.Setups.{AreAllowed};
ghost use Rattle.fax_send_receive.specs.Runs.{status_of_fault};
ghost use Rattle.fax_program.specs.Statuses.{IsToldAs, outcome_status};

use crate::console::Console;
use crate::failures::tell_unprinted;
use fax_command::Status;
use fax_jobs::{Outcome, Report};
use fax_send_receive::{ReceiveOptions, RunFault, SendOptions, Watch, run_receive, run_send};
use std::net::Net;
use std::rt::{Clock, Files};

/// Sends the pages in files, and prints how the call ended.
pub(crate) fn send<N: Net + Clock + Files>(
    console: &Console,
    system: &N,
    options: SendOptions<'_>,
    files: &[&str],
) -> Status
    requires { AreAllowed options.settings }
{
    let watch = Watch::new(console.errors());
    match run_send(system, &watch, console.alloc(), options, files) {
        Ok(report) => tell_report(console, options.to, report),
        Err(fault) => tell_fault(console, &fault),
    }
}

/// Answers calls, and writes the pages that are confirmed.
pub(crate) fn receive<N: Net + Clock + Files>(
    console: &Console,
    system: &N,
    options: ReceiveOptions<'_>,
) -> Status
    requires { AreAllowed options.settings }
{
    let watch = Watch::new(console.errors());
    match run_receive(system, &watch, console.alloc(), options) {
        Ok(()) => Status::Done,
        Err(fault) => tell_fault(console, &fault),
    }
}

/// Prints how the call of this address ended. Where not all pages were delivered, the standard error has a line too.
fn tell_report(console: &Console, to: &str, report: Report) -> Status
    ensures { IsToldAs (outcome_status report.outcome) result }
{
    if let Err(error) = console.println(report) {
        return tell_unprinted(console, error);
    }
    if report.outcome == Outcome::Delivered {
        return Status::Done;
    }
    let Report {
        pages,
        delivered,
        outcome,
        ..
    } = report;
    match console.eprintln(format_args!(
        "faxgate: {to}: {delivered} of {pages} pages were delivered: {outcome}"
    )) {
        Ok(()) => Status::Undelivered,
        Err(_) => Status::Stream,
    }
}

/// Tells in one line why a terminal did not run to its end, and gives the status that says it.
fn tell_fault(console: &Console, fault: &RunFault<'_>) -> Status
    ensures { IsToldAs (status_of_fault fault.now) result }
{
    match console.eprintln(format_args!("faxgate: {fault}")) {
        Ok(()) => fault.status(),
        Err(_) => Status::Stream,
    }
}
