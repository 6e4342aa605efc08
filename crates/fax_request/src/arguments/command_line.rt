//! The command line of the program.
ghost use Rattle.std.specs.Prelude.{◌≡◌, ◌⊎◌, IfErr, IfOk};
ghost use Rattle.clap.specs.Words.{kind_of};

use crate::arguments::building::{CommandLine, command_of};
use crate::arguments::capture_line::CAPTURE;
use crate::arguments::check_line::CHECK;
use crate::arguments::explain_line::EXPLAIN;
use crate::arguments::loop_line::LOOP;
use crate::arguments::page_line::PAGE;
use crate::arguments::receive_line::RECEIVE;
use crate::arguments::say_line::SAY;
use crate::arguments::send_line::SEND;
use crate::arguments::serve_line::SERVE;
use crate::arguments::spool_line::SPOOL;
use crate::arguments::trace_line::TRACE;
use clap::error::ErrorKind;
use clap::{Command, Error};
use std::alloc::{AllocError, Global};

/// What `faxgate --version` prints after the name.
const VERSION: &str = "0.1.0";

/// What its help says first.
const ABOUT: &str =
    "Serves the lines of a fax gateway, lists what waits in its spool, reads and writes its pages, plays what came to one, from a capture too, sends a page through one, and sends and receives pages as a machine does";

/// The commands, in the order of the help: those that answer an input, and those that call and are called.
const COMMANDS: [&CommandLine; 11] = [
    &PAGE, &TRACE, &EXPLAIN, &CAPTURE, &LOOP, &SERVE, &CHECK, &SAY, &SPOOL, &SEND, &RECEIVE,
];

/// The command line of the program.
pub fn faxgate_command<'a>(alloc: Global) -> Result<Command<'a>, AllocError> {
    let mut faxgate = bare_command(alloc)?;
    for line in COMMANDS {
        let command = command_of(alloc, line)?;
        faxgate = faxgate.subcommand(command)?;
    }
    Ok(faxgate)
}

/// The same without its commands.
fn bare_command<'a>(alloc: Global) -> Result<Command<'a>, AllocError> {
    Command::new(alloc, "faxgate")
        .version(VERSION)
        .about(ABOUT)
        .subcommand_required(true)
        .bin_name("faxgate")
}

/// The error of words that name no command.
pub fn refused_command(alloc: Global) -> Error
    ensures { (kind_of result ≡ ErrorKind.MissingSubcommand)
        ⊎ (kind_of result ≡ ErrorKind.OutOfMemory) }
{
    match command_error(alloc) {
        Ok(error) | Err(error) => error,
    }
}

/// That error. An `Err` says that memory was wanted.
fn command_error(alloc: Global) -> Result<Error, Error>
    ensures ok { IfOk result (λ error. kind_of error ≡ ErrorKind.MissingSubcommand) }
    ensures err { IfErr result (λ error. kind_of error ≡ ErrorKind.OutOfMemory) }
{
    let mut command = faxgate_command(alloc)?;
    Ok(command.error(ErrorKind::MissingSubcommand, "no command")?)
}
