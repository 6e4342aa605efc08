//! What is asked for.
ghost use Rattle.std.specs.Prelude.{IfOk};
ghost use Rattle.clap.specs.Words.{found_of, rows_of, subcommand_rows_of};
ghost use Rattle.fax_request.specs.Requests.{Asks, IsAllowed, IsAskedBy};

use crate::arguments::{faxgate_command, refused_command};
use crate::capture_words::capture_options_of;
use crate::explain_options::{ExplainOptions, explain_options_of};
use crate::given::{script_settings_of, settings_of, text_of};
use crate::page_words::page_options_of;
use crate::say_words::saying_of;
use crate::spool_words::spool_options_of;
use crate::terminal_words::{receive_options_of, send_files_of, send_options_of};
use clap::{ArgMatches, Error};
use fax_capture::CaptureOptions;
use fax_command::PageOptions;
use fax_gateway::Settings;
use fax_listing::SpoolOptions;
use fax_say::Saying;
use fax_send_receive::{ReceiveOptions, SendOptions};
use std::alloc::Global;
use std::convert::AsStr;

/// What is asked for.
#[derive(Drop)]
pub enum Request<'a> {
    /// The rows of a page, or the page of rows.
    Page(PageOptions),
    /// What a gateway with these settings answers to a script.
    Trace(Settings),
    /// What happened in the call of a script.
    Explain(ExplainOptions<'a>),
    /// The script of captured calls.
    Capture(CaptureOptions),
    /// A page that goes through a gateway with these settings, over sockets.
    Loop(Settings),
    /// A server of the lines that the configuration at this path has.
    Serve(&'a str),
    /// What the configuration at this path says, and its server wants.
    Check(&'a str),
    /// A word that is said over the control socket at this path.
    Say(&'a str, Saying),
    /// What waits in a spool.
    Spool(SpoolOptions<'a>),
    /// A call of a machine, and the files whose pages are sent.
    Send(SendOptions<'a>, Vec<&'a str>),
    /// Calls that are answered.
    Receive(ReceiveOptions<'a>),
}

/// What the words of a command line ask for, of which the first is the program's name. An `Err` is the
/// help that was asked for, or what is wrong.
pub fn request_of<'a, S: AsStr>(alloc: Global, words: &'a [S]) -> Result<Request<'a>, Error>
    ensures { IfOk result IsAllowed }
{
    let found = faxgate_command(alloc)?.try_get_matches_from(words)?;
    request_in(alloc, &found)
}

/// What is asked for by what was found in a command line: a command, and the values of its options. An `Err` says what is wrong
/// with these.
pub fn request_in<'a>(alloc: Global, found: &ArgMatches<'a>) -> Result<Request<'a>, Error>
    ensures asked { IfOk result (IsAskedBy (subcommand_rows_of found.now)) }
    ensures allowed { IfOk result IsAllowed }
{
    match found.subcommand() {
        Some((command, given)) => request_by(alloc, command, given),
        None => Err(refused_command(alloc)),
    }
}

/// What is asked for by a command and the values of its options.
fn request_by<'a>(
    alloc: Global,
    command: &str,
    given: &ArgMatches<'a>,
) -> Result<Request<'a>, Error>
    ensures asked { IfOk result (Asks command.now (rows_of (found_of given.now))) }
{
    if command == "page" {
        Ok(Request::Page(page_options_of(given)))
    } else if command == "trace" {
        Ok(Request::Trace(script_settings_of(given)))
    } else if command == "explain" {
        Ok(Request::Explain(explain_options_of(given)))
    } else if command == "capture" {
        Ok(Request::Capture(capture_options_of(alloc, given)?))
    } else if command == "loop" {
        Ok(Request::Loop(settings_of(given)))
    } else if command == "serve" {
        Ok(Request::Serve(text_of(given, "config").unwrap_or("")))
    } else if command == "check" {
        Ok(Request::Check(text_of(given, "config").unwrap_or("")))
    } else if command == "say" {
        let socket = text_of(given, "socket").unwrap_or("");
        Ok(Request::Say(socket, saying_of(alloc, given)?))
    } else if command == "spool" {
        Ok(Request::Spool(spool_options_of(given)))
    } else if command == "send" {
        Ok(Request::Send(send_options_of(given), send_files_of(alloc, given)?))
    } else if command == "receive" {
        Ok(Request::Receive(receive_options_of(given)))
    } else {
        Err(refused_command(alloc))
    }
}
