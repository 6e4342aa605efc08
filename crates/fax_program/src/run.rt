//! A run of the program.
ghost use Rattle.fax_request.specs.Requests.{IsAllowed};

use crate::console::Console;
use crate::looking::look_into_spool;
use crate::refusals::{tell_refusal, tell_unread_words};
use crate::saying::say_word;
use crate::serving::{Service, check, service_of};
use crate::streams::{answer_capture, answer_explain, answer_loop, answer_page, answer_trace};
use crate::terminals::{receive, send};
use fax_request::{Request, request_of};
use std::alloc::Global;
use std::net::Net;
use std::rt::{Clock, Env, Files};
use std::{env, io};

/// What a run of the program comes to.
#[derive(Drop)]
pub enum RunOutcome {
    /// The process ends with this exit status.
    Ends(u8),
    /// These lines are to be served (`Service::run`).
    Serves(Service),
}

/// Does what the words of the command line ask for. These, sockets, files and the clock are those of the system. No contract says what
/// words it has, or what streams bring and take; what a command answers is told by `run_page` and its kin.
pub fn run_words<N: Net + Files + Clock + Env + AllocGlobal>(
    console: &Console,
    system: &N,
) -> RunOutcome {
    let words = match words_of(system, console.alloc()) {
        Ok(words) => words,
        Err(error) => return RunOutcome::Ends(tell_unread_words(console, system, error).code()),
    };
    match request_of(console.alloc(), words.as_slice()) {
        Ok(request) => run_request(console, system, request),
        Err(error) => RunOutcome::Ends(tell_refusal(console, &error).code()),
    }
}

/// The words of the command line.
fn words_of<E: Env + AllocGlobal>(system: &E, alloc: Global) -> io::Result<Vec<String>> {
    Ok(env::args(system)?.collect(alloc)?)
}

/// Does what is asked for.
fn run_request<N: Net + Files + Clock + Env + AllocGlobal>(
    console: &Console,
    system: &N,
    request: Request<'_>,
) -> RunOutcome
    requires { IsAllowed request }
{
    let status = match request {
        Request::Page(options) => answer_page(console, options),
        Request::Trace(settings) => answer_trace(console, settings),
        Request::Explain(options) => answer_explain(console, system, options),
        Request::Capture(options) => answer_capture(console, options),
        Request::Loop(settings) => answer_loop(console, system, settings),
        Request::Serve(path) => match service_of(console, system, path) {
            Ok(service) => return RunOutcome::Serves(service),
            Err(status) => status.code(),
        },
        Request::Check(path) => check(console, system, path).code(),
        Request::Say(path, saying) => say_word(console, system, path, &saying).code(),
        Request::Spool(options) => look_into_spool(console, system, options).code(),
        Request::Send(options, files) => send(console, system, options, files.as_slice()).code(),
        Request::Receive(options) => receive(console, system, options).code(),
    };
    RunOutcome::Ends(status)
}
