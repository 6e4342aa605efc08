//! `faxgate page` prints the rows of a page (ITU-T T.4), or the page of rows; `faxgate trace` prints what a gateway
//! answers to a script of what came to it, and `faxgate explain` what happened in it; `faxgate capture` prints the script of
//! a captured call; `faxgate loop` sends a page through a gateway, over sockets of this host; `faxgate serve` serves the lines
//! of a configuration, and `faxgate say` says a word to such a server; `faxgate send` and `faxgate receive` send and receive pages as a machine does.
#![tactic(auto)]

use fax_program::{Console, RunOutcome, run_words};
use sqlite_disk::Unknown;
use std::process::ExitCode;

fn main(rt: HostRuntime) -> ExitCode {
    let console = Console::new(rt.stdin(), rt.stdout(), rt.stderr(), rt.alloc());
    let mut service = match run_words(&console, &rt) {
        RunOutcome::Ends(status) => return ExitCode::from(status),
        RunOutcome::Serves(service) => service,
    };
    for _ in 0..u64::MAX {
        // Each run opens its spool with values of its own.
        if let Some(status) = service.run(&console, &rt, Unknown, Unknown) {
            return ExitCode::from(status);
        }
    }
    ExitCode::SUCCESS
}
