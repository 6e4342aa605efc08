//! What is told where the words of the command line ask for nothing that is run.
ghost use Rattle.clap.specs.Words.{kind_of};
ghost use Rattle.fax_program.specs.Statuses.{IsToldAs, refusal_status};

use crate::console::Console;
use crate::failures::tell_unprinted;
use clap::error::ErrorKind;
use fax_command::Status;
use std::env::FillError;
use std::rt::Env;
use std::{io, str};

/// The most words of a command line that are looked at, and the most octets of one.
const MOST_WORDS: usize = 100_000;

const MOST_WORD: usize = 4_096;

/// Prints the help that was asked for, or why the command line is refused.
pub(crate) fn tell_refusal(console: &Console, error: &clap::Error) -> Status
    ensures { IsToldAs (refusal_status (kind_of error.now)) result }
{
    if error.kind() == ErrorKind::OutOfMemory {
        return tell_no_memory(console);
    }
    match error.print(console) {
        Ok(()) if error.use_stderr() => Status::Usage,
        Ok(()) => Status::Done,
        Err(_) if error.use_stderr() => Status::Stream,
        Err(failure) => tell_unprinted(console, failure),
    }
}

/// Prints why the words could not be read, and of one that is no UTF-8 which it is: 1 is the first after the program's name.
pub(crate) fn tell_unread_words<E: Env>(console: &Console, system: &E, error: io::Error) -> Status {
    if error.kind() == io::ErrorKind::OutOfMemory {
        return tell_no_memory(console);
    }
    let told = match unread_word(system) {
        Some(i) => console.eprintln(format_args!("faxgate: word {i} is no UTF-8")),
        None => console.eprintln(format_args!("faxgate: {error}")),
    };
    match told {
        Ok(()) => Status::Usage,
        Err(_) => Status::Stream,
    }
}

/// The place of the first word of the command line that is no UTF-8, of those of at most 4,096 octets.
fn unread_word<E: Env>(system: &E) -> Option<usize> {
    let mut octets = [0; MOST_WORD];
    for i in 0..MOST_WORDS {
        match system.arg(i, &mut octets) {
            Ok(length) if str::from_utf8(&octets[..length]).is_err() => return Some(i),
            Ok(_) | Err(FillError::TooLong) => {}
            Err(FillError::NotPresent) => return None,
        }
    }
    None
}

/// Prints that memory was wanted and refused.
pub(crate) fn tell_no_memory(console: &Console) -> Status
    ensures { IsToldAs Status.NoMemory result }
{
    match console.print("fault memory\n") {
        Ok(()) => Status::NoMemory,
        Err(failure) => tell_unprinted(console, failure),
    }
}
