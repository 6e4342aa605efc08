//! The command line of `faxgate say`.
ghost use Rattle.std.specs.Prelude.{◌≡◌, ◌⊎◌, IfErr, IfOk};
ghost use Rattle.clap.specs.Words.{kind_of};

use crate::arguments::building::{Argument, CommandLine, Need, Shape, command_of};
use clap::error::ErrorKind;
use clap::{Command, Error};
use std::alloc::{AllocError, Global};

/// The command line of `faxgate say`.
pub(crate) const SAY: CommandLine = CommandLine {
    name: "say",
    about: "Say one control word to a running faxgate serve, over its control socket, and print the answer",
    after: ANSWERS_AND_STATUSES,
    arguments: &[SOCKET, CONTROL_WORDS],
};

/// The word that names the socket.
const SOCKET: Argument = Argument {
    name: "socket",
    shape: Shape::Word("SOCKET"),
    help: "The path of the control socket, as the configuration of the server has it",
    values: None,
    need: Need::Required,
};

/// The words that are said.
const CONTROL_WORDS: Argument = Argument {
    name: "word",
    shape: Shape::Words("WORD"),
    help: "The control word and what belongs to it, as in: ring a1 call-7",
    values: None,
    need: Need::Required,
};

/// The error of words that `faxgate say` cannot say.
pub fn refused_words(alloc: Global, why: &str) -> Error
    ensures { (kind_of result ≡ ErrorKind.ValueValidation)
        ⊎ (kind_of result ≡ ErrorKind.OutOfMemory) }
{
    match words_error(alloc, why) {
        Ok(error) | Err(error) => error,
    }
}

/// That error. An `Err` says that memory was wanted.
fn words_error(alloc: Global, why: &str) -> Result<Error, Error>
    ensures ok { IfOk result (λ error. kind_of error ≡ ErrorKind.ValueValidation) }
    ensures err { IfErr result (λ error. kind_of error ≡ ErrorKind.OutOfMemory) }
{
    let message = format!(in alloc; "invalid value for '<WORD>...': {why}")?;
    let mut command = named_command(alloc)?;
    Ok(command.error(ErrorKind::ValueValidation, message.as_str())?)
}

/// The command with the name that its errors show.
fn named_command<'a>(alloc: Global) -> Result<Command<'a>, AllocError> {
    command_of(alloc, &SAY)?.bin_name("faxgate say")
}

const ANSWERS_AND_STATUSES: &str = "\
Says:
  The words, with one space between, as one line of at most 256 octets. faxgate serve --help has those that are known; what is
  none the server refuses.

Prints:
  The lines of the answer as they come, up to the last one: ok .., refused NUMBER NAME, or # EOF after counts. After the ok
  of two words it goes on:
  stop    it waits until the server is gone
  events  it prints the events, until the server is gone or it is ended itself

Statuses:
  0  the word was done
  1  it was refused, and the last line says why
  2  the command line was refused
  3  memory was wanted and refused: fault memory
  4  nobody serves on the socket, it was closed before the end of an answer, or a read or a write failed: the standard error
     tells which";
