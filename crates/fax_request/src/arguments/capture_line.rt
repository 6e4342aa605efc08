//! The command line of `faxgate capture`.
ghost use Rattle.std.specs.Prelude.{◌≡◌, ◌⊎◌, IfErr, IfOk};
ghost use Rattle.clap.specs.Words.{kind_of};

use crate::arguments::building::{Argument, CommandLine, Need, Shape, command_of};
use clap::builder::ValueParser;
use clap::error::ErrorKind;
use clap::{Command, Error};
use std::alloc::{AllocError, Global};

/// The command line of `faxgate capture`.
pub(crate) const CAPTURE: CommandLine = CommandLine {
    name: "capture",
    about: ABOUT,
    after: LINES_AND_STATUSES,
    arguments: &[CALLER, CALLED, CALL],
};

/// The option of the calling machine.
const CALLER: Argument = Argument {
    name: "caller",
    shape: Shape::Option("ADDRESS"),
    help: "Where the calling machine sends from: 192.0.2.10, 192.0.2.10:6000, 2001:db8::1 or [2001:db8::1]:6000; ::ffff:192.0.2.10 is 192.0.2.10 [default: who sends the first CNG, or is sent the first CED]",
    values: None,
    need: Need::Free,
};

/// The option of the called machine.
const CALLED: Argument = Argument {
    name: "called",
    shape: Shape::Option("ADDRESS"),
    help: "Where the called machine sends from [default: whom the caller's gateway calls first]",
    values: None,
    need: Need::Free,
};

/// The option of one call.
const CALL: Argument = Argument {
    name: "call",
    shape: Shape::Option("N"),
    help: "Only this call of the caller, counted from 1 [default: all]",
    values: Some(ValueParser::Unsigned(1, u64::MAX)),
    need: Need::Free,
};

/// The error of a text after this option of `faxgate capture` that says no address.
pub fn refused_address(alloc: Global, option: &str, text: &str) -> Error
    ensures { (kind_of result ≡ ErrorKind.ValueValidation)
        ⊎ (kind_of result ≡ ErrorKind.OutOfMemory) }
{
    match address_error(alloc, option, text) {
        Ok(error) | Err(error) => error,
    }
}

/// That error. An `Err` says that memory was wanted.
fn address_error(alloc: Global, option: &str, text: &str) -> Result<Error, Error>
    ensures ok { IfOk result (λ error. kind_of error ≡ ErrorKind.ValueValidation) }
    ensures err { IfErr result (λ error. kind_of error ≡ ErrorKind.OutOfMemory) }
{
    let message = format!(in alloc;
        "invalid value '{text}' for '--{option} <ADDRESS>': no address of a host, with a port or without"
    )?;
    capture_error(alloc, ErrorKind::ValueValidation, message.as_str())
}

/// The error of addresses of `faxgate capture` of which both mean one endpoint.
pub fn refused_machines(alloc: Global) -> Error
    ensures { (kind_of result ≡ ErrorKind.ValueValidation)
        ⊎ (kind_of result ≡ ErrorKind.OutOfMemory) }
{
    match capture_error(alloc, ErrorKind::ValueValidation, ONE_MACHINE) {
        Ok(error) | Err(error) => error,
    }
}

/// The error of one address of `faxgate capture` without the other one.
pub fn refused_half(alloc: Global) -> Error
    ensures { (kind_of result ≡ ErrorKind.ValueValidation)
        ⊎ (kind_of result ≡ ErrorKind.OutOfMemory) }
{
    match capture_error(alloc, ErrorKind::ValueValidation, HALF) {
        Ok(error) | Err(error) => error,
    }
}

/// An error of this kind, with this message. An `Err` says that memory was wanted.
fn capture_error(alloc: Global, kind: ErrorKind, message: &str) -> Result<Error, Error>
    ensures ok { IfOk result (λ error. kind_of error ≡ kind) }
    ensures err { IfErr result (λ error. kind_of error ≡ ErrorKind.OutOfMemory) }
{
    let mut command = named_command(alloc)?;
    Ok(command.error(kind, message)?)
}

/// The command with the name that its errors show.
fn named_command<'a>(alloc: Global) -> Result<Command<'a>, AllocError> {
    command_of(alloc, &CAPTURE)?.bin_name("faxgate capture")
}

const HALF: &str = "say both '--caller <ADDRESS>' and '--called <ADDRESS>', or neither";

const ONE_MACHINE: &str =
    "'--caller <ADDRESS>' and '--called <ADDRESS>' mean one machine: of one host, say both ports";

const ABOUT: &str =
    "Read a capture made at a gateway (pcap or pcapng), and print the script of its calls for faxgate trace: the rings, the datagrams of both machines at their ticks, and ticks until 40 s after the last";

const LINES_AND_STATUSES: &str = "\
Reads:
  A capture of any size, on the standard input. Only datagrams of the two machines matter, and only of them all octets have to
  be there. Of one that went in fragments each has to come after the one before it; else it is passed over, and counted on the
  standard error.

Prints:
  R       it rings: first, and where the caller's UDPTL numbers start over, or 60 s pass without a datagram of it
  T MS    a tick each 40 ms: T 0 is the moment of the first datagram that one of the two sent or was sent
  A HEX   a datagram that the caller sent, after the tick at or before it
  B HEX   a datagram that the called machine sent
Or one line of what is wrong.

Statuses:
  0  the script was printed
  1  the capture has none, and one line tells why: fault 1 NoCapture, 2 Cut, 3 Damaged, 4 NoAddress,
     5 TooLong or 6 NoCall
  2  the command line was refused
  3  memory was wanted and refused: fault memory
  4  a read or a write failed: the standard error tells which";
