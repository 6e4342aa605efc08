//! The command line of `faxgate receive`.
use crate::arguments::building::{Argument, CommandLine, Need, Shape};
use crate::arguments::options::{PREAMBLE, REDUNDANCY, REPEAT};
use clap::builder::ValueParser;

/// The command line of `faxgate receive`.
pub(crate) const RECEIVE: CommandLine = CommandLine {
    name: "receive",
    about: "Answer calls of T.38 machines over UDP, one after another, as a machine does, and write each page that is confirmed as a picture (PBM) or as a TIFF, into a file that was not there",
    after: LINES_AND_STATUSES,
    arguments: &[LOCAL, PAGES, TIFF, CALLS, REDUNDANCY, PREAMBLE, REPEAT],
};

/// The option of the address at which calls come.
const LOCAL: Argument = Argument {
    name: "on",
    shape: Shape::Option("ADDRESS"),
    help: "The address at which calls come, as 0.0.0.0:6000",
    values: None,
    need: Need::Required,
};

/// The option of the names of files.
const PAGES: Argument = Argument {
    name: "pages",
    shape: Shape::Option("PREFIX"),
    help: "How the names of files begin: PREFIX-CALL-PAGE.pbm, calls from 0 on, pages from 1 on",
    values: None,
    need: Need::Default("page"),
};

/// The option of TIFFs.
const TIFF: Argument = Argument {
    name: "tiff",
    shape: Shape::Flag,
    help: "Write TIFFs of class F, PREFIX-CALL-PAGE.tif, each of one page, in place of pictures",
    values: None,
    need: Need::Free,
};

/// The option of how many calls are answered.
const CALLS: Argument = Argument {
    name: "calls",
    shape: Shape::Option("N"),
    help: "How many calls are answered [default: all]",
    values: Some(ValueParser::Unsigned(1, u64::MAX)),
    need: Need::Free,
};

const LINES_AND_STATUSES: &str = "\
Reads:
  Nothing but what comes on the line.

Prints:
  Nothing. Each page that is confirmed becomes a file. Where the standard error is a terminal, it has a line for each.

Statuses:
  0  so many calls were answered, whatever they brought
  2  the command line was refused
  3  memory was wanted and refused
  4  an address or a socket failed, or a page could not be written: it was not confirmed
The standard error tells each but 0 in one line.";
