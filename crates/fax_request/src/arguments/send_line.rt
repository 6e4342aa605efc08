//! The command line of `faxgate send`.
use crate::arguments::building::{Argument, CommandLine, Need, Shape};
use crate::arguments::options::{CODING, PREAMBLE, REDUNDANCY, REPEAT, WIDTH};

/// The command line of `faxgate send`.
pub(crate) const SEND: CommandLine = CommandLine {
    name: "send",
    about: "Call a T.38 machine over UDP and send it the pages in files, as a machine does, and print how the call ended: job, call, width, resolution, pages, pages delivered, outcome",
    after: LINES_AND_STATUSES,
    arguments: &[
        CALLED, LOCAL, WIDTH, CODING, FINE, REDUNDANCY, PREAMBLE, REPEAT, FILE,
    ],
};

/// The option of the machine that is called.
const CALLED: Argument = Argument {
    name: "to",
    shape: Shape::Option("ADDRESS"),
    help: "The machine that is called, as 192.0.2.10:6000",
    values: None,
    need: Need::Required,
};

/// The option of the address from which it is called.
const LOCAL: Argument = Argument {
    name: "on",
    shape: Shape::Option("ADDRESS"),
    help: "The address from which it is called [default: any]",
    values: None,
    need: Need::Free,
};

/// The option of the resolution.
const FINE: Argument = Argument {
    name: "fine",
    shape: Shape::Flag,
    help: "The fine resolution, of pictures too; a TIFF says its own",
    values: None,
    need: Need::Free,
};

/// The words that name files.
const FILE: Argument = Argument {
    name: "file",
    shape: Shape::Words("FILE"),
    help: "Pages: a TIFF of class F, of one or many; or a picture (PBM) of 1728, 2048 or 2432 elements a row; or the octets of a page as hex text, of that width and coding",
    values: None,
    need: Need::Required,
};

const LINES_AND_STATUSES: &str = "\
Reads:
  Each file, whole, before the call, and its first octets tell what it is: at most 16,777,216 octets a file, 999 pages.

Prints:
  job CALL WIDTH standard|fine PAGES DELIVERED OUTCOME
     the call has ended: so many pages, so many of them delivered; faxgate trace --help has the outcomes
Where the standard error is a terminal, it has a line for each page that was delivered.

Statuses:
  0  all pages were delivered
  1  a file has no page, or there are more than 999 pages
  2  the command line was refused
  3  memory was wanted and refused
  4  a file could not be read, an address or a socket failed, or the output
  5  the call ended, and not all pages were delivered
The standard error tells each but 0 in one line.";
