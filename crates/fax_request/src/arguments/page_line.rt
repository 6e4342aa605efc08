//! The command line of `faxgate page`.
use crate::arguments::building::{Argument, CommandLine, Need, Shape};
use crate::arguments::options::{CODING, WIDTH};
use clap::builder::ValueParser;

/// The command line of `faxgate page`.
pub(crate) const PAGE: CommandLine = CommandLine {
    name: "page",
    about: "Read the octets of a page as hex text, and print each row as a line of run lengths, white first",
    after: LINES_AND_STATUSES,
    arguments: &[WIDTH, CODING, FINE, LEAST, BACK, PICTURE],
};

/// The option of the resolution.
const FINE: Argument = Argument {
    name: "fine",
    shape: Shape::Flag,
    help: "The fine resolution: with --back and mr, one line of 4 is one-dimensional, in place of one of 2",
    values: None,
    need: Need::Free,
};

/// The option of the least bits of a line.
const LEAST: Argument = Argument {
    name: "least",
    shape: Shape::Option("BITS"),
    help: "With --back, the least bits of a line, its fill and EOL included",
    values: Some(ValueParser::Unsigned(0, 65_535)),
    need: Need::Default("0"),
};

/// The option of the way back.
const BACK: Argument = Argument {
    name: "back",
    shape: Shape::Flag,
    help: "Read lines of run lengths, and print the octets of their page as hex text",
    values: None,
    need: Need::Free,
};

/// The option of pictures.
const PICTURE: Argument = Argument {
    name: "pbm",
    shape: Shape::Flag,
    help: "Write the page as a picture, a PBM",
    values: None,
    need: Need::Without("back"),
};

const LINES_AND_STATUSES: &str = "\
Reads:
  The octets of a page as hex text, of either case, white space passed over; with --back the lines that are printed of rows.
  At most 16,777,216 octets.

Prints:
  0 3 1725      a line for each row: the lengths of its runs, white first
  P4 ..         with --pbm: the picture in place of these lines
  0014d9a8..    with --back: a line of the octets of the page, in hex
Or one line of what is wrong:
  fault 1 NoEol, fault 2 BadLine ROWS, fault 3 NoRtc, fault 4 Empty, fault 5 TooManyRows, fault hex
  fault row N   with --back: line N, from 0, is not what is printed of a row
  fault memory  memory was wanted and refused

Statuses:
  0  the page was printed
  1  the input has a fault, and its line was printed
  2  the command line was refused
  3  memory was wanted and refused: fault memory
  4  a read or a write failed, or the input is too long: the standard error tells which";
