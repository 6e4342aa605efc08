//! The command line of `faxgate spool`.
use crate::arguments::building::{Argument, CommandLine, Need, Shape};
use clap::builder::ValueParser;

/// The greatest number of a life or a call.
const MOST: u64 = 0xffff_ffff;

/// The command line of `faxgate spool`.
pub(crate) const SPOOL: CommandLine = CommandLine {
    name: "spool",
    about: "List the jobs whose pages wait in the spool of a faxgate serve, beside it, and write pages that wait as pictures, or as one TIFF; nothing in the folder is changed",
    after: LINES_AND_STATUSES,
    arguments: &[PAGES, TIFF, FOLDER, LINE, LIFE, CALL],
};

/// The option of pictures.
const PAGES: Argument = Argument {
    name: "pages",
    shape: Shape::Option("PREFIX"),
    help: "Write each page as a picture, PREFIX-LINE-LIFE-CALL-NUMBER.pbm, into a file that was not there",
    values: None,
    need: Need::Free,
};

/// The option of one TIFF.
const TIFF: Argument = Argument {
    name: "tiff",
    shape: Shape::Option("FILE"),
    help: "Write the pages as one TIFF of class F, into a file that was not there",
    values: None,
    need: Need::Without("pages"),
};

/// The word that names the folder.
const FOLDER: Argument = Argument {
    name: "folder",
    shape: Shape::Word("FOLDER"),
    help: "The folder of the spool, as the configuration of the server has it",
    values: None,
    need: Need::Required,
};

/// The word that names the line of a job.
const LINE: Argument = Argument {
    name: "line",
    shape: Shape::Word("LINE"),
    help: "This job alone: the name of its line",
    values: None,
    need: Need::With("call"),
};

/// The word that is the life of a job.
const LIFE: Argument = Argument {
    name: "life",
    shape: Shape::Word("LIFE"),
    help: "The life of the process in which it came",
    values: Some(ValueParser::Unsigned(0, MOST)),
    need: Need::Free,
};

/// The word that is its call.
const CALL: Argument = Argument {
    name: "call",
    shape: Shape::Word("CALL"),
    help: "The number of its call in that life",
    values: Some(ValueParser::Unsigned(0, MOST)),
    need: Need::Free,
};

const LINES_AND_STATUSES: &str = "\
Reads:
  The files pages and pages-wal of the folder, whole; it takes no lock. What is being written meanwhile is not told.

Prints:
  {\"state\":\"waits\",\"line\":\"a1\",\"life\":2,\"call\":0,\"tag\":\"call-7\",\"first\":1,\"pages\":2,\"width\":1728,\"resolution\":\"fine\"}
     each line: a job, that is the pages of a call that wait; first is the number of the first of them
  state    waits, or torn: a page of its call is lost, so that it is not sent
  tag      null where none was given
The standard error has a line for each file of which records are damaged.

Pictures:
  Letters, digits, -, . and _ of a line's name stand in the name of a file as they are, other octets as %XX. Where a page means
  none, there is no picture, and the standard error tells it.

TIFF:
  Class F (RFC 2306): Group 3 in one dimension, a strip a page, the pages in the order in which they wait. A page that means none
  is left out, and the standard error tells it as page-LINE-LIFE-CALL-NUMBER.pbm; where none is left, there is no file.

Statuses:
  0  the spool was listed
  1  there is no such job, a page means none, or the pages are too long for a TIFF
  2  the command line was refused
  3  memory was wanted and refused: fault memory
  4  both files are missing, a read or a write failed, or a picture or the TIFF could not be written or was there: the standard
     error tells which";
