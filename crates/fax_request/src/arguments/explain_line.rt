//! The command line of `faxgate explain`.
use crate::arguments::building::{Argument, CommandLine, Need, Shape};
use crate::arguments::options::{ASKS, PREAMBLE, REDUNDANCY};

/// The command line of `faxgate explain`.
pub(crate) const EXPLAIN: CommandLine = CommandLine {
    name: "explain",
    about: "Read a script as faxgate trace does, and print its call as a ladder: a line for each thing that happened, with its moment in milliseconds, from whom to whom, and what it means in T.30's terms",
    after: LINES_AND_STATUSES,
    arguments: &[REDUNDANCY, PREAMBLE, ASKS, PAGES],
};

/// The option of pictures.
const PAGES: Argument = Argument {
    name: "pages",
    shape: Shape::Option("PREFIX"),
    help: "Write each page as a picture: PREFIX-CALL-PAGE.pbm where it was confirmed, PREFIX-CALL-PAGE-sent.pbm where it was sent on; a file that is there is written over",
    values: None,
    need: Need::Free,
};

const LINES_AND_STATUSES: &str = "\
Reads:
  A script, as faxgate trace reads it: at most 16,777,216 octets.

Prints:
  MS FROM --> TO WHAT          each line: the moment, from whom to whom, and what happened
  CNG, CED                     tones
  DIS, DCS                     what a machine offers, and what was chosen
  another frame's name         CSI, TSI, NSF, CFR, FTT, MPS, EOP, EOM, MCF, RTN, RTP, DCN, CRP
  passed over                  a frame that is not answered, and why: the gateway sends, no page is due, no call is on
  training check good or bad   the longest run of zero octets, how many are wanted, whether it is whole
  image of N octets            whether it is whole, the datagrams missing in it, and its rows or why it is no page
  MCF page N of call M         a page that was confirmed; RTN says why one was refused
  lost                         numbers of datagrams; brought back: their packets came again in a later one
  again: T2, T4; T1, T2        a timer that repeated something, or gave a call up
  the call is placed           (--asks) the call of the job that was asked for; or it could not be placed
  ring, call, asks, job        what the gateway did; job as faxgate trace prints it, and why it ended so
  a datagram that repeats the one before it is not told

Statuses:
  0  the script was explained
  1  a line tells no event, and the last line tells which: fault line N
  2  the command line was refused
  3  memory was wanted and refused: fault memory
  4  a read, a write or a picture failed, or the script has more than 16,777,216 octets: the standard error tells which";
