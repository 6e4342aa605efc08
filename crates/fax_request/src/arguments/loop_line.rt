//! The command line of `faxgate loop`.
use crate::arguments::building::CommandLine;
use crate::arguments::options::{PREAMBLE, REDUNDANCY};

/// The command line of `faxgate loop`.
pub(crate) const LOOP: CommandLine = CommandLine {
    name: "loop",
    about: "Send a page from one machine through a gateway to another, over UDP on this host: read its octets as hex text, and print how the job ended and the rows that were confirmed",
    after: LINES_AND_STATUSES,
    arguments: &[REDUNDANCY, PREAMBLE],
};

const LINES_AND_STATUSES: &str = "\
Reads:
  The octets of a page as hex text, as faxgate page does: 1,728 elements a row, mh. At most 16,777,216 octets.

Prints:
  job 0 1728 standard 1 DELIVERED OUTCOME
                how the job ended: of one page so many were delivered; faxgate trace --help has the outcomes
  0 3 1725      a line for each row that was confirmed: the lengths of its runs, white first
Or one line of what is wrong, as faxgate page prints it.

Statuses:
  0  the page was delivered
  1  the input has a fault, and its line was printed
  2  the command line was refused
  3  memory was wanted and refused: fault memory
  4  a read or a write failed, the input is too long, or no socket could be made: the standard error tells which
  5  the page was not delivered, or the job not reported within 300,000 rounds: the standard error tells which";
