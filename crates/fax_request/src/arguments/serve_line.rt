//! The command line of `faxgate serve`.
use crate::arguments::building::{Argument, CommandLine, Need, Shape};

/// The command line of `faxgate serve`.
pub(crate) const SERVE: CommandLine = CommandLine {
    name: "serve",
    about: "Serve the lines of a configuration in real time, over UDP, by words on a control socket or on the standard input, and tell what happens as lines of JSON",
    after: WORDS_AND_STATUSES,
    arguments: &[CONFIG],
};

/// The option of the configuration.
const CONFIG: Argument = Argument {
    name: "config",
    shape: Shape::Option("FILE"),
    help: "The configuration, a TOML document: the lines, and the control socket if there is one",
    values: None,
    need: Need::Required,
};

const WORDS_AND_STATUSES: &str = "\
Reads:
  The configuration, whole, before anything is opened; then words, a line each.

Words:
  ring LINE [TAG]                   it rings on the calling leg of this line; events of the call have the tag
  peer LINE calling|called ADDRESS  from now on the leg's datagrams go to this address, and come from there alone
  hangup LINE calling|called        the peer's call is gone
  report LINE                       asks for the last 64 reports of jobs
  status                            asks how each line is
  metrics                           asks for counts, in the text format of Prometheus
  events                            asks for events, from now on
  reload                            the configuration is read again, and served once no line has a call
  stop                              no ring is taken any more, and it ends when all calls and jobs have, or at the limit
                                    that the configuration sets; a second one ends at once

Prints:
  pages are kept in memory alone: no spool is set
                                  where the configuration has no spool
and, where there is no control socket, what clients of one are told:
  ok .., refused NUMBER NAME      the answer to a word; after the lines that it asked for
  {\"event\":\"job\",\"line\":\"a1\",..}   what happened: rung, page, refused_page, ended, dial,
                                  job, wire, late, not_stored, set_aside, lost

Statuses:
  0  it was told to stop, and has
  2  the command line was refused, the configuration has a fault, or the folder of its spool cannot be opened
  3  memory was wanted and refused
  4  a file, a socket, the clock or the standard output failed
The standard error tells each but 0 in one line.";
