//! The command line of `faxgate check`.
use crate::arguments::building::{Argument, CommandLine, Need, Shape};

/// The command line of `faxgate check`.
pub(crate) const CHECK: CommandLine = CommandLine {
    name: "check",
    about: "Read a configuration as faxgate serve does, and say what its server wants of the system; nothing is opened",
    after: ANSWER_AND_STATUSES,
    arguments: &[CONFIG],
};

/// The option of the configuration.
const CONFIG: Argument = Argument {
    name: "config",
    shape: Shape::Option("FILE"),
    help: "The configuration, a TOML document: the lines, and the control socket if there is one",
    values: None,
    need: Need::Required,
};

const ANSWER_AND_STATUSES: &str = "\
Prints:
  lines N        how many lines the configuration has
  descriptors N  how many descriptors a server of them has open at most (ulimit -n)

Statuses:
  0  faxgate serve can take it
  2  the command line was refused, or the configuration has a fault
  3  memory was wanted and refused
  4  the file or the standard output failed, or this process could not open so many descriptors
The standard error tells each but 0 in one line.";
