//! The command line of `faxgate trace`.
use crate::arguments::building::CommandLine;
use crate::arguments::options::{ASKS, PREAMBLE, REDUNDANCY};

/// The command line of `faxgate trace`.
pub(crate) const TRACE: CommandLine = CommandLine {
    name: "trace",
    about: "Play a script on a new gateway, and print what it answers. Lines of a script: R (it rings), A HEX and B HEX (a datagram came on the calling or on the called leg), T MS (time goes on to a moment), C MS and N MS (the call of a job was placed, or could not be)",
    after: LINES_AND_STATUSES,
    arguments: &[REDUNDANCY, PREAMBLE, ASKS],
};

const LINES_AND_STATUSES: &str = "\
Reads:
  R      it rings on the calling leg
  A HEX  a datagram came on the calling leg
  B HEX  a datagram came on the called leg
  T MS   time goes on to this moment, in milliseconds
  C MS   at this moment the call of the job that is asked for is placed: the called machine has answered
  N MS   at this moment it could not be placed: that machine could not be reached
Rings and datagrams come at the last moment that was told, at 0 before the first.
A script has at most 16,777,216 octets: some 17 minutes of one leg at 14,400 bit/s.

Prints:
  ring N                   it rang: the number of the call
  ring refused 1 Busy      a call is on; 2 NoNumber: no number is left
  asks CALL                (--asks) the job of this call waits for its own call to be placed
  connect refused 1 NotAsked
                           no job waits so; not-connected refused 1 NotAsked: the same
  a HEX                    the gateway sends this datagram on the calling leg
  b HEX                    the same on the called leg
  job CALL WIDTH standard|fine PAGES DELIVERED OUTCOME
                           the job of this call has ended: so many pages, so many of them delivered
  fault line N             line N, from 1, is none of the six, and no more is played
  fault memory             memory was wanted and refused, and no more is played; what was told before stays

Outcomes:
  Delivered                all pages were sent and confirmed
  NotReceiver              the called machine does not receive; WidthLacking, FineLacking: not such pages
  RatesSpent               the training failed at each rate
  NoAnswer                 the called machine sent no DIS
  NoReply                  it left a command unanswered, or sent no DIS after a page of another format
  PageRefused              it refused a page three times
  HungUp                   it ended the call
  NotPlaced                it could not be reached

Statuses:
  0  the whole script was played
  1  a line of it has a fault: fault line N
  2  the command line was refused
  3  memory was wanted and refused: fault memory
  4  a read or a write failed, or the script is too long: the standard error tells which";
