//! What `faxgate page` is asked for.
ghost use Rattle.clap.specs.Words.{found_of, rows_of};
ghost use Rattle.fax_request.specs.Requests.{ArePageOptionsOf, IsOutputOf};

use crate::given::{coding_of, flag_of, format_of, number_of};
use clap::ArgMatches;
use fax_command::{Output, PageOptions};

/// The most of the least bits of a line.
const MOST_LEAST_BITS: u64 = 65_535;

/// The options that were given to `faxgate page`, and the defaults of those that were not.
pub(crate) fn page_options_of(given: &ArgMatches<'_>) -> PageOptions
    ensures { ArePageOptionsOf (rows_of (found_of given.now)) result }
{
    PageOptions {
        format: format_of(given),
        coding: coding_of(given),
        least_bits: number_of(given, "least", 0, MOST_LEAST_BITS, 0) as u32,
        output: output_of(given),
    }
}

/// What is to be made of the input.
fn output_of(given: &ArgMatches<'_>) -> Output
    ensures { IsOutputOf (rows_of (found_of given.now)) result }
{
    if flag_of(given, "back") {
        Output::Octets
    } else if flag_of(given, "pbm") {
        Output::Picture
    } else {
        Output::Runs
    }
}
