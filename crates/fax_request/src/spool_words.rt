//! What `faxgate spool` is asked for.
ghost use Rattle.clap.specs.Words.{found_of, rows_of};
ghost use Rattle.fax_request.specs.SpoolWords.{AreSpoolOptionsOf, IsChoiceOf, IsWantedOf};

use crate::given::{number_of, text_of};
use clap::ArgMatches;
use fax_listing::{Choice, SpoolOptions, WantedFiles};

/// The options that were given to `faxgate spool`.
pub(crate) fn spool_options_of<'a>(given: &ArgMatches<'a>) -> SpoolOptions<'a>
    ensures { AreSpoolOptionsOf (rows_of (found_of given.now)) result }
{
    SpoolOptions {
        folder: text_of(given, "folder").unwrap_or(""),
        wanted: wanted_of(given),
        choice: choice_of(given),
    }
}

/// What is made of pages: one TIFF where its file was given, else pictures where what their names begin with was.
fn wanted_of<'a>(given: &ArgMatches<'a>) -> WantedFiles<'a>
    ensures { IsWantedOf (rows_of (found_of given.now)) result }
{
    if let Some(name) = text_of(given, "tiff") {
        return WantedFiles::Tiff(name);
    }
    match text_of(given, "pages") {
        Some(prefix) => WantedFiles::Pictures(prefix),
        None => WantedFiles::Nothing,
    }
}

/// The job that is chosen, where a line was given.
fn choice_of<'a>(given: &ArgMatches<'a>) -> Option<Choice<'a>>
    ensures { IsChoiceOf (rows_of (found_of given.now)) result }
{
    let most = u64::from(u32::MAX);
    let Some(line) = text_of(given, "line") else {
        return None;
    };
    Some(Choice {
        line,
        life: number_of(given, "life", 0, most, 0) as u32,
        call: number_of(given, "call", 0, most, 0) as u32,
    })
}
