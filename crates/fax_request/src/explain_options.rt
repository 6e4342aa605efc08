//! What `faxgate explain` is asked for.
ghost use Rattle.clap.specs.Words.{found_of, rows_of};
ghost use Rattle.fax_request.specs.Requests.{AreExplainOptionsOf};

use crate::given::{script_settings_of, text_of};
use clap::ArgMatches;
use fax_gateway::Settings;

/// What is asked of `faxgate explain`.
#[derive(Clone, Copy)]
pub struct ExplainOptions<'a> {
    pub settings: Settings,
    /// What the names of pictures begin with, where pages are to become pictures.
    pub pages: Option<&'a str>,
}

/// The options that were given to `faxgate explain`, and the defaults of those that were not.
pub(crate) fn explain_options_of<'a>(given: &ArgMatches<'a>) -> ExplainOptions<'a>
    ensures { AreExplainOptionsOf (rows_of (found_of given.now)) result }
{
    ExplainOptions {
        settings: script_settings_of(given),
        pages: text_of(given, "pages"),
    }
}
