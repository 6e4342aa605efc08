//! What the options mean that several commands have.
ghost use Rattle.std.specs.Prelude.{◌≡◌, ◌≤◌, ◌^◌, codes, option_map};
ghost use Rattle.clap.specs.Words.{first_of, found_of, one_of, rows_of};
ghost use Rattle.fax_request.specs.Given.{AreScriptSettingsOf, AreSettingsOf, IsFlagOf, IsFormatOf, IsNumberOf, coding_named, repeat_named, width_named};

use clap::ArgMatches;
use fax_gateway::{LEAST_PREAMBLE_MS, MOST_PREAMBLE_MS, MOST_REDUNDANCY, Settings};
use fax_pagestore::{Coding, Format};
use fax_runcodes::Width;
use fax_wires::repeat::RepeatPolicy;

/// The text that was given with an option, or its default.
pub(crate) fn text_of<'a>(given: &ArgMatches<'a>, option: &str) -> Option<&'a str>
    ensures { option_map
        (λ text. text.now) result ≡ first_of option.now (rows_of (found_of given.now)) }
{
    given.get_str(option)
}

/// Whether a flag was given.
pub(crate) fn flag_of(given: &ArgMatches<'_>, flag: &str) -> bool
    ensures { IsFlagOf (one_of flag.now (rows_of (found_of given.now))) result }
{
    given.get_flag(flag)
}

/// The number that was given with an option, within its limits, or the usual one.
pub(crate) fn number_of(
    given: &ArgMatches<'_>,
    option: &str,
    least: u64,
    most: u64,
    usual: u64,
) -> u64
    requires least { least ≤ usual }
    requires most { usual ≤ most }
    ensures { IsNumberOf (one_of option.now (rows_of (found_of given.now)))
        least most usual result }
{
    let Some(number) = given.get_one::<u64>(option) else {
        return usual;
    };
    if least <= number && number <= most {
        number
    } else {
        usual
    }
}

/// The format of pages that was given, and the defaults of what was not.
pub(crate) fn format_of(given: &ArgMatches<'_>) -> Format
    ensures { IsFormatOf (rows_of (found_of given.now)) result }
{
    Format {
        width: width_of(given),
        fine: flag_of(given, "fine"),
    }
}

/// The width of pages that was given, or the default.
fn width_of(given: &ArgMatches<'_>) -> Width
    ensures { result ≡ width_named (first_of (codes "width") (rows_of (found_of given.now))) }
{
    let Some(text) = text_of(given, "width") else {
        return Width::W1728;
    };
    if text == "2432" {
        Width::W2432
    } else if text == "2048" {
        Width::W2048
    } else {
        Width::W1728
    }
}

/// The coding of pages that was given, or the default.
pub(crate) fn coding_of(given: &ArgMatches<'_>) -> Coding
    ensures { result ≡ coding_named (first_of (codes "coding") (rows_of (found_of given.now))) }
{
    let Some(text) = text_of(given, "coding") else {
        return Coding::Mh;
    };
    if text == "mr" { Coding::Mr } else { Coding::Mh }
}

/// The policy of repeats that was given, or the default.
pub(crate) fn repeat_of(given: &ArgMatches<'_>) -> RepeatPolicy
    ensures { result ≡ repeat_named (first_of (codes "repeat") (rows_of (found_of given.now))) }
{
    let Some(text) = text_of(given, "repeat") else {
        return RepeatPolicy::Full;
    };
    if text == "last" {
        RepeatPolicy::Once
    } else if text == "none" {
        RepeatPolicy::Never
    } else {
        RepeatPolicy::Full
    }
}

/// The settings of both legs that were given, and the defaults of those that were not: a job's call begins by itself.
pub(crate) fn settings_of(given: &ArgMatches<'_>) -> Settings
    ensures { AreSettingsOf (rows_of (found_of given.now)) result }
{
    let Settings {
        redundancy,
        preamble_ms,
        asks,
        memory,
    } = Settings::default();
    let most = u64::from(MOST_REDUNDANCY);
    let shortest = u64::from(LEAST_PREAMBLE_MS);
    let longest = u64::from(MOST_PREAMBLE_MS);
    Settings {
        redundancy: number_of(given, "redundancy", 0, most, u64::from(redundancy)) as u8,
        preamble_ms: number_of(given, "preamble", shortest, longest, u64::from(preamble_ms)) as u16,
        asks,
        memory,
    }
}

/// The same of a gateway on which a script is played: whether a job's call is asked for is given, too.
pub(crate) fn script_settings_of(given: &ArgMatches<'_>) -> Settings
    ensures { AreScriptSettingsOf (rows_of (found_of given.now)) result }
{
    Settings {
        asks: flag_of(given, "asks"),
        ..settings_of(given)
    }
}
