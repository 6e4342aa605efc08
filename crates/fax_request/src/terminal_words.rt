//! What `faxgate send` and `faxgate receive` are asked for.
ghost use Rattle.std.specs.Prelude.{◌≡◌, IfOk, [], codes, map, unwrap_or};
ghost use Rattle.clap.specs.Words.{all_of, found_of, rows_of};
ghost use Rattle.fax_request.specs.Requests.{AreReceiveOptionsOf, AreSendOptionsOf, IsNamingOf, IsPageFormOf};

use crate::given::{coding_of, flag_of, format_of, number_of, repeat_of, settings_of, text_of};
use clap::ArgMatches;
use fax_send_receive::{PageForm, PageNaming, ReceiveOptions, SendOptions};
use std::alloc::{AllocError, Global};

/// The options that were given to `faxgate send`, and the defaults of those that were not.
pub(crate) fn send_options_of<'a>(given: &ArgMatches<'a>) -> SendOptions<'a>
    ensures { AreSendOptionsOf (rows_of (found_of given.now)) result }
{
    SendOptions {
        to: text_of(given, "to").unwrap_or(""),
        on: text_of(given, "on"),
        format: format_of(given),
        coding: coding_of(given),
        settings: settings_of(given),
        repeat: repeat_of(given),
    }
}

/// The files that were given to `faxgate send`.
pub(crate) fn send_files_of<'a>(
    alloc: Global,
    given: &ArgMatches<'a>,
) -> Result<Vec<&'a str>, AllocError>
    ensures { IfOk result (λ files. map (λ file. file.now) files.items
        ≡ unwrap_or (all_of (codes "file") (rows_of (found_of given.now))) []) }
{
    match given.get_strs("file") {
        Some(files) => Vec::from_slice(alloc, files),
        None => Ok(Vec::new(alloc)),
    }
}

/// The options that were given to `faxgate receive`, and the defaults of those that were not.
pub(crate) fn receive_options_of<'a>(given: &ArgMatches<'a>) -> ReceiveOptions<'a>
    ensures { AreReceiveOptionsOf (rows_of (found_of given.now)) result }
{
    ReceiveOptions {
        on: text_of(given, "on").unwrap_or(""),
        naming: naming_of(given),
        calls: number_of(given, "calls", 1, u64::MAX, u64::MAX),
        settings: settings_of(given),
        repeat: repeat_of(given),
    }
}

/// How the files of received pages are named, and what stands in them.
fn naming_of<'a>(given: &ArgMatches<'a>) -> PageNaming<'a>
    ensures { IsNamingOf (rows_of (found_of given.now)) result }
{
    PageNaming {
        prefix: text_of(given, "pages").unwrap_or("page"),
        form: form_of(given),
    }
}

/// What stands in the files of received pages: TIFFs where they were asked for.
fn form_of(given: &ArgMatches<'_>) -> PageForm
    ensures { IsPageFormOf (rows_of (found_of given.now)) result }
{
    if flag_of(given, "tiff") {
        PageForm::Tiff
    } else {
        PageForm::Picture
    }
}
