//! What `faxgate say` is asked for.
ghost use Rattle.std.specs.Prelude.{◌≡◌, IfOk, string_bytes};
ghost use Rattle.clap.specs.Words.{found_of, rows_of};
ghost use Rattle.fax_request.specs.Requests.{words_said};

use crate::arguments::refused_words;
use clap::{ArgMatches, Error};
use fax_say::{Saying, Unsayable};
use std::alloc::{AllocError, Global};

/// The line that the words given to `faxgate say` make. An `Err` tells why it cannot be said.
pub(crate) fn saying_of(alloc: Global, given: &ArgMatches<'_>) -> Result<Saying, Error>
    ensures { IfOk result (λ saying. saying ≡ words_said (rows_of (found_of given.now))) }
{
    match Saying::of_text(text_said(alloc, given)?) {
        Ok(saying) => Ok(saying),
        Err(Unsayable::LineFeed) => Err(refused_words(alloc, "a line feed stands in them")),
        Err(Unsayable::TooLong) => Err(refused_words(alloc, "a line of more than 256 octets")),
    }
}

/// Those words, with one space between.
fn text_said(alloc: Global, given: &ArgMatches<'_>) -> Result<String, AllocError>
    ensures { IfOk result (λ text. string_bytes text ≡ words_said (rows_of (found_of given.now))) }
{
    match given.get_strs("word") {
        Some(words) => words.join(alloc, " "),
        None => Ok(String::new(alloc)),
    }
}
