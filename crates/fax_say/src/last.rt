//! The last line of an answer.
ghost use Rattle.std.specs.Prelude.{◌≡◌};
ghost use Rattle.fax_control.specs.ClientStreams.{octets_of_heard};
ghost use Rattle.fax_say.specs.Answers.{is_done, said_by, said_by_heard};

use fax_control::HeardLine;

/// What the last line of an answer says.
#[derive(Clone, Copy, PartialEq, Eq)]
pub enum Last {
    /// `ok`, `ok ..`, or `# EOF` after counts.
    Done,
    /// `refused NUMBER NAME`.
    Refused,
}

/// What a line says that was heard, if it may be the last one of an answer.
pub(crate) fn last_of(heard: &HeardLine) -> Option<Last>
    ensures { result ≡ said_by_heard (octets_of_heard heard.now) }
{
    match heard {
        HeardLine::Line(octets) => said_by(octets.as_slice()),
        HeardLine::TooLong => None,
    }
}

/// The same of the octets of a line.
fn said_by(line: &[u8]) -> Option<Last>
    ensures { result ≡ said_by line.now }
{
    if is_done(line) {
        Some(Last::Done)
    } else if line.starts_with(b"refused ") {
        Some(Last::Refused)
    } else {
        None
    }
}

/// Whether a line says that a word was done.
fn is_done(line: &[u8]) -> bool
    ensures { result ≡ is_done line.now }
{
    line == b"ok".as_slice() || line == b"# EOF".as_slice() || line.starts_with(b"ok ")
}
