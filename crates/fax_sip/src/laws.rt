//! Laws of the definitions: functions that do nothing, each of whose contracts is a theorem.
ghost use Rattle.fax_sip.specs.Laws.{HeadersAreReadBack, LinesAreCut};

/// A text in one line stays in its line, and what follows is read as if the text were not there.
pub fn lines_are_cut()
    ensures { LinesAreCut }
{}

/// A header line that is told is read back: one line, of its name, with its value.
pub fn headers_are_read_back()
    ensures { HeadersAreReadBack }
{}
