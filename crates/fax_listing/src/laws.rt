//! Laws of the definitions: functions that do nothing, each of whose contracts is a theorem.
ghost use Rattle.fax_listing.specs.Laws.{LinesAreOnlyShown, PagesHaveNamesOfTheirOwn};

/// No two pages have their pictures under one name.
pub fn pages_have_names_of_their_own()
    ensures { PagesHaveNamesOfTheirOwn }
{}

/// What is written of jobs is text that a terminal only shows.
pub fn lines_are_only_shown()
    ensures { LinesAreOnlyShown }
{}
