//! Laws of two-dimensional lines: functions that do nothing, each of whose contracts is a theorem.
ghost use Rattle.fax_mrcode.specs.Laws.{TextsAreUnique, LinesDontFail, FaultsAreUnique, LinesAreReadOrFail};
ghost use Rattle.fax_mrcode.specs.WrittenLaws.{WrittenLinesAreSpelt, WrittenLinesAreUnique, RowsAreWritten};

/// Against one reference a text spells at most one row, and is no proper front of another row's text.
pub fn texts_are_unique()
    ensures { TextsAreUnique }
{}

/// Reading what begins with a line meets no fault.
pub fn lines_dont_fail()
    ensures { LinesDontFail }
{}

/// Reading a line meets at most one fault.
pub fn faults_are_unique()
    ensures { FaultsAreUnique }
{}

/// Any bits begin with a line against a reference, or reading one meets a fault.
pub fn lines_are_read_or_fail()
    ensures { LinesAreReadOrFail }
{}

/// The bits in which a row is written spell it.
pub fn written_lines_are_spelt()
    ensures { WrittenLinesAreSpelt }
{}

/// A row is written against a reference in one way only.
pub fn written_lines_are_unique()
    ensures { WrittenLinesAreUnique }
{}

/// A row is written against a reference of its width in some way.
pub fn rows_are_written()
    ensures { RowsAreWritten }
{}
